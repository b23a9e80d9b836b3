//! The law on the form of executables, as the contract of a function that does nothing.

ghost use Rattle.std.specs.Prelude.{Bool, List};
ghost use Rattle.f77_tree.specs.declared.statements.Labelled.{Labelled};
ghost use Rattle.form_laws.specs.RightKinds.{AreExecutables, HasNoWrongKind};
ghost use Rattle.layout_rules.specs.Layout.{program};
ghost use Rattle.layout_rules.specs.Source.{IsSource};

/// Where no statement has a wrong kind, each executable that they make is of the right kinds and shapes.
pub fn executables_have_right_kinds()
    ensures { (stmts : List Labelled) (checked : Bool) → IsSource stmts → HasNoWrongKind stmts → AreExecutables (program stmts checked) }
{}
