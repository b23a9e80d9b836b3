//! A law of expansions: they can be laid out.
ghost use Rattle.std.specs.Prelude.{◌≡◌, Bool, List, Ok};
ghost use Rattle.f77_tree.specs.declared.statements.Labelled.{Labelled};
ghost use Rattle.layout_rules.specs.Source.{IsSource};
ghost use Rattle.program_units.specs.Refusals.{expansion};
ghost use Rattle.program_units.specs.Texts.{IsText};

/// The expansion of a text whose units nothing refuses can be laid out: each statement is a tree, and none of subroutines; labels have at
/// most five digits; and the main program's END stands last, as one of at most 4,000 statements.
pub fn expansions_are_sources()
    ensures { (stmts list : List Labelled) (checked : Bool) → IsText stmts → expansion stmts checked ≡ Ok list → IsSource list }
{}
