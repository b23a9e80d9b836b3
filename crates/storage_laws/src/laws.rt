//! The law on what is declared, as the contract of a function that does nothing.

ghost use Rattle.std.specs.Prelude.{Bool, List};
ghost use Rattle.f77_tree.specs.declared.statements.Labelled.{Labelled};
ghost use Rattle.layout_rules.specs.Layout.{program};
ghost use Rattle.layout_rules.specs.Source.{IsSource};
ghost use Rattle.storage_laws.specs.StoredRight.{HasNoStorageFault, IsStored};

/// Where no statement has a fault of storage, the declarations of the program that they make are well formed, and so are the
/// places of its names.
pub fn declared_storage_is_well_formed()
    ensures { (stmts : List Labelled) (checked : Bool) → IsSource stmts → HasNoStorageFault stmts → IsStored (program stmts checked) }
{}
