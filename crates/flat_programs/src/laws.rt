//! Laws on flat statements, as contracts of functions that do nothing.
ghost use Rattle.std.specs.Prelude.{◌≡◌, ℕ, List, length, Some, slice_get};
ghost use Rattle.f77_tree.specs.declared.programs.Exec.{Exec};
ghost use Rattle.f77_tree.specs.declared.programs.Program.{Program};
ghost use Rattle.f77_tree.specs.WellFormed.{IsWellFormed};
ghost use Rattle.flat_programs.specs.declared.statements.FlatLine.{FlatLine};
ghost use Rattle.flat_programs.specs.Executables.{executables, first_of};
ghost use Rattle.flat_programs.specs.ExecutablePlaces.{IsExecutableOfSome};
ghost use Rattle.flat_programs.specs.FlatForm.{AreProper, AreStatementsOf, IsFlat};
ghost use Rattle.flat_programs.specs.FlatLaws.{FlatStatementsMakeExecutables, FlatStatementsMakePrograms, FirstExecutablesStand, OtherExecutablesFollow, NextExecutablesFollow};
ghost use Rattle.flat_programs.specs.Recovered.{recovered};

/// The executables of proper flat statements are those of a program, and with the declarations of a well-formed program they are a
/// well-formed one.
pub fn flat_statements_make_programs()
    ensures executables { FlatStatementsMakeExecutables }
    ensures program { FlatStatementsMakePrograms }
{}

/// The executables of flat statements tell these statements, so that no other ones have them; and the executables of a well-formed
/// program are those of proper statements alone.
pub fn executables_tell_statements()
    ensures recovered { (flat : List FlatLine) → IsFlat flat → recovered (executables flat) ≡ flat }
    ensures one { (p : Program) (flat other : List FlatLine) → AreStatementsOf p flat → AreStatementsOf p other → flat ≡ other }
    ensures proper { (p : Program) (flat : List FlatLine) → IsWellFormed p → AreStatementsOf p flat → AreProper p.names flat }
{}

/// Where the executables of flat statements stand: the first one of a statement after those of all statements before it, and the other
/// one that some statements have right after the first; there are no others.
pub fn executables_stand_in_order()
    ensures first { FirstExecutablesStand }
    ensures other { OtherExecutablesFollow }
    ensures next { NextExecutablesFollow }
    ensures count { (flat : List FlatLine) → length (executables flat) ≡ first_of flat (length flat) }
    ensures only { (flat : List FlatLine) (k : ℕ) (exec : Exec) → slice_get (executables flat) k ≡ Some exec → IsExecutableOfSome flat k exec }
{}
