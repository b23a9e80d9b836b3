//! Laws on the names of copies, as contracts of functions that do nothing.

ghost use Rattle.std.specs.Prelude.{◌≡◌, Bool, ℕ, List, None};
ghost use Rattle.f77_tree.specs.declared.statements.Labelled.{Labelled};
ghost use Rattle.program_units.specs.Contexts.{IsReached};
ghost use Rattle.program_units.specs.Copies.{Context};
ghost use Rattle.called_runs.specs.DeclaredNames.{AreDeclaredAlike, IsDeclaredAs};
ghost use Rattle.program_units.specs.Entities.{stands_for};
ghost use Rattle.program_units.specs.Refusals.{unit_refusal};
ghost use Rattle.program_units.specs.Units.{standing_in, unit_at, units};

/// In a copy each name has the kind and the dimensions of the entity that it stands for: arguments are as the dummies are, and
/// a block is in each unit as in the first one that has it.
pub fn copied_names_are_declared_alike()
    ensures { (stmts : List Labelled) (checked : Bool) → unit_refusal stmts checked ≡ None
        → (c : Context) (at : ℕ → ℕ) → IsReached (units stmts) c at
        → (x : List ℕ)
        → IsDeclaredAs (units stmts) (unit_at (units stmts) c.unit) x (stands_for (units stmts) c.unit c.arguments x) }
{}

/// What stands in for the statements of a unit declares its names as the unit does.
pub fn stand_ins_are_declared_alike()
    ensures { (u : List Labelled) (x : List ℕ) → AreDeclaredAlike (standing_in u) u x x }
{}
