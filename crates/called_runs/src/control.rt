//! Laws on control in copies of units, as contracts of functions that do nothing.

ghost use Rattle.std.specs.Prelude.{◌≡◌, ◌+◌, Bool, true, false, ℕ, List, Some, None};
ghost use Rattle.f77_tree.specs.declared.programs.NameInfo.{NameInfo};
ghost use Rattle.f77_tree.specs.declared.programs.Program.{Program};
ghost use Rattle.f77_tree.specs.declared.statements.Labelled.{Labelled};
ghost use Rattle.layout_rules.specs.Executables.{beyond, first_of, labelled};
ghost use Rattle.program_units.specs.Copies.{Context, changes};
ghost use Rattle.program_units.specs.Expansion.{whole_list};
ghost use Rattle.program_units.specs.ListedCopies.{called_context, copied_place, lines_before};
ghost use Rattle.program_units.specs.Units.{Call, call_in, guard_of, inner, is_end, unit_at, units};
ghost use Rattle.program_units.specs.Widths.{is_kept};
ghost use Rattle.called_runs.specs.CopiedControl.{IncrementsAreAlike, OwnAreAlike};
ghost use Rattle.called_runs.specs.CopiedPositions.{IsStatementIn, Stands, label_before, label_behind, last_place, leaves};
ghost use Rattle.called_runs.specs.Expanded.{IsExpanded};

/// In the expansion of a text that nothing refuses, the executables of a unit's statement and those of its copy do the same with
/// changed expressions, one by one, and lead to executables that stand for one another; so do the increments of the DOs that end
/// there. (RETURN and STOP are apart: what they do depends on who runs the unit.) The label before the copy of a CALL leads to what
/// the called unit does first, where no condition stands before; the label behind it leads to where control goes after the CALL; and
/// to this one RETURN and a jump to END of the called unit lead.
pub fn copies_keep_control()
    ensures own { (stmts : List Labelled) (checked : Bool) (p : Program) → IsExpanded stmts checked p
        → (names others : List NameInfo) (c : Context) (at : ℕ → ℕ) (place : ℕ) (s : Labelled)
        → IsStatementIn (units stmts) c at place s
        → is_kept c.unit s.stmt ≡ true
        → call_in s.stmt ≡ None
        → leaves (inner s.stmt) ≡ false
        → OwnAreAlike (units stmts) names others checked c at place s }
    ensures increments { (stmts : List Labelled) (checked : Bool) (p : Program) → IsExpanded stmts checked p
        → (names others : List NameInfo) (c : Context) (at : ℕ → ℕ) (place : ℕ) (s : Labelled)
        → IsStatementIn (units stmts) c at place s
        → is_kept c.unit s.stmt ≡ true
        → is_end s.stmt ≡ false
        → IncrementsAreAlike (units stmts) names others checked c at place s }
    ensures called { (stmts : List Labelled) (checked : Bool) (p : Program) → IsExpanded stmts checked p
        → (c : Context) (at : ℕ → ℕ) (place : ℕ) (s : Labelled) (call : Call) → IsStatementIn (units stmts) c at place s
        → call_in s.stmt ≡ Some call
        → guard_of s.stmt ≡ None
        → Stands (units stmts) (whole_list (units stmts)) (called_context (units stmts) c place call)
        (copied_place (units stmts) (called_context (units stmts) c place call) (at place + lines_before (guard_of s.stmt)))
        0 (beyond (whole_list (units stmts)) (at place) (label_before (units stmts) c place s)) }
    ensures behind { (stmts : List Labelled) (checked : Bool) (p : Program) → IsExpanded stmts checked p
        → (c : Context) (at : ℕ → ℕ) (place : ℕ) (s : Labelled) (call : Call) → IsStatementIn (units stmts) c at place s
        → call_in s.stmt ≡ Some call
        → Stands (units stmts) (whole_list (units stmts)) c at (beyond (unit_at (units stmts) c.unit) place s)
        (beyond (whole_list (units stmts)) (last_place (units stmts) c at place s) (label_behind (units stmts) c place s call)) }
    ensures back { (stmts : List Labelled) (checked : Bool) (p : Program) → IsExpanded stmts checked p
        → (c : Context) (at : ℕ → ℕ) (place : ℕ) (s : Labelled) (call : Call) → IsStatementIn (units stmts) c at place s
        → call_in s.stmt ≡ Some call
        → labelled (whole_list (units stmts)) (changes (units stmts) (called_context (units stmts) c place call)).back
        ≡ first_of (whole_list (units stmts)) (last_place (units stmts) c at place s) }
{}
