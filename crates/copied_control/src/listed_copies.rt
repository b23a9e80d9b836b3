//! Laws on where copies stand in the list of the expansion, as contracts of functions that do nothing.

ghost use Rattle.std.specs.Prelude.{◌≡◌, ◌+◌, ◌<◌, ◌++◌, ◌||◌, Bool, true, ℕ, List, [], drop, length, map, None, Some, slice_get};
ghost use Rattle.std.specs.List.{range_with_len};
ghost use Rattle.f77_tree.specs.declared.statements.Labelled.{Labelled};
ghost use Rattle.f77_tree.specs.declared.statements.RawExpr.{RawExpr};
ghost use Rattle.layout_rules.specs.Executables.{first_of, is_do_to, loops_to, met};
ghost use Rattle.layout_rules.specs.Jumps.{end_after, end_of_arm, end_of_block, is_block_if};
ghost use Rattle.layout_rules.specs.Labels.{is_arm, statement_of};
ghost use Rattle.layout_rules.specs.Layout.{refusal};
ghost use Rattle.program_units.specs.Units.{Call, call_in, guard_of, standing_in, unit_at, unit_of, units};
ghost use Rattle.program_units.specs.declared.entity.Entity.{Entity};
ghost use Rattle.program_units.specs.Widths.{body_labels, body_width, labels, labels_written};
ghost use Rattle.program_units.specs.Contexts.{IsInPlace, IsReached};
ghost use Rattle.program_units.specs.Heights.{NoneCallsItself};
ghost use Rattle.program_units.specs.Copies.{Context, copy, number_at};
ghost use Rattle.program_units.specs.Expansion.{main_context, whole_list};
ghost use Rattle.program_units.specs.ListedCopies.{IsClosedAt, StandsIn, called_context, closing, copied_place, lines_before, main_place, piece_at};
ghost use Rattle.program_units.specs.CopiedLoops.{HasEndOf, HasItsLoops, HaveEnds, IsEndOf, last_number};
ghost use Rattle.copied_control.specs.Landings.{landing};
ghost use Rattle.program_units.specs.OpenBlocks.{AreClosedUnits, IsEnded, are_closed};
ghost use Rattle.program_units.specs.Refusals.{unit_refusal};
ghost use Rattle.program_units.specs.Texts.{IsText};

/// The main program stands in the whole list, and where the context of a unit stands in a list, so does that of each CALL in
/// the unit, behind the label before it and, after a condition, the IF.
pub fn copies_stand_in_lists()
    ensures main { (us : List (List Labelled)) → StandsIn us (whole_list us) (main_context us) (main_place us) }
    ensures called { (us : List (List Labelled)) (list : List Labelled) (c : Context) (at : ℕ → ℕ)
        → StandsIn us list c at → (place : ℕ) (s : Labelled) (call : Call) → 0 < c.depth
        → slice_get (unit_at us c.unit) place ≡ Some s → call_in s.stmt ≡ Some call
        → StandsIn us list (called_context us c place call) (copied_place us (called_context us c place call)
        (at place + lines_before (guard_of s.stmt))) }
{}

/// Blocks of IF end in the unit in which they begin, where it is a program by itself, so they end in its copies and in what
/// stands for a CALL; who looks for the end of an outer arm or block passes over these.
pub fn copies_are_sealed()
    ensures accepted { (unit : List Labelled) (checked : Bool) → refusal (standing_in unit) checked ≡ None → IsEnded unit → are_closed 0 unit ≡ true }
    ensures copies { (us : List (List Labelled)) → AreClosedUnits us
        → (depth k : ℕ) (arguments : List Entity) (base : ℕ) → are_closed 0 (copy us depth k arguments base) ≡ true }
    ensures called { (us : List (List Labelled)) → AreClosedUnits us
        → (c : Context) (place : ℕ) (s : Labelled) (call : Call) → call_in s.stmt ≡ Some call
        → are_closed 0 (piece_at us c place s) ≡ true }
    ensures passed { (arms : Bool) (part rest : List Labelled) (inner place : ℕ) → are_closed 0 part ≡ true
        → end_after arms inner (part ++ rest) place ≡ end_after arms inner rest (place + length part) }
{}

/// Where control goes from an IF, ELSE IF or ELSE: what stands for the end of its arm and of its block is the end in the list,
/// and the block that is merged after the condition of a logical IF ends behind the copy.
pub fn arms_end_alike()
    ensures arms { (us : List (List Labelled)) → AreClosedUnits us
        → (list : List Labelled) (c : Context) (at : ℕ → ℕ) → StandsIn us list c at → (place : ℕ) (s : Labelled)
        → slice_get (unit_at us c.unit) place ≡ Some s → (is_block_if s.stmt || is_arm s.stmt) ≡ true
        → end_of_arm list (at place) ≡ at (end_of_arm (unit_at us c.unit) place) }
    ensures blocks { (us : List (List Labelled)) → AreClosedUnits us
        → (list : List Labelled) (c : Context) (at : ℕ → ℕ) → StandsIn us list c at → (place : ℕ) (s : Labelled)
        → slice_get (unit_at us c.unit) place ≡ Some s → (is_block_if s.stmt || is_arm s.stmt) ≡ true
        → end_of_block list (at place) ≡ at (end_of_block (unit_at us c.unit) place) }
    ensures inserted { (us : List (List Labelled)) → AreClosedUnits us
        → (list : List Labelled) (c : Context) (at : ℕ → ℕ) → StandsIn us list c at
        → (arms : Bool) (place : ℕ) (s : Labelled) (call : Call) (condition : RawExpr)
        → slice_get (unit_at us c.unit) place ≡ Some s → call_in s.stmt ≡ Some call
        → guard_of s.stmt ≡ Some condition
        → end_after arms 0 (drop (at place + 1 + 1) list) (at place + 1 + 1) ≡ at place + 2 + body_width us c.depth (unit_of us call.name) }
{}

/// Where control falls to the statements from a place on, it meets the first executable of the statement on which it lands, and
/// from what stands for a statement of a unit it lands on what stands for the one on which it lands in the unit; in place of a
/// subroutine's END stands the end of the copy.
pub fn control_falls_alike()
    ensures met { (stmts : List Labelled) (place : ℕ) → met stmts place ≡ first_of stmts (landing stmts place) }
    ensures landings { (us : List (List Labelled)) → AreClosedUnits us
        → (list : List Labelled) (c : Context) (at : ℕ → ℕ) → StandsIn us list c at → IsEnded (unit_at us c.unit)
        → (place : ℕ) → place < length (unit_at us c.unit)
        → landing list (at place) ≡ at (landing (unit_at us c.unit) place) }
    ensures next { (us : List (List Labelled)) → AreClosedUnits us
        → (list : List Labelled) (c : Context) (at : ℕ → ℕ) → StandsIn us list c at → IsEnded (unit_at us c.unit)
        → (place : ℕ) (s : Labelled) → slice_get (unit_at us c.unit) place ≡ Some s
        → landing list (at place + length (piece_at us c place s)) ≡ landing list (at (place + 1)) }
{}

/// In a list whose labels are 1, 2 and so on, the number of a place that has labels leads to what stands for its statement; the
/// last label of a CALL, and the one that closes a copy, lead to the last statement there.
pub fn labels_lead_to_pieces()
    ensures first { (us : List (List Labelled)) (list : List Labelled) (c : Context) (at : ℕ → ℕ) (count : ℕ)
        → StandsIn us list c at → labels_written list ≡ range_with_len 1 count → (place : ℕ) (s : Labelled)
        → slice_get (unit_at us c.unit) place ≡ Some s → 0 < labels (body_labels us c.depth) us c.unit s
        → statement_of list (number_at us c.depth c.unit c.base place) ≡ at place }
    ensures last { (us : List (List Labelled)) (list : List Labelled) (c : Context) (at : ℕ → ℕ) (count : ℕ)
        → StandsIn us list c at → labels_written list ≡ range_with_len 1 count
        → (place : ℕ) (s : Labelled) (call : Call) → slice_get (unit_at us c.unit) place ≡ Some s
        → call_in s.stmt ≡ Some call
        → statement_of list (number_at us c.depth c.unit c.base place + body_labels us c.depth (unit_of us call.name) + 1) + 1 ≡ at place +
        length (piece_at us c place s) }
    ensures closed { (list : List Labelled) (count place b : ℕ) → labels_written list ≡ range_with_len 1 count
        → 0 < b → (closed : IsClosedAt list place b)
        → statement_of list b + 1 ≡ place + length (closing closed.guarded b closed.line) }
{}

/// DO loops of copies. In a unit that is a program by itself each DO ends at a statement of its copies. Of all statements of a list only those of a context are DOs to its labels: so it is for the main program
/// in the whole list, and for each CALL of a context for which it is so. Then the DOs that end at the last label of what stands
/// for the end of a range are those of the unit that end there, the innermost first, and none ends at the label before a copy,
/// nor where no label stands.
pub fn loops_end_alike()
    ensures accepted { (us : List (List Labelled)) (checked : Bool) (k : ℕ)
        → refusal (standing_in (unit_at us k)) checked ≡ None → IsEnded (unit_at us k)
        → ((place label : ℕ) (s : Labelled) → slice_get (unit_at us k) place ≡ Some s → is_do_to label s.stmt ≡ true → 0 < label)
        → (place label : ℕ) (s : Labelled) → slice_get (unit_at us k) place ≡ Some s → is_do_to label s.stmt ≡ true
        → HasEndOf us k label }
    ensures main { (us : List (List Labelled)) → HasItsLoops us (whole_list us) (main_context us) (main_place us) }
    ensures called { (us : List (List Labelled)) → HaveEnds us → (list : List Labelled) (c : Context) (at : ℕ → ℕ)
        → HasItsLoops us list c at → (place : ℕ) (s : Labelled) (call : Call) → 0 < c.depth
        → slice_get (unit_at us c.unit) place ≡ Some s → call_in s.stmt ≡ Some call
        → HasItsLoops us list (called_context us c place call)
        (copied_place us (called_context us c place call) (at place + lines_before (guard_of s.stmt))) }
    ensures ended { (us : List (List Labelled)) → HaveEnds us → (list : List Labelled) (c : Context) (at : ℕ → ℕ)
        → HasItsLoops us list c at → (label : ℕ) (last : Labelled) → IsEndOf us c.unit label last
        → loops_to list (last_number us c (statement_of (unit_at us c.unit) label) last) ≡ map at (loops_to (unit_at us c.unit) label) }
    ensures first { (us : List (List Labelled)) → HaveEnds us → (list : List Labelled) (c : Context) (at : ℕ → ℕ)
        → HasItsLoops us list c at → (place : ℕ) (s : Labelled) (call : Call)
        → slice_get (unit_at us c.unit) place ≡ Some s → call_in s.stmt ≡ Some call
        → loops_to list (number_at us c.depth c.unit c.base place) ≡ [] }
    ensures nought { (us : List (List Labelled)) → HaveEnds us → loops_to (whole_list us) 0 ≡ [] }
    ensures unlabelled { (us : List (List Labelled)) → HaveEnds us → (k : ℕ) → loops_to (unit_at us k) 0 ≡ [] }
{}

/// Where no unit calls itself, the context of the main program, and that of each CALL in one of these contexts, stands in the
/// whole list, with its loops, and is deep enough for the copies in it.
pub fn contexts_are_in_place()
    ensures { (us : List (List Labelled)) → NoneCallsItself us → HaveEnds us → (c : Context) (at : ℕ → ℕ) → IsReached us c at → IsInPlace us c at }
{}

/// In a text whose units nothing refuses, the blocks of IF and the DO loops of each unit end in it, and no unit calls itself; so
/// each context that is reached is in its place, and is of a unit of the text, which END ends.
pub fn units_keep_their_control()
    ensures closed { (stmts : List Labelled) (checked : Bool) → IsText stmts → unit_refusal stmts checked ≡ None → AreClosedUnits (units stmts) }
    ensures ends { (stmts : List Labelled) (checked : Bool) → IsText stmts → unit_refusal stmts checked ≡ None → HaveEnds (units stmts) }
    ensures alone { (stmts : List Labelled) (checked : Bool) → IsText stmts → unit_refusal stmts checked ≡ None → NoneCallsItself (units stmts) }
    ensures placed { (stmts : List Labelled) (checked : Bool) → IsText stmts → unit_refusal stmts checked ≡ None
        → (c : Context) (at : ℕ → ℕ) → IsReached (units stmts) c at → IsInPlace (units stmts) c at }
    ensures inside { (stmts : List Labelled) (checked : Bool) → IsText stmts → unit_refusal stmts checked ≡ None
        → (c : Context) (at : ℕ → ℕ) → IsReached (units stmts) c at → c.unit < length (units stmts) }
    ensures ended { (stmts : List Labelled) (checked : Bool) → IsText stmts → unit_refusal stmts checked ≡ None
        → (c : Context) (at : ℕ → ℕ) → IsReached (units stmts) c at → IsEnded (unit_at (units stmts) c.unit) }
{}
