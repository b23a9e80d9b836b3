//! Laws on expansions, as contracts of functions that do nothing.

ghost use Rattle.std.specs.Prelude.{◌≡◌, ◌+◌, ◌<◌, ◌≤◌, ℕ, suc, List, length, Some, slice_get};
ghost use Rattle.std.specs.List.{range_with_len};
ghost use Rattle.f77_tree.specs.declared.statements.Labelled.{Labelled};
ghost use Rattle.program_units.specs.declared.entity.Entity.{Entity};
ghost use Rattle.program_units.specs.Widths.{body_width, body_labels, labels, labels_written};
ghost use Rattle.program_units.specs.Copies.{Context, copy, number_at};
ghost use Rattle.program_units.specs.Heights.{IsHeight, NoneCallsItself, height};
ghost use Rattle.program_units.specs.Expansion.{total_width, whole_list};
ghost use Rattle.program_units.specs.ListedCopies.{piece_at};
ghost use Rattle.program_units.specs.Units.{unit_at};

/// A copy of a unit has as many statements as are counted for it, whatever its dummies stand for, and its labels follow
/// one another in order of place. The whole list has as many statements as are counted before it is made.
pub fn copies_are_counted()
    ensures statements { (us : List (List Labelled)) (depth k : ℕ) (arguments : List Entity) (base : ℕ) → length (copy us depth k arguments base) ≡ body_width us depth k }
    ensures labels { (us : List (List Labelled)) (depth k : ℕ) (arguments : List Entity) (base : ℕ) → labels_written (copy us depth k arguments base) ≡ range_with_len (base + 1) (body_labels us depth k) }
    ensures whole { (us : List (List Labelled)) → length (whole_list us) ≡ total_width us }
{}

/// The labels of what stands for a statement follow one another from the number that its place has. Those of two statements of
/// a unit have none in common, and all lie behind the labels before the copy and up to as many as the copy has. The labels of
/// the whole list are 1, 2 and so on.
pub fn labels_of_pieces_stand_apart()
    ensures pieces { (us : List (List Labelled)) (c : Context) (place : ℕ) (s : Labelled) → labels_written (piece_at us c place s) ≡ range_with_len (number_at us c.depth c.unit c.base place) (labels (body_labels us c.depth) us c.unit s) }
    ensures apart { (us : List (List Labelled)) (c : Context) (place other : ℕ) (s : Labelled) → slice_get (unit_at us c.unit) place ≡ Some s → place < other → number_at us c.depth c.unit c.base place + labels (body_labels us c.depth) us c.unit s ≤ number_at us c.depth c.unit c.base other }
    ensures above { (us : List (List Labelled)) (c : Context) (place : ℕ) → c.base < number_at us c.depth c.unit c.base place }
    ensures within { (us : List (List Labelled)) (c : Context) (place : ℕ) (s : Labelled) → slice_get (unit_at us c.unit) place ≡ Some s → number_at us c.depth c.unit c.base place + labels (body_labels us c.depth) us c.unit s ≤ c.base + body_labels us (suc c.depth) c.unit + 1 }
    ensures whole { (us : List (List Labelled)) → labels_written (whole_list us) ≡ range_with_len 1 (body_labels us (suc (length us)) 0) }
{}

/// Where each unit has a height above the units that it calls, its copy, and what is counted for it, is the same at each
/// depth above its height.
pub fn copies_settle()
    ensures statements { (us : List (List Labelled)) (height : ℕ → ℕ) → IsHeight us height → (d e k : ℕ) → height k < d → height k < e → body_width us d k ≡ body_width us e k }
    ensures labels { (us : List (List Labelled)) (height : ℕ → ℕ) → IsHeight us height → (d e k : ℕ) → height k < d → height k < e → body_labels us d k ≡ body_labels us e k }
    ensures copies { (us : List (List Labelled)) (height : ℕ → ℕ) → IsHeight us height → (d e k : ℕ) (arguments : List Entity) (base : ℕ) → height k < d → height k < e → copy us d k arguments base ≡ copy us e k arguments base }
{}

/// Where no unit calls itself, through any number of calls, each has a height above the units that it calls, of at most as
/// many as there are units.
pub fn units_have_heights()
    ensures above { (us : List (List Labelled)) → NoneCallsItself us → IsHeight us (height us) }
    ensures few { (us : List (List Labelled)) → NoneCallsItself us → (k : ℕ) → height us k ≤ length us }
{}
