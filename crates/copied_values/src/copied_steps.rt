//! Laws on what executables of copies do, as contracts of functions that do nothing.

ghost use Rattle.std.specs.Prelude.{◌≡◌, ◌≤◌, ◌++◌, Bool, ℕ, ℤ, List, [], ◌∷◌, flat_map, length, map, true, false, Option, slice_index};
ghost use Rattle.std.specs.List.{list_all};
ghost use Rattle.f77_tree.specs.declared.programs.ExecKind.TheVariants.{Assign as Assigned, Print as Printed, Test, Sign, Pick, DoStart, DoNext};
ghost use Rattle.f77_tree.specs.declared.programs.NameInfo.{NameInfo};
ghost use Rattle.f77_tree.specs.declared.statements.RawExpr.{RawExpr};
ghost use Rattle.f77_tree.specs.declared.statements.RawItem.{RawItem};
ghost use Rattle.f77_tree.specs.declared.statements.Stmt.TheVariants.{Assign, Do};
ghost use Rattle.f77_tree.specs.declared.declarations.Kind.TheVariants.{Integer, Logical};
ghost use Rattle.f77_tree.specs.Declarations.{index_of};
ghost use Rattle.f77_tree.specs.Execution.{Memory, outcome};
ghost use Rattle.f77_tree.specs.Kinds.{taken_as};
ghost use Rattle.layout_rules.specs.Appearances.{names_in, names_in_item, names_if_any};
ghost use Rattle.layout_rules.specs.Executables.{kind_or_integer};
ghost use Rattle.layout_rules.specs.Resolved.{access_of, resolved, resolved_item, resolved_step};
ghost use Rattle.layout_rules.specs.Types.{is_array_in, is_item, is_of_kind, is_target, is_well_kinded, kind_in};
ghost use Rattle.program_units.specs.Copies.{Change, changed, changed_item, changed_step};
ghost use Rattle.copied_values.specs.SideBySide.{Are, AreSideBySide, AreTied, GoAlike, with_pair};

/// An executable of a unit and that of its copy, over tables and memories that are side by side: control goes on to executables
/// that are paired, after the same text, and the memories hold the same again, also at the word that was set, and for a DO that
/// began; or there is the same trap.
pub fn copies_do_the_same()
    ensures assigned { (words live loops nexts : ℕ → ℕ → Bool) (names others : List NameInfo) (c : Change) (checked : Bool) (input : List ℤ)
        (m n : Memory)
        → AreSideBySide (Are words) (Are live) (Are loops) names others c m n
        → (target e : RawExpr) (next next' : ℕ)
        → AreTied (Are words) names others c (names_in c.arrays target ++ names_in c.arrays e)
        → is_well_kinded names (Assign target e) ≡ true → Are nexts next next'
        → GoAlike (Are words) (Are live) (Are nexts) (outcome names input m
        (Assigned (access_of names checked target) (resolved names checked e) next))
        (outcome others input n (Assigned (access_of others checked (changed c target)) (resolved others checked (changed c e)) next')) }
    ensures taken { (words live loops nexts : ℕ → ℕ → Bool) (names others : List NameInfo) (c : Change) (checked : Bool) (input : List ℤ)
        (m n : Memory)
        → AreSideBySide (Are words) (Are live) (Are loops) names others c m n → (target : RawExpr) (next next' : ℕ)
        → AreTied (Are words) names others c (names_in c.arrays target) → is_target names target ≡ true
        → Are nexts next next'
        → GoAlike (Are words) (Are live) (Are nexts) (outcome names input m
        (Assigned (access_of names checked target) (taken_as (kind_or_integer (kind_in names target))) next))
        (outcome others input n (Assigned (access_of others checked (changed c target))
        (taken_as (kind_or_integer (kind_in others (changed c target)))) next')) }
    ensures printed { (words live loops nexts : ℕ → ℕ → Bool) (names others : List NameInfo) (c : Change) (checked : Bool) (input : List ℤ)
        (m n : Memory)
        → AreSideBySide (Are words) (Are live) (Are loops) names others c m n
        → (items : List RawItem) (next next' : ℕ)
        → AreTied (Are words) names others c (flat_map (names_in_item c.arrays) items)
        → list_all (is_item names) items ≡ true → Are nexts next next'
        → GoAlike (Are words) (Are live) (Are nexts) (outcome names input m (Printed (map (resolved_item names checked) items) next))
        (outcome others input n (Printed (map (resolved_item others checked) (map (changed_item c) items)) next')) }
    ensures tested { (words live loops nexts : ℕ → ℕ → Bool) (names others : List NameInfo) (c : Change) (checked : Bool) (input : List ℤ)
        (m n : Memory)
        → AreSideBySide (Are words) (Are live) (Are loops) names others c m n
        → (e : RawExpr) (yes' no' yes_there no_there : ℕ) → AreTied (Are words) names others c (names_in c.arrays e)
        → is_of_kind names Logical e ≡ true → Are nexts yes' yes_there → Are nexts no' no_there
        → GoAlike (Are words) (Are live) (Are nexts) (outcome names input m (Test (resolved names checked e) yes' no'))
        (outcome others input n (Test (resolved others checked (changed c e)) yes_there no_there)) }
    ensures signed { (words live loops nexts : ℕ → ℕ → Bool) (names others : List NameInfo) (c : Change) (checked : Bool) (input : List ℤ)
        (m n : Memory)
        → AreSideBySide (Are words) (Are live) (Are loops) names others c m n → (e : RawExpr) (x y z x' y' z' : ℕ)
        → AreTied (Are words) names others c (names_in c.arrays e) → is_of_kind names Integer e ≡ true
        → Are nexts x x' → Are nexts y y' → Are nexts z z'
        → GoAlike (Are words) (Are live) (Are nexts) (outcome names input m (Sign (resolved names checked e) x y z))
        (outcome others input n (Sign (resolved others checked (changed c e)) x' y' z')) }
    ensures picked { (words live loops nexts : ℕ → ℕ → Bool) (names others : List NameInfo) (c : Change) (checked : Bool) (input : List ℤ)
        (m n : Memory)
        → AreSideBySide (Are words) (Are live) (Are loops) names others c m n
        → (e : RawExpr) (xs ys : List ℕ) (x y : ℕ) → AreTied (Are words) names others c (names_in c.arrays e)
        → is_of_kind names Integer e ≡ true → length xs ≡ length ys
        → ((i : ℕ) → i ≤ length xs → Are nexts (slice_index (xs ++ x ∷ []) i) (slice_index (ys ++ y ∷ []) i))
        → GoAlike (Are words) (Are live) (Are nexts) (outcome names input m (Pick (resolved names checked e) xs x))
        (outcome others input n (Pick (resolved others checked (changed c e)) ys y)) }
    ensures started { (words live loops nexts : ℕ → ℕ → Bool) (names others : List NameInfo) (c : Change) (checked : Bool) (input : List ℤ)
        (m n : Memory)
        → AreSideBySide (Are words) (Are live) (Are loops) names others c m n
        → (label i j : ℕ) (variable : List ℕ) (first last : RawExpr) (step : Option RawExpr) (body exit body' exit' : ℕ)
        → AreTied (Are words) names others c (variable ∷ (names_in c.arrays first ++ names_in c.arrays last ++ names_if_any c.arrays step))
        → is_well_kinded names (Do label variable first last step) ≡ true → Are loops i j → Are nexts body body'
        → Are nexts exit exit'
        → GoAlike (Are words) (with_pair (Are live) i j) (Are nexts)
        (outcome names input m (DoStart i (index_of names variable) (resolved names checked first) (resolved names checked last)
        (resolved_step names checked step) body exit)) (outcome others input n
        (DoStart j (index_of others (c.name variable)) (resolved others checked (changed c first))
        (resolved others checked (changed c last)) (resolved_step others checked (changed_step c step)) body' exit')) }
    ensures incremented { (words live loops nexts : ℕ → ℕ → Bool) (names others : List NameInfo) (c : Change) (checked : Bool)
        (input : List ℤ) (m n : Memory)
        → AreSideBySide (Are words) (Are live) (Are loops) names others c m n
        → (i j : ℕ) (variable : List ℕ) (body exit body' exit' : ℕ)
        → AreTied (Are words) names others c (variable ∷ []) → is_array_in names variable ≡ false → Are live i j
        → Are nexts body body' → Are nexts exit exit'
        → GoAlike (Are words) (Are live) (Are nexts) (outcome names input m (DoNext i (index_of names variable) body exit))
        (outcome others input n (DoNext j (index_of others (c.name variable)) body' exit')) }
{}
