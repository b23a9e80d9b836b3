//! Laws on the values of expressions in copies, as contracts of functions that do nothing.

ghost use Rattle.std.specs.Prelude.{◌≡◌, Bool, ℕ, ℤ, List, flat_map, length, map, true, Option, Result};
ghost use Rattle.std.specs.List.{list_all};
ghost use Rattle.std.specs.Option.{is_some};
ghost use Rattle.op_table.specs.declared.Trap.{Trap};
ghost use Rattle.f77_tree.specs.declared.programs.NameInfo.{NameInfo};
ghost use Rattle.f77_tree.specs.declared.statements.Labelled.{Labelled};
ghost use Rattle.f77_tree.specs.declared.statements.RawExpr.{RawExpr};
ghost use Rattle.f77_tree.specs.declared.statements.RawItem.{RawItem};
ghost use Rattle.f77_tree.specs.Declarations.{index_of};
ghost use Rattle.f77_tree.specs.Execution.{words_taken};
ghost use Rattle.f77_tree.specs.Line.{line_of};
ghost use Rattle.f77_tree.specs.OtherPlaces.{DifferInPlaces};
ghost use Rattle.f77_tree.specs.Value.{ArePlaced, place, value, word_of};
ghost use Rattle.layout_rules.specs.Appearances.{names_in, names_in_item, names_if_any};
ghost use Rattle.layout_rules.specs.Layout.{names_of, program};
ghost use Rattle.layout_rules.specs.Resolved.{access_of, resolved, resolved_item, resolved_step};
ghost use Rattle.layout_rules.specs.Types.{dims_named, is_item, is_step, is_target, kind_in};
ghost use Rattle.copied_values.specs.ChangedTables.{AreChangedTables, AreHeld, AreKnown, AreSameElement, IsKnownAs, target_name};
ghost use Rattle.program_units.specs.Copies.{Change, changed, changed_item, changed_step};
ghost use Rattle.program_units.specs.declared.entity.Entity.{Entity};
ghost use Rattle.program_units.specs.Storage.{placed};

/// Expressions of a unit and of its copy, over two tables of names and two stores in which the names of the expression, as the
/// copy has them, have the same kinds, dimensions and words. They have the same kind and the same value, or the same trap.
pub fn copies_have_the_same_values()
    ensures elements { (names others : List NameInfo) (words words' : ℕ) (x y : List ℕ) (values : List (Result ℤ Trap))
        → ArePlaced names words → ArePlaced others words' → IsKnownAs names others x y
        → length values ≡ length (dims_named names x)
        → AreSameElement names others x y (word_of names (index_of names x) values) (word_of others (index_of others y) values) }
    ensures kinds { (names others : List NameInfo) (c : Change) → AreChangedTables names others c → (e : RawExpr)
        → AreKnown names others c (names_in c.arrays e) → is_some (kind_in names e) ≡ true
        → kind_in others (changed c e) ≡ kind_in names e }
    ensures values { (names others : List NameInfo) (words words' : ℕ) (a b : List ℤ) (c : Change) (checked : Bool) (next : Option ℤ)
        → AreChangedTables names others c → ArePlaced names words → ArePlaced others words' → (e : RawExpr)
        → AreKnown names others c (names_in c.arrays e) → AreHeld names others a b c (names_in c.arrays e)
        → is_some (kind_in names e) ≡ true
        → value others b next (resolved others checked (changed c e)) ≡ value names a next (resolved names checked e) }
    ensures steps { (names others : List NameInfo) (words words' : ℕ) (a b : List ℤ) (c : Change) (checked : Bool) (next : Option ℤ)
        → AreChangedTables names others c → ArePlaced names words → ArePlaced others words'
        → (step : Option RawExpr) → AreKnown names others c (names_if_any c.arrays step)
        → AreHeld names others a b c (names_if_any c.arrays step) → is_step names step ≡ true
        → value others b next (resolved_step others checked (changed_step c step)) ≡ value names a next (resolved_step names checked step) }
    ensures places { (names others : List NameInfo) (words words' : ℕ) (a b : List ℤ) (c : Change) (checked : Bool) (next : Option ℤ)
        → AreChangedTables names others c → ArePlaced names words → ArePlaced others words' → (e : RawExpr)
        → AreKnown names others c (names_in c.arrays e) → AreHeld names others a b c (names_in c.arrays e)
        → is_target names e ≡ true
        → AreSameElement names others (target_name e) (c.name (target_name e)) (place names a next (access_of names checked e))
        (place others b next (access_of others checked (changed c e))) }
    ensures lines { (names others : List NameInfo) (words words' : ℕ) (a b : List ℤ) (c : Change) (checked : Bool)
        → AreChangedTables names others c → ArePlaced names words → ArePlaced others words' → (items : List RawItem)
        → AreKnown names others c (flat_map (names_in_item c.arrays) items)
        → AreHeld names others a b c (flat_map (names_in_item c.arrays) items)
        → list_all (is_item names) items ≡ true
        → line_of others b (map (resolved_item others checked) (map (changed_item c) items)) ≡ line_of names a
        (map (resolved_item names checked) items) }

    // They take no data words.
    ensures taken { (names : List NameInfo) (checked : Bool) (e : RawExpr) → words_taken (resolved names checked e) ≡ 0 }
{}

/// Over tables of names that differ in their places alone, an expression becomes the same tree and has the same kind.
pub fn places_decide_no_trees()
    ensures trees { (names others : List NameInfo) → DifferInPlaces names others → (checked : Bool) (e : RawExpr)
        → resolved others checked e ≡ resolved names checked e }
    ensures accesses { (names others : List NameInfo) → DifferInPlaces names others → (checked : Bool) (e : RawExpr)
        → access_of others checked e ≡ access_of names checked e }
    ensures kinds { (names others : List NameInfo) → DifferInPlaces names others → (e : RawExpr) → kind_in others e ≡ kind_in names e }

    // So do the table of a program and that of a frame from the names as they are declared.
    ensures programs { (stmts : List Labelled) (checked : Bool) → DifferInPlaces (names_of stmts) (program stmts checked).names }
    ensures frames { (us : List (List Labelled)) (spot : Entity → ℕ) (k : ℕ) (arguments : List Entity) (stmts : List Labelled) (checked : Bool)
        → DifferInPlaces (names_of stmts) (placed us spot k arguments (program stmts checked).names) }
{}
