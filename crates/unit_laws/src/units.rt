//! Laws on units by themselves, as contracts of functions that do nothing.

ghost use Rattle.std.specs.Prelude.{◌≡◌, ◌+◌, ◌<◌, ◌^◌, ℕ, List, length, Some, true, false, bytes_eq, nat_le, slice_get};
ghost use Rattle.std.specs.List.{list_all, list_any};
ghost use Rattle.f77_tree.specs.declared.statements.Labelled.{Labelled};
ghost use Rattle.f77_tree.specs.declared.statements.Stmt.{Stmt};
ghost use Rattle.f77_tree.specs.StatementGrammar.{IsGiven, is_of_subroutines};
ghost use Rattle.layout_rules.specs.Executables.{is_do_to};
ghost use Rattle.layout_rules.specs.Source.{IsSource};
ghost use Rattle.program_units.specs.declared.entity.Entity.{Entity};
ghost use Rattle.program_units.specs.Entities.{entity_of};
ghost use Rattle.program_units.specs.Names.{is_main, name_for, names_of_unit, own_names, same_entity, used_names, y_entities};
ghost use Rattle.program_units.specs.Refusals.{has_great_name};
ghost use Rattle.program_units.specs.OpenBlocks.{IsEnded};
ghost use Rattle.program_units.specs.Texts.{IsText};
ghost use Rattle.program_units.specs.Units.{stand_in, standing_in, unit_at, units};

/// What stands in for a statement that was read from a text is such a statement too, and none of subroutines.
pub fn stand_ins_are_given()
    ensures given { (s : Stmt) → IsGiven s → IsGiven (stand_in s) }
    ensures plain { (s : Stmt) → IsGiven s → is_of_subroutines (stand_in s) ≡ false }
{}

/// What stands in for a unit of a text can be laid out.
pub fn units_are_sources()
    ensures { (stmts : List Labelled) → IsText stmts → (k : ℕ) (u : List Labelled) → slice_get (units stmts) k ≡ Some u → IsSource (standing_in u) }
{}

/// In a unit of a text END stands last, and nowhere else, and the label that a DO names is above 0.
pub fn units_end_once()
    ensures ended { (stmts : List Labelled) → IsText stmts → (k : ℕ) (u : List Labelled) → slice_get (units stmts) k ≡ Some u → IsEnded u }
    ensures labels { (s : Stmt) (label : ℕ) → IsGiven s → is_do_to label s ≡ true → 0 < label }
{}

/// A name of the main program stays in the expansion. What any other name of a subroutine's own stands for gets a name of its
/// own, unless the main program has a name for it; the text has that name nowhere, and two entities get different ones.
pub fn own_names_are_new()
    ensures kept { (us : List (List Labelled)) (x : List ℕ) → name_for us (entity_of us 0 x) ≡ x }
    ensures noted { (us : List (List Labelled)) (k : ℕ) (x : List ℕ) → 0 < k → k < length us → list_any (bytes_eq x) (own_names us k) ≡ true → is_main us (entity_of us k x) ≡ false → list_any (same_entity (entity_of us k x)) (y_entities us) ≡ true }
    ensures free { (us : List (List Labelled)) → length (y_entities us) + length (used_names us) < 2 ^ 64 → (e : Entity) → list_any (same_entity e) (y_entities us) ≡ true → list_any (bytes_eq (name_for us e)) (used_names us) ≡ false }
    ensures others { (us : List (List Labelled)) → length (y_entities us) + length (used_names us) < 2 ^ 64 → (e : Entity) → list_any (same_entity e) (y_entities us) ≡ true → (k : ℕ) (x : List ℕ) → list_any (bytes_eq x) (names_of_unit (unit_at us k)) ≡ true → name_for us e ≡ x → ⊥ }
    ensures apart { (us : List (List Labelled)) → length (y_entities us) + length (used_names us) < 2 ^ 64 → (e f : Entity) → list_any (same_entity e) (y_entities us) ≡ true → list_any (same_entity f) (y_entities us) ≡ true → name_for us e ≡ name_for us f → e ≡ f }
{}

/// The same holds of however many names, where each has six characters at most and no name of more than five digits is taken.
pub fn short_names_are_new()
    ensures free { (us : List (List Labelled)) → list_all (λ x. nat_le (length x) 6) (used_names us) ≡ true → has_great_name us ≡ false → (e : Entity) → list_any (same_entity e) (y_entities us) ≡ true → list_any (bytes_eq (name_for us e)) (used_names us) ≡ false }
    ensures apart { (us : List (List Labelled)) → list_all (λ x. nat_le (length x) 6) (used_names us) ≡ true → has_great_name us ≡ false → (e f : Entity) → list_any (same_entity e) (y_entities us) ≡ true → list_any (same_entity f) (y_entities us) ≡ true → name_for us e ≡ name_for us f → e ≡ f }
    ensures others { (us : List (List Labelled)) → list_all (λ x. nat_le (length x) 6) (used_names us) ≡ true → has_great_name us ≡ false → (e : Entity) → list_any (same_entity e) (y_entities us) ≡ true → (k : ℕ) (x : List ℕ) → list_any (bytes_eq x) (names_of_unit (unit_at us k)) ≡ true → name_for us e ≡ x → ⊥ }
{}

/// The names of a text have six characters at most.
pub fn names_of_texts_are_short()
    ensures { (stmts : List Labelled) → IsText stmts → list_all (λ x. nat_le (length x) 6) (used_names (units stmts)) ≡ true }
{}
