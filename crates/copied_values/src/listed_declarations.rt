//! Laws on what the list of the expansion declares, as contracts of functions that do nothing.

ghost use Rattle.std.specs.Prelude.{◌≡◌, ◌<◌, ◌++◌, Bool, false, nat_le, ℕ, List, None, Some, true, length, map, take, drop};
ghost use Rattle.std.specs.List.{list_all, list_any};
ghost use Rattle.f77_tree.specs.declared.statements.Labelled.{Labelled};
ghost use Rattle.layout_rules.specs.Declarations.{dims_of, kind_of};
ghost use Rattle.layout_rules.specs.Executables.{kind_or_integer};
ghost use Rattle.program_units.specs.declared.entity.Entity.{Entity};
ghost use Rattle.program_units.specs.Expansion.{declared_first, declared_in, is_running, merged, whole_list};
ghost use Rattle.copied_values.specs.ListedDeclarations.{declarations};
ghost use Rattle.program_units.specs.Names.{name_for, same_entity, used_names, y_entities};
ghost use Rattle.program_units.specs.Refusals.{has_great_name, unit_refusal};
ghost use Rattle.program_units.specs.Texts.{IsText};
ghost use Rattle.program_units.specs.Units.{unit_at, unit_of, units};

/// The declarations of the list are those of the main program, as they are, and what is merged; copies have none.
pub fn lists_declare()
    ensures subs { (stmts : List Labelled) (checked : Bool) → IsText stmts → unit_refusal stmts checked ≡ None
        → (name : List ℕ) → 0 < unit_of (units stmts) name }
    ensures list { (us : List (List Labelled)) → ((name : List ℕ) → 0 < unit_of us name)
        → declarations (whole_list us) ≡ declarations (take (declared_first (unit_at us 0)) (unit_at us 0)) ++
        (map (λ s. s.stmt) (merged us) ++ declarations (drop (declared_first (unit_at us 0)) (unit_at us 0))) }
    ensures main { (us : List (List Labelled))
        → declarations (unit_at us 0) ≡ declarations (take (declared_first (unit_at us 0)) (unit_at us 0)) ++ declarations
        (drop (declared_first (unit_at us 0)) (unit_at us 0)) }
{}

/// A name of the list that no entity got has the kind and the dimensions that it has in the main program. The name that an
/// entity of a unit that can run got has those that the unit declares, where all names have six characters at most.
pub fn names_keep_their_declarations()
    ensures main_kinds { (us : List (List Labelled)) → ((name : List ℕ) → 0 < unit_of us name) → (x : List ℕ)
        → ((e : Entity) → list_any (same_entity e) (y_entities us) ≡ true → name_for us e ≡ x → ⊥)
        → kind_of (whole_list us) x ≡ kind_of (unit_at us 0) x }
    ensures main_dims { (us : List (List Labelled)) → ((name : List ℕ) → 0 < unit_of us name) → (x : List ℕ)
        → ((e : Entity) → list_any (same_entity e) (y_entities us) ≡ true → name_for us e ≡ x → ⊥)
        → dims_of (whole_list us) x ≡ dims_of (unit_at us 0) x }
    ensures own_kinds { (us : List (List Labelled)) → ((name : List ℕ) → 0 < unit_of us name)
        → list_all (λ x. nat_le (length x) 6) (used_names us) ≡ true → has_great_name us ≡ false → (e : Entity)
        → list_any (same_entity e) (y_entities us) ≡ true → is_running us e ≡ true
        → kind_of (whole_list us) (name_for us e) ≡ Some (kind_or_integer (kind_of (declared_in us e).0 (declared_in us e).1)) }
    ensures own_dims { (us : List (List Labelled)) → ((name : List ℕ) → 0 < unit_of us name)
        → list_all (λ x. nat_le (length x) 6) (used_names us) ≡ true → has_great_name us ≡ false → (e : Entity)
        → list_any (same_entity e) (y_entities us) ≡ true → is_running us e ≡ true
        → dims_of (whole_list us) (name_for us e) ≡ dims_of (declared_in us e).0 (declared_in us e).1 }
{}
