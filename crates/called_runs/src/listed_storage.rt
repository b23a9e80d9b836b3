//! Laws on storage in the list that a text expands to, as contracts of functions that do nothing.

ghost use Rattle.std.specs.Prelude.{◌≡◌, ◌<◌, ◌++◌, ℕ, List, drop, filter, flat_map, map, take};
ghost use Rattle.std.specs.List.{range_with_len};
ghost use Rattle.f77_tree.specs.declared.statements.Labelled.{Labelled};
ghost use Rattle.layout_rules.specs.Declarations.{all_commons, all_groups, all_inits};
ghost use Rattle.program_units.specs.Expansion.{block_size, blocks, common_decl, declared_first, init_for, members_for, merged, units_but_main, whole_list};
ghost use Rattle.program_units.specs.Merged.{is_merged};
ghost use Rattle.program_units.specs.Units.{unit_at, unit_of};

use copied_values::lists_declare;

/// The list has the COMMON, EQUIVALENCE and DATA of the main program, and among them what is merged: each added block with the
/// new names of its places, and the groups and items of subroutines that run, with their new names.
pub fn lists_share_storage()
    ensures commons { (us : List (List Labelled)) → ((name : List ℕ) → 0 < unit_of us name)
        → all_commons (whole_list us)
        ≡ all_commons (take (declared_first (unit_at us 0)) (unit_at us 0)) ++
        (all_commons (merged us) ++ all_commons (drop (declared_first (unit_at us 0)) (unit_at us 0))) }
    ensures groups { (us : List (List Labelled)) → ((name : List ℕ) → 0 < unit_of us name)
        → all_groups (whole_list us)
        ≡ all_groups (take (declared_first (unit_at us 0)) (unit_at us 0)) ++
        (all_groups (merged us) ++ all_groups (drop (declared_first (unit_at us 0)) (unit_at us 0))) }
    ensures inits { (us : List (List Labelled)) → ((name : List ℕ) → 0 < unit_of us name)
        → all_inits (whole_list us)
        ≡ all_inits (take (declared_first (unit_at us 0)) (unit_at us 0)) ++
        (all_inits (merged us) ++ all_inits (drop (declared_first (unit_at us 0)) (unit_at us 0))) }
    ensures added_commons { (us : List (List Labelled))
        → all_commons (merged us)
        ≡ map
        (λ block. record { block = block; decls = map (common_decl us block) (range_with_len 0 (block_size us block)) })
        (filter (is_merged us) (blocks us)) }
    ensures added_groups { (us : List (List Labelled))
        → all_groups (merged us) ≡ flat_map (λ k. map (members_for us k) (all_groups (unit_at us k))) (units_but_main us) }
    ensures added_inits { (us : List (List Labelled))
        → all_inits (merged us) ≡ flat_map (λ k. map (init_for us k) (all_inits (unit_at us k))) (units_but_main us) }
{
    lists_declare();
}
