//! A law on the words with which runs begin, as the contract of a function that does nothing.

ghost use Rattle.std.specs.Prelude.{◌≡◌, ◌<◌, Bool, ℕ, ℤ, List, length, slice_get};
ghost use Rattle.f77_tree.specs.declared.programs.Program.{Program};
ghost use Rattle.f77_tree.specs.declared.statements.Labelled.{Labelled};
ghost use Rattle.program_units.specs.declared.entity.Entity.{Entity};
ghost use Rattle.program_units.specs.Storage.{IsStorage};
ghost use Rattle.program_units.specs.Units.{units};
ghost use Rattle.called_runs.specs.Expanded.{IsExpanded};
ghost use Rattle.called_runs.specs.PairedWords.{IsPaired, listed_spot};

use crate::copied_names::stand_ins_are_declared_alike;
use crate::entity_names::entities_keep_their_declarations;
use crate::listed_storage::lists_share_storage;
use crate::placings::{placings_pair_words, programs_place_their_entities};
use copied_values::{lists_declare, places_decide_no_trees};
use f77_layout::programs_are_well_formed;
use unit_laws::{own_names_are_new, units_are_sources};

/// The words of a storage begin as the paired words of the program that the text comes to do, and there is room for both.
pub fn opening_words_are_initial()
    ensures words { (stmts : List Labelled) (checked : Bool) (p : Program) → IsExpanded stmts checked p
        → (spot : Entity → ℕ) (words : ℕ) (opening : List ℤ) → IsStorage (units stmts) checked spot words opening
        → (v w : ℕ) → IsPaired (units stmts) p.names spot (listed_spot (units stmts) p.names) v w
        → slice_get opening v ≡ slice_get p.initial w }
    ensures room { (stmts : List Labelled) (checked : Bool) (p : Program) → IsExpanded stmts checked p
        → (spot : Entity → ℕ) (words : ℕ) (opening : List ℤ) → IsStorage (units stmts) checked spot words opening
        → (v w : ℕ) → IsPaired (units stmts) p.names spot (listed_spot (units stmts) p.names) v w
        → (v < length opening) × (w < length p.initial) }
{
    entities_keep_their_declarations();
    stand_ins_are_declared_alike();
    lists_share_storage();
    placings_pair_words();
    programs_place_their_entities();
    lists_declare();
    places_decide_no_trees();
    programs_are_well_formed();
    own_names_are_new();
    units_are_sources();
}
