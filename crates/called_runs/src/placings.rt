//! Laws on where words lie in a run with frames, as contracts of functions that do nothing.

ghost use Rattle.std.specs.Prelude.{◌≡◌, ◌<◌, ℕ, ℤ, All, Bool, Contains, List, length};
ghost use Rattle.f77_tree.specs.declared.programs.NameInfo.{NameInfo};
ghost use Rattle.f77_tree.specs.declared.programs.Program.{Program};
ghost use Rattle.f77_tree.specs.declared.statements.Labelled.{Labelled};
ghost use Rattle.f77_tree.specs.Declarations.{index_of};
ghost use Rattle.f77_tree.specs.Value.{ArePlaced, place_of};
ghost use Rattle.program_units.specs.Copies.{Change};
ghost use Rattle.program_units.specs.declared.entity.Entity.{Entity};
ghost use Rattle.program_units.specs.Entities.{stands_for};
ghost use Rattle.called_runs.specs.Expanded.{IsExpanded};
ghost use Rattle.called_runs.specs.PairedWords.{IsEntryOf, IsPaired, IsPlacedAlike, IsPlacing, listed_spot};
ghost use Rattle.copied_values.specs.SideBySide.{ArePaired, IsPairing};
ghost use Rattle.program_units.specs.Storage.{IsStorage, placed};
ghost use Rattle.program_units.specs.Units.{units};

use crate::copied_names::copied_names_are_declared_alike;
use crate::entity_names::{entities_keep_their_declarations, names_of_blocks_stand_once};
use crate::listed_storage::lists_share_storage;
use copied_values::{lists_declare, places_decide_no_trees};
use f77_layout::{names_that_share_words_are_linked, programs_are_well_formed};
use unit_laws::own_names_are_new;

/// Two placings of the entities of a text that obey its declarations pair their words, each with one other: the words of an
/// entity in one are its words in the other. The places of a storage are such a placing, and the table of a frame has the
/// places of what its names stand for.
pub fn placings_pair_words()
    ensures words { (us : List (List Labelled)) (names : List NameInfo) (spot other : Entity → ℕ) → IsPlacing us names spot
        → IsPlacing us names other
        → IsPairing (IsPaired us names spot other) }
    ensures storages { (us : List (List Labelled)) (checked : Bool) (spot : Entity → ℕ) (words : ℕ) (opening : List ℤ)
        → IsStorage us checked spot words opening
        → (names : List NameInfo)
        → IsPlacing us names spot }
    ensures frames { (us : List (List Labelled)) (spot : Entity → ℕ) (k : ℕ) (arguments : List Entity)
        → (names : List NameInfo) (x : List ℕ) → index_of names x < length names
        → place_of (placed us spot k arguments names) (index_of (placed us spot k arguments names) x)
        ≡ spot (stands_for us k arguments x) }
{}

/// The table of a frame is placed in the storage, where the names of its unit stand for entities of their sizes. Its words are
/// paired with those of another table, where a name's new name begins with the entity that the name stands for.
pub fn frames_are_placed()
    ensures placed { (us : List (List Labelled)) (checked : Bool) (spot : Entity → ℕ) (words : ℕ) (opening : List ℤ)
        → IsStorage us checked spot words opening
        → (k : ℕ) (arguments : List Entity) (names : List NameInfo) → All (IsEntryOf us k arguments) names
        → ArePlaced (placed us spot k arguments names) words }
    ensures paired { (us : List (List Labelled)) (spot other : Entity → ℕ) (k : ℕ) (arguments : List Entity)
        → (names others : List NameInfo) (c : Change) (xs : List (List ℕ))
        → ((x : List ℕ) → Contains xs x → IsPlacedAlike us other k arguments names others c x)
        → ArePaired (IsPaired us others spot other) (placed us spot k arguments names) others c xs }
{}

/// The places that entities have in the program that a text comes to are such a placing.
pub fn programs_place_their_entities()
    ensures { (stmts : List Labelled) (checked : Bool) (p : Program) → IsExpanded stmts checked p
        → IsPlacing (units stmts) p.names (listed_spot (units stmts) p.names) }
{
    copied_names_are_declared_alike();
    entities_keep_their_declarations();
    names_of_blocks_stand_once();
    lists_share_storage();
    lists_declare();
    own_names_are_new();
    places_decide_no_trees();
    programs_are_well_formed();
    names_that_share_words_are_linked();
}
