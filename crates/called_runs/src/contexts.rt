//! Laws on what the names of contexts stand for, as contracts of functions that do nothing.

ghost use Rattle.std.specs.Prelude.{◌≡◌, All, Bool, ℕ, ℤ, List, None, Some, bytes_eq, slice_get, true};
ghost use Rattle.std.specs.List.{list_any};
ghost use Rattle.f77_tree.specs.declared.programs.Program.{Program};
ghost use Rattle.f77_tree.specs.declared.statements.Labelled.{Labelled};
ghost use Rattle.f77_tree.specs.Value.{ArePlaced};
ghost use Rattle.layout_rules.specs.Appearances.{appearing};
ghost use Rattle.layout_rules.specs.Declarations.{is_array};
ghost use Rattle.layout_rules.specs.Labels.{is_executable};
ghost use Rattle.layout_rules.specs.Types.{is_well_kinded};
ghost use Rattle.copied_values.specs.ChangedTables.{AreChangedTables};
ghost use Rattle.copied_values.specs.SideBySide.{AreTied, IsPairing};
ghost use Rattle.program_units.specs.Contexts.{IsReached};
ghost use Rattle.program_units.specs.Copies.{Context, change_in, changes};
ghost use Rattle.program_units.specs.declared.entity.Entity.{Entity};
ghost use Rattle.program_units.specs.Entities.{stands_for};
ghost use Rattle.program_units.specs.Layouts.{own_program};
ghost use Rattle.program_units.specs.Names.{names_of_unit};
ghost use Rattle.program_units.specs.Refusals.{unit_refusal};
ghost use Rattle.program_units.specs.Storage.{IsOfRun, IsStorage, placed};
ghost use Rattle.program_units.specs.Texts.{IsText};
ghost use Rattle.program_units.specs.Units.{runs, unit_at, units};
ghost use Rattle.called_runs.specs.Expanded.{IsExpanded};
ghost use Rattle.called_runs.specs.PairedWords.{IsEntryOf, IsPaired, listed_spot};

use crate::copied_names::{copied_names_are_declared_alike, stand_ins_are_declared_alike};
use crate::entity_names::entities_keep_their_declarations;
use crate::placings::{frames_are_placed, placings_pair_words, programs_place_their_entities};
use copied_control::units_keep_their_control;
use copied_values::{lists_declare, names_keep_their_declarations, places_decide_no_trees};
use f77_layout::programs_are_well_formed;
use unit_laws::{own_names_are_new, units_are_sources};

/// A context that is reached is of a unit that runs, and each name of its unit stands for an entity of the run.
pub fn contexts_are_of_the_run()
    ensures units { (stmts : List Labelled) (checked : Bool) → IsText stmts
        → unit_refusal stmts checked ≡ None
        → (c : Context) (at : ℕ → ℕ) → IsReached (units stmts) c at
        → runs (units stmts) c.unit ≡ true }
    ensures entities { (stmts : List Labelled) (checked : Bool) → IsText stmts
        → unit_refusal stmts checked ≡ None
        → (c : Context) (at : ℕ → ℕ) → IsReached (units stmts) c at
        → (x : List ℕ) → list_any (bytes_eq x) (names_of_unit (unit_at (units stmts) c.unit)) ≡ true
        → IsOfRun (units stmts) (stands_for (units stmts) c.unit c.arguments x) }
{}

/// The entries of a unit's table are those of the entities that its names stand for in a context.
pub fn tables_have_entities()
    ensures { (stmts : List Labelled) (checked : Bool) → IsText stmts
        → unit_refusal stmts checked ≡ None
        → (c : Context) (at : ℕ → ℕ) → IsReached (units stmts) c at
        → All (IsEntryOf (units stmts) c.unit c.arguments) (own_program (unit_at (units stmts) c.unit) checked).names }
{
    contexts_are_of_the_run();
    copied_names_are_declared_alike();
    stand_ins_are_declared_alike();
    programs_are_well_formed();
    units_are_sources();
}

/// Names change from the table of a frame to that of the program as they do in the copy of the frame's unit.
pub fn tables_are_changed()
    ensures { (stmts : List Labelled) (checked : Bool) (p : Program) → IsExpanded stmts checked p
        → (spot : Entity → ℕ) (k : ℕ) (arguments : List Entity) (depth base : ℕ)
        → AreChangedTables (placed (units stmts) spot k arguments (own_program (unit_at (units stmts) k) checked).names)
        p.names (change_in (units stmts) depth k base arguments) }
{
    stand_ins_are_declared_alike();
    places_decide_no_trees();
    lists_declare();
    names_keep_their_declarations();
}

/// In a context the names of a statement that does something are known in both tables, with the same kinds and dimensions, and
/// their words are paired. A statement has the right kinds over the table of a frame.
pub fn names_are_tied()
    ensures tied { (stmts : List Labelled) (checked : Bool) (p : Program) → IsExpanded stmts checked p
        → (spot : Entity → ℕ) (c : Context) (at : ℕ → ℕ) → IsReached (units stmts) c at
        → (place : ℕ) (s : Labelled) → slice_get (unit_at (units stmts) c.unit) place ≡ Some s
        → is_executable s.stmt ≡ true
        → AreTied (IsPaired (units stmts) p.names spot (listed_spot (units stmts) p.names))
        (placed (units stmts) spot c.unit c.arguments (own_program (unit_at (units stmts) c.unit) checked).names)
        p.names (changes (units stmts) c) (appearing (is_array (unit_at (units stmts) c.unit)) s.stmt) }
    ensures kinded { (stmts : List Labelled) (checked : Bool) → unit_refusal stmts checked ≡ None
        → (spot : Entity → ℕ) (k : ℕ) (arguments : List Entity) (place : ℕ) (s : Labelled)
        → slice_get (unit_at (units stmts) k) place ≡ Some s
        → is_well_kinded (placed (units stmts) spot k arguments (own_program (unit_at (units stmts) k) checked).names) s.stmt ≡ true }
{
    contexts_are_of_the_run();
    copied_names_are_declared_alike();
    stand_ins_are_declared_alike();
    entities_keep_their_declarations();
    frames_are_placed();
    places_decide_no_trees();
    lists_declare();
    own_names_are_new();
    units_are_sources();
    units_keep_their_control();
}

/// The words of a storage and those of the program that the text comes to are paired, each with one other; the tables of frames
/// are placed in the one, and the table of the program in the other.
pub fn tables_are_placed()
    ensures paired { (stmts : List Labelled) (checked : Bool) (p : Program) → IsExpanded stmts checked p
        → (spot : Entity → ℕ) (words : ℕ) (opening : List ℤ) → IsStorage (units stmts) checked spot words opening
        → IsPairing (IsPaired (units stmts) p.names spot (listed_spot (units stmts) p.names)) }
    ensures frames { (stmts : List Labelled) (checked : Bool) → IsText stmts
        → unit_refusal stmts checked ≡ None
        → (spot : Entity → ℕ) (words : ℕ) (opening : List ℤ) → IsStorage (units stmts) checked spot words opening
        → (c : Context) (at : ℕ → ℕ) → IsReached (units stmts) c at
        → ArePlaced (placed (units stmts) spot c.unit c.arguments (own_program (unit_at (units stmts) c.unit) checked).names) words }
    ensures program { (stmts : List Labelled) (checked : Bool) (p : Program) → IsExpanded stmts checked p
        → ArePlaced p.names p.words }
{
    placings_pair_words();
    programs_place_their_entities();
    frames_are_placed();
    tables_have_entities();
    programs_are_well_formed();
}
