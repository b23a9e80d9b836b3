//! A law on storage for runs with frames, as the contract of a function that does nothing.

ghost use Rattle.std.specs.Prelude.{Bool, List};
ghost use Rattle.f77_tree.specs.declared.programs.Program.{Program};
ghost use Rattle.f77_tree.specs.declared.statements.Labelled.{Labelled};
ghost use Rattle.program_units.specs.Units.{units};
ghost use Rattle.called_runs.specs.Expanded.{IsExpanded};
ghost use Rattle.called_runs.specs.SpareWords.{HasStorage};

use crate::copied_names::stand_ins_are_declared_alike;
use crate::entity_names::{entities_keep_their_declarations, names_of_blocks_stand_once};
use crate::listed_storage::lists_share_storage;
use crate::placings::programs_place_their_entities;
use copied_values::{lists_declare, places_decide_no_trees};
use f77_layout::{names_that_share_words_are_linked, programs_are_well_formed};
use unit_laws::{own_names_are_new, units_are_sources};

/// A text that comes to a program has a storage: the words of the program, and behind them room for a word for each name that there
/// can be, since the program may lack a name that stands as an argument alone.
pub fn programs_have_storage()
    ensures { (stmts : List Labelled) (checked : Bool) (p : Program) → IsExpanded stmts checked p
        → HasStorage (units stmts) checked }
{
    entities_keep_their_declarations();
    names_of_blocks_stand_once();
    stand_ins_are_declared_alike();
    lists_share_storage();
    programs_place_their_entities();
    lists_declare();
    places_decide_no_trees();
    names_that_share_words_are_linked();
    programs_are_well_formed();
    own_names_are_new();
    units_are_sources();
}
