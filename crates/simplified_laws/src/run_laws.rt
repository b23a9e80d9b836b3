//! What the constants of a program tell, as contracts of functions that do nothing.

ghost use Rattle.simplified_laws.specs.RightRuns.{ConstantsAreRightInRuns, ConstantsAreWords};

use crate::laws::own_pieces_stand_in_chains;
use cfg_build::{
    executables_have_own_pieces, flow_graph_has_shape, flow_graph_is_strong, passes_are_a_walk,
    passes_lie_within_steps,
};
use closed_walks::reaching_is_told;
use constant_laws::{constants_are_right, live_decisions_are_known, live_edges_have_values};
use dep_routing::{free_nodes, next_edges, places_over_a_pass};
use f77_tree::{
    executables_lead_to_successors, known_values_are_right, runs_hold_words, runs_stay_inside,
    well_formed_programs_can_run,
};

/// What the table of a program's constants tells at an executable is so whenever a run over data of words comes to it: control can come
/// to the executable by what the table decides, so that it is an item; words that are known there have these values; and a branch that
/// always goes one way goes there, and changes and writes nothing.
pub fn known_words_are_right_in_runs()
    ensures { ConstantsAreRightInRuns }
{
    constants_are_right();
    executables_have_own_pieces();
    executables_lead_to_successors();
    flow_graph_has_shape();
    flow_graph_is_strong();
    free_nodes();
    known_values_are_right();
    live_decisions_are_known();
    live_edges_have_values();
    next_edges();
    own_pieces_stand_in_chains();
    passes_are_a_walk();
    passes_lie_within_steps();
    places_over_a_pass();
    reaching_is_told();
    runs_hold_words();
    runs_stay_inside();
    well_formed_programs_can_run();
}

/// Where one value is known of a word, it is a word, since the program begins with words and its executables leave words.
pub fn known_values_are_words()
    ensures { ConstantsAreWords }
{
    flow_graph_has_shape();
    flow_graph_is_strong();
    free_nodes();
    known_values_are_right();
    next_edges();
    places_over_a_pass();
    runs_hold_words();
}
