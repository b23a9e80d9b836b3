//! Laws on the simplified form as a flat program, as contracts of functions that do nothing.

ghost use Rattle.simplified_laws.specs.SimplifiedClasses.{SimplifiedProgramsHaveNoMoreClasses};
ghost use Rattle.simplified_laws.specs.SimplifiedFlat.{SimplifiedProgramsAreFlat, SimplifiedStatementsAreFlat};

use crate::laws::items_lead_to_items;
use crate::run_laws::known_values_are_words;
use alias_classes::fewer_loops_have_no_more_classes;
use cfg_build::{
    chains_lead_to_successors, executables_have_own_pieces, flow_graph_has_shape,
    flow_graph_is_strong, pieces_have_ways_out,
};
use closed_walks::reaching_is_told;
use constant_laws::live_decisions_are_known;
use flat_programs::flat_statements_make_programs;

/// The statements of the simplified form of a program by its constants are flat: marks and jumps fit one another, and the ranges of DOs
/// lie one in the other or apart.
pub fn simplified_statements_are_flat()
    ensures { SimplifiedStatementsAreFlat }
{
    chains_lead_to_successors();
    executables_have_own_pieces();
    flow_graph_has_shape();
    flow_graph_is_strong();
    items_lead_to_items();
    live_decisions_are_known();
    pieces_have_ways_out();
    reaching_is_told();
}

/// The simplified form of a program by its constants is a flat program: its statements are flat and proper.
pub fn simplified_programs_are_flat()
    ensures { SimplifiedProgramsAreFlat }
{
    simplified_statements_are_flat();
    known_values_are_words();
    flat_statements_make_programs();
}

/// The simplified form of a program has the names and words of the program, and no more DOs, so it has no more classes: where a set
/// holds the classes of the program, it holds those of the simplified form.
pub fn simplified_programs_have_no_more_classes()
    ensures { SimplifiedProgramsHaveNoMoreClasses }
{
    fewer_loops_have_no_more_classes();
}
