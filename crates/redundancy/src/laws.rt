//! What runs find of available expressions, as contracts of functions that do nothing.

ghost use Rattle.redundancy.specs.Laws.{AvailabilityIsOneTable, AvailableExpressionsKeepTheirValues};

use alias_classes::{needs_cover_accesses, one_numbering};
use cfg_build::{flow_graph_has_shape, passes_are_a_walk};
use f77_tree::{
    executables_keep_the_rest, reads_decide, runs_hold_words, what_cannot_trap_does_not,
};

/// Where a run over data of words comes to a piece at which an expression is available, an earlier pass computed the expression, and
/// since then it has had one value.
pub fn available_expressions_keep_their_values()
    ensures { AvailableExpressionsKeepTheirValues }
{
    needs_cover_accesses();
    flow_graph_has_shape();
    passes_are_a_walk();
    executables_keep_the_rest();
    reads_decide();
    runs_hold_words();
    what_cannot_trap_does_not();
}

/// A program has one table of available expressions, whatever table of its classes tells what writes what.
pub fn one_table_of_availability()
    ensures { AvailabilityIsOneTable }
{
    one_numbering();
}
