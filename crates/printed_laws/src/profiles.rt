//! The texts of a dataflow graph and of a trace, one after the other.

ghost use Rattle.printed_laws.specs.PrintedTexts.{ProfilesAreRead};

use alias_classes::classes_are_counted;
use cfg_build::{flow_graph_has_shape, flow_graph_is_strong, pieces_are_few};
use dep_routing::next_edges;

/// A text that tells the net of a program, and after it what is written for `trace` of that program, can be read: of these two a profile
/// is made. The premises are those of `graphs_are_read` and of `traces_are_read`.
pub fn profiles_are_read()
    ensures { ProfilesAreRead }
{
    flow_graph_is_strong();
    flow_graph_has_shape();
    pieces_are_few();
    classes_are_counted();
    next_edges();
}
