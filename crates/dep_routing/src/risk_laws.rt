//! That touches by other risks are sound, as a contract of a function that does nothing.

ghost use Rattle.dep_routing.specs.Risks.{RisksMarkTraps, RisksAreSound};

use crate::leaving::quiet_regions_are_left;
use cfg_build::{
    flow_graph_is_strong, passes_are_a_walk, passes_lie_within_steps, pieces_run_executables,
};

/// Where fewer executables may trap than can trap by their text, as other means tell, touches are sound all the same: where a run over
/// words traps, the piece touches the line of output, and what firings ask of touches holds.
pub fn risks_are_sound()
    ensures traps { RisksMarkTraps }
    ensures sound { RisksAreSound }
{
    quiet_regions_are_left();
    flow_graph_is_strong();
    passes_are_a_walk();
    passes_lie_within_steps();
    pieces_run_executables();
}
