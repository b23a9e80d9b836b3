//! Laws of touches by ranges, as contracts of functions that do nothing.

ghost use Rattle.range_lines.specs.RangeTouches.{TakingMayTrap, RangeTouchesAreSound, OneRangeTouching};

use alias_classes::{one_numbering, writes_cover_changes};
use cfg_build::{
    flow_graph_is_strong, passes_are_a_walk, passes_lie_within_steps, pieces_run_executables,
};
use dep_routing::quiet_regions_are_left;
use loop_ranges::subscripts_seen_in_range_do_not_trap;

/// An executable that takes data may trap, at the end of the data: no subscript that is seen in range takes any.
pub fn what_takes_data_may_trap()
    ensures { TakingMayTrap }
{
    writes_cover_changes();
}

/// Touches by ranges are sound: where a run over words traps, the piece touches the line of output, so does a piece that is known to
/// trap, and what firings ask of touches holds.
pub fn range_touches_are_sound()
    ensures { RangeTouchesAreSound }
{
    quiet_regions_are_left();
    flow_graph_is_strong();
    passes_are_a_walk();
    passes_lie_within_steps();
    pieces_run_executables();
    writes_cover_changes();
    subscripts_seen_in_range_do_not_trap();
}

/// Whatever tells which lines the pieces of a program touch by ranges tells the same, where it tells none of other pieces.
pub fn one_range_touching()
    ensures { OneRangeTouching }
{
    one_numbering();
}
