//! Laws on the ranges of DOs in flow graphs, as contracts of functions that do nothing.

ghost use Rattle.cfg_build.specs.FlowLaws.{RangesAreEnteredByTests, IncrementsLeadToTests, NoActIsAnEnd};

use closed_walks::{endless_ways_meet_cycles, reaching_is_told};

/// Where no hold stands on an edge, it leads into the range of a DO from the test of that DO alone, and not by the test's edge to the
/// exit. The increment of a DO leads to its test, or to the join before that.
pub fn ranges_are_entered_by_tests()
    ensures enters { RangesAreEnteredByTests }
    ensures returns { IncrementsLeadToTests }
{
    reaching_is_told();
    endless_ways_meet_cycles();
}

/// No act is made for END, so an act that doesn't trap goes on.
pub fn acts_go_on()
    ensures { NoActIsAnEnd }
{
    reaching_is_told();
    endless_ways_meet_cycles();
}
