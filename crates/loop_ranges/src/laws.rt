//! Laws on DOs and subscripts over the runs of a program, as contracts of functions that do nothing.

ghost use Rattle.loop_ranges.specs.RangeLaws.{PlainLoopsAreUnderWay, SeenSubscriptsAreInBounds, SeenSubscriptsDoNotTrap};

use alias_classes::writes_cover_changes;

/// In every run of a well-formed program, while control is in the range of a plain DO, its variable has the value that the number of
/// iterations gives, by whole numbers.
pub fn plain_loops_run_through_their_values()
    ensures { PlainLoopsAreUnderWay }
{
    writes_cover_changes();
}

/// In every run of a well-formed program, where control is at an executable with a subscript that is seen in range, that subscript
/// has a value, which lies within the bounds of its dimension. So an executable that can't trap but in such subscripts doesn't trap.
pub fn subscripts_seen_in_range_do_not_trap()
    ensures bounds { SeenSubscriptsAreInBounds }
    ensures executables { SeenSubscriptsDoNotTrap }
{
    writes_cover_changes();
}
