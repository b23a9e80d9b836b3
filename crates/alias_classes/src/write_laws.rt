//! Laws on the classes that executables write, and on programs with the same words, as contracts of functions that do nothing.

ghost use Rattle.f77_tree.specs.Touched.{SetsCount, SetsStep};
ghost use Rattle.alias_classes.specs.Needs.{ExecNeeds};
ghost use Rattle.alias_classes.specs.WriteLaws.{WritesWhatMayChange, WritesWhatChanges, CountsWhatIsSet, AreAmong, FewerLoopsFewerClasses, SameWordsSameClasses};
ghost use Rattle.alias_classes.specs.Writes.{ExecWrites, ExecWritesOrCounts};

use f77_tree::{accesses_stay_in_their_names, executables_keep_the_rest};

/// An executable writes the class of each word that it may change, and it writes or counts the class of each DO whose count or step it
/// sets. Of the classes that it writes or counts it needs each.
pub fn writes_cover_changes()
    ensures changes { WritesWhatMayChange }
    ensures changed { WritesWhatChanges }
    ensures sets_count { CountsWhatIsSet SetsCount }
    ensures sets_step { CountsWhatIsSet SetsStep }
    ensures counts { AreAmong ExecWrites ExecWritesOrCounts }
    ensures needs { AreAmong ExecWritesOrCounts ExecNeeds }
{
    accesses_stay_in_their_names();
    executables_keep_the_rest();
}

/// Of two programs with the same names and words, the one with fewer DOs has no more classes, and words have the same classes in both.
pub fn fewer_loops_have_no_more_classes()
    ensures number { FewerLoopsFewerClasses }
    ensures same { SameWordsSameClasses }
{}
