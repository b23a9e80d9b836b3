//! Which lines the pieces of a program's flow graph touch, where subscripts that are seen in range can't trap.

ghost use Rattle.std.specs.Prelude.{◌≡◌, ◌<◌, ◌*◌, length, IfOk};
ghost use Rattle.class_set.specs.Members.{IsWidth};
ghost use Rattle.f77_tree.specs.WellFormed.{IsWellFormed};
ghost use Rattle.alias_classes.specs.Classes.{IsClasses, class_count};
ghost use Rattle.cfg_build.specs.Flow.{flow};
ghost use Rattle.dep_routing.specs.Touch.{touches_in};
ghost use Rattle.range_lines.specs.RangeTouches.{AreRangeTouches};

use crate::laws::what_takes_data_may_trap;
use crate::risks::range_risks;
use alias_classes::Classes;
use cfg_build::Flow;
use dep_routing::{TouchList, touches_by};
use df_sequence::NoMemory;
use f77_tree::Program;
use std::alloc::Global;

/// For each piece of the flow graph of a program the set of the lines that it touches, where neither the bounds of a subscript that is
/// seen in range nor the operator in it can trap. Line 0 is that of output, and the others are the classes of the program.
///
/// # Errors
///
/// NoMemory, where an allocation failed.
pub fn range_touches<const W: usize>(
    alloc: Global,
    p: &Program,
    f: &Flow,
    c: &Classes<W>,
) -> Result<TouchList<W>, NoMemory>
    requires width { IsWidth W }
    requires program { IsWellFormed p.now }
    requires flow { f.now ≡ flow p.now.execs }
    requires classes { IsClasses p.now c.now }
    requires few { class_count c.now < 64 * W }
    ensures pieces { IfOk result (λ list. length list ≡ (flow p.now.execs).graph.nodes) }
    ensures touches { IfOk result (λ list. AreRangeTouches p.now c.now (touches_in list)) }
{
    what_takes_data_may_trap();
    let may_trap = range_risks(alloc, p, c)?;
    touches_by(alloc, p, f, c, &may_trap)
}
