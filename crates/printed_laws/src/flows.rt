//! Flow graphs as they are made.

ghost use Rattle.printed_laws.specs.ShortFlow.{IsShortFlow};

use crate::numbers::stays_short;
use cfg_build::Flow;

/// Each flow graph that is made has edges and lines that are counted in 32 bits.
pub fn flows_are_short(flow: &Flow)
    ensures { IsShortFlow flow.now }
{
    let _edges = flow.graph().edges();
    for k in 0..flow.pieces() {
        stays_short(flow.piece(k).line);
    }
}
