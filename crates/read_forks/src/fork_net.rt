//! The net of a program with operations as nodes, in which the loads of a group fire in any order.

ghost use Rattle.op_net.specs.NetView.{marking_of as operations_on, net_of as net_in};
ghost use Rattle.read_forks.specs.KeptLoads.{AreKept};
ghost use Rattle.read_forks.specs.MarkedNets.{AreLoadsApart};

use crate::waiting::Waiting;
use op_net::OpNet;

/// A dataflow net that does what a program does, as `OpNet` does, but that loads which follow one another along a token line fire in any
/// order: no load changes what another one reads. The line waits before them until all of them have fired.
#[derive(Drop)]
pub struct ForkNet<'a, const W: usize> {
    // Each of its lines stands before the first load of its group until the line goes on. Where that is so a node that is no load is
    // ready as in any net, so the net keeps the set of the ready nodes itself, and is told of loads alone which of them are ready.
    pub(crate) net: OpNet<'a, W>,
    pub(crate) waiting: Waiting,
    ghost apart: { AreLoadsApart net },
    ghost kept: { AreKept (net_in net) (operations_on net) waiting },
}

impl<'a, const W: usize> ForkNet<'a, W> {
    ghost use Rattle.std.specs.Prelude.{◌≡◌, ◌<◌, length};
    ghost use Rattle.f77_tree.specs.Value.{word_at};
    ghost use Rattle.read_forks.specs.ForkView.{marking_of};

    /// The word of the store with this number.
    pub fn word(&self, k: u32) -> i32
        requires { k < length (marking_of self.now).operations.tokens.memory.store }
        ensures { result ≡ word_at (marking_of self.now).operations.tokens.memory.store k }
    {
        self.net.word(k)
    }
}
