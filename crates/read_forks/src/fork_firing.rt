//! The firings of a net in which the loads of a group fire in any order.

ghost use Rattle.std.specs.Prelude.{◌≡◌, ◌<◌, None, Some, false, length, slice_get, true};
ghost use Rattle.firing.specs.Control.{steered as steered_in};
ghost use Rattle.firing.specs.Moves.{FiredIs, newest};
ghost use Rattle.op_board.specs.OperationNets.{operation_node};
ghost use Rattle.op_net.specs.ApartLoads.{IsCounting, MarksOthers, flags_of};
ghost use Rattle.op_net.specs.NetView.{net_of as net_in};
ghost use Rattle.operation_tables.specs.Waits.{node_total};
ghost use Rattle.fork_board.specs.ForkTokens.{fork_course, fork_moves, is_load_node};
ghost use Rattle.fork_board.specs.SoundForks.{ForksCanCome};
ghost use Rattle.read_forks.specs.ForkView.{KeepsSet, marking_of, net_of, place_of};

use crate::ForkNet;
use crate::steps::Step;
use crate::waiting::can_load;
use firing::{Fired, StepSystem};
use fork_board::{groups_end, loads_come_once};
use op_net::OpNet;

impl<const W: usize> ForkNet<'_, W> {
    /// Whether a node has all that it needs.
    pub(crate) fn is_ready(&self, k: u32) -> bool
        requires node { k < node_total (net_of self.now) }
        requires sound { ForksCanCome (net_of self.now) (marking_of self.now) }
        ensures { result ≡ (fork_moves (net_of self.now)).ready (marking_of self.now) k }
    {
        let step = self.waiting.steps.at(k as usize);
        if step.loads {
            can_load(&self.net, &self.waiting.closed, k, step)
        } else {
            self.net.ready(k)
        }
    }

    /// Fires a ready node.
    #[inline(always)]
    pub(crate) fn fire_node(&mut self, k: u32) -> Fired
        requires node { k < node_total (net_of self.old) }
        requires ready { (fork_moves (net_of self.old)).ready (marking_of self.old) k ≡ true }
        requires sound { ForksCanCome (net_of self.old) (marking_of self.old) }
        requires going { (marking_of self.old).operations.tokens.trap ≡ None }
        ensures net { net_of self.new ≡ net_of self.old }
        ensures marking { marking_of self.new ≡ (fork_moves (net_of self.old)).fired (marking_of self.old) k }
        ensures place { place_of self.new ≡ steered_in (fork_course (net_of self.old)) (marking_of self.old) (place_of self.old) k }
        ensures keeps { KeepsSet self.old → KeepsSet self.new }
        ensures fired { FiredIs (fork_moves (net_of self.old)) (marking_of self.old) k result }
        ensures last { self.new.net.text.items ≡ newest ((fork_moves (net_of self.old)).line (marking_of self.old) k) self.old.net.text.items }
    {
        let step = self.waiting.steps.at(k as usize);
        if step.loads {
            self.fire_load(k, step)
        } else {
            self.fire_other(k, step)
        }
    }

    // Fires a load.
    #[inline(always)]
    fn fire_load(&mut self, k: u32, step: Step) -> Fired
        requires node { k < node_total (net_of self.old) }
        requires ready { (fork_moves (net_of self.old)).ready (marking_of self.old) k ≡ true }
        requires sound { ForksCanCome (net_of self.old) (marking_of self.old) }
        requires going { (marking_of self.old).operations.tokens.trap ≡ None }
        requires step { slice_get self.old.waiting.steps k ≡ Some step }
        requires loads { is_load_node (net_of self.old) (operation_node (net_of self.old) k) ≡ true }
        ensures net { net_of self.new ≡ net_of self.old }
        ensures marking { marking_of self.new ≡ (fork_moves (net_of self.old)).fired (marking_of self.old) k }
        ensures place { place_of self.new ≡ steered_in (fork_course (net_of self.old)) (marking_of self.old) (place_of self.old) k }
        ensures keeps { KeepsSet self.old → KeepsSet self.new }
        ensures fired { FiredIs (fork_moves (net_of self.old)) (marking_of self.old) k result }
        ensures last { self.new.net.text.items ≡ newest ((fork_moves (net_of self.old)).line (marking_of self.old) k) self.old.net.text.items }
    {
        groups_end();
        loads_come_once();
        let edge = self.net.edge_after(k, step.piece, step.number);
        self.net.load_apart(k, step.piece, step.number);
        self.net.mark_apart(k, false);
        self.waiting.closed[k as usize] = step.count;
        self.waiting.close_links(&mut self.net, k, step);
        self.net.steer(k, edge);
        self.test_givers(k, step);
        self.test_taker(k, step);
        others_are_marked(&self.net);
        Fired::Moved
    }

    // Fires a node that is no load.
    #[inline(always)]
    fn fire_other(&mut self, k: u32, step: Step) -> Fired
        requires node { k < node_total (net_of self.old) }
        requires ready { (fork_moves (net_of self.old)).ready (marking_of self.old) k ≡ true }
        requires sound { ForksCanCome (net_of self.old) (marking_of self.old) }
        requires going { (marking_of self.old).operations.tokens.trap ≡ None }
        requires step { slice_get self.old.waiting.steps k ≡ Some step }
        requires loads { is_load_node (net_of self.old) (operation_node (net_of self.old) k) ≡ false }
        ensures net { net_of self.new ≡ net_of self.old }
        ensures marking { marking_of self.new ≡ (fork_moves (net_of self.old)).fired (marking_of self.old) k }
        ensures place { place_of self.new ≡ steered_in (fork_course (net_of self.old)) (marking_of self.old) (place_of self.old) k }
        ensures keeps { KeepsSet self.old → KeepsSet self.new }
        ensures fired { FiredIs (fork_moves (net_of self.old)) (marking_of self.old) k result }
        ensures last { self.new.net.text.items ≡ newest ((fork_moves (net_of self.old)).line (marking_of self.old) k) self.old.net.text.items }
    {
        let (fired, edge) = self.net.fire_node(k);
        self.net.steer(k, edge);
        self.waiting.arrive_after(&mut self.net, k, step, edge);
        self.test_givers(k, step);
        self.test_taker(k, step);
        others_are_marked(&self.net);
        fired
    }
}

// Of the nodes that are no loads those are marked that are ready, if it is counted for how much nodes wait. It does nothing.
#[inline(always)]
fn others_are_marked<const W: usize>(net: &OpNet<W>)
    ensures others { IsCounting net.now → MarksOthers net.now }
    ensures room { IsCounting net.now → length (flags_of net.now) ≡ node_total (net_in net.now) }
{
    if net.is_counted() {
        net.others_are_marked();
    }
}
