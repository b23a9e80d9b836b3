//! The marks of the loads of a net that wait for nothing.

ghost use Rattle.std.specs.Prelude.{◌≡◌, ◌<◌, ℕ, Some, false, length, set, slice_get, true};
ghost use Rattle.firing.specs.declared.system.NodeName.TheVariants.{Op};
ghost use Rattle.op_board.specs.OperationNets.{operation_node};
ghost use Rattle.op_net.specs.ApartLoads.{flags_of};
ghost use Rattle.op_net.specs.NetView.{marking_of as operations_on, net_of as net_in};
ghost use Rattle.operation_tables.specs.Waits.{node_total};
ghost use Rattle.fork_board.specs.ForkTokens.{is_load_node};
ghost use Rattle.read_forks.specs.ForkView.{KeepsSet, marking_of, net_of, place_of};
ghost use Rattle.read_forks.specs.MarkedNets.{AreLoadsApart};
ghost use Rattle.read_forks.specs.Retests.{takes};
ghost use Rattle.read_forks.specs.WaitingLoads.{IsRemarked, KeepsMarks, waits_for_nothing};
ghost use Rattle.firing.specs.ReadySet.{has};

use crate::ForkNet;
use crate::steps::Step;
use crate::waiting::test;
use firing::StepSystem;
use op_net::OpNet;

impl<const W: usize> ForkNet<'_, W> {
    /// Marks the ready nodes, and keeps them marked from now on.
    pub(crate) fn mark_all(&mut self)
        ensures keeps { KeepsSet self.new }
        ensures net { net_of self.new ≡ net_of self.old }
        ensures marking { marking_of self.new ≡ marking_of self.old }
        ensures place { place_of self.new ≡ place_of self.old }
        ensures last { self.new.net.text.items ≡ self.old.net.text.items }
    {
        self.net.count_apart();
        for k in 0..self.net.nodes() {
            let step = self.waiting.steps.at(k as usize);
            test_load(&mut self.net, &self.waiting.closed, k, step);
        }
    }

    /// Tests the loads whose values a node takes.
    #[inline(always)]
    pub(crate) fn test_givers(&mut self, k: u32, step: Step)
        requires node { k < node_total (net_of self.old) }
        requires step { slice_get self.old.waiting.steps k ≡ Some step }
        ensures rest { IsRemarked self.old.net self.new.net }
        ensures waiting { self.new.waiting ≡ self.old.waiting }
        ensures marks { KeepsMarks (net_of self.old) (operations_on self.old.net) self.old.waiting.closed.items self.old.waiting.closed.items (flags_of self.old.net) (flags_of self.new.net) }
        ensures right { (j : ℕ) → j < node_total (net_of self.old) → j < length (flags_of self.old.net) → is_load_node (net_of self.old) (operation_node (net_of self.old) j) ≡ true → takes (net_of self.old) (operation_node (net_of self.old) k) j ≡ true → has (flags_of self.new.net) j ≡ waits_for_nothing (net_of self.old) (operations_on self.old.net) self.old.waiting.closed.items j }
    {
        for n in step.giver..step.giver + step.givers as usize {
            let j = self.waiting.givers[n];
            test(
                &mut self.net,
                &self.waiting.closed,
                j,
                self.waiting.steps.at(j as usize),
            );
        }
    }

    /// Tests the load that takes the value of a node.
    #[inline(always)]
    pub(crate) fn test_taker(&mut self, k: u32, step: Step)
        requires node { k < node_total (net_of self.old) }
        requires step { slice_get self.old.waiting.steps k ≡ Some step }
        ensures rest { IsRemarked self.old.net self.new.net }
        ensures waiting { self.new.waiting ≡ self.old.waiting }
        ensures marks { KeepsMarks (net_of self.old) (operations_on self.old.net) self.old.waiting.closed.items self.old.waiting.closed.items (flags_of self.old.net) (flags_of self.new.net) }
        ensures right { (j : ℕ) → j < node_total (net_of self.old) → j < length (flags_of self.old.net) → is_load_node (net_of self.old) (operation_node (net_of self.old) j) ≡ true → takes (net_of self.old) (operation_node (net_of self.old) j) k ≡ true → has (flags_of self.new.net) j ≡ waits_for_nothing (net_of self.old) (operations_on self.old.net) self.old.waiting.closed.items j }
    {
        if step.taker < self.net.nodes() {
            let taker = step.taker;
            test(
                &mut self.net,
                &self.waiting.closed,
                taker,
                self.waiting.steps.at(taker as usize),
            );
        }
    }
}

// Marks a load where it waits for nothing. Other nodes are left as they are.
fn test_load<const W: usize>(net: &mut OpNet<W>, closed: &Vec<u32>, k: u32, step: Step)
    requires node { k < node_total (net_in net.old) }
    requires step { step.loads ≡ is_load_node (net_in net.old) (operation_node (net_in net.old) k) }
    requires name { step.loads ≡ true → operation_node (net_in net.old) k ≡ Op step.piece step.number }
    requires apart { AreLoadsApart net.old }
    requires inside { k < length closed.now.items }
    ensures kept { IsRemarked net.old net.new }
    ensures tested { step.loads ≡ true → flags_of net.new ≡ set (flags_of net.old) k (waits_for_nothing (net_in net.old) (operations_on net.old) closed.now.items k) }
    ensures left { step.loads ≡ false → flags_of net.new ≡ flags_of net.old }
{
    if step.loads {
        test(net, closed, k, step);
    }
}
