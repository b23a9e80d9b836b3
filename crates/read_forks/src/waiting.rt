//! For what loads wait, and the marks of those that wait for nothing.

ghost use Rattle.std.specs.Prelude.{◌≡◌, ◌<◌, ◌-◌, Some, [], length, set, slice_get, slice_index, true};
ghost use Rattle.firing.specs.declared.system.NodeName.TheVariants.{Op};
ghost use Rattle.op_board.specs.OperationNets.{operation_node};
ghost use Rattle.op_net.specs.ApartLoads.{flags_of};
ghost use Rattle.op_net.specs.NetView.{marking_of as operations_on, net_of as net_in};
ghost use Rattle.operation_tables.specs.Waits.{node_total};
ghost use Rattle.fork_board.specs.ForkTokens.{is_load_node};
ghost use Rattle.read_forks.specs.MarkedNets.{AreLoadsApart};
ghost use Rattle.read_forks.specs.WaitingLoads.{IsRemarked, KeepsMarks, waits_for_nothing};

use crate::steps::{Group, Link, Step, Steps};
use firing::StepSystem;
use op_net::OpNet;

/// For what the loads of a net wait.
#[derive(Drop)]
pub(crate) struct Waiting {
    /// For each node what its firing changes for loads.
    pub(crate) steps: Steps,
    /// The lines that operations need.
    pub(crate) links: Vec<Link>,
    /// The loads whose values nodes take.
    pub(crate) givers: Vec<u32>,
    /// For each load how many of the lines that it needs aren't open for it.
    pub(crate) closed: Vec<u32>,
    /// For each line the group before which it stands.
    pub(crate) groups: Vec<Group>,
}

/// Whether a load waits for nothing: its lines are open for it, its operands are there, and its value was taken.
#[inline(always)]
pub(crate) fn can_load<const W: usize>(
    net: &OpNet<W>,
    closed: &Vec<u32>,
    k: u32,
    step: Step,
) -> bool
    requires node { k < node_total (net_in net.now) }
    requires name { operation_node (net_in net.now) k ≡ Op step.piece step.number }
    requires inside { k < length closed.now.items }
    ensures { result ≡ waits_for_nothing (net_in net.now) (operations_on net.now) closed.now.items k }
{
    closed[k as usize] == 0 && net.has_values(k, step.piece, step.number)
}

/// Marks a load where it waits for nothing.
#[inline(always)]
pub(crate) fn test<const W: usize>(net: &mut OpNet<W>, closed: &Vec<u32>, k: u32, step: Step)
    requires node { k < node_total (net_in net.old) }
    requires name { operation_node (net_in net.old) k ≡ Op step.piece step.number }
    requires loads { is_load_node (net_in net.old) (operation_node (net_in net.old) k) ≡ true }
    requires apart { AreLoadsApart net.old }
    requires inside { k < length closed.now.items }
    ensures kept { IsRemarked net.old net.new }
    ensures flags { flags_of net.new ≡ set (flags_of net.old) k (waits_for_nothing (net_in net.old) (operations_on net.old) closed.now.items k) }
{
    let ready = can_load(net, closed, k, step);
    net.mark_apart(k, ready);
}

/// One more line is open for a load. It is marked where it waits for nothing any more.
#[inline(always)]
pub(crate) fn open_for<const W: usize>(
    net: &mut OpNet<W>,
    steps: &Steps,
    closed: &mut Vec<u32>,
    k: u32,
)
    requires node { k < node_total (net_in net.old) }
    requires step { (step : Step) → slice_get steps.now k ≡ Some step → operation_node (net_in net.old) k ≡ Op step.piece step.number }
    requires exists { k < length steps.now }
    requires loads { is_load_node (net_in net.old) (operation_node (net_in net.old) k) ≡ true }
    requires apart { AreLoadsApart net.old }
    requires inside { k < length closed.old.items }
    requires some { 0 < slice_index closed.old.items k }
    ensures kept { IsRemarked net.old net.new }
    ensures closed { closed.new.items ≡ set closed.old.items k (slice_index closed.old.items k - 1) }
    ensures marks { KeepsMarks (net_in net.old) (operations_on net.old) closed.old.items closed.new.items (flags_of net.old) (flags_of net.new) }
{
    let left = closed[k as usize] - 1;
    closed[k as usize] = left;
    if left == 0 {
        test(net, closed, k, steps.at(k as usize));
    }
}
