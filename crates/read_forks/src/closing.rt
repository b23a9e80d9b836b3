//! Lines are closed for loads that have fired.

ghost use Rattle.std.specs.Prelude.{◌≡◌, ◌<◌, ◌≤◌, ◌+◌, ℕ, Some, false, slice_get, true};
ghost use Rattle.list_laws.specs.Member.{Member};
ghost use Rattle.firing.specs.declared.system.NodeName.TheVariants.{Op};
ghost use Rattle.op_board.specs.OperationNets.{needed, operation_node};
ghost use Rattle.op_board.specs.SoundOperationNets.{OperationsCanCome};
ghost use Rattle.op_net.specs.ApartLoads.{KeepsApart};
ghost use Rattle.op_net.specs.NetView.{marking_of as operations_on, net_of as net_in};
ghost use Rattle.operation_tables.specs.Waits.{node_total};
ghost use Rattle.fork_board.specs.Chains.{ComeOnce, GroupsEnd};
ghost use Rattle.read_forks.specs.KeptLoads.{AreClosedFor, AreLinesKept, opened_of};
ghost use Rattle.read_forks.specs.LoadChanges.{IsPut};
ghost use Rattle.read_forks.specs.LoadSteps.{line_read, lines_read};
ghost use Rattle.read_forks.specs.OpenGroups.{marking_by};
ghost use Rattle.read_forks.specs.RisingLinks.{line_at};

use crate::steps::Step;
use crate::waiting::Waiting;
use op_net::OpNet;

impl Waiting {
    /// Closes its lines for a load that has fired.
    #[inline(always)]
    pub(crate) fn close_links<const W: usize>(&mut self, net: &mut OpNet<W>, k: u32, step: Step)
        requires node { k < node_total (net_in net.old) }
        requires step { slice_get self.old.steps k ≡ Some step }
        requires name { operation_node (net_in net.old) k ≡ Op step.piece step.number }
        requires sound { OperationsCanCome (net_in net.old) (operations_on net.old) }
        requires ends { GroupsEnd (net_in net.old) }
        requires once { ComeOnce (net_in net.old) }
        requires lines { AreLinesKept (net_in net.old) (operations_on net.old) self.old }
        requires open { (line : ℕ) → Member (needed (net_in net.old) step.piece step.number) line → opened_of (net_in net.old) self.old line step.piece step.number ≡ true }
        ensures net { net_in net.new ≡ net_in net.old }
        ensures marking { marking_by (net_in net.old) (operations_on net.new) (opened_of (net_in net.old) self.new) ≡ lines_read (net_in net.old) step.piece step.number (marking_by (net_in net.old) (operations_on net.old) (opened_of (net_in net.old) self.old)) (needed (net_in net.old) step.piece step.number) }
        ensures lines { AreLinesKept (net_in net.old) (operations_on net.new) self.new }
        ensures closed { self.new.closed ≡ self.old.closed }
        ensures steps { self.new.steps ≡ self.old.steps }
        ensures opened { AreClosedFor (needed (net_in net.old) step.piece step.number) step.piece step.number (opened_of (net_in net.old) self.old) (opened_of (net_in net.old) self.new) }
        ensures apart { KeepsApart net.old net.new }
        ensures place { net.new.control ≡ net.old.control }
        ensures last { net.new.text.items ≡ net.old.text.items }
    {
        for at in step.first..step.first + step.count as usize {
            self.close_link(net, k, step, at);
        }
    }

    // Closes a line for a load that has fired. Where it was the last one of a group the line goes on.
    #[inline(always)]
    fn close_link<const W: usize>(&mut self, net: &mut OpNet<W>, k: u32, step: Step, at: usize)
        requires node { k < node_total (net_in net.old) }
        requires step { slice_get self.old.steps k ≡ Some step }
        requires name { operation_node (net_in net.old) k ≡ Op step.piece step.number }
        requires from { step.first ≤ at }
        requires below { at < step.first + step.count }
        requires sound { OperationsCanCome (net_in net.old) (operations_on net.old) }
        requires ends { GroupsEnd (net_in net.old) }
        requires once { ComeOnce (net_in net.old) }
        requires lines { AreLinesKept (net_in net.old) (operations_on net.old) self.old }
        requires open { opened_of (net_in net.old) self.old (line_at self.old.links.items at) step.piece step.number ≡ true }
        ensures net { net_in net.new ≡ net_in net.old }
        ensures sound { OperationsCanCome (net_in net.old) (operations_on net.new) }
        ensures marking { marking_by (net_in net.old) (operations_on net.new) (opened_of (net_in net.old) self.new) ≡ line_read (net_in net.old) step.piece step.number (marking_by (net_in net.old) (operations_on net.old) (opened_of (net_in net.old) self.old)) (line_at self.old.links.items at) }
        ensures lines { AreLinesKept (net_in net.old) (operations_on net.new) self.new }
        ensures closed { self.new.closed ≡ self.old.closed }
        ensures steps { self.new.steps ≡ self.old.steps }
        ensures opened { IsPut (line_at self.old.links.items at) step.piece step.number false (opened_of (net_in net.old) self.old) (opened_of (net_in net.old) self.new) }
        ensures apart { KeepsApart net.old net.new }
        ensures place { net.new.control ≡ net.old.control }
        ensures last { net.new.text.items ≡ net.old.text.items }
    {
        let line = self.links[at].line;
        let group = self.groups[line as usize];
        self.links[at].open = false;
        self.groups[line as usize].left = group.left - 1;
        if group.left == 1 {
            net.put_between(line, group.edge, group.passed, group.from, group.to);
        }
    }
}
