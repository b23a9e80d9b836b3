//! Lines that come before groups are opened for the loads of these.

ghost use Rattle.std.specs.Prelude.{◌≡◌, ◌<◌, ◌+◌, ◌^◌, ◌∷◌, ℕ, None, Some, [], false, length, slice_get, true};
ghost use Rattle.firing.specs.declared.system.NodeName.TheVariants.{Op};
ghost use Rattle.op_board.specs.OperationNets.{first_operation, operation_node};
ghost use Rattle.closed_walks.specs.Graph.{edge_count};
ghost use Rattle.net_board.specs.Nodes.{graph_in};
ghost use Rattle.op_board.specs.SoundOperationNets.{IsOperationNet};
ghost use Rattle.op_net.specs.ApartLoads.{flags_of};
ghost use Rattle.op_net.specs.NetView.{marking_of as operations_on, net_of as net_in};
ghost use Rattle.fork_board.specs.ForkTokens.{is_load_node};
ghost use Rattle.read_forks.specs.MarkedNets.{AreLoadsApart};
ghost use Rattle.read_forks.specs.WaitingLoads.{IsRemarked, KeepsMarks};
ghost use Rattle.net_board.specs.Tokens.{edge_of};
ghost use Rattle.op_board.specs.OperationTokens.{passed_by};
ghost use Rattle.operation_tables.specs.Waits.{IsNodeBefore};
ghost use Rattle.fork_board.specs.LoadGroups.{group_at, load_at, site, spot};
ghost use Rattle.read_forks.specs.KeptLoads.{AreKept, AreOpened, AreTables, IsOpenForNone, opened_of};
ghost use Rattle.read_forks.specs.LoadChanges.{IsPut};
ghost use Rattle.read_forks.specs.OpenGroups.{AreClosed, IsGroupAt};
ghost use Rattle.read_forks.specs.OpenedGroups.{IsOpenedFor, StandsAt, is_open_in, node_at};
ghost use Rattle.read_forks.specs.RisingLinks.{line_at};
ghost use Rattle.read_forks.specs.Ways.{IsLinkAt, IsWayOf, edge_after, link_after, node_after, passed_after};

use crate::steps::{Group, link_near};
use crate::waiting::{Waiting, open_for};
use crate::ways::Way;
use firing::StepSystem;
use fork_board::{groups_end, loads_come_once};
use net_board::nets_simulate_programs;
use op_board::operations_have_facts;
use op_net::OpNet;

impl Waiting {
    /// Opens a line for the loads of the group before which it has come to stand, if the node there is a load.
    #[inline(always)]
    pub(crate) fn arrive<const W: usize>(
        &mut self,
        net: &mut OpNet<W>,
        line: u32,
        edge: u32,
        to: u32,
        guess: u32,
    )
        requires line { line < (net_in net.old).net.routing.lines }
        requires is_net { IsOperationNet (net_in net.old) }
        requires exists { edge < edge_count (graph_in (net_in net.old).net) }
        requires apart { AreLoadsApart net.old }
        requires kept { AreKept (net_in net.old) (operations_on net.old) self.old }
        requires none { IsOpenForNone (opened_of (net_in net.old) self.old) line }
        requires stands { edge_of (operations_on net.old).tokens line ≡ Some edge }
        requires before { IsNodeBefore (net_in net.old) line (Some edge) (passed_by (operations_on net.old) line) to }
        ensures rest { IsRemarked net.old net.new }
        ensures kept { AreKept (net_in net.old) (operations_on net.old) self.new }
        ensures opened { AreOpened (net_in net.old) (operations_on net.old) (line ∷ []) (opened_of (net_in net.old) self.old) (opened_of (net_in net.old) self.new) }
        ensures marks { KeepsMarks (net_in net.old) (operations_on net.old) self.old.closed.items self.new.closed.items (flags_of net.old) (flags_of net.new) }
        ensures steps { self.new.steps ≡ self.old.steps }
    {
        nets_simulate_programs();
        if to >= net.nodes() {
            return;
        }
        let step = self.steps.at(to as usize);
        if !step.loads {
            return;
        }
        let at = link_near(&self.links, step, line, guess);
        self.open_group(net, line, edge, at);
    }

    /// Opens a line for the loads of the group before which it stands, from the first one on.
    #[inline(always)]
    pub(crate) fn open_group<const W: usize>(
        &mut self,
        net: &mut OpNet<W>,
        line: u32,
        edge: u32,
        first: usize,
    )
        requires line { line < (net_in net.old).net.routing.lines }
        requires is_net { IsOperationNet (net_in net.old) }
        requires exists { edge < edge_count (graph_in (net_in net.old).net) }
        requires apart { AreLoadsApart net.old }
        requires kept { AreKept (net_in net.old) (operations_on net.old) self.old }
        requires none { IsOpenForNone (opened_of (net_in net.old) self.old) line }
        requires stands { edge_of (operations_on net.old).tokens line ≡ Some edge }
        requires first { (piece : ℕ) × ((number : ℕ) × ((load_at (net_in net.old) line (spot edge (passed_by (operations_on net.old) line)) ≡ Some (site piece number)) × IsLinkAt self.old.links.items first line (first_operation (net_in net.old) piece + number))) }
        ensures rest { IsRemarked net.old net.new }
        ensures kept { AreKept (net_in net.old) (operations_on net.old) self.new }
        ensures opened { AreOpened (net_in net.old) (operations_on net.old) (line ∷ []) (opened_of (net_in net.old) self.old) (opened_of (net_in net.old) self.new) }
        ensures marks { KeepsMarks (net_in net.old) (operations_on net.old) self.old.closed.items self.new.closed.items (flags_of net.old) (flags_of net.new) }
        ensures steps { self.new.steps ≡ self.old.steps }
    {
        nets_simulate_programs();
        let passed = net.passed(line);
        let group = self.opened_group(net, line, edge, passed, first);
        self.groups[line as usize] = group;
    }

    // Opens a line for the loads of a group, from the first one on, and tells of the group.
    #[inline(always)]
    fn opened_group<const W: usize>(
        &mut self,
        net: &mut OpNet<W>,
        line: u32,
        edge: u32,
        passed: u32,
        first: usize,
    ) -> Group
        requires line { line < (net_in net.old).net.routing.lines }
        requires is_net { IsOperationNet (net_in net.old) }
        requires exists { edge < edge_count (graph_in (net_in net.old).net) }
        requires apart { AreLoadsApart net.old }
        requires tables { AreTables (net_in net.old) self.old }
        requires closed { AreClosed (net_in net.old) (opened_of (net_in net.old) self.old) self.old.closed.items }
        requires none { IsOpenForNone (opened_of (net_in net.old) self.old) line }
        requires first { StandsAt (net_in net.old) self.old.links.items line first (spot edge passed) }
        ensures rest { IsRemarked net.old net.new }
        ensures tables { AreTables (net_in net.old) self.new }
        ensures closed { AreClosed (net_in net.old) (opened_of (net_in net.old) self.new) self.new.closed.items }
        ensures opened { IsOpenedFor line (group_at (net_in net.old) line (spot edge passed)) (opened_of (net_in net.old) self.old) (opened_of (net_in net.old) self.new) }
        ensures group { IsGroupAt (net_in net.old) (opened_of (net_in net.old) self.new) line (spot edge passed) result }
        ensures marks { KeepsMarks (net_in net.old) (operations_on net.old) self.old.closed.items self.new.closed.items (flags_of net.old) (flags_of net.new) }
        ensures steps { self.new.steps ≡ self.old.steps }
        ensures groups { self.new.groups ≡ self.old.groups }
    {
        loads_come_once();
        groups_end();
        operations_have_facts();
        nets_simulate_programs();
        let from = self.links[first].node;
        let mut group = Group {
            left: 0,
            edge,
            passed,
            from,
            to: from,
        };
        let mut at = first;
        let mut most = net.nodes();
        'walk: while most > 0 {
            let way = self.open_link(net, at);
            most -= 1;
            let (more, next) = gone_on(group, way);
            group = more;
            let Some(link) = next else {
                return group;
            };
            at = link;
        }
        group
    }

    // Opens a line for a load, by its link, and tells where the line goes from there.
    #[inline(always)]
    fn open_link<const W: usize>(&mut self, net: &mut OpNet<W>, at: usize) -> Way
        requires inside { at < length self.old.links.items }
        requires loads { is_load_node (net_in net.old) (operation_node (net_in net.old) (node_at self.old.links.items at)) ≡ true }
        requires shut { is_open_in (slice_get self.old.links.items at) ≡ false }
        requires apart { AreLoadsApart net.old }
        requires tables { AreTables (net_in net.old) self.old }
        requires closed { AreClosed (net_in net.old) (opened_of (net_in net.old) self.old) self.old.closed.items }
        ensures rest { IsRemarked net.old net.new }
        ensures way { ∥ IsWayOf (net_in net.old) self.new.links.items (operation_node (net_in net.old) (node_at self.old.links.items at)) (line_at self.old.links.items at) result ∥₁ }
        ensures tables { AreTables (net_in net.old) self.new }
        ensures closed { AreClosed (net_in net.old) (opened_of (net_in net.old) self.new) self.new.closed.items }
        ensures opened { (piece number : ℕ) → operation_node (net_in net.old) (node_at self.old.links.items at) ≡ Op piece number → IsPut (line_at self.old.links.items at) piece number true (opened_of (net_in net.old) self.old) (opened_of (net_in net.old) self.new) }
        ensures marks { KeepsMarks (net_in net.old) (operations_on net.old) self.old.closed.items self.new.closed.items (flags_of net.old) (flags_of net.new) }
        ensures steps { self.new.steps ≡ self.old.steps }
        ensures groups { self.new.groups ≡ self.old.groups }
    {
        let link = self.links[at];
        self.links[at].open = true;
        open_for(net, &self.steps, &mut self.closed, link.node);
        link.way
    }
}

// A group with one load more, from which the line goes this way, and the link of the load after that one, if there is one.
#[inline(always)]
fn gone_on(group: Group, way: Way) -> (Group, Option<usize>)
    requires left { group.left + 1 < 2 ^ 32 }
    requires passed { passed_after way group.passed < 2 ^ 32 }
    ensures next { result.1 ≡ link_after way }
    ensures left { result.0.left ≡ group.left + 1 }
    ensures edge { result.0.edge ≡ edge_after way group.edge }
    ensures passed { result.0.passed ≡ passed_after way group.passed }
    ensures from { result.0.from ≡ group.from }
    ensures to { result.0.to ≡ node_after way group.to }
{
    let mut more = group;
    more.left += 1;
    match way {
        Way::Here(next) => {
            more.passed += 1;
            (more, Some(next))
        }
        Way::Over(next, edge) => {
            more.edge = edge;
            more.passed = 0;
            (more, Some(next))
        }
        Way::Before(to) => {
            more.passed += 1;
            more.to = to;
            (more, None)
        }
        Way::Behind(edge, to) => {
            more.edge = edge;
            more.passed = 0;
            more.to = to;
            (more, None)
        }
        Way::Out => (more, None),
    }
}
