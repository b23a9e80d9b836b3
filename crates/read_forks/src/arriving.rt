//! Lines that nodes have led on are opened for the loads before which they come to stand.

ghost use Rattle.std.specs.Prelude.{◌≡◌, ◌<◌, ◌==◌, ◌∷◌, ℕ, Some, [], false, length, slice_get, true};
ghost use Rattle.std.specs.List.{list_any};
ghost use Rattle.closed_walks.specs.Graph.{edge_count};
ghost use Rattle.net_board.specs.Nodes.{graph_in};
ghost use Rattle.net_board.specs.Tokens.{edge_of};
ghost use Rattle.op_board.specs.OperationNets.{operation_node};
ghost use Rattle.op_board.specs.OperationTokens.{passed_by};
ghost use Rattle.op_board.specs.SoundOperationNets.{IsOperationNet};
ghost use Rattle.op_net.specs.ApartLoads.{KeepsApart, flags_of};
ghost use Rattle.op_net.specs.NetView.{marking_of as operations_on, net_of as net_in};
ghost use Rattle.operation_tables.specs.Waits.{IsNodeBefore, node_total};
ghost use Rattle.fork_board.specs.ForkTokens.{is_load_node};
ghost use Rattle.read_forks.specs.KeptLoads.{AreKept, AreOpened, IsOpenForNone, opened_of};
ghost use Rattle.read_forks.specs.LedLines.{IsLedOn};
ghost use Rattle.read_forks.specs.MarkedNets.{AreLoadsApart};
ghost use Rattle.read_forks.specs.NodeLinks.{is_turn, moved_lines};
ghost use Rattle.read_forks.specs.OpenGroups.{is_near_in};
ghost use Rattle.read_forks.specs.WaitingLoads.{IsRemarked, KeepsMarks};
ghost use Rattle.read_forks.specs.declared.steps.Link.{Link as Linked};

use crate::steps::Step;
use crate::waiting::Waiting;
use crate::ways::Way;
use firing::{NodeName, StepSystem};
use op_net::OpNet;

impl Waiting {
    /// Opens all lines for the loads of the groups before which they stand.
    pub(crate) fn arrive_all<const W: usize>(&mut self, net: &mut OpNet<W>)
        requires is_net { IsOperationNet (net_in net.old) }
        requires apart { AreLoadsApart net.old }
        requires kept { AreKept (net_in net.old) (operations_on net.old) self.old }
        requires none { (line : ℕ) → IsOpenForNone (opened_of (net_in net.old) self.old) line }
        ensures rest { IsRemarked net.old net.new }
        ensures kept { AreKept (net_in net.old) (operations_on net.old) self.new }
        ensures opened { (line : ℕ) → line < (net_in net.old).net.routing.lines → (piece number : ℕ) → opened_of (net_in net.old) self.new line piece number ≡ is_near_in (net_in net.old) (operations_on net.old) line piece number }
    {
        for line in 0..net.lines() {
            self.arrive_first(net, line);
        }
    }

    // Opens a line for the loads of the group before which it stands.
    fn arrive_first<const W: usize>(&mut self, net: &mut OpNet<W>, line: u32)
        requires is_net { IsOperationNet (net_in net.old) }
        requires line { line < (net_in net.old).net.routing.lines }
        requires apart { AreLoadsApart net.old }
        requires kept { AreKept (net_in net.old) (operations_on net.old) self.old }
        requires none { IsOpenForNone (opened_of (net_in net.old) self.old) line }
        ensures rest { IsRemarked net.old net.new }
        ensures kept { AreKept (net_in net.old) (operations_on net.old) self.new }
        ensures opened { AreOpened (net_in net.old) (operations_on net.old) (line ∷ []) (opened_of (net_in net.old) self.old) (opened_of (net_in net.old) self.new) }
    {
        let Some(edge) = net.edge_of(line) else {
            return;
        };
        let to = net.node_at(line, edge, net.passed(line));
        self.arrive(net, line, edge, to, 0);
    }

    /// Opens the lines that the firing of a node which is no load has led on.
    #[inline(always)]
    pub(crate) fn arrive_after<const W: usize>(
        &mut self,
        net: &mut OpNet<W>,
        k: u32,
        step: Step,
        edge: u32,
    )
        requires is_net { IsOperationNet (net_in net.old) }
        requires apart { AreLoadsApart net.old }
        requires kept { AreKept (net_in net.old) (operations_on net.old) self.old }
        requires node { k < node_total (net_in net.old) }
        requires step { slice_get self.old.steps k ≡ Some step }
        requires other { is_load_node (net_in net.old) (operation_node (net_in net.old) k) ≡ false }
        requires edge { edge < edge_count (graph_in (net_in net.old).net) }
        requires led { (line : ℕ) → list_any (λ l. l == line) (moved_lines (net_in net.old) (operation_node (net_in net.old) k)) ≡ true → IsLedOn (net_in net.old) (operations_on net.old) (opened_of (net_in net.old) self.old) (operation_node (net_in net.old) k) line }
        ensures rest { IsRemarked net.old net.new }
        ensures kept { AreKept (net_in net.old) (operations_on net.old) self.new }
        ensures opened { AreOpened (net_in net.old) (operations_on net.old) (moved_lines (net_in net.old) (operation_node (net_in net.old) k)) (opened_of (net_in net.old) self.old) (opened_of (net_in net.old) self.new) }
        ensures marks { KeepsMarks (net_in net.old) (operations_on net.old) self.old.closed.items self.new.closed.items (flags_of net.old) (flags_of net.new) }
        ensures steps { self.new.steps ≡ self.old.steps }
    {
        if step.turns {
            self.follow_turn(net, k, edge);
        } else {
            self.follow_links(net, k, step, edge);
        }
    }

    // Opens the lines that the firing of an operation which is no load has led on.
    #[inline(always)]
    fn follow_links<const W: usize>(&mut self, net: &mut OpNet<W>, k: u32, step: Step, edge: u32)
        requires is_net { IsOperationNet (net_in net.old) }
        requires apart { AreLoadsApart net.old }
        requires kept { AreKept (net_in net.old) (operations_on net.old) self.old }
        requires node { k < node_total (net_in net.old) }
        requires step { slice_get self.old.steps k ≡ Some step }
        requires other { is_load_node (net_in net.old) (operation_node (net_in net.old) k) ≡ false }
        requires operates { is_turn (operation_node (net_in net.old) k) ≡ false }
        requires edge { edge < edge_count (graph_in (net_in net.old).net) }
        requires led { (line : ℕ) → list_any (λ l. l == line) (moved_lines (net_in net.old) (operation_node (net_in net.old) k)) ≡ true → IsLedOn (net_in net.old) (operations_on net.old) (opened_of (net_in net.old) self.old) (operation_node (net_in net.old) k) line }
        ensures rest { IsRemarked net.old net.new }
        ensures kept { AreKept (net_in net.old) (operations_on net.old) self.new }
        ensures opened { AreOpened (net_in net.old) (operations_on net.old) (moved_lines (net_in net.old) (operation_node (net_in net.old) k)) (opened_of (net_in net.old) self.old) (opened_of (net_in net.old) self.new) }
        ensures marks { KeepsMarks (net_in net.old) (operations_on net.old) self.old.closed.items self.new.closed.items (flags_of net.old) (flags_of net.new) }
        ensures steps { self.new.steps ≡ self.old.steps }
    {
        for j in 0..step.count {
            self.follow(net, step.first + j as usize, edge, j);
        }
    }

    // Opens the line that the firing of a node which is no operation has led on.
    #[inline(always)]
    fn follow_turn<const W: usize>(&mut self, net: &mut OpNet<W>, k: u32, edge: u32)
        requires is_net { IsOperationNet (net_in net.old) }
        requires apart { AreLoadsApart net.old }
        requires kept { AreKept (net_in net.old) (operations_on net.old) self.old }
        requires node { k < node_total (net_in net.old) }
        requires turns { is_turn (operation_node (net_in net.old) k) ≡ true }
        requires edge { edge < edge_count (graph_in (net_in net.old).net) }
        requires led { (line : ℕ) → list_any (λ l. l == line) (moved_lines (net_in net.old) (operation_node (net_in net.old) k)) ≡ true → IsLedOn (net_in net.old) (operations_on net.old) (opened_of (net_in net.old) self.old) (operation_node (net_in net.old) k) line }
        ensures rest { IsRemarked net.old net.new }
        ensures kept { AreKept (net_in net.old) (operations_on net.old) self.new }
        ensures opened { AreOpened (net_in net.old) (operations_on net.old) (moved_lines (net_in net.old) (operation_node (net_in net.old) k)) (opened_of (net_in net.old) self.old) (opened_of (net_in net.old) self.new) }
        ensures marks { KeepsMarks (net_in net.old) (operations_on net.old) self.old.closed.items self.new.closed.items (flags_of net.old) (flags_of net.new) }
        ensures steps { self.new.steps ≡ self.old.steps }
    {
        let line = turned_line(net, k);
        self.follow_line(net, line, edge);
    }

    // Opens a line that a node which is no operation has led on.
    #[inline(always)]
    fn follow_line<const W: usize>(&mut self, net: &mut OpNet<W>, line: u32, edge: u32)
        requires is_net { IsOperationNet (net_in net.old) }
        requires line { line < (net_in net.old).net.routing.lines }
        requires apart { AreLoadsApart net.old }
        requires kept { AreKept (net_in net.old) (operations_on net.old) self.old }
        requires none { IsOpenForNone (opened_of (net_in net.old) self.old) line }
        requires passed { passed_by (operations_on net.old) line ≡ 0 }
        requires edge { edge < edge_count (graph_in (net_in net.old).net) }
        ensures rest { IsRemarked net.old net.new }
        ensures kept { AreKept (net_in net.old) (operations_on net.old) self.new }
        ensures opened { AreOpened (net_in net.old) (operations_on net.old) (line ∷ []) (opened_of (net_in net.old) self.old) (opened_of (net_in net.old) self.new) }
        ensures marks { KeepsMarks (net_in net.old) (operations_on net.old) self.old.closed.items self.new.closed.items (flags_of net.old) (flags_of net.new) }
        ensures steps { self.new.steps ≡ self.old.steps }
    {
        let Some(wire) = net.edge_of(line) else {
            return;
        };
        self.arrive_led(net, line, wire, edge, 0);
    }

    // Opens a line that has left a piece, and was led to an edge, most likely along the other one.
    #[inline(always)]
    fn arrive_led<const W: usize>(
        &mut self,
        net: &mut OpNet<W>,
        line: u32,
        wire: u32,
        edge: u32,
        guess: u32,
    )
        requires is_net { IsOperationNet (net_in net.old) }
        requires line { line < (net_in net.old).net.routing.lines }
        requires apart { AreLoadsApart net.old }
        requires kept { AreKept (net_in net.old) (operations_on net.old) self.old }
        requires none { IsOpenForNone (opened_of (net_in net.old) self.old) line }
        requires wire { wire < edge_count (graph_in (net_in net.old).net) }
        requires stands { edge_of (operations_on net.old).tokens line ≡ Some wire }
        requires passed { passed_by (operations_on net.old) line ≡ 0 }
        requires edge { edge < edge_count (graph_in (net_in net.old).net) }
        ensures rest { IsRemarked net.old net.new }
        ensures kept { AreKept (net_in net.old) (operations_on net.old) self.new }
        ensures opened { AreOpened (net_in net.old) (operations_on net.old) (line ∷ []) (opened_of (net_in net.old) self.old) (opened_of (net_in net.old) self.new) }
        ensures marks { KeepsMarks (net_in net.old) (operations_on net.old) self.old.closed.items self.new.closed.items (flags_of net.old) (flags_of net.new) }
        ensures steps { self.new.steps ≡ self.old.steps }
    {
        let to = node_led_to(net, line, wire, edge);
        self.arrive(net, line, wire, to, guess);
    }

    // Opens a line that an operation which is no load has led on, by their link.
    #[inline(always)]
    fn follow<const W: usize>(&mut self, net: &mut OpNet<W>, at: usize, edge: u32, guess: u32)
        requires is_net { IsOperationNet (net_in net.old) }
        requires apart { AreLoadsApart net.old }
        requires kept { AreKept (net_in net.old) (operations_on net.old) self.old }
        requires inside { at < length self.old.links.items }
        requires edge { edge < edge_count (graph_in (net_in net.old).net) }
        requires other { (link : Linked) → slice_get self.old.links.items at ≡ Some link → is_load_node (net_in net.old) (operation_node (net_in net.old) link.node) ≡ false }
        requires led { (link : Linked) → slice_get self.old.links.items at ≡ Some link → IsLedOn (net_in net.old) (operations_on net.old) (opened_of (net_in net.old) self.old) (operation_node (net_in net.old) link.node) link.line }
        ensures rest { IsRemarked net.old net.new }
        ensures kept { AreKept (net_in net.old) (operations_on net.old) self.new }
        ensures opened { (link : Linked) → slice_get self.old.links.items at ≡ Some link → AreOpened (net_in net.old) (operations_on net.old) (link.line ∷ []) (opened_of (net_in net.old) self.old) (opened_of (net_in net.old) self.new) }
        ensures marks { KeepsMarks (net_in net.old) (operations_on net.old) self.old.closed.items self.new.closed.items (flags_of net.old) (flags_of net.new) }
        ensures steps { self.new.steps ≡ self.old.steps }
    {
        let link = self.links[at];
        let Some(wire) = net.edge_of(link.line) else {
            return;
        };
        match link.way {
            Way::Here(next) => self.open_group(net, link.line, wire, next),
            Way::Before(_) => {}
            _ => self.arrive_led(net, link.line, wire, edge, guess),
        }
    }
}

// The line that a node moves which is no operation.
#[inline(always)]
fn turned_line<const W: usize>(net: &OpNet<W>, k: u32) -> u32
    requires node { k < node_total (net_in net.now) }
    requires turns { is_turn (operation_node (net_in net.now) k) ≡ true }
    ensures { moved_lines (net_in net.now) (operation_node (net_in net.now) k) ≡ result ∷ [] }
{
    match net.name(k) {
        NodeName::Op(_, _) => 0,
        NodeName::Switch(_, line) => line,
        NodeName::Merge(_, line) => line,
        NodeName::Act(_) => 0,
    }
}

// The node before which a line stands that was led to an edge, most likely along the other one.
#[inline(always)]
fn node_led_to<const W: usize>(net: &mut OpNet<W>, line: u32, wire: u32, edge: u32) -> u32
    requires line { line < (net_in net.old).net.routing.lines }
    requires wire { wire < edge_count (graph_in (net_in net.old).net) }
    requires edge { edge < edge_count (graph_in (net_in net.old).net) }
    ensures before { IsNodeBefore (net_in net.old) line (Some wire) 0 result }
    ensures rest { IsRemarked net.old net.new }
    ensures kept { KeepsApart net.old net.new }
{
    let (led, to) = net.led_to(line, edge);
    if led == wire {
        to
    } else {
        net.node_at(line, wire, 0)
    }
}
