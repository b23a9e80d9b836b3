//! What a game needs that leads some nodes by itself: loads, and the lines of loads.

ghost use Rattle.std.specs.Prelude.{◌≡◌, ◌<◌, ◌&&◌, ◌==◌, ℕ, None, Some, is_some, length, map, not, set, slice_get, true};
ghost use Rattle.std.specs.List.{list_all};
ghost use Rattle.closed_walks.specs.Graph.{edge_count, to};
ghost use Rattle.cfg_build.specs.Passes.{out};
ghost use Rattle.dep_routing.specs.Routing.{next_at};
ghost use Rattle.firing.specs.Control.{due_at as due_in_course, steered as steered_in};
ghost use Rattle.firing.specs.declared.system.NodeName.TheVariants.{Op};
ghost use Rattle.net_board.specs.Nodes.{graph_in};
ghost use Rattle.net_board.specs.SoundNets.{HasSizesOf};
ghost use Rattle.net_board.specs.Tokens.{edge_of};
ghost use Rattle.op_board.specs.OperationCourse.{operation_course};
ghost use Rattle.op_board.specs.OperationNets.{needed, needing_before, operation_at, operation_count, operation_node};
ghost use Rattle.op_board.specs.OperationTokens.{OperationTokens, is_given, passed_by, value_at};
ghost use Rattle.op_board.specs.Operations.{gives_value};
ghost use Rattle.operation_lists.specs.Seen.{operand_seen};
ghost use Rattle.op_net.specs.ApartLoads.{IsCounting, IsUncounted, KeepsApart, MarksOthers, apart_of, flags_of, giver_of, is_apart, is_load_name, loaded_apart, needing};
ghost use Rattle.op_net.specs.NetView.{marking_of, net_of};
ghost use Rattle.operation_tables.specs.OperationRows.{NextIs};
ghost use Rattle.operation_places.specs.PlacesView.{line_put};
ghost use Rattle.operation_places.specs.Steering.{LeadsBy};
ghost use Rattle.operation_tables.specs.Telling.{operation_name};
ghost use Rattle.operation_tables.specs.Waits.{IsNodeBefore, node_total, one_if, takes_from};

use crate::OpNet;
use crate::net_firing::{count_ahead, work_with};
use firing::ReadySet;
use operation_effects::Did;
use operation_lists::Operand;
use operation_places::{
    due_at, head, is_needed, lead_of, node_before, steered, turn_of, waits_for_operands,
};
use operation_tables::{OpName, operand_at, work_name};

impl<const W: usize> OpNet<'_, W> {
    // ---- the nodes that another game leads

    /// From now on another game leads these nodes. They may be changed only while it isn't counted for how much nodes wait.
    pub fn lead_apart(&mut self, apart: Vec<bool>)
        requires uncounted { IsUncounted self.old }
        ensures net { net_of self.new ≡ net_of self.old }
        ensures marking { marking_of self.new ≡ marking_of self.old }
        ensures place { self.new.control ≡ self.old.control }
        ensures apart { apart_of self.new ≡ apart.items }
        ensures kept { IsUncounted self.new }
        ensures last { self.new.text.items ≡ self.old.text.items }
    {
        self.places.apart = apart;
    }

    /// From now on it is counted for how much each node waits, and of the nodes that no other game leads those are marked that are ready.
    pub fn count_apart(&mut self)
        ensures net { net_of self.new ≡ net_of self.old }
        ensures marking { marking_of self.new ≡ marking_of self.old }
        ensures place { self.new.control ≡ self.old.control }
        ensures apart { apart_of self.new ≡ apart_of self.old }
        ensures counted { IsCounting self.new }
        ensures others { MarksOthers self.new }
        ensures room { length (flags_of self.new) ≡ node_total (net_of self.new) }
        ensures last { self.new.text.items ≡ self.old.text.items }
    {
        self.places.keep_counts(&self.board);
    }

    /// While it is counted, of the nodes that no other game leads those are marked that are ready. It does nothing.
    pub fn others_are_marked(&self)
        requires { IsCounting self.now }
        ensures others { MarksOthers self.now }
        ensures room { length (flags_of self.now) ≡ node_total (net_of self.now) }
    {}

    /// Whether it is counted for how much nodes wait.
    pub fn is_counted(&self) -> bool
        ensures { result ≡ self.now.places.counted }
    {
        self.places.counted
    }

    /// The marks of nodes.
    pub fn marked(&self) -> &ReadySet
        ensures { result.now ≡ flags_of self.now }
    {
        &self.places.set
    }

    /// Marks a node that another game leads, or takes its mark away.
    pub fn mark_apart(&mut self, k: u32, ready: bool)
        requires node { k < node_total (net_of self.old) }
        requires apart { is_apart self.old k ≡ true }
        ensures net { net_of self.new ≡ net_of self.old }
        ensures marking { marking_of self.new ≡ marking_of self.old }
        ensures place { self.new.control ≡ self.old.control }
        ensures apart { apart_of self.new ≡ apart_of self.old }
        ensures counted { self.new.places.counted ≡ self.old.places.counted }
        ensures flags { flags_of self.new ≡ set (flags_of self.old) k ready }
        ensures last { self.new.text.items ≡ self.old.text.items }
    {
        self.places.set.put(k, ready);
    }

    /// Performs a load, but leaves the lines that it needs where they stand.
    pub fn load_apart(&mut self, k: u32, piece: u32, i: u32)
        requires node { k < node_total (net_of self.old) }
        requires name { operation_node (net_of self.old) k ≡ Op piece i }
        requires loads { operation_name (operation_at (net_of self.old) piece i).work ≡ OpName.Load }
        requires given { list_all (is_given (net_of self.old) (marking_of self.old) piece) (operation_at (net_of self.old) piece i).operands ≡ true }
        requires sizes { HasSizesOf (net_of self.old).net.program (marking_of self.old).tokens.memory }
        requires empty { value_at (marking_of self.old) k ≡ None }
        ensures net { net_of self.new ≡ net_of self.old }
        ensures marking { marking_of self.new ≡ loaded_apart (net_of self.old) (marking_of self.old) k piece i }
        ensures place { self.new.control ≡ self.old.control }
        ensures kept { KeepsApart self.old self.new }
        ensures last { self.new.text.items ≡ self.old.text.items }
    {
        let board = &self.board;
        let row = board.row(piece, i);
        let places = &mut self.places;
        // That game moves the lines that it needs.
        count_ahead(board, places, k, row.waits - row.hops.len() as u32);
        let did = work_with(
            board,
            places,
            piece,
            i,
            k - i,
            row,
            &board.plan.board.plan.input,
            &mut self.storage,
            &mut self.draft,
            &mut self.args,
        );
        if let Did::Gave(z) = did {
            places.give(board, k, z, k - i + row.taker);
        }
    }

    /// Whether an operation gives a value.
    pub fn gives(&self, piece: u32, i: u32) -> bool
        requires piece { piece < (graph_in (net_of self.now).net).nodes }
        requires operation { i < operation_count (net_of self.now) piece }
        ensures { result ≡ gives_value (operation_at (net_of self.now) piece i).work }
    {
        self.board.row(piece, i).gives
    }

    /// The node of an operation. Lines that it needs, and that have passed the operations of the piece before it that need them, stand
    /// before it.
    pub fn operation_node(&self, piece: u32, i: u32) -> u32
        requires piece { piece < (graph_in (net_of self.now).net).nodes }
        requires operation { i < operation_count (net_of self.now) piece }
        ensures name { operation_node (net_of self.now) result ≡ Op piece i }
        ensures exists { result < node_total (net_of self.now) }
        ensures before { (line edge : ℕ) → (net_of self.now).needs piece i line ≡ true → to (graph_in (net_of self.now).net) edge ≡ piece → IsNodeBefore (net_of self.now) line (Some edge) (needing_before (net_of self.now) piece i line) result }
    {
        self.board.first(piece) + i
    }

    /// The node that takes the value of an operation. No other node takes it.
    pub fn taker(&self, k: u32, piece: u32, i: u32) -> u32
        requires node { k < node_total (net_of self.now) }
        requires name { operation_node (net_of self.now) k ≡ Op piece i }
        requires gives { gives_value (operation_at (net_of self.now) piece i).work ≡ true }
        ensures takes { (j : ℕ) → j < node_total (net_of self.now) → takes_from (net_of self.now) (operation_node (net_of self.now) j) k ≡ one_if (j == result) }
        ensures within { result < node_total (net_of self.now) }
    {
        let row = self.board.row(piece, i);
        k - i + row.taker
    }

    /// Puts a line that stands before one node on an edge, where it has passed so many of the operations that need it, so that it stands
    /// before another node, or the same, or none.
    #[inline(always)]
    pub fn put_between(&mut self, line: u32, edge: u32, passed: u32, from: u32, to: u32)
        requires line { line < (net_of self.old).net.routing.lines }
        requires edge { edge < edge_count (graph_in (net_of self.old).net) }
        requires from { IsNodeBefore (net_of self.old) line (edge_of (marking_of self.old).tokens line) (passed_by (marking_of self.old) line) from }
        requires to { IsNodeBefore (net_of self.old) line (Some edge) passed to }
        ensures net { net_of self.new ≡ net_of self.old }
        ensures marking { marking_of self.new ≡ line_put (marking_of self.old) line (Some edge) passed }
        ensures place { self.new.control ≡ self.old.control }
        ensures kept { KeepsApart self.old self.new }
        ensures last { self.new.text.items ≡ self.old.text.items }
    {
        self.places
            .put_line(&self.board, line, Some(edge), passed, from, to);
    }

    /// Where a line comes to stand that is led along an edge: on which edge, and before which node, or the number of all nodes.
    #[inline(always)]
    pub fn led_to(&mut self, line: u32, edge: u32) -> (u32, u32)
        requires line { line < (net_of self.old).net.routing.lines }
        requires edge { edge < edge_count (graph_in (net_of self.old).net) }
        ensures wire { result.0 ≡ next_at (net_of self.old).net.routing line edge }
        ensures node { IsNodeBefore (net_of self.old) line (Some result.0) 0 result.1 }
        ensures net { net_of self.new ≡ net_of self.old }
        ensures marking { marking_of self.new ≡ marking_of self.old }
        ensures place { self.new.control ≡ self.old.control }
        ensures kept { KeepsApart self.old self.new }
        ensures last { self.new.text.items ≡ self.old.text.items }
    {
        let lead = lead_of(&self.board, true, &mut self.places.leads, line, edge);
        (lead.wire, lead.node)
    }

    /// The node before which a line stands on an edge, where it has passed so many of the operations that need it, or the number of all
    /// nodes.
    pub fn node_at(&self, line: u32, edge: u32, passed: u32) -> u32
        requires line { line < (net_of self.now).net.routing.lines }
        requires edge { edge < edge_count (graph_in (net_of self.now).net) }
        ensures { IsNodeBefore (net_of self.now) line (Some edge) passed result }
    {
        if passed == 0 {
            return node_before(&self.board, line, edge);
        }
        let piece = head(&self.board, edge);
        if is_needed(&self.board, piece, line) {
            self.node_numbered(piece, line, passed)
        } else {
            turn_of(&self.board, piece, line)
        }
    }

    // The operation of a piece before which a line stands that has passed so many of those that need it, or the number of all nodes.
    fn node_numbered(&self, piece: u32, line: u32, passed: u32) -> u32
        requires piece { piece < (graph_in (net_of self.now).net).nodes }
        requires some { 0 < operation_count (net_of self.now) piece }
        requires touched { (net_of self.now).net.touches piece line ≡ true }
        ensures { (edge : ℕ) → to (graph_in (net_of self.now).net) edge ≡ piece → IsNodeBefore (net_of self.now) line (Some edge) passed result }
    {
        match self.number_at(piece, line, passed) {
            Some(i) => self.board.first(piece) + i,
            None => self.board.nodes(),
        }
    }

    /// Moves control on where the node that is due fires, which takes this edge if it is the last operation of its piece, or the first
    /// node where the piece has none. Where another node fires control is lost.
    pub fn steer(&mut self, k: u32, edge: u32)
        requires { edge < edge_count (graph_in (net_of self.old).net) }
        ensures net { net_of self.new ≡ net_of self.old }
        ensures marking { marking_of self.new ≡ marking_of self.old }
        ensures place { (m : OperationTokens) → LeadsBy (net_of self.old) m k edge → self.new.control ≡ steered_in (operation_course (net_of self.old)) m self.old.control k }
        ensures kept { KeepsApart self.old self.new }
        ensures last { self.new.text.items ≡ self.old.text.items }
    {
        self.control = steered(&self.board, self.control, k, edge);
    }

    /// The node that is due at the place of control.
    pub fn due_node(&self) -> Option<u32>
        ensures { (m : OperationTokens) → result ≡ due_in_course (operation_course (net_of self.now)) m self.now.control }
    {
        match self.control {
            Some(c) => due_at(&self.board, c),
            None => None,
        }
    }

    // ---- lines

    /// The edge on which a line stands, if it hasn't vanished.
    pub fn edge_of(&self, line: u32) -> Option<u32>
        requires { line < (net_of self.now).net.routing.lines }
        ensures edge { result ≡ edge_of (marking_of self.now).tokens line }
        ensures exists { (edge : ℕ) → result ≡ Some edge → edge < edge_count (graph_in (net_of self.now).net) }
    {
        self.places.lines[line as usize]
    }

    /// How many of the operations that need it a line has passed at the piece to which its edge leads.
    pub fn passed(&self, line: u32) -> u32
        requires { line < (net_of self.now).net.routing.lines }
        ensures { result ≡ passed_by (marking_of self.now) line }
    {
        self.places.passed[line as usize]
    }

    /// The piece to which an edge leads.
    pub fn head(&self, edge: u32) -> u32
        requires { edge < edge_count (graph_in (net_of self.now).net) }
        ensures piece { result ≡ to (graph_in (net_of self.now).net) edge }
        ensures exists { result < (graph_in (net_of self.now).net).nodes }
    {
        head(&self.board, edge)
    }

    /// The edge to which a line is led from the first one that leaves a piece.
    pub fn led_out(&self, line: u32, piece: u32) -> u32
        requires line { line < (net_of self.now).net.routing.lines }
        requires piece { piece < (graph_in (net_of self.now).net).nodes }
        ensures edge { result ≡ next_at (net_of self.now).net.routing line (out (graph_in (net_of self.now).net) piece 0) }
        ensures exists { result < edge_count (graph_in (net_of self.now).net) }
    {
        let edge = self.board.out_edge(piece, 0);
        self.board.plan.board.plan.routes.next_wire(line, edge)
    }

    /// The edge by which control leaves the piece of a load, if no operation of the piece comes after it.
    pub fn edge_after(&self, k: u32, piece: u32, i: u32) -> u32
        requires node { k < node_total (net_of self.now) }
        requires name { operation_node (net_of self.now) k ≡ Op piece i }
        requires loads { operation_name (operation_at (net_of self.now) piece i).work ≡ OpName.Load }
        ensures leads { (m : OperationTokens) → LeadsBy (net_of self.now) m k result }
        ensures exists { result < edge_count (graph_in (net_of self.now).net) }
    {
        self.board.out_edge(piece, 0)
    }

    /// How many lines there are.
    pub fn lines(&self) -> u32
        ensures { result ≡ (net_of self.now).net.routing.lines }
    {
        self.board.plan.board.plan.routes.lines()
    }

    // ---- operations

    /// Whether an operation is a load.
    pub fn loads(&self, piece: u32, i: u32) -> bool
        requires piece { piece < (graph_in (net_of self.now).net).nodes }
        requires operation { i < operation_count (net_of self.now) piece }
        ensures { result ≡ is_load_name (operation_name (operation_at (net_of self.now) piece i).work) }
    {
        let operations = &self.board.plan.pieces[piece as usize].operations;
        match work_name(&operations[i as usize].work) {
            OpName::Load => true,
            _ => false,
        }
    }

    /// Whether an operation needs a line.
    pub fn needs_line(&self, piece: u32, i: u32, line: u32) -> bool
        requires piece { piece < (graph_in (net_of self.now).net).nodes }
        requires operation { i < operation_count (net_of self.now) piece }
        ensures { result ≡ (net_of self.now).needs piece i line }
    {
        self.board.plan.pieces[piece as usize]
            .needs
            .at(i as usize)
            .holds(line)
    }

    /// The operation of a piece before which a line stands that has passed so many of those that need it.
    pub fn number_at(&self, piece: u32, line: u32, passed: u32) -> Option<u32>
        requires { piece < (graph_in (net_of self.now).net).nodes }
        ensures { result ≡ slice_get (needing (net_of self.now) piece line) passed }
    {
        let count = self.board.operations(piece);
        let mut left = passed;
        for i in 0..count {
            if !self.needs_line(piece, i, line) {
                continue;
            }
            if left == 0 {
                return Some(i);
            }
            left -= 1;
        }
        None
    }

    /// How many lines an operation needs.
    pub fn needed_count(&self, piece: u32, i: u32) -> u32
        requires piece { piece < (graph_in (net_of self.now).net).nodes }
        requires operation { i < operation_count (net_of self.now) piece }
        ensures { result ≡ length (needed (net_of self.now) piece i) }
    {
        // There are no more than all lines.
        let _lines = self.lines();
        self.board.row(piece, i).hops.len() as u32
    }

    /// One of the lines that an operation needs, counted from 0.
    pub fn needed_line(&self, piece: u32, i: u32, nth: u32) -> u32
        requires piece { piece < (graph_in (net_of self.now).net).nodes }
        requires operation { i < operation_count (net_of self.now) piece }
        requires inside { nth < length (needed (net_of self.now) piece i) }
        ensures { slice_get (needed (net_of self.now) piece i) nth ≡ Some result }
    {
        self.board.row(piece, i).hops[nth as usize].line as u32
    }

    /// The next operation of the piece that needs one of the lines that an operation needs, counted from 0.
    pub fn needed_next(&self, piece: u32, i: u32, nth: u32) -> Option<u32>
        requires piece { piece < (graph_in (net_of self.now).net).nodes }
        requires operation { i < operation_count (net_of self.now) piece }
        requires inside { nth < length (needed (net_of self.now) piece i) }
        ensures { (line : ℕ) → slice_get (needed (net_of self.now) piece i) nth ≡ Some line → NextIs (net_of self.now) piece i line result }
    {
        let hop = self.board.row(piece, i).hops[nth as usize];
        match hop.next {
            Some(n) => Some(u32::from(n)),
            None => None,
        }
    }

    // ---- operands

    /// How many operands an operation has.
    pub fn operand_count(&self, piece: u32, i: u32) -> u32
        requires piece { piece < (graph_in (net_of self.now).net).nodes }
        requires operation { i < operation_count (net_of self.now) piece }
        ensures { result ≡ length (operation_at (net_of self.now) piece i).operands }
    {
        self.board.row(piece, i).operands.len() as u32
    }

    /// The operation of the piece that gives an operand, counted from 0, unless that is known.
    pub fn operand_giver(&self, piece: u32, i: u32, nth: u32) -> Option<u32>
        requires piece { piece < (graph_in (net_of self.now).net).nodes }
        requires operation { i < operation_count (net_of self.now) piece }
        requires inside { nth < length (operation_at (net_of self.now) piece i).operands }
        ensures { slice_get (map giver_of (operation_at (net_of self.now) piece i).operands) nth ≡ Some result }
    {
        giver(operand_at(&self.board.row(piece, i).operands, nth as usize))
    }

    /// Whether the operands of an operation are there, and its own value was taken.
    pub fn has_values(&self, k: u32, piece: u32, i: u32) -> bool
        requires node { k < node_total (net_of self.now) }
        requires name { operation_node (net_of self.now) k ≡ Op piece i }
        ensures { result ≡ (list_all (is_given (net_of self.now) (marking_of self.now) piece) (operation_at (net_of self.now) piece i).operands && not (is_some (value_at (marking_of self.now) k))) }
    {
        let row = self.board.row(piece, i);
        let lacking = waits_for_operands(&self.places, row.operands.as_slice(), k - i);
        lacking == 0 && self.places.values[k as usize].is_none()
    }
}

// The operation that gives an operand, unless that is known.
fn giver(operand: Operand) -> Option<u32>
    ensures { result ≡ giver_of (operand_seen operand) }
{
    match operand {
        Operand::Known(_) => None,
        Operand::Node(number) => Some(number),
    }
}
