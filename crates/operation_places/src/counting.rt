//! Changes of the places of lines, decisions and values, one at a time, with what nodes wait for.

ghost use Rattle.std.specs.Prelude.{◌≡◌, ◌<◌, ◌≤◌, ◌+◌, ◌-◌, ◌^◌, ℕ, Bool, [], None, Some, false, is_some, length, set, slice_index, true};
ghost use Rattle.firing.specs.ReadySet.{has};
ghost use Rattle.net_board.specs.Tokens.{edge_of, left_for};
ghost use Rattle.op_board.specs.OperationTokens.{passed_by, value_at};
ghost use Rattle.operation_tables.specs.BoardView.{operation_net_on};
ghost use Rattle.operation_places.specs.Counts.{AreCounts, more_of, one_more};
ghost use Rattle.operation_places.specs.PlacesView.{IsAheadBy, IsCounted, KeepsCounts, MakesUp, edge_put, line_put, standing, value_put};
ghost use Rattle.operation_tables.specs.Waits.{AreSwitchNodes, IsNodeAfter, IsNodeBefore, node_total, one_if};

use crate::places::Places;
use crate::waiting::waits_are_few;
use firing::ReadySet;
use operation_tables::OperationBoard;

impl Places {
    /// Puts a line that stands before one node on an edge, or nowhere, so that it stands before another node, or the same, or none.
    #[inline(always)]
    pub fn put_line<const W: usize>(
        &mut self,
        board: &OperationBoard<W>,
        line: u32,
        edge: Option<u32>,
        passed: u32,
        from: u32,
        to: u32,
    )
        requires exists { line < (operation_net_on board.now).net.routing.lines }
        requires line { line < length self.old.lines.items }
        requires passed { line < length self.old.passed.items }
        requires marks { length self.old.set ≡ node_total (operation_net_on board.now) }
        requires counted { IsCounted (operation_net_on board.now) self.old }
        requires from { self.old.counted ≡ true → IsNodeBefore (operation_net_on board.now) line (edge_of (standing self.old).tokens line) (passed_by (standing self.old) line) from }
        requires to { self.old.counted ≡ true → IsNodeBefore (operation_net_on board.now) line edge passed to }
        ensures standing { standing self.new ≡ line_put (standing self.old) line edge passed }
        ensures counted { IsCounted (operation_net_on board.now) self.new }
        ensures kept { KeepsCounts self.old self.new }
    {
        waits_are_few(board);
        self.lines[line as usize] = edge;
        self.passed[line as usize] = passed;
        self.wait_more(from);
        self.wait_less(to);
    }

    /// Gives the value of a node, which another node takes.
    #[inline(always)]
    pub fn give<const W: usize>(&mut self, board: &OperationBoard<W>, k: u32, z: i32, taker: u32)
        requires value { k < length self.old.values.items }
        requires node { k < node_total (operation_net_on board.now) }
        requires marks { length self.old.set ≡ node_total (operation_net_on board.now) }
        requires ahead { ∥ IsAheadBy (operation_net_on board.now) self.old k 1 ∥₁ }
        requires empty { value_at (standing self.old) k ≡ None }
        requires after { taker < node_total (operation_net_on board.now) }
        requires taker { self.old.counted ≡ true → IsNodeAfter (operation_net_on board.now) k taker }
        ensures standing { standing self.new ≡ value_put (standing self.old) k (Some z) }
        ensures counted { MakesUp (operation_net_on board.now) self.old self.new k 1 }
        ensures kept { KeepsCounts self.old self.new }
    {
        waits_are_few(board);
        self.values[k as usize] = Some(z);
        self.wait_less(taker);
    }

    /// Takes the value of a node for another one.
    #[inline(always)]
    pub fn take<const W: usize>(&mut self, board: &OperationBoard<W>, k: u32, taker: u32)
        requires value { k < length self.old.values.items }
        requires node { taker < node_total (operation_net_on board.now) }
        requires marks { length self.old.set ≡ node_total (operation_net_on board.now) }
        requires ahead { ∥ IsAheadBy (operation_net_on board.now) self.old taker 1 ∥₁ }
        requires full { is_some (value_at (standing self.old) k) ≡ true }
        requires taker { self.old.counted ≡ true → IsNodeAfter (operation_net_on board.now) k taker }
        ensures standing { standing self.new ≡ value_put (standing self.old) k None }
        ensures counted { MakesUp (operation_net_on board.now) self.old self.new taker 1 }
        ensures kept { KeepsCounts self.old self.new }
    {
        waits_are_few(board);
        self.values[k as usize] = None;
        self.wait_less(k);
    }

    /// Leaves an edge for a switch, of which this is the node and this its decision.
    #[inline(always)]
    pub fn leave<const W: usize>(
        &mut self,
        board: &OperationBoard<W>,
        switch: u32,
        edge: u32,
        node: u32,
        decision: u32,
    )
        requires switch { switch < length self.old.edges.items }
        requires decision { decision < node_total (operation_net_on board.now) }
        requires marks { length self.old.set ≡ node_total (operation_net_on board.now) }
        requires ahead { ∥ IsAheadBy (operation_net_on board.now) self.old decision 1 ∥₁ }
        requires empty { left_for (standing self.old).tokens switch ≡ None }
        requires nodes { self.old.counted ≡ true → AreSwitchNodes (operation_net_on board.now) switch node decision }
        ensures standing { standing self.new ≡ edge_put (standing self.old) switch (Some edge) }
        ensures counted { MakesUp (operation_net_on board.now) self.old self.new decision 1 }
        ensures kept { KeepsCounts self.old self.new }
    {
        waits_are_few(board);
        self.edges[switch as usize] = Some(edge);
        self.wait_less(node);
    }

    /// Takes the edge that is left for a switch.
    #[inline(always)]
    pub fn clear<const W: usize>(
        &mut self,
        board: &OperationBoard<W>,
        switch: u32,
        node: u32,
        decision: u32,
    )
        requires switch { switch < length self.old.edges.items }
        requires node { node < node_total (operation_net_on board.now) }
        requires marks { length self.old.set ≡ node_total (operation_net_on board.now) }
        requires ahead { ∥ IsAheadBy (operation_net_on board.now) self.old node 1 ∥₁ }
        requires full { is_some (left_for (standing self.old).tokens switch) ≡ true }
        requires nodes { self.old.counted ≡ true → AreSwitchNodes (operation_net_on board.now) switch node decision }
        ensures standing { standing self.new ≡ edge_put (standing self.old) switch None }
        ensures counted { MakesUp (operation_net_on board.now) self.old self.new node 1 }
        ensures kept { KeepsCounts self.old self.new }
    {
        waits_are_few(board);
        self.edges[switch as usize] = None;
        self.wait_less(decision);
    }

    /// Puts a line that stands before the node that fires on an edge, so that it stands before another node, or the same, or none.
    #[inline(always)]
    pub fn lead_on<const W: usize>(
        &mut self,
        board: &OperationBoard<W>,
        line: u32,
        edge: u32,
        from: u32,
        to: u32,
    )
        requires exists { line < (operation_net_on board.now).net.routing.lines }
        requires line { line < length self.old.lines.items }
        requires passed { line < length self.old.passed.items }
        requires marks { length self.old.set ≡ node_total (operation_net_on board.now) }
        requires ahead { ∥ IsAheadBy (operation_net_on board.now) self.old from 1 ∥₁ }
        requires from { self.old.counted ≡ true → IsNodeBefore (operation_net_on board.now) line (edge_of (standing self.old).tokens line) (passed_by (standing self.old) line) from }
        requires to { self.old.counted ≡ true → IsNodeBefore (operation_net_on board.now) line (Some edge) 0 to }
        ensures standing { standing self.new ≡ line_put (standing self.old) line (Some edge) 0 }
        ensures counted { MakesUp (operation_net_on board.now) self.old self.new from 1 }
        ensures kept { KeepsCounts self.old self.new }
    {
        waits_are_few(board);
        self.lines[line as usize] = Some(edge);
        self.passed[line as usize] = 0;
        self.wait_less(to);
    }

    /// A line that stands before the operation that fires has passed so many operations of its piece, and stands before another one.
    #[inline(always)]
    pub fn pass_on<const W: usize>(
        &mut self,
        board: &OperationBoard<W>,
        line: u32,
        passed: u32,
        from: u32,
        to: u32,
    )
        requires exists { line < (operation_net_on board.now).net.routing.lines }
        requires line { line < length self.old.lines.items }
        requires passed { line < length self.old.passed.items }
        requires marks { length self.old.set ≡ node_total (operation_net_on board.now) }
        requires ahead { ∥ IsAheadBy (operation_net_on board.now) self.old from 1 ∥₁ }
        requires from { self.old.counted ≡ true → IsNodeBefore (operation_net_on board.now) line (edge_of (standing self.old).tokens line) (passed_by (standing self.old) line) from }
        requires to { self.old.counted ≡ true → IsNodeBefore (operation_net_on board.now) line (edge_of (standing self.old).tokens line) passed to }
        ensures standing { standing self.new ≡ line_put (standing self.old) line (edge_of (standing self.old).tokens line) passed }
        ensures counted { MakesUp (operation_net_on board.now) self.old self.new from 1 }
        ensures kept { KeepsCounts self.old self.new }
    {
        waits_are_few(board);
        self.passed[line as usize] = passed;
        self.wait_less(to);
    }

    /// A line that stands before the operation that fires vanishes.
    pub fn take_off<const W: usize>(&mut self, board: &OperationBoard<W>, line: u32, from: u32)
        requires exists { line < (operation_net_on board.now).net.routing.lines }
        requires line { line < length self.old.lines.items }
        requires passed { line < length self.old.passed.items }
        requires marks { length self.old.set ≡ node_total (operation_net_on board.now) }
        requires ahead { ∥ IsAheadBy (operation_net_on board.now) self.old from 1 ∥₁ }
        requires from { self.old.counted ≡ true → IsNodeBefore (operation_net_on board.now) line (edge_of (standing self.old).tokens line) (passed_by (standing self.old) line) from }
        ensures standing { standing self.new ≡ line_put (standing self.old) line None 0 }
        ensures counted { MakesUp (operation_net_on board.now) self.old self.new from 1 }
        ensures kept { KeepsCounts self.old self.new }
    {
        waits_are_few(board);
        self.lines[line as usize] = None;
        self.passed[line as usize] = 0;
    }

    /// A node that fires waits anew for so much, if there is a count of it.
    #[inline(always)]
    pub fn wait_anew(&mut self, k: u32, more: u32)
        requires few { k < length self.old.counts.items → slice_index self.old.counts.items k + more < 2 ^ 64 }
        requires apart { k < length self.old.counts.items → one_if (has self.old.apart.items k) ≤ slice_index self.old.counts.items k }
        requires right { k < length self.old.counts.items → slice_index self.old.counts.items k ≡ 0 → has self.old.set k ≡ true }
        requires marks { length self.old.counts.items ≤ length self.old.set }
        ensures standing { standing self.new ≡ standing self.old }
        ensures kept { KeepsCounts self.old self.new }
        ensures leads { self.new.leads.items ≡ self.old.leads.items }
        ensures none { self.old.counts.items ≡ [] → self.new.counts.items ≡ [] }
        ensures counts { (count : ℕ → ℕ) (but : ℕ → Bool) → AreCounts (length self.old.counts.items) count but self.old.counts.items self.old.set → AreCounts (length self.old.counts.items) (more_of count k more) but self.new.counts.items self.new.set }
    {
        if (k as usize) < self.counts.len() {
            let count = self.counts[k as usize];
            self.counts[k as usize] = count + u64::from(more);
            if count == 0 && more > 0 {
                self.set.take_out(k);
            }
        }
    }

    // A node waits for one thing more, if there is a count of it.
    fn wait_more(&mut self, k: u32)
        requires few { k < length self.old.counts.items → slice_index self.old.counts.items k < 2 ^ 64 - 1 }
        requires apart { k < length self.old.counts.items → one_if (has self.old.apart.items k) ≤ slice_index self.old.counts.items k }
        requires marks { length self.old.counts.items ≤ length self.old.set }
        ensures standing { standing self.new ≡ standing self.old }
        ensures kept { KeepsCounts self.old self.new }
        ensures leads { self.new.leads.items ≡ self.old.leads.items }
        ensures none { self.old.counts.items ≡ [] → self.new.counts.items ≡ [] }
        ensures counts { (count : ℕ → ℕ) (but : ℕ → Bool) → AreCounts (length self.old.counts.items) count but self.old.counts.items self.old.set → AreCounts (length self.old.counts.items) (one_more count k) but self.new.counts.items self.new.set }
    {
        if (k as usize) < self.counts.len() {
            let count = self.counts[k as usize];
            self.counts[k as usize] = count + 1;
            if count == 0 {
                leave_out(&mut self.set, k);
            }
        }
    }

    /// A node waits for one thing less, if there is a count of it. No node has the number of all nodes.
    #[inline(always)]
    pub fn wait_less(&mut self, k: u32)
        requires some { k < length self.old.counts.items → one_if (has self.old.apart.items k) < slice_index self.old.counts.items k }
        requires right { k < length self.old.counts.items → 0 < slice_index self.old.counts.items k → has self.old.apart.items k ≡ false → has self.old.set k ≡ false }
        requires marks { length self.old.counts.items ≤ length self.old.set }
        ensures standing { standing self.new ≡ standing self.old }
        ensures kept { KeepsCounts self.old self.new }
        ensures leads { self.new.leads.items ≡ self.old.leads.items }
        ensures none { self.old.counts.items ≡ [] → self.new.counts.items ≡ [] }
        ensures counts { (count : ℕ → ℕ) (but : ℕ → Bool) → AreCounts (length self.old.counts.items) (one_more count k) but self.old.counts.items self.old.set → AreCounts (length self.old.counts.items) count but self.new.counts.items self.new.set }
    {
        if (k as usize) < self.counts.len() {
            let count = self.counts[k as usize] - 1;
            self.counts[k as usize] = count;
            if count == 0 {
                take_in(&mut self.set, k);
            }
        }
    }
}

// Takes a node out of a set. This and the next one are called about once a firing. Inlined at each count they would be in its way.
#[inline(never)]
fn leave_out(nodes: &mut ReadySet, k: u32)
    requires { k < length nodes.old }
    ensures { nodes.new ≡ set nodes.old k false }
{
    nodes.put(k, false);
}

// Puts a node into a set that has it not.
#[inline(always)]
fn take_in(nodes: &mut ReadySet, k: u32)
    requires inside { k < length nodes.old }
    requires out { has nodes.old k ≡ false }
    ensures { nodes.new ≡ set nodes.old k true }
{
    nodes.put_in(k);
}
