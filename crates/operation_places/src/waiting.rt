//! For how much a node waits.

ghost use Rattle.std.specs.Prelude.{◌≡◌, ◌<◌, ◌≤◌, ◌+◌, ◌-◌, ◌^◌, ◌==◌, ◌++◌, ◌∷◌, ℕ, suc, [], All, if◌then◌else◌, is_some, length, not, set, true, vec_capacity, vec_len};
ghost use Rattle.std.specs.List.{range_with_len};
ghost use Rattle.firing.specs.ReadySet.{has};
ghost use Rattle.firing.specs.declared.system.NodeName.TheVariants.{Op};
ghost use Rattle.net_board.specs.Nodes.{graph_in, is_acting, kind_in, switches};
ghost use Rattle.net_board.specs.TokenEdges.{edge_at};
ghost use Rattle.net_board.specs.Tokens.{left_for};
ghost use Rattle.op_board.specs.OperationNets.{OperationNet, operation_node};
ghost use Rattle.op_board.specs.OperationTokens.{OperationTokens};
ghost use Rattle.operation_tables.specs.BoardView.{operation_net_on};
ghost use Rattle.operation_places.specs.Counts.{AreCounts};
ghost use Rattle.operation_places.specs.PlacesView.{IsCounted, standing};
ghost use Rattle.operation_places.specs.RowWaits.{IsBelow, hop_stands, is_there};
ghost use Rattle.operation_places.specs.SoundPlaces.{ArePlaces};
ghost use Rattle.operation_tables.specs.Waits.{awaits, failing, node_total, one_if, waits, waits_as};
ghost use Rattle.operation_tables.specs.declared.hops.Hop.{Hop};

use crate::places::Places;
use firing::NodeName;
use net_tables::is_before;
use operation_lists::Operand;
use operation_tables::{Hop, OperationBoard};

/// For how much a node waits.
pub fn waits<const W: usize>(board: &OperationBoard<W>, places: &Places, k: u32) -> u64
    requires node { k < node_total (operation_net_on board.now) }
    requires places { ArePlaces (operation_net_on board.now) places.now }
    ensures { result ≡ waits (operation_net_on board.now) (standing places.now) k }
{
    let plan = &board.plan.board.plan;
    match board.name(k) {
        NodeName::Op(piece, i) => operation_waits(board, places, k, piece, i),
        NodeName::Switch(piece, line) => {
            let switch = board.switch_number(k, piece);
            let lacks_line = one_if(!is_before(plan, &places.lines, piece, line));
            let lacks_edge = one_if(!places.edges[switch as usize].is_some());
            lacks_line + lacks_edge
        }
        NodeName::Merge(piece, line) => one_if(!is_before(plan, &places.lines, piece, line)),
        NodeName::Act(_) => 1,
    }
}

/// No node waits for more than can be counted.
pub fn waits_are_few<const W: usize>(board: &OperationBoard<W>)
    ensures { (m : OperationTokens) (k : ℕ) → k < node_total (operation_net_on board.now) → waits (operation_net_on board.now) m k < 2 ^ 34 }
{
    let _lines = board.plan.board.plan.routes.lines();
}

fn one_if(holds: bool) -> u64
    ensures { result ≡ one_if holds }
{
    if holds { 1 } else { 0 }
}

// For how much an operation waits.
fn operation_waits<const W: usize>(
    board: &OperationBoard<W>,
    places: &Places,
    k: u32,
    piece: u32,
    i: u32,
) -> u64
    requires node { k < node_total (operation_net_on board.now) }
    requires name { operation_node (operation_net_on board.now) k ≡ Op piece i }
    requires places { ArePlaces (operation_net_on board.now) places.now }
    ensures { result ≡ waits_as (operation_net_on board.now) (standing places.now) k (Op piece i) }
{
    waits_are_few(board);
    let row = board.row(piece, i);
    let lines = waits_for_lines(board, places, piece, row.hops.as_slice());
    let operands = waits_for_operands(places, row.operands.as_slice(), k - i);
    let own = one_if(places.values[k as usize].is_some());
    let room = waits_for_switches(board, places, piece, row.decides);
    lines + (operands + (own + room))
}

// How many lines that an operation needs don't stand before it.
fn waits_for_lines<const W: usize>(
    board: &OperationBoard<W>,
    places: &Places,
    piece: u32,
    hops: &[Hop],
) -> u64
    requires lines { All (λ (hop : Hop). hop.line < (operation_net_on board.now).net.routing.lines) hops.now }
    requires places { ArePlaces (operation_net_on board.now) places.now }
    ensures { result ≡ failing (hop_stands (operation_net_on board.now) (standing places.now) piece) hops.now }
{
    let mut count = 0;
    for hop in hops {
        count += one_if(!hop_stands(board, places, piece, hop));
    }
    count
}

// Whether a line that an operation needs stands before it.
fn hop_stands<const W: usize>(
    board: &OperationBoard<W>,
    places: &Places,
    piece: u32,
    hop: &Hop,
) -> bool
    requires line { hop.now.line < (operation_net_on board.now).net.routing.lines }
    requires places { ArePlaces (operation_net_on board.now) places.now }
    ensures { result ≡ hop_stands (operation_net_on board.now) (standing places.now) piece hop.now }
{
    let line = hop.line as u32;
    let before = is_before(&board.plan.board.plan, &places.lines, piece, line);
    before && places.passed[hop.line as usize] == hop.before as u32
}

/// How many operands of an operation aren't there, where its piece has this first node.
pub fn waits_for_operands(places: &Places, operands: &[Operand], first: u32) -> u64
    requires operands { All (IsBelow (length places.now.values.items) first) operands.now }
    requires nodes { length places.now.values.items < 2 ^ 32 }
    ensures { result ≡ failing (is_there places.now.values.items first) operands.now }
{
    let mut count = 0;
    for operand in operands {
        count += one_if(!is_there(places, operand, first));
    }
    count
}

// Whether an operand is there.
fn is_there(places: &Places, operand: &Operand, first: u32) -> bool
    requires operand { IsBelow (length places.now.values.items) first operand.now }
    requires nodes { length places.now.values.items < 2 ^ 32 }
    ensures { result ≡ is_there places.now.values.items first operand.now }
{
    match operand {
        Operand::Known(_) => true,
        Operand::Node(number) => places.values[(first + *number) as usize].is_some(),
    }
}

// How many switches of a piece haven't taken what was left for them, if a decision waits for them.
fn waits_for_switches<const W: usize>(
    board: &OperationBoard<W>,
    places: &Places,
    piece: u32,
    decides: bool,
) -> u64
    requires piece { piece < (graph_in (operation_net_on board.now).net).nodes }
    requires acts { is_acting (kind_in (operation_net_on board.now).net piece) ≡ true }
    requires places { ArePlaces (operation_net_on board.now) places.now }
    ensures { result ≡ (if decides then failing (λ switch. not (is_some (left_for (standing places.now).tokens switch))) (switches (operation_net_on board.now).net piece) else 0) }
{
    if decides {
        let first = board.plan.board.first(piece);
        edges_between(&places.edges, first, board.plan.board.end(piece))
    } else {
        0
    }
}

// For how many nodes after the first one, up to the end, which is not one of them, an edge is left.
fn edges_between(edges: &Vec<Option<u32>>, first: u32, end: u32) -> u64
    requires some { first < end }
    requires nodes { end ≤ length edges.now.items }
    ensures { result ≡ failing (λ k. not (is_some (edge_at edges.now.items k))) (range_with_len (suc first) (end - suc first)) }
{
    let mut count = 0;
    for switch in first + 1..end {
        count += one_if(edges[switch as usize].is_some());
    }
    count
}

impl Places {
    /// From now on no other game leads a node, and it is counted for how much each one waits.
    pub fn keep_whole<const W: usize>(&mut self, board: &OperationBoard<W>)
        requires places { ArePlaces (operation_net_on board.now) self.old }
        requires counted { IsCounted (operation_net_on board.now) self.old }
        ensures standing { standing self.new ≡ standing self.old }
        ensures counted { IsCounted (operation_net_on board.now) self.new }
        ensures kept { self.new.counted ≡ true }
        ensures whole { self.new.apart.items ≡ [] }
        ensures places { ArePlaces (operation_net_on board.now) self.new }
    {
        self.lead_all();
        self.keep_counts(board);
    }

    // From now on no other game leads a node. What was counted while one did is forgotten.
    fn lead_all(&mut self)
        ensures standing { standing self.new ≡ standing self.old }
        ensures counted { (x : OperationNet) → IsCounted x self.old → IsCounted x self.new }
        ensures whole { self.new.apart.items ≡ [] }
        ensures places { (x : OperationNet) → ArePlaces x self.old → ArePlaces x self.new }
    {
        if self.apart.len() > 0 {
            self.apart.clear();
            self.counts.clear();
            self.counted = false;
        }
    }

    /// From now on it is counted for how much each node waits.
    pub fn keep_counts<const W: usize>(&mut self, board: &OperationBoard<W>)
        requires places { ArePlaces (operation_net_on board.now) self.old }
        requires counted { IsCounted (operation_net_on board.now) self.old }
        ensures standing { standing self.new ≡ standing self.old }
        ensures counted { IsCounted (operation_net_on board.now) self.new }
        ensures kept { self.new.counted ≡ true }
        ensures apart { self.new.apart.items ≡ self.old.apart.items }
        ensures places { ArePlaces (operation_net_on board.now) self.new }
    {
        if self.counted {
            return;
        }
        self.count_all(board);
        self.counted = true;
    }

    // Counts for how much each node waits.
    fn count_all<const W: usize>(&mut self, board: &OperationBoard<W>)
        requires places { ArePlaces (operation_net_on board.now) self.old }
        requires none { self.old.counts.items ≡ [] }
        ensures standing { standing self.new ≡ standing self.old }
        ensures leads { self.new.leads.items ≡ self.old.leads.items }
        ensures apart { self.new.apart.items ≡ self.old.apart.items }
        ensures counts { AreCounts (node_total (operation_net_on board.now)) (awaits (operation_net_on board.now) self.old.apart.items (standing self.old)) (has self.old.apart.items) self.new.counts.items self.new.set }
        ensures places { ArePlaces (operation_net_on board.now) self.new }
    {
        for k in 0..board.nodes() {
            self.count_one(board, k);
        }
    }

    // Counts for how much a node waits, where the nodes below it are counted.
    fn count_one<const W: usize>(&mut self, board: &OperationBoard<W>, k: u32)
        requires node { k < node_total (operation_net_on board.now) }
        requires places { ArePlaces (operation_net_on board.now) self.old }
        requires below { length self.old.counts.items ≡ k }
        ensures standing { standing self.new ≡ standing self.old }
        ensures leads { self.new.leads.items ≡ self.old.leads.items }
        ensures apart { self.new.apart.items ≡ self.old.apart.items }
        ensures counts { self.new.counts.items ≡ self.old.counts.items ++ awaits (operation_net_on board.now) self.old.apart.items (standing self.old) k ∷ [] }
        ensures set { self.new.set ≡ set self.old.set k (awaits (operation_net_on board.now) self.old.apart.items (standing self.old) k == 0) }
        ensures places { ArePlaces (operation_net_on board.now) self.new }
    {
        waits_are_few(board);
        let count = waits(board, self, k) + one_if(self.is_apart(k));
        push_count(&mut self.counts, count);
        self.set.put(k, count == 0);
    }

    /// Whether another game leads a node.
    pub(crate) fn is_apart(&self, k: u32) -> bool
        ensures { result ≡ has self.now.apart.items k }
    {
        (k as usize) < self.apart.len() && self.apart[k as usize]
    }
}

// Appends a count, for which there is room.
fn push_count(counts: &mut Vec<u64>, count: u64)
    requires room { vec_len counts.old + 1 ≤ vec_capacity counts.old }
    ensures counts { counts.new.items ≡ counts.old.items ++ count ∷ [] }
    ensures capacity { vec_capacity counts.old ≤ vec_capacity counts.new }
{
    let _pushed = counts.push(count);
}
