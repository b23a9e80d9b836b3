//! The nodes that a firing can have made ready.

ghost use Rattle.std.specs.Prelude.{◌≡◌, ◌<◌, ◌≤◌, ◌+◌, ◌-◌, ◌*◌, ℕ, All, [], suc, length, true, vec_len, vec_capacity};
ghost use Rattle.std.specs.List.{Contains, range_with_len};
ghost use Rattle.list_laws.specs.Member.{Member};
ghost use Rattle.net_board.specs.Nodes.{is_acting, graph_in, kind_in, nodes_of, node_at, switches, touched};
ghost use Rattle.net_board.specs.TokenEdges.{AreEdges, edge_at};
ghost use Rattle.net_board.specs.Tokens.{Tokens};
ghost use Rattle.net_board.specs.WokenNodes.{HasNext, IsWoken, no_node};
ghost use Rattle.net_tables.specs.LookupView.{net_on};
ghost use Rattle.token_net.specs.WokenList.{Keeps};

use firing::NodeName;
use net_tables::Board;

/// Names a node, for which there is room. A node that was just named isn't named again.
pub(crate) fn wake(woken: &mut Vec<u32>, k: u32)
    requires room { vec_len woken.old + 1 ≤ vec_capacity woken.old }
    ensures has { Contains woken.new.items k }
    ensures kept { Keeps woken.old.items woken.new.items }
    ensures nodes { (n : ℕ) → All (λ j. j < n) woken.old.items → k < n → All (λ j. j < n) woken.new.items }
    ensures few { vec_len woken.new ≤ vec_len woken.old + 1 }
    ensures capacity { vec_capacity woken.old ≤ vec_capacity woken.new }
{
    if let Some(last) = woken.last()
        && *last == k
    {
        return;
    }
    let _pushed = woken.push(k);
}

/// Names the node before which a line stands.
pub(crate) fn wake_before<const W: usize>(
    board: &Board<W>,
    lines: &Vec<Option<u32>>,
    line: u32,
    woken: &mut Vec<u32>,
)
    requires line { line < board.now.plan.routes.now.lines }
    requires all { length lines.now.items ≡ board.now.plan.routes.now.lines }
    requires edges { AreEdges (net_on board.now) lines.now.items }
    requires nodes { All (λ j. j < no_node (net_on board.now)) woken.old.items }
    requires room { vec_len woken.old + 1 ≤ vec_capacity woken.old }
    ensures has { HasNext (net_on board.now) woken.new.items line (edge_at lines.now.items line) }
    ensures kept { Keeps woken.old.items woken.new.items }
    ensures nodes { All (λ j. j < no_node (net_on board.now)) woken.new.items }
    ensures few { vec_len woken.new ≤ vec_len woken.old + 1 }
    ensures capacity { vec_capacity woken.old ≤ vec_capacity woken.new }
{
    if let Some(edge) = lines[line as usize] {
        let piece = board.plan.flow.graph().to(edge);
        let k = board.place(piece, line);
        if k < board.nodes() {
            wake(woken, k);
        }
    }
}

/// Names the nodes before which these lines stand.
pub(crate) fn wake_lines<const W: usize>(
    board: &Board<W>,
    lines: &Vec<Option<u32>>,
    moved: &[u32],
    woken: &mut Vec<u32>,
)
    requires moved { All (λ line. line < board.now.plan.routes.now.lines) moved.now }
    requires all { length lines.now.items ≡ board.now.plan.routes.now.lines }
    requires edges { AreEdges (net_on board.now) lines.now.items }
    requires nodes { All (λ j. j < no_node (net_on board.now)) woken.old.items }
    requires room { vec_len woken.old + length moved.now ≤ vec_capacity woken.old }
    ensures has { (line : ℕ) → Member moved.now line → HasNext (net_on board.now) woken.new.items line (edge_at lines.now.items line) }
    ensures kept { Keeps woken.old.items woken.new.items }
    ensures nodes { All (λ j. j < no_node (net_on board.now)) woken.new.items }
    ensures few { vec_len woken.new ≤ vec_len woken.old + length moved.now }
    ensures capacity { vec_capacity woken.old ≤ vec_capacity woken.new }
{
    for line in moved {
        wake_before(board, lines, *line, woken);
    }
}

/// Names the nodes after the first one, up to the end.
pub(crate) fn wake_after(woken: &mut Vec<u32>, first: u32, end: u32)
    requires some { first < end }
    requires room { vec_len woken.old + (end - suc first) ≤ vec_capacity woken.old }
    ensures has { (j : ℕ) → Member (range_with_len (suc first) (end - suc first)) j → Contains woken.new.items j }
    ensures kept { Keeps woken.old.items woken.new.items }
    ensures nodes { (n : ℕ) → All (λ j. j < n) woken.old.items → end ≤ n → All (λ j. j < n) woken.new.items }
    ensures few { vec_len woken.new ≤ vec_len woken.old + (end - suc first) }
    ensures capacity { vec_capacity woken.old ≤ vec_capacity woken.new }
{
    for k in first + 1..end {
        wake(woken, k);
    }
}

/// Names the nodes before which the lines of a piece that acts stand, and its switches.
fn wake_past<const W: usize>(
    board: &Board<W>,
    lines: &Vec<Option<u32>>,
    piece: u32,
    woken: &mut Vec<u32>,
)
    requires piece { piece < (graph_in (net_on board.now)).nodes }
    requires acts { is_acting (kind_in (net_on board.now) piece) ≡ true }
    requires all { length lines.now.items ≡ board.now.plan.routes.now.lines }
    requires edges { AreEdges (net_on board.now) lines.now.items }
    requires none { woken.old.items ≡ [] }
    requires room { 2 * board.now.plan.routes.now.lines + 2 ≤ vec_capacity woken.old }
    ensures nodes { All (λ j. j < no_node (net_on board.now)) woken.new.items }
    ensures next { (line : ℕ) → Member (touched (net_on board.now) piece) line → HasNext (net_on board.now) woken.new.items line (edge_at lines.now.items line) }
    ensures waiting { (j : ℕ) → Member (switches (net_on board.now) piece) j → Contains woken.new.items j }
    ensures capacity { vec_capacity woken.old ≤ vec_capacity woken.new }
{
    let first = board.first(piece);
    let end = board.end(piece);
    let moved = board.touched(piece);
    wake_lines(board, lines, moved, woken);
    wake_after(woken, first, end);
}

/// Names the nodes that the firing of a node has made ready, where the lines stand as it left them.
pub(crate) fn wake_fired<const W: usize>(
    board: &Board<W>,
    lines: &Vec<Option<u32>>,
    k: u32,
    woken: &mut Vec<u32>,
)
    requires node { k < length (nodes_of (net_on board.now)) }
    requires all { length lines.now.items ≡ board.now.plan.routes.now.lines }
    requires edges { AreEdges (net_on board.now) lines.now.items }
    requires room { 2 * board.now.plan.routes.now.lines + 2 ≤ vec_capacity woken.old }
    ensures woken { (m : Tokens) → m.lines ≡ lines.now.items → IsWoken (net_on board.now) m (node_at (net_on board.now) k) woken.new.items }
    ensures capacity { vec_capacity woken.old ≤ vec_capacity woken.new }
{
    woken.clear();
    match board.name(k) {
        NodeName::Act(piece) => wake_past(board, lines, piece, woken),
        NodeName::Switch(piece, line) => {
            let first = board.first(piece);
            wake_before(board, lines, line, woken);
            wake(woken, first);
        }
        NodeName::Merge(_piece, line) => wake_before(board, lines, line, woken),
        NodeName::Op(_, _) => {}
    }
}
