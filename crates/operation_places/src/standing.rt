//! Before which node a token line stands.

ghost use Rattle.std.specs.Prelude.{◌≡◌, ◌+◌, ◌<◌, ◌≤◌, ℕ, Some, false, if◌then◌else◌, true};
ghost use Rattle.closed_walks.specs.Graph.{edge_count, to};
ghost use Rattle.net_board.specs.Nodes.{first_node, graph_in, node_count};
ghost use Rattle.op_board.specs.OperationNets.{first_operation, operation_count, operation_node, operation_node_count};
ghost use Rattle.operation_tables.specs.BoardView.{operation_net_on};
ghost use Rattle.operation_tables.specs.OperationRows.{EntryIs};
ghost use Rattle.operation_places.specs.Turns.{is_turn};
ghost use Rattle.operation_tables.specs.Waits.{IsNodeBefore, node_total};

use firing::NodeName;
use net_tables::touches;
use operation_tables::OperationBoard;

/// The node before which a line stands on an edge, where it has passed no operation of the piece to which that leads. Where it
/// stands before none, the answer is the number of all nodes.
pub fn node_before<const W: usize>(board: &OperationBoard<W>, line: u32, edge: u32) -> u32
    requires line { line < (operation_net_on board.now).net.routing.lines }
    requires edge { edge < edge_count (graph_in (operation_net_on board.now).net) }
    ensures before { IsNodeBefore (operation_net_on board.now) line (Some edge) 0 result }
    ensures within { result ≤ node_total (operation_net_on board.now) }
{
    let piece = head(board, edge);
    if is_needed(board, piece, line) {
        first_needing(board, piece, line)
    } else {
        turn_of(board, piece, line)
    }
}

/// The piece to which an edge leads.
pub fn head<const W: usize>(board: &OperationBoard<W>, edge: u32) -> u32
    requires { edge < edge_count (graph_in (operation_net_on board.now).net) }
    ensures piece { to (graph_in (operation_net_on board.now).net) edge ≡ result }
    ensures exists { result < (graph_in (operation_net_on board.now).net).nodes }
{
    board.plan.board.plan.flow.graph().to(edge)
}

/// Whether the piece has operations and touches the line.
pub fn is_needed<const W: usize>(board: &OperationBoard<W>, piece: u32, line: u32) -> bool
    requires { piece < (graph_in (operation_net_on board.now).net).nodes }
    ensures some { result ≡ true → 0 < operation_count (operation_net_on board.now) piece }
    ensures touched { result ≡ true → (operation_net_on board.now).net.touches piece line ≡ true }
    ensures untouched { result ≡ false → 0 < operation_count (operation_net_on board.now) piece → (operation_net_on board.now).net.touches piece line ≡ false }
{
    let operations = board.operations(piece);
    if operations == 0 {
        return false;
    }
    touches(&board.plan.board.plan, piece, line)
}

// The first operation of a piece that needs a line which the piece touches.
fn first_needing<const W: usize>(board: &OperationBoard<W>, piece: u32, line: u32) -> u32
    requires piece { piece < (graph_in (operation_net_on board.now).net).nodes }
    requires line { line < (operation_net_on board.now).net.routing.lines }
    requires some { 0 < operation_count (operation_net_on board.now) piece }
    requires touched { (operation_net_on board.now).net.touches piece line ≡ true }
    ensures before { (edge : ℕ) → to (graph_in (operation_net_on board.now).net) edge ≡ piece → IsNodeBefore (operation_net_on board.now) line (Some edge) 0 result }
    ensures within { result ≤ node_total (operation_net_on board.now) }
{
    match entry(board, piece, line) {
        Some(n) => board.first(piece) + n,
        None => board.nodes(),
    }
}

/// The number of the first operation of a piece that needs a line which the piece touches.
pub(crate) fn entry<const W: usize>(board: &OperationBoard<W>, piece: u32, line: u32) -> Option<u32>
    requires piece { piece < (graph_in (operation_net_on board.now).net).nodes }
    requires line { line < (operation_net_on board.now).net.routing.lines }
    requires some { 0 < operation_count (operation_net_on board.now) piece }
    requires touched { (operation_net_on board.now).net.touches piece line ≡ true }
    ensures { EntryIs (operation_net_on board.now) piece line result }
{
    let touched = board.plan.board.touched(piece);
    match touched.binary_search(&line) {
        Ok(place) => Some(board.tables.entries[piece as usize][place]),
        Err(_) => None,
    }
}

/// The switch or merge of a piece that a line goes through, which the piece doesn't touch, or else the number of all nodes.
pub fn turn_of<const W: usize>(board: &OperationBoard<W>, piece: u32, line: u32) -> u32
    requires piece { piece < (graph_in (operation_net_on board.now).net).nodes }
    requires line { line < (operation_net_on board.now).net.routing.lines }
    requires untouched { 0 < operation_count (operation_net_on board.now) piece → (operation_net_on board.now).net.touches piece line ≡ false }
    ensures before { (edge passed : ℕ) → to (graph_in (operation_net_on board.now).net) edge ≡ piece → IsNodeBefore (operation_net_on board.now) line (Some edge) passed result }
    ensures within { result ≤ node_total (operation_net_on board.now) }
{
    let k = numbered_from_end(board, piece, board.plan.board.place(piece, line));
    let nodes = board.nodes();
    if k < nodes {
        if_turn(board, k, piece, line)
    } else {
        nodes
    }
}

// The node of a piece that has as many others of the piece behind it as the node with this number in the net of statements.
fn numbered_from_end<const W: usize>(board: &OperationBoard<W>, piece: u32, n: u32) -> u32
    requires piece { piece < (graph_in (operation_net_on board.now).net).nodes }
    ensures node { (j : ℕ) → first_operation (operation_net_on board.now) piece ≤ j → j < first_operation (operation_net_on board.now) piece + operation_node_count (operation_net_on board.now) piece → n + (first_operation (operation_net_on board.now) piece + operation_node_count (operation_net_on board.now) piece) ≡ (first_node (operation_net_on board.now).net piece + node_count (operation_net_on board.now).net piece) + j → result ≡ j }
    ensures within { result ≤ node_total (operation_net_on board.now) }
{
    let end = board.plan.board.end(piece);
    if n < end && end - n <= board.count(piece) {
        board.end(piece) - (end - n)
    } else {
        board.nodes()
    }
}

// A node, if it is the switch or the merge of the line at the piece, or else the number of all nodes.
fn if_turn<const W: usize>(board: &OperationBoard<W>, k: u32, piece: u32, line: u32) -> u32
    requires node { k < node_total (operation_net_on board.now) }
    ensures { result ≡ (if is_turn (operation_node (operation_net_on board.now) k) piece line then k else node_total (operation_net_on board.now)) }
{
    let is_own = match board.name(k) {
        NodeName::Switch(own, other) | NodeName::Merge(own, other) => {
            own == piece && other == line
        }
        _ => false,
    };
    if is_own { k } else { board.nodes() }
}
