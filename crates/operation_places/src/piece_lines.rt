//! Where the nodes of a piece lead token lines, all at once.

ghost use Rattle.std.specs.Prelude.{◌≡◌, ◌<◌, ◌∷◌, [], false, length};
ghost use Rattle.closed_walks.specs.Graph.{edge_count};
ghost use Rattle.net_board.specs.Nodes.{graph_in, node_at, nodes_of};
ghost use Rattle.net_board.specs.TokenEdges.{AreEdges};
ghost use Rattle.net_board.specs.Tokens.{led_from, with_all};
ghost use Rattle.net_board.specs.WithinPiece.{moved_by};
ghost use Rattle.net_tables.specs.LookupView.{net_on};
ghost use Rattle.op_board.specs.WholePieces.{lines_moved_at};
ghost use Rattle.operation_tables.specs.BoardView.{operation_net_on};
ghost use Rattle.operation_places.specs.PlacesView.{IsCounted, standing};
ghost use Rattle.operation_places.specs.SoundPlaces.{ArePlaces};
ghost use Rattle.operation_places.specs.StandingChanges.{lines_led};

use crate::places::Places;
use firing::NodeName;
use net_tables::{Board, lead};
use operation_tables::OperationBoard;

/// Leads the lines that the nodes of a piece move along an edge, where it isn't counted for how much nodes wait.
pub fn lead_piece<const W: usize>(
    board: &OperationBoard<W>,
    places: &mut Places,
    piece: u32,
    edge: u32,
)
    requires piece { piece < (graph_in (operation_net_on board.now).net).nodes }
    requires edge { edge < edge_count (graph_in (operation_net_on board.now).net) }
    requires places { ArePlaces (operation_net_on board.now) places.old }
    requires counted { IsCounted (operation_net_on board.now) places.old }
    requires uncounted { places.old.counted ≡ false }
    ensures standing { standing places.new ≡ lines_led (operation_net_on board.now) (standing places.old) piece edge }
    ensures places { ArePlaces (operation_net_on board.now) places.new }
    ensures counted { IsCounted (operation_net_on board.now) places.new }
    ensures kept { places.new.counted ≡ false }
{
    lead_all(&board.plan.board, piece, edge, &mut places.lines);
}

// Leads the lines that the nodes of a piece move along an edge.
fn lead_all<const W: usize>(board: &Board<W>, piece: u32, edge: u32, lines: &mut Vec<Option<u32>>)
    requires piece { piece < (graph_in (net_on board.now)).nodes }
    requires all { length lines.old.items ≡ (net_on board.now).routing.lines }
    requires edge { edge < edge_count (graph_in (net_on board.now)) }
    ensures lines { lines.new.items ≡ with_all lines.old.items (lines_moved_at (net_on board.now) piece) (led_from (net_on board.now) edge) }
    ensures all { length lines.new.items ≡ length lines.old.items }
    ensures stand { AreEdges (net_on board.now) lines.old.items → AreEdges (net_on board.now) lines.new.items }
{
    let first = board.first(piece);
    let end = board.end(piece);
    for k in first..end {
        lead_moved(board, k, edge, lines);
    }
}

// Leads the lines that a node moves along an edge.
fn lead_moved<const W: usize>(board: &Board<W>, k: u32, edge: u32, lines: &mut Vec<Option<u32>>)
    requires node { k < length (nodes_of (net_on board.now)) }
    requires all { length lines.old.items ≡ (net_on board.now).routing.lines }
    requires edge { edge < edge_count (graph_in (net_on board.now)) }
    ensures lines { lines.new.items ≡ with_all lines.old.items (moved_by (net_on board.now) (node_at (net_on board.now) k)) (led_from (net_on board.now) edge) }
    ensures all { length lines.new.items ≡ length lines.old.items }
    ensures stand { AreEdges (net_on board.now) lines.old.items → AreEdges (net_on board.now) lines.new.items }
{
    match board.name(k) {
        NodeName::Act(piece) => lead(&board.plan, board.touched(piece), edge, lines),
        NodeName::Switch(_, line) | NodeName::Merge(_, line) => lead_one(board, line, edge, lines),
        NodeName::Op(_, _) => {}
    }
}

// Leads a line along an edge.
fn lead_one<const W: usize>(board: &Board<W>, line: u32, edge: u32, lines: &mut Vec<Option<u32>>)
    requires line { line < (net_on board.now).routing.lines }
    requires all { length lines.old.items ≡ (net_on board.now).routing.lines }
    requires edge { edge < edge_count (graph_in (net_on board.now)) }
    ensures lines { lines.new.items ≡ with_all lines.old.items (line ∷ []) (led_from (net_on board.now) edge) }
    ensures all { length lines.new.items ≡ length lines.old.items }
    ensures stand { AreEdges (net_on board.now) lines.old.items → AreEdges (net_on board.now) lines.new.items }
{
    lines[line as usize] = Some(board.plan.routes.next_wire(line, edge));
}
