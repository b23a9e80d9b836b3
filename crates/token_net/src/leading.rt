//! Firings of pieces that act lead lines away.

ghost use Rattle.std.specs.Prelude.{◌≡◌, ◌<◌, Some, length, true};
ghost use Rattle.closed_walks.specs.Graph.{edge_count};
ghost use Rattle.net_board.specs.Nodes.{is_acting, graph_in, kind_in, nodes_of, switches, touched};
ghost use Rattle.net_board.specs.Tokens.{led_from, with_all};
ghost use Rattle.net_tables.specs.LookupView.{net_on};

use net_tables::{Board, lead, leave};

/// Leads the lines of a piece that acts along an edge, and leaves it for the switches.
pub(crate) fn lead_away<const W: usize>(
    board: &Board<W>,
    piece: u32,
    edge: u32,
    lines: &mut Vec<Option<u32>>,
    edges: &mut Vec<Option<u32>>,
)
    requires piece { piece < (graph_in (net_on board.now)).nodes }
    requires acts { is_acting (kind_in (net_on board.now) piece) ≡ true }
    requires edge { edge < edge_count (graph_in (net_on board.now)) }
    requires every_line { length lines.old.items ≡ board.now.plan.routes.now.lines }
    requires every_node { length edges.old.items ≡ length (nodes_of (net_on board.now)) }
    ensures lines { lines.new.items ≡ with_all lines.old.items (touched (net_on board.now) piece) (led_from (net_on board.now) edge) }
    ensures edges { edges.new.items ≡ with_all edges.old.items (switches (net_on board.now) piece) (λ k. Some edge) }
    ensures every_line { length lines.new.items ≡ length lines.old.items }
    ensures every_node { length edges.new.items ≡ length edges.old.items }
{
    let first = board.first(piece);
    let end = board.end(piece);
    lead(&board.plan, board.touched(piece), edge, lines);
    leave(edges, first, end, edge);
}
