//! Which edges token lines stand on, and which edges are left for switches.

ghost use Rattle.std.specs.Prelude.{◌≡◌, ◌<◌, ◌≤◌, ◌-◌, All, None, Some, suc, not, is_some, length};
ghost use Rattle.std.specs.List.{list_all, range_with_len};
ghost use Rattle.closed_walks.specs.Graph.{edge_count};
ghost use Rattle.net_board.specs.Nodes.{graph_in};
ghost use Rattle.net_board.specs.TokenEdges.{AreEdges, edge_at};
ghost use Rattle.net_board.specs.Tokens.{leads_to, led_from, with_all};
ghost use Rattle.net_tables.specs.PartsView.{net_in};

use crate::program_parts::Plan;

/// Whether a line stands on an edge to the piece, where `lines` has for each line the edge on which it stands, if any.
pub fn is_before<const W: usize>(
    plan: &Plan<W>,
    lines: &Vec<Option<u32>>,
    piece: u32,
    line: u32,
) -> bool
    requires line { line < length lines.now.items }
    requires edges { AreEdges (net_in plan.now) lines.now.items }
    ensures { result ≡ leads_to (graph_in (net_in plan.now)) piece (edge_at lines.now.items line) }
{
    match lines[line as usize] {
        Some(edge) => plan.flow.graph().to(edge) == piece,
        None => false,
    }
}

/// Whether each of the touched lines stands on an edge to the piece.
pub fn are_before<const W: usize>(
    plan: &Plan<W>,
    lines: &Vec<Option<u32>>,
    piece: u32,
    touched: &[u32],
) -> bool
    requires touched { All (λ line. line < length lines.now.items) touched.now }
    requires edges { AreEdges (net_in plan.now) lines.now.items }
    ensures { result ≡ list_all (λ line. leads_to (graph_in (net_in plan.now)) piece (edge_at lines.now.items line)) touched.now }
{
    for line in touched {
        if !is_before(plan, lines, piece, *line) {
            return false;
        }
    }
    true
}

/// Whether no edge is left for any node after the first one, up to the end, which is not one of them. `edges` has for each node the
/// edge that is left for it, if any.
pub fn is_clear(edges: &Vec<Option<u32>>, first: u32, end: u32) -> bool
    requires some { first < end }
    requires nodes { end ≤ length edges.now.items }
    ensures { result ≡ list_all (λ k. not (is_some (edge_at edges.now.items k))) (range_with_len (suc first) (end - suc first)) }
{
    for k in first + 1..end {
        if edges[k as usize].is_some() {
            return false;
        }
    }
    true
}

/// Leads the touched lines along an edge: each stands then on the edge to which it is led from there.
pub fn lead<const W: usize>(
    plan: &Plan<W>,
    touched: &[u32],
    edge: u32,
    lines: &mut Vec<Option<u32>>,
)
    requires touched { All (λ line. line < plan.now.routes.now.lines) touched.now }
    requires all { length lines.old.items ≡ plan.now.routes.now.lines }
    requires edge { edge < edge_count (graph_in (net_in plan.now)) }
    ensures lines { lines.new.items ≡ with_all lines.old.items touched.now (led_from (net_in plan.now) edge) }
    ensures all { length lines.new.items ≡ length lines.old.items }
    ensures stand { AreEdges (net_in plan.now) lines.old.items → AreEdges (net_in plan.now) lines.new.items }
{
    for line in touched {
        lines[*line as usize] = Some(plan.routes.next_wire(*line, edge));
    }
}

/// Lets the touched lines vanish: they stand on no edge then.
pub fn drop_lines(touched: &[u32], lines: &mut Vec<Option<u32>>)
    requires touched { All (λ line. line < length lines.old.items) touched.now }
    ensures lines { lines.new.items ≡ with_all lines.old.items touched.now (λ line. None) }
    ensures all { length lines.new.items ≡ length lines.old.items }
{
    for line in touched {
        lines[*line as usize] = None;
    }
}

/// Leaves an edge for each node after the first one, up to the end, which is not one of them.
pub fn leave(edges: &mut Vec<Option<u32>>, first: u32, end: u32, edge: u32)
    requires some { first < end }
    requires nodes { end ≤ length edges.old.items }
    ensures edges { edges.new.items ≡ with_all edges.old.items (range_with_len (suc first) (end - suc first)) (λ k. Some edge) }
    ensures all { length edges.new.items ≡ length edges.old.items }
{
    for k in first + 1..end {
        edges[k as usize] = Some(edge);
    }
}
