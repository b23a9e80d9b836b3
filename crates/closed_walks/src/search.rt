//! Which nodes are reached from a node without an edge, and the cycle equivalence of two edges by that.

ghost use Rattle.std.specs.Prelude.{◌≡◌, ◌+◌, ◌*◌, ◌<◌, ◌≤◌, ◌↔◌, ◌⊎◌, ℕ, true, false, length, slice_index_or, IfOk, OnOk, IsTrue};
ghost use Rattle.closed_walks.specs.Graph.{edge_count, from, to};
ghost use Rattle.closed_walks.specs.Walk.{Reach, no_edge, only, IsCycleEquivalent};
ghost use Rattle.closed_walks.specs.Search.{is_visited, blanks, Leads, IsOpen, Nothing};

use crate::Digraph;
use df_sequence::NoMemory;
use std::alloc::Global;

/// Whether the two edges are cycle equivalent: every closed walk that holds either holds both. It makes two searches of
/// the graph.
pub fn same_class_plain(alloc: Global, g: &Digraph, a: u32, b: u32) -> Result<bool, NoMemory>
    requires first { a < edge_count g.now }
    requires second { b < edge_count g.now }
    ensures { IfOk result (λ same. IsTrue same ↔ IsCycleEquivalent g.now a b) }
{
    if a == b {
        return Ok(true);
    }
    if returns_without(alloc, g, a, b)? {
        return Ok(false);
    }
    let back = returns_without(alloc, g, b, a)?;
    Ok(!back)
}

/// Whether a way leads from where the edge ends to where it begins without the other edge.
fn returns_without(alloc: Global, g: &Digraph, e: u32, without: u32) -> Result<bool, NoMemory>
    requires { e < edge_count g.now }
    ensures { IfOk result (λ found. IsTrue found ↔ Reach g.now (only without) (to g.now e) (from g.now e)) }
{
    let visited = visited_from(alloc, g, g.to(e), without)?;
    Ok(visited[g.from(e) as usize])
}

/// The nodes that are reached from the start: for each node whether it is.
pub fn reached_from(alloc: Global, g: &Digraph, start: u32) -> Result<Vec<bool>, NoMemory>
    requires { start < g.now.nodes }
    ensures nodes { IfOk result (λ marks. length marks.items ≡ g.now.nodes) }
    ensures reached { IfOk result (λ marks. (v : ℕ) → (slice_index_or marks.items v false ≡ true) ↔ Reach g.now no_edge start v) }
{
    visited_from(alloc, g, start, g.edges())
}

/// The nodes that are reached from the start without the edge: for each node whether it is.
pub(crate) fn visited_from(
    alloc: Global,
    g: &Digraph,
    start: u32,
    without: u32,
) -> Result<Vec<bool>, NoMemory>
    requires { start < g.now.nodes }
    ensures nodes { IfOk result (λ visited. length visited.items ≡ g.now.nodes) }
    ensures reached { IfOk result (λ visited. (v : ℕ) → (is_visited visited.items v ≡ true) ↔ Reach g.now (only without) start v) }
{
    let mut visited = vec![in alloc; false; g.nodes() as usize]?;
    visited[start as usize] = true;
    let mut frontier = vec![in alloc; start]?;
    while let Some(node) = frontier.pop() {
        visit_next(g, node, without, &mut visited, &mut frontier)?;
    }
    Ok(visited)
}

/// Visits the nodes to which edges lead from the node, but for the edge `without`.
fn visit_next(
    g: &Digraph,
    node: u32,
    without: u32,
    visited: &mut Vec<bool>,
    frontier: &mut Vec<u32>,
) -> Result<(), NoMemory>
    requires node { node < g.now.nodes }
    requires here { is_visited visited.old.items node ≡ true }
    requires leaves { IsOpen g.now without visited.old.items frontier.old.items (λ e. from g.now e ≡ node) }
    ensures leaves { OnOk result (IsOpen g.now without visited.new.items frontier.new.items Nothing) }
    ensures grown { OnOk result ((v : ℕ) → is_visited visited.new.items v ≡ true → (is_visited visited.old.items v ≡ true) ⊎ Leads g.now without node v) }
    ensures kept { OnOk result ((v : ℕ) → is_visited visited.old.items v ≡ true → is_visited visited.new.items v ≡ true) }
    ensures work { OnOk result (2 * blanks visited.new.items + length frontier.new.items ≤ 2 * blanks visited.old.items + length frontier.old.items) }
{
    for e in g.edges_at(node) {
        let to = g.to(*e);
        if g.from(*e) == node && *e != without && !visited[to as usize] {
            visited[to as usize] = true;
            frontier.push(to)?;
        }
    }
    Ok(())
}
