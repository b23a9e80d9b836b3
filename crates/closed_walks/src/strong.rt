//! Whether a graph is strongly connected.

ghost use Rattle.std.specs.Prelude.{◌≡◌, ◌<◌, ◌↔◌, ℕ, true, IfOk, IsTrue, EachIndex};
ghost use Rattle.closed_walks.specs.Walk.{Reach, no_edge, IsStrong};
ghost use Rattle.closed_walks.specs.Search.{is_visited};
ghost use Rattle.closed_walks.specs.Reversed.{IsReversed};

use crate::Digraph;
use crate::search::visited_from;
use df_sequence::NoMemory;
use std::alloc::Global;

/// Whether the graph is strongly connected: each node is reached from each node. It makes two searches, one of them against
/// the edges.
pub fn is_strong(alloc: Global, g: &Digraph) -> Result<bool, NoMemory>
    ensures { IfOk result (λ strong. IsTrue strong ↔ IsStrong g.now) }
{
    if g.nodes() == 0 {
        return Ok(true);
    }
    let back = reversed(alloc, g)?;
    let to_all = reaches_all(alloc, g)?;
    let from_all = reaches_all(alloc, &back)?;
    Ok(to_all && from_all)
}

/// Whether each node is reached from node 0.
fn reaches_all(alloc: Global, g: &Digraph) -> Result<bool, NoMemory>
    requires { 0 < g.now.nodes }
    ensures { IfOk result (λ all. IsTrue all ↔ ((v : ℕ) → v < g.now.nodes → Reach g.now no_edge 0 v)) }
{
    let visited = visited_from(alloc, g, 0, g.edges())?;
    Ok(all_visited(&visited))
}

/// Whether all nodes are visited.
fn all_visited(visited: &[bool]) -> bool
    ensures { IsTrue result ↔ EachIndex visited.now (λ k. is_visited visited.now k ≡ true) }
{
    visited.iter().all(|mark| *mark)
}

/// The graph with each edge turned round.
fn reversed(alloc: Global, g: &Digraph) -> Result<Digraph, NoMemory>
    ensures { IfOk result (λ back. IsReversed g.now back) }
{
    let mut back = Digraph::new(alloc, g.nodes())?;
    for e in 0..g.edges() {
        back.add_edge(alloc, g.to(e), g.from(e))?;
    }
    Ok(back)
}
