//! The greatest solution of the equations of available expressions, for 64 candidates at once.

ghost use Rattle.std.specs.Prelude.{◌≡◌, ◌<◌, ◌≤◌, ◌&&◌, ◌||◌, ◌↔◌, ℕ, not, false, length, IfOk, OnOk};
ghost use Rattle.closed_walks.specs.Graph.{from};
ghost use Rattle.closed_walks.specs.Region.{IsFlowGraph};
ghost use Rattle.closed_walks.specs.Walk.{Holds};
ghost use Rattle.redundancy.specs.Available.{has_bit, IsOnAllWalks};
ghost use Rattle.redundancy.specs.Solving.{bit, HasBit, IsSolving, Nothing, work};

use closed_walks::{Digraph, edges_of_nodes};
use df_sequence::NoMemory;
use std::alloc::Global;

/// For each node a word that has the bits of what isn't available there. Nothing is available at node 0. What a node computes is
/// available after it, unless the node kills it; what it neither computes nor kills is available after it where it is so before
/// it; and what is available on each edge to a node is available at it.
pub(crate) fn missing_row(
    alloc: Global,
    g: &Digraph,
    computes: &[u64],
    kills: &[u64],
) -> Result<Vec<u64>, NoMemory>
    requires flow { IsFlowGraph g.now }
    requires computes { length computes.now ≡ g.now.nodes }
    requires kills { length kills.now ≡ g.now.nodes }
    ensures nodes { IfOk result (λ missing. length missing.items ≡ g.now.nodes) }
    ensures missing { IfOk result (λ missing. (node k : ℕ) → node < g.now.nodes → k < 64 → (bit missing.items k node ≡ false) ↔ IsOnAllWalks g.now (HasBit computes.now k) (HasBit kills.now k) node) }
{
    let mut missing = vec![in alloc; 0; g.nodes() as usize]?;
    missing[0] = u64::MAX;
    let mut waiting = all_nodes(alloc, g)?;
    while let Some(node) = waiting.pop() {
        spread(g, node, computes, kills, &mut missing, &mut waiting)?;
    }
    Ok(missing)
}

// All nodes, with node 0 at the end.
fn all_nodes(alloc: Global, g: &Digraph) -> Result<Vec<u32>, NoMemory>
    ensures { IfOk result (λ nodes. (v : ℕ) → Holds nodes.items v ↔ (v < g.now.nodes)) }
{
    let mut nodes = Vec::with_capacity(alloc, g.nodes() as usize)?;
    for node in 0..g.nodes() {
        nodes.push(g.nodes() - 1 - node)?;
    }
    Ok(nodes)
}

// What is missing after a node becomes missing at each node to which an edge leads from it. A node at which something is missing that
// wasn't before has to wait for its turn.
fn spread(
    g: &Digraph,
    node: u32,
    computes: &[u64],
    kills: &[u64],
    missing: &mut Vec<u64>,
    waiting: &mut Vec<u32>,
) -> Result<(), NoMemory>
    requires flow { IsFlowGraph g.now }
    requires computes { length computes.now ≡ g.now.nodes }
    requires kills { length kills.now ≡ g.now.nodes }
    requires node { node < g.now.nodes }
    requires solving { IsSolving g.now computes.now kills.now missing.old.items waiting.old.items (λ e. from g.now e ≡ node) }
    ensures solving { OnOk result (IsSolving g.now computes.now kills.now missing.new.items waiting.new.items Nothing) }
    ensures work { OnOk result (work missing.new.items waiting.new.items ≤ work missing.old.items waiting.old.items) }
{
    edges_of_nodes();
    let at = node as usize;
    let after = after(computes[at], kills[at], missing[at]);
    for e in g.edges_at(node) {
        let to = g.to(*e);
        let before = missing[to as usize];
        let all = before | after;
        if g.from(*e) == node && all != before {
            missing[to as usize] = all;
            waiting.push(to)?;
        }
    }
    Ok(())
}

// What is missing after a node.
fn after(computes: u64, kills: u64, missing: u64) -> u64
    ensures { (k : ℕ) → k < 64 → has_bit result k ≡ (has_bit kills k || (has_bit missing k && not (has_bit computes k))) }
{
    kills | missing & !computes
}
