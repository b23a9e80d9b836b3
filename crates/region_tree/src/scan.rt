//! A search from the start over all edges.

ghost use Rattle.std.specs.Prelude.{◌≡◌, ◌+◌, ◌<◌, ◌≤◌, ◌++◌, length, IfOk, OnOk};
ghost use Rattle.closed_walks.specs.Graph.{edges_at};
ghost use Rattle.closed_walks.specs.Region.{IsFlowGraph};
ghost use Rattle.region_tree.specs.Scan.{IsScan, IsOrder, Discovers, Finds, leaving, unseen};

use closed_walks::{Digraph, edges_of_nodes};
use df_sequence::NoMemory;
use std::alloc::Global;

/// All edges, each once, in an order in which each comes after edges that lead from the start to where it begins: the edges that
/// begin at a node follow one another, node by node, in the order in which a search finds the nodes.
pub(crate) fn scan(alloc: Global, g: &Digraph) -> Result<Vec<u32>, NoMemory>
    requires { IsFlowGraph g.now }
    ensures { IfOk result (λ edges. IsScan g.now edges.items) }
{
    edges_of_nodes();
    let mut seen = vec![in alloc; false; g.nodes() as usize]?;
    seen[0] = true;
    let mut order = vec![in alloc; 0]?;
    let mut edges = Vec::new(alloc);
    let mut done = 0;
    while done < order.len() {
        leave(g, order[done], &mut edges, &mut seen, &mut order)?;
        done += 1;
    }
    Ok(edges)
}

/// Puts the edges that begin at the node after the others, and the nodes at which they end after the order, where they aren't
/// in it.
fn leave(
    g: &Digraph,
    node: u32,
    edges: &mut Vec<u32>,
    seen: &mut Vec<bool>,
    order: &mut Vec<u32>,
) -> Result<(), NoMemory>
    requires node { node < g.now.nodes }
    requires order { IsOrder g.now order.old.items seen.old.items }
    ensures edges { OnOk result (edges.new.items ≡ edges.old.items ++ leaving g.now node (edges_at g.now node)) }
    ensures order { OnOk result (IsOrder g.now order.new.items seen.new.items) }
    ensures found { OnOk result (Discovers g.now (leaving g.now node (edges_at g.now node)) order.old.items order.new.items) }
    ensures work { OnOk result (unseen seen.new.items + length order.new.items ≤ unseen seen.old.items + length order.old.items) }
{
    edges_of_nodes();
    for e in g.edges_at(node) {
        if g.from(*e) == node {
            edges.push(*e)?;
            find(g.to(*e), seen, order)?;
        }
    }
    Ok(())
}

/// Puts the node after the order, where it isn't in it.
fn find(node: u32, seen: &mut Vec<bool>, order: &mut Vec<u32>) -> Result<(), NoMemory>
    requires { node < length seen.old.items }
    ensures { OnOk result (Finds node seen.old.items order.old.items seen.new.items order.new.items) }
{
    if !seen[node as usize] {
        seen[node as usize] = true;
        order.push(node)?;
    }
    Ok(())
}
