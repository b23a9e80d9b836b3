//! From which nodes a node is reached: a search against the edges.

ghost use Rattle.std.specs.Prelude.{◌≡◌, ◌+◌, ◌*◌, ◌<◌, ◌≤◌, ◌↔◌, ◌⊎◌, ℕ, true, false, length, slice_index_or, OnOk};
ghost use Rattle.closed_walks.specs.Graph.{edge_count, from, to};
ghost use Rattle.closed_walks.specs.Walk.{Reach, no_edge};
ghost use Rattle.closed_walks.specs.Search.{is_visited, blanks, Leads, IsOpen, Nothing};
ghost use Rattle.closed_walks.specs.Reversed.{turned};

use crate::Digraph;
use df_sequence::NoMemory;
use std::alloc::Global;

/// Marks the nodes from which the node is reached, beside those that are marked. The marks have to be closed, and stay so: where
/// a node is marked, so is each from which an edge leads to it. Only the edges of newly marked nodes are looked at, so that
/// many calls for the same marks take no longer than one. After an error no more is known of the marks than how many there are.
pub fn mark_back(
    alloc: Global,
    g: &Digraph,
    node: u32,
    marks: &mut Vec<bool>,
) -> Result<(), NoMemory>
    requires node { node < g.now.nodes }
    requires nodes { length marks.old.items ≡ g.now.nodes }
    requires closed { (e : ℕ) → e < edge_count g.now → slice_index_or marks.old.items (to g.now e) false ≡ true → slice_index_or marks.old.items (from g.now e) false ≡ true }
    ensures nodes { length marks.new.items ≡ length marks.old.items }
    ensures marked { OnOk result ((v : ℕ) → (slice_index_or marks.new.items v false ≡ true) ↔ ((slice_index_or marks.old.items v false ≡ true) ⊎ Reach g.now no_edge v node)) }
    ensures closed { OnOk result ((e : ℕ) → e < edge_count g.now → slice_index_or marks.new.items (to g.now e) false ≡ true → slice_index_or marks.new.items (from g.now e) false ≡ true) }
{
    if marks[node as usize] {
        return Ok(());
    }
    let mut frontier = vec![in alloc; node]?;
    marks[node as usize] = true;
    while let Some(next) = frontier.pop() {
        mark_before(g, next, marks, &mut frontier)?;
    }
    Ok(())
}

/// Marks the nodes from which edges lead to the node.
fn mark_before(
    g: &Digraph,
    node: u32,
    marks: &mut Vec<bool>,
    frontier: &mut Vec<u32>,
) -> Result<(), NoMemory>
    requires node { node < g.now.nodes }
    requires here { is_visited marks.old.items node ≡ true }
    requires leaves { IsOpen (turned g.now) (edge_count g.now) marks.old.items frontier.old.items (λ e. from (turned g.now) e ≡ node) }
    ensures nodes { length marks.new.items ≡ length marks.old.items }
    ensures leaves { OnOk result (IsOpen (turned g.now) (edge_count g.now) marks.new.items frontier.new.items Nothing) }
    ensures grown { OnOk result ((v : ℕ) → is_visited marks.new.items v ≡ true → (is_visited marks.old.items v ≡ true) ⊎ Leads (turned g.now) (edge_count g.now) node v) }
    ensures kept { OnOk result ((v : ℕ) → is_visited marks.old.items v ≡ true → is_visited marks.new.items v ≡ true) }
    ensures work { OnOk result (2 * blanks marks.new.items + length frontier.new.items ≤ 2 * blanks marks.old.items + length frontier.old.items) }
{
    for e in g.edges_at(node) {
        let from = g.from(*e);
        if g.to(*e) == node && !marks[from as usize] {
            marks[from as usize] = true;
            frontier.push(from)?;
        }
    }
    Ok(())
}
