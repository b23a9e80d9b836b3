//! Which nodes lie on cycles that avoid some edges.

ghost use Rattle.std.specs.Prelude.{◌≡◌, ◌<◌, ◌↔◌, ℕ, true, false, length, slice_index_or, IfOk};
ghost use Rattle.closed_walks.specs.Graph.{edge_count};
ghost use Rattle.closed_walks.specs.Cycling.{IsOnCycle};

use crate::Digraph;
use crate::component_walk::ComponentWalk;
use df_sequence::NoMemory;
use std::alloc::Global;

/// Which nodes lie on cycles without the avoided edges: for each node whether some edges that aren't avoided, at least one, lead
/// from it back to it. It takes a time linear in the nodes and edges.
pub fn on_cycles(alloc: Global, g: &Digraph, avoided: &[bool]) -> Result<Vec<bool>, NoMemory>
    requires { length avoided.now ≡ edge_count g.now }
    ensures count { IfOk result (λ marks. length marks.items ≡ g.now.nodes) }
    ensures cycle { IfOk result (λ marks. (node : ℕ) → node < g.now.nodes → (slice_index_or marks.items node false ≡ true) ↔ IsOnCycle g.now (λ e. slice_index_or avoided.now e false) node) }
{
    let mut walk = ComponentWalk::begin(alloc, g)?;
    for root in 0..g.nodes() {
        walk.walk_from(g, avoided, root)?;
    }
    Ok(walk.marks)
}
