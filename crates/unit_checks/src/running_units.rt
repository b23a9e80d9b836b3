//! Units that run.
ghost use Rattle.std.specs.Prelude.{◌≡◌, ◌<◌, ◌^◌, ℕ, List, length, bytes_eq, false, IfOk, slice_index_or};
ghost use Rattle.indexmap.specs.IndexMap.{get};
ghost use Rattle.closed_walks.specs.Graph.{edge_count};
ghost use Rattle.program_units.specs.Units.{runs};
ghost use Rattle.program_units.specs.CallTable.{unit_named};
ghost use Rattle.unit_checks.specs.CallGraph.{call_graph as call_graph_of};

use crate::recursion::call_graph;
use closed_walks::reached_from;
use df_sequence::NoMemory;
use f77_tree::Name;
use indexmap::IndexMap;
use program_units::Units;
use std::alloc::Global;

/// For each unit whether it runs: the main program, and the units that it calls through any number of calls. It takes a time
/// linear in the statements.
///
/// # Errors
///
/// Where there is no memory.
pub fn running(
    alloc: Global,
    us: &Units,
    index: &IndexMap<Name, usize>,
) -> Result<Vec<bool>, NoMemory>
    requires index { (name : List ℕ) → get bytes_eq index.now name ≡ unit_named us.now name }
    requires units { length us.now < 2 ^ 31 }
    requires room { edge_count (call_graph_of us.now) < 2 ^ 31 }
    ensures count { IfOk result (λ marks. length us.now < length marks.items) }
    ensures told { IfOk result (λ marks. (k : ℕ) → k < length us.now → slice_index_or marks.items k false ≡ runs us.now k) }
{
    let graph = call_graph(alloc, us, index)?;
    reached_from(alloc, &graph, 0)
}
