//! Subroutines that call themselves.
ghost use Rattle.std.specs.Prelude.{◌≡◌, ◌+◌, ◌<◌, ◌≤◌, ◌++◌, ◌^◌, ℕ, List, length, replicate, bytes_eq, false, IfOk, OnOk, slice_get, slice_index_or};
ghost use Rattle.std.specs.List.{range_with_len};
ghost use Rattle.indexmap.specs.IndexMap.{get};
ghost use Rattle.closed_walks.specs.Graph.{edge_count};
ghost use Rattle.layout_rules.specs.Faults.{first_answer};
ghost use Rattle.layout_rules.specs.Layout.{line_or_none};
ghost use Rattle.program_units.specs.Units.{call_by, reaches, unit_of as unit_of_name};
ghost use Rattle.program_units.specs.CallTable.{callee_of, callees, unit_named};
ghost use Rattle.unit_checks.specs.CallGraph.{call_graph as call_graph_of, edges_from};
ghost use Rattle.program_units.specs.Refusals.{recursion};

use closed_walks::{Digraph, on_cycles};
use df_sequence::NoMemory;
use f77_tree::{Labelled, Name, Stmt};
use indexmap::IndexMap;
use program_units::{Units, inner_of, unit_of};
use std::alloc::Global;

/// The first line of the first unit that calls itself, through any number of calls. It takes a time linear in the statements.
///
/// # Errors
///
/// Where there is no memory.
pub fn first_recursion(
    alloc: Global,
    us: &Units,
    index: &IndexMap<Name, usize>,
) -> Result<Option<u32>, NoMemory>
    requires index { (name : List ℕ) → get bytes_eq index.now name ≡ unit_named us.now name }
    requires units { length us.now < 2 ^ 31 }
    requires room { edge_count (call_graph_of us.now) < 2 ^ 31 }
    ensures { IfOk result (λ line. line ≡ first_answer (recursion us.now) (range_with_len 0 (length us.now))) }
{
    let marks = self_calling(alloc, us, index)?;
    Ok(first_marked(us, &marks))
}

// For each unit whether it calls itself.
fn self_calling(
    alloc: Global,
    us: &Units,
    index: &IndexMap<Name, usize>,
) -> Result<Vec<bool>, NoMemory>
    requires index { (name : List ℕ) → get bytes_eq index.now name ≡ unit_named us.now name }
    requires units { length us.now < 2 ^ 31 }
    requires room { edge_count (call_graph_of us.now) < 2 ^ 31 }
    ensures count { IfOk result (λ marks. length us.now < length marks.items) }
    ensures told { IfOk result (λ marks. (k : ℕ) → k < length us.now → slice_index_or marks.items k false ≡ reaches us.now (length us.now) k k) }
{
    let graph = call_graph(alloc, us, index)?;
    let none = no_marks(alloc, graph.edges() as usize)?;
    on_cycles(alloc, &graph, &none)
}

// No marks, for so many.
fn no_marks(alloc: Global, count: usize) -> Result<Vec<bool>, NoMemory>
    ensures { IfOk result (λ marks. marks.items ≡ replicate count false) }
{
    Ok(vec![in alloc; false; count]?)
}

// The first line of the first unit that is marked.
fn first_marked(us: &Units, marks: &[bool]) -> Option<u32>
    requires count { length us.now < length marks.now }
    requires told { (k : ℕ) → k < length us.now → slice_index_or marks.now k false ≡ reaches us.now (length us.now) k k }
    ensures { result ≡ first_answer (recursion us.now) (range_with_len 0 (length us.now)) }
{
    for k in 0..us.len() {
        if marks[k] {
            return Some(line_of_first(us.at(k)));
        }
    }
    None
}

/// The line of the first statement, or 0 where there is none.
pub(crate) fn line_of_first(unit: &[Labelled]) -> u32
    ensures { result ≡ line_or_none (slice_get unit.now 0) }
{
    match unit.first() {
        Some(s) => s.line,
        None => 0,
    }
}

/// The graph of units and their CALLs.
pub(crate) fn call_graph(
    alloc: Global,
    us: &Units,
    index: &IndexMap<Name, usize>,
) -> Result<Digraph, NoMemory>
    requires index { (name : List ℕ) → get bytes_eq index.now name ≡ unit_named us.now name }
    requires units { length us.now < 2 ^ 31 }
    requires room { edge_count (call_graph_of us.now) < 2 ^ 31 }
    ensures { IfOk result (λ graph. graph ≡ call_graph_of us.now) }
{
    let mut graph = Digraph::new(alloc, us.len() as u32 + 1)?;
    for k in 0..us.len() {
        add_calls(alloc, &mut graph, us, index, k as u32, us.at(k))?;
    }
    Ok(graph)
}

// Adds an edge for each CALL of the unit at the index k.
fn add_calls(
    alloc: Global,
    graph: &mut Digraph,
    us: &Units,
    index: &IndexMap<Name, usize>,
    k: u32,
    unit: &[Labelled],
) -> Result<(), NoMemory>
    requires index { (name : List ℕ) → get bytes_eq index.now name ≡ unit_named us.now name }
    requires nodes { graph.old.nodes ≡ length us.now + 1 }
    requires units { length us.now < 2 ^ 31 }
    requires node { k < length us.now }
    requires room { edge_count graph.old + length (callees us.now unit.now) < 2 ^ 31 }
    ensures { OnOk result (graph.new ≡ record { nodes = graph.old.nodes; edges = graph.old.edges ++ edges_from k (callees us.now unit.now) }) }
{
    for s in unit {
        add_call(alloc, graph, us, index, k, inner_of(&s.stmt))?;
    }
    Ok(())
}

// Adds an edge if the statement is a CALL.
fn add_call(
    alloc: Global,
    graph: &mut Digraph,
    us: &Units,
    index: &IndexMap<Name, usize>,
    k: u32,
    stmt: &Stmt,
) -> Result<(), NoMemory>
    requires index { (name : List ℕ) → get bytes_eq index.now name ≡ unit_named us.now name }
    requires nodes { graph.old.nodes ≡ length us.now + 1 }
    requires units { length us.now < 2 ^ 31 }
    requires node { k < length us.now }
    requires room { edge_count graph.old + length (callee_of us.now (call_by stmt.now)) < 2 ^ 31 }
    ensures { OnOk result (graph.new ≡ record { nodes = graph.old.nodes; edges = graph.old.edges ++ edges_from k (callee_of us.now (call_by stmt.now)) }) }
{
    if let Stmt::CallTo(name, _) = stmt {
        graph.add_edge(alloc, k, node_of(us, index, name))?;
    }
    Ok(())
}

// The node of the first unit with a SUBROUTINE of this name, or the last node.
#[tactic(auto, using(crate::proofs::GrowingGraph::unit_of_few))]
fn node_of(us: &Units, index: &IndexMap<Name, usize>, name: &Name) -> u32
    requires index { (name : List ℕ) → get bytes_eq index.now name ≡ unit_named us.now name }
    requires units { length us.now < 2 ^ 31 }
    ensures index { result ≡ unit_of_name us.now name.now }
    ensures few { result ≤ length us.now }
{
    unit_of(us, index, name) as u32
}
