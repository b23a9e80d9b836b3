//! Whether statements wait for one another at all.

ghost use Rattle.std.specs.Prelude.{◌≡◌, ◌↔◌, ◌≤◌, ◌^◌, true, IfOk, Some, length, slice_get};
ghost use Rattle.std.specs.List.{list_any};
ghost use Rattle.graph_dependences.specs.Waiting.{Waits, WaitsAt, WaitsFor, WaitsOn, all_ways, is_of as spec_is_of};

use crate::all_ways::all_ways;
use crate::fault::DependenceFault;
use crate::joined::{Reached, steps_of};
use crate::kinds::Passing;
use crate::nodes::{is_operation, text_line};
use crate::ways::Way;
use printed_graphs::{Node, PrintedFlow, PrintedGraph};
use std::alloc::Global;

/// How a statement waits for another.
#[derive(Clone, Copy, Debug, PartialEq, Eq)]
pub enum Wait {
    /// It doesn't: no list of ways, values and decisions leads to it from the other.
    Never,
    /// Only from one round to a later one of a loop that has both.
    Carried,
    /// Within a round too.
    Always,
}

/// Whether an operation of the statement that begins at this line of the text is in the graph.
pub fn has_operations(graph: &PrintedGraph, flow: &PrintedFlow, line: u32) -> bool
    ensures { result ≡ list_any (spec_is_of flow.now line) graph.now.nodes.items }
{
    graph
        .nodes
        .as_slice()
        .iter()
        .any(|node| is_of(flow, line, node))
}

/// How the statement that begins at the second line of the text waits for that at the first.
///
/// # Errors
///
/// `TooLarge` where the graph has more than 2^28 nodes or token lines, or values and ways of nodes that it lacks.
pub fn waits(
    alloc: Global,
    graph: &PrintedGraph,
    flow: &PrintedFlow,
    first: u32,
    second: u32,
) -> Result<Wait, DependenceFault>
    ensures { IfOk result (Waits graph.now flow.now first second) }
{
    let ways = all_ways(alloc, graph, flow)?;
    let over = Over {
        graph,
        flow,
        ways: ways.as_slice(),
        first,
        second,
        turned: false,
    };
    if waits_for(alloc, over)? {
        return Ok(Wait::Always);
    }
    let turned = Over {
        turned: true,
        ..over
    };
    if waits_for(alloc, turned)? {
        Ok(Wait::Carried)
    } else {
        Ok(Wait::Never)
    }
}

/// Over what statements wait: over ways, from the statement at one line of the text to that at another, and over a turn or over none.
#[derive(Clone, Copy)]
pub struct Over<'a> {
    graph: &'a PrintedGraph,
    flow: &'a PrintedFlow,
    ways: &'a [Way],
    first: u32,
    second: u32,
    turned: bool,
}

// Whether a node is an operation of the statement at this line.
fn is_of(flow: &PrintedFlow, line: u32, node: &Node) -> bool
    ensures { result ≡ spec_is_of flow.now line node.now }
{
    is_operation(node) && text_line(flow, node) == line
}

// Whether the second statement waits for the first.
fn waits_for(alloc: Global, over: Over<'_>) -> Result<bool, DependenceFault>
    requires ways { over.ways.now ≡ all_ways over.graph.now over.flow.now }
    requires few { length over.graph.now.nodes.items ≤ 2 ^ 28 }
    ensures { IfOk result (λ waits. (waits ≡ true) ↔ WaitsFor over.entry.graph.now over.entry.flow.now over.entry.first over.entry.second over.entry.turned) }
{
    let mut first = 0u32;
    for one in over.graph.nodes.as_slice() {
        if waits_on(alloc, over, first, one)? {
            return Ok(true);
        }
        first += 1;
    }
    Ok(false)
}

// Whether the second statement waits for a node, if that is an operation of the first.
fn waits_on(alloc: Global, over: Over<'_>, first: u32, one: &Node) -> Result<bool, DependenceFault>
    requires ways { over.ways.now ≡ all_ways over.graph.now over.flow.now }
    requires few { length over.graph.now.nodes.items ≤ 2 ^ 28 }
    requires one { slice_get over.graph.now.nodes.items first ≡ Some one.now }
    ensures { IfOk result (λ waits. (waits ≡ true) ↔ WaitsOn over.entry.graph.now over.entry.flow.now over.entry.first over.entry.second over.entry.turned first) }
{
    if !is_of(over.flow, over.first, one) {
        return Ok(false);
    }
    let mut second = 0u32;
    for two in over.graph.nodes.as_slice() {
        if waits_at(alloc, over, first, one, second, two)? {
            return Ok(true);
        }
        second += 1;
    }
    Ok(false)
}

// Whether a node waits for an operation of the first statement, if it is one of the second.
fn waits_at(
    alloc: Global,
    over: Over<'_>,
    first: u32,
    one: &Node,
    second: u32,
    two: &Node,
) -> Result<bool, DependenceFault>
    requires ways { over.ways.now ≡ all_ways over.graph.now over.flow.now }
    requires one { slice_get over.graph.now.nodes.items first ≡ Some one.now }
    requires two { slice_get over.graph.now.nodes.items second ≡ Some two.now }
    requires of_first { spec_is_of over.flow.now over.first one.now ≡ true }
    ensures { IfOk result (λ waits. (waits ≡ true) ↔ WaitsAt over.entry.graph.now over.entry.flow.now over.entry.first over.entry.second over.entry.turned first second) }
{
    if !is_of(over.flow, over.second, two) {
        return Ok(false);
    }
    let (a, b) = (one.piece(), two.piece());
    let steps = steps_of(alloc, a.min(b), a.max(b), over.ways)?;
    let reached = Reached::from(alloc, over.graph, Passing::All, 0, steps.as_slice(), first)?;
    Ok(reached.has(second, over.turned))
}
