ghost use Rattle.std.specs.Prelude.{◌↔◌, ◌≤◌, ◌^◌, Contains, IfOk, OnOk, length};
ghost use Rattle.std.specs.List.Sorted.{IsStrictlySortedBy};
ghost use Rattle.graph_dependences.specs.Added.{Adds};
ghost use Rattle.graph_dependences.specs.Dependences.{AreDependences, DependsBy, IfTold};
ghost use Rattle.graph_dependences.specs.InOrder.{in_order};

use crate::control::add_controls;
use crate::fault::DependenceFault;
use crate::kinds::Kind;
use crate::nodes::is_output;
use crate::pairs::{By, add_on};
use crate::ways::ways_of;
use printed_graphs::{PrintedFlow, PrintedGraph};
use std::alloc::{AllocError, Global};

/// A dependence of a statement on one that has to come before it. Statements are told by the lines of the text at which they begin, counted
/// from 1.
#[derive(Clone, Copy, Debug, PartialEq, Eq, PartialOrd, Ord)]
pub struct Dependence {
    /// The statement that comes first.
    pub from: u32,
    /// The one that depends on it.
    pub to: u32,
    /// What the dependence is.
    pub kind: Kind,
    /// The token line by which it depends, if it is no control dependence.
    pub token_line: Option<u32>,
    /// Whether a loop that has both carries it from one of its rounds to a later one.
    pub is_carried: bool,
}

// The most nodes and the most token lines of a dataflow graph.
const MOST_NODES: usize = 268_435_456;

/// All dependences from statement to statement, each once, in order.
///
/// # Errors
///
/// `TooLarge` where the graph has more than 2^28 nodes or token lines, or values and ways of nodes that it lacks.
pub fn dependences(
    alloc: Global,
    graph: &PrintedGraph,
    flow: &PrintedFlow,
) -> Result<Vec<Dependence>, DependenceFault>
    ensures { IfOk result (λ all. AreDependences graph.now flow.now all.items) }
{
    if graph.nodes.len() > MOST_NODES || graph.lines.len() > MOST_NODES {
        return Err(DependenceFault::TooLarge);
    }
    let mut all = Vec::new(alloc);
    for line in 0..graph.lines.len() as u32 {
        add_by_line(alloc, graph, flow, line, &mut all)?;
    }
    add_controls(alloc, flow, &mut all)?;
    put_in_order(&mut all)?;
    Ok(all)
}

// Puts dependences in order, and leaves each once.
fn put_in_order(all: &mut Vec<Dependence>) -> Result<(), AllocError>
    ensures ordered { OnOk result (IsStrictlySortedBy in_order all.new.items) }
    ensures same { OnOk result ((d : Dependence) → Contains all.new.items d ↔ Contains all.old.items d) }
{
    all.sort()?;
    all.dedup();
    Ok(())
}

// Adds the dependences by a token line.
fn add_by_line(
    alloc: Global,
    graph: &PrintedGraph,
    flow: &PrintedFlow,
    line: u32,
    all: &mut Vec<Dependence>,
) -> Result<(), DependenceFault>
    requires { length graph.now.nodes.items ≤ 2 ^ 28 }
    ensures { OnOk result (Adds all.old.items all.new.items (DependsBy graph.now flow.now line)) }
{
    let ways = ways_of(alloc, graph, flow, line)?;
    let by = By {
        graph,
        flow,
        ways: ways.as_slice(),
        line,
        is_output: is_output(graph, line),
    };
    let mut first = 0u32;
    for one in graph.nodes.as_slice() {
        add_on(alloc, by, first, one, all)?;
        first += 1;
    }
    Ok(())
}

/// Adds a dependence if it is one, unless it is one of a statement on itself that no loop carries.
pub fn add_if(
    is_one: bool,
    dependence: Dependence,
    all: &mut Vec<Dependence>,
) -> Result<(), DependenceFault>
    ensures { OnOk result (Adds all.old.items all.new.items (IfTold is_one dependence)) }
{
    if is_one && (dependence.from != dependence.to || dependence.is_carried) {
        all.push(dependence)?;
    }
    Ok(())
}
