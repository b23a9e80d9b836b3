//! Dependences of nodes on nodes.

ghost use Rattle.std.specs.Prelude.{◌≡◌, ◌≤◌, ◌^◌, true, IfOk, IfSome, OnOk, Some, length, slice_get};
ghost use Rattle.graph_dependences.specs.Added.{Adds};
ghost use Rattle.graph_dependences.specs.By.{IsBy, IsKnown};
ghost use Rattle.graph_dependences.specs.Dependences.{DependsAt, DependsOn, steps_between};

use crate::dependence::{Dependence, add_if};
use crate::fault::DependenceFault;
use crate::joined::{Reached, Step, steps_of};
use crate::kinds::Passing;
use crate::nodes::{kind_of, text_line};
use crate::ways::Way;
use printed_graphs::{Node, PrintedFlow, PrintedGraph};
use std::alloc::Global;

/// By what dependences are looked for.
#[derive(Clone, Copy)]
pub struct By<'a> {
    /// The dataflow graph.
    pub graph: &'a PrintedGraph,
    /// The flow graph.
    pub flow: &'a PrintedFlow,
    /// The ways of the token line.
    pub ways: &'a [Way],
    /// The token line.
    pub line: u32,
    /// Whether that is the line of output.
    pub is_output: bool,
}

/// What is reached from a node along steps.
#[derive(Drop)]
pub struct Known {
    steps: Vec<Step>,
    reached: Reached,
}

/// Adds the dependences on a node.
pub fn add_on(
    alloc: Global,
    by: By<'_>,
    first: u32,
    one: &Node,
    all: &mut Vec<Dependence>,
) -> Result<(), DependenceFault>
    requires by { IsBy by }
    requires few { length by.graph.now.nodes.items ≤ 2 ^ 28 }
    requires one { slice_get by.graph.now.nodes.items first ≡ Some one.now }
    ensures { OnOk result (Adds all.old.items all.new.items (DependsOn by.entry.graph.now by.entry.flow.now by.entry.line first)) }
{
    let mut known = None;
    let mut second = 0u32;
    for two in by.graph.nodes.as_slice() {
        known = add_between(alloc, by, first, one, second, two, known, all)?;
        second += 1;
    }
    Ok(())
}

// Adds the dependences of a node on another, and answers what is known of the steps from that.
fn add_between(
    alloc: Global,
    by: By<'_>,
    first: u32,
    one: &Node,
    second: u32,
    two: &Node,
    known: Option<Known>,
    all: &mut Vec<Dependence>,
) -> Result<Option<Known>, DependenceFault>
    requires by { IsBy by }
    requires one { slice_get by.graph.now.nodes.items first ≡ Some one.now }
    requires two { slice_get by.graph.now.nodes.items second ≡ Some two.now }
    requires known { IfSome known (IsKnown by first) }
    ensures known { IfOk result (λ known. IfSome known (IsKnown by.entry first)) }
    ensures added { OnOk result (Adds all.old.items all.new.items (DependsAt by.entry.graph.now by.entry.flow.now by.entry.line first second)) }
{
    let Some(kind) = kind_of(by.is_output, by.line, one, two) else {
        return Ok(known);
    };
    let known = known_between(alloc, by, first, one, two, known)?;
    let from = text_line(by.flow, one);
    let to = text_line(by.flow, two);
    let within = Dependence {
        from,
        to,
        kind,
        token_line: Some(by.line),
        is_carried: false,
    };
    add_if(known.reached.has(second, false), within, all)?;
    let carried = Dependence {
        is_carried: true,
        ..within
    };
    add_if(known.reached.has(second, true), carried, all)?;
    Ok(Some(known))
}

// What is reached from a node along steps that turn round loops with it and another node. Most often that is what is known.
fn known_between(
    alloc: Global,
    by: By<'_>,
    first: u32,
    one: &Node,
    two: &Node,
    known: Option<Known>,
) -> Result<Known, DependenceFault>
    requires { IfSome known (IsKnown by first) }
    ensures known { IfOk result (IsKnown by.entry first) }
    ensures steps { IfOk result (λ known. known.steps.items ≡ steps_between one.now two.now by.entry.ways.now) }
{
    let (a, b) = (one.piece(), two.piece());
    let steps = steps_of(alloc, a.min(b), a.max(b), by.ways)?;
    if let Some(known) = known {
        if are_same(known.steps.as_slice(), steps.as_slice()) {
            return Ok(known);
        }
    }
    let reached = Reached::from(
        alloc,
        by.graph,
        Passing::Readers,
        by.line,
        steps.as_slice(),
        first,
    )?;
    Ok(Known { steps, reached })
}

// Whether these are the same steps.
fn are_same(some: &[Step], others: &[Step]) -> bool
    ensures { result ≡ true → some.now ≡ others.now }
{
    if some.len() != others.len() {
        return false;
    }
    for k in 0..some.len() {
        if !is_same(some[k], others[k]) {
            return false;
        }
    }
    true
}

// Whether this is the same step.
fn is_same(a: Step, b: Step) -> bool
    ensures { result ≡ true → a ≡ b }
{
    a.from == b.from && a.to == b.to && a.turns == b.turns && a.carrier == b.carrier
}
