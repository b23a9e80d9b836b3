//! Ways of token lines, joined at the nodes that they lead past.

ghost use Rattle.std.specs.Prelude.{◌≡◌, ◌≤◌, ◌+◌, ◌*◌, ◌^◌, ◌++◌, ◌∷◌, [], ◌↔◌, ℕ, false, true, OnOk, IfOk, length, slice_index_or};
ghost use Rattle.closed_walks.specs.Walk.{Reach, no_edge};
ghost use Rattle.graph_dependences.specs.Joined.{coming as spec_coming, edges_by, fired as spec_fired, hop_turns as spec_hop_turns, joined as spec_joined, leaving as spec_leaving, node_edges, passing_edges, step_edges, step_of as spec_step_of, steps_of as spec_steps_of};

use crate::fault::DependenceFault;
use crate::kinds::Passing;
use crate::nodes::lets_pass;
use crate::ways::{Carrier, Hop, Way};
use closed_walks::{Digraph, reached_from};
use printed_graphs::{Node, PrintedGraph};
use std::alloc::Global;

// The most nodes of a dataflow graph, and the most edges of a directed graph.
const MOST_NODES: usize = 268_435_456;

const MOST_EDGES: u32 = 2_147_483_647;

/// A step along a way.
#[derive(Clone, Copy, Debug, PartialEq, Eq)]
pub struct Step {
    /// The node that passes a line on.
    pub from: u32,
    /// The node to which it comes.
    pub to: u32,
    /// Whether it turns.
    pub turns: bool,
    /// What goes along it.
    pub carrier: Carrier,
}

/// The steps along ways, which turn where they lead from no earlier than the last piece to no later than the first.
pub fn steps_of(
    alloc: Global,
    first: u32,
    last: u32,
    ways: &[Way],
) -> Result<Vec<Step>, DependenceFault>
    ensures { IfOk result (λ steps. steps.items ≡ spec_steps_of first last ways.now) }
{
    let mut steps = Vec::with_capacity(alloc, ways.len())?;
    for way in ways {
        steps.push(step_of(first, last, *way))?;
    }
    Ok(steps)
}

// The step along a way.
fn step_of(first: u32, last: u32, way: Way) -> Step
    ensures { result ≡ spec_step_of first last way }
{
    Step {
        from: way.from,
        to: way.to,
        turns: hop_turns(first, last, way.hop),
        carrier: way.carrier,
    }
}

// Whether a way turns.
fn hop_turns(first: u32, last: u32, hop: Option<Hop>) -> bool
    ensures { result ≡ spec_hop_turns first last hop }
{
    match hop {
        Some(hop) => hop.ends <= first && last <= hop.begins,
        None => false,
    }
}

/// What is reached along steps from a node.
#[derive(Drop)]
pub struct Reached {
    // For each place of the graph whether it is reached.
    marks: Vec<bool>,
}

impl Reached {
    /// Follows steps from a node past such nodes alone.
    pub fn from(
        alloc: Global,
        graph: &PrintedGraph,
        passing: Passing,
        line: u32,
        steps: &[Step],
        from: u32,
    ) -> Result<Reached, DependenceFault>
        ensures { IfOk result (λ reached. (v : ℕ) → (slice_index_or reached.marks.items v false ≡ true) ↔ Reach (spec_joined graph.now passing line steps.now) no_edge (spec_fired from false) v) }
    {
        let joined = joined(alloc, graph, passing, line, steps)?;
        let start = fired(from, false);
        if start >= u64::from(joined.nodes()) {
            return Err(DependenceFault::TooLarge);
        }
        let marks = reached_from(alloc, &joined, start as u32)?;
        Ok(Reached { marks })
    }

    /// Whether a node is reached, over a turn or over none.
    pub fn has(&self, node: u32, turned: bool) -> bool
        ensures { result ≡ slice_index_or self.now.marks.items (spec_coming node turned) false }
    {
        match self.marks.get(coming(node, turned) as usize) {
            Some(mark) => *mark,
            None => false,
        }
    }
}

// The place of a node as lines come to it.
fn coming(node: u32, turned: bool) -> u64
    ensures { result ≡ spec_coming node turned }
{
    u64::from(node) * 6 + if turned { 1 } else { 0 }
}

// The place of a node as it has fired.
fn fired(node: u32, turned: bool) -> u64
    ensures { result ≡ spec_fired node turned }
{
    u64::from(node) * 6 + if turned { 3 } else { 2 }
}

// The place of a node as lines go on from it.
fn leaving(node: u32, turned: bool) -> u64
    ensures { result ≡ spec_leaving node turned }
{
    u64::from(node) * 6 + if turned { 5 } else { 4 }
}

// The steps, joined at the nodes that they lead past.
fn joined(
    alloc: Global,
    graph: &PrintedGraph,
    passing: Passing,
    line: u32,
    steps: &[Step],
) -> Result<Digraph, DependenceFault>
    ensures { IfOk result (λ g. g ≡ spec_joined graph.now passing line steps.now) }
{
    let nodes = graph.nodes.as_slice();
    if nodes.len() > MOST_NODES {
        return Err(DependenceFault::TooLarge);
    }
    let mut joined = Digraph::new(alloc, nodes.len() as u32 * 6)?;
    add_steps(alloc, steps, &mut joined)?;
    add_passing(alloc, passing, line, nodes, &mut joined)?;
    Ok(joined)
}

// Adds edges for steps.
fn add_steps(alloc: Global, steps: &[Step], joined: &mut Digraph) -> Result<(), DependenceFault>
    ensures nodes { OnOk result (joined.new.nodes ≡ joined.old.nodes) }
    ensures edges { OnOk result (joined.new.edges ≡ joined.old.edges ++ step_edges steps.now) }
{
    for step in steps {
        add_step(alloc, *step, joined)?;
    }
    Ok(())
}

// Adds edges for a step.
fn add_step(alloc: Global, step: Step, joined: &mut Digraph) -> Result<(), DependenceFault>
    ensures nodes { OnOk result (joined.new.nodes ≡ joined.old.nodes) }
    ensures edges { OnOk result (joined.new.edges ≡ joined.old.edges ++ edges_by step.carrier step) }
{
    let Step {
        from,
        to,
        turns,
        carrier,
    } = step;
    let (to_coming, to_coming_turned) = (coming(to, turns), coming(to, true));
    match carrier {
        Carrier::Line => {
            add_edge(alloc, leaving(from, false), to_coming, joined)?;
            add_edge(alloc, leaving(from, true), to_coming_turned, joined)
        }
        Carrier::Value => {
            add_edge(alloc, fired(from, false), to_coming, joined)?;
            add_edge(alloc, fired(from, true), to_coming_turned, joined)
        }
        Carrier::Loads => {
            add_edge(alloc, coming(from, false), to_coming, joined)?;
            add_edge(alloc, coming(from, true), to_coming_turned, joined)?;
            add_edge(alloc, leaving(from, false), leaving(to, turns), joined)?;
            add_edge(alloc, leaving(from, true), leaving(to, true), joined)
        }
    }
}

// Adds edges past nodes.
fn add_passing(
    alloc: Global,
    passing: Passing,
    line: u32,
    nodes: &[Node],
    joined: &mut Digraph,
) -> Result<(), DependenceFault>
    requires { length nodes.now ≤ 2 ^ 28 }
    ensures nodes { OnOk result (joined.new.nodes ≡ joined.old.nodes) }
    ensures edges { OnOk result (joined.new.edges ≡ joined.old.edges ++ passing_edges passing line 0 nodes.now) }
{
    let mut number = 0u32;
    for node in nodes {
        add_node(alloc, lets_pass(passing, line, node), number, joined)?;
        number += 1;
    }
    Ok(())
}

// Adds edges past a node.
fn add_node(
    alloc: Global,
    passes: bool,
    node: u32,
    joined: &mut Digraph,
) -> Result<(), DependenceFault>
    ensures nodes { OnOk result (joined.new.nodes ≡ joined.old.nodes) }
    ensures edges { OnOk result (joined.new.edges ≡ joined.old.edges ++ node_edges passes node) }
{
    add_edge(alloc, fired(node, false), leaving(node, false), joined)?;
    add_edge(alloc, fired(node, true), leaving(node, true), joined)?;
    if passes {
        add_edge(alloc, coming(node, false), fired(node, false), joined)?;
        add_edge(alloc, coming(node, true), fired(node, true), joined)?;
    }
    Ok(())
}

/// Adds an edge.
pub fn add_edge(
    alloc: Global,
    from: u64,
    to: u64,
    joined: &mut Digraph,
) -> Result<(), DependenceFault>
    ensures nodes { OnOk result (joined.new.nodes ≡ joined.old.nodes) }
    ensures edges { OnOk result (joined.new.edges ≡ joined.old.edges ++ (from, to) ∷ []) }
{
    let nodes = u64::from(joined.nodes());
    if from >= nodes || to >= nodes || joined.edges() >= MOST_EDGES {
        return Err(DependenceFault::TooLarge);
    }
    joined.add_edge(alloc, from as u32, to as u32)?;
    Ok(())
}
