//! Ways of all token lines, of values, and from decisions to switches.

ghost use Rattle.std.specs.Prelude.{◌≡◌, ◌≤◌, ◌+◌, ◌^◌, ◌++◌, ◌∷◌, [], IfOk, OnOk, length};
ghost use Rattle.graph_dependences.specs.Waiting.{all_ways as spec_all_ways, decision_ways, operand_ways, step_to, switch_ways, value_ways};

use crate::fault::DependenceFault;
use crate::nodes::{is_decision, is_switch};
use crate::ways::{Carrier, Way, ways_of};
use df_sequence::NoMemory;
use printed_graphs::{Node, Operand, PrintedFlow, PrintedGraph, Value};
use std::alloc::Global;

// The most nodes and the most token lines of a dataflow graph.
const MOST_NODES: usize = 268_435_456;

/// All ways.
pub fn all_ways(
    alloc: Global,
    graph: &PrintedGraph,
    flow: &PrintedFlow,
) -> Result<Vec<Way>, DependenceFault>
    ensures few { IfOk result (λ ways. length graph.now.nodes.items ≤ 2 ^ 28) }
    ensures ways { IfOk result (λ ways. ways.items ≡ spec_all_ways graph.now flow.now) }
{
    if graph.nodes.len() > MOST_NODES || graph.lines.len() > MOST_NODES {
        return Err(DependenceFault::TooLarge);
    }
    let mut ways = Vec::new(alloc);
    for line in 0..graph.lines.len() as u32 {
        let more = ways_of(alloc, graph, flow, line)?;
        ways.extend_from_slice(more.as_slice())?;
    }
    add_decisions(graph.nodes.as_slice(), &mut ways)?;
    add_values(graph.values.as_slice(), &mut ways)?;
    Ok(ways)
}

// Adds the ways from decisions to the switches of their pieces.
fn add_decisions(nodes: &[Node], ways: &mut Vec<Way>) -> Result<(), NoMemory>
    requires { length nodes.now ≤ 2 ^ 28 }
    ensures { OnOk result (ways.new.items ≡ ways.old.items ++ decision_ways 0 nodes.now) }
{
    let mut number = 0u32;
    for node in nodes {
        if is_decision(node) {
            let after = &nodes[number as usize + 1..];
            add_switches(number, node.piece(), number + 1, after, ways)?;
        }
        number += 1;
    }
    Ok(())
}

// Adds the ways from a decision to those of these nodes, numbered from `first` on, that are switches of its piece.
fn add_switches(
    from: u32,
    piece: u32,
    first: u32,
    nodes: &[Node],
    ways: &mut Vec<Way>,
) -> Result<(), NoMemory>
    requires { first + length nodes.now ≤ 2 ^ 28 }
    ensures { OnOk result (ways.new.items ≡ ways.old.items ++ switch_ways from piece first nodes.now) }
{
    let mut number = first;
    for node in nodes {
        if node.piece() != piece {
            return Ok(());
        }
        if is_switch(node) {
            add_step(from, number, ways)?;
        }
        number += 1;
    }
    Ok(())
}

// Adds the ways of values.
fn add_values(values: &[Value], ways: &mut Vec<Way>) -> Result<(), NoMemory>
    ensures { OnOk result (ways.new.items ≡ ways.old.items ++ value_ways values.now) }
{
    for value in values {
        add_operands(value.node, value.operands.as_slice(), ways)?;
    }
    Ok(())
}

// Adds the ways of operands to the operation that takes them.
fn add_operands(to: u32, operands: &[Operand], ways: &mut Vec<Way>) -> Result<(), NoMemory>
    ensures { OnOk result (ways.new.items ≡ ways.old.items ++ operand_ways to operands.now) }
{
    for operand in operands {
        if let Operand::From(from) = *operand {
            add_step(from, to, ways)?;
        }
    }
    Ok(())
}

// Adds a way of a value or a decision.
fn add_step(from: u32, to: u32, ways: &mut Vec<Way>) -> Result<(), NoMemory>
    ensures { OnOk result (ways.new.items ≡ ways.old.items ++ step_to from to ∷ []) }
{
    ways.push(Way {
        from,
        to,
        hop: None,
        carrier: Carrier::Value,
    })?;
    Ok(())
}
