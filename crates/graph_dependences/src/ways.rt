//! Where token lines go.

ghost use Rattle.std.specs.Prelude.{◌≡◌, ◌+◌, ◌<◌, ◌≤◌, ◌^◌, ◌++◌, OnOk, IfOk, length, slice_get};
ghost use Rattle.graph_dependences.specs.Ways.{bypass_hops, edges_of, first_stop as spec_first_stop, is_load_at as spec_is_load_at, hop as spec_hop, hop_to, line_way as spec_line_way, next_stop as spec_next_stop, ways_from, ways_of as spec_ways_of, wire_hops};

use crate::nodes::{is_load, needs};
use df_sequence::NoMemory;
use printed_graphs::{Bypass, Edge, Node, PrintedFlow, PrintedGraph};
use std::alloc::Global;

/// A way of a token line: from a node to the next node that needs the line.
#[derive(Clone, Copy, Debug, PartialEq, Eq)]
pub struct Way {
    /// The node that passes the line on.
    pub from: u32,
    /// The node to which it comes.
    pub to: u32,
    /// The edge of the flow graph over which it comes to that, if it leads from piece to piece.
    pub hop: Option<Hop>,
    /// What goes along it.
    pub carrier: Carrier,
}

/// What goes along a way.
#[derive(Clone, Copy, Debug, PartialEq, Eq)]
pub enum Carrier {
    /// A token line, after the one node has fired, to the other.
    Line,
    /// A token line from a LOAD to a LOAD, of which neither waits for the other.
    Loads,
    /// A value, or a decision.
    Value,
}

/// Where an edge of the flow graph leads.
#[derive(Clone, Copy, Debug, PartialEq, Eq)]
pub struct Hop {
    /// The piece at which it begins.
    pub begins: u32,
    /// The piece at which it ends.
    pub ends: u32,
}

/// The ways of a token line.
pub fn ways_of(
    alloc: Global,
    graph: &PrintedGraph,
    flow: &PrintedFlow,
    line: u32,
) -> Result<Vec<Way>, NoMemory>
    requires { length graph.now.nodes.items ≤ 2 ^ 28 }
    ensures { IfOk result (λ ways. ways.items ≡ spec_ways_of graph.now flow.now line) }
{
    let mut ways = Vec::new(alloc);
    let nodes = graph.nodes.as_slice();
    let mut number = 0u32;
    for node in nodes {
        let after = &nodes[number as usize + 1..];
        add_ways_from(graph, flow, line, number, node, after, &mut ways)?;
        number += 1;
    }
    Ok(ways)
}

// Adds the ways from a node, after which these stand.
fn add_ways_from(
    graph: &PrintedGraph,
    flow: &PrintedFlow,
    line: u32,
    number: u32,
    node: &Node,
    after: &[Node],
    ways: &mut Vec<Way>,
) -> Result<(), NoMemory>
    requires few { length graph.now.nodes.items ≤ 2 ^ 28 }
    requires rest { number + length after.now < 2 ^ 28 }
    ensures { OnOk result (ways.new.items ≡ ways.old.items ++ ways_from graph.now flow.now line number node.now after.now) }
{
    if !needs(line, node) {
        return Ok(());
    }
    let piece = node.piece();
    if let Some(to) = next_stop(line, piece, number + 1, after) {
        ways.push(line_way(graph, number, to, None))?;
        return Ok(());
    }
    add_wire_hops(
        graph,
        flow,
        line,
        number,
        piece,
        wires_of(graph, line),
        ways,
    )?;
    add_bypass_hops(
        graph,
        flow,
        line,
        number,
        piece,
        graph.bypasses.as_slice(),
        ways,
    )
}

// The wires of a line.
fn wires_of(graph: &PrintedGraph, line: u32) -> &[u32]
    ensures { result.now ≡ edges_of (slice_get graph.now.wires.items line) }
{
    match graph.wires.get(line as usize) {
        Some(wires) => wires.edges.as_slice(),
        None => &[],
    }
}

// A way of a line.
fn line_way(graph: &PrintedGraph, from: u32, to: u32, hop: Option<Hop>) -> Way
    ensures { result ≡ spec_line_way graph.now from to hop }
{
    let carrier = if is_load_at(graph, from) && is_load_at(graph, to) {
        Carrier::Loads
    } else {
        Carrier::Line
    };
    Way {
        from,
        to,
        hop,
        carrier,
    }
}

// Whether a node is a LOAD that needs one line alone.
fn is_load_at(graph: &PrintedGraph, node: u32) -> bool
    ensures { result ≡ spec_is_load_at (slice_get graph.now.nodes.items node) }
{
    match graph.nodes.get(node as usize) {
        Some(node) => is_load(node),
        None => false,
    }
}

// The first of these nodes, numbered from `first` on, that needs the line, before one of another piece.
fn next_stop(line: u32, piece: u32, first: u32, nodes: &[Node]) -> Option<u32>
    requires { first + length nodes.now ≤ 2 ^ 28 }
    ensures { result ≡ spec_next_stop line piece first nodes.now }
{
    let mut number = first;
    for node in nodes {
        if node.piece() != piece {
            return None;
        }
        if needs(line, node) {
            return Some(number);
        }
        number += 1;
    }
    None
}

// The first of these nodes that stands in the piece and needs the line.
fn first_stop(line: u32, piece: u32, nodes: &[Node]) -> Option<u32>
    requires { length nodes.now ≤ 2 ^ 28 }
    ensures { result ≡ spec_first_stop line piece 0 nodes.now }
{
    let mut number = 0u32;
    for node in nodes {
        if node.piece() == piece && needs(line, node) {
            return Some(number);
        }
        number += 1;
    }
    None
}

// Adds the ways from a node over wires.
fn add_wire_hops(
    graph: &PrintedGraph,
    flow: &PrintedFlow,
    line: u32,
    from: u32,
    piece: u32,
    edges: &[u32],
    ways: &mut Vec<Way>,
) -> Result<(), NoMemory>
    requires { length graph.now.nodes.items ≤ 2 ^ 28 }
    ensures { OnOk result (ways.new.items ≡ ways.old.items ++ wire_hops graph.now flow.now line from piece edges.now) }
{
    for edge in edges {
        add_hop(graph, flow, line, from, piece, *edge, *edge, ways)?;
    }
    Ok(())
}

// Adds the ways from a node past regions.
fn add_bypass_hops(
    graph: &PrintedGraph,
    flow: &PrintedFlow,
    line: u32,
    from: u32,
    piece: u32,
    bypasses: &[Bypass],
    ways: &mut Vec<Way>,
) -> Result<(), NoMemory>
    requires { length graph.now.nodes.items ≤ 2 ^ 28 }
    ensures { OnOk result (ways.new.items ≡ ways.old.items ++ bypass_hops graph.now flow.now line from piece bypasses.now) }
{
    for bypass in bypasses {
        if bypass.line == line {
            add_hop(
                graph,
                flow,
                line,
                from,
                piece,
                bypass.edge,
                bypass.next,
                ways,
            )?;
        }
    }
    Ok(())
}

// Adds the way from a node of a piece over the beginning of one edge and the end of another, if there is one.
fn add_hop(
    graph: &PrintedGraph,
    flow: &PrintedFlow,
    line: u32,
    from: u32,
    piece: u32,
    edge: u32,
    next: u32,
    ways: &mut Vec<Way>,
) -> Result<(), NoMemory>
    requires { length graph.now.nodes.items ≤ 2 ^ 28 }
    ensures { OnOk result (ways.new.items ≡ ways.old.items ++ spec_hop graph.now flow.now line from piece edge next) }
{
    let Some(leaving) = edge_at(flow, edge) else {
        return Ok(());
    };
    let Some(coming) = edge_at(flow, next) else {
        return Ok(());
    };
    if leaving.from != piece {
        return Ok(());
    }
    add_hop_to(graph, line, from, coming, ways)
}

// Adds the way from a node over an edge at last, if there is one.
fn add_hop_to(
    graph: &PrintedGraph,
    line: u32,
    from: u32,
    edge: Edge,
    ways: &mut Vec<Way>,
) -> Result<(), NoMemory>
    requires { length graph.now.nodes.items ≤ 2 ^ 28 }
    ensures { OnOk result (ways.new.items ≡ ways.old.items ++ hop_to graph.now from edge (spec_first_stop line edge.to 0 graph.now.nodes.items)) }
{
    let Some(to) = first_stop(line, edge.to, graph.nodes.as_slice()) else {
        return Ok(());
    };
    let hop = Hop {
        begins: edge.from,
        ends: edge.to,
    };
    ways.push(line_way(graph, from, to, Some(hop)))?;
    Ok(())
}

// An edge of the flow graph.
fn edge_at(flow: &PrintedFlow, edge: u32) -> Option<Edge>
    ensures { result ≡ slice_get flow.now.edges.items edge }
{
    match flow.edges.get(edge as usize) {
        Some(edge) => Some(*edge),
        None => None,
    }
}
