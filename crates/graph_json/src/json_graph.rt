//! A dataflow graph as JSON.

ghost use Rattle.std.specs.Prelude.{◌≡◌, IfOk, OnOk, map};
ghost use Rattle.graph_json.specs.Json.{bypass_json, graph_json, leading_json, line_json, name_json, node_json, operand_json, value_json, wires_json, work_json};
ghost use Rattle.graph_json.specs.Placed.{placed_json};
ghost use Rattle.view_output.specs.Told.{Adds, told};

use crate::json::{Json, write_in_commas, write_numbers, write_or_null, write_rows};
use df_io::Sink;
use printed_graphs::{
    Bypass, Node, Operand, PrintedFlow, PrintedGraph, TokenLine, Value, Wires, work_name,
};
use std::alloc::{AllocError, Global};
use view_output::{Fault, Output};

/// Appends a dataflow graph, with the sources of nodes where the flow graph is known.
pub fn write_graph<K: Sink + Drop>(
    alloc: Global,
    flow: &Option<PrintedFlow>,
    graph: &PrintedGraph,
    output: &mut Output<K>,
) -> Result<(), Fault>
    ensures { OnOk result (Adds (told K.got output.old) (told K.got output.new) (graph_json flow.now graph.now)) }
{
    let nodes = placed_nodes(alloc, flow, graph.nodes.as_slice())?;
    output.text("{\"lines\":[")?;
    write_rows(graph.lines.as_slice(), output)?;
    output.text("],\n\"nodes\":[")?;
    write_rows(nodes.as_slice(), output)?;
    output.text("],\n\"values\":[")?;
    write_rows(graph.values.as_slice(), output)?;
    output.text("],\n\"wires\":[")?;
    write_rows(graph.wires.as_slice(), output)?;
    output.text("],\n\"bypasses\":[")?;
    write_rows(graph.bypasses.as_slice(), output)?;
    output.text("]}")
}

// A node, and the line of the text at which its statement begins, where that is known.
#[derive(Clone, Copy)]
struct PlacedNode<'a> {
    node: &'a Node,
    source: Option<u32>,
}

// The nodes with their places.
#[tactic(auto, using(crate::proofs::NodeLists::nodes_end))]
fn placed_nodes<'a>(
    alloc: Global,
    flow: &Option<PrintedFlow>,
    nodes: &'a [Node],
) -> Result<Vec<PlacedNode<'a>>, AllocError>
    ensures { IfOk result (λ placed. map placed_json placed.items ≡ map (node_json flow.now) nodes.now) }
{
    let mut placed = Vec::new(alloc);
    for node in nodes {
        placed.push(placed_node(flow, node))?;
    }
    Ok(placed)
}

// A node with its place.
fn placed_node<'a>(flow: &Option<PrintedFlow>, node: &'a Node) -> PlacedNode<'a>
    ensures { placed_json result ≡ node_json flow.now node.now }
{
    let source = match flow {
        Some(flow) => match flow.pieces.get(node.piece() as usize) {
            Some(piece) => Some(piece.line),
            None => None,
        },
        None => None,
    };
    PlacedNode { node, source }
}

impl Json for PlacedNode<'_> {
    ghost json_text = { placed_json };

    fn write<K: Sink + Drop>(&self, output: &mut Output<K>) -> Result<(), Fault> {
        output.text("{\"source\":")?;
        write_or_null(&self.source, output)?;
        write_work(self.node, output)
    }
}

impl Json for TokenLine {
    ghost json_text = { line_json };

    fn write<K: Sink + Drop>(&self, output: &mut Output<K>) -> Result<(), Fault> {
        match self {
            TokenLine::Output => output.text("{\"kind\":\"output\"}"),
            TokenLine::Class(names) => {
                output.text("{\"kind\":\"words\",\"names\":[")?;
                write_in_commas(names.as_slice(), output)?;
                output.text("]}")
            }
            TokenLine::Loop(line) => {
                output.item("{\"kind\":\"loop\",\"line\":", *line)?;
                output.text("}")
            }
        }
    }
}

// A name has letters and digits alone, so nothing in it needs an escape.
impl Json for Vec<u8> {
    ghost json_text = { name_json };

    fn write<K: Sink + Drop>(&self, output: &mut Output<K>) -> Result<(), Fault> {
        output.text("\"")?;
        output.bytes(self.as_slice())?;
        output.text("\"")
    }
}

// Appends what a node does, behind its source.
fn write_work<K: Sink + Drop>(node: &Node, output: &mut Output<K>) -> Result<(), Fault>
    ensures { OnOk result (Adds (told K.got output.old) (told K.got output.new) (work_json node.now)) }
{
    match node {
        Node::Operation {
            piece,
            number,
            work,
            lines,
        } => {
            output.item(",\"kind\":\"OP\",\"piece\":", *piece)?;
            output.item(",\"number\":", *number)?;
            output.text(",\"work\":\"")?;
            output.text(work_name(*work))?;
            output.text("\",\"lines\":")?;
            write_numbers(lines.as_slice(), output)?;
            output.text("}")
        }
        Node::Switch { piece, line } => write_leading("SWITCH", *piece, *line, output),
        Node::Merge { piece, line } => write_leading("MERGE", *piece, *line, output),
    }
}

// Appends a node that leads a line on.
fn write_leading<K: Sink + Drop>(
    kind: &str,
    piece: u32,
    line: u32,
    output: &mut Output<K>,
) -> Result<(), Fault>
    ensures { OnOk result (Adds (told K.got output.old) (told K.got output.new) (leading_json kind.now piece line)) }
{
    output.text(",\"kind\":\"")?;
    output.text(kind)?;
    output.item("\",\"piece\":", piece)?;
    output.item(",\"line\":", line)?;
    output.text("}")
}

impl Json for Value {
    ghost json_text = { value_json };

    fn write<K: Sink + Drop>(&self, output: &mut Output<K>) -> Result<(), Fault> {
        output.item("{\"node\":", self.node)?;
        output.text(",\"operands\":[")?;
        write_in_commas(self.operands.as_slice(), output)?;
        output.text("]}")
    }
}

impl Json for Operand {
    ghost json_text = { operand_json };

    fn write<K: Sink + Drop>(&self, output: &mut Output<K>) -> Result<(), Fault> {
        match *self {
            Operand::From(node) => {
                output.item("{\"node\":", node)?;
                output.text("}")
            }
            Operand::Known(z) => {
                output.text("{\"known\":")?;
                output.signed(z)?;
                output.text("}")
            }
        }
    }
}

impl Json for Wires {
    ghost json_text = { wires_json };

    fn write<K: Sink + Drop>(&self, output: &mut Output<K>) -> Result<(), Fault> {
        write_numbers(self.edges.as_slice(), output)
    }
}

impl Json for Bypass {
    ghost json_text = { bypass_json };

    fn write<K: Sink + Drop>(&self, output: &mut Output<K>) -> Result<(), Fault> {
        output.item("{\"line\":", self.line)?;
        output.item(",\"edge\":", self.edge)?;
        output.item(",\"next\":", self.next)?;
        output.text("}")
    }
}
