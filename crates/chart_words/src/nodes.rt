//! What the nodes of a graph are, by their numbers.

ghost use Rattle.std.specs.Prelude.{◌≡◌, IfOk};
ghost use Rattle.chart_words.specs.Nodes.{lines_of as spec_lines_of, piece_of as spec_piece_of};

use printed_graphs::{Node, Operand, PrintedFlow, PrintedGraph, Work};
use std::alloc::Global;
use std::slice::from_ref;
use svg_text::ChartFault;

/// The piece of a node.
pub fn piece_of(node: &Node) -> u32
    ensures { result ≡ spec_piece_of node.now }
{
    match node {
        Node::Operation { piece, .. } => *piece,
        Node::Switch { piece, .. } => *piece,
        Node::Merge { piece, .. } => *piece,
    }
}

/// The token lines that a node takes.
pub fn lines_of(node: &Node) -> &[u32]
    ensures { result.now ≡ spec_lines_of node.now }
{
    match node {
        Node::Operation { lines, .. } => lines.as_slice(),
        Node::Switch { line, .. } => from_ref(line),
        Node::Merge { line, .. } => from_ref(line),
    }
}

/// A graph whose operands are looked up by node.
#[derive(Drop)]
pub struct Nodes<'a> {
    /// The graph.
    pub graph: &'a PrintedGraph,
    /// The flow graph with the pieces of its nodes.
    pub flow: &'a PrintedFlow,
    // For each node the place of its operands in the list of values.
    operands: Vec<Option<usize>>,
    // Whether another node takes the value of the node.
    taken: Vec<bool>,
    // Whether a value decides by which edge control leaves the piece.
    chosen: Vec<bool>,
}

impl<'a> Nodes<'a> {
    /// The nodes of a graph.
    pub fn of(
        alloc: Global,
        flow: &'a PrintedFlow,
        graph: &'a PrintedGraph,
    ) -> Result<Nodes<'a>, ChartFault>
        ensures flow { IfOk result (λ nodes. nodes.flow.now ≡ flow.now) }
        ensures graph { IfOk result (λ nodes. nodes.graph.now ≡ graph.now) }
    {
        let count = graph.nodes.len();
        let mut operands = vec![in alloc; None; count]?;
        let mut taken = vec![in alloc; false; count]?;
        let mut chosen = vec![in alloc; false; flow.pieces.len()]?;
        for (k, value) in graph.values.iter().enumerate() {
            put_place(&mut operands, value.node, k);
            mark_decided(&mut chosen, graph.nodes.get(value.node as usize));
            for operand in value.operands.iter() {
                mark_giver(&mut taken, *operand);
            }
        }
        Ok(Nodes {
            graph,
            flow,
            operands,
            taken,
            chosen,
        })
    }

    /// The node with this number.
    pub fn node(&self, number: u32) -> Option<&'a Node> {
        self.graph.nodes.get(number as usize)
    }

    /// The operands of a node.
    pub fn operands_of(&self, number: u32) -> &'a [Operand] {
        match self.operands.get(number as usize).copied().flatten() {
            Some(k) => match self.graph.values.get(k) {
                Some(value) => value.operands.as_slice(),
                None => &[],
            },
            None => &[],
        }
    }

    /// What the operation with this number does, if it is one.
    pub fn work_of(&self, number: u32) -> Option<Work> {
        match self.node(number) {
            Some(Node::Operation { work, .. }) => Some(*work),
            _ => None,
        }
    }

    /// Whether another node takes the value of this one.
    pub fn is_taken(&self, number: u32) -> bool {
        self.taken.get(number as usize).copied().unwrap_or(false)
    }

    /// Whether a value decides by which edge control leaves a piece.
    pub fn chooses(&self, piece: u32) -> bool {
        self.chosen.get(piece as usize).copied().unwrap_or(false)
    }

    /// The line of the source on which the statement of a piece stands, or 0.
    pub fn line_of_piece(&self, piece: u32) -> u32 {
        match self.flow.pieces.get(piece as usize) {
            Some(found) => found.line,
            None => 0,
        }
    }

    /// The line of the source on which the statement of a node stands, or 0.
    pub fn line_of(&self, number: u32) -> u32 {
        match self.node(number) {
            Some(node) => self.line_of_piece(piece_of(node)),
            None => 0,
        }
    }
}

// Keeps the place of a node's operands.
fn put_place(operands: &mut Vec<Option<usize>>, node: u32, k: usize) {
    if let Some(place) = operands.get_mut(node as usize) {
        *place = Some(k);
    }
}

// Marks the node that gives an operand.
fn mark_giver(taken: &mut Vec<bool>, operand: Operand) {
    if let Operand::From(giver) = operand {
        if let Some(place) = taken.get_mut(giver as usize) {
            *place = true;
        }
    }
}

// Marks the piece of a decision.
fn mark_decided(chosen: &mut Vec<bool>, node: Option<&Node>) {
    if let Some(
        Node::Operation {
            piece,
            work: Work::Decide,
            ..
        },
    ) = node
    {
        if let Some(place) = chosen.get_mut(*piece as usize) {
            *place = true;
        }
    }
}
