//! What nodes need and do.

ghost use Rattle.std.specs.Prelude.{◌≡◌, ◌==◌, slice_get};
ghost use Rattle.std.specs.List.{list_any};
ghost use Rattle.graph_dependences.specs.Nodes.{are_operations as spec_are_operations, changes as spec_changes, is_decision as spec_is_decision, is_load as spec_is_load, is_operation as spec_is_operation, is_output_line, is_switch as spec_is_switch, kind_of as spec_kind_of, lets_pass as spec_lets_pass, needs as spec_needs, output_kind as spec_output_kind, sees as spec_sees, text_line as spec_text_line, word_kind as spec_word_kind};

use crate::kinds::{Kind, Passing};
use printed_graphs::{Node, PrintedFlow, PrintedGraph, TokenLine, Work};

/// Whether a node needs a token line.
pub fn needs(line: u32, node: &Node) -> bool
    ensures { result ≡ spec_needs line node.now }
{
    match node {
        Node::Operation { lines, .. } => stands_in(line, lines.as_slice()),
        Node::Switch { line: other, .. } => *other == line,
        Node::Merge { line: other, .. } => *other == line,
    }
}

// Whether a line is one of these.
fn stands_in(line: u32, lines: &[u32]) -> bool
    ensures { result ≡ list_any (λ l. l == line) lines.now }
{
    lines.iter().any(|l| *l == line)
}

/// Whether a node is an operation.
pub fn is_operation(node: &Node) -> bool
    ensures { result ≡ spec_is_operation node.now }
{
    match node {
        Node::Operation { .. } => true,
        Node::Switch { .. } | Node::Merge { .. } => false,
    }
}

// Whether a node changes what the lines that it needs stand for.
fn changes(node: &Node) -> bool
    ensures { result ≡ spec_changes node.now }
{
    match node {
        Node::Operation { work, .. } => match work {
            Work::Load | Work::Decide => false,
            _ => true,
        },
        Node::Switch { .. } | Node::Merge { .. } => false,
    }
}

// Whether a node sees what the lines that it needs stand for.
fn sees(node: &Node) -> bool
    ensures { result ≡ spec_sees node.now }
{
    match node {
        Node::Operation { work, .. } => match work {
            Work::Load | Work::Decide | Work::Advance => true,
            _ => false,
        },
        Node::Switch { .. } | Node::Merge { .. } => false,
    }
}

/// Whether a node is a DECIDE.
pub fn is_decision(node: &Node) -> bool
    ensures { result ≡ spec_is_decision node.now }
{
    match node {
        Node::Operation { work, .. } => match work {
            Work::Decide => true,
            _ => false,
        },
        Node::Switch { .. } | Node::Merge { .. } => false,
    }
}

/// Whether a node is a LOAD that needs one line alone.
pub fn is_load(node: &Node) -> bool
    ensures { result ≡ spec_is_load node.now }
{
    match node {
        Node::Operation { work, lines, .. } => match work {
            Work::Load => lines.len() == 1,
            _ => false,
        },
        Node::Switch { .. } | Node::Merge { .. } => false,
    }
}

/// Whether a node is a SWITCH.
pub fn is_switch(node: &Node) -> bool
    ensures { result ≡ spec_is_switch node.now }
{
    match node {
        Node::Switch { .. } => true,
        Node::Operation { .. } | Node::Merge { .. } => false,
    }
}

// The dependence of an operation on another that needs the same line of words.
fn word_kind(first: &Node, second: &Node) -> Option<Kind>
    ensures { result ≡ spec_word_kind first.now second.now }
{
    if changes(first) && sees(second) {
        Some(Kind::Flow)
    } else if changes(first) {
        Some(Kind::Output)
    } else if changes(second) {
        Some(Kind::Anti)
    } else {
        None
    }
}

// The dependence of an operation on another that needs the line of output.
fn output_kind(first: &Node, second: &Node) -> Option<Kind>
    ensures { result ≡ spec_output_kind first.now second.now }
{
    if changes(first) || changes(second) {
        Some(Kind::Order)
    } else {
        None
    }
}

/// The dependence of an operation on another by a line, if nodes alone stand between them that don't change what it stands for.
pub fn kind_of(is_output: bool, line: u32, first: &Node, second: &Node) -> Option<Kind>
    ensures { result ≡ spec_kind_of is_output line first.now second.now }
{
    if !are_operations(line, first, second) {
        None
    } else if is_output {
        output_kind(first, second)
    } else {
        word_kind(first, second)
    }
}

// Whether both are operations that need a line.
fn are_operations(line: u32, first: &Node, second: &Node) -> bool
    ensures { result ≡ spec_are_operations line first.now second.now }
{
    is_operation(first) && needs(line, first) && is_operation(second) && needs(line, second)
}

/// Whether lines go on past a node.
pub fn lets_pass(passing: Passing, line: u32, node: &Node) -> bool
    ensures { result ≡ spec_lets_pass passing line node.now }
{
    match passing {
        Passing::Readers => needs(line, node) && !changes(node),
        Passing::All => true,
    }
}

/// Whether a line of the graph is that of output.
pub fn is_output(graph: &PrintedGraph, line: u32) -> bool
    ensures { result ≡ is_output_line (slice_get graph.now.lines.items line) }
{
    match graph.lines.get(line as usize) {
        Some(TokenLine::Output) => true,
        _ => false,
    }
}

/// The line of the text at which a node's statement begins, or 0 where the flow graph lacks its piece.
pub fn text_line(flow: &PrintedFlow, node: &Node) -> u32
    ensures { result ≡ spec_text_line flow.now node.now }
{
    match flow.pieces.get(node.piece() as usize) {
        Some(piece) => piece.line,
        None => 0,
    }
}
