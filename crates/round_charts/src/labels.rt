//! A few letters on what a node does, and the style of its cells.

use crate::parts::Style;
use chart_words::{put_line, sign};
use printed_graphs::{Node, PrintedGraph, Work};
use std::alloc::Global;
use svg_text::ChartFault;

/// The style of a node.
pub fn style_of(node: &Node) -> Style {
    match node {
        Node::Operation { work, .. } => match work {
            Work::Load => Style::Load,
            Work::Store => Style::Store,
            Work::Write | Work::Take => Style::Print,
            Work::Apply(_) => Style::Apply,
            Work::Begin | Work::Advance | Work::Decide => Style::Steer,
        },
        Node::Switch { .. } | Node::Merge { .. } => Style::Route,
    }
}

/// A few letters on what a node does.
pub fn label_of(alloc: Global, graph: &PrintedGraph, node: &Node) -> Result<String, ChartFault> {
    let (words, line) = match node {
        Node::Operation { work, lines, .. } => (words_of(*work), line_of(*work, lines)),
        Node::Switch { line, .. } => ("\u{25c7} ", Some(*line)),
        Node::Merge { line, .. } => ("\u{25bd} ", Some(*line)),
    };
    let mut label = format!(in alloc; "{words}")?;
    if let Some(line) = line {
        put_line(&mut label, graph, line, 1)?;
    }
    Ok(label)
}

// The token line that is named on an operation, if one is.
fn line_of(work: Work, lines: &[u32]) -> Option<u32> {
    match work {
        Work::Load | Work::Store => lines.last().copied(),
        _ => None,
    }
}

// What an operation does, before the name of its token line.
fn words_of(work: Work) -> &'static str {
    match work {
        Work::Load => "",
        Work::Store => "\u{2190} ",
        Work::Write => "print",
        Work::Take => "read",
        Work::Begin => "DO",
        Work::Advance => "next",
        Work::Decide => "?",
        Work::Apply(op) => sign(op).unwrap_or("f"),
    }
}
