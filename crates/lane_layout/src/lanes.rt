//! The lanes of a lane chart: a column for each token line that a node takes.

use crate::frames::Boxed;
use chart_words::{Nodes, lines_of};
use printed_graphs::{Node, TokenLine, Work};
use std::alloc::Global;
use svg_text::ChartFault;

/// A node on a lane.
#[derive(Clone, Copy)]
pub struct Seat {
    /// The node.
    pub node: u32,
    /// How far down it is, in pixels.
    pub y: u32,
}

/// A token line on its way down the page.
#[derive(Drop)]
pub struct Lane {
    /// The token line.
    pub line: u32,
    /// The nodes that take it.
    pub seats: Vec<Seat>,
}

/// The lanes of a graph whose nodes are so far down, in the order of the page: those of one loop side by side, from the
/// first node on each, and the count of a DO beside its variable.
pub fn lanes_of(
    alloc: Global,
    nodes: &Nodes<'_>,
    at: &[u32],
    frames: &[Boxed],
) -> Result<Vec<Lane>, ChartFault> {
    let mut marks = seats_by_line(alloc, nodes, at)?;
    let owners = owners_of(alloc, nodes)?;
    let mut places = Vec::new(alloc);
    let mut line = 0u32;
    for found in marks.iter() {
        if !found.is_empty() {
            let owner = owners.get(line as usize).copied().unwrap_or(line);
            places.push(place_of(&marks, frames, nodes, line, owner))?;
        }
        line = line.saturating_add(1);
    }
    places.sort()?;
    let mut lanes = Vec::with_capacity(alloc, places.len())?;
    for place in places.iter() {
        if let Some(found) = marks.get_mut(place.line as usize) {
            let seats = std::mem::replace(found, Vec::new(alloc));
            let line = place.line;
            lanes.push(Lane { line, seats })?;
        }
    }
    Ok(lanes)
}

// Where a lane stands among the others.
#[derive(Clone, Copy, PartialEq, Eq, PartialOrd, Ord)]
struct Place {
    // Output comes first.
    is_other: bool,
    // How far down the first box begins in which the token line is taken, or the first node.
    group: u32,
    // How far down the first node is.
    first: u32,
    // The token line of the variable, and whether this is the count beside it.
    owner: u32,
    is_count: bool,
    line: u32,
}

// The place of a token line, which is that of its owner.
fn place_of(
    marks: &Vec<Vec<Seat>>,
    frames: &[Boxed],
    nodes: &Nodes<'_>,
    line: u32,
    owner: u32,
) -> Place {
    let found: &[Seat] = match marks.get(owner as usize) {
        Some(found) => found.as_slice(),
        None => &[],
    };
    let first = found.first().map_or(0, |mark| mark.y);
    Place {
        is_other: !matches!(
            nodes.graph.lines.get(line as usize),
            Some(TokenLine::Output)
        ),
        group: group_of(found, frames, first),
        first,
        owner,
        is_count: line != owner,
        line,
    }
}

// Where the first outermost box begins in which one of these marks is, or else `first`.
fn group_of(marks: &[Seat], frames: &[Boxed], first: u32) -> u32 {
    for mark in marks {
        for frame in frames {
            if frame.depth == 0 && frame.top <= mark.y && mark.y <= frame.bottom {
                return frame.top;
            }
        }
    }
    first
}

// The marks on each token line, from above.
fn seats_by_line(
    alloc: Global,
    nodes: &Nodes<'_>,
    at: &[u32],
) -> Result<Vec<Vec<Seat>>, ChartFault> {
    let mut marks: Vec<Vec<Seat>> = Vec::with_capacity(alloc, nodes.graph.lines.len())?;
    for _ in nodes.graph.lines.iter() {
        marks.push(Vec::new(alloc))?;
    }
    let mut number = 0u32;
    for (node, y) in nodes.graph.nodes.iter().zip(at) {
        for line in lines_of(node) {
            if let Some(found) = marks.get_mut(*line as usize) {
                found.push(Seat {
                    node: number,
                    y: *y,
                })?;
            }
        }
        number = number.saturating_add(1);
    }
    Ok(marks)
}

// For each token line the one beside which it stands: that of the variable for the count of a DO, else itself.
fn owners_of(alloc: Global, nodes: &Nodes<'_>) -> Result<Vec<u32>, ChartFault> {
    let mut owners = Vec::with_capacity(alloc, nodes.graph.lines.len())?;
    let mut line = 0u32;
    for _ in nodes.graph.lines.iter() {
        owners.push(line)?;
        line = line.saturating_add(1);
    }
    for node in nodes.graph.nodes.iter() {
        if let Some((variable, count)) = begun_by(node) {
            if let Some(owner) = owners.get_mut(count as usize) {
                *owner = variable;
            }
        }
    }
    Ok(owners)
}

// The token lines of the variable and of the count that a node begins.
fn begun_by(node: &Node) -> Option<(u32, u32)> {
    match node {
        Node::Operation {
            work: Work::Begin,
            lines,
            ..
        } => match lines.as_slice() {
            [variable, count] => Some((*variable, *count)),
            _ => None,
        },
        _ => None,
    }
}

/// Whether a node changes the token line, and not only reads it.
pub fn changes(node: &Node) -> bool {
    match node {
        Node::Operation { work, .. } => *work != Work::Load && *work != Work::Decide,
        Node::Switch { .. } | Node::Merge { .. } => false,
    }
}
