//! The ways of tokens along a lane, from mark to mark.

use crate::lanes::Lane;
use chart_words::{Nodes, piece_of};
use lane_parts::{Exit, Side};
use printed_graphs::{Node, PieceKind, Work};
use std::alloc::Global;
use svg_text::ChartFault;

/// A way of tokens along a lane, on its side.
#[derive(Clone, Copy)]
pub struct Run {
    /// The side on which it runs.
    pub side: Side,
    /// Its place among the ways on that side: 0 is next to the lane.
    pub level: u32,
    /// How far down it begins and ends, in pixels.
    pub from: u32,
    pub to: u32,
    /// By which answer of a decision it leaves, and how far from the lane that stands: farther than that of the same way before it.
    pub exit: Exit,
    pub beside: u32,
}

// How far from a lane an answer of a decision stands, and from another one.
const LABEL: u32 = 6;

/// Whether a way runs at the left of its lane.
pub fn is_left(side: Side) -> bool {
    side == Side::Past || side == Side::Out
}

/// The edges that leave each piece, in the order of the list.
pub fn edges_out(alloc: Global, nodes: &Nodes<'_>) -> Result<Vec<Vec<u32>>, ChartFault> {
    let mut out: Vec<Vec<u32>> = Vec::with_capacity(alloc, nodes.flow.pieces.len())?;
    for _ in nodes.flow.pieces.iter() {
        out.push(Vec::new(alloc))?;
    }
    let mut number = 0u32;
    for edge in nodes.flow.edges.iter() {
        if let Some(edges) = out.get_mut(edge.from as usize) {
            edges.push(number)?;
        }
        number = number.saturating_add(1);
    }
    Ok(out)
}

/// The ways along a lane of a chart that ends so far down.
pub fn ways_of(
    alloc: Global,
    nodes: &Nodes<'_>,
    out: &[Vec<u32>],
    lane: &Lane,
    top: u32,
    end: u32,
) -> Result<Vec<Run>, ChartFault> {
    let stops = Stops::of(alloc, nodes, out, lane)?;
    let mut found = Vec::new(alloc);
    stops.within(lane, &mut found)?;
    stops.between(top, end, &mut found)?;
    let mut ways = Vec::with_capacity(alloc, found.len())?;
    found.sort()?;
    for span in found.iter() {
        let way = way_of(lane, *span, end, ways.as_slice());
        ways.push(way)?;
    }
    Ok(ways)
}

// A way before it has a side: short ones come first.
#[derive(Clone, Copy, PartialEq, Eq, PartialOrd, Ord)]
struct Span {
    length: u32,
    from: u32,
    to: u32,
    exit: Exit,
}

// A way between two places.
fn span_of(from: u32, to: u32, exit: Exit) -> Span {
    Span {
        length: from.abs_diff(to),
        from,
        to,
        exit,
    }
}

// A way with its side, outside those that it meets there.
fn way_of(lane: &Lane, span: Span, end: u32, others: &[Run]) -> Run {
    let side = side_of(lane, span, end);
    let mut level = 0u32;
    for other in others {
        if shares_side(other.side, side) && meets(*other, span) {
            level = level.max(other.level.saturating_add(1));
        }
    }
    let beside = match others.last() {
        Some(last) if last.from == span.from && last.to == span.to => {
            last.beside.saturating_add(LABEL)
        }
        _ => LABEL,
    };
    Run {
        side,
        level,
        from: span.from,
        to: span.to,
        exit: span.exit,
        beside,
    }
}

// The side on which a way runs.
fn side_of(lane: &Lane, span: Span, end: u32) -> Side {
    if span.to <= span.from {
        Side::Back
    } else if lane
        .seats
        .iter()
        .any(|mark| span.from < mark.y && mark.y < span.to)
    {
        if span.to == end {
            Side::Out
        } else {
            Side::Past
        }
    } else {
        Side::Straight
    }
}

// Whether ways of these sides can meet.
fn shares_side(some: Side, other: Side) -> bool {
    some == other || is_left(some) && is_left(other)
}

// Whether a way and a span share a part of the lane.
fn meets(way: Run, span: Span) -> bool {
    let top = way.from.min(way.to);
    let bottom = way.from.max(way.to);
    top < span.from.max(span.to) && span.from.min(span.to) < bottom
}

// Where tokens of a lane come to each piece and leave it, and where they go on past regions.
#[derive(Drop)]
struct Stops<'a, 'b> {
    nodes: &'b Nodes<'a>,
    out: &'b [Vec<u32>],
    enter: Vec<Option<u32>>,
    leave: Vec<Option<u32>>,
    // Whether a switch or a decision leads on from the piece.
    parts: Vec<bool>,
    // For each edge the one on which the line goes on from its end.
    next: Vec<Option<u32>>,
}

impl<'a, 'b> Stops<'a, 'b> {
    // Those of a lane.
    fn of(
        alloc: Global,
        nodes: &'b Nodes<'a>,
        out: &'b [Vec<u32>],
        lane: &Lane,
    ) -> Result<Stops<'a, 'b>, ChartFault> {
        let pieces = nodes.flow.pieces.len();
        let mut stops = Stops {
            nodes,
            out,
            enter: vec![in alloc; None; pieces]?,
            leave: vec![in alloc; None; pieces]?,
            parts: vec![in alloc; false; pieces]?,
            next: vec![in alloc; None; nodes.flow.edges.len()]?,
        };
        for mark in lane.seats.iter() {
            if let Some(node) = nodes.node(mark.node) {
                stops.add(node, mark.y);
            }
        }
        for bypass in nodes.graph.bypasses.iter() {
            if bypass.line == lane.line {
                if let Some(place) = stops.next.get_mut(bypass.edge as usize) {
                    *place = Some(bypass.next);
                }
            }
        }
        Ok(stops)
    }

    // Adds a node of a piece: a merge comes first there, and a switch last.
    fn add(&mut self, node: &Node, y: u32) {
        let piece = piece_of(node) as usize;
        let is_parting = parts(node);
        if let Some(place) = self.enter.get_mut(piece) {
            if place.is_none() || matches!(node, Node::Merge { .. }) {
                *place = Some(y);
            }
        }
        if let Some(place) = self.leave.get_mut(piece) {
            *place = Some(y);
        }
        if let Some(place) = self.parts.get_mut(piece) {
            *place = *place || is_parting;
        }
    }

    // The ways between marks of one piece.
    fn within(&self, lane: &Lane, found: &mut Vec<Span>) -> Result<(), ChartFault> {
        let mut last = None;
        for mark in lane.seats.iter() {
            if let Some(node) = self.nodes.node(mark.node) {
                let piece = piece_of(node);
                match last {
                    Some((before, y)) if before == piece => found.push(span_of(
                        y,
                        mark.y,
                        Exit::Only,
                    ))?,
                    _ => {}
                }
                last = Some((piece, mark.y));
            }
        }
        Ok(())
    }

    // The ways from piece to piece.
    fn between(&self, top: u32, end: u32, found: &mut Vec<Span>) -> Result<(), ChartFault> {
        let mut number = 0u32;
        for piece in self.nodes.flow.pieces.iter() {
            let from = match piece.kind {
                PieceKind::Start => Some(top),
                PieceKind::End => None,
                _ => self.leave.get(number as usize).copied().flatten(),
            };
            if let Some(from) = from {
                self.leaving(number, from, end, found)?;
            }
            number = number.saturating_add(1);
        }
        Ok(())
    }

    // The ways that leave a piece.
    fn leaving(
        &self,
        piece: u32,
        from: u32,
        end: u32,
        found: &mut Vec<Span>,
    ) -> Result<(), ChartFault> {
        let parts = self.parts.get(piece as usize).copied().unwrap_or(false);
        let chosen = parts && self.nodes.chooses(piece);
        if let Some(edges) = self.out.get(piece as usize) {
            for (k, edge) in edges.iter().enumerate() {
                if let Some(to) = self.goal(*edge, end) {
                    found.push(span_of(from, to, exit_of(chosen, k, edges.len())))?;
                }
            }
        }
        Ok(())
    }

    // Where a token comes to on an edge, if anywhere.
    fn goal(&self, edge: u32, end: u32) -> Option<u32> {
        let mut edge = edge;
        for _ in self.next.iter() {
            if edge == 0 {
                return Some(end);
            }
            edge = match self.next.get(edge as usize).copied().flatten() {
                Some(next) => next,
                None => match self.stop(edge, end) {
                    Stop::At(y) => return Some(y),
                    Stop::On(next) => next,
                    Stop::Lost => return None,
                },
            };
        }
        None
    }

    // What is at the end of an edge.
    fn stop(&self, edge: u32, end: u32) -> Stop {
        let Some(found) = self.nodes.flow.edges.get(edge as usize) else {
            return Stop::Lost;
        };
        let piece = found.to as usize;
        if let Some(y) = self.enter.get(piece).copied().flatten() {
            return Stop::At(y);
        }
        match self.nodes.flow.pieces.get(piece) {
            Some(piece) if piece.kind == PieceKind::End => return Stop::At(end),
            _ => {}
        }
        match self.out.get(piece) {
            Some(edges) => match edges.first() {
                Some(next) => Stop::On(*next),
                None => Stop::Lost,
            },
            None => Stop::Lost,
        }
    }
}

// Whether tokens leave a node by several edges.
fn parts(node: &Node) -> bool {
    match node {
        Node::Switch { .. } => true,
        Node::Operation { work, .. } => *work == Work::Decide,
        Node::Merge { .. } => false,
    }
}

// The answer at edge k of so many that leave a piece.
fn exit_of(chosen: bool, k: usize, edges: usize) -> Exit {
    match (chosen, edges, k) {
        (false, ..) => Exit::Only,
        (true, 2, 0) => Exit::True,
        (true, 2, _) => Exit::False,
        _ => Exit::Case((k.min(99_999) as u32).saturating_add(1)),
    }
}

// What a token finds at the end of an edge.
#[derive(Clone, Copy)]
enum Stop {
    // A mark so far down.
    At(u32),
    // A piece that doesn't touch the line: it goes on over this edge.
    On(u32),
    // Nothing.
    Lost,
}
