//! The boxes of a lane chart: the regions of a program that have several pieces in several rows.

use chart_words::{Nodes, piece_of};
use printed_graphs::Region;
use std::alloc::Global;
use svg_text::ChartFault;

/// A region that is drawn as a box.
#[derive(Clone, Copy)]
pub struct Boxed {
    /// Its number, counted from 1.
    pub region: u32,
    /// How many boxes stand around it.
    pub depth: u32,
    /// How far down its first and its last row are, in pixels.
    pub top: u32,
    pub bottom: u32,
}

/// The boxes of the regions that have several pieces in several rows, where nodes are so far down. A box comes after those around it.
pub fn boxes_of(
    alloc: Global,
    nodes: &Nodes<'_>,
    at: &[u32],
    out: &[Vec<u32>],
) -> Result<Vec<Boxed>, ChartFault> {
    let reach = reach_of_pieces(alloc, nodes, at)?;
    let mut frames: Vec<Boxed> = Vec::new(alloc);
    let mut depths = vec![in alloc; 0u32; nodes.flow.regions.len()]?;
    let mut region = 0u32;
    for found in nodes.flow.regions.iter() {
        region = region.saturating_add(1);
        let depth = depth_in(depths.as_slice(), found.parent);
        let mut inner = depth;
        let inside = pieces_inside(alloc, nodes, out, *found)?;
        let (top, bottom) = reach_inside(reach.as_slice(), inside.as_slice());
        let is_wide = inside.iter().filter(|is_inside| **is_inside).count() > 1;
        if is_wide && top < bottom {
            frames.push(Boxed {
                region,
                depth,
                top,
                bottom,
            })?;
            inner = depth.saturating_add(1);
        }
        put_depth(&mut depths, region, inner);
    }
    Ok(frames)
}

// How many boxes stand around what is in a region, counted from 1; 0 stands for none.
fn depth_in(depths: &[u32], region: u32) -> u32 {
    match (region as usize).checked_sub(1) {
        Some(k) => depths.get(k).copied().unwrap_or(0),
        None => 0,
    }
}

// Keeps how many boxes stand around what is in a region.
fn put_depth(depths: &mut Vec<u32>, region: u32, depth: u32) {
    if let Some(k) = (region as usize).checked_sub(1) {
        if let Some(place) = depths.get_mut(k) {
            *place = depth;
        }
    }
}

// The first and the last place of the nodes of a piece.
#[derive(Clone, Copy)]
struct Reach {
    top: u32,
    bottom: u32,
}

// The places of the nodes of each piece. A piece without a node has none: its top is below its bottom.
fn reach_of_pieces(alloc: Global, nodes: &Nodes<'_>, at: &[u32]) -> Result<Vec<Reach>, ChartFault> {
    let none = Reach {
        top: u32::MAX,
        bottom: 0,
    };
    let mut reach = vec![in alloc; none; nodes.flow.pieces.len()]?;
    for (node, y) in nodes.graph.nodes.iter().zip(at) {
        if let Some(place) = reach.get_mut(piece_of(node) as usize) {
            place.top = place.top.min(*y);
            place.bottom = place.bottom.max(*y);
        }
    }
    Ok(reach)
}

// The first and the last place of the nodes of these pieces.
fn reach_inside(reach: &[Reach], inside: &[bool]) -> (u32, u32) {
    let mut top = u32::MAX;
    let mut bottom = 0;
    for (place, is_inside) in reach.iter().zip(inside) {
        if *is_inside {
            top = top.min(place.top);
            bottom = bottom.max(place.bottom);
        }
    }
    (top, bottom)
}

// Which pieces are inside a region: those that are reached from its entry, and not over its exit.
fn pieces_inside(
    alloc: Global,
    nodes: &Nodes<'_>,
    out: &[Vec<u32>],
    region: Region,
) -> Result<Vec<bool>, ChartFault> {
    let mut inside = vec![in alloc; false; nodes.flow.pieces.len()]?;
    let mut waiting = Vec::new(alloc);
    if region.exit != 0 {
        visit(nodes, region.entry, &mut inside, &mut waiting)?;
    }
    for _ in nodes.flow.pieces.iter() {
        let Some(piece) = waiting.pop() else {
            return Ok(inside);
        };
        if let Some(edges) = out.get(piece as usize) {
            for edge in edges.iter() {
                if *edge != region.exit && *edge != 0 {
                    visit(nodes, *edge, &mut inside, &mut waiting)?;
                }
            }
        }
    }
    Ok(inside)
}

// Comes to the piece at the end of an edge.
fn visit(
    nodes: &Nodes<'_>,
    edge: u32,
    inside: &mut Vec<bool>,
    waiting: &mut Vec<u32>,
) -> Result<(), ChartFault> {
    if let Some(found) = nodes.flow.edges.get(edge as usize) {
        if let Some(place) = inside.get_mut(found.to as usize) {
            if !*place {
                *place = true;
                waiting.push(found.to)?;
            }
        }
    }
    Ok(())
}
