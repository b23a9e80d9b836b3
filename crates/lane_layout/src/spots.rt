//! The spots of a lane chart: one for each token line that a node takes.

ghost use Rattle.std.specs.Prelude.{◌≡◌, ◌++◌, All, IfOk, OnOk, map};
ghost use Rattle.lane_layout.specs.Spots.{IsMarkOn, shape_of as spec_shape_of, spot_at as spec_spot_at, spot_in, spots_at, spots_from};

use chart_words::{Nodes, Terms, lines_of, title_of};
use lane_parts::{Mark, Shape, Spot};
use printed_graphs::{Node, Work};
use std::alloc::Global;
use svg_text::ChartFault;

/// Where token lines and nodes stand on a page, in pixels.
#[derive(Clone, Copy)]
pub struct Places<'a> {
    /// The width and the height of the page.
    pub width: u32,
    pub height: u32,
    /// How far right each token line is, and the number of its colour.
    pub across: &'a [u32],
    pub colours: &'a [u32],
    /// How far down each node is.
    pub down: &'a [u32],
}

/// The marks of the nodes of a graph, each once, in their order.
#[tactic(auto, using(crate::proofs::MarksOnPage::marks_on_page))]
pub fn marks_of(
    alloc: Global,
    places: &Places<'_>,
    nodes: &Nodes<'_>,
) -> Result<Vec<Mark>, ChartFault>
    ensures each { IfOk result (λ marks. map spot_in marks.items ≡ spots_from places.now 0 nodes.now.graph.now.nodes.items) }
    ensures inside { IfOk result (λ marks. All (IsMarkOn places.now.width places.now.height) marks.items) }
{
    let spots = spots_of(alloc, places, nodes.graph.nodes.as_slice())?;
    let marks = titled(alloc, nodes, spots.as_slice())?;
    Ok(marks)
}

// Marks at these spots.
fn titled(alloc: Global, nodes: &Nodes<'_>, spots: &[Spot]) -> Result<Vec<Mark>, ChartFault>
    ensures { IfOk result (λ marks. map spot_in marks.items ≡ spots.now) }
{
    let mut terms = Terms::new(alloc, nodes);
    let mut marks: Vec<Mark> = Vec::with_capacity(alloc, spots.len())?;
    for spot in spots {
        let title = title_of(alloc, &mut terms, number_of(spot.node))?;
        marks.push(Mark { spot: *spot, title })?;
    }
    Ok(marks)
}

// The number of a node, which has a text of its own only below 2^32.
fn number_of(node: usize) -> u32 {
    u32::try_from(node).unwrap_or(u32::MAX)
}

// The spots of these nodes, one after another.
fn spots_of(alloc: Global, places: &Places<'_>, nodes: &[Node]) -> Result<Vec<Spot>, ChartFault>
    ensures { IfOk result (λ spots. spots.items ≡ spots_from places.now 0 nodes.now) }
{
    let mut spots = Vec::with_capacity(alloc, nodes.len())?;
    let mut number = 0usize;
    for node in nodes {
        add_spots(&mut spots, places, number, node)?;
        number += 1;
    }
    Ok(spots)
}

// Adds the spots of a node.
fn add_spots(
    spots: &mut Vec<Spot>,
    places: &Places<'_>,
    number: usize,
    node: &Node,
) -> Result<(), ChartFault>
    ensures { OnOk result (spots.new.items ≡ spots.old.items ++ spots_at places.now number node.now) }
{
    let shape = shape_of(node);
    let lines = lines_of(node);
    for line in lines {
        spots.push(spot_at(places, number, shape, *line))?;
    }
    Ok(())
}

// The spot of a node on a token line.
fn spot_at(places: &Places<'_>, number: usize, shape: Shape, line: u32) -> Spot
    ensures { result ≡ spec_spot_at places.now number shape line }
{
    let x = places.across.get(line as usize).copied().unwrap_or(0);
    let y = places.down.get(number).copied().unwrap_or(0);
    Spot {
        node: number,
        line,
        x: x.min(places.width),
        y: y.min(places.height),
        colour: places.colours.get(line as usize).copied().unwrap_or(0),
        shape,
    }
}

// How the marks of a node look.
fn shape_of(node: &Node) -> Shape
    ensures { result ≡ spec_shape_of node.now }
{
    match node {
        Node::Operation { work, .. } => match work {
            Work::Load => Shape::Ring,
            Work::Apply(_) => Shape::Square,
            _ => Shape::Disc,
        },
        Node::Switch { .. } => Shape::Diamond,
        Node::Merge { .. } => Shape::Triangle,
    }
}
