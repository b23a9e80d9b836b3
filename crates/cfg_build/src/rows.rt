//! The pieces in the order of their numbers, and the edges in the order of theirs.

ghost use Rattle.std.specs.Prelude.{◌≡◌, ◌+◌, ◌<◌, ◌^◌, ◌∷◌, ◌++◌, All, length, map, IfOk, OnOk};
ghost use Rattle.closed_walks.specs.Graph.{IsGraph};
ghost use Rattle.cfg_build.specs.declared.parts.Target.{Target};
ghost use Rattle.cfg_build.specs.Control.{fan};
ghost use Rattle.cfg_build.specs.Joined.{Row, ways_to, rows};
ghost use Rattle.cfg_build.specs.Tables.{number_in, IsIn, HasRoom, room, AreParts, AreNumbered, pieces_of, edges_after, rows_after};

use crate::numbers::{ByTarget, is_joined};
use crate::parts::{Part, Target};
use crate::pieces::{Piece, PieceKind};
use closed_walks::Digraph;
use df_sequence::NoMemory;
use std::alloc::Global;

/// The nodes and the edges of a graph while it is drawn.
#[derive(Drop)]
pub(crate) struct Drawing {
    pub(crate) pieces: Vec<Piece>,
    pub(crate) edges: Vec<(u32, u32)>,
}

/// Draws the parts, with joins, and edge 0 from the end to the start.
pub(crate) fn drawn(
    alloc: Global,
    parts: &[Part],
    ways: &ByTarget,
    numbers: &ByTarget,
    finish: u32,
) -> Result<Drawing, NoMemory>
    requires parts { AreParts (room ways.now) parts.now }
    requires ways_room { HasRoom (room ways.now) ways.now }
    requires ways { (target : Target) → number_in ways.now target ≡ ways_to parts.now target }
    requires numbers_room { HasRoom (room ways.now) numbers.now }
    requires numbers { AreNumbered parts.now numbers.now }
    ensures pieces { IfOk result (λ d. d.pieces.items ≡ pieces_of (rows parts.now)) }
    ensures edges { IfOk result (λ d. d.edges.items ≡ (finish, 0) ∷ fan 0 (map (λ (row : Row). row.heads) (rows parts.now))) }
{
    let mut drawing = Drawing {
        pieces: Vec::new(alloc),
        edges: Vec::new(alloc),
    };
    drawing.edges.push((finish, 0))?;
    for part in parts {
        draw(&mut drawing, part, ways, numbers)?;
    }
    Ok(drawing)
}

// Draws a part after those that were drawn.
fn draw(
    drawing: &mut Drawing,
    part: &Part,
    ways: &ByTarget,
    numbers: &ByTarget,
) -> Result<(), NoMemory>
    requires own { IsIn ways.now part.now.own }
    requires outs { All (IsIn numbers.now) part.now.outs }
    requires few { length drawing.old.pieces.items + 2 < 2 ^ 32 }
    ensures pieces { OnOk result (drawing.new.pieces.items ≡ drawing.old.pieces.items ++ pieces_of (rows_after drawing.old ways.now numbers.now part.now)) }
    ensures edges { OnOk result (drawing.new.edges.items ≡ edges_after drawing.old (rows_after drawing.old ways.now numbers.now part.now)) }
{
    if is_joined(ways, part) {
        let join = drawing.pieces.len() as u32;
        drawing.pieces.push(Piece {
            kind: PieceKind::Join,
            line: part.piece.line,
            exec: part.piece.exec,
        })?;
        drawing.edges.push((join, join + 1))?;
    }
    let piece = drawing.pieces.len() as u32;
    drawing.pieces.push(part.piece)?;
    draw_outs(drawing, piece, part.outs.as_slice(), numbers)
}

// Draws the edges that leave a piece.
fn draw_outs(
    drawing: &mut Drawing,
    piece: u32,
    outs: &[Target],
    numbers: &ByTarget,
) -> Result<(), NoMemory>
    requires { All (IsIn numbers.now) outs.now }
    ensures pieces { drawing.new.pieces ≡ drawing.old.pieces }
    ensures edges { OnOk result (drawing.new.edges.items ≡ drawing.old.edges.items ++ map (λ head. (piece, head)) (map (number_in numbers.now) outs.now)) }
{
    for target in outs {
        drawing.edges.push((piece, numbers.get(*target)))?;
    }
    Ok(())
}

/// The graph of so many nodes with these edges.
pub(crate) fn digraph(alloc: Global, nodes: u32, edges: &[(u32, u32)]) -> Result<Digraph, NoMemory>
    requires sound { IsGraph (record { nodes = nodes; edges = edges.now }) }
    requires few { length edges.now < 2 ^ 31 }
    ensures { IfOk result (λ g. g ≡ record { nodes = nodes; edges = edges.now }) }
{
    let mut graph = Digraph::new(alloc, nodes)?;
    for edge in edges {
        graph.add_edge(alloc, edge.0, edge.1)?;
    }
    Ok(graph)
}
