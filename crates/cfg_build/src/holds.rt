//! Holds: pieces that stand where control can't come to the end.

ghost use Rattle.std.specs.Prelude.{◌≡◌, ◌+◌, ◌<◌, ◌^◌, ◌&&◌, ◌==◌, true, false, not, All, length, filter, slice_index_or, IfOk, OnOk};
ghost use Rattle.std.specs.List.{range_with_len, position_or_len};
ghost use Rattle.closed_walks.specs.Graph.{IsGraph, edge_count};
ghost use Rattle.cfg_build.specs.Flow.{piece_at};
ghost use Rattle.cfg_build.specs.Holds.{is_on_cycle, is_held, is_join, held_edge, with_hold};
ghost use Rattle.cfg_build.specs.Tables.{drawn_as, is_entered_from_above, AreClosedBack, HoldsNext, with_holds};

use crate::pieces::{Piece, PieceKind};
use crate::rows::Drawing;
use closed_walks::{Digraph, mark_back, reached_from, reaching_is_told};
use df_sequence::NoMemory;
use std::alloc::Global;

/// The pieces that get a hold, in rising order.
pub(crate) fn held_pieces(alloc: Global, g: &Digraph, finish: u32) -> Result<Vec<u32>, NoMemory>
    requires { finish < g.now.nodes }
    ensures { IfOk result (λ held. held.items ≡ filter (is_held g.now finish) (range_with_len 0 g.now.nodes)) }
{
    reaching_is_told();
    let mut leaving = vec![in alloc; false; g.nodes() as usize]?;
    mark_back(alloc, g, finish, &mut leaving)?;
    let mut held = Vec::new(alloc);
    for x in 0..g.nodes() {
        hold_where_needed(alloc, g, x, &mut held, &mut leaving)?;
    }
    Ok(held)
}

// Holds the piece where it is on a cycle, and control leaves from it neither for the end nor for a hold; then control leaves from
// each piece that reaches it.
fn hold_where_needed(
    alloc: Global,
    g: &Digraph,
    x: u32,
    held: &mut Vec<u32>,
    leaving: &mut Vec<bool>,
) -> Result<(), NoMemory>
    requires sound { IsGraph g.now }
    requires node { x < g.now.nodes }
    requires nodes { length leaving.old.items ≡ g.now.nodes }
    requires closed { AreClosedBack g.now leaving.old.items }
    ensures nodes { length leaving.new.items ≡ length leaving.old.items }
    ensures closed { OnOk result (AreClosedBack g.now leaving.new.items) }
    ensures held { OnOk result (HoldsNext g.now x held.old.items leaving.old.items held.new.items leaving.new.items) }
{
    reaching_is_told();
    if !stays(alloc, g, x, leaving)? {
        return Ok(());
    }
    held.push(x)?;
    mark_back(alloc, g, x, leaving)
}

// Whether the node isn't marked, and a way leads back to it over an edge from a node that isn't lower.
fn stays(alloc: Global, g: &Digraph, x: u32, leaving: &[bool]) -> Result<bool, NoMemory>
    requires node { x < g.now.nodes }
    requires sound { IsGraph g.now }
    requires marks { length leaving.now ≡ g.now.nodes }
    ensures { IfOk result (λ stays. stays ≡ (not (slice_index_or leaving.now x false) && (is_entered_from_above g.now x && is_on_cycle g.now x))) }
{
    if leaving[x as usize] || !is_entered_from_above(g, x) {
        return Ok(false);
    }
    is_on_cycle(alloc, g, x)
}

// Whether an edge leads to the node from one that isn't lower.
fn is_entered_from_above(g: &Digraph, x: u32) -> bool
    requires { x < g.now.nodes }
    ensures { result ≡ is_entered_from_above g.now x }
{
    for e in g.edges_at(x) {
        if g.to(*e) == x && x <= g.from(*e) {
            return true;
        }
    }
    false
}

// Whether an edge leads to the node from one that it reaches.
fn is_on_cycle(alloc: Global, g: &Digraph, x: u32) -> Result<bool, NoMemory>
    requires sound { IsGraph g.now }
    requires node { x < g.now.nodes }
    ensures { IfOk result (λ found. found ≡ is_on_cycle g.now x) }
{
    reaching_is_told();
    let reached = reached_from(alloc, g, x)?;
    for e in g.edges_at(x) {
        if g.to(*e) == x && reached[g.from(*e) as usize] {
            return Ok(true);
        }
    }
    Ok(false)
}

/// Puts the holds onto their edges.
pub(crate) fn put_holds(
    drawing: &mut Drawing,
    g: &Digraph,
    held: &[u32],
    finish: u32,
) -> Result<(), NoMemory>
    requires pieces { length drawing.old.pieces.items ≡ g.now.nodes }
    requires edges { length drawing.old.edges.items ≡ edge_count g.now }
    requires nodes { All (λ x. x < g.now.nodes) held.now }
    requires held { All (λ x. held_edge g.now x (piece_at drawing.old.pieces.items x).kind < edge_count g.now) held.now }
    requires few { length drawing.old.pieces.items + length held.now < 2 ^ 32 }
    ensures { OnOk result (drawn_as drawing.new ≡ with_holds finish g.now drawing.old.pieces.items (drawn_as drawing.old) held.now) }
{
    for x in held {
        let edge = held_edge(g, *x, drawing.pieces[*x as usize].kind);
        put_hold(drawing, *x, edge, finish)?;
    }
    Ok(())
}

// The edge on which the hold of a piece stands: the one out of a join, the one into another piece.
fn held_edge(g: &Digraph, x: u32, kind: PieceKind) -> u32
    requires node { x < g.now.nodes }
    requires some { held_edge g.now x kind < edge_count g.now }
    ensures { result ≡ held_edge g.now x kind }
{
    if is_join(kind) {
        first_out(g, x)
    } else {
        first_in(g, x)
    }
}

fn is_join(kind: PieceKind) -> bool
    ensures { result ≡ is_join kind }
{
    matches!(kind, PieceKind::Join)
}

// The first edge that leaves the node.
fn first_out(g: &Digraph, x: u32) -> u32
    requires node { x < g.now.nodes }
    requires some { position_or_len (λ e. e.0 == x) g.now.edges < edge_count g.now }
    ensures { result ≡ position_or_len (λ e. e.0 == x) g.now.edges }
{
    for e in g.edges_at(x) {
        if g.from(*e) == x {
            return *e;
        }
    }
    0
}

// The first edge that comes to the node.
fn first_in(g: &Digraph, x: u32) -> u32
    requires node { x < g.now.nodes }
    requires some { position_or_len (λ e. e.1 == x) g.now.edges < edge_count g.now }
    ensures { result ≡ position_or_len (λ e. e.1 == x) g.now.edges }
{
    for e in g.edges_at(x) {
        if g.to(*e) == x {
            return *e;
        }
    }
    0
}

// Puts a hold onto an edge: it stays to where the edge led, and leaves to the end.
fn put_hold(drawing: &mut Drawing, x: u32, edge: u32, finish: u32) -> Result<(), NoMemory>
    requires piece { x < length drawing.old.pieces.items }
    requires edge { edge < length drawing.old.edges.items }
    requires few { length drawing.old.pieces.items < 2 ^ 32 }
    ensures { OnOk result (drawn_as drawing.new ≡ with_hold finish (drawn_as drawing.old) edge (piece_at drawing.old.pieces.items x)) }
{
    let hold = drawing.pieces.len() as u32;
    let piece = drawing.pieces[x as usize];
    drawing.pieces.push(Piece {
        kind: PieceKind::Hold,
        line: piece.line,
        exec: piece.exec,
    })?;
    let (from, to) = drawing.edges[edge as usize];
    drawing.edges[edge as usize] = (from, hold);
    drawing.edges.push((hold, to))?;
    drawing.edges.push((hold, finish))?;
    Ok(())
}
