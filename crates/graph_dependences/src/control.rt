//! Which decisions control which pieces.

ghost use Rattle.std.specs.Prelude.{◌≡◌, ◌==◌, ◌&&◌, ◌++◌, ◌↔◌, ◌≤◌, ◌<◌, ◌^◌, ℕ, false, true, Some, IfOk, OnOk, length, slice_get, slice_index_or};
ghost use Rattle.std.specs.List.{list_any};
ghost use Rattle.graph_dependences.specs.Added.{Adds, Below};
ghost use Rattle.graph_dependences.specs.Control.{Evades, back_edges, end_piece as spec_end_piece, is_branch as spec_is_branch, is_statement as spec_is_statement};
ghost use Rattle.graph_dependences.specs.Dependences.{DependsOnSome, leads};

use crate::dependence::{Dependence, add_if};
use crate::fault::DependenceFault;
use crate::joined::add_edge;
use crate::kinds::Kind;
use closed_walks::{Digraph, reached_from};
use printed_graphs::{Edge, Piece, PieceKind, PrintedFlow};
use std::alloc::Global;

// The most pieces of a flow graph.
const MOST_PIECES: usize = 268_435_456;

/// Adds the dependences on decisions.
pub fn add_controls(
    alloc: Global,
    flow: &PrintedFlow,
    all: &mut Vec<Dependence>,
) -> Result<(), DependenceFault>
    ensures { OnOk result (Adds all.old.items all.new.items (Below (DependsOnSome flow.now) (length flow.now.pieces.items))) }
{
    if flow.pieces.len() > MOST_PIECES {
        return Err(DependenceFault::TooLarge);
    }
    let mut number = 0u32;
    for piece in flow.pieces.as_slice() {
        add_controls_of(alloc, flow, number, *piece, all)?;
        number += 1;
    }
    Ok(())
}

// Adds the dependences of a piece on decisions.
fn add_controls_of(
    alloc: Global,
    flow: &PrintedFlow,
    second: u32,
    piece: Piece,
    all: &mut Vec<Dependence>,
) -> Result<(), DependenceFault>
    requires few { length flow.now.pieces.items ≤ 2 ^ 28 }
    requires piece { slice_get flow.now.pieces.items second ≡ Some piece }
    ensures { OnOk result (Adds all.old.items all.new.items (DependsOnSome flow.now second)) }
{
    if !is_statement(piece.kind) {
        return Ok(());
    }
    let evading = evading(alloc, flow, second)?;
    let always = leading(alloc, flow, evading.as_slice(), false)?;
    let perhaps = leading(alloc, flow, evading.as_slice(), true)?;
    let mut first = 0u32;
    for decision in flow.pieces.as_slice() {
        let dependence = Dependence {
            from: decision.line,
            to: piece.line,
            kind: Kind::Control,
            token_line: None,
            is_carried: second <= first,
        };
        let controls = controls(decision.kind, always.as_slice(), perhaps.as_slice(), first);
        add_if(controls, dependence, all)?;
        first += 1;
    }
    Ok(())
}

// Whether a piece of this kind is a decision that leads to marked pieces in both ways.
fn controls(kind: PieceKind, always: &[bool], perhaps: &[bool], first: u32) -> bool
    ensures { result ≡ (spec_is_branch kind && (slice_index_or always.now first false && slice_index_or perhaps.now first false)) }
{
    is_branch(kind) && (is_marked(always, first) && is_marked(perhaps, first))
}

// For each piece whether control may come to END from it without this one.
fn evading(alloc: Global, flow: &PrintedFlow, without: u32) -> Result<Vec<bool>, DependenceFault>
    requires { length flow.now.pieces.items ≤ 2 ^ 28 }
    ensures { IfOk result (λ marks. (piece : ℕ) → (slice_index_or marks.items piece false ≡ true) ↔ Evades flow.now without piece) }
{
    let mut backward = Digraph::new(alloc, flow.pieces.len() as u32)?;
    add_back_edges(alloc, without, flow.edges.as_slice(), &mut backward)?;
    let end = end_piece(flow);
    if end >= backward.nodes() {
        return Err(DependenceFault::TooLarge);
    }
    Ok(reached_from(alloc, &backward, end)?)
}

// The piece END.
fn end_piece(flow: &PrintedFlow) -> u32
    ensures { result ≡ spec_end_piece flow.now }
{
    match flow.edges.first() {
        Some(edge) => edge.from,
        None => 0,
    }
}

// Adds edges turned round, without those that leave a piece.
fn add_back_edges(
    alloc: Global,
    without: u32,
    edges: &[Edge],
    backward: &mut Digraph,
) -> Result<(), DependenceFault>
    ensures nodes { OnOk result (backward.new.nodes ≡ backward.old.nodes) }
    ensures edges { OnOk result (backward.new.edges ≡ backward.old.edges ++ back_edges without edges.now) }
{
    for edge in edges {
        if edge.from != without {
            add_edge(alloc, u64::from(edge.to), u64::from(edge.from), backward)?;
        }
    }
    Ok(())
}

// For each piece whether an edge leads from it to one that is marked so.
fn leading(
    alloc: Global,
    flow: &PrintedFlow,
    marks: &[bool],
    wanted: bool,
) -> Result<Vec<bool>, DependenceFault>
    ensures pieces { IfOk result (λ some. length some.items ≡ length flow.now.pieces.items) }
    ensures edges { IfOk result (λ some. (piece : ℕ) → piece < length flow.now.pieces.items → slice_index_or some.items piece false ≡ list_any (leads marks.now wanted piece) flow.now.edges.items) }
{
    let mut some = vec![in alloc; false; flow.pieces.len()]?;
    for edge in flow.edges.as_slice() {
        if is_marked(marks, edge.to) == wanted
            && let Some(mark) = some.get_mut(edge.from as usize)
        {
            *mark = true;
        }
    }
    Ok(some)
}

// Whether a piece is marked.
fn is_marked(marks: &[bool], piece: u32) -> bool
    ensures { result ≡ slice_index_or marks.now piece false }
{
    match marks.get(piece as usize) {
        Some(mark) => *mark,
        None => false,
    }
}

// Whether a piece chooses between edges.
fn is_branch(kind: PieceKind) -> bool
    ensures { result ≡ spec_is_branch kind }
{
    kind == PieceKind::Branch
}

// Whether a piece is one of a statement that does something.
fn is_statement(kind: PieceKind) -> bool
    ensures { result ≡ spec_is_statement kind }
{
    kind == PieceKind::Act || kind == PieceKind::Branch
}
