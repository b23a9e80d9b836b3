//! Reads the lines of a flow graph.

ghost use Rattle.std.specs.Prelude.{◌≡◌, ◌+◌, ◌<◌, ◌^◌, ◌++◌, All, IfOk, length};
ghost use Rattle.std.specs.Fmt.{decimal};
ghost use Rattle.printed_graphs.specs.Names.{kind_text};
ghost use Rattle.printed_graphs.specs.Printable.{IsPrintablePiece, IsPrintableEdge, IsPrintableRegion, IsPrintableFlow};
ghost use Rattle.printed_graphs.specs.Words.{lines_from};
ghost use Rattle.printed_graphs.specs.Reading.{Gives, Passes, PassesInMemory, count_at, counts_at, piece_at, edge_at, region_at, lines_at, flow_at, after_name, is_kind};
ghost use Rattle.printed_graphs.specs.FlowText.{counts_text, piece_text, edge_text, region_text, flow_text};

use crate::cursor::Cursor;
use crate::fault::Stop;
use crate::words::kind_of;
use crate::{Edge, Piece, PieceKind, PrintedFlow, Region};
use std::alloc::Global;

// How many of each there are.
#[derive(Clone, Copy)]
struct Counts {
    pieces: u32,
    edges: u32,
    classes: u32,
    regions: u32,
}

/// A flow graph.
#[tactic(auto, unfolding(crate::specs::Reading::flow_at))]
pub(crate) fn read_flow(alloc: Global, cursor: &mut Cursor<'_>) -> Result<PrintedFlow, Stop>
    ensures text { IfOk result (λ flow. cursor.old.rest.now ≡ flow_text flow ++ cursor.new.rest.now) }
    ensures after { PassesInMemory result cursor.new.rest.now (flow_at cursor.old.rest.now) }
    ensures printable { IfOk result IsPrintableFlow }
{
    let counts = read_counts(cursor)?;
    let pieces = read_pieces(alloc, counts.pieces, cursor)?;
    let edges = read_edges(alloc, counts.edges, cursor)?;
    let regions = read_regions(alloc, counts.regions, cursor)?;
    Ok(PrintedFlow {
        classes: counts.classes,
        pieces,
        edges,
        regions,
    })
}

// The first line.
#[tactic(auto, unfolding(crate::specs::Reading::counts_at))]
fn read_counts(cursor: &mut Cursor<'_>) -> Result<Counts, Stop>
    ensures text { IfOk result (λ n. cursor.old.rest.now ≡ counts_text n.pieces n.edges n.classes n.regions ++ cursor.new.rest.now) }
    ensures after { Gives result cursor.new.rest.now (counts_at cursor.old.rest.now) }
{
    let pieces = count_after(b"PIECES ", cursor)?;
    let edges = count_after(b" EDGES ", cursor)?;
    let classes = count_after(b" CLASSES ", cursor)?;
    let regions = count_after(b" REGIONS ", cursor)?;
    cursor.passes(b"\n")?;
    Ok(Counts {
        pieces,
        edges,
        classes,
        regions,
    })
}

// The number after a word.
#[tactic(auto, unfolding(crate::specs::Reading::count_at))]
fn count_after(word: &[u8], cursor: &mut Cursor<'_>) -> Result<u32, Stop>
    ensures text { IfOk result (λ n. cursor.old.rest.now ≡ word.now ++ decimal n ++ cursor.new.rest.now) }
    ensures after { Gives result cursor.new.rest.now (count_at word.now cursor.old.rest.now) }
{
    cursor.passes(word)?;
    cursor.number()
}

// The lines of so many pieces.
fn read_pieces(alloc: Global, count: u32, cursor: &mut Cursor<'_>) -> Result<Vec<Piece>, Stop>
    ensures text { IfOk result (λ v. cursor.old.rest.now ≡ lines_from piece_text 0 v.items ++ cursor.new.rest.now) }
    ensures after { PassesInMemory result cursor.new.rest.now (lines_at piece_at 0 count cursor.old.rest.now) }
    ensures printable { IfOk result (λ v. All IsPrintablePiece v.items) }
    ensures count { IfOk result (λ v. length v.items ≡ count) }
{
    let mut all = Vec::new(alloc);
    for k in 0..count {
        all.push(read_piece(k, cursor)?)?;
    }
    Ok(all)
}

// The line of the piece with this number.
#[tactic(auto, unfolding(crate::specs::Reading::piece_at))]
fn read_piece(k: u32, cursor: &mut Cursor<'_>) -> Result<Piece, Stop>
    ensures text { IfOk result (λ piece. cursor.old.rest.now ≡ piece_text k piece ++ cursor.new.rest.now) }
    ensures after { Passes result cursor.new.rest.now (piece_at k cursor.old.rest.now) }
    ensures printable { IfOk result IsPrintablePiece }
{
    cursor.passes(b"P ")?;
    cursor.expects(k)?;
    cursor.passes(b" ")?;
    let kind = read_kind(cursor)?;
    let line = cursor.field()?;
    cursor.passes(b"\n")?;
    Ok(Piece { kind, line })
}

// The kind of a piece.
#[tactic(auto, unfolding(crate::specs::Reading::after_name))]
fn read_kind(cursor: &mut Cursor<'_>) -> Result<PieceKind, Stop>
    ensures text { IfOk result (λ kind. cursor.old.rest.now ≡ kind_text kind ++ cursor.new.rest.now) }
    ensures after { Passes result cursor.new.rest.now (after_name is_kind cursor.old.rest.now) }
{
    match kind_of(cursor.word()) {
        Some(kind) => Ok(kind),
        None => Err(Stop::Unread),
    }
}

// The lines of so many edges.
fn read_edges(alloc: Global, count: u32, cursor: &mut Cursor<'_>) -> Result<Vec<Edge>, Stop>
    ensures text { IfOk result (λ v. cursor.old.rest.now ≡ lines_from edge_text 0 v.items ++ cursor.new.rest.now) }
    ensures after { PassesInMemory result cursor.new.rest.now (lines_at edge_at 0 count cursor.old.rest.now) }
    ensures printable { IfOk result (λ v. All IsPrintableEdge v.items) }
    ensures count { IfOk result (λ v. length v.items ≡ count) }
{
    let mut all = Vec::new(alloc);
    for k in 0..count {
        all.push(read_edge(k, cursor)?)?;
    }
    Ok(all)
}

// The line of the edge with this number.
#[tactic(auto, unfolding(crate::specs::Reading::edge_at))]
fn read_edge(k: u32, cursor: &mut Cursor<'_>) -> Result<Edge, Stop>
    ensures text { IfOk result (λ edge. cursor.old.rest.now ≡ edge_text k edge ++ cursor.new.rest.now) }
    ensures after { Passes result cursor.new.rest.now (edge_at k cursor.old.rest.now) }
    ensures printable { IfOk result IsPrintableEdge }
{
    cursor.passes(b"E ")?;
    cursor.expects(k)?;
    let from = cursor.field()?;
    let to = cursor.field()?;
    let class = cursor.field()?;
    cursor.passes(b"\n")?;
    Ok(Edge { from, to, class })
}

// The lines of so many regions. Their numbers begin with 1.
fn read_regions(alloc: Global, count: u32, cursor: &mut Cursor<'_>) -> Result<Vec<Region>, Stop>
    ensures text { IfOk result (λ v. cursor.old.rest.now ≡ lines_from region_text 0 v.items ++ cursor.new.rest.now) }
    ensures after { PassesInMemory result cursor.new.rest.now (lines_at region_at 0 count cursor.old.rest.now) }
    ensures printable { IfOk result (λ v. All IsPrintableRegion v.items) }
    ensures count { IfOk result (λ v. length v.items ≡ count) }
{
    let mut all = Vec::new(alloc);
    for k in 0..count {
        all.push(read_region(k, cursor)?)?;
    }
    Ok(all)
}

// The line of the region with this place in the list.
#[tactic(auto, unfolding(crate::specs::Reading::region_at))]
fn read_region(place: u32, cursor: &mut Cursor<'_>) -> Result<Region, Stop>
    requires { place + 1 < 2 ^ 32 }
    ensures text { IfOk result (λ region. cursor.old.rest.now ≡ region_text place region ++ cursor.new.rest.now) }
    ensures after { Passes result cursor.new.rest.now (region_at place cursor.old.rest.now) }
    ensures printable { IfOk result IsPrintableRegion }
{
    cursor.passes(b"R ")?;
    cursor.expects(place + 1)?;
    let entry = cursor.field()?;
    let exit = cursor.field()?;
    let parent = cursor.field()?;
    cursor.passes(b"\n")?;
    Ok(Region {
        entry,
        exit,
        parent,
    })
}
