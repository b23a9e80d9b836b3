//! What was printed of a text, with the lines and names of its source.

ghost use Rattle.std.specs.Prelude.{◌≡◌, ℕ, OnOk, option_map, slice_get};
ghost use Rattle.source_maps.specs.Places.{map_of};
ghost use Rattle.source_maps.specs.Told.{AreBoth, TellsNames, TellsSource, TellsTokenLine, end_told, piece_told};

use crate::map::SourceMap;
use printed_graphs::{Piece, Printed, TokenLine, TraceEnd};
use std::alloc::{AllocError, Global};

/// Tells lines and names of the source in what was printed of the text that was made of it. Nothing else of it changes.
pub fn tell_source(
    alloc: Global,
    source: SourceMap<'_>,
    printed: &mut Printed,
) -> Result<(), AllocError>
    ensures { OnOk result (TellsSource (map_of source.entry) printed.old printed.new) }
{
    if let Some(flow) = &mut printed.flow {
        tell_pieces(source, &mut flow.pieces);
    }
    if let Some(graph) = &mut printed.graph {
        tell_token_lines(alloc, source, &mut graph.lines)?;
    }
    if let Some(trace) = &mut printed.trace {
        trace.end = end_of(source, trace.end);
    }
    Ok(())
}

// The lines of pieces.
fn tell_pieces(source: SourceMap<'_>, pieces: &mut Vec<Piece>)
    ensures { (k : ℕ) → slice_get pieces.new.items k ≡ option_map (piece_told (map_of source.entry)) (slice_get pieces.old.items k) }
{
    for k in 0..pieces.len() {
        pieces[k].line = source.line(pieces[k].line);
    }
}

// The names and the loops of token lines.
fn tell_token_lines(
    alloc: Global,
    source: SourceMap<'_>,
    token_lines: &mut Vec<TokenLine>,
) -> Result<(), AllocError>
    ensures { OnOk result ((k : ℕ) → AreBoth (TellsTokenLine (map_of source.entry)) (slice_get token_lines.old.items k) (slice_get token_lines.new.items k)) }
{
    for k in 0..token_lines.len() {
        tell_token_line(alloc, source, &mut token_lines[k])?;
    }
    Ok(())
}

// The names of a token line, or the line of its loop.
fn tell_token_line(
    alloc: Global,
    source: SourceMap<'_>,
    token_line: &mut TokenLine,
) -> Result<(), AllocError>
    ensures { OnOk result (TellsTokenLine (map_of source.entry) token_line.old token_line.new) }
{
    match token_line {
        TokenLine::Output => {}
        TokenLine::Class(names) => tell_names(alloc, source, names)?,
        TokenLine::Loop(line) => *line = source.line(*line),
    }
    Ok(())
}

// The names of a token line.
fn tell_names(
    alloc: Global,
    source: SourceMap<'_>,
    names: &mut Vec<Vec<u8>>,
) -> Result<(), AllocError>
    ensures { OnOk result (TellsNames (map_of source.entry) names.old.items names.new.items) }
{
    let mut told = Vec::with_capacity(alloc, names.len())?;
    for name in names.as_slice() {
        told.push(Vec::from_slice(alloc, source.name(name.as_slice()))?)?;
    }
    *names = told;
    Ok(())
}

// The line of a trap.
fn end_of(source: SourceMap<'_>, end: TraceEnd) -> TraceEnd
    ensures { result ≡ end_told (map_of source.entry) end }
{
    match end {
        TraceEnd::Trapped { trap, line } => TraceEnd::Trapped {
            trap,
            line: source.line(line),
        },
        other => other,
    }
}
