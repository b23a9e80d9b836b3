//! The picture of a run in rounds.

ghost use Rattle.std.specs.Prelude.{◌≡◌, All, IfOk, map, string_bytes};
ghost use Rattle.round_charts.specs.Grid.{IsInColumn, key_drawn, key_in};
ghost use Rattle.round_charts.specs.Picture.{IsBandOn, IsCellOn, IsOnPage, IsRulerOn, Shows};

use crate::grid::{Cell, Grid, grid_of};
use crate::keys::keys_on;
use crate::labels::{label_of, style_of};
use crate::page::Page;
use crate::parts::{Band, DrawnCell, Letters, Rounds, Ruler, Style};
use crate::scale::{ROW, Scale, TOP, y_of};
use chart_words::{Nodes, SourceLines, Terms, title_of};
use printed_graphs::{PrintedFlow, PrintedGraph, PrintedTrace};
use std::alloc::Global;
use svg_text::{ChartFault, SourceLine};

// The most rounds that are drawn.
const MOST_ROUNDS: u32 = 500;

// The room at the right of the cells, and that below them, for what the colours mean.
const MARGIN: u32 = 24;

const FOOT: u32 = 64;

// The width of a page that has room for what the colours mean.
const NARROWEST: u32 = 780;

// How high the bar of the widest round is, and where the bars stand.
const BAR_HEIGHT: u32 = 60;

const BARS_END: u32 = 96;

// How many characters of a line are shown at most.
const LETTERS: usize = 40;

// How far right the lines of the source begin.
const TEXT: u32 = 44;

/// The run of a trace with unlimited processors, as SVG: a row for each line of the source, a column for each round, a
/// cell for each firing, and above them how many nodes fire in each round.
///
/// Element k of `rounds` is the round of firing k of the trace, counted from 1. Rounds after the 500th are left out, and
/// the picture says so.
///
/// # Errors
///
/// `TooLarge` where there would be 2^32 rows, and `NoMemory`.
pub fn rounds_chart(
    alloc: Global,
    flow: &PrintedFlow,
    graph: &PrintedGraph,
    trace: &PrintedTrace,
    rounds: &[u32],
    source: &[u8],
) -> Result<String, ChartFault>
    ensures { IfOk result (λ text. Shows 500 trace.now.firings.items rounds.now (string_bytes text)) }
{
    let nodes = Nodes::of(alloc, flow, graph)?;
    let lines = SourceLines::of(alloc, source)?;
    let firings = trace.firings.as_slice();
    let grid = grid_of(alloc, &nodes, firings, rounds, MOST_ROUNDS)?;
    let letters = lines.longest_of(flow.pieces.as_slice()).min(LETTERS) as u32;
    let picture = picture_of(
        alloc,
        &nodes,
        &lines,
        &grid,
        Scale::of(letters, grid.columns),
    )?;
    let text = format!(in alloc; "{picture}")?;
    Ok(text)
}

// The parts of the picture of a grid.
fn picture_of<'a>(
    alloc: Global,
    nodes: &Nodes<'_>,
    lines: &SourceLines<'a>,
    grid: &Grid,
    scale: Scale,
) -> Result<Rounds<'a>, ChartFault>
    requires { All IsInColumn grid.now.cells.items }
    ensures each { IfOk result (λ picture. map key_drawn picture.cells.items ≡ map key_in grid.now.cells.items) }
    ensures inside { IfOk result IsOnPage }
    ensures firings { IfOk result (λ picture. picture.firings ≡ grid.now.firings) }
{
    let page = Page {
        width: scale
            .x_of(grid.columns)
            .saturating_add(MARGIN)
            .max(NARROWEST),
        height: y_of(grid.rows).saturating_add(FOOT),
    };
    Ok(Rounds {
        width: page.width,
        height: page.height,
        rounds: grid.columns,
        firings: grid.firings,
        rulers: rulers_of(alloc, grid.widths.as_slice(), scale, page)?,
        bands: bands_of(alloc, lines, grid, scale, page)?,
        cells: cells_of(alloc, nodes, grid.cells.as_slice(), scale, page)?,
        keys: keys_on(alloc, page, y_of(grid.rows).saturating_add(MARGIN))?,
    })
}

// The height of a bar, where the widest round has `most` firings.
fn height_of(width: u32, most: u32) -> u32 {
    (width.min(most).saturating_mul(BAR_HEIGHT) / most.max(1)).min(BAR_HEIGHT)
}

// The most firings of a round.
fn most_of(widths: &[u32]) -> u32 {
    let mut most = 0u32;
    for width in widths {
        most = most.max(*width);
    }
    most
}

// The bars above the columns, with how many nodes fire in each and the numbers of the rounds.
fn rulers_of(
    alloc: Global,
    widths: &[u32],
    scale: Scale,
    page: Page,
) -> Result<Vec<Ruler>, ChartFault>
    ensures { IfOk result (λ rulers. All (IsRulerOn page) rulers.items) }
{
    let most = most_of(widths);
    let mut rulers = Vec::with_capacity(alloc, widths.len())?;
    let mut column = 0u32;
    for width in widths {
        let height = height_of(*width, most);
        let top = BARS_END.saturating_sub(height);
        let left = scale.x_of(column).saturating_add(1);
        let bar = page.rectangle(left, top, scale.cell.saturating_sub(2), height);
        rulers.push(Ruler::Bar(bar))?;
        let x = scale.middle_of(column);
        if scale.is_labelled() {
            let y = top.saturating_sub(3);
            rulers.push(page.number(x, y, u64::from(*width)))?;
        }
        if scale.is_numbered(column) {
            rulers.push(page.number(x, TOP - 4, u64::from(column).saturating_add(1)))?;
        }
        column = column.saturating_add(1);
    }
    Ok(rulers)
}

// The lines of the source, every other one on a ground of its own.
fn bands_of<'a>(
    alloc: Global,
    lines: &SourceLines<'a>,
    grid: &Grid,
    scale: Scale,
    page: Page,
) -> Result<Vec<Band<'a>>, ChartFault>
    ensures { IfOk result (λ bands. All (IsBandOn page) bands.items) }
{
    let width = scale.x_of(grid.columns).saturating_add(MARGIN / 2);
    let mut bands = Vec::with_capacity(alloc, grid.lines.len())?;
    let mut is_shaded = true;
    let mut next = 0usize;
    for found in grid.lines.iter() {
        next = next.saturating_add(1);
        let end = match grid.lines.get(next) {
            Some(below) => below.row,
            None => grid.rows,
        };
        let text = lines.line(found.line);
        let y = y_of(found.row);
        let height = y_of(end).saturating_sub(y);
        bands.push(Band {
            source: SourceLine {
                line: found.line,
                text: text.get(..LETTERS).unwrap_or(text),
                x: TEXT.min(page.width),
                y: y.saturating_add(13).min(page.height),
            },
            shade: if is_shaded {
                Some(page.rectangle(0, y, width, height))
            } else {
                None
            },
        })?;
        is_shaded = !is_shaded;
    }
    Ok(bands)
}

// The firings of these cells, each once.
fn cells_of(
    alloc: Global,
    nodes: &Nodes<'_>,
    cells: &[Cell],
    scale: Scale,
    page: Page,
) -> Result<Vec<DrawnCell>, ChartFault>
    requires { All IsInColumn cells.now }
    ensures each { IfOk result (λ drawn. map key_drawn drawn.items ≡ map key_in cells.now) }
    ensures inside { IfOk result (λ drawn. All (IsCellOn scale.left scale.cell page) drawn.items) }
{
    let mut terms = Terms::new(alloc, nodes);
    let mut drawn = Vec::with_capacity(alloc, cells.len())?;
    for cell in cells {
        let title = title_of(alloc, &mut terms, cell.seat.node)?;
        let letters = letters_of(alloc, nodes, *cell, scale, page)?;
        drawn.push(drawn_cell(nodes, *cell, scale, page, title, letters))?;
    }
    Ok(drawn)
}

// A cell with these words.
fn drawn_cell(
    nodes: &Nodes<'_>,
    cell: Cell,
    scale: Scale,
    page: Page,
    title: String,
    letters: Option<Letters>,
) -> DrawnCell
    requires { IsInColumn cell }
    ensures key { key_drawn result ≡ key_in cell }
    ensures inside { IsCellOn scale.left scale.cell page result }
{
    let x = scale.x_of(cell.column).saturating_add(1);
    let width = scale.cell.saturating_sub(1);
    DrawnCell {
        firing: cell.seat.firing,
        node: cell.seat.node,
        round: cell.seat.round,
        square: page.rectangle(x, y_of(cell.row), width, ROW - 1),
        style: match nodes.node(cell.seat.node) {
            Some(node) => style_of(node),
            None => Style::Route,
        },
        title,
        letters,
    }
}

// What stands on a cell, if it has room.
fn letters_of(
    alloc: Global,
    nodes: &Nodes<'_>,
    cell: Cell,
    scale: Scale,
    page: Page,
) -> Result<Option<Letters>, ChartFault> {
    let Some(node) = nodes.node(cell.seat.node) else {
        return Ok(None);
    };
    if !scale.is_labelled() {
        return Ok(None);
    }
    Ok(Some(Letters {
        place: page.place(
            scale.middle_of(cell.column),
            y_of(cell.row).saturating_add(12),
        ),
        text: label_of(alloc, nodes.graph, node)?,
    }))
}
