//! Where the firings of a run stand in a picture of its rounds.

ghost use Rattle.std.specs.Prelude.{◌≡◌, [], ◌++◌, ◌∷◌, All, OnOk, IfOk, length, map, min};
ghost use Rattle.std.specs.List.Sorted.{IsPermutation};
ghost use Rattle.round_charts.specs.Grid.{IsInColumn, IsInGrid, key_in, key_of, keys_from};

use chart_words::Nodes;
use printed_graphs::Firing;
use std::alloc::Global;
use svg_text::ChartFault;

/// A firing in the order of the picture: by line, by round, and by their order in the run.
#[derive(Clone, Copy, PartialEq, Eq, PartialOrd, Ord)]
pub struct Seat {
    /// The line of the source.
    pub line: u32,
    /// The round, counted from 1.
    pub round: u32,
    /// Its place in the run, counted from 0.
    pub firing: usize,
    /// Its node.
    pub node: u32,
}

/// A firing at its place in the grid.
#[derive(Clone, Copy)]
pub struct Cell {
    /// The firing.
    pub seat: Seat,
    /// Its column, counted from 0.
    pub column: u32,
    /// Its row, counted from 0.
    pub row: u32,
}

/// The rows of a line of the source.
#[derive(Clone, Copy)]
pub struct LineRows {
    /// The line.
    pub line: u32,
    /// The first of its rows.
    pub row: u32,
}

/// A grid with a column for each round and rows for each line of the source that fires.
#[derive(Drop)]
pub struct Grid {
    /// How many columns there are.
    pub columns: u32,
    /// How many rows there are.
    pub rows: u32,
    /// The rows of each line, in the order of the lines.
    pub lines: Vec<LineRows>,
    /// The firings.
    pub cells: Vec<Cell>,
    /// How many nodes fire in each column.
    pub widths: Vec<u32>,
    /// How many firings there are, with those that come later than the last column.
    pub firings: usize,
}

/// Places the firings of the rounds up to `most`, each once; element k of `rounds` is the round of firing k, counted from 1.
pub fn grid_of(
    alloc: Global,
    nodes: &Nodes<'_>,
    firings: &[Firing],
    rounds: &[u32],
    most: u32,
) -> Result<Grid, ChartFault>
    ensures each { IfOk result (λ grid. IsPermutation (keys_from most 0 firings.now rounds.now) (map key_in grid.cells.items)) }
    ensures inside { IfOk result (λ grid. All (IsInGrid grid.columns grid.rows) grid.cells.items) }
    ensures columns { IfOk result (λ grid. All IsInColumn grid.cells.items) }
    ensures firings { IfOk result (λ grid. grid.firings ≡ min (length firings.now) (length rounds.now)) }
{
    let order = in_order(alloc, nodes, firings, rounds, most)?;
    let mut grid = Grid {
        columns: 0,
        rows: 0,
        lines: Vec::new(alloc),
        cells: Vec::new(alloc),
        widths: Vec::new(alloc),
        firings: firings.len().min(rounds.len()),
    };
    stack(&mut grid, order.as_slice())?;
    Ok(grid)
}

// The firings of the rounds up to `most`, in the order of the picture.
#[tactic(auto, using(crate::proofs::Cells::reordered))]
fn in_order(
    alloc: Global,
    nodes: &Nodes<'_>,
    firings: &[Firing],
    rounds: &[u32],
    most: u32,
) -> Result<Vec<Seat>, ChartFault>
    ensures { IfOk result (λ order. IsPermutation (keys_from most 0 firings.now rounds.now) (map key_of order.items)) }
{
    let mut seats = seats_of(alloc, nodes, firings, rounds, most)?;
    seats.sort()?;
    Ok(seats)
}

// The firings of the rounds up to `most`, in the order of the run.
fn seats_of(
    alloc: Global,
    nodes: &Nodes<'_>,
    firings: &[Firing],
    rounds: &[u32],
    most: u32,
) -> Result<Vec<Seat>, ChartFault>
    ensures { IfOk result (λ seats. map key_of seats.items ≡ keys_from most 0 firings.now rounds.now) }
{
    let mut seats = Vec::new(alloc);
    let mut firing = 0usize;
    for found in firings {
        let Some(round) = rounds.get(firing) else {
            return Ok(seats);
        };
        if *round <= most {
            seats.push(Seat {
                line: nodes.line_of(found.node),
                round: *round,
                firing,
                node: found.node,
            })?;
        }
        firing += 1;
    }
    Ok(seats)
}

// Puts firings into the grid, one below another where they share a line and a round.
fn stack(grid: &mut Grid, order: &[Seat]) -> Result<(), ChartFault>
    requires inside { All (IsInGrid grid.old.columns grid.old.rows) grid.old.cells.items }
    requires none { grid.old.cells.items ≡ [] }
    ensures firings { OnOk result (grid.new.firings ≡ grid.old.firings) }
    ensures inside { OnOk result (All (IsInGrid grid.new.columns grid.new.rows) grid.new.cells.items) }
    ensures columns { OnOk result (All IsInColumn grid.new.cells.items) }
    ensures each { OnOk result (map key_in grid.new.cells.items ≡ map key_of order.now) }
{
    let mut last = None;
    let mut first_row = 0;
    let mut next_row = 0;
    for seat in order {
        let row = match after(last, *seat) {
            Step::Line => grid.rows,
            Step::Round => first_row,
            Step::Beside => next_row,
        };
        if matches!(after(last, *seat), Step::Line) {
            first_row = row;
            grid.lines.push(LineRows {
                line: seat.line,
                row,
            })?;
        }
        add_cell(grid, *seat, row)?;
        next_row = row.saturating_add(1);
        last = Some(*seat);
    }
    Ok(())
}

// What is new at a firing, against the one before.
#[derive(Clone, Copy)]
enum Step {
    Line,
    Round,
    Beside,
}

// What is new at a firing.
fn after(last: Option<Seat>, next: Seat) -> Step {
    match last {
        Some(last) if last.line != next.line => Step::Line,
        Some(last) if last.round != next.round => Step::Round,
        Some(_) => Step::Beside,
        None => Step::Line,
    }
}

// Adds a cell to the grid, which grows where it must.
#[tactic(auto, using(crate::proofs::Cells::grows))]
fn add_cell(grid: &mut Grid, seat: Seat, row: u32) -> Result<(), ChartFault>
    requires inside { All (IsInGrid grid.old.columns grid.old.rows) grid.old.cells.items }
    requires columns { All IsInColumn grid.old.cells.items }
    ensures firings { OnOk result (grid.new.firings ≡ grid.old.firings) }
    ensures columns { OnOk result (All IsInColumn grid.new.cells.items) }
    ensures inside { OnOk result (All (IsInGrid grid.new.columns grid.new.rows) grid.new.cells.items) }
    ensures each { OnOk result (map key_in grid.new.cells.items ≡ map key_in grid.old.cells.items ++ key_of seat ∷ []) }
{
    let column = seat.round.saturating_sub(1);
    let columns = column.checked_add(1).ok_or(ChartFault::TooLarge)?;
    let rows = row.checked_add(1).ok_or(ChartFault::TooLarge)?;
    grid.cells.push(Cell { seat, column, row })?;
    grid.columns = grid.columns.max(columns);
    grid.rows = grid.rows.max(rows);
    count(&mut grid.widths, column)
}

// Counts a firing in a column.
fn count(widths: &mut Vec<u32>, column: u32) -> Result<(), ChartFault> {
    for _ in widths.len()..(column as usize).saturating_add(1) {
        widths.push(0)?;
    }
    if let Some(width) = widths.get_mut(column as usize) {
        *width = width.saturating_add(1);
    }
    Ok(())
}
