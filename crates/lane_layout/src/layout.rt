//! The whole layout of a lane chart.

ghost use Rattle.std.specs.Prelude.{◌≡◌, ◌≤◌, [], All, IfOk, map};
ghost use Rattle.lane_layout.specs.Chart.{IsLaidOut};
ghost use Rattle.lane_layout.specs.Page.{IsNameOn, IsNoteOn};
ghost use Rattle.lane_layout.specs.Rows.{line_of, lines_after};

use crate::frames::{Boxed, boxes_of};
use crate::lanes::{Lane, changes, lanes_of};
use crate::page::Page;
use crate::rows::{Rows, TOP, rows_of};
use crate::spots::{Places, marks_of};
use crate::ways::{Run, edges_out, is_left, ways_of};
use chart_words::{Nodes, SourceLines, Terms, name_of, note_of};
use lane_parts::{Chart, Look, Name, Note, Side, Way};
use printed_graphs::{PrintedFlow, PrintedGraph};
use std::alloc::Global;
use svg_text::{ChartFault, Place};

// Where lanes begin above the first row, in pixels.
const HEAD: u32 = TOP - 16;

// The room below the rows, for what the marks mean.
const FOOT: u32 = 64;

// The room on each side of a lane, and for each way there.
const SIDE: u32 = 16;

const WAY: u32 = 8;

// The width of a character.
const LETTER: u32 = 8;

/// How many characters of a line of the source are shown at most.
pub const LETTERS: usize = 72;

// The room for the numbers of lines.
const NUMBERS: u32 = 48;

// The width of a page that has room for what the marks mean.
const NARROWEST: u32 = 680;

// The most names above a lane, and the most letters for which it has room.
const NAMES: usize = 3;

const NAME_LETTERS: usize = 40;

// The most letters of a note for which there is room.
const NOTE_LETTERS: usize = 1000;

// How many colours there are.
const COLOURS: u32 = 8;

/// The lane chart of a graph, beside the lines of its source.
pub fn chart_of<'a>(
    alloc: Global,
    flow: &PrintedFlow,
    graph: &PrintedGraph,
    source: &SourceLines<'a>,
) -> Result<Chart<'a>, ChartFault>
    ensures { IfOk result (λ chart. IsLaidOut flow.now graph.now chart) }
{
    let nodes = Nodes::of(alloc, flow, graph)?;
    let rows = rows_of(alloc, &nodes)?;
    let left = width_of(source.longest_of(flow.pieces.as_slice()), LETTERS) + NUMBERS;
    let lanes = place_lanes(alloc, &nodes, &rows, left)?;
    let notes = notes_of(alloc, &nodes, &rows, farther(lanes.right, SIDE + 8)?)?;
    let chart = drawn(alloc, &nodes, source, &rows, left, lanes, notes)?;
    Ok(chart)
}

// So many pixels farther.
fn farther(x: u32, by: u32) -> Result<u32, ChartFault> {
    x.checked_add(by).ok_or(ChartFault::TooLarge)
}

// The width of so many letters, or of `most`, if those are fewer.
fn width_of(letters: usize, most: usize) -> u32
    requires { most ≤ 1000 }
    ensures { result ≤ 8000 }
{
    letters.min(most) as u32 * LETTER
}

// Lanes that are placed from the left to the right.
#[derive(Drop)]
struct Placed {
    alloc: Global,
    // The boxes of regions.
    boxes: Vec<Boxed>,
    // Where the next one has room.
    right: u32,
    names: Vec<Name>,
    ways: Vec<Way>,
    // How far right each token line is, and the number of its colour.
    across: Vec<u32>,
    colours: Vec<u32>,
    count: u32,
}

// The lanes of a graph whose nodes are in these rows, from `left` on.
fn place_lanes(
    alloc: Global,
    nodes: &Nodes<'_>,
    rows: &Rows,
    left: u32,
) -> Result<Placed, ChartFault> {
    let out = edges_out(alloc, nodes)?;
    let at = rows.at.as_slice();
    let boxes = boxes_of(alloc, nodes, at, out.as_slice())?;
    let lanes = lanes_of(alloc, nodes, at, boxes.as_slice())?;
    let mut placed = Placed {
        alloc,
        boxes,
        right: farther(left, SIDE)?,
        names: Vec::with_capacity(alloc, lanes.len())?,
        ways: Vec::new(alloc),
        across: vec![in alloc; 0u32; nodes.graph.lines.len()]?,
        colours: vec![in alloc; 0u32; nodes.graph.lines.len()]?,
        count: 0,
    };
    for lane in lanes.iter() {
        let runs = ways_of(alloc, nodes, out.as_slice(), lane, HEAD, rows.height)?;
        placed.add(nodes, lane, runs.as_slice(), rows.height)?;
    }
    Ok(placed)
}

impl Placed {
    // Places a lane that ends so far down, with room for its name and for its ways.
    fn add(
        &mut self,
        nodes: &Nodes<'_>,
        lane: &Lane,
        runs: &[Run],
        end: u32,
    ) -> Result<(), ChartFault> {
        let text = name_of(self.alloc, nodes.graph, lane.line, NAMES)?;
        let half = width_of(text.len(), NAME_LETTERS) / 2;
        let x = farther(self.right, half.max(room(runs, true)))?;
        let right = farther(x, half.max(room(runs, false)))?;
        let colour = self.count % COLOURS;
        put(&mut self.across, lane.line, x);
        put(&mut self.colours, lane.line, colour);
        let look = if is_read(nodes, lane) {
            Look::Thin
        } else {
            Look::Plain
        };
        for run in runs {
            self.ways.push(way_of(*run, x, colour, look, end))?;
        }
        self.names.push(Name {
            place: Place(x, HEAD - 8),
            colour,
            text,
        })?;
        self.count = self.count.saturating_add(1);
        self.right = farther(right, SIDE / 2)?;
        Ok(())
    }
}

// Puts a number to a token line, if there is one.
fn put(numbers: &mut Vec<u32>, line: u32, number: u32) {
    if let Some(place) = numbers.get_mut(line as usize) {
        *place = number;
    }
}

// The room that ways take at the left or at the right of a lane.
fn room(runs: &[Run], left: bool) -> u32 {
    let mut most = SIDE;
    for run in runs {
        if run.side != Side::Straight && is_left(run.side) == left {
            most = most.max(reach(run.level));
        }
    }
    most
}

// How far from its lane a way of this level runs.
fn reach(level: u32) -> u32 {
    level.saturating_mul(WAY).saturating_add(SIDE + 4)
}

// A way along a lane that ends so far down. It is faint where nothing takes the token after it.
fn way_of(run: Run, x: u32, colour: u32, look: Look, end: u32) -> Way {
    Way {
        side: run.side,
        x,
        reach: match run.side {
            Side::Straight => 0,
            _ => reach(run.level),
        },
        from: run.from,
        to: run.to,
        exit: run.exit,
        beside: run.beside,
        colour,
        look: if run.to == end { Look::Faint } else { look },
    }
}

// Whether no node on a lane changes its words.
fn is_read(nodes: &Nodes<'_>, lane: &Lane) -> bool {
    lane.seats.iter().all(|seat| match nodes.node(seat.node) {
        Some(node) => !changes(node),
        None => true,
    })
}

// What the rows say, from so far right on.
fn notes_of(
    alloc: Global,
    nodes: &Nodes<'_>,
    rows: &Rows,
    x: u32,
) -> Result<Vec<Note>, ChartFault> {
    let mut notes: Vec<Note> = Vec::with_capacity(alloc, rows.told.len())?;
    let mut terms = Terms::new(alloc, nodes);
    for node in rows.told.iter() {
        let text = note_of(alloc, &mut terms, *node)?;
        let y = rows.at.get(*node as usize).copied().unwrap_or(0);
        notes.push(Note {
            node: *node,
            place: Place(x, y.saturating_add(4)),
            text,
        })?;
    }
    Ok(notes)
}

// The page that has room for rows, lanes and notes.
fn page_for(rows: &Rows, lanes: &Placed, notes: &[Note]) -> Result<Page, ChartFault> {
    let mut longest = 0usize;
    for note in notes {
        longest = longest.max(note.text.len());
    }
    let told = width_of(longest, NOTE_LETTERS) + SIDE * 3;
    Ok(Page {
        width: farther(lanes.right, told)?.max(NARROWEST),
        height: farther(rows.height, FOOT)?,
    })
}

// The chart of these rows, lanes and notes.
fn drawn<'a>(
    alloc: Global,
    nodes: &Nodes<'_>,
    source: &SourceLines<'a>,
    rows: &Rows,
    left: u32,
    lanes: Placed,
    notes: Vec<Note>,
) -> Result<Chart<'a>, ChartFault>
    requires { map line_of rows.now.statements.items ≡ lines_after [] 0 nodes.now.flow.now.pieces.items }
    ensures { IfOk result (λ chart. IsLaidOut nodes.now.flow.now nodes.now.graph.now chart) }
{
    let page = page_for(rows, &lanes, notes.as_slice())?;
    let places = Places {
        width: page.width,
        height: page.height,
        across: lanes.across.as_slice(),
        colours: lanes.colours.as_slice(),
        down: rows.at.as_slice(),
    };
    Ok(Chart {
        width: page.width,
        height: page.height,
        statements: page.statements(alloc, rows.statements.as_slice(), source)?,
        frames: page.frames(
            alloc,
            lanes.boxes.as_slice(),
            left,
            farther(lanes.right, SIDE - 4)?,
        )?,
        marks: marks_of(alloc, &places, nodes)?,
        ways: page.ways(alloc, lanes.ways.as_slice())?,
        names: names_on(alloc, page, lanes.names)?,
        notes: notes_on(alloc, page, notes)?,
    })
}

// Notes on their page.
fn notes_on(alloc: Global, page: Page, notes: Vec<Note>) -> Result<Vec<Note>, ChartFault>
    ensures { IfOk result (λ notes. All (IsNoteOn page) notes.items) }
{
    let mut inside = Vec::with_capacity(alloc, notes.len())?;
    for note in notes {
        inside.push(page.note(note))?;
    }
    Ok(inside)
}

// Names on their page.
fn names_on(alloc: Global, page: Page, names: Vec<Name>) -> Result<Vec<Name>, ChartFault>
    ensures { IfOk result (λ names. All (IsNameOn page) names.items) }
{
    let mut inside = Vec::with_capacity(alloc, names.len())?;
    for name in names {
        inside.push(page.name(name))?;
    }
    Ok(inside)
}
