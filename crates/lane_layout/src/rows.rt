//! The rows of a lane chart: how far down each node stands.

ghost use Rattle.std.specs.Prelude.{◌≡◌, [], map, IfOk, OnOk};
ghost use Rattle.lane_layout.specs.Rows.{begins as spec_begins, holds, last_with, line_of, lines_after, lines_with};

use chart_words::{Nodes, lines_of, piece_of};
use printed_graphs::{Node, Piece, PieceKind};
use std::alloc::Global;
use svg_text::ChartFault;

/// Where the first row begins, in pixels from above.
pub const TOP: u32 = 72;

/// How far one row is from the next, and how much more a statement is from the one before.
pub const ROW: u32 = 24;

const GAP: u32 = 8;

/// The first row of a statement.
#[derive(Clone, Copy)]
pub struct Begin {
    /// Its line of the source.
    pub line: u32,
    /// How far down its first row is, in pixels.
    pub y: u32,
}

/// The rows of a chart. A statement has one, or several where its nodes share a token line or belong to several pieces.
#[derive(Drop)]
pub struct Rows {
    /// The statements, from above.
    pub statements: Vec<Begin>,
    /// For each node how far down it is, in pixels.
    pub at: Vec<u32>,
    /// The operations that are told beside the lanes: those whose value no other one takes.
    pub told: Vec<u32>,
    /// The height of the chart, in pixels.
    pub height: u32,
}

/// The rows of the statements of a program, in their order.
pub fn rows_of(alloc: Global, nodes: &Nodes<'_>) -> Result<Rows, ChartFault>
    ensures { IfOk result (λ rows. map line_of rows.statements.items ≡ lines_after [] 0 nodes.now.flow.now.pieces.items) }
{
    let by_piece = nodes_by_piece(alloc, nodes)?;
    let mut stack = Stack {
        statements: Vec::new(alloc),
        at: vec![in alloc; 0u32; nodes.graph.nodes.len()]?,
        told: Vec::new(alloc),
        height: TOP,
        taken: Vec::new(alloc),
        is_told: false,
        has_node: false,
        last: 0,
    };
    let mut number = 0usize;
    for piece in nodes.flow.pieces.iter() {
        stack.begin(*piece)?;
        if let Some(numbers) = by_piece.get(number) {
            stack.put_all(nodes, numbers)?;
        }
        number = number.saturating_add(1);
    }
    Ok(Rows {
        height: below(stack.height, ROW)?,
        statements: stack.statements,
        at: stack.at,
        told: stack.told,
    })
}

// The nodes of each piece, in their order.
fn nodes_by_piece(alloc: Global, nodes: &Nodes<'_>) -> Result<Vec<Vec<u32>>, ChartFault> {
    let mut by_piece: Vec<Vec<u32>> = Vec::with_capacity(alloc, nodes.flow.pieces.len())?;
    for _ in nodes.flow.pieces.iter() {
        by_piece.push(Vec::new(alloc))?;
    }
    let mut number = 0u32;
    for node in nodes.graph.nodes.iter() {
        if let Some(numbers) = by_piece.get_mut(piece_of(node) as usize) {
            numbers.push(number)?;
        }
        number = number.saturating_add(1);
    }
    Ok(by_piece)
}

// So many pixels farther down.
fn below(y: u32, by: u32) -> Result<u32, ChartFault> {
    y.checked_add(by).ok_or(ChartFault::TooLarge)
}

// Whether a piece begins a statement after these, of which the last one stands on line `last`, or none where it is 0. A piece
// that only goes on begins none on a line that is shown: there a copy of a subroutine ends.
fn begins(statements: &[Begin], last: u32, piece: Piece) -> bool
    ensures { result ≡ spec_begins (map line_of statements.now) last piece }
{
    match piece.kind {
        PieceKind::Start => false,
        PieceKind::Pass => !is_shown(statements, piece.line),
        _ => last != piece.line,
    }
}

// Whether a statement on this line is among these.
fn is_shown(statements: &[Begin], line: u32) -> bool
    ensures { result ≡ holds line (map line_of statements.now) }
{
    for statement in statements {
        if line == statement.line {
            return true;
        }
    }
    false
}

// Rows that grow downwards. `height` is where the newest row ends.
#[derive(Drop)]
struct Stack {
    statements: Vec<Begin>,
    at: Vec<u32>,
    told: Vec<u32>,
    height: u32,
    // The token lines that the nodes of the newest row take.
    taken: Vec<u32>,
    // Whether an operation of the newest row is told.
    is_told: bool,
    // Whether the newest row has a node.
    has_node: bool,
    // The line of the newest statement, or 0.
    last: u32,
}

impl Stack {
    // Begins a piece of a statement, and the statement where it is a new one.
    fn begin(&mut self, piece: Piece) -> Result<(), ChartFault>
        ensures lines { OnOk result (map line_of self.new.statements.items ≡ lines_with (map line_of self.old.statements.items) self.old.last piece) }
        ensures last { OnOk result (self.new.last ≡ last_with (map line_of self.old.statements.items) self.old.last piece) }
    {
        if begins(self.statements.as_slice(), self.last, piece) {
            let y = below(self.height, GAP)?;
            let line = piece.line;
            self.statements.push(Begin { line, y })?;
            self.last = line;
            self.height = y;
            self.next_row()
        } else if self.has_node && piece.kind != PieceKind::Pass {
            self.next_row()
        } else {
            Ok(())
        }
    }

    // Begins a row.
    fn next_row(&mut self) -> Result<(), ChartFault>
        ensures statements { self.new.statements ≡ self.old.statements }
        ensures last { self.new.last ≡ self.old.last }
    {
        self.height = below(self.height, ROW)?;
        self.has_node = false;
        self.is_told = false;
        self.taken.clear();
        Ok(())
    }

    // Puts nodes into the newest row, and into new ones.
    fn put_all(&mut self, nodes: &Nodes<'_>, numbers: &[u32]) -> Result<(), ChartFault>
        ensures statements { self.new.statements ≡ self.old.statements }
        ensures last { self.new.last ≡ self.old.last }
    {
        for number in numbers {
            self.put(nodes, *number)?;
        }
        Ok(())
    }

    // Puts a node into the newest row, or into a new one where a token line is taken or another operation is told there.
    fn put(&mut self, nodes: &Nodes<'_>, number: u32) -> Result<(), ChartFault>
        ensures statements { self.new.statements ≡ self.old.statements }
        ensures last { self.new.last ≡ self.old.last }
    {
        let Some(node) = nodes.node(number) else {
            return Ok(());
        };
        let lines = lines_of(node);
        let is_told = matches!(node, Node::Operation { .. }) && !nodes.is_taken(number);
        if is_told && self.is_told || shares(self.taken.as_slice(), lines) {
            self.next_row()?;
        }
        self.take(lines)?;
        if is_told {
            self.is_told = true;
            self.told.push(number)?;
        }
        let y = self.height.saturating_sub(ROW);
        if let Some(place) = self.at.get_mut(number as usize) {
            *place = y;
        }
        Ok(())
    }

    // Takes token lines in the newest row.
    fn take(&mut self, lines: &[u32]) -> Result<(), ChartFault>
        ensures statements { self.new.statements ≡ self.old.statements }
        ensures last { self.new.last ≡ self.old.last }
    {
        self.has_node = true;
        self.taken.extend_from_slice(lines)?;
        Ok(())
    }
}

// Whether two lists share a number.
fn shares(some: &[u32], others: &[u32]) -> bool {
    others.iter().any(|number| some.contains(number))
}
