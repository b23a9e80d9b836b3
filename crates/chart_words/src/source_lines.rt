//! The lines of a source text.

use printed_graphs::Piece;
use std::alloc::Global;
use svg_text::ChartFault;

/// The lines of a source text, counted from 1.
#[derive(Drop)]
pub struct SourceLines<'a> {
    lines: Vec<&'a [u8]>,
}

impl<'a> SourceLines<'a> {
    /// The lines of a text. A carriage return at the end of a line is no part of it.
    pub fn of(alloc: Global, text: &'a [u8]) -> Result<SourceLines<'a>, ChartFault> {
        let mut lines = Vec::new(alloc);
        for line in text.split(|byte| *byte == b'\n') {
            lines.push(without_return(line))?;
        }
        Ok(SourceLines { lines })
    }

    /// The line with this number, or nothing where there is none.
    pub fn line(&self, number: u32) -> &'a [u8] {
        match (number as usize).checked_sub(1) {
            Some(k) => self.lines.get(k).copied().unwrap_or(&[]),
            None => &[],
        }
    }

    /// The length of the longest line on which a piece stands.
    pub fn longest_of(&self, pieces: &[Piece]) -> usize {
        let mut longest = 0usize;
        for piece in pieces {
            longest = longest.max(self.line(piece.line).len());
        }
        longest
    }
}

// A line without its carriage return.
fn without_return(line: &[u8]) -> &[u8] {
    match line {
        [before @ .., b'\r'] => before,
        _ => line,
    }
}
