//! A statement on its lines.
ghost use Rattle.std.specs.Prelude.{◌≡◌, ◌++◌, ◌*◌, ◌-◌, ◌<◌, ◌≤◌, max, OnOk, length, take, drop};
ghost use Rattle.f77_expr.specs.Piece.{bracket_depth};
ghost use Rattle.flat_programs.specs.Lines.{columns, digits_of_label, is_long as is_long_of, line_count as count_of_lines, lines_of, margin, right_justified};

use crate::appending::append;
use df_sequence::NoMemory;
use f77_expr::{DEEPEST_ALLOWED, Open, open_after};
use itoa::Buffer;

// How many characters of a statement stand on each of its lines.
const COLUMNS: usize = 66;

// How many characters a statement that is read may have: twenty lines of them.
const MOST_CHARACTERS: usize = 1320;

/// Appends a statement on its lines. A label of 0 is none.
pub(crate) fn append_lines(label: u32, text: &[u8], out: &mut Vec<u8>) -> Result<(), NoMemory>
    ensures { OnOk result (out.new.items ≡ out.old.items ++ lines_of (record { label = label; text = text.now })) }
{
    for line in 0..line_count(text) {
        append_margin(label, line, out)?;
        append(line_at(text, line), out)?;
        append(b"\n", out)?;
    }
    Ok(())
}

/// How many lines a text takes.
fn line_count(text: &[u8]) -> usize
    ensures { result ≡ count_of_lines text.now }
{
    (text.len() + (COLUMNS - 1)) / COLUMNS
}

/// The characters that stand on a line, of which the first is the line 0.
fn line_at(text: &[u8], line: usize) -> &[u8]
    requires { line < count_of_lines text.now }
    ensures { result.now ≡ take columns (drop (columns * line) text.now) }
{
    &text[COLUMNS * line..line_end(text, line)]
}

/// Where the characters end that stand on a line.
fn line_end(text: &[u8], line: usize) -> usize
    requires { line < count_of_lines text.now }
    ensures after { columns * line ≤ result }
    ensures within { result ≤ length text.now }
    ensures characters { take (result - columns * line) (drop (columns * line) text.now) ≡ take columns (drop (columns * line) text.now) }
{
    if text.len() < COLUMNS * line + COLUMNS {
        return text.len();
    }
    COLUMNS * line + COLUMNS
}

/// Appends the first six columns of a line.
fn append_margin(label: u32, line: usize, out: &mut Vec<u8>) -> Result<(), NoMemory>
    ensures { OnOk result (out.new.items ≡ out.old.items ++ margin label line) }
{
    if line > 0 {
        return append(b"     &", out);
    }
    append_label(label, out)?;
    append(b" ", out)
}

/// Appends a label on the right of five columns, and blanks where it is 0.
fn append_label(label: u32, out: &mut Vec<u8>) -> Result<(), NoMemory>
    ensures { OnOk result (out.new.items ≡ out.old.items ++ right_justified (digits_of_label label)) }
{
    if label == 0 {
        return append(b"     ", out);
    }
    let mut buffer = Buffer::new();
    append_justified(buffer.format(label).as_bytes(), out)
}

/// Appends digits on the right of five columns.
fn append_justified(digits: &[u8], out: &mut Vec<u8>) -> Result<(), NoMemory>
    ensures { OnOk result (out.new.items ≡ out.old.items ++ right_justified digits.now) }
{
    let blanks = 5usize.saturating_sub(digits.len());
    append(&b"     "[..blanks], out)?;
    append(digits, out)
}

/// Whether a statement is longer, or has deeper brackets, than one that is read may have.
pub(crate) fn is_long(label: u32, text: &[u8]) -> bool
    ensures { result ≡ is_long_of (record { label = label; text = text.now }) }
{
    let _label = label;
    text.len() > MOST_CHARACTERS || depth(text) > DEEPEST_ALLOWED
}

/// The greatest number of brackets that are open at one place.
fn depth(text: &[u8]) -> usize
    ensures { result ≡ bracket_depth text.now }
{
    let mut state = Open::nothing();
    let mut deepest = 0;
    for c in text {
        state = open_after(state, *c);
        deepest = greater(deepest, state.brackets);
    }
    deepest
}

/// The greater one of two numbers.
fn greater(a: usize, b: usize) -> usize
    ensures { result ≡ max a b }
{
    if a < b { b } else { a }
}
