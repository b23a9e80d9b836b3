//! The lines of a text, as they are shown.

ghost use Rattle.std.specs.Prelude.{◌≡◌, ◌≤◌, ◌==◌, IfOk, length, take, string_bytes};
ghost use Rattle.std.specs.List.{position};
ghost use Rattle.std.specs.Str.Lines.{strip_carriage_return};
ghost use Rattle.shown_lines.specs.Lines.{after_line as after_line_of, blanks as blanks_of, caret as caret_at, first_line as first_line_of, line_of as line_in, shown as shown_of, shown_character as shown_character_of};

use std::alloc::{AllocError, Global};

/// A line of a text, counted from 1, without its end; no characters past the last one.
pub fn line_of(text: &[u8], number: u32) -> &[u8]
    ensures { result.now ≡ line_in text.now number }
{
    if number == 0 {
        return &text[text.len()..];
    }
    let mut rest = text;
    for k in 0..number - 1 {
        rest = after_line(rest);
    }
    first_line(rest)
}

// The line that a text begins with.
fn first_line(text: &[u8]) -> &[u8]
    ensures { result.now ≡ first_line_of text.now }
{
    match first_break(text) {
        Some(end) => without_return(&text[..end]),
        None => text,
    }
}

// The text after its first line.
fn after_line(text: &[u8]) -> &[u8]
    ensures { result.now ≡ after_line_of text.now }
{
    match first_break(text) {
        Some(end) => &text[end + 1..],
        None => &text[text.len()..],
    }
}

// The place of the first LF.
fn first_break(text: &[u8]) -> Option<usize>
    ensures { result ≡ position (λ c. c == 10) text.now }
{
    text.iter().position(|c| *c == b'\n')
}

// The line without the carriage return at its end, if it has one.
fn without_return(line: &[u8]) -> &[u8]
    ensures { result.now ≡ strip_carriage_return line.now }
{
    let n = line.len();
    if n > 0 && line[n - 1] == b'\r' {
        &line[..n - 1]
    } else {
        line
    }
}

/// The columns of a line up to this one, as far as the line has them.
pub fn columns_to(line: &[u8], last: usize) -> &[u8]
    ensures columns { result.now ≡ take last line.now }
    ensures few { length result.now ≤ last }
    ensures inside { length result.now ≤ length line.now }
{
    if line.len() < last {
        line
    } else {
        &line[..last]
    }
}

/// The characters of a line, one for each byte: a blank for a tab, and `?` for another byte that isn't from 32 to 126.
#[tactic(auto, using(crate::proofs::Characters::shown_is_ascii))]
pub fn shown(alloc: Global, line: &[u8]) -> Result<String, AllocError>
    ensures { IfOk result (λ text. string_bytes text ≡ shown_of line.now) }
{
    line.iter().map(|c| shown_character(*c)).collect(alloc)
}

fn shown_character(c: u8) -> char
    ensures { result ≡ shown_character_of c }
{
    match c {
        b'\t' => ' ',
        b' '..=b'~' => char::from(c),
        _ => '?',
    }
}

// A blank for each byte.
#[tactic(auto, using(crate::proofs::Characters::blanks_are_ascii))]
fn blanks(alloc: Global, columns: &[u8]) -> Result<String, AllocError>
    ensures { IfOk result (λ text. string_bytes text ≡ blanks_of columns.now) }
{
    columns.iter().map(|_| ' ').collect(alloc)
}

/// A line with a caret below a column of a line, behind a bar; no text where there is no column.
pub fn caret(alloc: Global, line: &[u8], column: Option<u32>) -> Result<String, AllocError>
    ensures { IfOk result (λ text. string_bytes text ≡ caret_at line.now column) }
{
    match column {
        None => Ok(String::new(alloc)),
        Some(column) => {
            let before = blanks(alloc, columns_to(line, (column as usize).saturating_sub(1)))?;
            format!(in alloc; "  |{before}^\n")
        }
    }
}
