//! The output of a run that trapped.

ghost use Rattle.std.specs.Prelude.{◌≡◌, ◌++◌, ◌<◌, ◌^◌, ℕ, List, IfNone, IfOk, IfSome};
ghost use Rattle.std.specs.Fmt.{decimal};
ghost use Rattle.source_maps.specs.Outputs.{EndsInNoTrap, EndsInTrap, after_blank, line_words};

use std::alloc::{AllocError, Global};

/// The line of a trap at the end of an output.
#[derive(Clone, Copy)]
pub struct ToldTrap<'a> {
    /// What stands before the words that tell it.
    pub front: &'a [u8],
    /// The line.
    pub line: u32,
}

/// The line of a trap, where an output ends with ` LINE `, the number of a line and an LF.
pub fn trap_at_end(alloc: Global, text: &[u8]) -> Result<Option<ToldTrap<'_>>, AllocError>
    ensures trap { IfOk result (λ found. IfSome found (EndsInTrap text.now)) }
    ensures none { IfOk result (λ found. IfNone found (EndsInNoTrap text.now)) }
{
    let line = last_number(text);
    let words = format!(in alloc; " LINE {line}\n")?;
    match text.strip_suffix(words.as_bytes()) {
        Some(front) => Ok(Some(ToldTrap { front, line })),
        None => Ok(None),
    }
}

// The number between the last blank of a text and an LF at its end, or 0 where none of 32 bits stands there.
fn last_number(text: &[u8]) -> u32
    ensures { (front : List ℕ) (line : ℕ) → line < 2 ^ 32 → text.now ≡ front ++ line_words line → result ≡ line }
{
    match last_word(text).strip_suffix(b"\n") {
        Some(digits) => number_of(digits),
        None => 0,
    }
}

// The number of 32 bits that has these digits, or 0 where none has.
fn number_of(digits: &[u8]) -> u32
    ensures { (line : ℕ) → line < 2 ^ 32 → digits.now ≡ decimal line → result ≡ line }
{
    match std::str::from_utf8(digits) {
        Ok(text) => text.parse().unwrap_or(0),
        Err(_) => 0,
    }
}

// What stands after the last blank of a text, or all of it.
fn last_word(text: &[u8]) -> &[u8]
    ensures { result.now ≡ after_blank text.now text.now }
{
    let mut word = text;
    let mut rest = text;
    while let [c, after @ ..] = rest {
        if *c == b' ' {
            word = after;
        }
        rest = after;
    }
    word
}
