//! The numbers that stand in a word, with commas between them.

ghost use Rattle.std.specs.Prelude.{◌≡◌, [], true, map, IfOk, FitsSigned};
ghost use Rattle.std.specs.Int.{w32};
ghost use Rattle.fixed_form.specs.Columns.{number};
ghost use Rattle.dfc_driver.specs.Meant.{MayStand};
ghost use Rattle.dfc_driver.specs.Words.{are_digits_to, is_word, is_text, pieces_after, values_in, word_value};

use crate::words::{Setting, number_in};
use df_io::NoMemory;
use std::alloc::Global;

/// The picks that a text tells, or none without a text.
pub fn picks_in(alloc: Global, text: &[u8]) -> Result<Vec<u32>, NoMemory>
    requires { MayStand Setting.Picks text.now }
    ensures { IfOk result (λ list. list.items ≡ values_in number text.now) }
{
    if text.is_empty() {
        Ok(Vec::new(alloc))
    } else {
        pick_list(alloc, text)
    }
}

/// The words for READ that a text tells, or none without a text.
pub fn data_in(alloc: Global, text: &[u8]) -> Result<Vec<i32>, NoMemory>
    requires { MayStand Setting.Data text.now }
    ensures { IfOk result (λ list. list.items ≡ values_in word_value text.now) }
{
    if text.is_empty() {
        Ok(Vec::new(alloc))
    } else {
        word_list(alloc, text)
    }
}

// The picks between commas.
fn pick_list(alloc: Global, text: &[u8]) -> Result<Vec<u32>, NoMemory>
    requires { is_text Setting.Picks text.now ≡ true }
    ensures { IfOk result (λ list. list.items ≡ map number (pieces_after [] text.now)) }
{
    let mut list = Vec::new(alloc);
    let mut begin = 0;
    for (k, c) in text.iter().enumerate() {
        if *c == b',' {
            list.push(pick_of(&text[begin..k]))?;
            begin = k + 1;
        }
    }
    list.push(pick_of(&text[begin..]))?;
    Ok(list)
}

// The words between commas.
fn word_list(alloc: Global, text: &[u8]) -> Result<Vec<i32>, NoMemory>
    requires { is_text Setting.Data text.now ≡ true }
    ensures { IfOk result (λ list. list.items ≡ map word_value (pieces_after [] text.now)) }
{
    let mut list = Vec::new(alloc);
    let mut begin = 0;
    for (k, c) in text.iter().enumerate() {
        if *c == b',' {
            list.push(word_of(&text[begin..k]))?;
            begin = k + 1;
        }
    }
    list.push(word_of(&text[begin..]))?;
    Ok(list)
}

// The pick that a piece tells.
fn pick_of(piece: &[u8]) -> u32
    requires { are_digits_to 9 piece.now ≡ true }
    ensures { result ≡ number piece.now }
{
    number_in(piece) as u32
}

// The word of the machine that a piece tells.
fn word_of(piece: &[u8]) -> i32
    requires { is_word piece.now ≡ true }
    ensures value { result ≡ word_value piece.now }
    ensures fits { FitsSigned w32 result }
{
    match piece {
        [b'-', digits @ ..] => (-(number_in(digits) as i64)) as i32,
        _ => number_in(piece) as i32,
    }
}
