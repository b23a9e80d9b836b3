//! Numbers in words.

ghost use Rattle.std.specs.Prelude.{◌≡◌, ℕ, ◌<◌, ◌^◌, List, ◌∷◌, Some, None, All, map};
ghost use Rattle.std.specs.Fmt.{decimal};
ghost use Rattle.std.specs.List.{join_with_byte};
ghost use Rattle.view_commands.specs.Numbers.{Answers, number_on, numbers_on, with_digit as spec_with_digit};

use std::alloc::Global;
use view_output::Fault;

/// The number, below 2^32, that is all of a text.
pub fn number_in(alloc: Global, text: &[u8]) -> Result<u32, Fault>
    ensures { Answers (λ n. n) result (number_on text.now) }
{
    match numbers_in(alloc, text)?.as_slice() {
        [number] => Ok(*number),
        _ => Err(Fault::Usage),
    }
}

/// The numbers between commas, each below 2^32.
pub fn numbers_in(alloc: Global, text: &[u8]) -> Result<Vec<u32>, Fault>
    ensures { Answers (λ numbers. numbers.items) result (numbers_on None text.now) }
{
    let mut all = Vec::new(alloc);
    let mut number = None;
    for c in text {
        if *c == b',' {
            all.push(ended(number)?)?;
            number = None;
        } else {
            number = Some(with_digit(number.unwrap_or(0), *c)?);
        }
    }
    all.push(ended(number)?)?;
    Ok(all)
}

/// Numbers of 32 bits that are written with commas between them are those that are read.
pub fn written_numbers_are_read()
    ensures { (n : ℕ) (numbers : List ℕ) → All (λ m. m < 2 ^ 32) (n ∷ numbers) → numbers_on None (join_with_byte 44 (map decimal (n ∷ numbers))) ≡ Some (n ∷ numbers) }
{}

// The number that ends at a comma or at the end of a text, if one has begun.
fn ended(number: Option<u32>) -> Result<u32, Fault>
    ensures { Answers (λ n. n) result number }
{
    number.ok_or(Fault::Usage)
}

// A number with one more digit.
fn with_digit(number: u32, digit: u8) -> Result<u32, Fault>
    ensures { Answers (λ n. n) result (spec_with_digit number digit) }
{
    if !digit.is_ascii_digit() {
        return Err(Fault::Usage);
    }
    match number.checked_mul(10) {
        Some(tens) => tens
            .checked_add(u32::from(digit - b'0'))
            .ok_or(Fault::Usage),
        None => Err(Fault::Usage),
    }
}
