//! Digits and names at the beginning of a text, with the text after them, and the constant that digits write.
ghost use Rattle.std.specs.Prelude.{◌≡◌, length, drop, take_while, true};
ghost use Rattle.std.specs.List.{list_all};
ghost use Rattle.f77_tree.specs.Name.{is_figure};
ghost use Rattle.f77_expr.specs.Reader.{is_symbolic as spec_is_symbolic};
ghost use Rattle.f77_expr.specs.Answers.{constant_of, as_word};

use crate::characters::{GREATEST_CONSTANT, bounded_number, digits_of, symbolic_of};

/// The digits at the beginning of a text, and the text after them.
pub(crate) fn split_digits(text: &[u8]) -> (&[u8], &[u8])
    ensures digits { result.0.now ≡ take_while is_figure text.now }
    ensures rest { result.1.now ≡ drop (length (take_while is_figure text.now)) text.now }
{
    let n = digits_of(text).len();
    (&text[..n], &text[n..])
}

/// The letters and digits at the beginning of a text, and the text after them.
pub(crate) fn split_symbolic(text: &[u8]) -> (&[u8], &[u8])
    ensures name { result.0.now ≡ take_while spec_is_symbolic text.now }
    ensures rest { result.1.now ≡ drop (length (take_while spec_is_symbolic text.now)) text.now }
{
    let n = symbolic_of(text).len();
    (&text[..n], &text[n..])
}

/// The constant that digits write, or none where it is above 2147483647.
pub(crate) fn constant(digits: &[u8]) -> Option<i32>
    requires { list_all is_figure digits.now ≡ true }
    ensures { result ≡ as_word (constant_of digits.now) }
{
    let number = bounded_number(digits);
    if number <= u64::from(GREATEST_CONSTANT) {
        Some(number as i32)
    } else {
        None
    }
}
