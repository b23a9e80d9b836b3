//! Letters and digits at the beginning of a text, and the number that digits write.

ghost use Rattle.std.specs.Prelude.{◌≡◌, ◌≤◌, ◌+◌, ◌-◌, ◌*◌, length, drop, min, take_while, true, IfSome};
ghost use Rattle.std.specs.List.{list_all};
ghost use Rattle.std.specs.Option.{option_copied};
ghost use Rattle.f77_tree.specs.Name.{is_capital, is_figure};
ghost use Rattle.f77_tree.specs.Grammar.{number_of};
ghost use Rattle.f77_expr.specs.Reader.{after_prefix as spec_after_prefix, is_symbolic as spec_is_symbolic};

/// The greatest integer constant.
pub const GREATEST_CONSTANT: u32 = 2147483647;

/// Whether a character is a digit.
pub(crate) fn is_digit(c: u8) -> bool
    ensures { result ≡ is_figure c }
{
    b'0' <= c && c <= b'9'
}

/// Whether a character is a letter.
pub fn is_letter(c: u8) -> bool
    ensures { result ≡ is_capital c }
{
    b'A' <= c && c <= b'Z'
}

/// Whether a character may stand in a name.
fn is_symbolic(c: u8) -> bool
    ensures { result ≡ spec_is_symbolic c }
{
    is_letter(c) || is_digit(c)
}

/// How many digits stand at the beginning of a text.
fn digits_at_start(text: &[u8]) -> usize
    ensures count { result ≡ length (take_while is_figure text.now) }
    ensures short { result ≤ length text.now }
{
    text.iter().take_while(|c| is_digit(**c)).count()
}

/// How many letters and digits stand at the beginning of a text.
fn symbolic_at_start(text: &[u8]) -> usize
    ensures count { result ≡ length (take_while spec_is_symbolic text.now) }
    ensures short { result ≤ length text.now }
{
    text.iter().take_while(|c| is_symbolic(**c)).count()
}

/// The digits at the beginning of a text.
pub fn digits_of(text: &[u8]) -> &[u8]
    ensures digits { result.now ≡ take_while is_figure text.now }
    ensures short { length result.now ≤ length text.now }
{
    &text[..digits_at_start(text)]
}

/// The letters and digits at the beginning of a text.
pub fn symbolic_of(text: &[u8]) -> &[u8]
    ensures name { result.now ≡ take_while spec_is_symbolic text.now }
    ensures short { length result.now ≤ length text.now }
{
    &text[..symbolic_at_start(text)]
}

/// The text after these characters, where it begins with them.
pub fn after_prefix<'a>(text: &'a [u8], prefix: &[u8]) -> Option<&'a [u8]>
    ensures rest { option_copied result ≡ spec_after_prefix prefix.now text.now }
    ensures drops { IfSome result (λ rest. (rest.now ≡ drop (length text.now - length rest.now) text.now) × (length rest.now + length prefix.now ≤ length text.now)) }
{
    text.strip_prefix(prefix)
}

/// The number after one more digit, or one more than the greatest constant where that is less.
fn number_after(number: u64, digit: u8) -> u64
    requires digit { 48 ≤ digit }
    requires bound { number ≤ 2147483648 }
    ensures { result ≡ min (10 * number + (digit - 48)) 2147483648 }
{
    (10 * number + u64::from(digit - b'0')).min(u64::from(GREATEST_CONSTANT) + 1)
}

/// The number that digits write, or one more than the greatest constant where that is less.
pub fn bounded_number(digits: &[u8]) -> u64
    requires { list_all is_figure digits.now ≡ true }
    ensures { result ≡ min (number_of digits.now) 2147483648 }
{
    let mut number = 0;
    for digit in digits {
        number = number_after(number, *digit);
    }
    number
}
