//! Columns at fault, counted from 1.

ghost use Rattle.std.specs.Prelude.{◌≡◌, ◌<◌, ◌≤◌, ◌||◌, ◌&&◌, ◌==◌, nat_lt, not, IfSome, length};
ghost use Rattle.std.specs.Char.{is_ascii_digit};
ghost use Rattle.std.specs.List.{position};
ghost use Rattle.refusal_reports.specs.Columns.{column_of_byte as column_of_byte_in, column_of_label as column_of_label_in};

use shown_lines::columns_to;

/// The first of columns 1 to 72 with a byte that isn't from 32 to 126.
pub(crate) fn column_of_byte(line: &[u8]) -> Option<u32>
    ensures column { result ≡ column_of_byte_in line.now }
    ensures first { IfSome result (λ column. 1 ≤ column) }
    ensures last { IfSome result (λ column. column ≤ length line.now) }
{
    match first_bad_byte(columns_to(line, 72)) {
        Some(k) => Some(k as u32 + 1),
        None => None,
    }
}

fn first_bad_byte(columns: &[u8]) -> Option<usize>
    ensures place { result ≡ position (λ c. nat_lt c 32 || nat_lt 126 c) columns.now }
    ensures inside { IfSome result (λ k. k < length columns.now) }
{
    columns.iter().position(|c| *c < b' ' || b'~' < *c)
}

/// The first of columns 1 to 5 with another character than a digit or a blank.
pub(crate) fn column_of_label(line: &[u8]) -> Option<u32>
    ensures column { result ≡ column_of_label_in line.now }
    ensures first { IfSome result (λ column. 1 ≤ column) }
    ensures last { IfSome result (λ column. column ≤ length line.now) }
{
    match first_no_label(columns_to(line, 5)) {
        Some(k) => Some(k as u32 + 1),
        None => None,
    }
}

fn first_no_label(columns: &[u8]) -> Option<usize>
    ensures place { result ≡ position (λ c. not (c == 32) && not (is_ascii_digit c)) columns.now }
    ensures inside { IfSome result (λ k. k < length columns.now) }
{
    columns
        .iter()
        .position(|c| *c != b' ' && !c.is_ascii_digit())
}
