//! What stands in the columns of one line.

ghost use Rattle.std.specs.Prelude.{◌≡◌, ◌==◌, ◌<◌, ◌≤◌, ◌∷◌, length, take, Option, None, Some, IfSome, if◌then◌else◌};
ghost use Rattle.std.specs.Char.{is_ascii_digit};
ghost use Rattle.std.specs.List.{list_all, list_any, filter, position};
ghost use Rattle.std.specs.Str.Lines.{lines, strip_carriage_return};
ghost use Rattle.fixed_form.specs.Columns.{card, is_bad_label_field, is_label_character, column, kind, is_character, is_comment as spec_is_comment, marks_comment as spec_marks_comment, is_blank as spec_is_blank, has_bad_byte as spec_has_bad_byte, has_bad_label, label, label_field as spec_label_field, number};

/// What a line of the source is.
#[derive(Clone, Copy, Debug, PartialEq, Eq)]
pub(crate) enum LineKind {
    /// It says nothing, and may hold any bytes.
    Comment,
    /// A statement begins here.
    Initial,
    /// It goes on with a statement.
    Continuation,
}

/// What a line has in columns 1 to 72.
pub(crate) fn in_columns(line: &[u8]) -> &[u8]
    ensures short { length result.now ≤ 72 }
    ensures card { card result.now ≡ card line.now }
{
    if line.len() < 72 { line } else { &line[..72] }
}

/// The character in a column, a blank where the line is shorter.
fn character_in(columns: &[u8], n: usize) -> u8
    requires short { length columns.now ≤ 72 }
    requires first { 1 ≤ n }
    requires last { n ≤ 72 }
    ensures { result ≡ column n (card columns.now) }
{
    if n <= columns.len() {
        columns[n - 1]
    } else {
        b' '
    }
}

/// Whether there are only blanks.
fn is_blank(characters: &[u8]) -> bool
    ensures { result ≡ spec_is_blank characters.now }
{
    characters.iter().all(|c| *c == b' ')
}

/// Whether there are only characters of the source.
fn are_characters(bytes: &[u8]) -> bool
    ensures { result ≡ list_all is_character bytes.now }
{
    bytes.iter().all(|c| b' ' <= *c && *c <= b'~')
}

/// Whether a character in column 1 makes the line a comment.
fn marks_comment(first: u8) -> bool
    ensures { result ≡ spec_marks_comment first }
{
    matches!(first, b'C' | b'c' | b'*')
}

/// Whether the line is a comment.
#[tactic(auto, using(crate::proofs::Cards::blank_card))]
fn is_comment(columns: &[u8]) -> bool
    requires { length columns.now ≤ 72 }
    ensures { result ≡ spec_is_comment (card columns.now) }
{
    marks_comment(character_in(columns, 1)) || is_blank(columns)
}

/// What the line is.
pub(crate) fn kind_of(columns: &[u8]) -> LineKind
    requires { length columns.now ≤ 72 }
    ensures { result ≡ kind (card columns.now) }
{
    if is_comment(columns) {
        return LineKind::Comment;
    }
    match character_in(columns, 6) {
        b' ' | b'0' => LineKind::Initial,
        _ => LineKind::Continuation,
    }
}

/// Whether a byte is no character of the source.
pub(crate) fn has_bad_byte(columns: &[u8]) -> bool
    requires { length columns.now ≤ 72 }
    ensures { result ≡ spec_has_bad_byte (card columns.now) }
{
    !are_characters(columns)
}

/// Columns 1 to 5, as far as the line has them.
fn label_field(columns: &[u8]) -> &[u8]
    ensures field { result.now ≡ take 5 columns.now }
    ensures short { length result.now ≤ 5 }
{
    if columns.len() < 5 {
        columns
    } else {
        &columns[..5]
    }
}

/// Whether there are only digits and blanks.
fn are_label_characters(field: &[u8]) -> bool
    ensures { result ≡ list_all is_label_character field.now }
{
    field.iter().all(|c| *c == b' ' || c.is_ascii_digit())
}

/// Whether there is a digit.
fn has_digit(field: &[u8]) -> bool
    ensures { result ≡ list_any is_ascii_digit field.now }
{
    field.iter().any(|c| c.is_ascii_digit())
}

/// The number that the digits write.
fn number_in(field: &[u8]) -> u32
    requires { length field.now ≤ 5 }
    ensures value { result ≡ number (filter is_ascii_digit field.now) }
    ensures small { result < 100000 }
{
    let mut number: u32 = 0;
    for c in field {
        if c.is_ascii_digit() {
            number = 10 * number + u32::from(*c - b'0');
        }
    }
    number
}

/// Whether this is no label field of an initial line.
fn is_bad_label(field: &[u8]) -> bool
    requires { length field.now ≤ 5 }
    ensures { result ≡ is_bad_label_field field.now }
{
    !are_label_characters(field) || (has_digit(field) && number_in(field) == 0)
}

/// The label of an initial line, 0 where there is none; `None` where the label field is a fault.
#[tactic(auto, using(crate::proofs::Cards::bad_label_card, crate::proofs::Cards::label_card))]
pub(crate) fn label_of(columns: &[u8]) -> Option<u32>
    requires { length columns.now ≤ 72 }
    ensures value { result ≡ (if has_bad_label (card columns.now) then None else Some (label (card columns.now))) }
    ensures small { IfSome result (λ n. n ≤ 99999) }
{
    let field = label_field(columns);
    if is_bad_label(field) {
        None
    } else {
        Some(number_in(field))
    }
}

/// Whether columns 1 to 5 are blank.
#[tactic(auto, using(crate::proofs::Cards::blank_field_card))]
pub(crate) fn has_blank_label(columns: &[u8]) -> bool
    requires { length columns.now ≤ 72 }
    ensures { result ≡ spec_is_blank (spec_label_field (card columns.now)) }
{
    is_blank(label_field(columns))
}

/// The line without the carriage return at its end, if it has one.
fn without_return(line: &[u8]) -> &[u8]
    ensures { result.now ≡ strip_carriage_return line.now }
{
    let n = line.len();
    if n > 0 && line[n - 1] == b'\r' {
        &line[..n - 1]
    } else {
        line
    }
}

/// The place of the first LF.
fn first_break(text: &[u8]) -> Option<usize>
    ensures { result ≡ position (λ c. c == 10) text.now }
{
    text.iter().position(|c| *c == b'\n')
}

/// The first line of a text, and the text after it.
pub(crate) fn split_line(text: &[u8]) -> (&[u8], &[u8])
    requires { 0 < length text.now }
    ensures lines { lines text.now ≡ result.0.now ∷ lines result.1.now }
    ensures shorter { length result.1.now < length text.now }
{
    match first_break(text) {
        Some(n) => (without_return(&text[..n]), &text[n + 1..]),
        None => (text, &text[text.len()..]),
    }
}
