//! Shapes that no statement has: expressions that aren't finished, brackets that don't match, names that are too long.

ghost use Rattle.std.specs.Prelude.{◌≡◌, ◌==◌, false, IfOk, option_map};
ghost use Rattle.std.specs.List.{count_by, list_any};
ghost use Rattle.form_advice.specs.Shapes.{after as after_of, advice_on_operands as advice_on_operands_of, advice_on_shape as advice_on_shape_of, has as has_in, has_empty_text as has_empty_text_in, has_long_name as has_long_name_in, has_point as has_point_in, is_assignment as is_assignment_in, is_point as is_point_at, compares_by_equals as compares_by_equals_in, depth_after as depth_after_of, is_unfinished as is_unfinished_in, marks_of as marks_in, run_after, without_constants as without_constants_of};
ghost use Rattle.form_advice.specs.Said.{said};

use crate::advice::Advice;
use df_sequence::NoMemory;
use std::alloc::Global;

/// A name has at most this many characters.
const LONGEST_NAME: u32 = 6;

const OPEN_TEXT: Advice = Advice {
    wrong: "a text in quotes isn't closed",
    instead: "End it with a quote before column 73; a quote inside a text is written twice.",
};

const EMPTY_TEXT: Advice = Advice {
    wrong: "a text in quotes has no characters",
    instead: "Write one blank or more: ' '.",
};

const OPEN_BRACKET: Advice = Advice {
    wrong: "a bracket isn't closed",
    instead: "Close it before column 73, or go on in the next line with a character in column 6.",
};

const STRAY_BRACKET: Advice = Advice {
    wrong: "there are more closing brackets than opening ones",
    instead: "Leave one out, or open it.",
};

const UNFINISHED: Advice = Advice {
    wrong: "the statement isn't finished",
    instead: "Add what is missing at its end, before column 73, or go on in the next line with a character in column 6.",
};

const REAL_CONSTANT: Advice = Advice {
    wrong: "a number with a point is real, and real numbers aren't in the language",
    instead: "Use integers, scaled where there are fractions.",
};

const TWO_OPERATORS: Advice = Advice {
    wrong: "two operators stand side by side",
    instead: "Put the second one and its operand into brackets: 2*(-3).",
};

const EMPTY_PLACE: Advice = Advice {
    wrong: "an operand or an item is missing",
    instead: "Write one between the signs, or leave a sign out.",
};

const EQUALS: Advice = Advice {
    wrong: "a condition has an equals sign",
    instead: "Compare integers by .EQ. and logical values by .EQV.",
};

const TWO_EQUALS: Advice = Advice {
    wrong: "a statement has two equals signs",
    instead: "Write one statement a line, and assign to one name at a time; values are compared by .EQ.",
};

const LONG_NAME: Advice = Advice {
    wrong: "a name is longer than six characters",
    instead: "Make it shorter: a name has a letter and up to five letters and digits. Or use --wide.",
};

/// Two signs of which the second can't follow the first.
pub(crate) const OPERATOR_PAIRS: [&str; 11] = [
    "++", "+-", "+*", "--", "-+", "-*", "*-", "*+", "/-", "/+", "***",
];

/// Two signs between which something is missing.
pub(crate) const EMPTY_PAIRS: [&str; 8] = ["(,", ",,", ",)", "+)", "-)", "/)", "=)", "(="];

/// The text with an apostrophe for each character between apostrophes.
///
/// # Errors
///
/// `NoMemory` where memory runs out.
pub(crate) fn without_constants(alloc: Global, text: &[u8]) -> Result<Vec<u8>, NoMemory>
    ensures { IfOk result (λ plain. plain.items ≡ without_constants_of false text.now) }
{
    let mut plain = Vec::with_capacity(alloc, text.len())?;
    let mut is_inside = false;
    for c in text {
        is_inside = is_inside != (*c == b'\'');
        plain.push(if is_inside { b'\'' } else { *c })?;
    }
    Ok(plain)
}

/// What is told of the shape of a text, where something is wrong with it: of the whole text, and of that without its
/// character constants.
pub(crate) fn advice_on_shape(text: &[u8], plain: &[u8]) -> Option<Advice>
    ensures { option_map said result ≡ advice_on_shape_of text.now plain.now }
{
    if count(text, b'\'') % 2 == 1 {
        return Some(OPEN_TEXT);
    }
    if has_empty_text(text) {
        return Some(EMPTY_TEXT);
    }
    let opened = count(plain, b'(');
    let closed = count(plain, b')');
    if closed < opened {
        return Some(OPEN_BRACKET);
    }
    if opened < closed {
        return Some(STRAY_BRACKET);
    }
    if is_unfinished(plain) {
        return Some(UNFINISHED);
    }
    advice_on_operands(plain)
}

// What is told of numbers, operators and names.
fn advice_on_operands(plain: &[u8]) -> Option<Advice>
    ensures { option_map said result ≡ advice_on_operands_of plain.now }
{
    if has_point(plain) {
        return Some(REAL_CONSTANT);
    }
    if has_one_of(&OPERATOR_PAIRS, plain) {
        return Some(TWO_OPERATORS);
    }
    if compares_by_equals(plain) {
        return Some(EQUALS);
    }
    if is_assignment(plain) && 1 < count(plain, b'=') {
        return Some(TWO_EQUALS);
    }
    if has_long_name(plain) {
        return Some(LONG_NAME);
    }
    if !plain.starts_with(b"WRITE")
        && !plain.starts_with(b"READ")
        && has_one_of(&EMPTY_PAIRS, plain)
    {
        return Some(EMPTY_PLACE);
    }
    None
}

/// Whether a text stands somewhere in another one.
pub(crate) fn has(text: &[u8], part: &[u8]) -> bool
    ensures { result ≡ has_in text.now part.now }
{
    let mut rest = text;
    while let [_, after @ ..] = rest {
        if rest.starts_with(part) {
            return true;
        }
        rest = after;
    }
    false
}

fn has_one_of(parts: &[&str], text: &[u8]) -> bool
    ensures { result ≡ list_any (λ part. has_in text.now part.now) parts.now }
{
    parts.iter().any(|part| has(text, part.as_bytes()))
}

// How often a character stands in a text.
fn count(text: &[u8], sign: u8) -> usize
    ensures { result ≡ count_by (λ c. c == sign) text.now }
{
    text.iter().filter(|c| **c == sign).count()
}

// Whether the text ends with a sign that something must follow.
fn is_unfinished(plain: &[u8]) -> bool
    ensures { result ≡ is_unfinished_in plain.now }
{
    match plain.last() {
        Some(c) => {
            (b"=+-*,(".contains(c) && !plain.ends_with(b")*"))
                || (*c == b'/' && is_assignment(plain))
        }
        None => false,
    }
}

// Whether an item of PRINT or WRITE is a text without characters.
fn has_empty_text(text: &[u8]) -> bool
    ensures { result ≡ has_empty_text_in text.now }
{
    text.ends_with(b",''") || has(text, b",'',")
}

// Whether a digit and a point that belongs to it stand somewhere.
fn has_point(plain: &[u8]) -> bool
    ensures { result ≡ has_point_in plain.now }
{
    let mut rest = plain;
    while let [_, after @ ..] = rest {
        if is_point(rest) {
            return true;
        }
        rest = after;
    }
    false
}

// Whether a digit and a point that belongs to it come first: what follows is no letter, as in 1.EQ.2.
fn is_point(rest: &[u8]) -> bool
    ensures { result ≡ is_point_at rest.now }
{
    match rest {
        [first, b'.'] => first.is_ascii_digit(),
        [first, b'.', next, ..] => first.is_ascii_digit() && !next.is_ascii_uppercase(),
        _ => false,
    }
}

/// What is known of a text after some characters.
#[derive(Clone, Copy)]
pub(crate) struct Marks {
    /// How many brackets are open.
    depth: u32,
    /// Whether an equals sign stands outside brackets.
    has_equals: bool,
    /// Whether a comma does.
    has_comma: bool,
    /// Whether an equals sign stands inside brackets.
    has_inner_equals: bool,
}

impl Marks {
    const NONE: Marks = Marks {
        depth: 0,
        has_equals: false,
        has_comma: false,
        has_inner_equals: false,
    };

    // The same after one more character.
    fn after(self, c: u8) -> Marks
        ensures { result ≡ after_of self c }
    {
        Marks {
            depth: depth_after(self.depth, c),
            has_equals: self.has_equals || (c == b'=' && self.depth == 0),
            has_comma: self.has_comma || (c == b',' && self.depth == 0),
            has_inner_equals: self.has_inner_equals || (c == b'=' && 0 < self.depth),
        }
    }
}

// How many brackets are open after one more character.
fn depth_after(depth: u32, c: u8) -> u32
    ensures { result ≡ depth_after_of depth c }
{
    match c {
        b'(' => depth.saturating_add(1),
        b')' => depth.saturating_sub(1),
        _ => depth,
    }
}

/// Whether the text assigns: an equals sign stands outside brackets, and no comma does.
pub(crate) fn is_assignment(plain: &[u8]) -> bool
    ensures { result ≡ is_assignment_in plain.now }
{
    let marks = marks_of(plain);
    marks.has_equals && !marks.has_comma
}

fn marks_of(plain: &[u8]) -> Marks
    ensures { result ≡ marks_in plain.now }
{
    plain.iter().fold(Marks::NONE, |marks, c| marks.after(*c))
}

// Whether an equals sign stands in the condition of an IF.
fn compares_by_equals(plain: &[u8]) -> bool
    ensures { result ≡ compares_by_equals_in plain.now }
{
    (plain.starts_with(b"IF(") || plain.starts_with(b"ELSEIF(")) && marks_of(plain).has_inner_equals
}

/// The name that stands at the end of some characters of a text.
#[derive(Clone, Copy)]
pub(crate) struct Run {
    /// How many characters of it there are.
    length: u32,
    /// Whether no word of a statement can stand before it.
    counts: bool,
    /// Whether a name that counts had more than six characters.
    is_long: bool,
}

impl Run {
    // The same after one more character.
    fn after(self, c: u8) -> Run
        ensures { result ≡ run_after self c }
    {
        let goes_on = c.is_ascii_uppercase() || (0 < self.length && c.is_ascii_digit());
        let length = if goes_on {
            self.length.saturating_add(1)
        } else {
            0
        };
        Run {
            length,
            counts: if goes_on {
                self.counts
            } else {
                c != b')' && !c.is_ascii_digit()
            },
            is_long: self.is_long || (LONGEST_NAME < length && self.counts),
        }
    }
}

// Whether a name has more than six characters. At its start a statement that doesn't assign may have a word before a name.
fn has_long_name(plain: &[u8]) -> bool
    ensures { result ≡ has_long_name_in plain.now }
{
    let start = Run {
        length: 0,
        counts: is_assignment(plain)
            && !plain.starts_with(b"INTEGER")
            && !plain.starts_with(b"LOGICAL"),
        is_long: false,
    };
    plain.iter().fold(start, |run, c| run.after(*c)).is_long
}
