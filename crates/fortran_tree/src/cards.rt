//! The lines of a text in fixed form (ANSI X3.9-1978, 3.2), where tabs may stand for blanks and `!` begins a comment.

use crate::{LowerError, Place, Reason};
use std::alloc::Global;

/// A character of a statement.
#[derive(Clone, Copy)]
pub(crate) struct Character {
    pub(crate) byte: u8,
    pub(crate) place: Place,
    /// Whether it stands in a character constant, the apostrophes counted.
    pub(crate) is_quoted: bool,
}

/// A statement as its characters: without blanks and in upper case, but for those of character constants.
#[derive(Drop)]
pub(crate) struct Card {
    pub(crate) label: u32,
    pub(crate) place: Place,
    pub(crate) characters: Vec<Character>,
    /// Whether a character constant is still open.
    pub(crate) is_open: bool,
}

/// The last column that counts.
const LAST_COLUMN: u32 = 72;

/// How many continuation lines a statement has at most (ANSI X3.9-1978, 3.2.3).
const MOST_CONTINUATIONS: u32 = 19;

/// The column in which a statement begins.
const FIRST_COLUMN: u32 = 7;

/// What the label field and column 6 of a line say.
#[derive(Clone, Copy)]
struct Field {
    label: u32,
    /// Whether something stands in columns 1 to 5.
    has_label: bool,
    is_continuation: bool,
    is_comment: bool,
}

impl Field {
    /// Goes on with a character that is no blank.
    fn take(&mut self, byte: u8, place: Place) -> Result<(), LowerError> {
        if place.column == 6 {
            self.is_continuation = byte != b'0';
        } else if place.column < 6 {
            if !byte.is_ascii_digit() {
                return Err(place.refused(Reason::BadLabel));
            }
            self.has_label = true;
            self.label = with_digit(self.label, byte);
        }
        Ok(())
    }
}

impl Card {
    /// A statement of which no character is read, whose initial line has this label.
    fn begun(alloc: Global, field: Field, place: Place) -> Result<Card, LowerError> {
        if field.has_label && field.label == 0 {
            return Err(place.refused(Reason::BadLabel));
        }
        Ok(Card {
            label: field.label,
            place,
            characters: Vec::new(alloc),
            is_open: false,
        })
    }

    /// Goes on with a character of the columns of statements.
    fn put(&mut self, byte: u8, place: Place) -> Result<(), LowerError> {
        if byte == b'\'' {
            self.is_open = !self.is_open;
            self.characters.push(Character {
                byte,
                place,
                is_quoted: true,
            })?;
        } else if self.is_open {
            self.characters.push(Character {
                byte,
                place,
                is_quoted: true,
            })?;
        } else if byte != b' ' {
            self.characters.push(Character {
                byte: byte.to_ascii_uppercase(),
                place,
                is_quoted: false,
            })?;
        }
        Ok(())
    }

    /// Goes on with columns 7 to 72 of a line, up to a `!` outside of character constants.
    fn put_line(&mut self, line: &[Character], number: u32) -> Result<(), LowerError> {
        let mut next = FIRST_COLUMN;
        for character in line {
            let Character { byte, place, .. } = *character;
            if FIRST_COLUMN <= place.column {
                if byte == b'!' && !self.is_open {
                    return Ok(());
                }
                if byte == b'\t' && !self.is_open {
                    self.put(b' ', place)?;
                } else if byte < b' ' || b'~' < byte {
                    return Err(place.refused(Reason::BadCharacter));
                } else {
                    self.put(byte, place)?;
                }
                next = place.column.saturating_add(1);
            }
        }
        self.fill(next, number)
    }

    /// Fills the rest of a short line with blanks, which belong to a character constant that is open.
    fn fill(&mut self, from: u32, number: u32) -> Result<(), LowerError> {
        if self.is_open && from <= LAST_COLUMN {
            for column in from..73 {
                self.put(
                    b' ',
                    Place {
                        line: number,
                        column,
                    },
                )?;
            }
        }
        Ok(())
    }
}

/// The characters of a line in columns 1 to 72. A tab in columns 1 to 6 leads to column 7, or to column 6 where a digit other than 0
/// follows it, and stays elsewhere.
fn columns(alloc: Global, line: &[u8], number: u32) -> Result<Vec<Character>, LowerError> {
    let mut found = Vec::new(alloc);
    let mut column = 1u32;
    let mut is_after_tab = false;
    for byte in line {
        if is_after_tab && b'1' <= *byte && *byte <= b'9' {
            column = FIRST_COLUMN - 1;
        }
        is_after_tab = *byte == b'\t' && column < FIRST_COLUMN;
        if is_after_tab {
            column = FIRST_COLUMN;
        } else if column <= LAST_COLUMN {
            found.push(Character {
                byte: *byte,
                place: Place {
                    line: number,
                    column,
                },
                is_quoted: false,
            })?;
            column += 1;
        }
    }
    Ok(found)
}

/// What columns 1 to 6 of a line say.
fn field_of(line: &[Character]) -> Result<Field, LowerError> {
    let mut field = Field {
        label: 0,
        has_label: false,
        is_continuation: false,
        is_comment: true,
    };
    for character in line {
        let Character { byte, place, .. } = *character;
        if place.column == 1 && matches!(byte, b'C' | b'c' | b'*') {
            return Ok(field);
        }
        if byte == b'!' && place.column != 6 {
            return Ok(field);
        }
        if byte != b' ' && byte != b'\t' {
            field.is_comment = false;
            field.take(byte, place)?;
        }
        if FIRST_COLUMN <= place.column && !field.is_comment {
            return Ok(field);
        }
    }
    Ok(field)
}

/// The number after one more digit, or the greatest number of 32 bits where that is less.
pub(crate) fn with_digit(number: u32, digit: u8) -> u32 {
    number
        .saturating_mul(10)
        .saturating_add(u32::from(digit.saturating_sub(b'0')))
}

/// A line without the carriage return at its end.
fn without_return(line: &[u8]) -> &[u8] {
    match line.split_last() {
        Some((b'\r', others)) => others,
        _ => line,
    }
}

/// The statements of a text, as their characters.
pub(crate) fn cards(alloc: Global, text: &[u8]) -> Result<Vec<Card>, LowerError> {
    let mut cards: Vec<Card> = Vec::new(alloc);
    let mut number = 0u32;
    let mut continuations = 0u32;
    for line in text.split(|byte| *byte == b'\n') {
        number = number.saturating_add(1);
        let columns = columns(alloc, without_return(line), number)?;
        let line = columns.as_slice();
        let field = field_of(line)?;
        if field.is_comment {
            continue;
        }
        let place = Place {
            line: number,
            column: FIRST_COLUMN,
        };
        if field.is_continuation {
            continuations = continuations.saturating_add(1);
            if field.has_label {
                return Err(place.refused(Reason::BadLabel));
            }
            if continuations > MOST_CONTINUATIONS {
                return Err(place.refused(Reason::LongStatement));
            }
        } else {
            continuations = 0;
            cards.push(Card::begun(alloc, field, place)?)?;
        }
        match cards.last_mut() {
            Some(card) => card.put_line(line, number)?,
            None => return Err(place.refused(Reason::StrayContinuation)),
        }
    }
    Ok(cards)
}
