//! From the characters of a statement to the statement.

use crate::cards::{Card, Character};
use crate::keywords::{Opening, after, opening_of};
use crate::lexer::nodes;
use crate::{Head, Kind, LowerError, Names, Node, Place, Reason, Sign, Statement, is_sign};
use std::alloc::Global;

/// What a statement is by its signs outside of brackets.
#[derive(Clone, Copy, PartialEq, Eq)]
enum Shape {
    /// It has an equals sign and no comma.
    Assignment,
    /// It has an equals sign and a comma.
    Loop,
    Other,
}

/// The shape of a statement that is no IF.
fn shape_of(characters: &[Character]) -> Shape {
    let mut depth = 0u32;
    let mut has_equals = false;
    let mut has_comma = false;
    for character in characters.iter().filter(|character| !character.is_quoted) {
        match character.byte {
            b'(' => depth = depth.saturating_add(1),
            b')' => depth = depth.saturating_sub(1),
            b'=' => has_equals = has_equals || depth == 0,
            b',' => has_comma = has_comma || depth == 0,
            _ => {}
        }
    }
    match (has_equals, has_comma) {
        (true, false) => Shape::Assignment,
        (true, true) => Shape::Loop,
        _ => Shape::Other,
    }
}

/// The characters up to the bracket that closes the one before them, and those after that.
fn closed(characters: &[Character]) -> Option<(&[Character], &[Character])> {
    let mut depth = 0u32;
    for (place, character) in characters.iter().enumerate() {
        if character.is_quoted {
            continue;
        }
        match character.byte {
            b'(' => depth = depth.saturating_add(1),
            b')' => {
                if depth == 0 {
                    return Some((characters.get(..place)?, characters.get(place..)?.get(1..)?));
                }
                depth = depth.saturating_sub(1);
            }
            _ => {}
        }
    }
    None
}

/// The characters after the digits with which they begin.
fn without_digits(characters: &[Character]) -> &[Character] {
    let digits = characters
        .iter()
        .take_while(|character| character.byte.is_ascii_digit())
        .count();
    characters.get(digits..).unwrap_or(characters)
}

/// Whether one of these words is all that there is.
fn is_one_of(characters: &[Character], words: &[&str]) -> bool {
    for word in words {
        if let Some(rest) = after(characters, word) {
            if rest.is_empty() {
                return true;
            }
        }
    }
    false
}

/// The items after a comma, or none.
fn items_of<'a>(characters: &'a [Character], place: Place) -> Result<&'a [Character], LowerError> {
    if characters.is_empty() {
        return Ok(characters);
    }
    after(characters, ",").ok_or(place.refused(Reason::Format))
}

/// What follows a kind's length, which is 4 where it is given.
fn without_length<'a>(
    characters: &'a [Character],
    place: Place,
) -> Result<&'a [Character], LowerError> {
    let Some(rest) = after(characters, "*") else {
        return Ok(characters);
    };
    match after(rest, "4") {
        Some(rest) => Ok(rest),
        None => Err(place.refused(Reason::Length)),
    }
}

/// The reader of one statement.
#[derive(Drop)]
struct Classifier {
    alloc: Global,
    place: Place,
}

impl Classifier {
    /// A statement of this kind, whose body is what the characters hold.
    fn with(
        &self,
        names: &mut Names,
        head: Head,
        body: &[Character],
    ) -> Result<Statement, LowerError> {
        let body = nodes(self.alloc, names, body)?;
        Ok(Statement::plain(head, body, self.place))
    }

    /// A statement that begins with a kind.
    fn typed(
        &self,
        names: &mut Names,
        kind: Kind,
        rest: &[Character],
    ) -> Result<Statement, LowerError> {
        let rest = without_length(rest, self.place)?;
        match after(rest, "FUNCTION") {
            Some(name) => self.with(names, Head::Function(Some(kind)), name),
            None => self.with(names, Head::Declare(kind), rest),
        }
    }

    /// The items of a statement of input or output whose brackets name the unit and the format.
    fn controlled(
        &self,
        names: &mut Names,
        head: Head,
        rest: &[Character],
    ) -> Result<Statement, LowerError> {
        let refused = self.place.refused(Reason::Format);
        let Some(inside) = after(rest, "(") else {
            return Err(refused);
        };
        let Some((control, items)) = closed(inside) else {
            return Err(self.place.refused(Reason::Brackets));
        };
        let is_known = match head {
            Head::Print => is_one_of(control, &["6,*", "6,FMT=*", "UNIT=6,FMT=*"]),
            _ => is_one_of(control, &["5,*", "5,FMT=*", "UNIT=5,FMT=*"]),
        };
        if !is_known && !is_one_of(control, &["*,*", "*,FMT=*", "UNIT=*,FMT=*"]) {
            return Err(refused);
        }
        self.with(names, head, items)
    }

    /// The items of PRINT or READ after a star.
    fn listed(
        &self,
        names: &mut Names,
        head: Head,
        rest: &[Character],
    ) -> Result<Statement, LowerError> {
        match after(rest, "*") {
            Some(rest) => self.with(names, head, items_of(rest, self.place)?),
            None => match (head, after(rest, "(")) {
                (Head::Read, Some(_)) => self.controlled(names, head, rest),
                _ => Err(self.place.refused(Reason::Format)),
            },
        }
    }

    /// A statement that begins with a word.
    fn opened(&self, names: &mut Names, characters: &[Character]) -> Result<Statement, LowerError> {
        match opening_of(characters) {
            None => Err(self.place.refused(Reason::NotUnderstood)),
            Some((Opening::Whole(head), rest)) => self.with(names, head, rest),
            Some((Opening::With(Head::End), _)) => self.with(names, Head::End, &[]),
            Some((Opening::With(head), rest)) => self.with(names, head, rest),
            Some((Opening::Type(kind), rest)) => self.typed(names, kind, rest),
            Some((Opening::Print, rest)) => self.listed(names, Head::Print, rest),
            Some((Opening::Read, rest)) => self.listed(names, Head::Read, rest),
            Some((Opening::Write, rest)) => self.controlled(names, Head::Print, rest),
            Some((Opening::Refused(reason), _)) => Err(self.place.refused(reason)),
        }
    }

    /// The body of a DO, without the comma that may stand after the label.
    fn counted(&self, names: &mut Names, rest: &[Character]) -> Result<Statement, LowerError> {
        let mut body = nodes(self.alloc, names, rest)?;
        if body.len() > 1 && is_sign(&body[1], Sign::Comma) {
            body.remove(1);
        }
        Ok(Statement::plain(Head::Do, body, self.place))
    }

    /// A DO WHILE whose label, if it has one, and brackets are here.
    fn repeated(
        &self,
        names: &mut Names,
        rest: &[Character],
        brackets: &[Character],
    ) -> Result<Statement, LowerError> {
        let mut body = nodes(self.alloc, names, rest)?;
        body.truncate(1);
        if body.first().and_then(|first| first.number()).is_none() {
            body.clear();
        }
        for node in nodes(self.alloc, names, brackets)? {
            body.push(node)?;
        }
        Ok(Statement::plain(Head::DoWhile, body, self.place))
    }

    /// A statement that is no IF.
    fn simple(&self, names: &mut Names, characters: &[Character]) -> Result<Statement, LowerError> {
        if shape_of(characters) == Shape::Assignment {
            if after(characters, "PARAMETER").is_some() {
                return Err(self.place.refused(Reason::NotUnderstood));
            }
            return self.with(names, Head::Assign, characters);
        }
        let Some(rest) = after(characters, "DO") else {
            return self.opened(names, characters);
        };
        if shape_of(rest) == Shape::Loop {
            return self.counted(names, rest);
        }
        let unlabelled = without_digits(rest);
        let unlabelled = after(unlabelled, ",").unwrap_or(unlabelled);
        match after(unlabelled, "WHILE") {
            Some(brackets) => self.repeated(names, rest, brackets),
            None => self.opened(names, characters),
        }
    }

    /// A statement whose body is the condition, in brackets.
    fn tested(
        &self,
        names: &mut Names,
        head: Head,
        condition: &[Character],
    ) -> Result<Statement, LowerError> {
        let mut body = Vec::new(self.alloc);
        body.push(Node::Group(nodes(self.alloc, names, condition)?, self.place))?;
        Ok(Statement::plain(head, body, self.place))
    }

    /// A statement that depends on a condition.
    fn guarded(
        &self,
        names: &mut Names,
        condition: &[Character],
        rest: &[Character],
    ) -> Result<Statement, LowerError> {
        let condition = nodes(self.alloc, names, condition)?;
        let mut statement = self.simple(names, rest)?;
        if !statement.head.is_action() {
            return Err(self.place.refused(Reason::NotUnderstood));
        }
        statement.guard = Some(condition);
        Ok(statement)
    }

    /// An IF, from what stands after the word.
    fn conditional(
        &self,
        names: &mut Names,
        brackets: &[Character],
        characters: &[Character],
    ) -> Result<Statement, LowerError> {
        let Some((condition, rest)) = after(brackets, "(").and_then(|inside| closed(inside)) else {
            return Err(self.place.refused(Reason::Brackets));
        };
        if after(rest, "=").is_some() {
            self.with(names, Head::Assign, characters)
        } else if is_one_of(rest, &["THEN"]) {
            self.tested(names, Head::Then, condition)
        } else if without_digits(rest).len() < rest.len() {
            self.with(names, Head::ArithmeticIf, brackets)
        } else {
            self.guarded(names, condition, rest)
        }
    }

    /// The statement of these characters.
    fn statement(
        &self,
        names: &mut Names,
        characters: &[Character],
    ) -> Result<Statement, LowerError> {
        if let Some(inside) = after(characters, "ELSEIF(") {
            match closed(inside) {
                Some((condition, rest)) if is_one_of(rest, &["THEN"]) => {
                    return self.tested(names, Head::ElseIf, condition);
                }
                _ => {}
            }
        }
        match (after(characters, "IF("), after(characters, "IF")) {
            (Some(_), Some(brackets)) => self.conditional(names, brackets, characters),
            _ => self.simple(names, characters),
        }
    }
}

/// The statement that a card holds.
pub(crate) fn statement_of(
    alloc: Global,
    names: &mut Names,
    card: &Card,
) -> Result<Statement, LowerError> {
    let place = match card.characters.first() {
        Some(first) => first.place,
        None => card.place,
    };
    let statement = Classifier { alloc, place }.statement(names, card.characters.as_slice())?;
    Ok(statement.labelled(card.label))
}
