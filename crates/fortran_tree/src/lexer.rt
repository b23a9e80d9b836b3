//! From the characters of a statement to its tokens with their brackets.

use crate::cards::{Character, with_digit};
use crate::{LowerError, Names, Node, Place, Reason, Sign, Token};
use std::alloc::Global;

/// The greatest constant.
const GREATEST: u32 = 2147483647;

/// The token that is being read.
#[derive(Drop)]
enum Partial {
    None,
    Name(String),
    Number(u32),
    /// The characters of a character constant so far, and whether its last apostrophe may have closed it.
    Text(String, bool),
    /// The letters after a point.
    Word(String),
    /// A `*` that may be the first half of `**`.
    Star,
}

/// A statement whose tokens are being read.
#[derive(Drop)]
struct Lexer {
    /// For each bracket that is open, what stands before it, and its place.
    outer: Vec<(Vec<Node>, Place)>,
    /// What was read since the last bracket that is open.
    inner: Vec<Node>,
    partial: Partial,
    /// Where the token that is being read begins.
    place: Place,
}

impl Lexer {
    /// Adds a token that begins where the partial one does.
    fn add(&mut self, token: Token) -> Result<(), LowerError> {
        self.inner.push(Node::Leaf(token, self.place))?;
        Ok(())
    }

    /// Ends the token that is being read.
    fn finish(&mut self, names: &mut Names) -> Result<(), LowerError> {
        match std::mem::replace(&mut self.partial, Partial::None) {
            Partial::None => Ok(()),
            Partial::Name(name) => {
                let name = names.named(name)?;
                self.add(Token::Name(name))
            }
            Partial::Number(number) => {
                if number > GREATEST {
                    return Err(self.place.refused(Reason::GreatConstant));
                }
                self.add(Token::Number(number))
            }
            Partial::Text(text, is_closed) => {
                if !is_closed {
                    return Err(self.place.refused(Reason::OpenText));
                }
                let number = names.keep_text(text)?;
                self.add(Token::Text(number))
            }
            Partial::Word(_) => Err(self.place.refused(Reason::BadOperator)),
            Partial::Star => self.add(Token::Sign(Sign::Times)),
        }
    }

    /// Begins a token with this character, after the last one has ended.
    fn begin(&mut self, alloc: Global, character: Character) -> Result<(), LowerError> {
        let Character { byte, place, .. } = character;
        self.place = place;
        match byte {
            b'A'..=b'Z' => {
                let mut name = String::new(alloc);
                name.push(char::from(byte))?;
                self.partial = Partial::Name(name);
            }
            b'0'..=b'9' => self.partial = Partial::Number(with_digit(0, byte)),
            b'\'' => self.partial = Partial::Text(String::new(alloc), false),
            b'.' => self.partial = Partial::Word(String::new(alloc)),
            b'*' => self.partial = Partial::Star,
            b'(' => {
                let before = std::mem::replace(&mut self.inner, Vec::new(alloc));
                self.outer.push((before, place))?;
            }
            b')' => {
                let Some((before, opened)) = self.outer.pop() else {
                    return Err(place.refused(Reason::Brackets));
                };
                let inside = std::mem::replace(&mut self.inner, before);
                self.inner.push(Node::Group(inside, opened))?;
            }
            _ => match Sign::of_character(byte) {
                Some(sign) => self.add(Token::Sign(sign))?,
                None => return Err(place.refused(Reason::BadCharacter)),
            },
        }
        Ok(())
    }

    /// The token that a word between points is.
    fn word(&mut self, word: &str) -> Result<(), LowerError> {
        match word {
            "TRUE" => self.add(Token::Truth(true)),
            "FALSE" => self.add(Token::Truth(false)),
            _ => match Sign::of_word(word) {
                Some(sign) => self.add(Token::Sign(sign)),
                None => Err(self.place.refused(Reason::BadOperator)),
            },
        }
    }

    /// Goes on with the token that is being read, where the character belongs to it.
    fn goes_on(&mut self, character: Character) -> Result<bool, LowerError> {
        let byte = character.byte;
        match &mut self.partial {
            Partial::Name(name) if byte.is_ascii_alphanumeric() || byte == b'_' => {
                name.push(char::from(byte))?;
            }
            Partial::Number(number) if byte.is_ascii_digit() => {
                *number = with_digit(*number, byte);
            }
            Partial::Text(text, is_closed) if character.is_quoted => {
                if byte != b'\'' || *is_closed {
                    text.push(char::from(byte))?;
                }
                *is_closed = byte == b'\'' && !*is_closed;
            }
            Partial::Word(word) if byte.is_ascii_alphabetic() => {
                word.push(char::from(byte))?;
            }
            _ => return Ok(false),
        }
        Ok(true)
    }

    /// Takes the next character of a statement.
    fn take(
        &mut self,
        alloc: Global,
        names: &mut Names,
        character: Character,
    ) -> Result<(), LowerError> {
        if self.goes_on(character)? {
            return Ok(());
        }
        match std::mem::replace(&mut self.partial, Partial::None) {
            Partial::Word(word) if character.byte == b'.' => self.word(word.as_str()),
            Partial::Word(_) => Err(self.place.refused(Reason::RealConstant)),
            Partial::Star if character.byte == b'*' => self.add(Token::Sign(Sign::Power)),
            partial => {
                self.partial = partial;
                self.finish(names)?;
                self.begin(alloc, character)
            }
        }
    }
}

/// The tokens of characters, with their brackets.
pub(crate) fn nodes(
    alloc: Global,
    names: &mut Names,
    characters: &[Character],
) -> Result<Vec<Node>, LowerError> {
    let mut lexer = Lexer {
        outer: Vec::new(alloc),
        inner: Vec::new(alloc),
        partial: Partial::None,
        place: Place { line: 0, column: 0 },
    };
    for character in characters {
        lexer.take(alloc, names, *character)?;
    }
    lexer.finish(names)?;
    if let Some((_, opened)) = lexer.outer.last() {
        return Err(opened.refused(Reason::Brackets));
    }
    let Lexer {
        outer: _,
        inner,
        partial: _,
        place: _,
    } = lexer;
    Ok(inner)
}
