//! The words with which statements begin.

use crate::cards::Character;
use crate::{Head, Kind, Reason};

/// What a word at the beginning of a statement says of it.
#[derive(Clone, Copy)]
pub(crate) enum Opening {
    /// A statement that is nothing but the word.
    Whole(Head),
    /// A statement whose body follows the word.
    With(Head),
    /// A type statement, or a FUNCTION with its type.
    Type(Kind),
    /// PRINT
    Print,
    /// READ
    Read,
    /// WRITE
    Write,
    /// A word that no lowered program has.
    Refused(Reason),
}

/// The characters after a word, where they begin with it.
pub(crate) fn after<'a>(characters: &'a [Character], word: &str) -> Option<&'a [Character]> {
    let mut rest = characters;
    for letter in word.as_bytes() {
        let (first, others) = rest.split_first()?;
        if first.byte != *letter || first.is_quoted {
            return None;
        }
        rest = others;
    }
    Some(rest)
}

const OPENINGS: [(&str, Opening); 48] = [
    ("PROGRAM", Opening::With(Head::Program)),
    ("SUBROUTINE", Opening::With(Head::Subroutine)),
    ("FUNCTION", Opening::With(Head::Function(None))),
    ("BLOCKDATA", Opening::With(Head::BlockData)),
    ("IMPLICITNONE", Opening::Whole(Head::ImplicitNone)),
    ("IMPLICIT", Opening::With(Head::Implicit)),
    ("INTEGER", Opening::Type(Kind::Integer)),
    ("LOGICAL", Opening::Type(Kind::Logical)),
    ("DIMENSION", Opening::With(Head::Dimension)),
    ("COMMON", Opening::With(Head::Common)),
    ("EQUIVALENCE", Opening::With(Head::Equivalence)),
    ("PARAMETER", Opening::With(Head::Parameter)),
    ("EXTERNAL", Opening::With(Head::External)),
    ("INTRINSIC", Opening::With(Head::Intrinsic)),
    ("SAVE", Opening::With(Head::Save)),
    ("DATA", Opening::With(Head::Data)),
    ("ELSE", Opening::Whole(Head::Else)),
    ("ENDIF", Opening::Whole(Head::EndIf)),
    ("ENDDO", Opening::Whole(Head::EndDo)),
    ("ENDPROGRAM", Opening::With(Head::End)),
    ("ENDSUBROUTINE", Opening::With(Head::End)),
    ("ENDFUNCTION", Opening::With(Head::End)),
    ("ENDFILE", Opening::Refused(Reason::NotSupported("ENDFILE"))),
    ("END", Opening::Whole(Head::End)),
    ("GOTO", Opening::With(Head::GoTo)),
    ("CALL", Opening::With(Head::Call)),
    ("RETURN", Opening::Whole(Head::Return)),
    ("STOP", Opening::With(Head::Stop)),
    ("CONTINUE", Opening::Whole(Head::Continue)),
    ("PRINT", Opening::Print),
    ("READ", Opening::Read),
    ("WRITE", Opening::Write),
    ("FORMAT", Opening::Refused(Reason::Format)),
    ("REAL", Opening::Refused(Reason::NotSupported("REAL"))),
    (
        "DOUBLEPRECISION",
        Opening::Refused(Reason::NotSupported("DOUBLE PRECISION")),
    ),
    ("COMPLEX", Opening::Refused(Reason::NotSupported("COMPLEX"))),
    (
        "CHARACTER",
        Opening::Refused(Reason::NotSupported("CHARACTER")),
    ),
    ("OPEN", Opening::Refused(Reason::NotSupported("OPEN"))),
    ("CLOSE", Opening::Refused(Reason::NotSupported("CLOSE"))),
    ("REWIND", Opening::Refused(Reason::NotSupported("REWIND"))),
    (
        "BACKSPACE",
        Opening::Refused(Reason::NotSupported("BACKSPACE")),
    ),
    ("INQUIRE", Opening::Refused(Reason::NotSupported("INQUIRE"))),
    ("ENTRY", Opening::Refused(Reason::NotSupported("ENTRY"))),
    ("ASSIGN", Opening::Refused(Reason::NotSupported("ASSIGN"))),
    ("PAUSE", Opening::Refused(Reason::NotSupported("PAUSE"))),
    ("INCLUDE", Opening::Refused(Reason::NotSupported("INCLUDE"))),
    ("EXIT", Opening::Refused(Reason::Leaving)),
    ("CYCLE", Opening::Refused(Reason::Leaving)),
];

/// The word with which a statement begins, and the characters after it. A statement that is a word alone has nothing after it.
pub(crate) fn opening_of<'a>(characters: &'a [Character]) -> Option<(Opening, &'a [Character])> {
    for (word, opening) in &OPENINGS {
        if let Some(rest) = after(characters, word) {
            if !matches!(*opening, Opening::Whole(_)) || rest.is_empty() {
                return Some((*opening, rest));
            }
        }
    }
    None
}
