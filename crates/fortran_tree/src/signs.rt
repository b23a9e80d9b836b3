//! Signs between names and constants.

ghost use Rattle.std.specs.Prelude.{◌≡◌};
ghost use Rattle.fortran_tree.specs.Signs.{is_logical as makes_logical};

/// A sign: an operator, or a mark of punctuation that is no bracket.
#[derive(Clone, Copy, PartialEq, Eq)]
pub enum Sign {
    Plus,
    Minus,
    Times,
    Divide,
    Power,
    Comma,
    Equals,
    Colon,
    Less,
    LessEqual,
    Equal,
    NotEqual,
    GreaterEqual,
    Greater,
    Not,
    And,
    Or,
    Equivalent,
    NotEquivalent,
}

impl Sign {
    /// How the sign is written.
    pub(crate) fn spelling(self) -> &'static str {
        match self {
            Sign::Plus => "+",
            Sign::Minus => "-",
            Sign::Times => "*",
            Sign::Divide => "/",
            Sign::Power => "**",
            Sign::Comma => ",",
            Sign::Equals => "=",
            Sign::Colon => ":",
            Sign::Less => ".LT.",
            Sign::LessEqual => ".LE.",
            Sign::Equal => ".EQ.",
            Sign::NotEqual => ".NE.",
            Sign::GreaterEqual => ".GE.",
            Sign::Greater => ".GT.",
            Sign::Not => ".NOT.",
            Sign::And => ".AND.",
            Sign::Or => ".OR.",
            Sign::Equivalent => ".EQV.",
            Sign::NotEquivalent => ".NEQV.",
        }
    }

    /// Whether an expression with this operator outside of brackets is logical.
    pub fn is_logical(self) -> bool
        ensures { result ≡ makes_logical self }
    {
        !matches!(
            self,
            Sign::Plus
                | Sign::Minus
                | Sign::Times
                | Sign::Divide
                | Sign::Power
                | Sign::Comma
                | Sign::Equals
                | Sign::Colon
        )
    }

    /// The operator that is written as this word between points, as `AND` for `.AND.`.
    pub(crate) fn of_word(word: &str) -> Option<Sign> {
        match word {
            "LT" => Some(Sign::Less),
            "LE" => Some(Sign::LessEqual),
            "EQ" => Some(Sign::Equal),
            "NE" => Some(Sign::NotEqual),
            "GE" => Some(Sign::GreaterEqual),
            "GT" => Some(Sign::Greater),
            "NOT" => Some(Sign::Not),
            "AND" => Some(Sign::And),
            "OR" => Some(Sign::Or),
            "EQV" => Some(Sign::Equivalent),
            "NEQV" => Some(Sign::NotEquivalent),
            _ => None,
        }
    }

    /// The sign of one character that is no letter, no digit, no point, no apostrophe and no bracket.
    pub(crate) fn of_character(character: u8) -> Option<Sign> {
        match character {
            b'+' => Some(Sign::Plus),
            b'-' => Some(Sign::Minus),
            b'*' => Some(Sign::Times),
            b'/' => Some(Sign::Divide),
            b',' => Some(Sign::Comma),
            b'=' => Some(Sign::Equals),
            b':' => Some(Sign::Colon),
            _ => None,
        }
    }
}
