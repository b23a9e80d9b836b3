//! What is open where a scan of a text stands.

ghost use Rattle.std.specs.Prelude.{◌≡◌, ◌<◌};
ghost use Rattle.f77_expr.specs.Piece.{nothing_open, open_after as spec_open_after};
ghost use Rattle.f77_expr.specs.Scanning.{what_is_open};

/// What is open where a scan stands: a character constant or none, and how many brackets.
#[derive(Clone, Copy, Debug, PartialEq, Eq)]
pub struct Open {
    /// Whether a character constant is open.
    pub is_quoted: bool,
    /// How many brackets are.
    pub brackets: usize,
}

impl Open {
    /// Nothing is open.
    pub fn nothing() -> Open
        ensures { what_is_open result ≡ nothing_open }
    {
        Open {
            is_quoted: false,
            brackets: 0,
        }
    }
}

/// What is open after a character. A closing bracket where none is open changes nothing.
pub fn open_after(state: Open, c: u8) -> Open
    requires { state.brackets < 18446744073709551615 }
    ensures { what_is_open result ≡ spec_open_after (what_is_open state) c }
{
    if c == b'\'' {
        return Open {
            is_quoted: !state.is_quoted,
            brackets: state.brackets,
        };
    }
    if state.is_quoted {
        return state;
    }
    let brackets = match c {
        b'(' => state.brackets + 1,
        b')' => state.brackets.saturating_sub(1),
        _ => state.brackets,
    };
    Open {
        is_quoted: false,
        brackets,
    }
}
