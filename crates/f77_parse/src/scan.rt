//! What stands outside brackets and character constants, and how deep brackets are.

ghost use Rattle.std.specs.Prelude.{◌≡◌, ◌&&◌, ◌||◌, ◌==◌, not, max};
ghost use Rattle.f77_expr.specs.Piece.{bracket_depth};
ghost use Rattle.f77_parse.specs.Forms.{stands_free as spec_stands_free};

use f77_expr::{Open, open_after};

/// What a scan of a text tells.
#[derive(Clone, Copy)]
pub(crate) struct Marks {
    /// How many brackets are open at most.
    pub(crate) depth: usize,
    /// Whether an equals sign stands outside all brackets and character constants.
    pub(crate) has_equals: bool,
    /// Whether a comma does.
    pub(crate) has_comma: bool,
}

/// Whether a character is this one, where nothing is open.
fn stands_free(state: Open, c: u8, wanted: u8) -> bool
    ensures { result ≡ ((c == wanted) && not state.is_quoted && (state.brackets == 0)) }
{
    c == wanted && !state.is_quoted && state.brackets == 0
}

/// What is told after a character, where `state` is what is open before it, and `next` after it.
fn marks_after(marks: Marks, state: Open, next: Open, c: u8) -> Marks
    ensures depth { result.depth ≡ max marks.depth next.brackets }
    ensures equals { result.has_equals ≡ (marks.has_equals || ((c == 61) && not state.is_quoted && (state.brackets == 0))) }
    ensures comma { result.has_comma ≡ (marks.has_comma || ((c == 44) && not state.is_quoted && (state.brackets == 0))) }
{
    let is_equals = stands_free(state, c, b'=');
    let is_comma = stands_free(state, c, b',');
    Marks {
        depth: marks.depth.max(next.brackets),
        has_equals: marks.has_equals || is_equals,
        has_comma: marks.has_comma || is_comma,
    }
}

/// What one scan of a text tells.
pub(crate) fn marks_of(text: &[u8]) -> Marks
    ensures depth { result.depth ≡ bracket_depth text.now }
    ensures equals { result.has_equals ≡ spec_stands_free 61 text.now }
    ensures comma { result.has_comma ≡ spec_stands_free 44 text.now }
{
    let mut state = Open::nothing();
    let mut marks = Marks {
        depth: 0,
        has_equals: false,
        has_comma: false,
    };
    for c in text {
        let next = open_after(state, *c);
        marks = marks_after(marks, state, next, *c);
        state = next;
    }
    marks
}
