ghost use Rattle.std.specs.Prelude.{◌≡◌, ◌≤◌, drop, length};
ghost use Rattle.f77_expr.specs.Piece.{piece as spec_piece, bracket_depth, ends_piece as spec_ends_piece};
ghost use Rattle.f77_expr.specs.Parsing.{IsParsed, IsPieceRead};
ghost use Rattle.f77_expr.specs.Scanning.{what_is_open};
ghost use Rattle.f77_expr.specs.Answers.{kept_in_range};

use crate::reader::read_piece;
use crate::scan::{Open, open_after};
use crate::{ExprEnd, Parsed, ReadEnd, ReadExpr};
use df_sequence::CharList;
use std::alloc::Global;

/// The most brackets that may be open in a statement.
pub const DEEPEST_ALLOWED: usize = 60;

/// The piece with which a text begins, and how many brackets are open in it at most.
#[derive(Drop)]
struct Piece<'a> {
    text: &'a [u8],
    depth: usize,
}

/// Whether a character ends the piece: a comma, a closing bracket, an equals sign or a colon, where nothing is open.
fn ends_piece(state: Open, c: u8) -> bool
    ensures { result ≡ spec_ends_piece (what_is_open state) c }
{
    !state.is_quoted && state.brackets == 0 && matches!(c, b',' | b')' | b'=' | b':')
}

/// The piece with which a text begins.
fn piece_at_start(text: &[u8]) -> Piece<'_>
    ensures text { result.text.now ≡ spec_piece text.now }
    ensures depth { result.depth ≡ bracket_depth (spec_piece text.now) }
    ensures short { length result.text.now ≤ length text.now }
{
    let mut state = Open::nothing();
    let mut depth = 0;
    for (i, c) in text.iter().enumerate() {
        if ends_piece(state, *c) {
            return Piece {
                text: &text[..i],
                depth,
            };
        }
        state = open_after(state, *c);
        depth = state.brackets.max(depth);
    }
    Piece { text, depth }
}

/// The expression in a piece of a text, for a reader that goes on after it (ANSI X3.9-1978, section 6). The piece runs
/// from the place `from`, counted in characters from 0, to the first `,`, `)`, `=` or `:` outside brackets and character
/// constants, or to the end. An expression with a constant above 2147483647 is read to its end.
///
/// How deep its brackets are isn't tested, though calls are nested as deep as brackets and chains of `**` are. In a
/// statement of at most 1,320 characters these are few enough; 5,000 of them, one in another, overflow the stack.
///
/// # Errors
///
/// NoForm where the piece is no expression. NoMemory may come in place of any answer.
pub fn read_expr(alloc: Global, text: &CharList, from: u32) -> Result<ReadExpr, ReadEnd>
    requires { from ≤ length text.now }
    ensures { IsPieceRead (spec_piece (drop from text.now)) from result }
{
    let piece = piece_at_start(&text.as_bytes()[from as usize..]);
    read_piece(alloc, piece.text, from)
}

/// What was read, where each constant in it is in range.
fn in_range(read: ReadExpr) -> Result<Parsed, ExprEnd>
    ensures { result ≡ kept_in_range read }
{
    if read.has_great_constant {
        return Err(ExprEnd::BadConstant);
    }
    Ok(Parsed {
        expr: read.expr,
        next: read.next,
    })
}

/// The expression in a piece of a text (ANSI X3.9-1978, section 6). The piece runs from the place `from`, counted in
/// characters from 0, to the first `,`, `)`, `=` or `:` outside brackets and character constants, or to the end.
///
/// # Errors
///
/// The first of these that holds: TooDeep where more than 60 brackets are open at some place of the piece, NoForm where
/// the piece is no expression, BadConstant where a constant in it is above 2147483647. NoMemory may come in place of any
/// answer.
pub fn parse_expr(alloc: Global, text: &CharList, from: u32) -> Result<Parsed, ExprEnd>
    requires { from ≤ length text.now }
    ensures { IsParsed (spec_piece (drop from text.now)) from result }
{
    let piece = piece_at_start(&text.as_bytes()[from as usize..]);
    if piece.depth > DEEPEST_ALLOWED {
        return Err(ExprEnd::TooDeep);
    }
    match read_piece(alloc, piece.text, from) {
        Ok(read) => in_range(read),
        Err(ReadEnd::NoForm) => Err(ExprEnd::NoForm),
        Err(ReadEnd::NoMemory) => Err(ExprEnd::NoMemory),
    }
}
