//! Values of 32 bits, written and read.

ghost use Rattle.std.specs.Prelude.{◌≡◌, IfOk};
ghost use Rattle.unit_tables.specs.Pieces.{signed_nodes};

use crate::evaluate::constant_value;
use fortran_tree::{LowerError, Node, Place, Reason, Sign, Token, leaf};
use std::alloc::Global;

/// A constant, with its sign before it where it is negative.
pub fn signed(alloc: Global, value: i32, place: Place) -> Result<Vec<Node>, LowerError>
    ensures { IfOk result (λ nodes. nodes.items ≡ signed_nodes value place) }
{
    let mut nodes = Vec::new(alloc);
    if value < 0 {
        nodes.push(leaf(Token::Sign(Sign::Minus), place))?;
    }
    nodes.push(leaf(Token::Number(value.unsigned_abs()), place))?;
    Ok(nodes)
}

/// The value of an expression of 32 bits.
pub fn word(alloc: Global, nodes: &[Node], place: Place) -> Result<Option<i32>, LowerError> {
    match constant_value(alloc, nodes)? {
        None => Ok(None),
        Some(value) => match i32::try_from(value) {
            Ok(value) => Ok(Some(value)),
            Err(_) => Err(place.refused(Reason::Overflow)),
        },
    }
}
