//! The bounds of arrays.

ghost use Rattle.std.specs.Prelude.{◌≡◌, ℤ, pos, ◌*ℤ◌, map, IfOk};
ghost use Rattle.std.specs.List.{fold};
ghost use Rattle.std.specs.Int.{saturate_signed, w64};
ghost use Rattle.unit_tables.specs.Bounds.{bound_nodes, extent_of};
ghost use Rattle.unit_tables.specs.Pieces.{with_commas};

use crate::pieces::{joined, pieces_of};
use crate::substitute::{Replacements, substituted};
use crate::values::{signed, word};
use fortran_tree::{LowerError, Node, Place, Reason, Sign, Token, is_sign, leaf};
use std::alloc::Global;

/// The bounds of one dimension.
#[derive(Clone, Copy, PartialEq, Eq)]
pub struct Bound {
    pub low: i32,
    pub high: i32,
}

impl Bound {
    /// How many subscripts there are, 0 where the upper bound lies below the lower one.
    pub fn extent(self) -> i64
        ensures { result ≡ extent_of self }
    {
        if self.high < self.low {
            0
        } else {
            i64::from(self.high) - i64::from(self.low) + 1
        }
    }
}

/// How many elements an array with these bounds has, or the greatest number of 64 bits.
pub fn number_of_elements(bounds: &[Bound]) -> i64
    ensures { result ≡ fold (λ count bound. saturate_signed w64 (count *ℤ extent_of bound)) (pos 1) bounds.now }
{
    let mut count = 1i64;
    for bound in bounds {
        count = count.saturating_mul(bound.extent());
    }
    count
}

/// The bounds of a dimension, each none where it is not known: `*`, or an expression of dummies.
fn declared_bound(
    alloc: Global,
    piece: &[Node],
    place: Place,
) -> Result<(Option<i32>, Option<i32>), LowerError> {
    let mut parts = piece.split(|node| is_sign(node, Sign::Colon));
    match (parts.next(), parts.next()) {
        (Some(low), Some(high)) => Ok((word(alloc, low, place)?, word(alloc, high, place)?)),
        (Some(high), None) => Ok((Some(1), word(alloc, high, place)?)),
        _ => Ok((None, None)),
    }
}

/// The bounds of an array, from what stands between the brackets of its declaration.
pub fn bounds_of(alloc: Global, declared: &[Node], place: Place) -> Result<Vec<Bound>, LowerError> {
    let mut bounds = Vec::new(alloc);
    for piece in &pieces_of(alloc, declared)? {
        match declared_bound(alloc, piece, place)? {
            (Some(low), Some(high)) => bounds.push(Bound { low, high })?,
            _ => return Err(place.refused(Reason::OpenBounds)),
        }
    }
    Ok(bounds)
}

/// The bounds of the dummy of which these are declared, where an array with the bounds `passed` is passed to it: those of the array. The
/// dummy has as many dimensions, with the same lower bounds, and the same upper ones but for the last dimension. `values` has what is known
/// of the other dummies.
pub fn agreed(
    alloc: Global,
    declared: &[Node],
    passed: &[Bound],
    values: &Replacements,
    place: Place,
) -> Result<Vec<Bound>, LowerError>
    ensures { IfOk result (λ bounds. bounds.items ≡ passed.now) }
{
    let pieces = pieces_of(alloc, declared)?;
    if pieces.len() != passed.len() {
        return Err(place.refused(Reason::Bounds));
    }
    let mut left = pieces.len();
    for (piece, bound) in pieces.iter().zip(passed) {
        left = left.saturating_sub(1);
        let piece = substituted(alloc, piece, values)?;
        let (low, high) = declared_bound(alloc, &piece, place)?;
        if low != Some(bound.low) || left > 0 && high != Some(bound.high) {
            return Err(place.refused(Reason::Bounds));
        }
    }
    Ok(Vec::from_slice(alloc, passed)?)
}

/// Bounds as a declaration has them between its brackets.
pub fn written_bounds(
    alloc: Global,
    bounds: &[Bound],
    place: Place,
) -> Result<Vec<Node>, LowerError>
    ensures { IfOk result (λ nodes. nodes.items ≡ with_commas place (map (bound_nodes place) bounds.now)) }
{
    let mut pieces = Vec::new(alloc);
    for bound in bounds {
        pieces.push(written_bound(alloc, *bound, place)?)?;
    }
    joined(alloc, pieces, place)
}

/// The bounds of a dimension. A lower one of 1 isn't written.
fn written_bound(alloc: Global, bound: Bound, place: Place) -> Result<Vec<Node>, LowerError>
    ensures { IfOk result (λ nodes. nodes.items ≡ bound_nodes place bound) }
{
    let mut high = signed(alloc, bound.high, place)?;
    if bound.low == 1 {
        return Ok(high);
    }
    let mut piece = signed(alloc, bound.low, place)?;
    piece.push(leaf(Token::Sign(Sign::Colon), place))?;
    piece.append(&mut high)?;
    Ok(piece)
}
