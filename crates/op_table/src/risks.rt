//! Whether an operator traps at some words that its operands may be.
ghost use Rattle.std.specs.Prelude.{◌≡◌, ◌↔◌, IsTrue, false, pos, [], ◌∷◌};
ghost use Rattle.op_table.specs.Operators.{can_trap};
ghost use Rattle.op_table.specs.Known.{MayBe, MayBeBelow, CanTrap};

use crate::{Op, values};

/// Whether an operand may be 0.
fn may_be_zero(k: Option<i32>) -> bool
    ensures { IsTrue result ↔ MayBe k (pos 0) }
{
    match k {
        None => true,
        Some(x) => x == 0,
    }
}

/// Whether the first operand may be below the second.
fn may_be_below(k: Option<i32>, j: Option<i32>) -> bool
    ensures { IsTrue result ↔ MayBeBelow k j }
{
    k.unwrap_or(i32::MIN) < j.unwrap_or(i32::MAX)
}

/// An operator that has a value at any words.
pub fn never(op: Op, known: &[Option<i32>]) -> bool
    requires { can_trap op ≡ false }
    ensures { IsTrue result ↔ CanTrap op known.now }
{
    false
}

pub fn divide(a: Option<i32>, b: Option<i32>) -> bool
    ensures { IsTrue result ↔ CanTrap Op.Div (a ∷ b ∷ []) }
{
    may_be_zero(b)
}

pub fn remainder(a: Option<i32>, b: Option<i32>) -> bool
    ensures { IsTrue result ↔ CanTrap Op.Mod (a ∷ b ∷ []) }
{
    may_be_zero(b)
}

pub fn raise(a: Option<i32>, b: Option<i32>) -> bool
    ensures { IsTrue result ↔ CanTrap Op.Pow (a ∷ b ∷ []) }
{
    may_be_zero(a) && may_be_below(b, Some(0))
}

pub fn step(a: Option<i32>) -> bool
    ensures { IsTrue result ↔ CanTrap Op.Step (a ∷ []) }
{
    may_be_zero(a)
}

pub fn offset(v: Option<i32>, low: Option<i32>, high: Option<i32>) -> bool
    ensures { IsTrue result ↔ CanTrap Op.Bound (v ∷ low ∷ high ∷ []) }
{
    may_be_below(v, low) || may_be_below(high, v)
}

/// A sum that is no word is so at the least or at the greatest operands.
pub fn add_checked(a: Option<i32>, b: Option<i32>) -> bool
    ensures { IsTrue result ↔ CanTrap Op.AddChecked (a ∷ b ∷ []) }
{
    let low = values::add_checked(a.unwrap_or(i32::MIN), b.unwrap_or(i32::MIN));
    let high = values::add_checked(a.unwrap_or(i32::MAX), b.unwrap_or(i32::MAX));
    low.is_err() || high.is_err()
}

pub fn subtract_checked(a: Option<i32>, b: Option<i32>) -> bool
    ensures { IsTrue result ↔ CanTrap Op.SubChecked (a ∷ b ∷ []) }
{
    let low = values::subtract_checked(a.unwrap_or(i32::MIN), b.unwrap_or(i32::MAX));
    let high = values::subtract_checked(a.unwrap_or(i32::MAX), b.unwrap_or(i32::MIN));
    low.is_err() || high.is_err()
}

/// The least word is a factor that only 0 and 1 keep a word.
pub fn multiply_checked(a: Option<i32>, b: Option<i32>) -> bool
    ensures { IsTrue result ↔ CanTrap Op.MulChecked (a ∷ b ∷ []) }
{
    values::multiply_checked(a.unwrap_or(i32::MIN), b.unwrap_or(i32::MIN)).is_err()
}

pub fn negate_checked(a: Option<i32>) -> bool
    ensures { IsTrue result ↔ CanTrap Op.NegChecked (a ∷ []) }
{
    values::negate_checked(a.unwrap_or(i32::MIN)).is_err()
}

pub fn absolute_checked(a: Option<i32>) -> bool
    ensures { IsTrue result ↔ CanTrap Op.AbsChecked (a ∷ []) }
{
    values::absolute_checked(a.unwrap_or(i32::MIN)).is_err()
}

pub fn raise_checked(a: Option<i32>, b: Option<i32>) -> bool
    ensures { IsTrue result ↔ CanTrap Op.PowChecked (a ∷ b ∷ []) }
{
    match (a, b) {
        (Some(a), Some(b)) => values::raise_checked(a, b).is_err(),
        (Some(a), None) => base_may_trap(a),
        (None, Some(b)) => exponent_may_trap(b),
        (None, None) => true,
    }
}

/// 0 traps at an exponent below 0, and a base of two or more either way at 32.
fn base_may_trap(a: i32) -> bool
    ensures { IsTrue result ↔ CanTrap Op.PowChecked (Some a ∷ None ∷ []) }
{
    a.unsigned_abs() != 1
}

/// An exponent below 0 traps at the base 0, and one above 1 at the least word.
fn exponent_may_trap(b: i32) -> bool
    ensures { IsTrue result ↔ CanTrap Op.PowChecked (None ∷ Some b ∷ []) }
{
    b != 0 && b != 1
}
