//! The rows: the value of each operator at its operands.
ghost use Rattle.std.specs.Prelude.{◌≡◌, [], ◌∷◌};
ghost use Rattle.op_table.specs.Operators.{applied};

use crate::{Op, Trap, words};

// ---- arithmetic, which wraps

#[tactic(auto, unfolding(crate::specs::Operators::applied, crate::specs::Operators::binary))]
pub fn add(a: i32, b: i32) -> Result<i32, Trap>
    ensures { result ≡ applied Op.Add (a ∷ b ∷ []) }
{
    Ok(words::sum(a, b))
}

#[tactic(auto, unfolding(crate::specs::Operators::applied, crate::specs::Operators::binary))]
pub fn subtract(a: i32, b: i32) -> Result<i32, Trap>
    ensures { result ≡ applied Op.Sub (a ∷ b ∷ []) }
{
    Ok(words::difference(a, b))
}

#[tactic(auto, unfolding(crate::specs::Operators::applied, crate::specs::Operators::binary))]
pub fn multiply(a: i32, b: i32) -> Result<i32, Trap>
    ensures { result ≡ applied Op.Mul (a ∷ b ∷ []) }
{
    Ok(words::product(a, b))
}

#[tactic(auto, unfolding(crate::specs::Operators::applied, crate::specs::Operators::binary))]
pub fn divide(a: i32, b: i32) -> Result<i32, Trap>
    ensures { result ≡ applied Op.Div (a ∷ b ∷ []) }
{
    if b == 0 {
        Err(Trap::Divide)
    } else {
        Ok(words::quotient(a, b))
    }
}

#[tactic(auto, unfolding(crate::specs::Operators::applied, crate::specs::Operators::binary))]
pub fn remainder(a: i32, b: i32) -> Result<i32, Trap>
    ensures { result ≡ applied Op.Mod (a ∷ b ∷ []) }
{
    if b == 0 {
        Err(Trap::Divide)
    } else {
        Ok(a.wrapping_rem(b))
    }
}

#[tactic(auto, unfolding(crate::specs::Operators::applied, crate::specs::Operators::unary))]
pub fn negate(a: i32) -> Result<i32, Trap>
    ensures { result ≡ applied Op.Neg (a ∷ []) }
{
    Ok(words::negative(a))
}

#[tactic(auto, unfolding(crate::specs::Operators::applied, crate::specs::Operators::unary))]
pub fn absolute(a: i32) -> Result<i32, Trap>
    ensures { result ≡ applied Op.Abs (a ∷ []) }
{
    Ok(words::magnitude(a))
}

#[tactic(auto, unfolding(crate::specs::Operators::applied, crate::specs::Operators::binary))]
pub fn with_sign(a: i32, b: i32) -> Result<i32, Trap>
    ensures { result ≡ applied Op.Sign (a ∷ b ∷ []) }
{
    if b >= 0 {
        Ok(words::magnitude(a))
    } else {
        Ok(words::negative(words::magnitude(a)))
    }
}

#[tactic(auto, unfolding(crate::specs::Operators::applied, crate::specs::Operators::binary))]
pub fn larger(a: i32, b: i32) -> Result<i32, Trap>
    ensures { result ≡ applied Op.Max (a ∷ b ∷ []) }
{
    Ok(a.max(b))
}

#[tactic(auto, unfolding(crate::specs::Operators::applied, crate::specs::Operators::binary))]
pub fn smaller(a: i32, b: i32) -> Result<i32, Trap>
    ensures { result ≡ applied Op.Min (a ∷ b ∷ []) }
{
    Ok(a.min(b))
}

// ---- subscripts and branches

#[tactic(auto, unfolding(crate::specs::Operators::applied, crate::specs::Operators::ternary))]
pub fn offset(v: i32, low: i32, high: i32) -> Result<i32, Trap>
    ensures { result ≡ applied Op.Bound (v ∷ low ∷ high ∷ []) }
{
    if v < low || v > high {
        Err(Trap::Subscript)
    } else {
        Ok(words::difference(v, low))
    }
}

#[tactic(auto, unfolding(crate::specs::Operators::applied, crate::specs::Operators::ternary))]
pub fn place(p: i32, d: i32, size: i32) -> Result<i32, Trap>
    ensures { result ≡ applied Op.Place (p ∷ d ∷ size ∷ []) }
{
    Ok(words::sum(p, words::product(d, size)))
}

#[tactic(auto, unfolding(crate::specs::Operators::applied, crate::specs::Operators::unary))]
pub fn which_of_three(a: i32) -> Result<i32, Trap>
    ensures { result ≡ applied Op.Three (a ∷ []) }
{
    if a < 0 {
        Ok(0)
    } else if a == 0 {
        Ok(1)
    } else {
        Ok(2)
    }
}

#[tactic(auto, unfolding(crate::specs::Operators::applied, crate::specs::Operators::binary))]
pub fn pick(v: i32, n: i32) -> Result<i32, Trap>
    ensures { result ≡ applied Op.Pick (v ∷ n ∷ []) }
{
    if v >= 1 && v <= n { Ok(v - 1) } else { Ok(n) }
}

#[tactic(auto, unfolding(crate::specs::Operators::applied, crate::specs::Operators::unary))]
pub fn step(a: i32) -> Result<i32, Trap>
    ensures { result ≡ applied Op.Step (a ∷ []) }
{
    if a == 0 { Err(Trap::Step) } else { Ok(a) }
}

// ---- relations and logic

#[tactic(auto, unfolding(crate::specs::Operators::applied, crate::specs::Operators::binary))]
pub fn less(a: i32, b: i32) -> Result<i32, Trap>
    ensures { result ≡ applied Op.Lt (a ∷ b ∷ []) }
{
    Ok(words::truth(a < b))
}

#[tactic(auto, unfolding(crate::specs::Operators::applied, crate::specs::Operators::binary))]
pub fn less_or_equal(a: i32, b: i32) -> Result<i32, Trap>
    ensures { result ≡ applied Op.Le (a ∷ b ∷ []) }
{
    Ok(words::truth(a <= b))
}

#[tactic(auto, unfolding(crate::specs::Operators::applied, crate::specs::Operators::binary))]
pub fn equal(a: i32, b: i32) -> Result<i32, Trap>
    ensures { result ≡ applied Op.Eq (a ∷ b ∷ []) }
{
    Ok(words::truth(a == b))
}

#[tactic(auto, unfolding(crate::specs::Operators::applied, crate::specs::Operators::binary))]
pub fn unequal(a: i32, b: i32) -> Result<i32, Trap>
    ensures { result ≡ applied Op.Ne (a ∷ b ∷ []) }
{
    Ok(words::truth(a != b))
}

#[tactic(auto, unfolding(crate::specs::Operators::applied, crate::specs::Operators::binary))]
pub fn greater_or_equal(a: i32, b: i32) -> Result<i32, Trap>
    ensures { result ≡ applied Op.Ge (a ∷ b ∷ []) }
{
    Ok(words::truth(a >= b))
}

#[tactic(auto, unfolding(crate::specs::Operators::applied, crate::specs::Operators::binary))]
pub fn greater(a: i32, b: i32) -> Result<i32, Trap>
    ensures { result ≡ applied Op.Gt (a ∷ b ∷ []) }
{
    Ok(words::truth(a > b))
}

#[tactic(auto, unfolding(crate::specs::Operators::applied, crate::specs::Operators::unary))]
pub fn not(a: i32) -> Result<i32, Trap>
    ensures { result ≡ applied Op.Not (a ∷ []) }
{
    Ok(words::truth(a == 0))
}

#[tactic(auto, unfolding(crate::specs::Operators::applied, crate::specs::Operators::binary))]
pub fn and(a: i32, b: i32) -> Result<i32, Trap>
    ensures { result ≡ applied Op.And (a ∷ b ∷ []) }
{
    Ok(words::truth(a != 0 && b != 0))
}

#[tactic(auto, unfolding(crate::specs::Operators::applied, crate::specs::Operators::binary))]
pub fn or(a: i32, b: i32) -> Result<i32, Trap>
    ensures { result ≡ applied Op.Or (a ∷ b ∷ []) }
{
    Ok(words::truth(a != 0 || b != 0))
}

#[tactic(auto, unfolding(crate::specs::Operators::applied, crate::specs::Operators::binary))]
pub fn equivalent(a: i32, b: i32) -> Result<i32, Trap>
    ensures { result ≡ applied Op.Eqv (a ∷ b ∷ []) }
{
    Ok(words::truth((a != 0) == (b != 0)))
}

#[tactic(auto, unfolding(crate::specs::Operators::applied, crate::specs::Operators::binary))]
pub fn different(a: i32, b: i32) -> Result<i32, Trap>
    ensures { result ≡ applied Op.Neqv (a ∷ b ∷ []) }
{
    Ok(words::truth((a != 0) != (b != 0)))
}

#[tactic(auto, unfolding(crate::specs::Operators::applied, crate::specs::Operators::unary))]
pub fn truth(a: i32) -> Result<i32, Trap>
    ensures { result ≡ applied Op.Truth (a ∷ []) }
{
    Ok(words::truth(a != 0))
}

// ---- powers

#[tactic(auto, unfolding(crate::specs::Operators::applied, crate::specs::Operators::binary))]
pub fn raise(a: i32, b: i32) -> Result<i32, Trap>
    ensures { result ≡ applied Op.Pow (a ∷ b ∷ []) }
{
    let n = b.unsigned_abs();
    if b >= 0 {
        Ok(words::power(a, n))
    } else {
        words::inverse_power(a, n)
    }
}

#[tactic(auto, unfolding(crate::specs::Operators::applied, crate::specs::Operators::binary))]
pub fn raise_checked(a: i32, b: i32) -> Result<i32, Trap>
    ensures { result ≡ applied Op.PowChecked (a ∷ b ∷ []) }
{
    let n = b.unsigned_abs();
    if b >= 0 {
        words::checked_power(a, n)
    } else {
        words::inverse_power(a, n)
    }
}

// ---- the checked dialect

#[tactic(auto, unfolding(crate::specs::Operators::applied, crate::specs::Operators::binary))]
pub fn add_checked(a: i32, b: i32) -> Result<i32, Trap>
    ensures { result ≡ applied Op.AddChecked (a ∷ b ∷ []) }
{
    words::checked_sum(a, b)
}

#[tactic(auto, unfolding(crate::specs::Operators::applied, crate::specs::Operators::binary))]
pub fn subtract_checked(a: i32, b: i32) -> Result<i32, Trap>
    ensures { result ≡ applied Op.SubChecked (a ∷ b ∷ []) }
{
    words::checked_difference(a, b)
}

#[tactic(auto, unfolding(crate::specs::Operators::applied, crate::specs::Operators::binary))]
pub fn multiply_checked(a: i32, b: i32) -> Result<i32, Trap>
    ensures { result ≡ applied Op.MulChecked (a ∷ b ∷ []) }
{
    words::checked_product(a, b)
}

#[tactic(auto, unfolding(crate::specs::Operators::applied, crate::specs::Operators::unary))]
pub fn negate_checked(a: i32) -> Result<i32, Trap>
    ensures { result ≡ applied Op.NegChecked (a ∷ []) }
{
    words::checked_negative(a)
}

#[tactic(auto, unfolding(crate::specs::Operators::applied, crate::specs::Operators::unary))]
pub fn absolute_checked(a: i32) -> Result<i32, Trap>
    ensures { result ≡ applied Op.AbsChecked (a ∷ []) }
{
    words::checked_magnitude(a)
}
