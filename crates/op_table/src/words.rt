//! Arithmetic on words: what is left of the exact result in 32 bits.
ghost use Rattle.std.specs.Prelude.{◌≡◌, ◌≢◌, ◌<◌, pos, neg_ℤ, ◌+ℤ◌, ◌-ℤ◌, ◌*ℤ◌, int_div};
ghost use Rattle.op_table.specs.Words.{wrapped, truth};
ghost use Rattle.op_table.specs.Operators.{absolute, power, quotient, checked, in_a_word};

use crate::Trap;

#[tactic(auto, using(crate::proofs::Rows::sum_is))]
pub fn sum(a: i32, b: i32) -> i32
    ensures { result ≡ wrapped (a +ℤ b) }
{
    a.wrapping_add(b)
}

#[tactic(auto, using(crate::proofs::Rows::difference_is))]
pub fn difference(a: i32, b: i32) -> i32
    ensures { result ≡ wrapped (a -ℤ b) }
{
    a.wrapping_sub(b)
}

#[tactic(auto, using(crate::proofs::Rows::product_is))]
pub fn product(a: i32, b: i32) -> i32
    ensures { result ≡ wrapped (a *ℤ b) }
{
    a.wrapping_mul(b)
}

/// The quotient, cut towards zero.
pub fn quotient(a: i32, b: i32) -> i32
    requires { b ≢ pos 0 }
    ensures { result ≡ wrapped (int_div a b) }
{
    a.wrapping_div(b)
}

#[tactic(auto, using(crate::proofs::Rows::negative_is))]
pub fn negative(a: i32) -> i32
    ensures { result ≡ wrapped (neg_ℤ a) }
{
    a.wrapping_neg()
}

/// The absolute value.
pub fn magnitude(a: i32) -> i32
    ensures { result ≡ wrapped (absolute a) }
{
    a.wrapping_abs()
}

/// 1 or 0.
pub fn truth(is_true: bool) -> i32
    ensures { result ≡ truth is_true }
{
    if is_true { 1 } else { 0 }
}

/// The product of n factors a.
#[tactic(auto, using(crate::proofs::Powers::wrapping_pow_is))]
pub fn power(a: i32, n: u32) -> i32
    ensures { result ≡ wrapped (power a n) }
{
    a.wrapping_pow(n)
}

/// 1 divided by that product, cut towards zero.
pub fn inverse_power(a: i32, n: u32) -> Result<i32, Trap>
    requires { 0 < n }
    ensures { result ≡ in_a_word (quotient (pos 1) (power a n)) }
{
    match a {
        0 => Err(Trap::Divide),
        1 => Ok(1),
        -1 => Ok(if n % 2 == 0 { 1 } else { -1 }),
        _ => Ok(0),
    }
}

// ---- the checked dialect

pub fn checked_sum(a: i32, b: i32) -> Result<i32, Trap>
    ensures { result ≡ in_a_word (checked (a +ℤ b)) }
{
    a.checked_add(b).ok_or(Trap::Overflow)
}

pub fn checked_difference(a: i32, b: i32) -> Result<i32, Trap>
    ensures { result ≡ in_a_word (checked (a -ℤ b)) }
{
    a.checked_sub(b).ok_or(Trap::Overflow)
}

pub fn checked_product(a: i32, b: i32) -> Result<i32, Trap>
    ensures { result ≡ in_a_word (checked (a *ℤ b)) }
{
    a.checked_mul(b).ok_or(Trap::Overflow)
}

pub fn checked_negative(a: i32) -> Result<i32, Trap>
    ensures { result ≡ in_a_word (checked (neg_ℤ a)) }
{
    a.checked_neg().ok_or(Trap::Overflow)
}

pub fn checked_magnitude(a: i32) -> Result<i32, Trap>
    ensures { result ≡ in_a_word (checked (absolute a)) }
{
    a.checked_abs().ok_or(Trap::Overflow)
}

pub fn checked_power(a: i32, n: u32) -> Result<i32, Trap>
    ensures { result ≡ in_a_word (checked (power a n)) }
{
    a.checked_pow(n).ok_or(Trap::Overflow)
}
