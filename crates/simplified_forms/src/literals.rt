//! Values as a source writes them.

ghost use Rattle.std.specs.Prelude.{◌≡◌, ◌<ℤ◌, pos, IfOk, nat_abs};
ghost use Rattle.simplified_forms.specs.Literals.{literal as spec_literal, integer_literal as spec_integer_literal, negative as spec_negative, minus as spec_minus, difference as spec_difference, least_literal};

use df_sequence::{NoMemory, Sequence};
use f77_tree::{Expr, Kind};
use op_table::Op;
use std::alloc::Global;

/// The literal of a value of a kind, in a dialect.
pub(crate) fn literal(alloc: Global, checked: bool, kind: Kind, z: i32) -> Result<Expr, NoMemory>
    ensures { IfOk result (λ e. e ≡ spec_literal checked kind z) }
{
    match kind {
        Kind::Integer => integer_literal(alloc, checked, z),
        Kind::Logical => Ok(Expr::Truth(z != 0)),
    }
}

/// An integer as a source writes it: its digits, after a minus sign where it is negative. The least word is written as a difference.
fn integer_literal(alloc: Global, checked: bool, z: i32) -> Result<Expr, NoMemory>
    ensures { IfOk result (λ e. e ≡ spec_integer_literal checked z) }
{
    if 0 <= z {
        return Ok(Expr::Const(z));
    }
    if z == i32::MIN {
        return least_word(alloc, checked);
    }
    negative(alloc, checked, -z)
}

/// The least word, which is written -2147483647-1.
fn least_word(alloc: Global, checked: bool) -> Result<Expr, NoMemory>
    ensures { IfOk result (λ e. e ≡ least_literal checked) }
{
    let mut operands = Sequence::with_capacity(alloc, 2)?;
    operands.push(negative(alloc, checked, i32::MAX)?)?;
    operands.push(Expr::Const(1))?;
    Ok(Expr::Apply(difference(checked), operands))
}

/// A constant after a minus sign.
fn negative(alloc: Global, checked: bool, n: i32) -> Result<Expr, NoMemory>
    requires { pos 0 <ℤ n }
    ensures { IfOk result (λ e. e ≡ spec_negative checked (nat_abs n)) }
{
    let mut operands = Sequence::with_capacity(alloc, 1)?;
    operands.push(Expr::Const(n))?;
    Ok(Expr::Apply(minus(checked), operands))
}

/// The operator of a sign.
fn minus(checked: bool) -> Op
    ensures { result ≡ spec_minus checked }
{
    if checked { Op::NegChecked } else { Op::Neg }
}

/// The operator of a difference.
fn difference(checked: bool) -> Op
    ensures { result ≡ spec_difference checked }
{
    if checked { Op::SubChecked } else { Op::Sub }
}
