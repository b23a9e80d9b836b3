//! Trees of expressions, made of their parts.

ghost use Rattle.std.specs.Prelude.{◌≡◌, [], ◌∷◌, IfOk};
ghost use Rattle.f77_tree.specs.declared.statements.RawExpr.TheVariants.{Apply};
ghost use Rattle.f77_expr.specs.Answers.{kept_prefixed};

use crate::operators::Prefix;
use df_sequence::{NoMemory, Sequence};
use f77_tree::RawExpr;
use op_table::Op;
use std::alloc::Global;

/// An operator with one operand.
fn one(alloc: Global, op: Op, operand: RawExpr) -> Result<RawExpr, NoMemory>
    ensures { IfOk result (λ e. e ≡ Apply op (operand ∷ [])) }
{
    let mut operands = Sequence::with_capacity(alloc, 1)?;
    operands.push(operand)?;
    Ok(RawExpr::Apply(op, operands))
}

/// An operator between two operands.
pub(crate) fn two(alloc: Global, op: Op, left: RawExpr, right: RawExpr) -> Result<RawExpr, NoMemory>
    ensures { IfOk result (λ e. e ≡ Apply op (left ∷ right ∷ [])) }
{
    let mut operands = Sequence::with_capacity(alloc, 2)?;
    operands.push(left)?;
    operands.push(right)?;
    Ok(RawExpr::Apply(op, operands))
}

/// A prefix and its operand. A sign `+` leaves no trace.
pub(crate) fn prefixed(alloc: Global, prefix: Prefix, operand: RawExpr) -> Result<RawExpr, NoMemory>
    ensures { IfOk result (λ e. e ≡ kept_prefixed prefix operand) }
{
    match prefix {
        Prefix::Plus => Ok(operand),
        Prefix::Minus => one(alloc, Op::Neg, operand),
        Prefix::Negation => one(alloc, Op::Not, operand),
    }
}
