//! Expressions that have no value.

ghost use Rattle.std.specs.Prelude.{◌≡◌, All, length, slice_get};
ghost use Rattle.op_table.specs.Operators.{arity_of};
ghost use Rattle.f77_tree.specs.Known.{known};
ghost use Rattle.f77_tree.specs.Value.{IsAccess, IsExpression};
ghost use Rattle.sure_traps.specs.Causes.{access_cause as access_cause_of, cause_in, subscript_cause as subscript_cause_of};

use crate::Cause;
use crate::causes::{Sight, bound_cause, operator_cause};
use f77_tree::{Access, Dim, Expr, ExprList, NameInfoList};
use op_table::{Op, fold};

// No operator takes more operands.
const MOST_OPERANDS: usize = 3;

/// What is seen of an expression before the program runs. It takes no memory, and a few steps for each operator and subscript.
#[cycle(sight)]
pub fn see(names: &NameInfoList, e: &Expr) -> Sight
    requires { IsExpression names.now e.now }
    ensures value { result.value ≡ known e.now }
    ensures cause { result.cause ≡ cause_in names.now e.now }
{
    match e {
        Expr::Const(z) => Sight {
            value: Some(*z),
            cause: None,
        },
        Expr::Truth(b) => Sight {
            value: Some(i32::from(*b)),
            cause: None,
        },
        Expr::Input => Sight {
            value: None,
            cause: None,
        },
        Expr::Read(access) => {
            access_fits(names, e, access);
            Sight {
                value: None,
                cause: access_cause(names, access),
            }
        }
        Expr::Apply(op, args) => {
            operands_fit(names, e, *op, args);
            let mut operands = [None; MOST_OPERANDS];
            let mut count = 0;
            let mut cause = None;
            for arg in args.as_slice() {
                let operand = see(names, arg);
                operands[count] = operand.value;
                cause = cause.or(operand.cause);
                count += 1;
            }
            Sight {
                value: fold(*op, &operands[..count]),
                cause: cause.or(operator_cause(*op, &operands[..count])),
            }
        }
    }
}

/// Why an access traps in each run, if it does: by a subscript, or at the bounds of one.
#[cycle(sight)]
pub(crate) fn access_cause(names: &NameInfoList, access: &Access) -> Option<Cause>
    requires { IsAccess names.now access.now }
    ensures { result ≡ access_cause_of names.now access.now }
{
    let dims = names.at(access.name).dims.as_slice();
    let mut k = 0;
    for sub in access.subs.as_slice() {
        let cause = subscript_cause(names, dims, k, sub);
        if cause.is_some() {
            return cause;
        }
        k += 1;
    }
    None
}

// Why a subscript traps in each run, if it does: by itself, or at the bounds of the dimension with this number.
#[cycle(sight)]
fn subscript_cause(names: &NameInfoList, dims: &[Dim], k: usize, sub: &Expr) -> Option<Cause>
    requires { IsExpression names.now sub.now }
    ensures { result ≡ subscript_cause_of names.now (slice_get dims.now k) sub.now }
{
    let sight = see(names, sub);
    match dims.get(k) {
        Some(dim) => sight.cause.or(bound_cause(*dim, sight.value)),
        None => None,
    }
}

// What an expression that fits the table of names reads is an access of the table.
fn access_fits(names: &NameInfoList, e: &Expr, a: &Access)
    requires form { e.now ≡ Expr.Read a.now }
    requires expression { IsExpression names.now e.now }
    ensures { IsAccess names.now a.now }
{}

// As many operands as the operator takes fit the table of names with the expression.
fn operands_fit(names: &NameInfoList, e: &Expr, op: Op, args: &ExprList)
    requires form { e.now ≡ Expr.Apply op args.now }
    requires expression { IsExpression names.now e.now }
    ensures as_many { length args.now ≡ arity_of op }
    ensures operands { All (IsExpression names.now) args.now }
{}
