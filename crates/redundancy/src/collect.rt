//! The candidates in expressions.

ghost use Rattle.std.specs.Prelude.{◌≡◌, ◌↔◌, List, All, IsTrue, length, map, IfOk, OnOk};
ghost use Rattle.std.specs.List.{list_any};
ghost use Rattle.op_table.specs.Operators.{arity_of};
ghost use Rattle.f77_tree.specs.declared.programs.NameInfo.{NameInfo};
ghost use Rattle.f77_tree.specs.Known.{known};
ghost use Rattle.f77_tree.specs.Value.{IsExpression};
ghost use Rattle.redundancy.specs.Candidates.{is_scalar, IsCandidate, subexpressions};
ghost use Rattle.redundancy.specs.Collected.{all_plain, IsGrown, all_subexpressions};

use df_sequence::{Copied, NoMemory};
use f77_tree::{Access, Expr, ExprList, NameInfoList};
use op_table::{Op, fold, may_trap};
use std::alloc::Global;

/// Puts a copy of each candidate in the expression after those found, in the order of evaluation, and answers the known value of
/// the expression.
#[cycle(collect)]
pub(crate) fn collect(
    alloc: Global,
    names: &NameInfoList,
    e: &Expr,
    found: &mut Vec<Expr>,
) -> Result<Option<i32>, NoMemory>
    requires { IsExpression names.now e.now }
    ensures known { IfOk result (λ value. value ≡ known e.now) }
    ensures found { OnOk result (IsGrown names.now (subexpressions e.now) found.old.items found.new.items) }
{
    match e {
        Expr::Const(z) => Ok(Some(*z)),
        Expr::Truth(b) => Ok(Some(i32::from(*b))),
        Expr::Input => Ok(None),
        Expr::Read(access) => {
            subscripts_fit(names, e, access);
            collect_all(alloc, names, &access.subs, found)?;
            Ok(None)
        }
        Expr::Apply(op, args) => {
            operands_fit(names, e, *op, args);
            let values = collect_all(alloc, names, args, found)?;
            if is_candidate(*op, args, &values) {
                found.push(e.copy(alloc)?)?;
            }
            Ok(fold(*op, &values))
        }
    }
}

/// Puts copies of the candidates in some expressions after those found, and answers the known values of the expressions.
#[cycle(collect)]
pub(crate) fn collect_all(
    alloc: Global,
    names: &NameInfoList,
    es: &ExprList,
    found: &mut Vec<Expr>,
) -> Result<Vec<Option<i32>>, NoMemory>
    requires { All (IsExpression names.now) es.now }
    ensures known { IfOk result (λ values. values.items ≡ map known es.now) }
    ensures found { OnOk result (IsGrown names.now (all_subexpressions es.now) found.old.items found.new.items) }
{
    let mut values = Vec::new(alloc);
    for e in es.as_slice() {
        values.push(collect(alloc, names, e, found)?)?;
    }
    Ok(values)
}

// The subscripts in an expression that fits the table of names fit it too.
fn subscripts_fit(names: &NameInfoList, e: &Expr, access: &Access)
    requires form { e.now ≡ Expr.Read access.now }
    requires expression { IsExpression names.now e.now }
    ensures { All (IsExpression names.now) access.now.subs }
{}

// So do operands, and there are as many as the operator takes.
fn operands_fit(names: &NameInfoList, e: &Expr, op: Op, args: &ExprList)
    requires form { e.now ≡ Expr.Apply op args.now }
    requires expression { IsExpression names.now e.now }
    ensures expressions { All (IsExpression names.now) args.now }
    ensures arity { length args.now ≡ arity_of op }
{}

// Whether the operator at these operands, of which so much is known, is a candidate.
fn is_candidate(op: Op, args: &ExprList, values: &[Option<i32>]) -> bool
    requires known { values.now ≡ map known args.now }
    requires arity { length args.now ≡ arity_of op }
    ensures { (names : List NameInfo) → IsTrue result ↔ IsCandidate names (Expr.Apply op args.now) }
{
    are_plain(args, values) && has_scalar(args) && !may_trap(op, values)
}

// Whether each operand is a name without subscripts or has a known value.
fn are_plain(args: &ExprList, values: &[Option<i32>]) -> bool
    requires { values.now ≡ map known args.now }
    ensures { result ≡ all_plain args.now }
{
    for (k, arg) in args.as_slice().iter().enumerate() {
        if values[k].is_none() && !is_scalar(arg) {
            return false;
        }
    }
    true
}

// Whether some operand is a name without subscripts.
fn has_scalar(args: &ExprList) -> bool
    ensures { result ≡ list_any is_scalar args.now }
{
    for arg in args.as_slice() {
        if is_scalar(arg) {
            return true;
        }
    }
    false
}

// Whether the expression is a name without subscripts.
fn is_scalar(e: &Expr) -> bool
    ensures { result ≡ is_scalar e.now }
{
    match e {
        Expr::Read(access) => access.subs.is_empty(),
        _ => false,
    }
}
