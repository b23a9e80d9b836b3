//! The operations of expressions, in the order in which these are evaluated.

ghost use Rattle.std.specs.Prelude.{◌≡◌, ◌+◌, ◌^◌, ◌<◌, ◌≤◌, ◌<ℤ◌, ◌≤ℤ◌, pos, sum_by, All, length, map, IfOk, OnOk};
ghost use Rattle.op_table.specs.Operators.{arity_of};
ghost use Rattle.f77_tree.specs.Operations.{access_operations, operations};
ghost use Rattle.f77_tree.specs.Value.{extent, ArePlaced, IsAccess, IsExpression};
ghost use Rattle.op_board.specs.Operations.{compiled, place_moved, place_of_read, place_operands};
ghost use Rattle.operation_lists.specs.CanPerform.{CanPerform};
ghost use Rattle.operation_lists.specs.OperandLists.{operands_compiled};
ghost use Rattle.operation_lists.specs.Seen.{operand_seen, operation_seen, compiled_seen, row_seen};

use crate::operations::{Operand, Operands, Operation, Work, one_operand, push_operation};
use crate::operators::{move_place, operate};
use df_sequence::NoMemory;
use f77_tree::{Access, Dim, Expr, ExprList, Program};
use op_table::Op;
use smallvec::SmallVec;
use std::alloc::Global;

/// Appends the operations of an expression, and answers the operand that its value is.
#[cycle(compiling)]
pub(crate) fn compile<'a>(
    alloc: Global,
    p: &'a Program,
    done: &mut Vec<Operation<'a>>,
    e: &'a Expr,
) -> Result<Operand, NoMemory>
    requires expression { IsExpression p.now.names e.now }
    requires places { ArePlaced p.now.names p.now.words }
    requires can { All (CanPerform p.now) done.old.items }
    requires room { length done.old.items + operations e.now < 2 ^ 32 }
    ensures compiled { IfOk result (λ operand. compiled_seen done.new.items operand ≡ compiled p.now.names (map operation_seen done.old.items) e.now) }
    ensures can { OnOk result (All (CanPerform p.now) done.new.items) }
    ensures few { OnOk result (length done.new.items ≤ length done.old.items + operations e.now) }
{
    match e {
        Expr::Const(z) => Ok(Operand::Known(*z)),
        Expr::Truth(b) => Ok(Operand::Known(i32::from(*b))),
        Expr::Input => push_operation(done, Work::Take, SmallVec::new(alloc)),
        Expr::Read(access) => {
            access_fits(p, e, access);
            compile_load(alloc, p, done, access)
        }
        Expr::Apply(op, args) => {
            operands_fit(p, e, *op, args);
            let operands = compile_all(alloc, p, done, args)?;
            operate(done, *op, operands)
        }
    }
}

// Appends the operations of an access that is read.
#[cycle(compiling)]
fn compile_load<'a>(
    alloc: Global,
    p: &'a Program,
    done: &mut Vec<Operation<'a>>,
    access: &'a Access,
) -> Result<Operand, NoMemory>
    requires access { IsAccess p.now.names access.now }
    requires places { ArePlaced p.now.names p.now.words }
    requires can { All (CanPerform p.now) done.old.items }
    requires room { length done.old.items + access_operations access.now < 2 ^ 32 }
    ensures compiled { IfOk result (λ operand. compiled_seen done.new.items operand ≡ compiled p.now.names (map operation_seen done.old.items) (Expr.Read access.now)) }
    ensures can { OnOk result (All (CanPerform p.now) done.new.items) }
    ensures few { OnOk result (length done.new.items ≤ length done.old.items + access_operations access.now) }
{
    let place = compile_place(alloc, p, done, access)?;
    let operands = place_operands(alloc, access, place)?;
    push_operation(done, Work::Load(access), operands)
}

// Appends the operations of some expressions, and answers the operands that their values are.
#[cycle(compiling)]
fn compile_all<'a>(
    alloc: Global,
    p: &'a Program,
    done: &mut Vec<Operation<'a>>,
    es: &'a ExprList,
) -> Result<Operands, NoMemory>
    requires expressions { All (IsExpression p.now.names) es.now }
    requires places { ArePlaced p.now.names p.now.words }
    requires can { All (CanPerform p.now) done.old.items }
    requires room { length done.old.items + sum_by operations es.now < 2 ^ 32 }
    ensures compiled { IfOk result (λ operands. row_seen done.new.items operands.items ≡ operands_compiled p.now.names (map operation_seen done.old.items) es.now) }
    ensures as_many { IfOk result (λ operands. length operands.items ≡ length es.now) }
    ensures can { OnOk result (All (CanPerform p.now) done.new.items) }
    ensures few { OnOk result (length done.new.items ≤ length done.old.items + sum_by operations es.now) }
{
    let mut operands = SmallVec::new(alloc);
    for e in es.as_slice() {
        let operand = compile(alloc, p, done, e)?;
        operands.push(operand)?;
    }
    Ok(operands)
}

/// Appends the operations of the subscripts of an access, and answers its place.
#[cycle(compiling)]
pub(crate) fn compile_place<'a>(
    alloc: Global,
    p: &'a Program,
    done: &mut Vec<Operation<'a>>,
    access: &'a Access,
) -> Result<Operand, NoMemory>
    requires access { IsAccess p.now.names access.now }
    requires places { ArePlaced p.now.names p.now.words }
    requires can { All (CanPerform p.now) done.old.items }
    requires room { length done.old.items + sum_by (λ e. 2 + operations e) access.now.subs < 2 ^ 32 }
    ensures compiled { IfOk result (λ place. compiled_seen done.new.items place ≡ place_of_read p.now.names (map operation_seen done.old.items) (Expr.Read access.now)) }
    ensures can { OnOk result (All (CanPerform p.now) done.new.items) }
    ensures few { OnOk result (length done.new.items ≤ length done.old.items + sum_by (λ e. 2 + operations e) access.now.subs) }
{
    let dims = p.names.at(access.name).dims.as_slice();
    let mut place = Operand::Known(0);
    let mut size = 1;
    let mut k = 0;
    for sub in access.subs.as_slice() {
        let dim = &dims[k];
        place = compile_subscript(alloc, p, done, place, dim, size, sub)?;
        size *= width(dim);
        k += 1;
    }
    Ok(place)
}

// Appends the operations of a subscript, and answers the place moved by it.
#[cycle(compiling)]
fn compile_subscript<'a>(
    alloc: Global,
    p: &'a Program,
    done: &mut Vec<Operation<'a>>,
    place: Operand,
    dim: &Dim,
    size: i32,
    sub: &'a Expr,
) -> Result<Operand, NoMemory>
    requires expression { IsExpression p.now.names sub.now }
    requires places { ArePlaced p.now.names p.now.words }
    requires can { All (CanPerform p.now) done.old.items }
    requires room { length done.old.items + (2 + operations sub.now) < 2 ^ 32 }
    ensures compiled { IfOk result (λ operand. compiled_seen done.new.items operand ≡ place_moved (operand_seen place) dim.now size (compiled p.now.names (map operation_seen done.old.items) sub.now)) }
    ensures can { OnOk result (All (CanPerform p.now) done.new.items) }
    ensures few { OnOk result (length done.new.items ≤ length done.old.items + (2 + operations sub.now)) }
{
    let v = compile(alloc, p, done, sub)?;
    move_place(alloc, done, place, dim, size, v)
}

/// An element has its place as an operand, and a scalar has none.
pub(crate) fn place_operands(
    alloc: Global,
    access: &Access,
    place: Operand,
) -> Result<Operands, NoMemory>
    ensures operands { IfOk result (λ operands. map operand_seen operands.items ≡ place_operands access.now.subs (operand_seen place)) }
    ensures few { IfOk result (λ operands. length operands.items ≤ 1) }
{
    if access.subs.is_empty() {
        Ok(SmallVec::new(alloc))
    } else {
        one_operand(alloc, place)
    }
}

// How many subscripts a dimension has.
fn width(dim: &Dim) -> i32
    requires order { dim.now.lo ≤ℤ dim.now.hi }
    requires few { extent dim.now <ℤ pos 2147483648 }
    ensures { result ≡ extent dim.now }
{
    dim.hi - dim.lo + 1
}

// What an expression that fits the table of names reads is an access of the table.
fn access_fits(p: &Program, e: &Expr, a: &Access)
    requires form { e.now ≡ Expr.Read a.now }
    requires expression { IsExpression p.now.names e.now }
    ensures access { IsAccess p.now.names a.now }
    ensures count { operations e.now ≡ access_operations a.now }
{}

// As many operands as the operator takes fit the table of names with the expression.
fn operands_fit(p: &Program, e: &Expr, op: Op, args: &ExprList)
    requires form { e.now ≡ Expr.Apply op args.now }
    requires expression { IsExpression p.now.names e.now }
    ensures as_many { length args.now ≡ arity_of op }
    ensures operands { All (IsExpression p.now.names) args.now }
    ensures count { operations e.now ≡ 1 + sum_by operations args.now }
{}
