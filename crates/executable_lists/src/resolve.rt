//! Expressions over the table of names: names become indices, calls of intrinsic functions become operators, and the
//! dialect chooses the rows of arithmetic.

ghost use Rattle.std.specs.Prelude.{◌≡◌, [], IfOk, map};
ghost use Rattle.f77_tree.specs.Declarations.{index_of};
ghost use Rattle.layout_rules.specs.Resolved.{in_dialect as spec_in_dialect, nested, resolved, resolved_call, access_of, resolved_item, resolved_step};
ghost use Rattle.executable_lists.specs.Nested.{with_operand as spec_with_operand};

use declared_names::Function;
use df_sequence::{Copied, NoMemory, Sequence};
use f77_tree::{Access, Expr, ExprList, Item, Name, RawExpr, RawItem, RawList};
use op_table::Op;
use std::alloc::Global;
use symbol_table::Names;

/// The expression over the table of names, in the plain or in the checked dialect (ANSI X3.9-1978, sections 6 and 15.10).
#[cycle(resolution)]
pub(crate) fn resolve(
    alloc: Global,
    names: &Names,
    checked: bool,
    e: &RawExpr,
) -> Result<Expr, NoMemory>
    ensures { IfOk result (λ resolution. resolution ≡ resolved names.now checked e.now) }
{
    match e {
        RawExpr::Int(z) => Ok(Expr::Const(*z)),
        RawExpr::Truth(b) => Ok(Expr::Truth(*b)),
        RawExpr::Named(name) => Ok(Expr::Read(variable(alloc, names, name))),
        RawExpr::Call(name, args) => resolve_call(alloc, names, checked, name, args),
        RawExpr::Apply(op, args) => {
            let operands = resolve_row(alloc, names, checked, args)?;
            Ok(Expr::Apply(in_dialect(checked, *op), operands))
        }
    }
}

// Expressions, one after another.
#[cycle(resolution)]
fn resolve_row(
    alloc: Global,
    names: &Names,
    checked: bool,
    args: &RawList,
) -> Result<ExprList, NoMemory>
    ensures { IfOk result (λ row. row ≡ map (resolved names.now checked) args.now) }
{
    let mut row = Sequence::with_capacity(alloc, args.len() as usize)?;
    for arg in args.as_slice() {
        row.push(resolve(alloc, names, checked, arg)?)?;
    }
    Ok(row)
}

// An element of an array, or an intrinsic function at its arguments.
#[cycle(resolution)]
fn resolve_call(
    alloc: Global,
    names: &Names,
    checked: bool,
    name: &Name,
    args: &RawList,
) -> Result<Expr, NoMemory>
    ensures { IfOk result (λ resolution. resolution ≡ resolved_call names.now checked name.now (map (resolved names.now checked) args.now)) }
{
    let k = names.index(name);
    if !names.dims(k).is_empty() {
        let subs = resolve_row(alloc, names, checked, args)?;
        return Ok(Expr::Read(Access { name: k, subs }));
    }
    match Function::named(name.as_bytes()) {
        None => Ok(Expr::Const(0)),
        Some(function) => {
            let op = in_dialect(checked, function.operator());
            resolve_nested(alloc, names, checked, op, args)
        }
    }
}

// An operator at its arguments, of which more than two are taken pair by pair, from the left.
#[cycle(resolution)]
fn resolve_nested(
    alloc: Global,
    names: &Names,
    checked: bool,
    op: Op,
    args: &RawList,
) -> Result<Expr, NoMemory>
    ensures { IfOk result (λ resolution. resolution ≡ nested op (map (resolved names.now checked) args.now)) }
{
    let mut operands = Sequence::with_capacity(alloc, args.len() as usize)?;
    for arg in args.as_slice() {
        let operand = resolve(alloc, names, checked, arg)?;
        operands = with_operand(alloc, op, operands, operand)?;
    }
    Ok(Expr::Apply(op, operands))
}

// One operand more. Two that are there already become one, the operator at them.
fn with_operand(
    alloc: Global,
    op: Op,
    mut operands: ExprList,
    operand: Expr,
) -> Result<ExprList, NoMemory>
    ensures { IfOk result (λ more. more ≡ spec_with_operand op operands operand) }
{
    if operands.len() < 2 {
        operands.push(operand)?;
        return Ok(operands);
    }
    let mut pair = Sequence::with_capacity(alloc, 2)?;
    pair.push(Expr::Apply(op, operands))?;
    pair.push(operand)?;
    Ok(pair)
}

/// What the expression of a variable or an array element accesses. Of another expression it is the first name.
pub(crate) fn access(
    alloc: Global,
    names: &Names,
    checked: bool,
    e: &RawExpr,
) -> Result<Access, NoMemory>
    ensures { IfOk result (λ access. access ≡ access_of names.now checked e.now) }
{
    match e {
        RawExpr::Named(name) => Ok(variable(alloc, names, name)),
        RawExpr::Call(name, args) => {
            let subs = resolve_row(alloc, names, checked, args)?;
            Ok(Access {
                name: names.index(name),
                subs,
            })
        }
        _ => Ok(Access {
            name: 0,
            subs: Sequence::new(alloc),
        }),
    }
}

// A name alone.
fn variable(alloc: Global, names: &Names, name: &Name) -> Access
    ensures { result ≡ record { name = index_of names.now name.now; subs = [] } }
{
    Access {
        name: names.index(name),
        subs: Sequence::new(alloc),
    }
}

/// An item of output over the table of names.
pub(crate) fn resolve_item(
    alloc: Global,
    names: &Names,
    checked: bool,
    item: &RawItem,
) -> Result<Item, NoMemory>
    ensures { IfOk result (λ resolution. resolution ≡ resolved_item names.now checked item.now) }
{
    match item {
        RawItem::Value(e) => Ok(Item::Value(resolve(alloc, names, checked, e)?)),
        RawItem::Chars(text) => Ok(Item::Chars(text.copy(alloc)?)),
    }
}

/// The step of a DO, which is 1 where none is written.
pub(crate) fn resolve_step(
    alloc: Global,
    names: &Names,
    checked: bool,
    step: &Option<RawExpr>,
) -> Result<Expr, NoMemory>
    ensures { IfOk result (λ resolution. resolution ≡ resolved_step names.now checked step.now) }
{
    match step {
        None => Ok(Expr::Const(1)),
        Some(e) => resolve(alloc, names, checked, e),
    }
}

// An operator of the source in the plain dialect, or in the checked one.
fn in_dialect(checked: bool, op: Op) -> Op
    ensures { result ≡ spec_in_dialect checked op }
{
    if !checked {
        return op;
    }
    match op {
        Op::Add => Op::AddChecked,
        Op::Sub => Op::SubChecked,
        Op::Mul => Op::MulChecked,
        Op::Neg => Op::NegChecked,
        Op::Abs => Op::AbsChecked,
        Op::Pow => Op::PowChecked,
        other => other,
    }
}
