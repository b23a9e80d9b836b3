//! Expressions in a copy.
ghost use Rattle.std.specs.Prelude.{◌≡◌, [], IfOk, map};
ghost use Rattle.program_units.specs.Copies.{changed as changed_of, changed_call as changed_call_of, pairs};
ghost use Rattle.inlined_copies.specs.Changes.{changes_of, with_operand as with_operand_of};

use crate::changes::intrinsic;
use crate::unit_table::CopyOf;
use df_sequence::{NoMemory, Sequence};
use f77_tree::{Name, RawExpr, RawList};
use op_table::Op;
use std::alloc::Global;

/// The expression with what changes in the copy.
#[cycle(changing)]
pub(crate) fn changed(alloc: Global, c: &CopyOf, e: &RawExpr) -> Result<RawExpr, NoMemory>
    ensures { IfOk result (λ made. made ≡ changed_of (changes_of c.now) e.now) }
{
    match e {
        RawExpr::Int(z) => Ok(RawExpr::Int(*z)),
        RawExpr::Truth(b) => Ok(RawExpr::Truth(*b)),
        RawExpr::Named(name) => Ok(RawExpr::Named(c.name(alloc, name)?)),
        RawExpr::Call(name, args) => changed_call(alloc, c, name, args),
        RawExpr::Apply(op, args) => {
            let operands = changed_row(alloc, c, args)?;
            Ok(RawExpr::Apply(*op, operands))
        }
    }
}

/// Expressions, one after another, with what changes in the copy.
#[cycle(changing)]
pub(crate) fn changed_row(alloc: Global, c: &CopyOf, args: &RawList) -> Result<RawList, NoMemory>
    ensures { IfOk result (λ row. row ≡ map (changed_of (changes_of c.now)) args.now) }
{
    let mut row = Sequence::new(alloc);
    for arg in args.as_slice() {
        row.push(changed(alloc, c, arg)?)?;
    }
    Ok(row)
}

// An element of an array, or a call of an intrinsic function.
#[cycle(changing)]
fn changed_call(alloc: Global, c: &CopyOf, name: &Name, args: &RawList) -> Result<RawExpr, NoMemory>
    ensures { IfOk result (λ made. made ≡ changed_call_of (changes_of c.now) name.now (map (changed_of (changes_of c.now)) args.now)) }
{
    if !c.is_free(name) {
        let subs = changed_row(alloc, c, args)?;
        return Ok(RawExpr::Call(c.name(alloc, name)?, subs));
    }
    match intrinsic(name.as_bytes()) {
        None => {
            let subs = changed_row(alloc, c, args)?;
            Ok(RawExpr::Call(c.name(alloc, name)?, subs))
        }
        Some(op) => changed_pairs(alloc, c, op, args),
    }
}

// An operator at arguments, of which more than two are taken pair by pair, from the left.
#[cycle(changing)]
fn changed_pairs(alloc: Global, c: &CopyOf, op: Op, args: &RawList) -> Result<RawExpr, NoMemory>
    ensures { IfOk result (λ made. made ≡ pairs op (map (changed_of (changes_of c.now)) args.now)) }
{
    let mut operands = Sequence::new(alloc);
    for arg in args.as_slice() {
        let operand = changed(alloc, c, arg)?;
        operands = with_operand(alloc, op, operands, operand)?;
    }
    Ok(RawExpr::Apply(op, operands))
}

// One operand more. Two that are there already become one, the operator at them.
fn with_operand(
    alloc: Global,
    op: Op,
    mut operands: RawList,
    operand: RawExpr,
) -> Result<RawList, NoMemory>
    ensures { IfOk result (λ more. more ≡ with_operand_of op operands operand) }
{
    if operands.len() < 2 {
        operands.push(operand)?;
        return Ok(operands);
    }
    let mut pair = Sequence::new(alloc);
    pair.push(RawExpr::Apply(op, operands))?;
    pair.push(operand)?;
    Ok(pair)
}
