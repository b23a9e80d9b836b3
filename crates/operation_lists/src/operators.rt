//! The operations of operators, of which one whose value is known is none.

ghost use Rattle.std.specs.Prelude.{◌≡◌, ◌+◌, ◌^◌, ◌<◌, ◌≤◌, All, length, map, take, IfOk, OnOk};
ghost use Rattle.f77_tree.specs.declared.programs.Program.{Program};
ghost use Rattle.op_table.specs.Known.{folded};
ghost use Rattle.op_table.specs.Operators.{arity_of};
ghost use Rattle.op_board.specs.Operations.{known_of, operated, place_moved};
ghost use Rattle.operation_lists.specs.CanPerform.{CanPerform};
ghost use Rattle.operation_lists.specs.Seen.{operand_seen, operation_seen, compiled_seen};

use crate::operations::{
    Operand, Operands, Operation, Work, known_of, push_operation, three_operands,
};
use df_sequence::NoMemory;
use f77_tree::Dim;
use op_table::{Op, fold};
use std::alloc::Global;

/// No operator takes more operands.
pub(crate) const MOST_OPERANDS: usize = 3;

/// What is known of operands, and none after them.
pub(crate) fn known_operands(operands: &[Operand]) -> [Option<i32>; MOST_OPERANDS]
    requires { length operands.now ≤ 3 }
    ensures { take (length operands.now) result ≡ map known_of (map operand_seen operands.now) }
{
    let mut known = [None; MOST_OPERANDS];
    let mut count = 0;
    for operand in operands {
        known[count] = known_of(*operand);
        count += 1;
    }
    known
}

// The value of an operator at these operands, where all are known and it doesn't trap at them.
fn folded(op: Op, operands: &[Operand]) -> Option<i32>
    requires { length operands.now ≡ arity_of op }
    ensures { result ≡ folded op (map known_of (map operand_seen operands.now)) }
{
    fold(op, &known_operands(operands)[..operands.len()])
}

/// Appends an operator at these operands. Where its value is known it is no operation.
pub(crate) fn operate<'a>(
    done: &mut Vec<Operation<'a>>,
    op: Op,
    operands: Operands,
) -> Result<Operand, NoMemory>
    requires arity { length operands.items ≡ arity_of op }
    requires room { length done.old.items < 2 ^ 32 }
    ensures compiled { IfOk result (λ operand. compiled_seen done.new.items operand ≡ operated (map operation_seen done.old.items) op (map operand_seen operands.items)) }
    ensures can { OnOk result ((p : Program) → All (CanPerform p) done.old.items → All (CanPerform p) done.new.items) }
    ensures few { OnOk result (length done.new.items ≤ length done.old.items + 1) }
{
    match folded(op, operands.as_slice()) {
        Some(z) => Ok(Operand::Known(z)),
        None => push_operation(done, Work::Operate(op), operands),
    }
}

/// Appends what moves a place by a subscript: the subscript less the lower bound, if it lies within the bounds, times the
/// words of each part.
pub(crate) fn move_place<'a>(
    alloc: Global,
    done: &mut Vec<Operation<'a>>,
    place: Operand,
    dim: &Dim,
    size: i32,
    v: Operand,
) -> Result<Operand, NoMemory>
    requires room { length done.old.items + 2 < 2 ^ 32 }
    ensures compiled { IfOk result (λ operand. compiled_seen done.new.items operand ≡ place_moved (operand_seen place) dim.now size (compiled_seen done.old.items v)) }
    ensures can { OnOk result ((p : Program) → All (CanPerform p) done.old.items → All (CanPerform p) done.new.items) }
    ensures few { OnOk result (length done.new.items ≤ length done.old.items + 2) }
{
    let bounds = three_operands(alloc, v, Operand::Known(dim.lo), Operand::Known(dim.hi))?;
    let offset = operate(done, Op::Bound, bounds)?;
    let parts = three_operands(alloc, place, offset, Operand::Known(size))?;
    operate(done, Op::Place, parts)
}
