//! Which operations of a list take the values of others.

ghost use Rattle.std.specs.Prelude.{◌≡◌, ◌<◌, ◌^◌, nat_lt, ℕ, if◌then◌else◌, IfOk, Some, length, map, slice_get, slice_index};
ghost use Rattle.op_board.specs.OperationLists.{takes_by, takes_of};
ghost use Rattle.op_board.specs.Operations as board;
ghost use Rattle.operation_lists.specs.Seen.{operand_seen, operation_seen};
ghost use Rattle.operation_tables.specs.OperationRows.{IsTakerIn};

use df_sequence::NoMemory;
use operation_lists::{Operand, Operands, Operation};
use smallvec::SmallVec;
use std::alloc::Global;

/// For each operation one that takes its value, or some number where none does. An operation takes the values of earlier ones alone.
pub(crate) fn value_takers(alloc: Global, operations: &Vec<Operation>) -> Result<Vec<u32>, NoMemory>
    requires few { length operations.now.items < 2 ^ 32 }
    requires earlier { (i number : ℕ) (op : board.Operation) → slice_get (map operation_seen operations.now.items) i ≡ Some op → 0 < takes_by op.operands number → number < i }
    ensures all { IfOk result (λ takers. length takers.items ≡ length operations.now.items) }
    ensures takers { IfOk result (λ takers. (number : ℕ) → 0 < takes_of (map operation_seen operations.now.items) number → IsTakerIn (map operation_seen operations.now.items) number (slice_index takers.items number)) }
{
    let mut takers = vec![in alloc; 0; operations.len()]?;
    for i in 0..operations.len() {
        take_values(&operations[i].operands, i as u32, &mut takers);
    }
    Ok(takers)
}

/// Notes operation i as the one that takes the values that are its operands.
fn take_values(operands: &Operands, i: u32, takers: &mut Vec<u32>)
    requires { (number : ℕ) → 0 < takes_by (map operand_seen operands.now.items) number → number < length takers.old.items }
    ensures all { length takers.new.items ≡ length takers.old.items }
    ensures takers { (number : ℕ) → slice_index takers.new.items number ≡ if nat_lt 0 (takes_by (map operand_seen operands.now.items) number) then i else slice_index takers.old.items number }
{
    for operand in operands.as_slice() {
        match *operand {
            Operand::Node(number) => takers[number as usize] = i,
            Operand::Known(_) => {}
        }
    }
}

/// A copy of operands.
pub(crate) fn copied_operands(alloc: Global, operands: &Operands) -> Result<Operands, NoMemory>
    ensures { IfOk result (λ copy. copy.items ≡ operands.now.items) }
{
    let mut copy = SmallVec::new(alloc);
    for operand in operands.as_slice() {
        copy.push(*operand)?;
    }
    Ok(copy)
}
