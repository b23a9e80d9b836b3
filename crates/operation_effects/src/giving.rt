//! The values of operations that do nothing but give one, over the values of earlier operations.

ghost use Rattle.std.specs.Prelude.{◌≡◌, ◌<◌, ◌≤◌, ℤ, List, All, IfSome, Ok, length, take};
ghost use Rattle.op_table.specs.Operators.{applied, arity_of};
ghost use Rattle.f77_tree.specs.Value.{word_at};
ghost use Rattle.f77_meaning.specs.Storage.{memory_of};
ghost use Rattle.net_board.specs.SoundNets.{HasSizesOf};
ghost use Rattle.op_board.specs.Effects.{gives, operand_at, performed};
ghost use Rattle.op_board.specs.Operations.{Work};
ghost use Rattle.operation_lists.specs.Seen.{operand_seen};
ghost use Rattle.operation_effects.specs.Given.{given_by, unless_trap};
ghost use Rattle.operation_effects.specs.OperandValues.{IsAmong, operand_values};
ghost use Rattle.operation_effects.specs.Tasks.{task_done, CanPerform, IsTaskOf, TakesOperands};

use crate::reading::{load_at, read};
use crate::tasks::Task;
use f77_meaning::{Storage, word_in};
use f77_tree::Program;
use op_table::{Op, apply};
use operation_lists::Operand;

/// The value that an operation gives at its operands, where those that aren't known are among these values. There is no answer where
/// it does anything else, and where it traps. It takes no memory.
#[inline(always)]
pub fn give_value(
    task: Task,
    operands: &[Operand],
    values: &[i32],
    p: &Program,
    s: &Storage,
) -> Option<i32>
    requires task { CanPerform p.now task }
    requires operands { TakesOperands task (length operands.now) }
    requires among { All (λ (operand : Operand). IsAmong (length values.now) (operand_seen operand)) operands.now }
    requires sizes { HasSizesOf p.now (memory_of s.now) }
    ensures value { (input : List ℤ) (work : Work) → IsTaskOf p.now.names work task.entry → result ≡ given_by task.entry (performed p.now.names input (memory_of s.now) work (operand_values values.now operands.now)) }
    ensures effect { IfSome result (λ z. (input : List ℤ) (work : Work) → IsTaskOf p.now.names work task.entry → performed p.now.names input (memory_of s.now) work (operand_values values.now operands.now) ≡ Ok (gives (memory_of s.now) z)) }
{
    give_of_task(task, operands, values, p, s)
}

// The value that a task gives.
#[inline(always)]
fn give_of_task(
    task: Task,
    operands: &[Operand],
    values: &[i32],
    p: &Program,
    s: &Storage,
) -> Option<i32>
    requires task { CanPerform p.now task }
    requires operands { TakesOperands task (length operands.now) }
    requires among { All (λ (operand : Operand). IsAmong (length values.now) (operand_seen operand)) operands.now }
    requires sizes { HasSizesOf p.now (memory_of s.now) }
    ensures value { (input : List ℤ) → result ≡ given_by task.entry (task_done p.now.names input (memory_of s.now) task.entry (operand_values values.now operands.now)) }
    ensures effect { IfSome result (λ z. (input : List ℤ) → task_done p.now.names input (memory_of s.now) task.entry (operand_values values.now operands.now) ≡ Ok (gives (memory_of s.now) z)) }
{
    match task {
        Task::Load(word, kind) => Some(read(kind, word_in(&s.store, word))),
        Task::LoadAt(word, size, kind) => {
            let place = value_if_any(operands, 0, values);
            Some(load_at(&s.store, word, size, kind, place))
        }
        Task::Operate(op) => applied_over(op, operands, values),
        Task::Add => applied_over(Op::Add, operands, values),
        Task::Sub => applied_over(Op::Sub, operands, values),
        Task::Mul => applied_over(Op::Mul, operands, values),
        Task::Lt => applied_over(Op::Lt, operands, values),
        Task::Le => applied_over(Op::Le, operands, values),
        Task::Eq => applied_over(Op::Eq, operands, values),
        Task::Ne => applied_over(Op::Ne, operands, values),
        Task::Ge => applied_over(Op::Ge, operands, values),
        Task::Gt => applied_over(Op::Gt, operands, values),
        Task::Bound => applied_over(Op::Bound, operands, values),
        Task::Place => applied_over(Op::Place, operands, values),
        _ => None,
    }
}

// The value of an operator, unless it traps. A hint, and no order, for the reason that stands beside `operate`.
#[inline]
fn applied_over(op: Op, operands: &[Operand], values: &[i32]) -> Option<i32>
    requires operands { length operands.now ≡ arity_of op }
    requires among { All (λ (operand : Operand). IsAmong (length values.now) (operand_seen operand)) operands.now }
    ensures value { result ≡ unless_trap (applied op (operand_values values.now operands.now)) }
    ensures effect { IfSome result (λ z. applied op (operand_values values.now operands.now) ≡ Ok z) }
{
    let args = first_values(operands, values);
    match apply(op, &args[..operands.len()]) {
        Ok(z) => Some(z),
        Err(_) => None,
    }
}

// The values of operands, of which there are at most three, and 0 after them.
#[inline(always)]
fn first_values(operands: &[Operand], values: &[i32]) -> [i32; 3]
    requires few { length operands.now ≤ 3 }
    requires among { All (λ (operand : Operand). IsAmong (length values.now) (operand_seen operand)) operands.now }
    ensures { take (length operands.now) result ≡ operand_values values.now operands.now }
{
    [
        value_if_any(operands, 0, values),
        value_if_any(operands, 1, values),
        value_if_any(operands, 2, values),
    ]
}

// The value of the operand with this number, counted from 0, or 0 where there are fewer.
#[inline(always)]
fn value_if_any(operands: &[Operand], k: usize, values: &[i32]) -> i32
    requires { All (λ (operand : Operand). IsAmong (length values.now) (operand_seen operand)) operands.now }
    ensures { result ≡ word_at (operand_values values.now operands.now) k }
{
    if k < operands.len() {
        operand_value(operands[k], values)
    } else {
        0
    }
}

/// The value of an operand that is known, or is among these values.
#[inline(always)]
pub fn operand_value(operand: Operand, values: &[i32]) -> i32
    requires { IsAmong (length values.now) (operand_seen operand) }
    ensures { result ≡ operand_at values.now (operand_seen operand) }
{
    match operand {
        Operand::Known(z) => z,
        Operand::Node(number) => values[number as usize],
    }
}
