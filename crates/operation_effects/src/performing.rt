//! What comes of operations.

ghost use Rattle.std.specs.Prelude.{◌≡◌, ◌≤◌, ℕ, List, [], length, vec_capacity};
ghost use Rattle.op_table.specs.Operators.{applied, arity_of};
ghost use Rattle.f77_tree.specs.Execution.{Memory, next_word};
ghost use Rattle.f77_meaning.specs.Storage.{memory_of, HasSizes};
ghost use Rattle.net_board.specs.SoundNets.{HasSizesOf};
ghost use Rattle.op_board.specs.Operations.{Work};
ghost use Rattle.op_board.specs.Effects.{performed, result_given, taken_from};
ghost use Rattle.operation_effects.specs.Tasks.{task_done, task_room, CanPerform, IsTaskOf, TakesOperands};
ghost use Rattle.operation_effects.specs.Done.{told, KeepsLine, KeepsStorage};

use crate::changes::{advance, begin_with, store_at, store_word};
use crate::reading::{load_at, read, value_at, which_sign, which_target, which_trip, which_truth};
use crate::tasks::Task;
use f77_meaning::{Storage, word_in, write_values};
use f77_tree::Program;
use op_table::{Op, Trap, apply};

/// What came of an operation.
#[derive(Clone, Copy, Debug, PartialEq, Eq)]
pub enum Did {
    /// It gives this value.
    Gave(i32),
    /// It changed the storage, or nothing.
    Changed,
    /// It has made a line.
    Wrote,
    /// It tells the out-edge with this number.
    Told(u32),
    /// It trapped, and nothing changed.
    Trapped(Trap),
}

/// Performs an operation at the values of its operands. A trap leaves the storage as it is, and only a line changes the draft. It
/// takes no memory.
#[inline(always)]
pub fn perform(
    task: Task,
    args: &[i32],
    p: &Program,
    input: &Vec<i32>,
    s: &mut Storage,
    draft: &mut Vec<u8>,
) -> Did
    requires task { CanPerform p.now task }
    requires operands { TakesOperands task (length args.now) }
    requires sizes { HasSizesOf p.now (memory_of s.old) }
    requires data { s.old.taken ≤ length input.now.items }
    requires room { task_room task ≤ vec_capacity draft.old }
    ensures effect { (work : Work) → IsTaskOf p.now.names work task.entry → performed p.now.names input.now.items (memory_of s.old) work args.now ≡ told result (memory_of s.new) draft.new.items }
    ensures kept { KeepsStorage result s.old s.new }
    ensures line { KeepsLine result draft.old.items draft.new.items }
    ensures sizes { HasSizes s.old s.new }
    ensures data { s.new.taken ≤ length input.now.items }
    ensures capacity { vec_capacity draft.old ≤ vec_capacity draft.new }
{
    perform_task(task, args, p, input, s, draft)
}

// Does what the task says.
#[inline(always)]
fn perform_task(
    task: Task,
    args: &[i32],
    p: &Program,
    input: &Vec<i32>,
    s: &mut Storage,
    draft: &mut Vec<u8>,
) -> Did
    requires task { CanPerform p.now task }
    requires operands { TakesOperands task (length args.now) }
    requires sizes { HasSizesOf p.now (memory_of s.old) }
    requires data { s.old.taken ≤ length input.now.items }
    requires room { task_room task ≤ vec_capacity draft.old }
    ensures effect { task_done p.now.names input.now.items (memory_of s.old) task.entry args.now ≡ told result (memory_of s.new) draft.new.items }
    ensures kept { KeepsStorage result s.old s.new }
    ensures line { KeepsLine result draft.old.items draft.new.items }
    ensures sizes { HasSizes s.old s.new }
    ensures data { s.new.taken ≤ length input.now.items }
    ensures capacity { vec_capacity draft.old ≤ vec_capacity draft.new }
{
    match task {
        Task::Load(word, kind) => Did::Gave(read(kind, word_in(&s.store, word))),
        Task::LoadAt(word, size, kind) => {
            let place = value_at(args, 0);
            Did::Gave(load_at(&s.store, word, size, kind, place))
        }
        Task::Operate(op) => operate(op, args),
        Task::Add => operate(Op::Add, args),
        Task::Sub => operate(Op::Sub, args),
        Task::Mul => operate(Op::Mul, args),
        Task::Lt => operate(Op::Lt, args),
        Task::Le => operate(Op::Le, args),
        Task::Eq => operate(Op::Eq, args),
        Task::Ne => operate(Op::Ne, args),
        Task::Ge => operate(Op::Ge, args),
        Task::Gt => operate(Op::Gt, args),
        Task::Bound => operate(Op::Bound, args),
        Task::Place => operate(Op::Place, args),
        Task::Store(word) => {
            store_word(s, word, value_at(args, 0));
            Did::Changed
        }
        Task::StoreAt(word, size) => {
            store_at(s, word, size, value_at(args, 0), value_at(args, 1));
            Did::Changed
        }
        Task::Take => take(input, s),
        Task::Write(items) => {
            write_values(draft, items, &p.names, args);
            Did::Wrote
        }
        Task::Begin(loop_no, word) => {
            begin_with(s, loop_no, word, args);
            Did::Changed
        }
        Task::Advance(loop_no, word) => {
            advance(s, loop_no, word);
            Did::Changed
        }
        Task::DecideTruth => Did::Told(which_truth(value_at(args, 0))),
        Task::DecideSign => Did::Told(which_sign(value_at(args, 0))),
        Task::DecideNumber(count) => Did::Told(which_target(value_at(args, 0), count)),
        Task::DecideTrips(loop_no) => Did::Told(which_trip(&s.counts, loop_no)),
        Task::DecideFirst => Did::Told(0),
    }
}

// The value of an operator, or its trap. A hint, and no order: twelve copies of the whole table of operators would make the function above
// too large to stand in its callers itself.
#[inline]
fn operate(op: Op, args: &[i32]) -> Did
    requires { length args.now ≡ arity_of op }
    ensures effect { (m : Memory) (line : List ℕ) → result_given m (applied op args.now) ≡ told result m line }
    ensures kept { (old new : Storage) → new ≡ old → KeepsStorage result old new }
    ensures line { (old new : List ℕ) → new ≡ old → KeepsLine result old new }
{
    match apply(op, args) {
        Ok(z) => Did::Gave(z),
        Err(trap) => Did::Trapped(trap),
    }
}

// Takes the next word of the data, if one is left.
fn take(input: &Vec<i32>, s: &mut Storage) -> Did
    requires { s.old.taken ≤ length input.now.items }
    ensures effect { taken_from (memory_of s.old) (next_word input.now.items (memory_of s.old)) ≡ told result (memory_of s.new) [] }
    ensures kept { KeepsStorage result s.old s.new }
    ensures sizes { HasSizes s.old s.new }
    ensures data { s.new.taken ≤ length input.now.items }
{
    match input.get(s.taken).copied() {
        Some(z) => {
            s.taken += 1;
            Did::Gave(z)
        }
        None => Did::Trapped(Trap::Input),
    }
}
