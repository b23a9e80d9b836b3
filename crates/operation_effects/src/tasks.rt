//! What operations do, with what they look up of names.

ghost use Rattle.std.specs.Prelude.{◌≡◌, ◌<◌, ◌≤◌, ◌+◌, ℕ, Some, pos, length, map};
ghost use Rattle.op_table.specs.Operators.{arity_of};
ghost use Rattle.f77_tree.specs.Known.{known};
ghost use Rattle.f77_tree.specs.Value.{dims_of, place_of, size_of, ArePlaced};
ghost use Rattle.op_board.specs.Operations as board;
ghost use Rattle.operation_lists.specs.Seen.{work_seen};
ghost use Rattle.operation_effects.specs.Tasks.{CanPerform, IsTaskOf, TakesOperands, operator_of};
ghost use Rattle.operation_effects.specs.Works.{FitsProgram, HasOperands};

use crate::sizes::size;
use f77_tree::{Access, ItemList, Kind, Program};
use op_table::Op;
use operation_lists::Work;

/// What an operation does. Words are numbers of words of the store, and DOs have their numbers in the text.
#[derive(Clone, Copy, Drop)]
pub enum Task<'a> {
    /// Gives a word, as a name of this kind is read.
    Load(u32, Kind),
    /// Gives the word at a place of an array, whose first word is this and that has so many words, as a name of this kind is read.
    LoadAt(u32, u32, Kind),
    /// Gives the value of an operator that has no task of its own.
    Operate(Op),
    /// Gives the value of this operator. Those that nearly every loop has are tasks of their own, so that one choice among the tasks
    /// finds what is done.
    Add,
    Sub,
    Mul,
    Lt,
    Le,
    Eq,
    Ne,
    Ge,
    Gt,
    Bound,
    Place,
    /// Writes a word.
    Store(u32),
    /// Writes the word at a place of an array, whose first word is this and that has so many words.
    StoreAt(u32, u32),
    /// Gives the next word of the data.
    Take,
    /// Writes a line of output.
    Write(&'a ItemList),
    /// Begins the DO with this number, whose variable has this word.
    Begin(u32, u32),
    /// Increments the DO with this number, whose variable has this word.
    Advance(u32, u32),
    /// Tells the edge by which control leaves a branch by a truth.
    DecideTruth,
    /// By a sign.
    DecideSign,
    /// By a number up to this count.
    DecideNumber(u32),
    /// By what is left of the count of the DO with this number.
    DecideTrips(u32),
    /// A hold always takes its first edge.
    DecideFirst,
}

/// The task of an operation. It takes no memory.
pub fn task_of<'a>(p: &Program, work: Work<'a>) -> Task<'a>
    requires places { ArePlaced p.now.names p.now.words }
    requires fits { FitsProgram p.now (work_seen work) }
    ensures task { IsTaskOf p.now.names (work_seen work.entry) result }
    ensures can { CanPerform p.now result }
    ensures operands { (count : ℕ) → HasOperands (work_seen work.entry) count → TakesOperands result count }
{
    match work {
        Work::Load(access) => load_of(p, access),
        Work::Operate(op) => operate_of(op),
        Work::Store(access) => store_of(p, access),
        Work::Take => Task::Take,
        Work::Write(items) => Task::Write(items),
        Work::Begin(loop_no, var) => Task::Begin(loop_no, word_of(p, var)),
        Work::Advance(loop_no, var) => Task::Advance(loop_no, word_of(p, var)),
        Work::DecideTruth => Task::DecideTruth,
        Work::DecideSign => Task::DecideSign,
        Work::DecideNumber(count) => Task::DecideNumber(count),
        Work::DecideTrips(loop_no) => Task::DecideTrips(loop_no),
        Work::DecideFirst => Task::DecideFirst,
    }
}

// The task of an operator.
fn operate_of<'a>(op: Op) -> Task<'a>
    ensures task { operator_of result ≡ Some op }
    ensures can { (p : Program) → CanPerform p result }
    ensures operands { (count : ℕ) → count ≡ arity_of op → TakesOperands result count }
{
    match op {
        Op::Add => Task::Add,
        Op::Sub => Task::Sub,
        Op::Mul => Task::Mul,
        Op::Lt => Task::Lt,
        Op::Le => Task::Le,
        Op::Eq => Task::Eq,
        Op::Ne => Task::Ne,
        Op::Ge => Task::Ge,
        Op::Gt => Task::Gt,
        Op::Bound => Task::Bound,
        Op::Place => Task::Place,
        _ => Task::Operate(op),
    }
}

// The task of a load of an access.
fn load_of<'a>(p: &Program, access: &Access) -> Task<'a>
    requires places { ArePlaced p.now.names p.now.words }
    requires name { access.now.name < length p.now.names }
    ensures task { IsTaskOf p.now.names (board.Load access.now.name (map known access.now.subs)) result }
    ensures can { CanPerform p.now result }
    ensures operands { (count : ℕ) → HasOperands (board.Load access.now.name (map known access.now.subs)) count → TakesOperands result count }
{
    let kind = p.names.at(access.name).kind;
    if access.subs.is_empty() {
        Task::Load(word_of(p, access.name), kind)
    } else {
        Task::LoadAt(word_of(p, access.name), words_of(p, access.name), kind)
    }
}

// The task of a store.
fn store_of<'a>(p: &Program, access: &Access) -> Task<'a>
    requires places { ArePlaced p.now.names p.now.words }
    requires name { access.now.name < length p.now.names }
    ensures task { IsTaskOf p.now.names (board.Store access.now.name (map known access.now.subs)) result }
    ensures can { CanPerform p.now result }
    ensures operands { (count : ℕ) → HasOperands (board.Store access.now.name (map known access.now.subs)) count → TakesOperands result count }
{
    if access.subs.is_empty() {
        Task::Store(word_of(p, access.name))
    } else {
        Task::StoreAt(word_of(p, access.name), words_of(p, access.name))
    }
}

// The first word of a name.
fn word_of(p: &Program, name: u32) -> u32
    requires places { ArePlaced p.now.names p.now.words }
    requires name { name < length p.now.names }
    ensures word { result ≡ place_of p.now.names name }
    ensures inside { result < p.now.words }
{
    p.names.at(name).place
}

// How many words a name has.
fn words_of(p: &Program, name: u32) -> u32
    requires places { ArePlaced p.now.names p.now.words }
    requires name { name < length p.now.names }
    ensures size { pos result ≡ size_of (dims_of p.now.names name) }
    ensures inside { place_of p.now.names name + result ≤ p.now.words }
{
    size(&p.names.at(name).dims)
}
