//! The operations of a piece, as they are compiled.

ghost use Rattle.std.specs.Prelude.{◌≡◌, ◌+◌, ◌^◌, ◌<◌, ◌≤◌, [], ◌∷◌, All, length, map, IfOk, OnOk};
ghost use Rattle.f77_tree.specs.declared.programs.Program.{Program};
ghost use Rattle.op_board.specs.Operations.{gives_value, is_decision, known_of, with_operation};
ghost use Rattle.operation_lists.specs.CanPerform.{CanPerform, CanWork};
ghost use Rattle.operation_lists.specs.Seen.{operand_seen, work_seen, operation_seen, compiled_seen};

use df_sequence::NoMemory;
use f77_tree::{Access, ItemList};
use op_table::Op;
use smallvec::SmallVec;
use std::alloc::Global;

/// What an operation works on.
#[derive(Clone, Copy, Debug, PartialEq, Eq)]
pub enum Operand {
    /// The value that the operation with this number of the piece gives, counted from 0.
    Node(u32),
    /// A value that is known before the program runs.
    Known(i32),
}

impl Default for Operand {
    fn default() -> Operand {
        Operand::Known(0)
    }
}

/// What an operation does.
#[derive(Clone, Copy, Drop)]
pub enum Work<'a> {
    /// Gives the word of an access, of which an array has a place as an operand.
    Load(&'a Access),
    /// Gives the value of an operator at the operands.
    Operate(Op),
    /// Writes the word of an access: the value is the last operand.
    Store(&'a Access),
    /// Gives the next word of the data.
    Take,
    /// Writes a line of output.
    Write(&'a ItemList),
    /// Begins a DO, given by its number and the name of its variable, at its first and last value and its step.
    Begin(u32, u32),
    /// Increments a DO, given in the same way.
    Advance(u32, u32),
    /// Tells the edge by which control leaves a branch by a truth.
    DecideTruth,
    /// By a sign.
    DecideSign,
    /// By a number up to this count.
    DecideNumber(u32),
    /// By what is left of the count of the DO with this number.
    DecideTrips(u32),
    /// A hold always takes its first edge.
    DecideFirst,
}

/// Operands, of which few operations have more than three.
pub type Operands = SmallVec<Operand, 3>;

/// An operation of a piece.
#[derive(Drop)]
pub struct Operation<'a> {
    /// What it does.
    pub work: Work<'a>,
    /// What it works on.
    pub operands: Operands,
}

/// Appends an operation, and answers the operand that its value is.
pub(crate) fn push_operation<'a>(
    done: &mut Vec<Operation<'a>>,
    work: Work<'a>,
    operands: Operands,
) -> Result<Operand, NoMemory>
    requires room { length done.old.items < 2 ^ 32 }
    requires short { length operands.items ≤ 500 }
    ensures compiled { IfOk result (λ operand. compiled_seen done.new.items operand ≡ with_operation (map operation_seen done.old.items) (work_seen work.entry) (map operand_seen operands.items)) }
    ensures can { OnOk result ((p : Program) → All (CanPerform p) done.old.items → CanWork p work.entry (length operands.items) → All (CanPerform p) done.new.items) }
    ensures few { OnOk result (length done.new.items ≡ length done.old.items + 1) }
{
    let number = done.len() as u32;
    done.push(Operation { work, operands })?;
    Ok(Operand::Node(number))
}

/// What is known of an operand.
pub(crate) fn known_of(operand: Operand) -> Option<i32>
    ensures { result ≡ known_of (operand_seen operand) }
{
    match operand {
        Operand::Known(z) => Some(z),
        Operand::Node(_) => None,
    }
}

/// The operands of an operator that takes one.
pub(crate) fn one_operand(alloc: Global, a: Operand) -> Result<Operands, NoMemory>
    ensures { IfOk result (λ operands. operands.items ≡ a ∷ []) }
{
    let mut operands = SmallVec::new(alloc);
    operands.push(a)?;
    Ok(operands)
}

/// The operands of an operator that takes three.
pub(crate) fn three_operands(
    alloc: Global,
    a: Operand,
    b: Operand,
    c: Operand,
) -> Result<Operands, NoMemory>
    ensures { IfOk result (λ operands. operands.items ≡ a ∷ b ∷ c ∷ []) }
{
    let mut operands = SmallVec::new(alloc);
    operands.push(a)?;
    operands.push(b)?;
    operands.push(c)?;
    Ok(operands)
}

/// An operation gives a value that another one takes.
pub fn gives_value(work: &Work) -> bool
    ensures { result ≡ gives_value (work_seen work.now) }
{
    matches!(work, Work::Load(_) | Work::Operate(_) | Work::Take)
}

/// An operation tells the edge by which control leaves its piece.
pub fn is_decision(work: &Work) -> bool
    ensures { result ≡ is_decision (work_seen work.now) }
{
    matches!(
        work,
        Work::DecideTruth
            | Work::DecideSign
            | Work::DecideNumber(_)
            | Work::DecideTrips(_)
            | Work::DecideFirst
    )
}
