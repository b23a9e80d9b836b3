//! Which token lines operations need.

ghost use Rattle.std.specs.Prelude.{◌≡◌, ◌<◌, ◌*◌, ◌↔◌, ◌==◌, ◌&&◌, not, ℕ, true, IsTrue, length, map};
ghost use Rattle.class_set.specs.ClassSet.{holds};
ghost use Rattle.class_set.specs.Members.{IsWidth};
ghost use Rattle.op_table.specs.Known.{CanTrap};
ghost use Rattle.op_table.specs.Operators.{arity_of};
ghost use Rattle.f77_tree.specs.Value.{IsAccess, place_of};
ghost use Rattle.alias_classes.specs.Classes.{IsClasses, class_count};
ghost use Rattle.alias_classes.specs.Needs.{Hits, IsOfLoop};
ghost use Rattle.op_board.specs.Operations.{known_of};
ghost use Rattle.op_board.specs.Needs.{OperationNeeds};
ghost use Rattle.operation_lists.specs.CanPerform.{CanPerform, IsLoop};
ghost use Rattle.operation_lists.specs.NeededLines.{ClassLine, OutputLine};
ghost use Rattle.operation_lists.specs.Seen.{operand_seen, operation_seen};

use crate::operations::{Operand, Operation, Work};
use crate::operators::known_operands;
use alias_classes::Classes;
use class_set::ClassSet;
use f77_tree::{Access, Program};
use op_table::{Op, may_trap};

// The line of output.
const OUTPUT: u32 = 0;

/// The lines that an operation of a program needs, where its piece touches the lines of this set. Line 0 is that of output, and any
/// other line is a class.
pub fn operation_needs<const W: usize>(
    p: &Program,
    c: &Classes<W>,
    touched: &ClassSet<W>,
    operation: &Operation,
) -> ClassSet<W>
    requires width { IsWidth W }
    requires classes { IsClasses p.now c.now }
    requires few { class_count c.now < 64 * W }
    requires can { CanPerform p.now operation.now }
    ensures { (line : ℕ) → (holds result line ≡ true) ↔ OperationNeeds c.now (holds touched.now) (operation_seen operation.now) line }
{
    match operation.work {
        Work::Load(access) => word_lines(p, c, access),
        Work::Store(access) => word_lines(p, c, access),
        Work::Operate(op) => operator_lines(touched, op, operation.operands.as_slice()),
        Work::Take | Work::Write(_) => output_line(),
        Work::Begin(loop_no, var) => loop_lines(p, c, loop_no, var),
        Work::Advance(loop_no, var) => loop_lines(p, c, loop_no, var),
        Work::DecideTruth
        | Work::DecideSign
        | Work::DecideNumber(_)
        | Work::DecideTrips(_)
        | Work::DecideFirst => *touched,
    }
}

// The line of output.
fn output_line<const W: usize>() -> ClassSet<W>
    requires { IsWidth W }
    ensures { (line : ℕ) → holds result line ≡ (line == 0) }
{
    ClassSet::empty().with(OUTPUT)
}

// The lines of a set that are classes.
fn classes_in<const W: usize>(set: &ClassSet<W>) -> ClassSet<W>
    requires { IsWidth W }
    ensures { (line : ℕ) → holds result line ≡ (holds set.now line && not (line == 0)) }
{
    set.difference(&output_line())
}

// The lines of the words that an access hits.
fn word_lines<const W: usize>(p: &Program, c: &Classes<W>, access: &Access) -> ClassSet<W>
    requires width { IsWidth W }
    requires classes { IsClasses p.now c.now }
    requires access { IsAccess p.now.names access.now }
    ensures { (line : ℕ) → (holds result line ≡ true) ↔ ClassLine (Hits c.now access.now) line }
{
    classes_in(&c.hits(access))
}

// The lines of the variable of a DO, and of its count and step.
fn loop_lines<const W: usize>(p: &Program, c: &Classes<W>, loop_no: u32, var: u32) -> ClassSet<W>
    requires width { IsWidth W }
    requires classes { IsClasses p.now c.now }
    requires few { class_count c.now < 64 * W }
    requires counted { IsLoop p.now loop_no var }
    ensures { (line : ℕ) → (holds result line ≡ true) ↔ ClassLine (IsOfLoop c.now loop_no var) line }
{
    classes_in(&loop_classes(p, c, loop_no, var))
}

// Their classes.
fn loop_classes<const W: usize>(p: &Program, c: &Classes<W>, loop_no: u32, var: u32) -> ClassSet<W>
    requires width { IsWidth W }
    requires classes { IsClasses p.now c.now }
    requires few { class_count c.now < 64 * W }
    requires number { loop_no < p.now.loops }
    requires name { var < length p.now.names }
    requires word { place_of p.now.names var < p.now.words }
    ensures { (n : ℕ) → (holds result n ≡ true) ↔ IsOfLoop c.now loop_no var n }
{
    let variable = c.of_word(p.names.at(var).place);
    ClassSet::empty().with(variable).with(c.of_loop(loop_no))
}

// The line of output, where the piece touches it and an operator traps at some words that its operands may be.
fn operator_lines<const W: usize>(
    touched: &ClassSet<W>,
    op: Op,
    operands: &[Operand],
) -> ClassSet<W>
    requires width { IsWidth W }
    requires arity { length operands.now ≡ arity_of op }
    ensures { (line : ℕ) → (holds result line ≡ true) ↔ OutputLine (CanTrap op (map known_of (map operand_seen operands.now)) × (holds touched.now 0 ≡ true)) line }
{
    if !touched.holds(OUTPUT) {
        return ClassSet::empty();
    }
    if can_trap(op, operands) {
        output_line()
    } else {
        ClassSet::empty()
    }
}

// Whether an operator traps at some words that its operands may be.
fn can_trap(op: Op, operands: &[Operand]) -> bool
    requires { length operands.now ≡ arity_of op }
    ensures { IsTrue result ↔ CanTrap op (map known_of (map operand_seen operands.now)) }
{
    may_trap(op, &known_operands(operands)[..operands.len()])
}
