//! Laws of the operations of pieces, and of the lines that they need, as contracts of functions that do nothing.

ghost use Rattle.std.specs.Prelude.{◌≤◌, ℕ};
ghost use Rattle.f77_tree.specs.Operations.{most_operations};
ghost use Rattle.op_board.specs.OperationFacts.{OperationFacts};
ghost use Rattle.op_board.specs.OperationLists.{takes_of};
ghost use Rattle.op_board.specs.OperationNets.{OperationNet, operation_count, operations_at};
ghost use Rattle.op_board.specs.SoundOperationNets.{IsOperationNet};
ghost use Rattle.op_board.specs.StructureLaws.{PiecesHaveOperationLists, LastOperationsDecide, ValuesAreTakenLater, NeededLinesAreTouched, TouchedLinesAreNeeded, OperationsWait, KnownTrapsTouchOutput};

use alias_classes::needs_are_numbered;
use cfg_build::pieces_run_executables;
use dep_routing::pieces_touch_lines;

/// A piece that acts, branches or holds has operations, of which the last gives no value and each other one gives one to a later
/// one. The last one is a decision where edges part, and no other one is. No piece has more operations than a statement of its
/// program may ask.
pub fn pieces_have_operations()
    ensures lists { PiecesHaveOperationLists }
    ensures decisions { LastOperationsDecide }
    ensures few { (x : OperationNet) (piece : ℕ) → operation_count x piece ≤ most_operations x.net.program }
{
    pieces_run_executables();
}

/// No value of an operation is taken twice, and an operation takes those of earlier ones alone.
pub fn values_are_taken_once()
    ensures once { (x : OperationNet) (piece number : ℕ) → takes_of (operations_at x piece) number ≤ 1 }
    ensures later { ValuesAreTakenLater }
{}

/// A piece that acts, branches or holds touches the lines that its operations need, and no others. Each operation needs a line or
/// takes a value.
pub fn pieces_touch_needed_lines()
    ensures touched { NeededLinesAreTouched }
    ensures needed { TouchedLinesAreNeeded }
    ensures waits { OperationsWait }
{
    needs_are_numbered();
    pieces_run_executables();
    pieces_touch_lines();
}

/// A piece touches the line of output if an operator of it traps at what is known.
pub fn known_traps_touch_output()
    ensures { KnownTrapsTouchOutput }
{}

/// The operations of a piece do what the piece does, and need the lines that it touches.
pub fn operations_have_facts()
    ensures { (x : OperationNet) → IsOperationNet x → OperationFacts x }
{
    pieces_have_operations();
    pieces_touch_needed_lines();
    pieces_run_executables();
}
