//! Laws of the rows of operations, as contracts of functions that do nothing.

ghost use Rattle.std.specs.Prelude.{◌≡◌, ◌^◌, ◌<◌, ◌≤◌, ℕ, true, length};
ghost use Rattle.f77_meaning.specs.Room.{most_room};
ghost use Rattle.net_board.specs.Nodes.{graph_in};
ghost use Rattle.op_board.specs.OperationNets.{OperationNet, operation_at, operation_count, operation_nodes_below};
ghost use Rattle.op_board.specs.SoundOperationNets.{IsOperationNet};
ghost use Rattle.operation_effects.specs.Works.{OperationFits};
ghost use Rattle.operation_tables.specs.PieceTables.{rows_before};
ghost use Rattle.operation_tables.specs.PlanView.{operations_in};
ghost use Rattle.operation_tables.specs.RowRoom.{work_room};

use crate::plan::OperationPlan;
use alias_classes::needs_are_numbered;
use cfg_build::pieces_are_few;
use op_board::{pieces_have_operations, pieces_touch_needed_lines};
use operation_effects::operations_fit_their_programs;

/// The lines that operations need are lines of the net.
pub(crate) fn needed_lines_exist()
    ensures { (x : OperationNet) (piece i line : ℕ) → IsOperationNet x → piece < (graph_in x.net).nodes → i < operation_count x piece → x.needs piece i line ≡ true → line < x.net.routing.lines }
{
    needs_are_numbered();
    pieces_touch_needed_lines();
}

/// The operations of a piece fit their program, and write no more than the longest line has room for.
pub(crate) fn operations_fit()
    ensures fits { (x : OperationNet) (piece i : ℕ) → IsOperationNet x → i < operation_count x piece → OperationFits x.net.program (operation_at x piece i) }
    ensures room { (x : OperationNet) (piece i : ℕ) → IsOperationNet x → piece < (graph_in x.net).nodes → i < operation_count x piece → work_room (operation_at x piece i).work ≤ most_room x.net.program.execs }
{
    operations_fit_their_programs();
    pieces_have_operations();
}

/// The nodes of a net and its operations can be numbered: there are at most 160,008 pieces with 500 operations each, and 1,024 lines.
pub(crate) fn plans_can_be_numbered<const W: usize>(plan: &OperationPlan<W>)
    ensures operations { (piece : ℕ) → piece < (graph_in (operations_in plan.now).net).nodes → operation_count (operations_in plan.now) piece ≤ 500 }
    ensures nodes { (n : ℕ) → n ≤ (graph_in (operations_in plan.now).net).nodes → length (operation_nodes_below (operations_in plan.now) n) < 2 ^ 32 }
    ensures rows { (n : ℕ) → n ≤ (graph_in (operations_in plan.now).net).nodes → rows_before (operations_in plan.now) n < 2 ^ 32 }
{
    pieces_are_few();
}
