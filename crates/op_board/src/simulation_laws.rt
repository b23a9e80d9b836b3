//! Laws of the own order of nets of operations beside the runs of their programs, as contracts of functions that do nothing.

ghost use Rattle.std.specs.Prelude.{ℕ, List};
ghost use Rattle.firing.specs.Control.{KeepsStep};
ghost use Rattle.firing.specs.SourceOrder.{IsSourceOrder};
ghost use Rattle.net_board.specs.ControlCourse.{first_control};
ghost use Rattle.op_board.specs.OperationCourse.{operation_course};
ghost use Rattle.op_board.specs.OperationLockstep.{IsInOperationLockstep};
ghost use Rattle.op_board.specs.OperationNets.{OperationNet};
ghost use Rattle.op_board.specs.OperationSimulation.{AreDueInTurn, AreFewOperations, HasProgramMemory, HasTokensAfter, OperationsRestAtEnd, OperationsSimulate};
ghost use Rattle.op_board.specs.OperationTokens.{first_operation_tokens, operation_moves};
ghost use Rattle.op_board.specs.OrderFacts.{OrderFacts};
ghost use Rattle.op_board.specs.SoundOperationNets.{IsOperationNet, OperationsCanCome};
ghost use Rattle.op_board.specs.WholePieces.{PassesWhole};

use crate::operation_laws::{operation_nets_begin_soundly, operation_nets_keep_the_laws};
use crate::structure_laws::{operations_have_facts, pieces_have_operations};
use cfg_build::{
    chains_lead_to_successors, passes_follow_steps, passes_hold_words, passes_lie_within_steps,
};
use closed_walks::{endless_ways_meet_cycles, reaching_is_told};
use f77_tree::executables_lead_to_successors;
use net_board::{nets_begin_soundly, nets_simulate_programs, nets_stay_in_lockstep};

/// A control that keeps step with the passes of a program stays in step where the node that is due fires, and such a node can
/// fire; where none is due, none can. It is in step where it begins.
pub fn operation_nets_stay_in_lockstep()
    ensures begins { (x : OperationNet) → IsOperationNet x → IsInOperationLockstep x (first_operation_tokens x) (first_control x.net) }
    ensures steady { (x : OperationNet) → KeepsStep (OperationsCanCome x) (operation_moves x) (operation_course x) (IsInOperationLockstep x) }
    ensures ordered { (x : OperationNet) → IsSourceOrder (OperationsCanCome x) (operation_moves x) (operation_course x) (IsInOperationLockstep x) }
{
    nets_stay_in_lockstep();
    runs_ground_orders();
}

/// The source's own order of a net of operations stays in lockstep with the steps of its program. Its firings are due one after
/// another. For each step there are five for each line at most, and one for each operation that a statement may ask. After the
/// firings of so many steps the memory is that after the steps, and as long as nothing has trapped the tokens are those of the net of
/// statements. Whatever the order in which nodes fire, where none may fire any more and nothing has trapped, each token line is on
/// edge 0, and no value waits to be taken.
pub fn operation_nets_simulate_programs()
    ensures simulated { (x : OperationNet) → IsOperationNet x → OperationsSimulate x }
    ensures due { (x : OperationNet) → IsOperationNet x → (steps : ℕ) → AreDueInTurn x steps }
    ensures few { (x : OperationNet) → IsOperationNet x → (steps : ℕ) → AreFewOperations x steps }
    ensures tokens { (x : OperationNet) → IsOperationNet x → (steps : ℕ) → HasTokensAfter x steps }
    ensures memory { (x : OperationNet) → IsOperationNet x → (steps : ℕ) → HasProgramMemory x steps }
    ensures rests { (x : OperationNet) → IsOperationNet x → (ks : List ℕ) → OperationsRestAtEnd x ks }
{
    nets_simulate_programs();
    operation_nets_keep_the_laws();
    operation_nets_begin_soundly();
    runs_ground_orders();
}

/// Where control comes to a piece other than the end, and each of its operations can be performed without a trap, all nodes of the
/// piece fire one after another in the source's own order. None but the last of them writes a line, which is that of the piece's last
/// operation. After them the lines that they move are led along the edge that this operation tells, and control goes on along it.
pub fn operation_nets_pass_pieces_whole()
    ensures { (x : OperationNet) → IsOperationNet x → PassesWhole x }
{
    runs_ground_orders();
}

// What lower layers tell of the run of a program.
fn runs_ground_orders()
    ensures { (x : OperationNet) → IsOperationNet x → OrderFacts x }
{
    operations_have_facts();
    pieces_have_operations();
    nets_begin_soundly();
    nets_simulate_programs();
    passes_hold_words();
    passes_follow_steps();
    passes_lie_within_steps();
    chains_lead_to_successors();
    reaching_is_told();
    endless_ways_meet_cycles();
    executables_lead_to_successors();
}
