//! Laws of the game with groups of loads beside that of a net of operations and the run of its program, as contracts of functions that
//! do nothing.

ghost use Rattle.std.specs.Prelude.{ℕ};
ghost use Rattle.firing.specs.Control.{KeepsStep};
ghost use Rattle.firing.specs.SourceOrder.{IsSourceOrder};
ghost use Rattle.net_board.specs.ControlCourse.{first_control};
ghost use Rattle.op_board.specs.OperationNets.{OperationNet};
ghost use Rattle.op_board.specs.SoundOperationNets.{IsOperationNet};
ghost use Rattle.fork_board.specs.ForkLockstep.{IsInForkLockstep};
ghost use Rattle.fork_board.specs.ForkSimulation.{AreForksDue, ForksSimulate, OrdersAreForked};
ghost use Rattle.fork_board.specs.ForkTokens.{first_fork_tokens, fork_course, fork_moves};
ghost use Rattle.fork_board.specs.OwnRuns.{OwnRunsAlike};
ghost use Rattle.fork_board.specs.SoundForks.{ForksCanCome};

use crate::chain_laws::loads_come_once;
use net_board::nets_simulate_programs;
use op_board::{
    operation_nets_begin_soundly, operation_nets_simulate_programs,
    operation_nets_stay_in_lockstep, operations_have_facts,
};

/// Each order of a net of operations is an order of the game with groups of loads too, with the same text, trap and memory. So the
/// source's own order is, with the bounds that it has there: it stays in lockstep with the steps of the program, and its firings are
/// due one after another.
pub fn forks_simulate_programs()
    ensures forked { (x : OperationNet) → IsOperationNet x → OrdersAreForked x }
    ensures simulated { (x : OperationNet) → IsOperationNet x → ForksSimulate x }
    ensures due { (x : OperationNet) → IsOperationNet x → (steps : ℕ) → AreForksDue x steps }
{
    operation_nets_begin_soundly();
    operation_nets_simulate_programs();
    operations_have_facts();
    nets_simulate_programs();
    loads_come_once();
}

/// A control in lockstep with a net of operations, to whose marking an order leads, stays in lockstep where the node that is due fires,
/// and such a node can fire; where none is due, none can. It is in lockstep where it begins.
pub fn forks_stay_in_lockstep()
    ensures begins { (x : OperationNet) → IsOperationNet x → IsInForkLockstep x (first_fork_tokens x) (first_control x.net) }
    ensures steady { (x : OperationNet) → KeepsStep (ForksCanCome x) (fork_moves x) (fork_course x) (IsInForkLockstep x) }
    ensures ordered { (x : OperationNet) → IsSourceOrder (ForksCanCome x) (fork_moves x) (fork_course x) (IsInForkLockstep x) }
{
    operation_nets_begin_soundly();
    operation_nets_stay_in_lockstep();
    operation_nets_simulate_programs();
    operations_have_facts();
    nets_simulate_programs();
    loads_come_once();
}

/// In the source's own order the game with groups of loads fires the nodes that a net of operations fires: where that has a run, this
/// has one of as many firings, with the same end, and the same is shown of it, the nodes or the output.
pub fn own_runs_are_alike()
    ensures { (x : OperationNet) → IsOperationNet x → OwnRunsAlike x }
{
    operation_nets_begin_soundly();
    operation_nets_stay_in_lockstep();
    operation_nets_simulate_programs();
    operations_have_facts();
    nets_simulate_programs();
    loads_come_once();
}
