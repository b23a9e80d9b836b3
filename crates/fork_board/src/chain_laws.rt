//! Laws of groups of loads, as contracts of functions that do nothing.

ghost use Rattle.op_board.specs.OperationNets.{OperationNet};
ghost use Rattle.op_board.specs.SoundOperationNets.{IsOperationNet};
ghost use Rattle.fork_board.specs.Chains.{ComeOnce, GroupsEnd};
ghost use Rattle.fork_board.specs.Successors.{FollowOne, MeetSuccessors};

use dep_routing::{free_nodes, next_edges};
use net_board::{nets_begin_soundly, nets_simulate_programs};
use op_board::operations_have_facts;
use region_tree::{region_borders, start_is_outside};

/// Groups of loads are chains: along a token line no load comes a second time before another operation does. A circle of loads would
/// be one of acts and of regions that the line passes by, and no way would lead from it to the end.
pub fn loads_come_once()
    ensures { (x : OperationNet) → IsOperationNet x → ComeOnce x }
{
    nets_begin_soundly();
    nets_simulate_programs();
    operations_have_facts();
    region_borders();
    start_is_outside();
}

/// A group has all loads that follow: behind it no load stands.
pub fn groups_end()
    ensures { (x : OperationNet) → IsOperationNet x → GroupsEnd x }
{
    nets_begin_soundly();
    nets_simulate_programs();
    operations_have_facts();
    region_borders();
    start_is_outside();
}

/// The loads of a group are successors of one another: after a load a line stands before the next operation of the piece that needs it;
/// where there is none, the piece is an act, and the line stands before the first such operation of the next piece that it comes to.
pub fn loads_meet_successors()
    ensures { (x : OperationNet) → IsOperationNet x → MeetSuccessors x }
{
    nets_begin_soundly();
    nets_simulate_programs();
    operations_have_facts();
    region_borders();
    start_is_outside();
}

/// No operation is the successor of two loads: lists of loads that are successors of one another don't run together.
pub fn loads_follow_one()
    ensures { (x : OperationNet) → IsOperationNet x → FollowOne x }
{
    nets_begin_soundly();
    nets_simulate_programs();
    operations_have_facts();
    region_borders();
    start_is_outside();
    free_nodes();
    next_edges();
}
