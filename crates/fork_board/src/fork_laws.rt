//! Laws of the firings of nets with groups of loads, as contracts of functions that do nothing.

ghost use Rattle.firing.specs.Laws.{IsLawful};
ghost use Rattle.op_board.specs.OperationNets.{OperationNet};
ghost use Rattle.op_board.specs.SoundOperationNets.{IsOperationNet};
ghost use Rattle.fork_board.specs.ForkTokens.{first_fork_tokens, fork_moves};
ghost use Rattle.fork_board.specs.SoundForks.{ForksCanCome};

use op_board::operation_nets_begin_soundly;

/// Nets in which the loads of a group fire in any order keep the laws of firing: of two nodes that may both fire, the firings commute
/// (the diamond property), also of two loads of one group.
pub fn forks_keep_the_laws()
    ensures { (x : OperationNet) → IsLawful (ForksCanCome x) (fork_moves x) }
{}

/// The marking before any firing is one that can come.
pub fn forks_begin_soundly()
    ensures { (x : OperationNet) → IsOperationNet x → ForksCanCome x (first_fork_tokens x) }
{
    operation_nets_begin_soundly();
}
