//! Laws of the firings of nets of operations, as contracts of functions that do nothing.

ghost use Rattle.firing.specs.Laws.{IsLawful};
ghost use Rattle.op_board.specs.OperationNets.{OperationNet};
ghost use Rattle.op_board.specs.OperationTokens.{first_operation_tokens, operation_moves};
ghost use Rattle.op_board.specs.SoundOperationNets.{IsOperationNet, OperationsCanCome};

use net_board::nets_begin_soundly;

/// Nets of operations keep the laws of firing: of two nodes that may both fire, the firings commute (the diamond property).
pub fn operation_nets_keep_the_laws()
    ensures { (x : OperationNet) → IsLawful (OperationsCanCome x) (operation_moves x) }
{}

/// The marking of a net of operations before any firing is one that can come.
pub fn operation_nets_begin_soundly()
    ensures { (x : OperationNet) → IsOperationNet x → OperationsCanCome x (first_operation_tokens x) }
{
    nets_begin_soundly();
}
