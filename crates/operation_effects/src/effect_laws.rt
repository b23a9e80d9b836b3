//! Laws of the operations of pieces, as contracts of functions that do nothing.

ghost use Rattle.operation_effects.specs.Works.{OperationsFit};

/// The operations of a piece whose executable fits a program fit it too, and have as many operands as they take.
pub fn operations_fit_their_programs()
    ensures { OperationsFit }
{}
