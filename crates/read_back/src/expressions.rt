//! Printed expressions.

ghost use Rattle.read_back.specs.ReadBack.{PrintedExpressionsKeepTheirKind, PrintedExpressionsAreThemselves};

/// The form that a printed expression is read as has the kind of the expression (ANSI X3.9-1978, section 6), so that none of its
/// operands, subscripts and arguments is wrong, and in the dialect of its operators it is taken for the expression itself, where no
/// array bears the name of an intrinsic function that may be printed.
pub fn printed_expressions_are_themselves()
    ensures kind { PrintedExpressionsKeepTheirKind }
    ensures tree { PrintedExpressionsAreThemselves }
{}
