//! Why a statement traps whenever it is executed.

ghost use Rattle.std.specs.Prelude.{◌≡◌, is_some, length};
ghost use Rattle.std.specs.List.{list_all};
ghost use Rattle.op_table.specs.Operators.{arity_of};
ghost use Rattle.sure_traps.specs.Causes.{bound_cause as bound_cause_of, divides as divides_of, divides_by_zero as divides_by_zero_of, has_no_value as has_no_value_of, operator_cause as operator_cause_of};

use f77_tree::Dim;
use op_table::{Op, fold};

/// Why a statement traps whenever it is executed.
#[derive(Clone, Copy, Debug, PartialEq, Eq)]
pub enum Cause {
    /// An operator traps at what is known of its operands.
    Operator(Op),
    /// A subscript has a value outside the bounds of its dimension.
    Subscript { value: i32, dim: Dim },
}

/// A statement that traps whenever it is executed: its line in the source, counted from 1, and why.
#[derive(Clone, Copy, Debug, PartialEq, Eq)]
pub struct SureTrap {
    pub line: u32,
    pub cause: Cause,
}

/// What is seen of an expression before the program runs: its value, or none where it isn't known, and why the expression
/// traps in each run, if it does.
#[derive(Clone, Copy, Debug, PartialEq, Eq)]
pub struct Sight {
    pub value: Option<i32>,
    pub cause: Option<Cause>,
}

// Whether an operator divides by its second operand.
fn divides(op: Op) -> bool
    ensures { result ≡ divides_of op }
{
    matches!(op, Op::Div | Op::Mod)
}

// Whether an operator divides by an operand that is known to be 0.
fn divides_by_zero(op: Op, known: &[Option<i32>]) -> bool
    ensures { result ≡ divides_by_zero_of op known.now }
{
    match known {
        [_, Some(0)] => divides(op),
        _ => false,
    }
}

/// Why an operator traps, where what is known of its operands makes it sure.
pub(crate) fn operator_cause(op: Op, known: &[Option<i32>]) -> Option<Cause>
    requires { length known.now ≡ arity_of op }
    ensures { result ≡ operator_cause_of op known.now }
{
    if has_no_value(op, known) || divides_by_zero(op, known) {
        Some(Cause::Operator(op))
    } else {
        None
    }
}

// Whether an operator has no value at operands that are all known.
fn has_no_value(op: Op, known: &[Option<i32>]) -> bool
    requires { length known.now ≡ arity_of op }
    ensures { result ≡ has_no_value_of op known.now }
{
    are_known(known) && fold(op, known).is_none()
}

// Whether all operands are known.
fn are_known(known: &[Option<i32>]) -> bool
    ensures { result ≡ list_all is_some known.now }
{
    known.iter().all(|operand| operand.is_some())
}

/// Why a subscript of a dimension traps, where its value is known to lie outside the bounds.
pub(crate) fn bound_cause(dim: Dim, known: Option<i32>) -> Option<Cause>
    ensures { result ≡ bound_cause_of dim known }
{
    match known {
        Some(value) if value < dim.lo || dim.hi < value => Some(Cause::Subscript { value, dim }),
        _ => None,
    }
}
