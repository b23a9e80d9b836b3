//! What is told of a cause.

ghost use Rattle.std.specs.Prelude.{◌≡◌, Some};
ghost use Rattle.trap_reports.specs.Words.{instead as instead_of, operator_instead as operator_instead_of, operator_wrong as operator_wrong_of, outside_text};

use op_table::Op;
use std::fmt;
use sure_traps::Cause;

const DIVISOR: &str = "a division by 0";

const MODULUS: &str = "the second argument of MOD is 0";

const POWER: &str = "0 is raised to a negative power";

const STEP: &str = "the step of a DO is 0";

const OVERFLOW: &str = "a value of constants isn't from -2147483648 to 2147483647";

const OTHER_DIVISOR: &str = "Divide by another number, or by a variable that isn't 0 there.";

const OTHER_POWER: &str = "Write an exponent of 0 or more, or another base.";

const OTHER_STEP: &str = "Write another step, or none: without one it is 1.";

const OTHER_VALUE: &str = "Keep each value within these bounds.";

const OTHER_SUBSCRIPT: &str = "Write a subscript within the bounds, or declare wider ones.";

/// What is wrong where an operator traps.
pub(crate) fn operator_wrong(op: Op) -> &'static str
    ensures { result.now ≡ operator_wrong_of op }
{
    match op {
        Op::Div => DIVISOR,
        Op::Mod => MODULUS,
        Op::Pow => POWER,
        Op::Step => STEP,
        _ => OVERFLOW,
    }
}

// What to write instead where an operator traps.
fn operator_instead(op: Op) -> &'static str
    ensures { result.now ≡ operator_instead_of op }
{
    match op {
        Op::Div | Op::Mod => OTHER_DIVISOR,
        Op::Pow => OTHER_POWER,
        Op::Step => OTHER_STEP,
        _ => OTHER_VALUE,
    }
}

/// What to write instead.
pub(crate) fn instead(cause: Cause) -> &'static str
    ensures { result.now ≡ instead_of cause }
{
    match cause {
        Cause::Operator(op) => operator_instead(op),
        Cause::Subscript { .. } => OTHER_SUBSCRIPT,
    }
}

/// A subscript outside the bounds of its dimension, in decimal.
#[derive(Clone, Copy)]
pub(crate) struct Outside<'v, 'l, 'h> {
    pub(crate) value: &'v str,
    pub(crate) low: &'l str,
    pub(crate) high: &'h str,
}

impl fmt::Display for Outside<'_, '_, '_> {
    ghost output = { λ o. Some (outside_text o.value.now o.low.now o.high.now) };

    fn fmt<W: fmt::Write>(&self, f: &mut fmt::Formatter<W>) -> fmt::Result {
        let Outside { value, low, high } = *self;
        write!(f, "a subscript is {value}, outside the bounds {low}:{high}")
    }
}
