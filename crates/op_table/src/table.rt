//! The table of operators, and what reads it.
ghost use Rattle.std.specs.Prelude.{◌≡◌, ◌↔◌, IsTrue, length};
ghost use Rattle.op_table.specs.Operators.{arity_of, applied};
ghost use Rattle.op_table.specs.Known.{CanTrap, folded};

use crate::{Op, Trap, risks, values};

// A row has the operator, how many operands it has, the function of its value, and whether it can trap. What reads the
// table makes of each row what it wants.
macro_rules! table {
    ($op:expr, $row:ident $(, $given:expr)*) => {
        match $op {
            Op::Add => $row!(Add two add never $(, $given)*),
            Op::Sub => $row!(Sub two subtract never $(, $given)*),
            Op::Mul => $row!(Mul two multiply never $(, $given)*),
            Op::Div => $row!(Div two divide traps $(, $given)*),
            Op::Pow => $row!(Pow two raise traps $(, $given)*),
            Op::Neg => $row!(Neg one negate never $(, $given)*),
            Op::Lt => $row!(Lt two less never $(, $given)*),
            Op::Le => $row!(Le two less_or_equal never $(, $given)*),
            Op::Eq => $row!(Eq two equal never $(, $given)*),
            Op::Ne => $row!(Ne two unequal never $(, $given)*),
            Op::Ge => $row!(Ge two greater_or_equal never $(, $given)*),
            Op::Gt => $row!(Gt two greater never $(, $given)*),
            Op::Not => $row!(Not one not never $(, $given)*),
            Op::And => $row!(And two and never $(, $given)*),
            Op::Or => $row!(Or two or never $(, $given)*),
            Op::Eqv => $row!(Eqv two equivalent never $(, $given)*),
            Op::Neqv => $row!(Neqv two different never $(, $given)*),
            Op::Mod => $row!(Mod two remainder traps $(, $given)*),
            Op::Abs => $row!(Abs one absolute never $(, $given)*),
            Op::Sign => $row!(Sign two with_sign never $(, $given)*),
            Op::Max => $row!(Max two larger never $(, $given)*),
            Op::Min => $row!(Min two smaller never $(, $given)*),
            Op::Truth => $row!(Truth one truth never $(, $given)*),
            Op::Bound => $row!(Bound three offset traps $(, $given)*),
            Op::Place => $row!(Place three place never $(, $given)*),
            Op::Three => $row!(Three one which_of_three never $(, $given)*),
            Op::Pick => $row!(Pick two pick never $(, $given)*),
            Op::Step => $row!(Step one step traps $(, $given)*),
            Op::AddChecked => $row!(AddChecked two add_checked traps $(, $given)*),
            Op::SubChecked => $row!(SubChecked two subtract_checked traps $(, $given)*),
            Op::MulChecked => $row!(MulChecked two multiply_checked traps $(, $given)*),
            Op::NegChecked => $row!(NegChecked one negate_checked traps $(, $given)*),
            Op::AbsChecked => $row!(AbsChecked one absolute_checked traps $(, $given)*),
            Op::PowChecked => $row!(PowChecked two raise_checked traps $(, $given)*),
        }
    };
}

macro_rules! operands {
    ($op:ident one $value:ident $risk:ident) => {
        1
    };
    ($op:ident two $value:ident $risk:ident) => {
        2
    };
    ($op:ident three $value:ident $risk:ident) => {
        3
    };
}

macro_rules! value {
    ($op:ident one $value:ident $risk:ident, $args:expr) => {
        values::$value($args[0])
    };
    ($op:ident two $value:ident $risk:ident, $args:expr) => {
        values::$value($args[0], $args[1])
    };
    ($op:ident three $value:ident $risk:ident, $args:expr) => {
        values::$value($args[0], $args[1], $args[2])
    };
}

macro_rules! risk {
    ($op:ident $count:ident $value:ident never, $known:expr) => {
        risks::never(Op::$op, $known)
    };
    ($op:ident one $value:ident traps, $known:expr) => {
        risks::$value($known[0])
    };
    ($op:ident two $value:ident traps, $known:expr) => {
        risks::$value($known[0], $known[1])
    };
    ($op:ident three $value:ident traps, $known:expr) => {
        risks::$value($known[0], $known[1], $known[2])
    };
}

macro_rules! known_value {
    ($op:ident one $value:ident $risk:ident, $known:expr) => {
        fold_one(Op::$op, $known)
    };
    ($op:ident two $value:ident $risk:ident, $known:expr) => {
        fold_two(Op::$op, $known)
    };
    ($op:ident three $value:ident $risk:ident, $known:expr) => {
        fold_three(Op::$op, $known)
    };
}

/// How many operands an operator has, from 1 to 3.
pub fn arity(op: Op) -> u32
    ensures { result ≡ arity_of op }
{
    table!(op, operands)
}

/// The value of an operator at its operands, or its trap. There are as many operands as `arity` says. A power takes
/// at most 62 products.
#[inline(always)]
pub fn apply(op: Op, args: &[i32]) -> Result<i32, Trap>
    requires { length args.now ≡ arity_of op }
    ensures { result ≡ applied op args.now }
{
    table!(op, value, args)
}

/// Whether an operator traps at some words that its operands may be: the number that is known of one, and any word
/// where none is. It takes a few comparisons, and no search.
pub fn may_trap(op: Op, known: &[Option<i32>]) -> bool
    requires { length known.now ≡ arity_of op }
    ensures { IsTrue result ↔ CanTrap op known.now }
{
    table!(op, risk, known)
}

/// The value of an operator where all its operands are known and it does not trap at them, else none.
pub fn fold(op: Op, known: &[Option<i32>]) -> Option<i32>
    requires { length known.now ≡ arity_of op }
    ensures { result ≡ folded op known.now }
{
    table!(op, known_value, known)
}

fn fold_one(op: Op, known: &[Option<i32>]) -> Option<i32>
    requires operands { length known.now ≡ 1 }
    requires arity { arity_of op ≡ 1 }
    ensures { result ≡ folded op known.now }
{
    let a = known[0]?;
    apply(op, &[a]).ok()
}

fn fold_two(op: Op, known: &[Option<i32>]) -> Option<i32>
    requires operands { length known.now ≡ 2 }
    requires arity { arity_of op ≡ 2 }
    ensures { result ≡ folded op known.now }
{
    let a = known[0]?;
    let b = known[1]?;
    apply(op, &[a, b]).ok()
}

fn fold_three(op: Op, known: &[Option<i32>]) -> Option<i32>
    requires operands { length known.now ≡ 3 }
    requires arity { arity_of op ≡ 3 }
    ensures { result ≡ folded op known.now }
{
    let a = known[0]?;
    let b = known[1]?;
    let c = known[2]?;
    apply(op, &[a, b, c]).ok()
}
