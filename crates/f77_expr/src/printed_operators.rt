//! Operators as they are printed.

ghost use Rattle.std.specs.Prelude.{◌≡◌};
ghost use Rattle.f77_expr.specs.Operands.{printed_level as level_as_printed};
ghost use Rattle.f77_expr.specs.Printing.{plain as plain_of};

use crate::operators::levels_of;
use op_table::Op;

/// The operator that a checked one is where nothing overflows, which is written alike. Any other is itself.
pub(crate) fn plain(op: Op) -> Op
    ensures { result ≡ plain_of op }
{
    match op {
        Op::AddChecked => Op::Add,
        Op::SubChecked => Op::Sub,
        Op::MulChecked => Op::Mul,
        Op::NegChecked => Op::Neg,
        Op::AbsChecked => Op::Abs,
        Op::PowChecked => Op::Pow,
        _ => op,
    }
}

/// The level of an operator at its operands, as it is printed: a sign has the level of a sum, and a call is a primary.
pub(crate) fn printed_level(op: Op) -> u8
    ensures { result ≡ level_as_printed (plain_of op) }
{
    let op = plain(op);
    match op {
        Op::Neg => 5,
        Op::Not => 3,
        Op::Mod | Op::Abs | Op::Sign | Op::Max | Op::Min => 8,
        _ => levels_of(op).own,
    }
}
