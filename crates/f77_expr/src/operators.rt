//! What stands at the beginning of a text: operators, signs, .NOT. and logical constants.

ghost use Rattle.std.specs.Prelude.{◌≡◌};
ghost use Rattle.f77_tree.specs.Grammar.{Written, symbol as spec_symbol, operator_level, left_level, right_level};
ghost use Rattle.f77_expr.specs.Reader.{read_as, operator_at as spec_operator_at, prefix_at as spec_prefix_at, operand_level as spec_operand_level, truth_at as spec_truth_at};
ghost use Rattle.f77_expr.specs.Answers.{seen, meant, allowed, begins_operator as spec_begins_operator, sign_at as spec_sign_at, prefix_level as spec_prefix_level};

use crate::characters::after_prefix;
use op_table::Op;

/// What may stand before an operand (ANSI X3.9-1978, sections 6.1.4 and 6.4.2).
#[derive(Clone, Copy, Debug, PartialEq, Eq)]
pub(crate) enum Prefix {
    Plus,
    Minus,
    Negation,
}

// The operators between operands. `**` stands before `*`, since it begins with it.
const OPERATORS: [Op; 15] = [
    Op::Pow,
    Op::Mul,
    Op::Div,
    Op::Add,
    Op::Sub,
    Op::Lt,
    Op::Le,
    Op::Eq,
    Op::Ne,
    Op::Ge,
    Op::Gt,
    Op::And,
    Op::Or,
    Op::Eqv,
    Op::Neqv,
];

/// How an operator between two operands is written.
pub(crate) fn symbol(op: Op) -> &'static [u8]
    ensures { result.now ≡ spec_symbol op }
{
    match op {
        Op::Add => b"+",
        Op::Sub => b"-",
        Op::Mul => b"*",
        Op::Div => b"/",
        Op::Pow => b"**",
        Op::Lt => b".LT.",
        Op::Le => b".LE.",
        Op::Eq => b".EQ.",
        Op::Ne => b".NE.",
        Op::Ge => b".GE.",
        Op::Gt => b".GT.",
        Op::And => b".AND.",
        Op::Or => b".OR.",
        Op::Eqv => b".EQV.",
        Op::Neqv => b".NEQV.",
        _ => b"",
    }
}

/// The levels of an operator between two operands: its own, and the least ones of the operands on its left and right.
/// Operators that bind less have a lower level.
#[derive(Clone, Copy, Debug, PartialEq, Eq)]
pub(crate) struct Levels {
    pub(crate) own: u8,
    pub(crate) left: u8,
    pub(crate) right: u8,
}

// An operator of the level `own` is grouped with operands of at least these levels.
fn grouped(own: u8, left: u8, right: u8) -> Levels
    ensures { result ≡ record { own = own; left = left; right = right } }
{
    Levels { own, left, right }
}

/// The levels of an operator between two operands. A chain of one level is grouped from the left, but relations make no
/// chain, and powers are grouped from the right (ANSI X3.9-1978, sections 6.1.2 and 6.3.1).
pub(crate) fn levels_of(op: Op) -> Levels
    ensures own { result.own ≡ operator_level op }
    ensures left { result.left ≡ left_level op }
    ensures right { result.right ≡ right_level op }
{
    match op {
        Op::Eqv | Op::Neqv => grouped(0, 0, 1),
        Op::Or => grouped(1, 1, 2),
        Op::And => grouped(2, 2, 3),
        Op::Lt | Op::Le | Op::Eq | Op::Ne | Op::Ge | Op::Gt => grouped(4, 5, 5),
        Op::Add | Op::Sub => grouped(5, 5, 6),
        Op::Mul | Op::Div => grouped(6, 6, 7),
        Op::Pow => grouped(7, 8, 7),
        _ => grouped(9, 9, 9),
    }
}

/// Whether a text begins with the first character of some operator between operands.
fn begins_operator(text: &[u8]) -> bool
    ensures { result ≡ spec_begins_operator text.now }
{
    match text.first() {
        Some(c) => matches!(*c, b'*' | b'/' | b'+' | b'-' | b'.'),
        None => false,
    }
}

/// The first of the operators with which a text begins, and the text after it.
fn first_operator(text: &[u8]) -> Option<(Op, &[u8])>
    ensures { seen result ≡ spec_operator_at text.now }
{
    for op in &OPERATORS {
        if let Some(rest) = after_prefix(text, symbol(*op)) {
            return Some((*op, rest));
        }
    }
    None
}

/// The operator between operands with which a text begins, and the text after it. After most operands there is none,
/// which the first character tells.
#[tactic(auto, using(crate::proofs::Parts::no_operator))]
fn operator_at(text: &[u8]) -> Option<(Op, &[u8])>
    ensures { seen result ≡ spec_operator_at text.now }
{
    if begins_operator(text) {
        first_operator(text)
    } else {
        None
    }
}

/// The operator with which a text begins, where it may stand after an operand of this level in an expression of at least
/// the level `least`, and the text after it.
pub(crate) fn operator_after(text: &[u8], least: u8, level: u8) -> Option<(Op, &[u8])>
    ensures { seen result ≡ allowed least level (spec_operator_at text.now) }
{
    let (op, rest) = operator_at(text)?;
    let levels = levels_of(op);
    if least <= levels.own && levels.left <= level {
        Some((op, rest))
    } else {
        None
    }
}

/// The sign with which a text begins, and the text after it.
fn sign_at(text: &[u8]) -> Option<(Prefix, &[u8])>
    ensures { read_as meant (seen result) ≡ spec_sign_at text.now }
{
    if let Some(rest) = after_prefix(text, b"+") {
        return Some((Prefix::Plus, rest));
    }
    let rest = after_prefix(text, b"-")?;
    Some((Prefix::Minus, rest))
}

/// The prefix with which a text begins, where an expression of the level `least` or a higher one may begin with it, and
/// the text after it.
pub(crate) fn prefix_at(text: &[u8], least: u8) -> Option<(Prefix, &[u8])>
    ensures { read_as meant (seen result) ≡ spec_prefix_at least text.now }
{
    if least <= 3 {
        if let Some(rest) = after_prefix(text, b".NOT.") {
            return Some((Prefix::Negation, rest));
        }
    }
    if least <= 5 { sign_at(text) } else { None }
}

/// The least level of a prefix's operand. A sign stands before a whole term.
pub(crate) fn operand_level(prefix: Prefix) -> u8
    ensures { result ≡ spec_operand_level (meant prefix) }
{
    match prefix {
        Prefix::Plus | Prefix::Minus => 6,
        Prefix::Negation => 4,
    }
}

/// The level of an expression that begins with a prefix.
pub(crate) fn prefix_level(prefix: Prefix) -> u8
    ensures { result ≡ spec_prefix_level prefix }
{
    match prefix {
        Prefix::Plus | Prefix::Minus => 5,
        Prefix::Negation => 3,
    }
}

/// The logical constant with which a text begins, and the text after it.
pub(crate) fn truth_at(text: &[u8]) -> Option<(bool, &[u8])>
    ensures { read_as Written.truth (seen result) ≡ spec_truth_at text.now }
{
    if let Some(rest) = after_prefix(text, b".TRUE.") {
        return Some((true, rest));
    }
    let rest = after_prefix(text, b".FALSE.")?;
    Some((false, rest))
}
