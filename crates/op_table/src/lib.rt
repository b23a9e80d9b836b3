//! The operators of integer Fortran 77: their values, their traps, and what can be said of both where only some
//! operands are known. Sections are those of ANSI X3.9-1978.
//!
//! A word is a number from -2147483648 to 2147483647. A result that is no word wraps to the word that differs from it
//! by a multiple of 2 ^ 32. A word is true where it isn't 0, and a truth is 1 or 0. No call allocates memory.
#![tactic(auto)]

/// An operator. Besides those of expressions there are those of subscripts and branches, and the checked ones, which
/// trap where a plain one would wrap.
#[derive(Clone, Copy, Debug, PartialEq, Eq)]
pub enum Op {
    /// a + b (section 6.1).
    Add,
    /// a - b.
    Sub,
    /// a * b.
    Mul,
    /// a / b, cut towards zero (section 6.1.5). Traps at b = 0.
    Div,
    /// a ** b, where a negative b means 1 / a ** (-b). Traps at a = 0 with a negative b.
    Pow,
    /// -a.
    Neg,
    /// a .LT. b (section 6.3).
    Lt,
    /// a .LE. b.
    Le,
    /// a .EQ. b.
    Eq,
    /// a .NE. b.
    Ne,
    /// a .GE. b.
    Ge,
    /// a .GT. b.
    Gt,
    /// .NOT. a (section 6.4).
    Not,
    /// a .AND. b, of which both are evaluated.
    And,
    /// a .OR. b, of which both are evaluated.
    Or,
    /// a .EQV. b.
    Eqv,
    /// a .NEQV. b.
    Neqv,
    /// MOD(a, b), which is a - a / b * b (section 15.10). Traps at b = 0.
    Mod,
    /// ABS(a).
    Abs,
    /// SIGN(a, b): the absolute value of a where b is 0 or more, else its negative.
    Sign,
    /// The greater of two.
    Max,
    /// The lesser of two.
    Min,
    /// The truth of a word, as a logical variable is read.
    Truth,
    /// v - low, for a subscript v of a dimension low:high (section 5.4). Traps where v lies outside.
    Bound,
    /// p + d * size: a place, moved by d parts of so many words each.
    Place,
    /// 0, 1 or 2 where a is negative, zero or positive, as an arithmetic IF branches (section 11.4).
    Three,
    /// v - 1 where v is one of 1 to n, else n, as a computed GO TO branches (section 11.2).
    Pick,
    /// The step of a DO (section 11.10). Traps at 0.
    Step,
    /// a + b, which traps where it is no word.
    AddChecked,
    /// a - b, which traps where it is no word.
    SubChecked,
    /// a * b, which traps where it is no word.
    MulChecked,
    /// -a, which traps where it is no word.
    NegChecked,
    /// ABS(a), which traps where it is no word.
    AbsChecked,
    /// a ** b, which traps where it is no word, and otherwise where `Pow` does.
    PowChecked,
}

/// Why a program cannot go on.
#[derive(Clone, Copy, Debug, PartialEq, Eq)]
pub enum Trap {
    /// A division by zero, or a negative power of zero.
    Divide,
    /// A subscript outside its dimension.
    Subscript,
    /// A DO with a step of 0.
    Step,
    /// A READ with no data left. No operator traps so.
    Input,
    /// A result of a checked operator that is no word.
    Overflow,
}

mod risks;
mod table;
mod trips;
mod values;
mod words;

pub use table::{apply, arity, fold, may_trap};
pub use trips::do_count;
