use df_sequence::Sequence;
use op_table::Op;

/// Expressions, one after another.
pub type ExprList = Sequence<Expr>;

/// An expression, whose names are indices into the table of names (ANSI X3.9-1978, section 6).
#[cycle(expression)]
#[derive(Drop)]
pub enum Expr {
    /// An integer constant.
    Const(i32),
    /// A logical constant.
    Truth(bool),
    /// The next word of the data, which READ takes.
    Input,
    /// The value of a variable or an array element.
    Read(Access),
    /// An operator at its operands, from left to right.
    Apply(Op, ExprList),
}

/// A variable, or an array element with its subscripts.
#[cycle(expression)]
#[derive(Drop)]
pub struct Access {
    /// The index of the name.
    pub name: u32,
    /// One expression for each dimension.
    pub subs: ExprList,
}
