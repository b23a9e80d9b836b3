use crate::{CommonPartList, DeclList, GroupList, InitPartList, Kind, LetterRangeList, Name, Text};
use df_sequence::{Boxed, LabelList, Sequence};
use op_table::Op;

/// Expressions as read, one after another.
pub type RawList = Sequence<RawExpr>;

/// Items of output as read.
pub type RawItemList = Sequence<RawItem>;

/// Names, one after another.
pub type NameList = Sequence<Name>;

/// The statements of a program, in the order of the text.
pub type LabelledList = Sequence<Labelled>;

/// An expression as read. Brackets and a unary `+` leave no trace, and a name with arguments is a call, whether it is
/// an array's or an intrinsic's.
#[derive(Drop)]
pub enum RawExpr {
    Int(i32),
    Truth(bool),
    Named(Name),
    Call(Name, RawList),
    Apply(Op, RawList),
}

/// An item of output as read.
#[derive(Drop)]
pub enum RawItem {
    Value(RawExpr),
    Chars(Text),
}

/// A statement as read.
#[derive(Drop)]
pub enum Stmt {
    Program,
    Implicit(LetterRangeList),
    ImplicitNone,
    TypeOf(Kind, DeclList),
    Dimension(DeclList),
    Common(CommonPartList),
    Equivalence(GroupList),
    Init(InitPartList),
    Assign(RawExpr, RawExpr),
    Print(RawItemList),
    /// READ into these targets.
    Take(RawList),
    Continue,
    Stop,
    GoTo(u32),
    PickGoTo(LabelList, RawExpr),
    SignIf(RawExpr, u32, u32, u32),
    ThenIf(RawExpr, Boxed<Stmt>),
    BlockIf(RawExpr),
    ElseIf(RawExpr),
    Else,
    EndIf,
    Do(u32, Name, RawExpr, RawExpr, Option<RawExpr>),
    /// SUBROUTINE, its name and its dummy arguments.
    Sub(Name, NameList),
    /// CALL of the subroutine of this name with these arguments.
    CallTo(Name, NameList),
    /// RETURN.
    Back,
    End,
}

/// A statement with its label, 0 where it has none, and the line where it begins, counted from 1.
#[derive(Drop)]
pub struct Labelled {
    pub label: u32,
    pub line: u32,
    pub stmt: Stmt,
}
