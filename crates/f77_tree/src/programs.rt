use crate::{Access, AllCommonParts, AllGroups, AllInitParts, DimList, Expr, Kind, Name, Text};
use df_sequence::{LabelList, Sequence, WordList};

/// Items of output.
pub type ItemList = Sequence<Item>;

/// Executables, in the order of the text.
pub type ExecList = Sequence<Exec>;

/// The table of names, in the order in which they first appear.
pub type NameInfoList = Sequence<NameInfo>;

/// What PRINT writes.
#[derive(Drop)]
pub enum Item {
    /// An integer in decimal, or a truth as `T` or `F`.
    Value(Expr),
    /// A character constant.
    Chars(Text),
}

/// What an executable does. A successor is an index of an executable.
#[derive(Drop)]
pub enum ExecKind {
    /// Stores a value (ANSI X3.9-1978, section 10).
    Assign {
        target: Access,
        value: Expr,
        next: u32,
    },
    /// Writes a line (ANSI X3.9-1978, section 12).
    Print {
        items: ItemList,
        next: u32,
    },
    /// Goes on.
    Pass {
        next: u32,
    },
    /// Goes on by a truth (ANSI X3.9-1978, section 11.5).
    Test {
        cond: Expr,
        yes: u32,
        no: u32,
    },
    /// Goes on by a sign: the arithmetic IF (ANSI X3.9-1978, section 11.4).
    Sign {
        value: Expr,
        neg: u32,
        zero: u32,
        pos: u32,
    },
    /// Goes on by a number: the computed GO TO (ANSI X3.9-1978, section 11.2).
    Pick {
        value: Expr,
        targets: LabelList,
        other: u32,
    },
    /// Begins a DO (ANSI X3.9-1978, section 11.10.3).
    DoStart {
        loop_no: u32,
        var: u32,
        first: Expr,
        last: Expr,
        step: Expr,
        body: u32,
        exit: u32,
    },
    /// Increments a DO (ANSI X3.9-1978, section 11.10.7).
    DoNext {
        loop_no: u32,
        var: u32,
        body: u32,
        exit: u32,
    },
    /// Ends the run.
    End,
}

/// An executable, with its line in the source, counted from 1.
#[derive(Drop)]
pub struct Exec {
    pub line: u32,
    pub kind: ExecKind,
}

/// A name: its kind, its dimensions, and its first word of storage.
#[derive(Drop)]
pub struct NameInfo {
    pub name: Name,
    pub kind: Kind,
    pub dims: DimList,
    pub place: u32,
}

/// A program: its names, its words of storage with their initial values, the declarations that give them their places,
/// and its executables. The DOs are numbered from 0 in the order of the text.
#[derive(Drop)]
pub struct Program {
    pub names: NameInfoList,
    pub words: u32,
    pub initial: WordList,
    pub commons: AllCommonParts,
    pub groups: AllGroups,
    pub inits: AllInitParts,
    pub execs: ExecList,
    pub loops: u32,
}
