use df_sequence::{LabelList, Sequence};
use f77_tree::{Access, Expr, ItemList};

/// The statements of a flat program, in the order of the text. Contracts see it as the list of its lines.
pub type FlatList = Sequence<FlatLine>;

/// A statement of a flat program. A name is an index into the table of names. The places to which statements lead are marks, which
/// are numbered from 1 in the order of the text; the number of a mark is the label that is printed in front of it.
#[derive(Drop)]
pub enum Flat {
    /// CONTINUE, with its label.
    Mark,
    /// An assignment, or READ of one item where the value takes data (ANSI X3.9-1978, sections 10 and 12.8).
    Assignment {
        target: Access,
        value: Expr,
    },
    /// PRINT (ANSI X3.9-1978, section 12).
    Output {
        items: ItemList,
    },
    /// A logical IF with a GO TO: it leads to a mark where the condition is true (ANSI X3.9-1978, section 11.5).
    LogicalIf {
        cond: Expr,
        target: u32,
    },
    /// An arithmetic IF: it leads to a mark by the sign of the value (ANSI X3.9-1978, section 11.4).
    ArithmeticIf {
        value: Expr,
        below: u32,
        at: u32,
        above: u32,
    },
    /// A computed GO TO: it leads to the mark that the value counts, or goes on (ANSI X3.9-1978, section 11.2).
    ComputedGoTo {
        value: Expr,
        targets: LabelList,
    },
    /// A DO, whose range ends at a mark behind it (ANSI X3.9-1978, section 11.10).
    DoLoop {
        end: u32,
        var: u32,
        first: Expr,
        last: Expr,
        step: Expr,
    },
    /// GO TO a mark (ANSI X3.9-1978, section 11.1).
    Jump {
        target: u32,
    },
    /// END.
    Finish,
}

/// A flat statement, with the line of the source that it comes from, counted from 1.
#[derive(Drop)]
pub struct FlatLine {
    pub line: u32,
    pub stmt: Flat,
}
