use op_table::Trap;

/// The name of a node that fires.
#[derive(Clone, Copy, Debug, PartialEq, Eq)]
pub enum NodeName {
    /// An operation of a piece.
    Operation {
        /// The number of its piece.
        piece: u32,
        /// Its number within the piece.
        number: u32,
    },
    /// It leads a line on where edges part.
    Switch {
        /// The number of its piece.
        piece: u32,
        /// The line.
        line: u32,
    },
    /// It leads a line on where edges come together.
    Merge {
        /// The number of its piece.
        piece: u32,
        /// The line.
        line: u32,
    },
}

/// A node that fired.
#[derive(Clone, Copy, Debug, PartialEq, Eq)]
pub struct Firing {
    /// The number of the node.
    pub node: u32,
    /// Its name.
    pub name: NodeName,
}

/// Why nothing fired any more.
#[derive(Clone, Copy, Debug, PartialEq, Eq)]
pub enum TraceEnd {
    /// No node was ready.
    Rest,
    /// The program trapped.
    Trapped {
        /// Why it could not go on.
        trap: Trap,
        /// The line of the source.
        line: u32,
    },
    /// This many nodes had fired, and no more were to.
    Limit(u64),
}

/// What `dfc trace` prints.
#[derive(Debug, Drop)]
pub struct PrintedTrace {
    /// The nodes that fired, in their order.
    pub firings: Vec<Firing>,
    /// Why nothing fired after them.
    pub end: TraceEnd,
}
