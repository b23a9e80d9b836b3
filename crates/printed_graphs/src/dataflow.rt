ghost use Rattle.std.specs.Prelude.{◌≡◌};
ghost use Rattle.printed_graphs.specs.Nodes.{piece_of};

use op_table::Op;

/// A line that tokens move on.
#[derive(Debug, Drop)]
pub enum TokenLine {
    /// The line of output.
    Output,
    /// A class of words, with the names that have a word of it.
    Class(Vec<Vec<u8>>),
    /// The count and the step of the DO at this line of the source.
    Loop(u32),
}

/// What an operation does.
#[derive(Clone, Copy, Debug, PartialEq, Eq)]
pub enum Work {
    /// It reads a word.
    Load,
    /// It applies an operator.
    Apply(Op),
    /// It writes a word.
    Store,
    /// It writes a line of output.
    Write,
    /// It begins a DO.
    Begin,
    /// It goes to the next round of a DO.
    Advance,
    /// It tells by which edge control leaves.
    Decide,
    /// It takes the next number of the data.
    Take,
}

/// A node of a dataflow graph. Its number is its place in the list of nodes, counted from 0.
#[derive(Debug, Drop)]
pub enum Node {
    /// An operation of a piece.
    Operation {
        /// The number of its piece.
        piece: u32,
        /// Its number within the piece, counted from 0.
        number: u32,
        /// What it does.
        work: Work,
        /// The lines that it needs.
        lines: Vec<u32>,
    },
    /// It leads a line on where edges part.
    Switch {
        /// The number of its piece.
        piece: u32,
        /// The line.
        line: u32,
    },
    /// It leads a line on where edges come together.
    Merge {
        /// The number of its piece.
        piece: u32,
        /// The line.
        line: u32,
    },
}

impl Node {
    /// The number of its piece.
    pub fn piece(&self) -> u32
        ensures { result ≡ piece_of self.now }
    {
        match self {
            Node::Operation { piece, .. } => *piece,
            Node::Switch { piece, .. } => *piece,
            Node::Merge { piece, .. } => *piece,
        }
    }
}

/// An operand of an operation.
#[derive(Clone, Copy, Debug, PartialEq, Eq)]
pub enum Operand {
    /// The value of the node with this number.
    From(u32),
    /// A value that is known before the program runs.
    Known(i32),
}

/// The operands of an operation that has some.
#[derive(Debug, Drop)]
pub struct Value {
    /// The number of its node.
    pub node: u32,
    /// Its operands.
    pub operands: Vec<Operand>,
}

/// The wires of a line. The number of the line is the place in the list of them.
#[derive(Debug, Drop)]
pub struct Wires {
    /// The edges of the flow graph that are wires of the line.
    pub edges: Vec<u32>,
}

/// A line that bypasses a region.
#[derive(Clone, Copy, Debug, PartialEq, Eq)]
pub struct Bypass {
    /// The line.
    pub line: u32,
    /// The edge that enters the region.
    pub edge: u32,
    /// The edge to which the line goes on.
    pub next: u32,
}

/// What `dfc graph` prints.
#[derive(Debug, Drop)]
pub struct PrintedGraph {
    /// The lines that tokens move on.
    pub lines: Vec<TokenLine>,
    /// The nodes.
    pub nodes: Vec<Node>,
    /// The operands of the operations that have some.
    pub values: Vec<Value>,
    /// The wires of each line.
    pub wires: Vec<Wires>,
    /// The regions that lines bypass.
    pub bypasses: Vec<Bypass>,
}
