/// What a piece of a program does.
#[derive(Clone, Copy, Debug, PartialEq, Eq)]
pub enum PieceKind {
    /// It comes before the first executable.
    Start,
    /// It reads and changes words.
    Act,
    /// It chooses between edges.
    Branch,
    /// Edges come together before a piece.
    Join,
    /// It only goes on.
    Pass,
    /// It leads to END from a loop that could not reach it.
    Hold,
    /// It comes last.
    End,
}

/// A piece of a program, a node of its flow graph.
#[derive(Clone, Copy, Debug, PartialEq, Eq)]
pub struct Piece {
    /// What it does.
    pub kind: PieceKind,
    /// The line of its statement in the source.
    pub line: u32,
}

/// An edge of a flow graph.
#[derive(Clone, Copy, Debug, PartialEq, Eq)]
pub struct Edge {
    /// The number of the piece at which it begins.
    pub from: u32,
    /// The number of the piece at which it ends.
    pub to: u32,
    /// The number of its class of cycle equivalence, counted from 0.
    pub class: u32,
}

/// A region of a flow graph.
#[derive(Clone, Copy, Debug, PartialEq, Eq)]
pub struct Region {
    /// The edge by which it is entered.
    pub entry: u32,
    /// The edge by which it is left.
    pub exit: u32,
    /// The smallest region around it, counted from 1, or 0 where there is none.
    pub parent: u32,
}

/// What `dfc regions` prints. Pieces and edges have their places in the lists as numbers, counted from 0, and regions
/// theirs counted from 1.
#[derive(Debug, Drop)]
pub struct PrintedFlow {
    /// How many classes of edges there are.
    pub classes: u32,
    /// The pieces.
    pub pieces: Vec<Piece>,
    /// The edges.
    pub edges: Vec<Edge>,
    /// The regions.
    pub regions: Vec<Region>,
}
