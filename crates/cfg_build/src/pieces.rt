//! What stands at the nodes of a flow graph.

/// What control does at a piece.
#[derive(Clone, Copy, Debug, PartialEq, Eq)]
pub enum PieceKind {
    /// Where control begins.
    Start,
    /// Runs an assignment, an output, or the beginning or the increment of a DO, and goes on.
    Act,
    /// Goes on.
    Pass,
    /// Goes on by a condition, a sign, a number, or the count of a DO.
    Branch,
    /// Goes on from wherever control came.
    Join,
    /// Goes on, and never leaves for the end: it stands where control can't come to the end.
    Hold,
    /// Where control ends.
    End,
}

/// A node of a flow graph.
#[derive(Clone, Copy, Debug, PartialEq, Eq)]
pub struct Piece {
    /// What control does at it.
    pub kind: PieceKind,
    /// The line of its statement in the source, or 0 for the start.
    pub line: u32,
    /// The executable that it is a part of. The start, a join and a hold have the one that they stand before.
    pub exec: u32,
}
