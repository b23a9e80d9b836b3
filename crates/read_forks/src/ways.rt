//! Where a token line goes from a node.

/// Where a token line goes from a node that needs it.
#[derive(Clone, Copy, Debug, PartialEq, Eq)]
pub(crate) enum Way {
    /// To a load of the same piece, whose link this is.
    Here(usize),
    /// From a load along this edge to a load of another piece, whose link comes first.
    Over(usize, u32),
    /// To this node of the same piece, which is no load.
    Before(u32),
    /// From a load along this edge to this node, which is no load, or where that is the number of all nodes to none.
    Behind(u32, u32),
    /// From another node along the edge that its firing tells.
    Out,
}
