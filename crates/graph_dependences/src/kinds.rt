/// What a dependence is.
#[derive(Clone, Copy, Debug, PartialEq, Eq, PartialOrd, Ord)]
pub enum Kind {
    /// The second sees what the first has made: true dependence.
    Flow,
    /// The second changes what the first sees: antidependence.
    Anti,
    /// Both change it: output dependence.
    Output,
    /// Both need the line of output, and one of them prints, reads, or may trap.
    Order,
    /// The first decides whether the second is executed: control dependence.
    Control,
}

/// Nodes which ways of token lines lead past.
#[derive(Clone, Copy, Debug, PartialEq, Eq)]
pub enum Passing {
    /// Those that need the line and don't change what it stands for.
    Readers,
    /// All nodes.
    All,
}
