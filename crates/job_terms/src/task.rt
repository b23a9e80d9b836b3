//! What is done with a program.

/// What is done with a program. Texts are written in ASCII.
#[derive(Clone, Copy, Debug, PartialEq, Eq)]
pub enum Task<'a> {
    /// The pieces, edges, classes and regions of its flow graph are written.
    Regions,
    /// The lines, nodes and wires of its net of operations are written.
    Graph,
    /// The game of its net of operations is played, and something told of it.
    Play(Told, Asked<'a>),
    /// The game of its net is played in which the loads of a group fire in any order, and its output written, or where this is true
    /// the nodes as they fire.
    Forks(bool, Asked<'a>),
    /// The text of its rewritten form is written.
    Regen,
    /// Its rewritten form is run, for so many steps at most, over these words for READ, and the output written.
    Run(u64, &'a Vec<i32>),
}

/// What is told of a game.
#[derive(Clone, Copy, Debug, PartialEq, Eq)]
pub enum Told {
    /// The output of the program.
    Output,
    /// The nodes as they fire.
    Nodes,
    /// The store after it, where it came to rest, and how many nodes fired.
    Store,
}

/// What a game is asked to do.
#[derive(Clone, Copy, Debug, PartialEq, Eq)]
pub struct Asked<'a> {
    /// The most firings.
    pub limit: u64,
    /// The picks that choose nodes, used over and over; none, and the source's own order does.
    pub picks: &'a [u32],
    /// The words that READ takes.
    pub input: &'a Vec<i32>,
}
