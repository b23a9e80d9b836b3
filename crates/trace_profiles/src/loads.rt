/// In which order the loads of a line of tokens fire.
#[derive(Clone, Copy, Debug, PartialEq, Eq)]
pub enum Loads {
    /// One after another.
    InOrder,
    /// In any order, wherever no other node of the line stands between them.
    InAnyOrder,
}
