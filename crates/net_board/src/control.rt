/// A place in a program's own order of firing.
#[derive(Clone, Copy, Debug, PartialEq, Eq)]
pub struct Control {
    /// The piece to which control has come.
    pub piece: u32,
    /// How many of its nodes have fired since.
    pub fired: u32,
    /// The edge by which control leaves it, once one has fired.
    pub leaves: u32,
}
