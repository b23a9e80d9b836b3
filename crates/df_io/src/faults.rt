/// A source or a sink failed. Its count of faults tells so too.
#[derive(Clone, Copy, Debug, PartialEq, Eq)]
pub struct Failed;
