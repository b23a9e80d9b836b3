/// What is wrong with a text, and what to write instead.
#[derive(Clone, Copy, Debug, PartialEq, Eq)]
pub struct Advice {
    /// What is wrong: a clause without a full stop.
    pub wrong: &'static str,
    /// What to write instead: sentences.
    pub instead: &'static str,
}
