/// Whose turn it is in the counters' own order: the feeder's, then the writer's or the trap's, then the counter's.
#[derive(Clone, Copy, Debug, PartialEq, Eq)]
pub enum Turn {
    /// The feeder's, with nothing left to take.
    Feed,
    /// That of the writer or, where no line may be written any more, of the node that traps.
    Write,
    /// The counter's.
    Count,
}

impl Turn {
    ghost use Rattle.std.specs.Prelude.{◌≡◌};
    ghost use Rattle.sample_nets.specs.Turns.{turn_after};

    // The turn after it.
    pub(crate) fn next(self) -> Turn
        ensures { result ≡ turn_after self }
    {
        match self {
            Turn::Feed => Turn::Write,
            Turn::Write => Turn::Count,
            Turn::Count => Turn::Feed,
        }
    }
}
