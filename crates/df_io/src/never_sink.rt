use crate::{Failed, Sink};
use std::marker::Model;

/// A sink that takes all bytes and keeps none: only how many there were. It never fails, and its count of faults is 0
/// for good. So no call over it can blame the sink.
#[derive(Debug, Drop)]
pub struct NeverSink {
    count: u64,
}

impl Model for NeverSink {
    ghost use Rattle.std.specs.Prelude.{ℕ};

    ghost Value = { ℕ };

    ghost view = { λ s. s.count };
}

impl NeverSink {
    ghost use Rattle.std.specs.Prelude.{◌≡◌};

    /// A sink that has taken no byte. It is seen as the number of bytes that it has taken.
    pub fn new() -> NeverSink
        ensures { result ≡ 0 }
    {
        NeverSink { count: 0 }
    }

    /// How many bytes it has taken. The number stands still at the last value of 64 bits.
    pub fn count(&self) -> u64
        ensures { result ≡ self.now }
    {
        self.count
    }
}

impl Sink for NeverSink {
    ghost use Rattle.std.specs.Prelude.{◌≡◌, ◌+◌, ◌-◌, ◌^◌, ◌<◌, ◌≤◌, IfOk, OnErr, Ok, None, length, min};
    ghost use Rattle.std.specs.Io.KnownBytes.{WriteAppends};
    ghost use Rattle.df_io.specs.Faults.{Rose};

    ghost got = { λ _. None };

    ghost faults = { λ _. 0 };

    /// Takes all the bytes.
    fn write(&mut self, from: &[u8]) -> Result<usize, Failed>
        ensures answer { result ≡ Ok (length from.now) }
        ensures after { self.new ≡ min (self.old + length from.now) (2 ^ 64 - 1) }

        // What every sink ensures.
        ensures bound { IfOk result (λ n. n ≤ length from.now) }
        ensures some { IfOk result (λ n. 0 < length from.now → 0 < n) }
        ensures bytes { WriteAppends None None result from.now }
        ensures later { 0 ≤ 0 }
        ensures fault { OnErr result (Rose 0 0) }
    {
        let n = from.len();
        self.count = self.count.saturating_add(n as u64);
        Ok(n)
    }
}
