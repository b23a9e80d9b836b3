ghost use Rattle.std.specs.Prelude.{ℕ, ◌<◌, ◌≤◌, List, Option, IfOk, OnErr, length};
ghost use Rattle.std.specs.Io.KnownBytes.{WriteAppends};
ghost use Rattle.df_io.specs.Faults.{Rose};

use crate::Failed;

/// Where bytes go to.
pub trait Sink {
    /// The bytes that the sink has taken, if it tells them.
    ghost got: { Self → Option (List ℕ) };

    /// How often the sink has failed. The count stands still at the last value of 64 bits.
    ghost faults: { Self → ℕ };

    /// Takes some bytes from the beginning of `from`, at least one where there is one. A failure takes none.
    fn write(&mut self, from: &[u8]) -> Result<usize, Failed>
        ensures bound { IfOk result (λ n. n ≤ length from.now) }
        ensures some { IfOk result (λ n. 0 < length from.now → 0 < n) }
        ensures bytes { WriteAppends (got self.old) (got self.new) result from.now }
        ensures later { faults self.old ≤ faults self.new }
        ensures fault { OnErr result (Rose (faults self.old) (faults self.new)) };
}
