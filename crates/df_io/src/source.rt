ghost use Rattle.std.specs.Prelude.{ℕ, ◌≤◌, List, Option, IfOk, OnErr, length};
ghost use Rattle.std.specs.Io.KnownBytes.{ReadConsumes};
ghost use Rattle.df_io.specs.Faults.{Rose};

use crate::Failed;

/// Where bytes come from.
pub trait Source {
    /// The bytes that are still to come, if the source tells them.
    ghost left: { Self → Option (List ℕ) };

    /// How often the source has failed. The count stands still at the last value of 64 bits.
    ghost faults: { Self → ℕ };

    /// Takes the next bytes, and puts them to the beginning of `into`: at most as many as it has room for. With room it
    /// takes none only at the end. A failure takes none.
    fn read(&mut self, into: &mut [u8]) -> Result<usize, Failed>
        ensures bound { IfOk result (λ n. n ≤ length into.new) }
        ensures bytes { ReadConsumes (left self.old) (left self.new) result into.new }
        ensures later { faults self.old ≤ faults self.new }
        ensures fault { OnErr result (Rose (faults self.old) (faults self.new)) };
}
