use crate::{Failed, NoMemory, Source};
use std::alloc::Global;
use std::marker::Model;

/// A source over bytes in memory that never fails: its count of faults is 0 for good. So no call over it can blame the
/// source.
#[derive(Debug, Drop)]
pub struct NeverSource {
    bytes: Vec<u8>,
    at: usize,
}

impl Model for NeverSource {
    ghost use Rattle.std.specs.Prelude.{ℕ, ◌≤◌, List, drop, vec_len};

    ghost Value = { List ℕ };

    ghost view = { λ s. drop s.at s.bytes.items };

    ghost invariant = { λ s. s.at ≤ vec_len s.bytes };
}

impl NeverSource {
    ghost use Rattle.std.specs.Prelude.{◌≡◌, IfOk};

    /// A source of these bytes. It is seen as those that are still to come.
    pub fn new(alloc: Global, bytes: &[u8]) -> Result<NeverSource, NoMemory>
        ensures { IfOk result (λ source. source ≡ bytes.now) }
    {
        Ok(NeverSource {
            bytes: Vec::from_slice(alloc, bytes)?,
            at: 0,
        })
    }
}

impl Source for NeverSource {
    ghost use Rattle.std.specs.Prelude.{◌≡◌, ◌≤◌, ◌++◌, IfOk, OnErr, Ok, Some, length, take, drop};
    ghost use Rattle.std.specs.Io.KnownBytes.{ReadConsumes};
    ghost use Rattle.df_io.specs.Faults.{Rose};

    ghost left = { λ s. Some s };

    ghost faults = { λ _. 0 };

    /// Gives as many bytes as are left and as `into` has room for.
    fn read(&mut self, into: &mut [u8]) -> Result<usize, Failed>
        ensures answer { result ≡ Ok (length (take (length into.old) self.old)) }
        ensures after { self.new ≡ drop (length into.old) self.old }
        ensures filled { into.new ≡ take (length into.old) self.old ++ drop (length self.old) into.old }

        // What every source ensures.
        ensures bound { IfOk result (λ n. n ≤ length into.new) }
        ensures bytes { ReadConsumes (Some self.old) (Some self.new) result into.new }
        ensures later { 0 ≤ 0 }
        ensures fault { OnErr result (Rose 0 0) }
    {
        let left = self.bytes.len() - self.at;
        let n = left.min(into.len());
        into[..n].copy_from_slice(&self.bytes[self.at..self.at + n]);
        self.at += n;
        Ok(n)
    }
}
