use crate::table::is_failing;
use crate::{Failed, NoMemory, Source};
use std::alloc::Global;
use std::marker::Model;

/// A source over bytes in memory, for tests: it gives its bytes in pieces, and fails at given calls.
#[derive(Debug, Drop)]
pub struct MemSource {
    bytes: Vec<u8>,
    at: usize,
    fails: Vec<u32>,
    piece: u32,
    calls: u64,
    faults: u64,
}

impl Model for MemSource {
    ghost use Rattle.std.specs.Prelude.{◌<◌, ◌≤◌, drop, vec_len};
    ghost use Rattle.df_io.specs.MemSource.{SourceState};

    ghost Value = { SourceState };

    ghost view = { λ s. record {
      left = drop s.at s.bytes.items;
      fails = s.fails.items;
      piece = s.piece;
      calls = s.calls;
      faults = s.faults;
    } };

    ghost invariant = { λ s. (s.at ≤ vec_len s.bytes) × (0 < s.piece) };
}

impl MemSource {
    ghost use Rattle.std.specs.Prelude.{◌≡◌, ◌<◌, IfOk};

    /// A source of these bytes, of which one call gives at most `piece`. The calls whose numbers, counted from 0, are
    /// in `fails` fail.
    pub fn new(
        alloc: Global,
        bytes: &[u8],
        fails: &[u32],
        piece: u32,
    ) -> Result<MemSource, NoMemory>
        requires { 0 < piece }
        ensures { IfOk result (λ source. source ≡ record { left = bytes.now; fails = fails.now; piece = piece; calls = 0; faults = 0 }) }
    {
        Ok(MemSource {
            bytes: Vec::from_slice(alloc, bytes)?,
            at: 0,
            fails: Vec::from_slice(alloc, fails)?,
            piece,
            calls: 0,
            faults: 0,
        })
    }
}

impl Source for MemSource {
    ghost use Rattle.std.specs.Prelude.{◌≡◌, ◌≤◌, IfOk, OnErr, length, Some};
    ghost use Rattle.std.specs.Io.KnownBytes.{ReadConsumes};
    ghost use Rattle.df_io.specs.Faults.{Rose};
    ghost use Rattle.df_io.specs.MemSource.{after_read, filled, IsReadAnswer};

    ghost left = { λ s. Some s.left };

    ghost faults = { λ s. s.faults };

    /// Gives as many bytes as are left, as `into` has room for and as a piece has, or fails at its call.
    fn read(&mut self, into: &mut [u8]) -> Result<usize, Failed>
        ensures after { self.new ≡ after_read self.old (length into.old) }
        ensures answer { IsReadAnswer self.old (length into.old) result }
        ensures filled { into.new ≡ filled self.old into.old }

        // What every source ensures.
        ensures bound { IfOk result (λ n. n ≤ length into.new) }
        ensures bytes { ReadConsumes (Some self.old.left) (Some self.new.left) result into.new }
        ensures later { self.old.faults ≤ self.new.faults }
        ensures fault { OnErr result (Rose self.old.faults self.new.faults) }
    {
        let call = self.calls;
        self.calls = call.saturating_add(1);
        if is_failing(&self.fails, call) {
            self.faults = self.faults.saturating_add(1);
            return Err(Failed);
        }
        let left = self.bytes.len() - self.at;
        let n = left.min(into.len()).min(self.piece as usize);
        into[..n].copy_from_slice(&self.bytes[self.at..self.at + n]);
        self.at += n;
        Ok(n)
    }
}
