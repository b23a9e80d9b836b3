use crate::table::is_failing;
use crate::{Failed, NoMemory, Sink};
use std::alloc::Global;
use std::marker::Model;

/// A sink into memory, for tests: it takes bytes in pieces, up to its room, and fails at given calls. Its memory is
/// made at the beginning.
#[derive(Debug, Drop)]
pub struct MemSink {
    got: Vec<u8>,
    room: u32,
    fails: Vec<u32>,
    piece: u32,
    calls: u64,
    faults: u64,
}

impl Model for MemSink {
    ghost use Rattle.std.specs.Prelude.{◌<◌, ◌≤◌, vec_len, vec_capacity};
    ghost use Rattle.df_io.specs.MemSink.{SinkState};

    ghost Value = { SinkState };

    ghost view = { λ s. record {
      got = s.got.items;
      room = s.room;
      fails = s.fails.items;
      piece = s.piece;
      calls = s.calls;
      faults = s.faults;
    } };

    ghost invariant = { λ s. (vec_len s.got ≤ s.room) × (s.room ≤ vec_capacity s.got) × (0 < s.piece) };
}

impl MemSink {
    ghost use Rattle.std.specs.Prelude.{◌≡◌, ◌<◌, [], IfOk};

    /// A sink with room for this many bytes, of which one call takes at most `piece`. The calls whose numbers, counted
    /// from 0, are in `fails` fail, and so do calls with bytes when there is no room left.
    pub fn new(alloc: Global, room: u32, fails: &[u32], piece: u32) -> Result<MemSink, NoMemory>
        requires { 0 < piece }
        ensures { IfOk result (λ sink. sink ≡ record { got = []; room = room; fails = fails.now; piece = piece; calls = 0; faults = 0 }) }
    {
        Ok(MemSink {
            got: Vec::with_capacity(alloc, room as usize)?,
            room,
            fails: Vec::from_slice(alloc, fails)?,
            piece,
            calls: 0,
            faults: 0,
        })
    }

    /// The bytes that it has taken.
    pub fn written(&self) -> &[u8]
        ensures { result.now ≡ self.now.got }
    {
        self.got.as_slice()
    }
}

impl Sink for MemSink {
    ghost use Rattle.std.specs.Prelude.{◌≡◌, ◌<◌, ◌≤◌, IfOk, OnErr, length, Some};
    ghost use Rattle.std.specs.Io.KnownBytes.{WriteAppends};
    ghost use Rattle.df_io.specs.Faults.{Rose};
    ghost use Rattle.df_io.specs.MemSink.{after_write, IsWriteAnswer};

    ghost got = { λ s. Some s.got };

    ghost faults = { λ s. s.faults };

    /// Takes as many bytes as `from`, a piece and the rest of the room have, or fails at its call or for want of room.
    fn write(&mut self, from: &[u8]) -> Result<usize, Failed>
        ensures after { self.new ≡ after_write self.old from.now }
        ensures answer { IsWriteAnswer self.old from.now result }

        // What every sink ensures.
        ensures bound { IfOk result (λ n. n ≤ length from.now) }
        ensures some { IfOk result (λ n. 0 < length from.now → 0 < n) }
        ensures bytes { WriteAppends (Some self.old.got) (Some self.new.got) result from.now }
        ensures later { self.old.faults ≤ self.new.faults }
        ensures fault { OnErr result (Rose self.old.faults self.new.faults) }
    {
        let call = self.calls;
        self.calls = call.saturating_add(1);
        let left = self.room as usize - self.got.len();
        let is_full = 0 < from.len() && left == 0;
        if is_failing(&self.fails, call) || is_full {
            self.faults = self.faults.saturating_add(1);
            return Err(Failed);
        }
        let n = from.len().min(left).min(self.piece as usize);
        self.got.extend_from_slice(&from[..n]).unwrap();
        Ok(n)
    }
}
