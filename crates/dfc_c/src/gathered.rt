use df_io::{Failed, Sink};
use std::alloc::Global;
use std::marker::Model;

/// A sink that keeps all that it gets, and fails where there is no memory for it.
#[derive(Debug, Drop)]
pub(crate) struct Gathered {
    bytes: Vec<u8>,
    faults: u64,
}

impl Model for Gathered {
    ghost use Rattle.dfc_c.specs.Gathered.{GatheredState};

    ghost Value = { GatheredState };

    ghost view = { λ s. record {
      got = s.bytes.items;
      faults = s.faults;
    } };
}

impl Gathered {
    ghost use Rattle.std.specs.Prelude.{◌≡◌, []};

    /// A sink that has got nothing.
    pub(crate) fn new(alloc: Global) -> Gathered
        ensures { result ≡ record { got = []; faults = 0 } }
    {
        Gathered {
            bytes: Vec::new(alloc),
            faults: 0,
        }
    }

    /// The bytes that it has got.
    pub(crate) fn bytes(&self) -> &[u8]
        ensures { result.now ≡ self.now.got }
    {
        self.bytes.as_slice()
    }
}

impl Sink for Gathered {
    ghost use Rattle.std.specs.Prelude.{◌<◌, ◌≤◌, IfOk, OnErr, length, Some};
    ghost use Rattle.std.specs.Io.KnownBytes.{WriteAppends};
    ghost use Rattle.df_io.specs.Faults.{Rose};

    ghost got = { λ s. Some s.got };

    ghost faults = { λ s. s.faults };

    /// Takes all the bytes, or fails where there is no memory for them.
    fn write(&mut self, from: &[u8]) -> Result<usize, Failed>
        // What every sink ensures.
        ensures bound { IfOk result (λ n. n ≤ length from.now) }
        ensures some { IfOk result (λ n. 0 < length from.now → 0 < n) }
        ensures bytes { WriteAppends (Some self.old.got) (Some self.new.got) result from.now }
        ensures later { self.old.faults ≤ self.new.faults }
        ensures fault { OnErr result (Rose self.old.faults self.new.faults) }
    {
        if self.bytes.extend_from_slice(from).is_err() {
            self.faults = self.faults.saturating_add(1);
            return Err(Failed);
        }
        Ok(from.len())
    }
}
