use df_io::{Failed, NoMemory, Sink};
use std::alloc::Global;
use std::marker::Model;

/// A sink into memory that grows with what it takes. A write for which there is no memory fails, and takes nothing.
#[derive(Debug, Drop)]
pub struct TextSink {
    text: Vec<u8>,
    faults: u64,
    /// What a write was refused that failed, if one did.
    refused: Option<NoMemory>,
}

impl Model for TextSink {
    ghost use Rattle.std.specs.Prelude.{◌≡◌, ◌<◌, true, is_some};
    ghost use Rattle.made_texts.specs.TextSink.{TextState};

    ghost Value = { TextState };

    ghost view = { λ s. record { text = s.text.items; faults = s.faults } };

    ghost invariant = { λ s. 0 < s.faults → is_some s.refused ≡ true };
}

impl TextSink {
    ghost use Rattle.std.specs.Prelude.{◌≡◌, ◌<◌, []};

    /// A sink that has taken nothing.
    pub fn new(alloc: Global) -> TextSink
        ensures { result ≡ record { text = []; faults = 0 } }
    {
        TextSink {
            text: Vec::new(alloc),
            faults: 0,
            refused: None,
        }
    }

    /// The bytes that it has taken.
    pub fn text(&self) -> &[u8]
        ensures { result.now ≡ self.now.text }
    {
        self.text.as_slice()
    }

    /// What a write was refused, where one failed.
    pub(crate) fn refusal(&self) -> NoMemory
        requires { 0 < self.now.faults }
    {
        match self.refused {
            Some(NoMemory) => NoMemory,
            None => unreachable!(),
        }
    }
}

impl Sink for TextSink {
    ghost use Rattle.std.specs.Prelude.{◌≡◌, ◌<◌, ◌≤◌, IfOk, OnErr, length, Some};
    ghost use Rattle.std.specs.Io.KnownBytes.{WriteAppends};
    ghost use Rattle.df_io.specs.Faults.{Rose};

    ghost got = { λ s. Some s.text };

    ghost faults = { λ s. s.faults };

    fn write(&mut self, from: &[u8]) -> Result<usize, Failed>
        ensures bound { IfOk result (λ n. n ≤ length from.now) }
        ensures some { IfOk result (λ n. 0 < length from.now → 0 < n) }
        ensures bytes { WriteAppends (Some self.old.text) (Some self.new.text) result from.now }
        ensures later { self.old.faults ≤ self.new.faults }
        ensures fault { OnErr result (Rose self.old.faults self.new.faults) }
    {
        match self.text.extend_from_slice(from) {
            Ok(()) => Ok(from.len()),
            Err(refused) => {
                self.faults = self.faults.saturating_add(1);
                self.refused = Some(refused.into());
                Err(Failed)
            }
        }
    }
}
