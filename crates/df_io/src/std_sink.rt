use crate::{Failed, Sink};
use std::io::{BufWriter, Write};

/// A writer of std as a sink. What it got is what the writer holds, where the writer tells that. An error of the writer is a
/// failure, and so is a write that takes none of some bytes; each is counted. No write is flushed: whoever made the sink has the
/// writer back, and flushes that.
#[derive(Drop)]
pub struct StdSink<W> {
    inner: W,
    faults: u64,
}

impl<W> StdSink<W> {
    ghost use Rattle.std.specs.Prelude.{◌≡◌};

    /// A sink that has not failed yet.
    pub fn new(inner: W) -> StdSink<W>
        ensures inner { result.inner ≡ inner }
        ensures faults { result.faults ≡ 0 }
    {
        StdSink { inner, faults: 0 }
    }

    /// The writer, as it is now.
    pub fn into_inner(self) -> W
        ensures { result ≡ self.inner }
    {
        self.inner
    }
}

impl<W: Write + Drop> StdSink<BufWriter<W>> {
    ghost use Rattle.std.specs.Prelude.{OnOk};
    ghost use Rattle.std.specs.Io.Buffered.{writer_contents};
    ghost use Rattle.std.specs.Io.KnownBytes.{Keeps};
    ghost use Rattle.df_io.specs.Write.{KeepsFirst};

    /// Flushes, and gives back the writer below the buffer. That has all then that the sink got, and nothing else; after a failure
    /// it has the first of it.
    #[tactic(auto, using(crate::proofs::Buffered::all_below, crate::proofs::Buffered::first_below))]
    pub fn finish(self) -> (W, Result<(), Failed>)
        ensures all { OnOk result.1 (Keeps (writer_contents W.contents self.inner) (W.contents result.0)) }
        ensures first { KeepsFirst (writer_contents W.contents self.inner) (W.contents result.0) }
    {
        let mut output = self.inner;
        let flushed = output.flush();
        let (writer, _held) = output.into_parts();
        (writer, flushed.map_err(|_| Failed))
    }
}

impl<W: Write> Sink for StdSink<W> {
    ghost use Rattle.std.specs.Prelude.{◌≡◌, ◌<◌, ◌≤◌, IfOk, OnErr, length};
    ghost use Rattle.std.specs.Io.KnownBytes.{WriteAppends};
    ghost use Rattle.df_io.specs.Faults.{Rose, faults_after};

    ghost got = { λ s. W.contents s.inner };

    ghost faults = { λ s. s.faults };

    fn write(&mut self, from: &[u8]) -> Result<usize, Failed>
        // Each failure is counted.
        ensures count { self.new.faults ≡ faults_after self.old.faults result }

        // What every sink ensures.
        ensures bound { IfOk result (λ n. n ≤ length from.now) }
        ensures some { IfOk result (λ n. 0 < length from.now → 0 < n) }
        ensures bytes { WriteAppends (W.contents self.old.inner) (W.contents self.new.inner) result from.now }
        ensures later { self.old.faults ≤ self.new.faults }
        ensures fault { OnErr result (Rose self.old.faults self.new.faults) }
    {
        match self.inner.write(from) {
            Ok(n) if 0 < n || from.is_empty() => Ok(n),
            _ => {
                self.faults = self.faults.saturating_add(1);
                Err(Failed)
            }
        }
    }
}
