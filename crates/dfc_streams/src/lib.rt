//! `dfc` on a reader and a writer of std: what it writes goes out through a buffer, and has reached the writer when the call ends.
#![tactic(auto)]

ghost use Rattle.std.specs.Prelude.{◌≤◌, IfSome, IsOk, map};
ghost use Rattle.std.specs.Io.Buffered.{writer_contents};
ghost use Rattle.std.specs.String.{string_bytes};
ghost use Rattle.job_terms.specs.Answers.{HasAll};
ghost use Rattle.dfc_driver.specs.Words.{job_of};
ghost use Rattle.dfc_driver.specs.WordsDue.{MeansFor, ReadsFor};
ghost use Rattle.dfc_streams.specs.Streams.{IsOutput, IsStatusAfter};

use df_io::{Failed, StdSink, StdSource};
use dfc_driver::dfc_main;
use std::alloc::Global;
use std::io::{BufWriter, Read, Write};

// The least status that tells a failure: the reader failed.
const READ_FAULT: u8 = 5;

// The writer failed.
const WRITE_FAULT: u8 = 6;

/// How a call ended, and its streams as they are then.
#[derive(Drop)]
pub struct Ended<R, W> {
    /// The exit status, as `dfc_main` has it.
    pub status: u8,
    /// The reader.
    pub reader: R,
    /// The writer that was below the buffer.
    pub writer: W,
}

/// Does what the words ask for on the bytes of a reader, and writes to a writer through its buffer, which is flushed at the end. A
/// buffer without room holds nothing back: each line goes out as it is told. A failure of the last flush is one of the writer, status 6.
///
/// What `dfc_main` promises of sources and sinks holds of what the reader gives and of what the writer below the buffer holds. When a
/// read or a write fails is not told by readers and writers of std; so nothing says that they are blamed only where they failed.
#[tactic(auto, using(crate::proofs::Ending::means_after))]
pub fn dfc_on_streams<R: Read, W: Write + Drop>(
    alloc: Global,
    words: &Vec<String>,
    reader: R,
    output: BufWriter<W>,
) -> Ended<R, W>
    // The status, and what the writer holds at the end.
    ensures output { IsOutput (map string_bytes words.now.items) (R.remaining reader) (writer_contents W.contents output) (W.contents result.writer) result.status }

    // What the job promises of the program of the text.
    ensures means { HasAll result.status → IfSome (R.remaining reader) (MeansFor (job_of (map string_bytes words.now.items))) }

    // How much of the reader was read.
    ensures takes { ReadsFor R.remaining (job_of (map string_bytes words.now.items)) reader result.reader result.status }
    ensures bound { result.status ≤ 7 }
{
    let mut source = StdSource::new(reader);
    let mut sink = StdSink::new(output);
    let status = dfc_main(alloc, words, &mut source, &mut sink);
    let (writer, flushed) = sink.finish();
    Ended {
        status: status_after(status, flushed),
        reader: source.into_inner(),
        writer,
    }
}

// The status after the last flush: a failure of that is told, unless another one is.
fn status_after(status: u8, flushed: Result<(), Failed>) -> u8
    ensures status { IsStatusAfter status result }
    ensures flushed { result ≤ 4 → IsOk flushed }
{
    match flushed {
        Err(Failed) if status < READ_FAULT => WRITE_FAULT,
        _ => status,
    }
}
