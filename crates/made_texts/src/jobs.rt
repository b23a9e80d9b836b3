ghost use Rattle.std.specs.Prelude.{◌≤◌, IfOk, Some, map};
ghost use Rattle.std.specs.String.{string_bytes};
ghost use Rattle.job_terms.specs.Answers.{Answers};
ghost use Rattle.dfc_driver.specs.WordsDue.{IsDue};

use crate::text_sink::TextSink;
use df_io::{NeverSource, NoMemory};
use dfc_driver::dfc_main;
use std::alloc::Global;

/// What `dfc` ends with where its sink failed, and where there is no memory.
const UNWRITTEN: u8 = 6;

const NO_MEMORY: u8 = 7;

/// Appends what `dfc` prints for these words on a text, and answers the status that it ends with.
///
/// # Errors
///
/// `NoMemory`, also where there is none for what is printed.
pub fn print_job(
    alloc: Global,
    words: &Vec<String>,
    text: &[u8],
    sink: &mut TextSink,
) -> Result<u8, NoMemory>
    ensures due { IfOk result (λ status. Answers (IsDue (map string_bytes words.now.items) text.now) (Some sink.old.text) (Some sink.new.text) status) }
    ensures bound { IfOk result (λ status. status ≤ 4) }
{
    let mut source = NeverSource::new(alloc, text)?;
    match dfc_main(alloc, words, &mut source, sink) {
        UNWRITTEN => Err(sink.refusal()),
        NO_MEMORY => Err(NoMemory),
        status => Ok(status),
    }
}
