//! What a run of a program prints.

ghost use Rattle.std.specs.Prelude.{IfOk, map, string_bytes};
ghost use Rattle.source_maps.specs.Places.{map_of};
ghost use Rattle.view_jobs.specs.Given.{given_meant};
ghost use Rattle.view_jobs.specs.Outputs.{IsOutput, TellsOutput, TellsTrap};

use crate::given::Given;
use made_texts::{TextSink, print_output};
use source_maps::{SourceMap, trap_at_end};
use std::alloc::Global;
use view_output::Fault;

/// What `dfc` ends with after a trap.
const TRAPPED: u8 = 3;

/// What the run prints that the words tell, and the status that `dfc` ends with. A trap is told at the line of the source.
pub fn output_of(alloc: Global, given: &Given, words: &[String]) -> Result<(Vec<u8>, u8), Fault>
    ensures { IfOk result (λ run. IsOutput (given_meant given.now) (map string_bytes words.now) run.0.items run.1) }
{
    let mut text = TextSink::new(alloc);
    let status = print_output(alloc, given.text(), words, &mut text)?;
    let output = told_output(alloc, given.map(), text.text(), status)?;
    Ok((output, status))
}

// An output, with the line of the source where the run trapped.
fn told_output(
    alloc: Global,
    source: SourceMap<'_>,
    text: &[u8],
    status: u8,
) -> Result<Vec<u8>, Fault>
    ensures { IfOk result (λ output. TellsOutput (map_of source.entry) text.now status output.items) }
{
    if status == TRAPPED {
        told_trap(alloc, source, text)
    } else {
        Ok(Vec::from_slice(alloc, text)?)
    }
}

// An output that ends with the line of a trap, with that of the source.
fn told_trap(alloc: Global, source: SourceMap<'_>, text: &[u8]) -> Result<Vec<u8>, Fault>
    ensures { IfOk result (λ output. TellsTrap (map_of source.entry) text.now output.items) }
{
    let trap = trap_at_end(alloc, text)?.ok_or(Fault::NoText)?;
    let line = source.line(trap.line);
    let words = format!(in alloc; " LINE {line}\n")?;
    let mut output = Vec::from_slice(alloc, trap.front)?;
    output.extend_from_slice(words.as_bytes())?;
    Ok(output)
}
