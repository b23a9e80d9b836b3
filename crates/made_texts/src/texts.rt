//! What `dfc` prints of a program, for one command after another.

ghost use Rattle.std.specs.Prelude.{◌∷◌, IfOk, OnOk, map};
ghost use Rattle.std.specs.String.{string_bytes};
ghost use Rattle.made_texts.specs.Texts.{Prints, PrintsGraphs, PrintsRun, output_words};
ghost use Rattle.view_commands.specs.RunWords.{forks_apart};

use crate::jobs::print_job;
use crate::text_sink::TextSink;
use std::alloc::Global;
use view_commands::{dialect_of, without_forks, words_after};
use view_output::Fault;

/// What `dfc` ends with where all is done, where words have no meaning, where it refuses the program, where that traps, and at a limit.
const DONE: u8 = 0;

const USAGE: u8 = 1;

const REFUSED: u8 = 2;

const TRAPPED: u8 = 3;

const LIMITED: u8 = 4;

/// Appends what `dfc` prints of a program: its flow graph and its dataflow graph. The words may choose the checked dialect, and nothing else.
///
/// # Errors
///
/// `Usage` where the words have no meaning, `Refused` where `dfc` refuses the program, and `NoMemory`.
pub fn print_graphs(
    alloc: Global,
    program: &[u8],
    words: &[String],
    text: &mut TextSink,
) -> Result<(), Fault>
    ensures { OnOk result (PrintsGraphs (map string_bytes words.now) program.now text.old.text text.new.text) }
{
    print_command(alloc, "regions", words, program, text)?;
    print_command(alloc, "graph", words, program, text)?;
    Ok(())
}

/// Appends what `dfc` prints of a program: its flow graph, its dataflow graph and the trace of the run that the words tell.
///
/// # Errors
///
/// As of `print_graphs`.
pub fn print_run(
    alloc: Global,
    program: &[u8],
    words: &[String],
    text: &mut TextSink,
) -> Result<(), Fault>
    ensures { OnOk result (PrintsRun (forks_apart (map string_bytes words.now)) program.now text.old.text text.new.text) }
{
    let (words, with_forks) = without_forks(words);
    print_graphs(alloc, program, dialect_of(words), text)?;
    if with_forks {
        let words = words_after(alloc, "nodes", words)?;
        print_command(alloc, "forks", words.as_slice(), program, text)?;
    } else {
        print_command(alloc, "trace", words, program, text)?;
    }
    Ok(())
}

/// Appends what the run prints that the words tell, and answers the status that `dfc` ends with: 0, 3 after a trap or 4 at the limit. A line that tells of a trap or of the limit comes last.
///
/// # Errors
///
/// As of `print_graphs`.
pub fn print_output(
    alloc: Global,
    program: &[u8],
    words: &[String],
    text: &mut TextSink,
) -> Result<u8, Fault>
    ensures { IfOk result (Prints (output_words (forks_apart (map string_bytes words.now))) program.now text.old.text text.new.text) }
{
    let (words, with_forks) = without_forks(words);
    let command = if with_forks { "forks" } else { "fire" };
    print_command(alloc, command, words, program, text)
}

// Appends what `dfc` prints for a command and words after it, and answers its status. A trap and a limit are told in the text.
#[tactic(auto, using(crate::proofs::Printed::prints_shown))]
fn print_command(
    alloc: Global,
    command: &str,
    words: &[String],
    program: &[u8],
    text: &mut TextSink,
) -> Result<u8, Fault>
    ensures { IfOk result (Prints (command.now ∷ map string_bytes words.now) program.now text.old.text text.new.text) }
{
    let all = words_after(alloc, command, words)?;
    match print_job(alloc, &all, program, text)? {
        DONE => Ok(DONE),
        TRAPPED => Ok(TRAPPED),
        LIMITED => Ok(LIMITED),
        USAGE => Err(Fault::Usage),
        REFUSED => Err(Fault::Refused),
        _ => unreachable!(),
    }
}
