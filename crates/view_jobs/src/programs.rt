//! Shows and runs the program in a file.

ghost use Rattle.std.specs.Prelude.{◌≡◌, [], IfOk, OnOk, map};
ghost use Rattle.std.specs.String.{string_bytes};
ghost use Rattle.view_commands.specs.Words.{program_meant, task_meant};
ghost use Rattle.view_jobs.specs.Files.{OfKnown};
ghost use Rattle.view_jobs.specs.Given.{IsWithin, given_meant};
ghost use Rattle.view_jobs.specs.Programs.{IsMade, MadeText, NamesFile, NamesGiven, RunsFile, RunsGiven, ShowsFile, ShowsGiven, ShowsMade, UnlessRefused, needs_run as spec_needs_run};
ghost use Rattle.view_output.specs.Told.{told};

use crate::DONE;
use crate::files::Files;
use crate::given::{FileText, Given, read_given};
use crate::names::write_names;
use crate::outputs::output_of;
use crate::pages::show_page;
use crate::refusals::{refused, tell_refused};
use crate::view::{loads_of, seen, show_printed};
use copied_names::copied_names;
use df_io::Sink;
use f77_source::SourceEnd;
use made_texts::{TextSink, print_graphs, print_run};
use printed_graphs::Printed;
use std::alloc::Global;
use view_commands::{Program, Task, is_checked, tells_run};
use view_output::{Fault, Output};

/// Shows the program in a file, with the words for its run, and answers the status to end with. Where it is refused, `errors` gets why.
pub fn show_file<F: Files, K: Sink + Drop, E: Sink + Drop>(
    alloc: Global,
    files: &F,
    task: Task,
    program: Program<'_>,
    output: &mut Output<K>,
    errors: &mut Output<E>,
) -> Result<u8, Fault>
    ensures { IfOk result (λ status. OfKnown (F.known files.now program.entry.name.now) (λ source. ShowsFile (task_meant task) (program_meant program.entry) source (told K.got output.old) (told K.got output.new) (told E.got errors.old) (told E.got errors.new) status)) }
{
    match read_given(alloc, files, program)? {
        FileText::Program(given) => show_given(alloc, task, program, &given, output, errors),
        FileText::Refused(report) => tell_refused(report.as_str(), errors),
    }
}

// Shows a program, with the words for its run, and answers the status to end with. Where it is refused, `errors` gets why.
fn show_given<K: Sink + Drop, E: Sink + Drop>(
    alloc: Global,
    task: Task,
    program: Program<'_>,
    given: &Given,
    output: &mut Output<K>,
    errors: &mut Output<E>,
) -> Result<u8, Fault>
    requires { IsWithin (given_meant given.now) }
    ensures { IfOk result (ShowsGiven (task_meant task) (program_meant program.entry) (given_meant given.now) (told K.got output.old) (told K.got output.new) (told E.got errors.old) (told E.got errors.new)) }
{
    match task {
        Task::Page => show_page(alloc, program, given, output, errors),
        _ => show_made(alloc, task, program, given, output, errors),
    }
}

// Shows what `dfc` prints of a program, with the words for its run, and answers the status to end with. Where it is refused, `errors` gets why.
fn show_made<K: Sink + Drop, E: Sink + Drop>(
    alloc: Global,
    task: Task,
    program: Program<'_>,
    given: &Given,
    output: &mut Output<K>,
    errors: &mut Output<E>,
) -> Result<u8, Fault>
    requires { IsWithin (given_meant given.now) }
    ensures { IfOk result (UnlessRefused (program_meant program.entry) (given_meant given.now) (ShowsMade (task_meant task) (program_meant program.entry).words (given_meant given.now) (told K.got output.old) (told K.got output.new)) (told K.got output.old) (told K.got output.new) (told E.got errors.old) (told E.got errors.new)) }
{
    match made_for(alloc, &task, given, program.words) {
        Ok(printed) => {
            let loads = loads_of(program.words);
            show_printed(alloc, task, loads, &printed, given.source(), output)?;
            Ok(DONE)
        }
        Err(fault) => refused(alloc, program, given, fault, errors),
    }
}

// What a task needs of what `dfc` prints of a program, with lines and names of the source.
fn made_for(alloc: Global, task: &Task, given: &Given, words: &[String]) -> Result<Printed, Fault>
    ensures { IfOk result (IsMade (task_meant task.now) (map string_bytes words.now) (given_meant given.now)) }
{
    let mut text = TextSink::new(alloc);
    print_for(alloc, task, given.text(), words, &mut text)?;
    seen(alloc, given, text.text())
}

/// Runs the program in a file, writes what it prints, and answers the status that `dfc` ends with. Where it is refused, `errors` gets why.
pub fn run_file<F: Files, K: Sink + Drop, E: Sink + Drop>(
    alloc: Global,
    files: &F,
    program: Program<'_>,
    output: &mut Output<K>,
    errors: &mut Output<E>,
) -> Result<u8, Fault>
    ensures { IfOk result (λ status. OfKnown (F.known files.now program.entry.name.now) (λ source. RunsFile (program_meant program.entry) source (told K.got output.old) (told K.got output.new) (told E.got errors.old) (told E.got errors.new) status)) }
{
    match read_given(alloc, files, program)? {
        FileText::Program(given) => run_given(alloc, program, &given, output, errors),
        FileText::Refused(report) => tell_refused(report.as_str(), errors),
    }
}

// Runs a program, writes what it prints, and answers the status that `dfc` ends with. Where it is refused, `errors` gets why.
fn run_given<K: Sink + Drop, E: Sink + Drop>(
    alloc: Global,
    program: Program<'_>,
    given: &Given,
    output: &mut Output<K>,
    errors: &mut Output<E>,
) -> Result<u8, Fault>
    requires { IsWithin (given_meant given.now) }
    ensures { IfOk result (RunsGiven (program_meant program.entry) (given_meant given.now) (told K.got output.old) (told K.got output.new) (told E.got errors.old) (told E.got errors.new)) }
{
    match output_of(alloc, given, program.words) {
        Ok((text, status)) => {
            output.bytes(text.as_slice())?;
            Ok(status)
        }
        Err(fault) => refused(alloc, program, given, fault, errors),
    }
}

/// Tells what the names of subroutines become in the expansion of the program in a file, and answers the status to end with. Where it is refused, `errors`
/// gets why.
pub fn show_names<F: Files, K: Sink + Drop, E: Sink + Drop>(
    alloc: Global,
    files: &F,
    program: Program<'_>,
    output: &mut Output<K>,
    errors: &mut Output<E>,
) -> Result<u8, Fault>
    ensures { IfOk result (λ status. OfKnown (F.known files.now program.entry.name.now) (λ source. NamesFile (program_meant program.entry) source (told K.got output.old) (told K.got output.new) (told E.got errors.old) (told E.got errors.new) status)) }
{
    match read_given(alloc, files, program)? {
        FileText::Program(given) => names_given(alloc, program, &given, output, errors),
        FileText::Refused(report) => tell_refused(report.as_str(), errors),
    }
}

// Tells what the names of subroutines become in the expansion of a program, and answers the status to end with. Where it is refused, `errors` gets why.
fn names_given<K: Sink + Drop, E: Sink + Drop>(
    alloc: Global,
    program: Program<'_>,
    given: &Given,
    output: &mut Output<K>,
    errors: &mut Output<E>,
) -> Result<u8, Fault>
    requires { IsWithin (given_meant given.now) }
    ensures { IfOk result (NamesGiven (program_meant program.entry) (given_meant given.now) (told K.got output.old) (told K.got output.new) (told E.got errors.old) (told E.got errors.new)) }
{
    match copied_names(alloc, given.text(), is_checked(program.words)) {
        Ok(names) => {
            write_names(given.map(), names.as_slice(), output)?;
            Ok(DONE)
        }
        Err(SourceEnd::Refused(_)) => refused(alloc, program, given, Fault::Refused, errors),
        Err(SourceEnd::NoMemory) => Err(Fault::NoMemory),
    }
}

// Appends what a task needs of what `dfc` prints.
fn print_for(
    alloc: Global,
    task: &Task,
    program: &[u8],
    words: &[String],
    text: &mut TextSink,
) -> Result<(), Fault>
    ensures { OnOk result (MadeText (spec_needs_run (task_meant task.now) (map string_bytes words.now)) (map string_bytes words.now) program.now text.old.text text.new.text) }
{
    if needs_run(task, words) {
        print_run(alloc, program, words, text)
    } else {
        print_graphs(alloc, program, words, text)
    }
}

// Whether a task needs the run that the words tell.
fn needs_run(task: &Task, words: &[String]) -> bool
    ensures { result ≡ spec_needs_run (task_meant task.now) (map string_bytes words.now) }
{
    match task {
        Task::Rounds | Task::Profile | Task::JsonTrace => true,
        Task::Json => tells_run(words),
        Task::Chart
        | Task::Page
        | Task::Regions
        | Task::Dot(_)
        | Task::Dependences
        | Task::DependencesJson
        | Task::Independent(..) => false,
    }
}
