ghost use Rattle.std.specs.Prelude.{◌≡◌, IfOk, map};
ghost use Rattle.std.specs.String.{string_bytes};
ghost use Rattle.view_commands.specs.Words.{job_meant, task_meant};
ghost use Rattle.view_jobs.specs.Jobs.{DoesJob, DoesWords};
ghost use Rattle.view_jobs.specs.Shown.{ShowsSource};
ghost use Rattle.view_output.specs.Told.{Adds, told};

use crate::DONE;
use crate::files::Files;
use crate::lowered::lower_file;
use crate::programs::{run_file, show_file, show_names};
use crate::refusals::check_files;
use crate::view::show;
use df_io::{Sink, Source};
use std::alloc::Global;
use view_commands::{HELP, Job, Task, VERSION, help_of, job_of};
use view_output::{Fault, Output};

/// Does what the words after the name of `dfc_view` ask for, and answers the status to end with. Where `dfc` refuses the program in a file, `errors` gets why.
///
/// # Errors
///
/// Why it isn't done; what was told by then is left as it is.
pub fn view_main<F: Files, S: Source, K: Sink + Drop, E: Sink + Drop>(
    alloc: Global,
    words: &[String],
    files: &F,
    source: &mut S,
    output: &mut Output<K>,
    errors: &mut Output<E>,
) -> Result<u8, Fault>
    ensures { IfOk result (DoesWords (F.known files.now) (map string_bytes words.now) (S.left source.old) (S.left source.new) (told K.got output.old) (told K.got output.new) (told E.got errors.old) (told E.got errors.new)) }
{
    let job = job_of(alloc, words)?;
    do_job(alloc, job, files, source, output, errors)
}

// Does a job, and answers the status to end with.
fn do_job<F: Files, S: Source, K: Sink + Drop, E: Sink + Drop>(
    alloc: Global,
    job: Job<'_>,
    files: &F,
    source: &mut S,
    output: &mut Output<K>,
    errors: &mut Output<E>,
) -> Result<u8, Fault>
    ensures { IfOk result (DoesJob (F.known files.now) (job_meant job.entry) (S.left source.old) (S.left source.new) (told K.got output.old) (told K.got output.new) (told E.got errors.old) (told E.got errors.new)) }
{
    match job {
        Job::Help => tell(HELP, output),
        Job::HelpOf(command) => tell(help_of(command), output),
        Job::Version => tell(VERSION, output),
        Job::Show(task, program) => match program {
            None => show_source(alloc, task, source, output),
            Some(program) => show_file(alloc, files, task, program, output, errors),
        },
        Job::Check(checked) => check_files(alloc, files, checked.is_wide, checked.names, output),
        Job::Names(program) => show_names(alloc, files, program, output, errors),
        Job::Lower(program, form) => lower_file(alloc, files, form, program, output, errors),
        Job::Run(program) => run_file(alloc, files, program, output, errors),
    }
}

// Tells a text, and answers the status to end with.
fn tell<K: Sink + Drop>(text: &str, output: &mut Output<K>) -> Result<u8, Fault>
    ensures { IfOk result (λ status. Adds (told K.got output.old) (told K.got output.new) text.now × (status ≡ 0)) }
{
    output.text(text)?;
    Ok(DONE)
}

// Shows the text that a source has, and answers the status to end with.
fn show_source<S: Source, K: Sink + Drop>(
    alloc: Global,
    task: Task,
    source: &mut S,
    output: &mut Output<K>,
) -> Result<u8, Fault>
    ensures { IfOk result (λ status. ShowsSource (task_meant task) (S.left source.old) (S.left source.new) (told K.got output.old) (told K.got output.new) × (status ≡ 0)) }
{
    show(alloc, task, source, output)?;
    Ok(DONE)
}
