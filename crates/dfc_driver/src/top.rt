ghost use Rattle.std.specs.Prelude.{◌≢◌, ◌≤◌, ℕ, List, map, IfSome};
ghost use Rattle.std.specs.String.{string_bytes};
ghost use Rattle.job_terms.specs.Answers.{Answers, AnswersAs, Blames, HasAll, IsUnwritten, ReadsText, code_of};
ghost use Rattle.dfc_jobs.specs.Due.{IsDueRead};
ghost use Rattle.job_terms.specs.Reading.{reading};
ghost use Rattle.job_laws.specs.Headline.{MeansRead};
ghost use Rattle.dfc_driver.specs.Meant.{IsJob, IsTask, job_meant, task_meant};
ghost use Rattle.dfc_driver.specs.Words.{job_of};
ghost use Rattle.dfc_driver.specs.WordsDue.{IsDue, IsDueFor, IsOwnFor, MeansFor, ReadsFor, TellsWords};

use crate::numbers::{data_in, picks_in};
use crate::words::{Job, TaskWords, read_words};
use df_io::{NoMemory, Sink, Source};
use dfc_jobs::do_task;
use job_laws::{sample_texts_mean, texts_mean};
use job_terms::{Status, tell_usage};
use sample_jobs::tell_sample;
use std::alloc::Global;

/// Does what the words ask for, on the bytes of the source, and writes to the sink. It answers the exit status: 0 done,
/// 1 invalid arguments, 2 a text that is refused, 3 a trap, 4 a limit, 5 a failing source, 6 a failing sink, 7 no
/// memory.
pub fn dfc_main<S: Source, K: Sink>(
    alloc: Global,
    words: &Vec<String>,
    source: &mut S,
    sink: &mut K,
) -> u8
    // The status and the bytes are those that are due, where the source tells its bytes and the sink what it got.
    ensures due { IfSome (S.left source.old) (λ bytes. Answers (IsDue (map string_bytes words.now.items) bytes) (K.got sink.old) (K.got sink.new) result) }

    // Status 1 comes exactly where the words ask for no job, and a sample is told by itself, whatever the source tells.
    ensures words { TellsWords (job_of (map string_bytes words.now.items)) (K.got sink.old) (K.got sink.new) result }

    // After a fault of the source and without memory nothing was written, whatever the source tells.
    ensures unwritten { IsUnwritten (K.got sink.old) (K.got sink.new) result }

    // What the job promises of the program of the text.
    ensures means { HasAll result → IfSome (S.left source.old) (MeansFor (job_of (map string_bytes words.now.items))) }

    // How much of the source was read.
    ensures takes { ReadsFor S.left (job_of (map string_bytes words.now.items)) source.old source.new result }

    // Source and sink are blamed only where they failed.
    ensures blames { Blames (S.faults source.old) (S.faults source.new) (K.faults sink.old) (K.faults sink.new) result }
    ensures bound { result ≤ 7 }
{
    let status = match read_words(words) {
        Some(job) => do_job(alloc, job, source, sink),
        None => tell_usage(sink),
    };
    status as u8
}

// Does what some words ask for.
fn do_job<S: Source, K: Sink>(alloc: Global, job: Job<'_>, source: &mut S, sink: &mut K) -> Status
    requires { IsJob job }
    ensures due { IfSome (S.left source.old) (λ bytes. AnswersAs (IsDueFor (Some (job_meant job.entry)) bytes) (K.got sink.old) (K.got sink.new) result) }
    ensures words { TellsWords (Some (job_meant job.entry)) (K.got sink.old) (K.got sink.new) (code_of result) }
    ensures unwritten { IsUnwritten (K.got sink.old) (K.got sink.new) (code_of result) }
    ensures means { HasAll (code_of result) → IfSome (S.left source.old) (MeansFor (Some (job_meant job.entry))) }
    ensures takes { ReadsFor S.left (Some (job_meant job.entry)) source.old source.new (code_of result) }
    ensures blames { Blames (S.faults source.old) (S.faults source.new) (K.faults sink.old) (K.faults sink.new) (code_of result) }
{
    sample_texts_mean();
    match job {
        Job::On(task, checked) => on_words(alloc, task, checked, source, sink),
        Job::Sample(n) => tell_sample(alloc, n, sink),
    }
}

// Does a task that words tell.
fn on_words<S: Source, K: Sink>(
    alloc: Global,
    words: TaskWords<'_>,
    checked: bool,
    source: &mut S,
    sink: &mut K,
) -> Status
    requires { IsTask words }
    ensures due { IfSome (S.left source.old) (λ bytes. AnswersAs (IsDueRead (task_meant words.entry) checked (reading checked bytes)) (K.got sink.old) (K.got sink.new) result) }
    ensures words { result ≢ Status.Usage }
    ensures unwritten { IsUnwritten (K.got sink.old) (K.got sink.new) (code_of result) }
    ensures means { HasAll (code_of result) → IfSome (S.left source.old) (λ bytes. MeansRead (task_meant words.entry) checked bytes (reading checked bytes)) }
    ensures takes { ReadsText (S.left source.old) (S.left source.new) (code_of result) }
    ensures blames { Blames (S.faults source.old) (S.faults source.new) (K.faults sink.old) (K.faults sink.new) (code_of result) }
{
    texts_mean();
    match picks_in(alloc, words.picks()) {
        Err(NoMemory) => Status::NoMemory,
        Ok(picks) => match data_in(alloc, words.data()) {
            Err(NoMemory) => Status::NoMemory,
            Ok(data) => do_task(alloc, words.task(&picks, &data), checked, source, sink),
        },
    }
}

/// What is due for any words and any text means what the job promises that the words ask for, where the program of the text is laid out
/// from its statements.
pub fn words_mean()
    ensures { (words : List (List ℕ)) (bytes : List ℕ) → IsOwnFor (job_of words) bytes → MeansFor (job_of words) bytes }
{
    texts_mean();
    sample_texts_mean();
}
