//! What is claimed of the compiler, as functions that a program calls: one for each job, with typed arguments. A source has the text, read
//! in the checked dialect, where a result that is no word traps, or in the plain one, where results wrap to words; what is written goes
//! to a sink. The clause `says` of each function is the claim: whatever the text is, the status and the bytes are those that are due, and
//! nothing else is due; and what is due means this of each run of the text (`Says` in `specs/Sentences.antt`, `Means` in
//! `specs/Headline.antt` of `job_laws`). After `ReadFault` and `NoMemory` nothing was written, and after `WriteFault` a prefix of what is due.
//!
//! A run of n steps takes at most K(n + 1) firings, where K is 5(L + 1) + M, L the number of token lines and M the most operations that a
//! statement asks (`bound_of`); its rewritten form takes at most (M + 3)n steps (`run_bound`). Of a text with subroutines n counts steps of
//! the program with copies of them, at most four for each step of the text's run (`KeepsUp`).
#![tactic(auto)]

ghost use Rattle.std.specs.Prelude.{◌≢◌};
ghost use Rattle.job_terms.specs.Answers.{Blames, IsUnwritten, ReadsText, code_of};
ghost use Rattle.job_terms.specs.Tasks.{Forks, Graph, Play, Regen, Regions, Run, asked_in};
ghost use Rattle.headline.specs.Sentences.{Does};

use df_io::{Sink, Source};
use dfc_jobs::do_task;
use job_laws::texts_mean;
use job_terms::Task;
pub use job_terms::{Asked, Status, Told};
use net_tables::words_are_words;
use std::alloc::Global;

/// Writes the pieces, edges, classes and regions of the text's flow graph. Two edges have one class exactly where each closed walk with
/// either of them has both.
pub fn regions<S: Source, K: Sink>(
    alloc: Global,
    checked: bool,
    source: &mut S,
    sink: &mut K,
) -> Status
    ensures says { Does Regions checked (S.left source.old) (K.got sink.old) (K.got sink.new) result }
    ensures usage { result ≢ Status.Usage }
    ensures unwritten { IsUnwritten (K.got sink.old) (K.got sink.new) (code_of result) }
    ensures takes { ReadsText (S.left source.old) (S.left source.new) (code_of result) }
    ensures blames { Blames (S.faults source.old) (S.faults source.new) (K.faults sink.old) (K.faults sink.new) (code_of result) }
{
    texts_mean();
    do_task(alloc, Task::Regions, checked, source, sink)
}

/// Writes the lines, nodes and wires of the text's net of operations, which is the net that games fire, node for node.
pub fn graph<S: Source, K: Sink>(
    alloc: Global,
    checked: bool,
    source: &mut S,
    sink: &mut K,
) -> Status
    ensures says { Does Graph checked (S.left source.old) (K.got sink.old) (K.got sink.new) result }
    ensures usage { result ≢ Status.Usage }
    ensures unwritten { IsUnwritten (K.got sink.old) (K.got sink.new) (code_of result) }
    ensures takes { ReadsText (S.left source.old) (S.left source.new) (code_of result) }
    ensures blames { Blames (S.faults source.old) (S.faults source.new) (K.faults sink.old) (K.faults sink.new) (code_of result) }
{
    texts_mean();
    do_task(alloc, Task::Graph, checked, source, sink)
}

/// Fires the net of the text up to a rest, a trap or the limit, and writes the output of the program. Whatever the picks, it is a prefix
/// of what the text's run prints, and all of it at a rest and at a trap.
pub fn fire<S: Source, K: Sink>(
    alloc: Global,
    checked: bool,
    asked: Asked<'_>,
    source: &mut S,
    sink: &mut K,
) -> Status
    ensures says { Does (Play Told.Output (asked_in asked.entry)) checked (S.left source.old) (K.got sink.old) (K.got sink.new) result }
    ensures usage { result ≢ Status.Usage }
    ensures unwritten { IsUnwritten (K.got sink.old) (K.got sink.new) (code_of result) }
    ensures takes { ReadsText (S.left source.old) (S.left source.new) (code_of result) }
    ensures blames { Blames (S.faults source.old) (S.faults source.new) (K.faults sink.old) (K.faults sink.new) (code_of result) }
{
    texts_mean();
    do_task(
        alloc,
        Task::Play(Told::Output, asked),
        checked,
        source,
        sink,
    )
}

/// Fires the net as `fire` does, and writes the nodes as they fire, a line for each.
pub fn trace<S: Source, K: Sink>(
    alloc: Global,
    checked: bool,
    asked: Asked<'_>,
    source: &mut S,
    sink: &mut K,
) -> Status
    ensures says { Does (Play Told.Nodes (asked_in asked.entry)) checked (S.left source.old) (K.got sink.old) (K.got sink.new) result }
    ensures usage { result ≢ Status.Usage }
    ensures unwritten { IsUnwritten (K.got sink.old) (K.got sink.new) (code_of result) }
    ensures takes { ReadsText (S.left source.old) (S.left source.new) (code_of result) }
    ensures blames { Blames (S.faults source.old) (S.faults source.new) (K.faults sink.old) (K.faults sink.new) (code_of result) }
{
    texts_mean();
    do_task(alloc, Task::Play(Told::Nodes, asked), checked, source, sink)
}

/// Fires the net as `fire` does. Where it comes to rest, writes each name with its words as the program leaves them, which are those of the
/// text's run for the variable that has the name (`EndsByName`), and how many nodes fired; else nothing but how it ended.
pub fn store<S: Source, K: Sink>(
    alloc: Global,
    checked: bool,
    asked: Asked<'_>,
    source: &mut S,
    sink: &mut K,
) -> Status
    ensures says { Does (Play Told.Store (asked_in asked.entry)) checked (S.left source.old) (K.got sink.old) (K.got sink.new) result }
    ensures usage { result ≢ Status.Usage }
    ensures unwritten { IsUnwritten (K.got sink.old) (K.got sink.new) (code_of result) }
    ensures takes { ReadsText (S.left source.old) (S.left source.new) (code_of result) }
    ensures blames { Blames (S.faults source.old) (S.faults source.new) (K.faults sink.old) (K.faults sink.new) (code_of result) }
{
    texts_mean();
    do_task(alloc, Task::Play(Told::Store, asked), checked, source, sink)
}

/// Fires the net in which loads that follow one another along a token line fire in any order, and writes the output, or where `nodes` is
/// true the nodes as they fire.
pub fn forks<S: Source, K: Sink>(
    alloc: Global,
    checked: bool,
    nodes: bool,
    asked: Asked<'_>,
    source: &mut S,
    sink: &mut K,
) -> Status
    ensures says { Does (Forks nodes (asked_in asked.entry)) checked (S.left source.old) (K.got sink.old) (K.got sink.new) result }
    ensures usage { result ≢ Status.Usage }
    ensures unwritten { IsUnwritten (K.got sink.old) (K.got sink.new) (code_of result) }
    ensures takes { ReadsText (S.left source.old) (S.left source.new) (code_of result) }
    ensures blames { Blames (S.faults source.old) (S.faults source.new) (K.faults sink.old) (K.faults sink.new) (code_of result) }
{
    texts_mean();
    do_task(alloc, Task::Forks(nodes, asked), checked, source, sink)
}

/// Writes the text of the program's rewritten form, which prints what the source prints.
pub fn regen<S: Source, K: Sink>(
    alloc: Global,
    checked: bool,
    source: &mut S,
    sink: &mut K,
) -> Status
    ensures says { Does Regen checked (S.left source.old) (K.got sink.old) (K.got sink.new) result }
    ensures usage { result ≢ Status.Usage }
    ensures unwritten { IsUnwritten (K.got sink.old) (K.got sink.new) (code_of result) }
    ensures takes { ReadsText (S.left source.old) (S.left source.new) (code_of result) }
    ensures blames { Blames (S.faults source.old) (S.faults source.new) (K.faults sink.old) (K.faults sink.new) (code_of result) }
{
    texts_mean();
    do_task(alloc, Task::Regen, checked, source, sink)
}

/// Runs the program's rewritten form over these words for READ, up to its end, a trap or so many steps, and writes the output.
pub fn run<S: Source, K: Sink>(
    alloc: Global,
    checked: bool,
    limit: u64,
    input: &Vec<i32>,
    source: &mut S,
    sink: &mut K,
) -> Status
    ensures says { Does (Run limit input.now.items) checked (S.left source.old) (K.got sink.old) (K.got sink.new) result }
    ensures usage { result ≢ Status.Usage }
    ensures unwritten { IsUnwritten (K.got sink.old) (K.got sink.new) (code_of result) }
    ensures takes { ReadsText (S.left source.old) (S.left source.new) (code_of result) }
    ensures blames { Blames (S.faults source.old) (S.faults source.new) (K.faults sink.old) (K.faults sink.new) (code_of result) }
{
    texts_mean();
    words_are_words(input);
    do_task(alloc, Task::Run(limit, input), checked, source, sink)
}
