//! What is done with the program of a text.

ghost use Rattle.std.specs.Prelude.{◌≡◌, ◌≢◌, ◌≤◌, IfSome};
ghost use Rattle.df_io.specs.Faults.{Rose};
ghost use Rattle.f77_tree.specs.Operations.{HasFewOperations};
ghost use Rattle.f77_tree.specs.WellFormed.{IsWellFormed};
ghost use Rattle.alias_classes.specs.Number.{HasFewClasses};
ghost use Rattle.job_terms.specs.Answers.{AnswersAs, Blames, HasAll, IsUnwritten, ReadsText, code_of};
ghost use Rattle.dfc_jobs.specs.Due.{IsDueOn, IsDueRead};
ghost use Rattle.job_terms.specs.Reading.{IsOwnProgram, reading};
ghost use Rattle.job_terms.specs.Tasks.{task_meant};
ghost use Rattle.f77_tree.specs.Dialects.{IsOfDialect};

use df_io::{Sink, Source};
use f77_tree::Program;
use form_jobs::{tell_regen, tell_run};
use game_jobs::{play, play_forks};
use graph_jobs::{tell_graph, tell_regions};
use job_terms::{NoProgram, Status, Task, read_program, tell_refusal};
use std::alloc::Global;

/// Does a task on the program of the text that the source has, read in the checked dialect, where a result that is no word traps, or in
/// the plain one, where results wrap to words. What is due is written to the sink.
pub fn do_task<S: Source, K: Sink>(
    alloc: Global,
    task: Task<'_>,
    checked: bool,
    source: &mut S,
    sink: &mut K,
) -> Status
    ensures due { IfSome (S.left source.old) (λ bytes. AnswersAs (IsDueRead (task_meant task.entry) checked (reading checked bytes)) (K.got sink.old) (K.got sink.new) result) }
    ensures words { result ≢ Status.Usage }
    ensures unwritten { IsUnwritten (K.got sink.old) (K.got sink.new) (code_of result) }
    // The program that the text was read as is laid out from the statements of the text, well formed and of the dialect.
    ensures own { HasAll (code_of result) → IfSome (S.left source.old) (λ bytes. IsOwnProgram bytes checked) }
    ensures takes { ReadsText (S.left source.old) (S.left source.new) (code_of result) }
    ensures blames { Blames (S.faults source.old) (S.faults source.new) (K.faults sink.old) (K.faults sink.new) (code_of result) }
{
    match read_program(alloc, source, checked) {
        Ok(program) => on_program(alloc, task, checked, &program, sink),
        Err(NoProgram::Refused { line, code }) => tell_refusal(line, code, sink),
        Err(NoProgram::ReadFault) => Status::ReadFault,
        Err(NoProgram::NoMemory) => Status::NoMemory,
    }
}

// Does a task on a program.
fn on_program<K: Sink>(
    alloc: Global,
    task: Task<'_>,
    checked: bool,
    program: &Program,
    sink: &mut K,
) -> Status
    requires program { IsWellFormed program.now }
    requires dialect { IsOfDialect checked program.now }
    requires few { HasFewClasses program.now }
    requires modest { HasFewOperations program.now }
    ensures due { AnswersAs (IsDueOn (task_meant task.entry) checked program.now) (K.got sink.old) (K.got sink.new) result }
    ensures words { result ≢ Status.Usage }
    ensures reads { result ≢ Status.ReadFault }
    ensures later { K.faults sink.old ≤ K.faults sink.new }
    ensures fault { result ≡ Status.WriteFault → Rose (K.faults sink.old) (K.faults sink.new) }
{
    match task {
        Task::Regions => tell_regions(alloc, program, sink),
        Task::Graph => tell_graph(alloc, program, sink),
        Task::Play(told, asked) => play(alloc, told, asked, program, sink),
        Task::Forks(nodes, asked) => play_forks(alloc, nodes, asked, program, sink),
        Task::Regen => tell_regen(alloc, program, checked, sink),
        Task::Run(limit, input) => tell_run(alloc, limit, input, program, checked, sink),
    }
}
