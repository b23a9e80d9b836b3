//! Runs of programs' rewritten forms.

ghost use Rattle.std.specs.Prelude.{◌≡◌, ◌≢◌, ◌≤◌, [], IfOk, OnErr};
ghost use Rattle.df_io.specs.Faults.{Rose};
ghost use Rattle.alias_classes.specs.Number.{HasFewClasses};
ghost use Rattle.f77_meaning.specs.Stepper.{input_of, program_of, state_of};
ghost use Rattle.f77_tree.specs.CanRun.{CanRun};
ghost use Rattle.f77_tree.specs.Run.{start};
ghost use Rattle.f77_tree.specs.WellFormed.{IsWellFormed};
ghost use Rattle.job_terms.specs.Answers.{AnswersAs};
ghost use Rattle.form_jobs.specs.DueForms.{IsDueRun, IsDueRunOf};
ghost use Rattle.form_jobs.specs.Stopping.{IsAtStart, IsBrokenOff, IsWritten};

use crate::rewriting_end::tell_end;
use df_io::{NoMemory, Sink, WriteFault, write_all};
use f77_meaning::{Stepped, Stepper};
use f77_tree::{Program, stopped_runs_stay, well_formed_programs_can_run};
use job_terms::{Status, tell_limit, tell_trap_alone};
use op_table::Trap;
use rewriting::rewrite;
use std::alloc::Global;

/// Runs a program's rewritten form, in a dialect, up to its end, a trap or the limit, writes the output, and after that the line that
/// tells of a trap or of the limit. All memory is taken before the first byte is written.
pub fn tell_run<K: Sink>(
    alloc: Global,
    limit: u64,
    input: &Vec<i32>,
    program: &Program,
    checked: bool,
    sink: &mut K,
) -> Status
    requires program { IsWellFormed program.now }
    requires few { HasFewClasses program.now }
    ensures due { AnswersAs (IsDueRun program.now checked input.now.items limit) (K.got sink.old) (K.got sink.new) result }
    ensures usage { result ≢ Status.Usage }
    ensures reads { result ≢ Status.ReadFault }
    ensures later { K.faults sink.old ≤ K.faults sink.new }
    ensures fault { result ≡ Status.WriteFault → Rose (K.faults sink.old) (K.faults sink.new) }
{
    match rewrite(alloc, program, checked) {
        Ok(form) => run_form(alloc, limit, input, &form, sink),
        Err(end) => tell_end(end, sink),
    }
}

/// How a run stopped.
#[derive(Clone, Copy, Debug, PartialEq, Eq)]
enum RunEnd {
    /// It ended.
    Ended,
    /// It trapped.
    Trapped(Trap),
    /// As many steps were made as are allowed, and it goes on.
    Limit,
}

// Runs a program over data, and tells of it.
fn run_form<K: Sink>(
    alloc: Global,
    limit: u64,
    input: &Vec<i32>,
    form: &Program,
    sink: &mut K,
) -> Status
    requires { IsWellFormed form.now }
    ensures due { AnswersAs (IsDueRunOf form.now input.now.items limit) (K.got sink.old) (K.got sink.new) result }
    ensures usage { result ≢ Status.Usage }
    ensures reads { result ≢ Status.ReadFault }
    ensures later { K.faults sink.old ≤ K.faults sink.new }
    ensures fault { result ≡ Status.WriteFault → Rose (K.faults sink.old) (K.faults sink.new) }
{
    well_formed_programs_can_run();
    match run_of(alloc, input, form) {
        Ok(mut run) => tell_steps(&mut run, limit, sink),
        Err(NoMemory) => Status::NoMemory,
    }
}

/// The run of a program over data, at its beginning.
pub fn run_of<'a>(
    alloc: Global,
    input: &Vec<i32>,
    form: &'a Program,
) -> Result<Stepper<'a>, NoMemory>
    requires { CanRun form.now }
    ensures { IfOk result (λ run. IsAtStart form.now input.now.items run) }
{
    Stepper::new(alloc, form, input)
}

/// Makes the steps of a run, and tells of them and of how they end. It takes no memory.
pub fn tell_steps<K: Sink>(run: &mut Stepper<'_>, limit: u64, sink: &mut K) -> Status
    requires can { CanRun (program_of run.old) }
    requires begins { IsAtStart (program_of run.old) (input_of run.old) run.old }
    ensures due { AnswersAs (IsDueRunOf (program_of run.old) (input_of run.old) limit) (K.got sink.old) (K.got sink.new) result }
    ensures usage { result ≢ Status.Usage }
    ensures reads { result ≢ Status.ReadFault }
    ensures memory { result ≢ Status.NoMemory }
    ensures later { K.faults sink.old ≤ K.faults sink.new }
    ensures fault { result ≡ Status.WriteFault → Rose (K.faults sink.old) (K.faults sink.new) }
{
    match make_steps(run, limit, sink) {
        Ok(RunEnd::Ended) => Status::Done,
        Ok(RunEnd::Trapped(trap)) => tell_trap_alone(trap, sink),
        Ok(RunEnd::Limit) => tell_limit(limit, sink),
        Err(WriteFault) => Status::WriteFault,
    }
}

// Makes steps up to the end of the run, a trap or the limit, and writes each line as it is printed.
fn make_steps<K: Sink>(
    run: &mut Stepper<'_>,
    limit: u64,
    sink: &mut K,
) -> Result<RunEnd, WriteFault>
    requires can { CanRun (program_of run.old) }
    requires starts { state_of run.old [] ≡ start (program_of run.old) }
    ensures told { IfOk result (λ end. IsWritten (program_of run.old) (input_of run.old) limit end (K.got sink.old) (K.got sink.new)) }
    ensures begun { OnErr result (IsBrokenOff (program_of run.old) (input_of run.old) limit (K.got sink.old) (K.got sink.new)) }
    ensures later { K.faults sink.old ≤ K.faults sink.new }
    ensures fault { OnErr result (Rose (K.faults sink.old) (K.faults sink.new)) }
{
    stopped_runs_stay();
    let mut made: u64 = 0;
    while made < limit {
        match run.step() {
            Stepped::Moved => {}
            Stepped::Line => write_all(sink, run.line())?,
            Stepped::Ended => return Ok(RunEnd::Ended),
            Stepped::Trapped(trap, _) => return Ok(RunEnd::Trapped(trap)),
        }
        made += 1;
    }
    Ok(RunEnd::Limit)
}
