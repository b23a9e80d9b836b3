//! What becomes of sample programs.

ghost use Rattle.std.specs.Prelude.{◌≡◌, ◌≢◌, ◌≤◌, [], false, None, OnOk, OnErr};
ghost use Rattle.std.specs.Io.KnownBytes.{Appends};
ghost use Rattle.df_io.specs.Faults.{Rose};
ghost use Rattle.df_io.specs.Write.{AppendsPrefix};
ghost use Rattle.alias_classes.specs.Number.{HasFewClasses};
ghost use Rattle.f77_tree.specs.CanRun.{CanRun};
ghost use Rattle.f77_tree.specs.Operations.{HasFewOperations};
ghost use Rattle.f77_tree.specs.WellFormed.{IsWellFormed};
ghost use Rattle.flow_analysis.specs.Analysis.{IsRangeAnalysisOf};
ghost use Rattle.f77_meaning.specs.Stepper.{input_of, program_of};
ghost use Rattle.firing.specs.Control.{IsInStep};
ghost use Rattle.firing.specs.Play.{moment};
ghost use Rattle.op_board.specs.OperationCourse.{operation_course};
ghost use Rattle.op_board.specs.OperationTokens.{operation_moves};
ghost use Rattle.op_board.specs.SoundOperationNets.{OperationsCanCome};
ghost use Rattle.op_net.specs.NetView.{marking_of, net_of};
ghost use Rattle.op_net.specs.StaysInStep.{StaysInStep};
ghost use Rattle.rewriting.specs.Rewritten.{IsRewritten};
ghost use Rattle.sample_texts.specs.SampleText.{sample_text as spec_sample_text};
ghost use Rattle.job_terms.specs.Answers.{AnswersAs};
ghost use Rattle.sample_jobs.specs.DueSamples.{IsDueSample, IsDueSampleText, IsSampleDue, sample_limit};
ghost use Rattle.program_nets.specs.Playing.{way_by};
ghost use Rattle.job_terms.specs.Reading.{IfAccepted, reading};
ghost use Rattle.sample_jobs.specs.Samples.{AreBothOf, IsAfter, sizes_text};
ghost use Rattle.form_jobs.specs.Stopping.{IsAtStart};
ghost use Rattle.job_terms.specs.Tasks.{IsSampleNumber};

use crate::sample_lines::{found_line, net_line, sample_line};
use alias_classes::CLASS_WORDS;
use df_io::{NoMemory, Sink, WriteFault, write_all};
use f77_meaning::Stepper;
use f77_tree::{Program, well_formed_programs_can_run};
use firing::{Show, StepSystem, runs_end};
use flow_analysis::{Analysis, analyze_by_ranges};
use form_jobs::{run_of, tell_end, tell_steps};
use game_jobs::tell_game;
use job_terms::{NoProgram, Status, read_bytes, tell_refusal};
use op_net::OpNet;
use program_nets::are_net_parts;
use rewriting::rewrite;
use sample_texts::sample_text;
use std::alloc::Global;

// The most firings of the game, and the most steps of the run.
const LIMIT: u64 = 1_000_000;

/// A sample: its number, how many bytes its text has, and the most firings and steps that are made.
#[derive(Clone, Copy, Debug, PartialEq, Eq)]
struct Sample {
    number: u32,
    bytes: usize,
    limit: u64,
}

/// Makes the text of a sample, and tells how large it is, the game of its program and the run of its rewritten form. All memory is
/// taken before the first byte is written.
pub fn tell_sample<K: Sink>(alloc: Global, n: u32, sink: &mut K) -> Status
    requires { IsSampleNumber n }
    ensures due { AnswersAs (IsDueSampleText n sample_limit (spec_sample_text n)) (K.got sink.old) (K.got sink.new) result }
    ensures own { result ≢ Status.NoMemory → IfAccepted (reading false (spec_sample_text n)) IsWellFormed }
    ensures usage { result ≢ Status.Usage }
    ensures reads { result ≢ Status.ReadFault }
    ensures later { K.faults sink.old ≤ K.faults sink.new }
    ensures fault { result ≡ Status.WriteFault → Rose (K.faults sink.old) (K.faults sink.new) }
{
    match sample_text(alloc, n) {
        Ok(text) => on_text(alloc, n, text.as_slice(), LIMIT, sink),
        Err(NoMemory) => Status::NoMemory,
    }
}

// Tells of the text of a sample.
fn on_text<K: Sink>(alloc: Global, number: u32, text: &[u8], limit: u64, sink: &mut K) -> Status
    ensures due { AnswersAs (IsDueSampleText number limit text.now) (K.got sink.old) (K.got sink.new) result }
    ensures own { result ≢ Status.NoMemory → IfAccepted (reading false text.now) IsWellFormed }
    ensures usage { result ≢ Status.Usage }
    ensures reads { result ≢ Status.ReadFault }
    ensures later { K.faults sink.old ≤ K.faults sink.new }
    ensures fault { result ≡ Status.WriteFault → Rose (K.faults sink.old) (K.faults sink.new) }
{
    let sample = Sample {
        number,
        bytes: text.len(),
        limit,
    };
    match read_bytes(alloc, text, false) {
        Ok(program) => on_program(alloc, sample, &program, sink),
        Err(NoProgram::Refused { line, code }) => tell_refusal(line, code, sink),
        Err(NoProgram::ReadFault) => unreachable!(),
        Err(NoProgram::NoMemory) => Status::NoMemory,
    }
}

// Tells of the program of a sample.
fn on_program<K: Sink>(alloc: Global, sample: Sample, program: &Program, sink: &mut K) -> Status
    requires program { IsWellFormed program.now }
    requires few { HasFewClasses program.now }
    requires modest { HasFewOperations program.now }
    ensures due { AnswersAs (IsDueSample sample.number sample.bytes sample.limit program.now) (K.got sink.old) (K.got sink.new) result }
    ensures usage { result ≢ Status.Usage }
    ensures reads { result ≢ Status.ReadFault }
    ensures later { K.faults sink.old ≤ K.faults sink.new }
    ensures fault { result ≡ Status.WriteFault → Rose (K.faults sink.old) (K.faults sink.new) }
{
    match rewrite(alloc, program, false) {
        Ok(form) => with_form(alloc, sample, program, &form, sink),
        Err(end) => tell_end(end, sink),
    }
}

// Tells of a program that has a rewritten form.
fn with_form<K: Sink>(
    alloc: Global,
    sample: Sample,
    program: &Program,
    form: &Program,
    sink: &mut K,
) -> Status
    requires program { IsWellFormed program.now }
    requires few { HasFewClasses program.now }
    requires modest { HasFewOperations program.now }
    requires form { IsWellFormed form.now }
    requires rewritten { IsRewritten program.now false form.now }
    ensures due { AnswersAs (IsSampleDue sample.number sample.bytes sample.limit program.now) (K.got sink.old) (K.got sink.new) result }
    ensures usage { result ≢ Status.Usage }
    ensures reads { result ≢ Status.ReadFault }
    ensures later { K.faults sink.old ≤ K.faults sink.new }
    ensures fault { result ≡ Status.WriteFault → Rose (K.faults sink.old) (K.faults sink.new) }
{
    well_formed_programs_can_run();
    let input = Vec::new(alloc);
    match run_of(alloc, &input, form) {
        Ok(mut run) => with_run(alloc, sample, program, &mut run, sink),
        Err(NoMemory) => Status::NoMemory,
    }
}

// Tells of a program, with the run of its rewritten form.
fn with_run<K: Sink>(
    alloc: Global,
    sample: Sample,
    program: &Program,
    run: &mut Stepper<'_>,
    sink: &mut K,
) -> Status
    requires program { IsWellFormed program.now }
    requires few { HasFewClasses program.now }
    requires modest { HasFewOperations program.now }
    requires can { CanRun (program_of run.old) }
    requires input { input_of run.old ≡ [] }
    requires begins { IsAtStart (program_of run.old) (input_of run.old) run.old }
    requires rewritten { IsRewritten program.now false (program_of run.old) }
    ensures due { AnswersAs (IsSampleDue sample.number sample.bytes sample.limit program.now) (K.got sink.old) (K.got sink.new) result }
    ensures usage { result ≢ Status.Usage }
    ensures reads { result ≢ Status.ReadFault }
    ensures later { K.faults sink.old ≤ K.faults sink.new }
    ensures fault { result ≡ Status.WriteFault → Rose (K.faults sink.old) (K.faults sink.new) }
{
    match analyze_by_ranges(alloc, program) {
        Ok(analysis) => with_analysis(alloc, sample, program, &analysis, run, sink),
        Err(NoMemory) => Status::NoMemory,
    }
}

// Tells of a program, with what was found of it and the run of its rewritten form.
fn with_analysis<K: Sink>(
    alloc: Global,
    sample: Sample,
    program: &Program,
    analysis: &Analysis<'_>,
    run: &mut Stepper<'_>,
    sink: &mut K,
) -> Status
    requires program { IsWellFormed program.now }
    requires analysis { IsRangeAnalysisOf program.now analysis.now }
    requires modest { HasFewOperations program.now }
    requires can { CanRun (program_of run.old) }
    requires input { input_of run.old ≡ [] }
    requires begins { IsAtStart (program_of run.old) (input_of run.old) run.old }
    requires rewritten { IsRewritten program.now false (program_of run.old) }
    ensures due { AnswersAs (IsSampleDue sample.number sample.bytes sample.limit program.now) (K.got sink.old) (K.got sink.new) result }
    ensures usage { result ≢ Status.Usage }
    ensures reads { result ≢ Status.ReadFault }
    ensures later { K.faults sink.old ≤ K.faults sink.new }
    ensures fault { result ≡ Status.WriteFault → Rose (K.faults sink.old) (K.faults sink.new) }
{
    are_net_parts(program, analysis);
    let input = Vec::new(alloc);
    let made = OpNet::new(
        alloc,
        program,
        &analysis.flow,
        &analysis.classes,
        &analysis.touch,
        &analysis.lines,
        &input,
    );
    match made {
        Ok(mut net) => tell_all(sample, analysis, &mut net, run, sink),
        Err(NoMemory) => Status::NoMemory,
    }
}

// Tells the sizes of a sample, its game and its run.
fn tell_all<K: Sink>(
    sample: Sample,
    analysis: &Analysis<'_>,
    net: &mut OpNet<'_, CLASS_WORDS>,
    run: &mut Stepper<'_>,
    sink: &mut K,
) -> Status
    requires own { (net_of net.old).net.routing ≡ analysis.now.lines }
    requires sound { OperationsCanCome (net_of net.old) (marking_of net.old) }
    requires in_step { IsInStep (operation_moves (net_of net.old)) (StaysInStep (net_of net.old)) (marking_of net.old) net.old.control }
    requires control { net.old.control ≢ None }
    requires can { CanRun (program_of run.old) }
    requires input { input_of run.old ≡ [] }
    requires begins { IsAtStart (program_of run.old) (input_of run.old) run.old }
    ensures due { AnswersAs (IsAfter (sizes_text sample.number sample.bytes analysis.now.flow analysis.now.edge_classes.items analysis.now.tree (net_of net.old)) (AreBothOf (way_by (operation_moves (net_of net.old)) (operation_course (net_of net.old)) []) (moment (marking_of net.old) net.old.control) sample.limit (program_of run.old))) (K.got sink.old) (K.got sink.new) result }
    ensures usage { result ≢ Status.Usage }
    ensures reads { result ≢ Status.ReadFault }
    ensures later { K.faults sink.old ≤ K.faults sink.new }
    ensures fault { result ≡ Status.WriteFault → Rose (K.faults sink.old) (K.faults sink.new) }
{
    runs_end::<OpNet<'static, CLASS_WORDS>>();
    match tell_sizes(sample, analysis, net, sink) {
        Ok(()) => tell_both(sample.limit, net, run, sink),
        Err(WriteFault) => Status::WriteFault,
    }
}

// Plays the game of a sample, and where it comes to rest makes the run.
fn tell_both<K: Sink>(
    limit: u64,
    net: &mut OpNet<'_, CLASS_WORDS>,
    run: &mut Stepper<'_>,
    sink: &mut K,
) -> Status
    requires sound { OperationsCanCome (net_of net.old) (marking_of net.old) }
    requires in_step { IsInStep (operation_moves (net_of net.old)) (StaysInStep (net_of net.old)) (marking_of net.old) net.old.control }
    requires control { net.old.control ≢ None }
    requires can { CanRun (program_of run.old) }
    requires input { input_of run.old ≡ [] }
    requires begins { IsAtStart (program_of run.old) (input_of run.old) run.old }
    ensures due { AnswersAs (AreBothOf (way_by (operation_moves (net_of net.old)) (operation_course (net_of net.old)) []) (moment (marking_of net.old) net.old.control) limit (program_of run.old)) (K.got sink.old) (K.got sink.new) result }
    ensures usage { result ≢ Status.Usage }
    ensures reads { result ≢ Status.ReadFault }
    ensures memory { result ≢ Status.NoMemory }
    ensures later { K.faults sink.old ≤ K.faults sink.new }
    ensures fault { result ≡ Status.WriteFault → Rose (K.faults sink.old) (K.faults sink.new) }
{
    match tell_game(net, &[], limit, Show::Output, sink) {
        Status::Done => tell_steps(run, limit, sink),
        status => status,
    }
}

// Writes the sizes of a sample.
fn tell_sizes<K: Sink>(
    sample: Sample,
    analysis: &Analysis<'_>,
    net: &OpNet<'_, CLASS_WORDS>,
    sink: &mut K,
) -> Result<(), WriteFault>
    requires own { (net_of net.now).net.routing ≡ analysis.now.lines }
    ensures all { OnOk result (Appends (K.got sink.old) (K.got sink.new) (sizes_text sample.number sample.bytes analysis.now.flow analysis.now.edge_classes.items analysis.now.tree (net_of net.now))) }
    ensures prefix { OnErr result (AppendsPrefix (K.got sink.old) (K.got sink.new) (sizes_text sample.number sample.bytes analysis.now.flow analysis.now.edge_classes.items analysis.now.tree (net_of net.now))) }
    ensures later { K.faults sink.old ≤ K.faults sink.new }
    ensures fault { OnErr result (Rose (K.faults sink.old) (K.faults sink.new)) }
{
    write_all(
        sink,
        sample_line(sample.number, sample.bytes).as_str().as_bytes(),
    )?;
    write_all(sink, found_line(analysis).as_str().as_bytes())?;
    let line = net_line(analysis.lines.lines(), net.nodes());
    write_all(sink, line.as_str().as_bytes())
}
