//! Games that are played on a program.

ghost use Rattle.std.specs.Prelude.{◌≡◌, ◌≢◌, ◌≤◌, IfOk};
ghost use Rattle.df_io.specs.Faults.{Rose};
ghost use Rattle.alias_classes.specs.Number.{HasFewClasses};
ghost use Rattle.f77_tree.specs.Operations.{HasFewOperations};
ghost use Rattle.f77_tree.specs.WellFormed.{IsWellFormed};
ghost use Rattle.flow_analysis.specs.Analysis.{IsRangeAnalysisOf};
ghost use Rattle.job_terms.specs.Answers.{AnswersAs};
ghost use Rattle.game_jobs.specs.DueGames.{IsDuePlay};
ghost use Rattle.program_nets.specs.Game.{operation_game};
ghost use Rattle.game_jobs.specs.PlayedNets.{CanBePlayed, IsOpeningNet, IsToldOf};
ghost use Rattle.job_terms.specs.Tasks.{asked_in};

use crate::game::{play_game, tell_game};
use crate::store::tell_store;
use alias_classes::CLASS_WORDS;
use df_io::{NoMemory, Sink, WriteFault};
use f77_tree::Program;
use firing::{PlayEnd, Show, runs_end};
use flow_analysis::{Analysis, analyze_by_ranges};
use job_terms::{Asked, Status, Told, tell_limit, tell_trap};
use op_net::OpNet;
use program_nets::are_net_parts;
use std::alloc::Global;

/// Plays the game of a program, and tells of it. All memory is taken before the first byte is written.
pub fn play<K: Sink>(
    alloc: Global,
    told: Told,
    asked: Asked<'_>,
    program: &Program,
    sink: &mut K,
) -> Status
    requires program { IsWellFormed program.now }
    requires few { HasFewClasses program.now }
    requires modest { HasFewOperations program.now }
    ensures due { AnswersAs (IsDuePlay operation_game told (asked_in asked.entry) program.now) (K.got sink.old) (K.got sink.new) result }
    ensures usage { result ≢ Status.Usage }
    ensures reads { result ≢ Status.ReadFault }
    ensures later { K.faults sink.old ≤ K.faults sink.new }
    ensures fault { result ≡ Status.WriteFault → Rose (K.faults sink.old) (K.faults sink.new) }
{
    match analyze_by_ranges(alloc, program) {
        Ok(analysis) => play_net(alloc, told, asked, program, &analysis, sink),
        Err(NoMemory) => Status::NoMemory,
    }
}

/// The net of a program over data, before any firing.
pub fn net_over<'a>(
    alloc: Global,
    input: &Vec<i32>,
    program: &'a Program,
    analysis: &'a Analysis<'_>,
) -> Result<OpNet<'a, CLASS_WORDS>, NoMemory>
    requires program { IsWellFormed program.now }
    requires analysis { IsRangeAnalysisOf program.now analysis.now }
    requires modest { HasFewOperations program.now }
    ensures { IfOk result (λ net. IsOpeningNet program.now input.now.items net) }
{
    are_net_parts(program, analysis);
    let net = OpNet::new(
        alloc,
        program,
        &analysis.flow,
        &analysis.classes,
        &analysis.touch,
        &analysis.lines,
        input,
    )?;
    Ok(net)
}

// Plays the net of a program, and tells of it.
fn play_net<K: Sink>(
    alloc: Global,
    told: Told,
    asked: Asked<'_>,
    program: &Program,
    analysis: &Analysis<'_>,
    sink: &mut K,
) -> Status
    requires program { IsWellFormed program.now }
    requires analysis { IsRangeAnalysisOf program.now analysis.now }
    requires modest { HasFewOperations program.now }
    ensures due { AnswersAs (IsDuePlay operation_game told (asked_in asked.entry) program.now) (K.got sink.old) (K.got sink.new) result }
    ensures usage { result ≢ Status.Usage }
    ensures reads { result ≢ Status.ReadFault }
    ensures later { K.faults sink.old ≤ K.faults sink.new }
    ensures fault { result ≡ Status.WriteFault → Rose (K.faults sink.old) (K.faults sink.new) }
{
    match net_over(alloc, asked.input, program, analysis) {
        Ok(mut net) => tell_net(told, program, &mut net, asked.picks, asked.limit, sink),
        Err(NoMemory) => Status::NoMemory,
    }
}

// Plays a net, and writes what is told of it.
fn tell_net<K: Sink>(
    told: Told,
    program: &Program,
    net: &mut OpNet<'_, CLASS_WORDS>,
    picks: &[u32],
    limit: u64,
    sink: &mut K,
) -> Status
    requires program { IsWellFormed program.now }
    requires net { CanBePlayed program.now net.old }
    ensures due { AnswersAs (IsToldOf told program.now net.old picks.now limit) (K.got sink.old) (K.got sink.new) result }
    ensures usage { result ≢ Status.Usage }
    ensures reads { result ≢ Status.ReadFault }
    ensures memory { result ≢ Status.NoMemory }
    ensures later { K.faults sink.old ≤ K.faults sink.new }
    ensures fault { result ≡ Status.WriteFault → Rose (K.faults sink.old) (K.faults sink.new) }
{
    match told {
        Told::Output => tell_game(net, picks, limit, Show::Output, sink),
        Told::Nodes => tell_game(net, picks, limit, Show::Nodes, sink),
        Told::Store => tell_rest(program, net, picks, limit, sink),
    }
}

// Plays a net, and writes the store with which it comes to rest.
fn tell_rest<K: Sink>(
    program: &Program,
    net: &mut OpNet<'_, CLASS_WORDS>,
    picks: &[u32],
    limit: u64,
    sink: &mut K,
) -> Status
    requires program { IsWellFormed program.now }
    requires net { CanBePlayed program.now net.old }
    ensures due { AnswersAs (IsToldOf Told.Store program.now net.old picks.now limit) (K.got sink.old) (K.got sink.new) result }
    ensures usage { result ≢ Status.Usage }
    ensures reads { result ≢ Status.ReadFault }
    ensures memory { result ≢ Status.NoMemory }
    ensures later { K.faults sink.old ≤ K.faults sink.new }
    ensures fault { result ≡ Status.WriteFault → Rose (K.faults sink.old) (K.faults sink.new) }
{
    runs_end::<OpNet<'static, CLASS_WORDS>>();
    match play_game(net, picks, limit, Show::Nothing, sink) {
        PlayEnd::Rest(firings) => match tell_store(program, net, firings, sink) {
            Ok(()) => Status::Done,
            Err(WriteFault) => Status::WriteFault,
        },
        PlayEnd::Trapped(trap, line) => tell_trap(trap, line, sink),
        PlayEnd::Limit => tell_limit(limit, sink),
        PlayEnd::WriteFault(_) => Status::WriteFault,
    }
}
