//! Games that are played on a program, in which the loads of a group fire in any order.

ghost use Rattle.std.specs.Prelude.{◌≡◌, ◌≢◌, ◌≤◌, []};
ghost use Rattle.df_io.specs.Faults.{Rose};
ghost use Rattle.alias_classes.specs.Number.{HasFewClasses};
ghost use Rattle.f77_tree.specs.Operations.{HasFewOperations};
ghost use Rattle.f77_tree.specs.WellFormed.{IsWellFormed};
ghost use Rattle.flow_analysis.specs.Analysis.{IsRangeAnalysisOf};
ghost use Rattle.job_terms.specs.Answers.{AnswersAs};
ghost use Rattle.game_jobs.specs.DueGames.{IsDuePlay, shown_by_forks, told_by_forks};
ghost use Rattle.program_nets.specs.Game.{fork_game};
ghost use Rattle.job_terms.specs.Tasks.{asked_in};

use crate::game::tell_game;
use crate::playing::net_over;
use df_io::{NoMemory, Sink};
use f77_tree::Program;
use firing::Show;
use flow_analysis::{Analysis, analyze_by_ranges};
use fork_board::own_runs_are_alike;
use job_terms::{Asked, Status};
use program_nets::are_net_parts;
use read_forks::ForkNet;
use std::alloc::Global;

/// Plays the game of a program in which the loads of a group fire in any order, and writes its output, or the nodes as they fire. All
/// memory is taken before the first byte is written.
pub fn play_forks<K: Sink>(
    alloc: Global,
    nodes: bool,
    asked: Asked<'_>,
    program: &Program,
    sink: &mut K,
) -> Status
    requires program { IsWellFormed program.now }
    requires few { HasFewClasses program.now }
    requires modest { HasFewOperations program.now }
    ensures due { AnswersAs (IsDuePlay fork_game (told_by_forks nodes) (asked_in asked.entry) program.now) (K.got sink.old) (K.got sink.new) result }
    ensures usage { result ≢ Status.Usage }
    ensures reads { result ≢ Status.ReadFault }
    ensures later { K.faults sink.old ≤ K.faults sink.new }
    ensures fault { result ≡ Status.WriteFault → Rose (K.faults sink.old) (K.faults sink.new) }
{
    match analyze_by_ranges(alloc, program) {
        Ok(analysis) => {
            if asked.picks.is_empty() {
                play_in_turn(alloc, nodes, asked, program, &analysis, sink)
            } else {
                play_by_picks(alloc, nodes, asked, program, &analysis, sink)
            }
        }
        Err(NoMemory) => Status::NoMemory,
    }
}

// Plays in the source's own order. There a net whose operations fire in turn has the same run, and it fires whole pieces at once.
fn play_in_turn<K: Sink>(
    alloc: Global,
    nodes: bool,
    asked: Asked<'_>,
    program: &Program,
    analysis: &Analysis<'_>,
    sink: &mut K,
) -> Status
    requires in_turn { asked.picks.now ≡ [] }
    requires program { IsWellFormed program.now }
    requires analysis { IsRangeAnalysisOf program.now analysis.now }
    requires modest { HasFewOperations program.now }
    ensures due { AnswersAs (IsDuePlay fork_game (told_by_forks nodes) (asked_in asked.entry) program.now) (K.got sink.old) (K.got sink.new) result }
    ensures usage { result ≢ Status.Usage }
    ensures reads { result ≢ Status.ReadFault }
    ensures later { K.faults sink.old ≤ K.faults sink.new }
    ensures fault { result ≡ Status.WriteFault → Rose (K.faults sink.old) (K.faults sink.new) }
{
    own_runs_are_alike();
    match net_over(alloc, asked.input, program, analysis) {
        Ok(mut net) => tell_game(&mut net, asked.picks, asked.limit, show_of(nodes), sink),
        Err(NoMemory) => Status::NoMemory,
    }
}

// Plays the net of a program in which the loads of a group fire in any order, by the picks.
fn play_by_picks<K: Sink>(
    alloc: Global,
    nodes: bool,
    asked: Asked<'_>,
    program: &Program,
    analysis: &Analysis<'_>,
    sink: &mut K,
) -> Status
    requires program { IsWellFormed program.now }
    requires analysis { IsRangeAnalysisOf program.now analysis.now }
    requires modest { HasFewOperations program.now }
    ensures due { AnswersAs (IsDuePlay fork_game (told_by_forks nodes) (asked_in asked.entry) program.now) (K.got sink.old) (K.got sink.new) result }
    ensures usage { result ≢ Status.Usage }
    ensures reads { result ≢ Status.ReadFault }
    ensures later { K.faults sink.old ≤ K.faults sink.new }
    ensures fault { result ≡ Status.WriteFault → Rose (K.faults sink.old) (K.faults sink.new) }
{
    are_net_parts(program, analysis);
    let made = ForkNet::new(
        alloc,
        program,
        &analysis.flow,
        &analysis.classes,
        &analysis.touch,
        &analysis.lines,
        asked.input,
    );
    match made {
        Ok(mut net) => tell_game(&mut net, asked.picks, asked.limit, show_of(nodes), sink),
        Err(NoMemory) => Status::NoMemory,
    }
}

// What is shown of the firings: the nodes, or the output.
fn show_of(nodes: bool) -> Show
    ensures { result ≡ shown_by_forks nodes }
{
    if nodes { Show::Nodes } else { Show::Output }
}
