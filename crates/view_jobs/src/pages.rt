//! Pages with two runs of a program.

ghost use Rattle.std.specs.Prelude.{◌≡◌, IfOk, OnOk, map, string_bytes};
ghost use Rattle.view_commands.specs.Words.{program_meant};
ghost use Rattle.view_jobs.specs.Drawn.{Draws, OfGraphs, OfRun, loads_of as spec_loads_of, rounds_by};
ghost use Rattle.view_jobs.specs.Given.{IsWithin, given_meant};
ghost use Rattle.view_jobs.specs.Pages.{AreRuns, IsPageOfTwo, IsRunBy, IsSeenRun, ShowsPage};
ghost use Rattle.view_jobs.specs.Programs.{UnlessRefused};
ghost use Rattle.view_output.specs.Told.{told};

use crate::DONE;
use crate::charts::{draw_page, graphs_of, rounds_in, trace_of};
use crate::given::Given;
use crate::outputs::output_of;
use crate::refusals::refused;
use crate::view::{loads_of, seen};
use df_io::Sink;
use lane_charts::Run;
use made_texts::{TextSink, print_run};
use printed_graphs::{Printed, PrintedFlow, PrintedGraph};
use std::alloc::Global;
use view_commands::{Program, with_picks, without_picks};
use view_output::{Fault, Output};

/// A run of a program.
#[derive(Drop)]
pub struct SeenRun {
    /// What `dfc` prints of the program and of the run, with lines and names of the source.
    printed: Printed,
    /// The round of each firing.
    rounds: Vec<u32>,
    /// What the program prints in it.
    output: Vec<u8>,
}

/// Two runs of a program.
#[derive(Drop)]
pub struct BothRuns {
    /// The one in the order of the text.
    first: SeenRun,
    /// The one by picks.
    second: SeenRun,
}

/// Shows a page with a run in the order of the text, and one by picks, and answers the status to end with. Where the program is refused, `errors` gets why.
pub fn show_page<K: Sink + Drop, E: Sink + Drop>(
    alloc: Global,
    program: Program<'_>,
    given: &Given,
    output: &mut Output<K>,
    errors: &mut Output<E>,
) -> Result<u8, Fault>
    requires { IsWithin (given_meant given.now) }
    ensures { IfOk result (UnlessRefused (program_meant program.entry) (given_meant given.now) (ShowsPage (given_meant given.now) (program_meant program.entry).words (told K.got output.old) (told K.got output.new)) (told K.got output.old) (told K.got output.new) (told E.got errors.old) (told E.got errors.new)) }
{
    match both_runs(alloc, given, program.words) {
        Ok(runs) => {
            write_both(alloc, &runs, given.source(), output)?;
            Ok(DONE)
        }
        Err(fault) => refused(alloc, program, given, fault, errors),
    }
}

// The runs of a program in the order of the text and by picks.
fn both_runs(alloc: Global, given: &Given, words: &[String]) -> Result<BothRuns, Fault>
    ensures { IfOk result (AreRuns (given_meant given.now) (map string_bytes words.now)) }
{
    let in_order = without_picks(alloc, words)?;
    let by_picks = with_picks(alloc, words)?;
    Ok(BothRuns {
        first: run_by(alloc, given, in_order.as_slice())?,
        second: run_by(alloc, given, by_picks.as_slice())?,
    })
}

// The run of a program that the words tell.
fn run_by(alloc: Global, given: &Given, words: &[String]) -> Result<SeenRun, Fault>
    ensures { IfOk result (IsRunBy (given_meant given.now) (map string_bytes words.now)) }
{
    let mut text = TextSink::new(alloc);
    print_run(alloc, given.text(), words, &mut text)?;
    let printed = seen(alloc, given, text.text())?;
    let rounds = rounds_of_run(alloc, &printed, words)?;
    let (output, _) = output_of(alloc, given, words)?;
    Ok(SeenRun {
        printed,
        rounds,
        output,
    })
}

// The round of each firing of the run that the words tell.
fn rounds_of_run(alloc: Global, printed: &Printed, words: &[String]) -> Result<Vec<u32>, Fault>
    ensures { IfOk result (λ rounds. OfRun printed.now (λ flow graph trace. rounds.items ≡ rounds_by graph (spec_loads_of (map string_bytes words.now)) trace)) }
{
    let (_, graph) = graphs_of(printed)?;
    let trace = trace_of(printed)?;
    let loads = loads_of(words);
    rounds_in(alloc, printed, graph, loads, trace)
}

// Writes the page of two runs, on the graph of the first.
fn write_both<K: Sink + Drop>(
    alloc: Global,
    runs: &BothRuns,
    source: &[u8],
    output: &mut Output<K>,
) -> Result<(), Fault>
    ensures { OnOk result (OfGraphs runs.now.first.printed (λ flow graph. Draws (IsPageOfTwo flow graph runs.now) (told K.got output.old) (told K.got output.new))) }
{
    let (flow, graph) = graphs_of(&runs.first.printed)?;
    draw_both(alloc, flow, graph, runs, source, output)?;
    Ok(())
}

// Draws the page of two runs, on this graph.
fn draw_both<'a, K: Sink + Drop>(
    alloc: Global,
    flow: &PrintedFlow,
    graph: &PrintedGraph,
    runs: &'a BothRuns,
    source: &[u8],
    output: &mut Output<K>,
) -> Result<(), Fault>
    ensures { OnOk result (Draws (IsPageOfTwo flow.now graph.now runs.now) (told K.got output.old) (told K.got output.new)) }
{
    let in_order = named("In the order of the text", &runs.first)?;
    let by_picks = named("In another order, by picks", &runs.second)?;
    draw_page(alloc, flow, graph, &[in_order, by_picks], source, output)?;
    Ok(())
}

// A run under this name.
fn named<'a>(name: &'a str, run: &'a SeenRun) -> Result<Run<'a>, Fault>
    ensures { IfOk result (IsSeenRun name.now run.now) }
{
    Ok(Run {
        name,
        trace: trace_of(&run.printed)?,
        rounds: run.rounds.as_slice(),
        printed: run.output.as_slice(),
    })
}
