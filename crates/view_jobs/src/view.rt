//! Reads a text and shows it.

ghost use Rattle.std.specs.Prelude.{◌≡◌, [], IfOk, OnOk, map, option_map, string_bytes, unwrap_or};
ghost use Rattle.dependence_texts.specs.Told.{ToldDependences, ToldIndependence, ToldJson};
ghost use Rattle.view_jobs.specs.Drawn.{OfGraphs, OfTrace, loads_of as spec_loads_of};
ghost use Rattle.view_jobs.specs.Given.{given_meant};
ghost use Rattle.view_jobs.specs.Shown.{DrawsDot, DrawsFlow, IsSeen, IsTextOf, ShowsOf, ShowsProfile, ShowsSource, ShowsTrace, rounds_in as spec_rounds_in};
ghost use Rattle.view_commands.specs.Words.{Json, lines_meant, task_meant};
ghost use Rattle.view_output.specs.Told.{told};

use crate::charts::{graphs_of, trace_of, write_chart, write_page, write_rounds};
use crate::given::Given;
use dependence_texts::{write_dependences, write_dependences_json, write_independence};
use df_io::{Sink, Source, read_all};
use graph_dependences::has_operations;
use graph_json::{Graphs, write_printed, write_trace_lines};
use graph_pictures::{write_flow, write_graph};
use printed_graphs::{Printed, PrintedFlow, PrintedGraph, ReadFault, read_printed};
use source_maps::tell_source;
use std::alloc::Global;
use trace_profiles::{Loads, lines_before_trace, rounds_of, write_profile};
use view_commands::{Task, without_forks};
use view_output::{Fault, Lines, Output, line_of};

// The most bytes of a text.
const LONGEST: u32 = 4_294_967_294;

/// Shows the text that a source has.
pub fn show<S: Source, K: Sink + Drop>(
    alloc: Global,
    task: Task,
    source: &mut S,
    output: &mut Output<K>,
) -> Result<(), Fault>
    ensures { OnOk result (ShowsSource (task_meant task) (S.left source.old) (S.left source.new) (told K.got output.old) (told K.got output.new)) }
{
    let text = read_all(alloc, source, LONGEST)?;
    let printed = read_text(alloc, text.as_slice(), output)?;
    show_printed(alloc, task, Loads::InOrder, &printed, &[], output)
}

/// What was printed of a program, with lines and names of the source.
pub fn seen(alloc: Global, given: &Given, text: &[u8]) -> Result<Printed, Fault>
    ensures { IfOk result (IsSeen (given_meant given.now).map text.now) }
{
    let mut printed = read_printed(alloc, text)?;
    tell_source(alloc, given.map(), &mut printed)?;
    Ok(printed)
}

// A text that a source had, read.
fn read_text<K: Sink + Drop>(
    alloc: Global,
    text: &[u8],
    output: &mut Output<K>,
) -> Result<Printed, Fault>
    ensures text { IfOk result (IsTextOf text.now) }
    ensures output { IfOk result (λ _. output.new ≡ output.old) }
{
    if text.is_empty() {
        return Err(Fault::NoText);
    }
    match read_printed(alloc, text) {
        Ok(printed) => Ok(printed),
        Err(fault) => Err(unread(text, fault, output)?),
    }
}

/// How loads fire in the run that the words tell.
pub fn loads_of(words: &[String]) -> Loads
    ensures { result ≡ spec_loads_of (map string_bytes words.now) }
{
    if without_forks(words).1 {
        Loads::InAnyOrder
    } else {
        Loads::InOrder
    }
}

/// Shows something of a program, of which loads fire in this order. Its own text may be empty.
pub fn show_printed<K: Sink + Drop>(
    alloc: Global,
    task: Task,
    loads: Loads,
    printed: &Printed,
    source: &[u8],
    output: &mut Output<K>,
) -> Result<(), Fault>
    ensures { OnOk result (ShowsOf (task_meant task) loads printed.now (told K.got output.old) (told K.got output.new)) }
{
    match task {
        Task::Chart => write_chart(alloc, printed, source, output),
        Task::Rounds => write_rounds(alloc, printed, loads, source, output),
        Task::Page => write_page(alloc, printed, loads, source, output),
        Task::Regions => flow_picture(alloc, printed, true, output),
        Task::Dot(lines) => picture(alloc, printed, &lines, output),
        Task::Json => show_json(alloc, printed, loads, output),
        Task::JsonTrace => show_trace(alloc, printed, loads, output),
        Task::Profile => profile_of(alloc, printed, loads, output),
        Task::Dependences => show_dependences(alloc, printed, output),
        Task::DependencesJson => show_dependences_json(alloc, printed, output),
        Task::Independent(first, second) => {
            show_independence(alloc, printed, first, second, output)
        }
    }
}

// All of it, as JSON.
fn show_json<K: Sink + Drop>(
    alloc: Global,
    printed: &Printed,
    loads: Loads,
    output: &mut Output<K>,
) -> Result<(), Fault>
    ensures { OnOk result (ShowsOf Json loads printed.now (told K.got output.old) (told K.got output.new)) }
{
    let rounds = rounds_in(alloc, printed, loads)?;
    write_printed(alloc, printed, &rounds, output)?;
    Ok(())
}

// The trace, as lines of JSON.
fn show_trace<K: Sink + Drop>(
    alloc: Global,
    printed: &Printed,
    loads: Loads,
    output: &mut Output<K>,
) -> Result<(), Fault>
    ensures { OnOk result (OfTrace printed.now (λ trace. ShowsTrace loads printed.now trace (told K.got output.old) (told K.got output.new))) }
{
    let trace = trace_of(printed)?;
    let rounds = known_rounds(alloc, printed, loads)?;
    let graphs = Graphs {
        flow: &printed.flow,
        graph: &printed.graph,
    };
    write_trace_lines(graphs, trace, rounds.as_slice(), output)
}

// The round of each firing of the trace, where the graph is known.
fn rounds_in(alloc: Global, printed: &Printed, loads: Loads) -> Result<Option<Vec<u32>>, Fault>
    ensures { IfOk result (λ rounds. option_map (λ all. all.items) rounds ≡ spec_rounds_in loads printed.now.graph printed.now.trace) }
{
    match (&printed.graph, &printed.trace) {
        (Some(graph), Some(trace)) => {
            let before = lines_before_trace(printed.flow.as_ref(), graph);
            let rounds = rounds_of(alloc, graph, loads, trace.firings.as_slice(), before)?;
            Ok(Some(rounds))
        }
        _ => Ok(None),
    }
}

// The same, and no rounds where the graph isn't known.
fn known_rounds(alloc: Global, printed: &Printed, loads: Loads) -> Result<Vec<u32>, Fault>
    ensures { IfOk result (λ rounds. rounds.items ≡ unwrap_or (spec_rounds_in loads printed.now.graph printed.now.trace) []) }
{
    match rounds_in(alloc, printed, loads)? {
        Some(rounds) => Ok(rounds),
        None => Ok(Vec::new(alloc)),
    }
}

// The dependences between statements.
fn show_dependences<K: Sink + Drop>(
    alloc: Global,
    printed: &Printed,
    output: &mut Output<K>,
) -> Result<(), Fault>
    ensures { OnOk result (OfGraphs printed.now (λ flow graph. ToldDependences graph flow (told K.got output.old) (told K.got output.new))) }
{
    let (flow, graph) = graphs_of(printed)?;
    write_dependences(alloc, flow, graph, output)?;
    Ok(())
}

// The same as JSON.
fn show_dependences_json<K: Sink + Drop>(
    alloc: Global,
    printed: &Printed,
    output: &mut Output<K>,
) -> Result<(), Fault>
    ensures { OnOk result (OfGraphs printed.now (λ flow graph. ToldJson graph flow (told K.got output.old) (told K.got output.new))) }
{
    let (flow, graph) = graphs_of(printed)?;
    write_dependences_json(alloc, flow, graph, output)?;
    Ok(())
}

// Whether the statements at two lines wait for one another.
fn show_independence<K: Sink + Drop>(
    alloc: Global,
    printed: &Printed,
    first: u32,
    second: u32,
    output: &mut Output<K>,
) -> Result<(), Fault>
    ensures { OnOk result (OfGraphs printed.now (λ flow graph. ToldIndependence graph flow first second (told K.got output.old) (told K.got output.new))) }
{
    let (flow, graph) = graphs_of(printed)?;
    check_statement(flow, graph, first)?;
    check_statement(flow, graph, second)?;
    write_independence(alloc, flow, graph, first, second, output)?;
    Ok(())
}

// Whether a statement that does something begins at a line.
fn check_statement(flow: &PrintedFlow, graph: &PrintedGraph, line: u32) -> Result<(), Fault> {
    if has_operations(graph, flow, line) {
        Ok(())
    } else {
        Err(Fault::NoStatement(line))
    }
}

// Why a text isn't read. A refusal by `dfc` that stands in it is passed on.
fn unread<K: Sink + Drop>(
    text: &[u8],
    fault: ReadFault,
    output: &mut Output<K>,
) -> Result<Fault, Fault> {
    let ReadFault::Line(number) = fault else {
        return Ok(Fault::from(fault));
    };
    let line = line_of(text, number);
    if !line.starts_with(b"REFUSED ") {
        return Ok(Fault::Line(number));
    }
    output.bytes(line)?;
    output.text("\n")?;
    output.finish()?;
    Ok(Fault::Refused)
}

// A picture of the dataflow graph where there is one, or else of the flow graph.
fn picture<K: Sink + Drop>(
    alloc: Global,
    printed: &Printed,
    lines: &Lines,
    output: &mut Output<K>,
) -> Result<(), Fault>
    ensures { OnOk result (DrawsDot (lines_meant lines.now) printed.now printed.now.graph (told K.got output.old) (told K.got output.new)) }
{
    match (&printed.graph, lines) {
        (Some(graph), _) => {
            check_lines(lines, graph.lines.len())?;
            write_graph(alloc, graph, printed.flow.as_ref(), lines, output)
        }
        (None, Lines::All) => flow_picture(alloc, printed, false, output),
        (None, Lines::Only(_)) => Err(Fault::NoText),
    }
}

// Whether the graph, which has so many lines, has all that are to be shown.
fn check_lines(lines: &Lines, count: usize) -> Result<(), Fault> {
    match lines {
        Lines::All => Ok(()),
        Lines::Only(numbers) => {
            match numbers
                .as_slice()
                .iter()
                .find(|line| **line as usize >= count)
            {
                Some(line) => Err(Fault::NoLine(*line)),
                None => Ok(()),
            }
        }
    }
}

// A picture of the flow graph.
fn flow_picture<K: Sink + Drop>(
    alloc: Global,
    printed: &Printed,
    with_regions: bool,
    output: &mut Output<K>,
) -> Result<(), Fault>
    ensures { OnOk result (DrawsFlow with_regions printed.now (told K.got output.old) (told K.got output.new)) }
{
    match &printed.flow {
        Some(flow) => write_flow(alloc, flow, with_regions, output),
        None => Err(Fault::NoText),
    }
}

// The profile of the trace on the graph.
fn profile_of<K: Sink + Drop>(
    alloc: Global,
    printed: &Printed,
    loads: Loads,
    output: &mut Output<K>,
) -> Result<(), Fault>
    ensures { OnOk result (ShowsProfile loads printed.now (told K.got output.old) (told K.got output.new)) }
{
    let graph = printed.graph.as_ref().ok_or(Fault::NoText)?;
    let trace = printed.trace.as_ref().ok_or(Fault::NoText)?;
    write_profile(alloc, printed.flow.as_ref(), graph, trace, loads, output)
}
