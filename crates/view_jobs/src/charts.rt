//! Lane charts, rounds and pages.

ghost use Rattle.std.specs.Prelude.{◌≡◌, IfOk, OnOk, Some};
ghost use Rattle.lane_charts.specs.Page.{IsPage};
ghost use Rattle.lane_charts.specs.Pictures.{ShowsChart};
ghost use Rattle.round_charts.specs.Picture.{Shows};
ghost use Rattle.view_commands.specs.Words.{Page, Rounds};
ghost use Rattle.view_jobs.specs.Drawn.{Draws, OfGraphs, rounds_by};
ghost use Rattle.view_jobs.specs.Shown.{ShowsOf};
ghost use Rattle.view_output.specs.Told.{told};

use df_io::Sink;
use lane_charts::{ChartFault, Run, lane_chart, page, rounds_chart};
use printed_graphs::{Printed, PrintedFlow, PrintedGraph, PrintedTrace};
use std::alloc::Global;
use trace_profiles::{Loads, lines_before_trace, rounds_of};
use view_output::{Fault, Output};

/// Writes the lane chart of a program, whose text may be empty.
pub fn write_chart<K: Sink + Drop>(
    alloc: Global,
    printed: &Printed,
    source: &[u8],
    output: &mut Output<K>,
) -> Result<(), Fault>
    ensures { OnOk result (OfGraphs printed.now (λ flow graph. Draws (ShowsChart flow graph) (told K.got output.old) (told K.got output.new))) }
{
    let (flow, graph) = graphs_of(printed)?;
    draw_chart(alloc, flow, graph, source, output)?;
    Ok(())
}

// Draws the lane chart of these graphs.
fn draw_chart<K: Sink + Drop>(
    alloc: Global,
    flow: &PrintedFlow,
    graph: &PrintedGraph,
    source: &[u8],
    output: &mut Output<K>,
) -> Result<(), Fault>
    ensures { OnOk result (Draws (ShowsChart flow.now graph.now) (told K.got output.old) (told K.got output.new)) }
{
    let chart = lane_chart(alloc, flow, graph, source).map_err(chart_fault)?;
    output.text(chart.as_str())
}

/// Writes the picture of a run by rounds.
pub fn write_rounds<K: Sink + Drop>(
    alloc: Global,
    printed: &Printed,
    loads: Loads,
    source: &[u8],
    output: &mut Output<K>,
) -> Result<(), Fault>
    ensures { OnOk result (ShowsOf Rounds loads printed.now (told K.got output.old) (told K.got output.new)) }
{
    let (flow, graph) = graphs_of(printed)?;
    let trace = trace_of(printed)?;
    let rounds = rounds_in(alloc, printed, graph, loads, trace)?;
    draw_rounds(alloc, flow, graph, trace, rounds.as_slice(), source, output)?;
    Ok(())
}

// Draws these rounds of a trace.
fn draw_rounds<K: Sink + Drop>(
    alloc: Global,
    flow: &PrintedFlow,
    graph: &PrintedGraph,
    trace: &PrintedTrace,
    rounds: &[u32],
    source: &[u8],
    output: &mut Output<K>,
) -> Result<(), Fault>
    ensures { OnOk result (Draws (Shows 500 trace.now.firings.items rounds.now) (told K.got output.old) (told K.got output.new)) }
{
    let chart = rounds_chart(alloc, flow, graph, trace, rounds, source).map_err(chart_fault)?;
    output.text(chart.as_str())
}

/// Writes the page of a program with one run.
pub fn write_page<K: Sink + Drop>(
    alloc: Global,
    printed: &Printed,
    loads: Loads,
    source: &[u8],
    output: &mut Output<K>,
) -> Result<(), Fault>
    ensures { OnOk result (ShowsOf Page loads printed.now (told K.got output.old) (told K.got output.new)) }
{
    let (flow, graph) = graphs_of(printed)?;
    let trace = trace_of(printed)?;
    let rounds = rounds_in(alloc, printed, graph, loads, trace)?;
    let run = Run {
        name: "The run",
        trace,
        rounds: rounds.as_slice(),
        printed: &[],
    };
    draw_page(alloc, flow, graph, &[run], source, output)?;
    Ok(())
}

/// Draws a page with these runs.
pub fn draw_page<K: Sink + Drop>(
    alloc: Global,
    flow: &PrintedFlow,
    graph: &PrintedGraph,
    runs: &[Run<'_>],
    source: &[u8],
    output: &mut Output<K>,
) -> Result<(), Fault>
    ensures { OnOk result (Draws (IsPage flow.now graph.now runs.now) (told K.got output.old) (told K.got output.new)) }
{
    let text = page(alloc, flow, graph, runs, source).map_err(chart_fault)?;
    output.text(text.as_str())
}

/// Both graphs.
pub fn graphs_of(printed: &Printed) -> Result<(&PrintedFlow, &PrintedGraph), Fault>
    ensures { IfOk result (λ both. (printed.now.flow ≡ Some both.0.now) × (printed.now.graph ≡ Some both.1.now)) }
{
    match (&printed.flow, &printed.graph) {
        (Some(flow), Some(graph)) => Ok((flow, graph)),
        _ => Err(Fault::NoText),
    }
}

/// The trace.
pub fn trace_of(printed: &Printed) -> Result<&PrintedTrace, Fault>
    ensures { IfOk result (λ trace. printed.now.trace ≡ Some trace.now) }
{
    printed.trace.as_ref().ok_or(Fault::NoText)
}

/// The round of each firing of a trace on this graph. The text of the trace comes after those of the graphs.
pub fn rounds_in(
    alloc: Global,
    printed: &Printed,
    graph: &PrintedGraph,
    loads: Loads,
    trace: &PrintedTrace,
) -> Result<Vec<u32>, Fault>
    ensures { IfOk result (λ rounds. rounds.items ≡ rounds_by graph.now loads trace.now) }
{
    let before = lines_before_trace(printed.flow.as_ref(), graph);
    rounds_of(alloc, graph, loads, trace.firings.as_slice(), before)
}

// Why nothing was drawn.
fn chart_fault(fault: ChartFault) -> Fault {
    match fault {
        ChartFault::TooLarge => Fault::TooLong,
        ChartFault::NoMemory => Fault::NoMemory,
    }
}
