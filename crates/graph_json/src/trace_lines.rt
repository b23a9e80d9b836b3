//! A trace as lines of JSON, an object for each firing, so that a long run can be read line by line. docs/trace.schema.json is the
//! schema of a line.

ghost use Rattle.std.specs.Prelude.{◌≡◌, OnOk, slice_get};
ghost use Rattle.graph_json.specs.TraceLines.{end_line, firing_line, source_at as source_at_of, trace_lines};
ghost use Rattle.view_output.specs.Told.{Adds, told};

use crate::json::{Json, write_or_null};
use df_io::Sink;
use printed_graphs::{Firing, PrintedFlow, PrintedGraph, PrintedTrace, TraceEnd};
use view_output::{Fault, Output};

/// Where nodes stand: the graphs, as far as they are known.
#[derive(Clone, Copy)]
pub struct Graphs<'a> {
    pub flow: &'a Option<PrintedFlow>,
    pub graph: &'a Option<PrintedGraph>,
}

/// Appends a trace as lines: an object for each firing, which has its node, the line of the text at which the statement of that
/// begins, and its round, and an object for the end. There are no rounds where they aren't known.
pub fn write_trace_lines<K: Sink + Drop>(
    graphs: Graphs<'_>,
    trace: &PrintedTrace,
    rounds: &[u32],
    output: &mut Output<K>,
) -> Result<(), Fault>
    ensures { OnOk result (Adds (told K.got output.old) (told K.got output.new) (trace_lines graphs.entry.flow.now graphs.entry.graph.now trace.now rounds.now)) }
{
    let mut k = 0usize;
    for firing in trace.firings.as_slice() {
        write_firing(graphs, firing, round_at(rounds, k), output)?;
        k += 1;
    }
    write_end(trace.end, output)
}

// The round of the firing with this number, where it is known.
fn round_at(rounds: &[u32], k: usize) -> Option<u32>
    ensures { result ≡ slice_get rounds.now k }
{
    rounds.get(k).copied()
}

// Appends the line of a firing.
fn write_firing<K: Sink + Drop>(
    graphs: Graphs<'_>,
    firing: &Firing,
    round: Option<u32>,
    output: &mut Output<K>,
) -> Result<(), Fault>
    ensures { OnOk result (Adds (told K.got output.old) (told K.got output.new) (firing_line graphs.entry.flow.now graphs.entry.graph.now firing.now.node round)) }
{
    let node = firing.node;
    let source = source_at(graphs, node);
    output.item("{\"node\":", node)?;
    output.text(",\"source\":")?;
    write_or_null(&source, output)?;
    output.text(",\"round\":")?;
    write_or_null(&round, output)?;
    output.text("}\n")
}

// The line of the text at which the statement of a node begins, where that is known.
fn source_at(graphs: Graphs<'_>, node: u32) -> Option<u32>
    ensures { result ≡ source_at_of graphs.entry.flow.now graphs.entry.graph.now node }
{
    let graph = graphs.graph.as_ref()?;
    let node = graph.nodes.get(node as usize)?;
    let flow = graphs.flow.as_ref()?;
    let piece = flow.pieces.get(node.piece() as usize)?;
    Some(piece.line)
}

// Appends the line of the end.
fn write_end<K: Sink + Drop>(end: TraceEnd, output: &mut Output<K>) -> Result<(), Fault>
    ensures { OnOk result (Adds (told K.got output.old) (told K.got output.new) (end_line end)) }
{
    output.text("{\"end\":")?;
    end.write(output)?;
    output.text("}\n")
}
