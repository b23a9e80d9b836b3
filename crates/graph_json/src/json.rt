//! What was printed, as JSON. docs/view.schema.json is its schema.

ghost use Rattle.std.specs.Prelude.{ℕ, List, [], OnOk};
ghost use Rattle.std.specs.Fmt.{decimal};
ghost use Rattle.graph_json.specs.Json.{edge_json, end_json, firing_json, flow_json, graph_json, in_commas, list_json, numbers_json, or_null, piece_json, printed_json, region_json, rows, separated, trace_json};
ghost use Rattle.view_output.specs.Told.{Adds, told};

use crate::json_graph::write_graph;
use df_io::Sink;
use printed_graphs::{
    Edge, Firing, Piece, Printed, PrintedFlow, PrintedTrace, Region, TraceEnd, kind_name, trap_name,
};
use std::alloc::Global;
use view_output::{Fault, Output};

/// A value that has a text in JSON.
pub trait Json {
    /// The text.
    ghost json_text: { Self → List ℕ };

    /// Appends the text.
    fn write<K: Sink + Drop>(&self, output: &mut Output<K>) -> Result<(), Fault>
        ensures { OnOk result (Adds (told K.got output.old) (told K.got output.new) (json_text self.now)) };
}

// Appends values, with these words before the first of them and those before each other.
fn write_separated<T: Json, K: Sink + Drop>(
    first: &[u8],
    between: &[u8],
    values: &[T],
    output: &mut Output<K>,
) -> Result<(), Fault>
    ensures { OnOk result (Adds (told K.got output.old) (told K.got output.new) (separated first.now between.now T.json_text values.now)) }
{
    let mut before = first;
    for value in values {
        output.bytes(before)?;
        value.write(output)?;
        before = between;
    }
    Ok(())
}

/// Appends values, each on a line of its own.
pub fn write_rows<T: Json, K: Sink + Drop>(
    values: &[T],
    output: &mut Output<K>,
) -> Result<(), Fault>
    ensures { OnOk result (Adds (told K.got output.old) (told K.got output.new) (rows T.json_text values.now)) }
{
    write_separated(b"\n ", b",\n ", values, output)
}

/// Appends values with commas between them.
pub fn write_in_commas<T: Json, K: Sink + Drop>(
    values: &[T],
    output: &mut Output<K>,
) -> Result<(), Fault>
    ensures { OnOk result (Adds (told K.got output.old) (told K.got output.new) (in_commas T.json_text values.now)) }
{
    write_separated(b"", b",", values, output)
}

/// Appends numbers as a list.
pub fn write_numbers<K: Sink + Drop>(numbers: &[u32], output: &mut Output<K>) -> Result<(), Fault>
    ensures { OnOk result (Adds (told K.got output.old) (told K.got output.new) (numbers_json numbers.now)) }
{
    output.text("[")?;
    write_in_commas(numbers, output)?;
    output.text("]")
}

/// Appends a value, or `null` where there is none.
pub fn write_or_null<T: Json, K: Sink + Drop>(
    value: &Option<T>,
    output: &mut Output<K>,
) -> Result<(), Fault>
    ensures { OnOk result (Adds (told K.got output.old) (told K.got output.new) (or_null T.json_text value.now)) }
{
    match value {
        Some(value) => value.write(output),
        None => output.text("null"),
    }
}

impl Json for u32 {
    ghost json_text = { decimal };

    fn write<K: Sink + Drop>(&self, output: &mut Output<K>) -> Result<(), Fault> {
        output.number(u64::from(*self))
    }
}

impl Json for Vec<u32> {
    ghost json_text = { list_json };

    fn write<K: Sink + Drop>(&self, output: &mut Output<K>) -> Result<(), Fault> {
        write_numbers(self.as_slice(), output)
    }
}

/// Appends all that was printed of a program, with the round of each firing, where that is known.
pub fn write_printed<K: Sink + Drop>(
    alloc: Global,
    printed: &Printed,
    rounds: &Option<Vec<u32>>,
    output: &mut Output<K>,
) -> Result<(), Fault>
    ensures { OnOk result (Adds (told K.got output.old) (told K.got output.new) (printed_json printed.now rounds.now)) }
{
    output.text("{\"format\":1,\"flow\":")?;
    write_or_null(&printed.flow, output)?;
    output.text(",\n\"graph\":")?;
    write_graph_or_null(alloc, printed, output)?;
    output.text(",\n\"trace\":")?;
    write_trace_or_null(printed, rounds, output)?;
    output.text("}\n")
}

// Appends the dataflow graph, or `null` where there is none.
fn write_graph_or_null<K: Sink + Drop>(
    alloc: Global,
    printed: &Printed,
    output: &mut Output<K>,
) -> Result<(), Fault>
    ensures { OnOk result (Adds (told K.got output.old) (told K.got output.new) (or_null (graph_json printed.now.flow) printed.now.graph)) }
{
    match &printed.graph {
        Some(graph) => write_graph(alloc, &printed.flow, graph, output),
        None => output.text("null"),
    }
}

// Appends the trace, or `null` where there is none.
fn write_trace_or_null<K: Sink + Drop>(
    printed: &Printed,
    rounds: &Option<Vec<u32>>,
    output: &mut Output<K>,
) -> Result<(), Fault>
    ensures { OnOk result (Adds (told K.got output.old) (told K.got output.new) (or_null (trace_json rounds.now) printed.now.trace)) }
{
    match &printed.trace {
        Some(trace) => write_trace(trace, rounds, output),
        None => output.text("null"),
    }
}

impl Json for PrintedFlow {
    ghost json_text = { flow_json };

    fn write<K: Sink + Drop>(&self, output: &mut Output<K>) -> Result<(), Fault> {
        output.item("{\"classes\":", self.classes)?;
        output.text(",\n\"pieces\":[")?;
        write_rows(self.pieces.as_slice(), output)?;
        output.text("],\n\"edges\":[")?;
        write_rows(self.edges.as_slice(), output)?;
        output.text("],\n\"regions\":[")?;
        write_rows(self.regions.as_slice(), output)?;
        output.text("]}")
    }
}

impl Json for Piece {
    ghost json_text = { piece_json };

    fn write<K: Sink + Drop>(&self, output: &mut Output<K>) -> Result<(), Fault> {
        output.text("{\"kind\":\"")?;
        output.text(kind_name(self.kind))?;
        output.item("\",\"line\":", self.line)?;
        output.text("}")
    }
}

impl Json for Edge {
    ghost json_text = { edge_json };

    fn write<K: Sink + Drop>(&self, output: &mut Output<K>) -> Result<(), Fault> {
        output.item("{\"from\":", self.from)?;
        output.item(",\"to\":", self.to)?;
        output.item(",\"class\":", self.class)?;
        output.text("}")
    }
}

impl Json for Region {
    ghost json_text = { region_json };

    fn write<K: Sink + Drop>(&self, output: &mut Output<K>) -> Result<(), Fault> {
        output.item("{\"entry\":", self.entry)?;
        output.item(",\"exit\":", self.exit)?;
        output.item(",\"parent\":", self.parent)?;
        output.text("}")
    }
}

// Appends the numbers of the nodes that fired, their rounds, and why no more fired.
fn write_trace<K: Sink + Drop>(
    trace: &PrintedTrace,
    rounds: &Option<Vec<u32>>,
    output: &mut Output<K>,
) -> Result<(), Fault>
    ensures { OnOk result (Adds (told K.got output.old) (told K.got output.new) (trace_json rounds.now trace.now)) }
{
    output.text("{\"firings\":[")?;
    write_in_commas(trace.firings.as_slice(), output)?;
    output.text("],\n\"rounds\":")?;
    write_or_null(rounds, output)?;
    output.text(",\n\"end\":")?;
    trace.end.write(output)?;
    output.text("}")
}

impl Json for Firing {
    ghost json_text = { firing_json };

    fn write<K: Sink + Drop>(&self, output: &mut Output<K>) -> Result<(), Fault> {
        output.number(u64::from(self.node))
    }
}

impl Json for TraceEnd {
    ghost json_text = { end_json };

    fn write<K: Sink + Drop>(&self, output: &mut Output<K>) -> Result<(), Fault> {
        match *self {
            TraceEnd::Rest => output.text("{\"kind\":\"REST\"}"),
            TraceEnd::Trapped { trap, line } => {
                output.text("{\"kind\":\"TRAP\",\"trap\":\"")?;
                output.text(trap_name(trap))?;
                output.item("\",\"line\":", line)?;
                output.text("}")
            }
            TraceEnd::Limit(limit) => {
                output.text("{\"kind\":\"LIMIT\",\"firings\":")?;
                output.number(limit)?;
                output.text("}")
            }
        }
    }
}
