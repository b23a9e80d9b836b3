ghost use Rattle.std.specs.Prelude.{◌≡◌, ◌<◌, ◌++◌, [], IfOk, IfSome, IsOkUnless, length};
ghost use Rattle.printed_graphs.specs.GraphReading.{flow_part_at, graph_part_at, trace_part_at, printed_at};
ghost use Rattle.printed_graphs.specs.Reading.{PassesInMemory};
ghost use Rattle.printed_graphs.specs.Printable.{IsPrintableFlow, IsPrintableGraph, IsPrintableTrace, IsPrintable, IsPrintedText};
ghost use Rattle.printed_graphs.specs.Printed.{printed_text, flow_part, graph_part, trace_part};

use crate::cursor::Cursor;
use crate::dataflow_lines::read_graph;
use crate::fault::Stop;
use crate::flow_lines::read_flow;
use crate::trace_lines::read_trace;
use crate::{PrintedFlow, PrintedGraph, PrintedTrace, ReadFault};
use std::alloc::Global;

/// What `dfc` printed of a program, one text after another: each of the three or none, in this order.
#[derive(Debug, Drop)]
pub struct Printed {
    /// What `dfc regions` printed.
    pub flow: Option<PrintedFlow>,
    /// What `dfc graph` printed.
    pub graph: Option<PrintedGraph>,
    /// What `dfc trace` printed.
    pub trace: Option<PrintedTrace>,
}

/// Reads what `dfc` printed of a program.
///
/// What is read can be printed, its text is the text that was given, and each text that can be printed is read.
pub fn read_printed(alloc: Global, text: &[u8]) -> Result<Printed, ReadFault>
    ensures text { IfOk result (λ printed. printed_text printed ≡ text.now) }
    ensures printable { IfOk result (λ printed. IsPrintable printed) }
    ensures reads { IsPrintedText text.now → IsOkUnless result ReadFault.NoMemory }
{
    let mut cursor = Cursor { rest: text };
    match read_parts(alloc, &mut cursor) {
        Ok(printed) => Ok(printed),
        Err(Stop::NoMemory) => Err(ReadFault::NoMemory),
        Err(Stop::Unread) => Err(ReadFault::Line(line_number(text, cursor.rest.len()))),
    }
}

// The texts, of which the last one ends where the text does.
#[tactic(auto, unfolding(crate::specs::GraphReading::printed_at))]
fn read_parts(alloc: Global, cursor: &mut Cursor<'_>) -> Result<Printed, Stop>
    ensures text { IfOk result (λ printed. printed_text printed ≡ cursor.old.rest.now) }
    ensures after { PassesInMemory result cursor.new.rest.now (printed_at cursor.old.rest.now) }
    ensures printable { IfOk result IsPrintable }
{
    let flow = flow_if_any(alloc, cursor)?;
    let graph = graph_if_any(alloc, cursor)?;
    let trace = trace_if_any(alloc, cursor)?;
    if cursor.rest.is_empty() {
        Ok(Printed { flow, graph, trace })
    } else {
        Err(Stop::Unread)
    }
}

// The flow graph, where its text comes next.
#[tactic(auto, unfolding(crate::specs::GraphReading::flow_part_at))]
fn flow_if_any(alloc: Global, cursor: &mut Cursor<'_>) -> Result<Option<PrintedFlow>, Stop>
    ensures text { IfOk result (λ part. cursor.old.rest.now ≡ flow_part part ++ cursor.new.rest.now) }
    ensures after { PassesInMemory result cursor.new.rest.now (flow_part_at cursor.old.rest.now) }
    ensures printable { IfOk result (λ part. IfSome part IsPrintableFlow) }
{
    if cursor.is_at(b"PIECES") {
        Ok(Some(read_flow(alloc, cursor)?))
    } else {
        Ok(None)
    }
}

// The dataflow graph, where its text comes next.
#[tactic(auto, unfolding(crate::specs::GraphReading::graph_part_at))]
fn graph_if_any(alloc: Global, cursor: &mut Cursor<'_>) -> Result<Option<PrintedGraph>, Stop>
    ensures text { IfOk result (λ part. cursor.old.rest.now ≡ graph_part part ++ cursor.new.rest.now) }
    ensures after { PassesInMemory result cursor.new.rest.now (graph_part_at cursor.old.rest.now) }
    ensures printable { IfOk result (λ part. IfSome part IsPrintableGraph) }
{
    if cursor.is_at(b"LINES") {
        Ok(Some(read_graph(alloc, cursor)?))
    } else {
        Ok(None)
    }
}

// The trace, where some text is left.
#[tactic(auto, unfolding(crate::specs::GraphReading::trace_part_at))]
fn trace_if_any(alloc: Global, cursor: &mut Cursor<'_>) -> Result<Option<PrintedTrace>, Stop>
    ensures text { IfOk result (λ part. cursor.old.rest.now ≡ trace_part part ++ cursor.new.rest.now) }
    ensures after { PassesInMemory result cursor.new.rest.now (trace_part_at cursor.old.rest.now) }
    ensures printable { IfOk result (λ part. IfSome part IsPrintableTrace) }
    ensures some { IfOk result (λ part. IfSome part (λ _. 0 < length cursor.old.rest.now)) }
{
    if cursor.rest.is_empty() {
        Ok(None)
    } else {
        Ok(Some(read_trace(alloc, cursor)?))
    }
}

// The number of the line, counted from 1, in which the last `left` bytes of a text begin.
fn line_number(text: &[u8], left: usize) -> u64 {
    let read = text.len().saturating_sub(left);
    let mut line = 1u64;
    for c in &text[..read] {
        if *c == b'\n' {
            line = line.saturating_add(1);
        }
    }
    line
}
