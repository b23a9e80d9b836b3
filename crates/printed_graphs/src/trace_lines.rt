//! Reads the lines of a trace.

ghost use Rattle.std.specs.Prelude.{◌≡◌, ◌++◌, All, IfOk, flat_map, codes};
ghost use Rattle.printed_graphs.specs.GraphReading.{is_trap, node_name_at, firing_at, after_firings, trapped_at, limit_at, end_at, trace_at};
ghost use Rattle.printed_graphs.specs.Names.{trap_text};
ghost use Rattle.printed_graphs.specs.Printable.{IsPrintableNodeName, IsPrintableFiring, IsPrintableEnd, IsPrintableTrace};
ghost use Rattle.printed_graphs.specs.Reading.{Passes, PassesInMemory, after_name};
ghost use Rattle.printed_graphs.specs.TraceText.{name_text, firing_text, end_text, trace_text};

use crate::cursor::Cursor;
use crate::fault::Stop;
use crate::words::trap_of;
use crate::{Firing, NodeName, PrintedTrace, TraceEnd};
use op_table::Trap;
use std::alloc::Global;

/// A trace, up to a line that is none of its lines.
#[tactic(auto, unfolding(crate::specs::GraphReading::trace_at))]
pub(crate) fn read_trace(alloc: Global, cursor: &mut Cursor<'_>) -> Result<PrintedTrace, Stop>
    ensures text { IfOk result (λ trace. cursor.old.rest.now ≡ trace_text trace ++ cursor.new.rest.now) }
    ensures after { PassesInMemory result cursor.new.rest.now (trace_at cursor.old.rest.now) }
    ensures printable { IfOk result IsPrintableTrace }
{
    let firings = read_firings(alloc, cursor)?;
    let end = read_trace_end(cursor)?;
    Ok(PrintedTrace { firings, end })
}

// The nodes that fired, as long as they come.
fn read_firings(alloc: Global, cursor: &mut Cursor<'_>) -> Result<Vec<Firing>, Stop>
    ensures text { IfOk result (λ v. cursor.old.rest.now ≡ flat_map firing_text v.items ++ cursor.new.rest.now) }
    ensures after { PassesInMemory result cursor.new.rest.now (after_firings cursor.old.rest.now) }
    ensures printable { IfOk result (λ v. All IsPrintableFiring v.items) }
{
    let mut all = Vec::new(alloc);
    while cursor.is_at_digit() {
        all.push(read_firing(cursor)?)?;
    }
    Ok(all)
}

// A node that fired.
#[tactic(auto, unfolding(crate::specs::GraphReading::firing_at))]
fn read_firing(cursor: &mut Cursor<'_>) -> Result<Firing, Stop>
    ensures text { IfOk result (λ firing. cursor.old.rest.now ≡ firing_text firing ++ cursor.new.rest.now) }
    ensures after { Passes result cursor.new.rest.now (firing_at cursor.old.rest.now) }
    ensures printable { IfOk result IsPrintableFiring }
{
    let node = cursor.number()?;
    let name = read_name(cursor)?;
    cursor.passes(b"\n")?;
    Ok(Firing { node, name })
}

// The name of a node.
#[tactic(auto, unfolding(crate::specs::GraphReading::node_name_at, crate::specs::GraphReading::after_two))]
fn read_name(cursor: &mut Cursor<'_>) -> Result<NodeName, Stop>
    ensures text { IfOk result (λ name. cursor.old.rest.now ≡ name_text name ++ cursor.new.rest.now) }
    ensures after { Passes result cursor.new.rest.now (node_name_at cursor.old.rest.now) }
    ensures printable { IfOk result IsPrintableNodeName }
{
    if cursor.takes(b" OP ") {
        let piece = cursor.number()?;
        let number = cursor.field()?;
        return Ok(NodeName::Operation { piece, number });
    }
    if cursor.takes(b" SWITCH ") {
        let piece = cursor.number()?;
        let line = cursor.field()?;
        return Ok(NodeName::Switch { piece, line });
    }
    cursor.passes(b" MERGE ")?;
    let piece = cursor.number()?;
    let line = cursor.field()?;
    Ok(NodeName::Merge { piece, line })
}

// Why nothing fired any more. Where no line tells it, no node was ready.
#[tactic(auto, unfolding(crate::specs::GraphReading::end_at))]
fn read_trace_end(cursor: &mut Cursor<'_>) -> Result<TraceEnd, Stop>
    ensures text { IfOk result (λ end. cursor.old.rest.now ≡ end_text end ++ cursor.new.rest.now) }
    ensures after { Passes result cursor.new.rest.now (end_at cursor.old.rest.now) }
    ensures printable { IfOk result IsPrintableEnd }
{
    if cursor.takes(b"TRAP ") {
        return read_trapped(cursor);
    }
    if cursor.takes(b"LIMIT ") {
        return read_limit(cursor);
    }
    Ok(TraceEnd::Rest)
}

// A trap, after the first word of its line.
#[tactic(auto, unfolding(crate::specs::GraphReading::trapped_at))]
fn read_trapped(cursor: &mut Cursor<'_>) -> Result<TraceEnd, Stop>
    ensures text { IfOk result (λ end. end_text end ++ cursor.new.rest.now ≡ codes "TRAP " ++ cursor.old.rest.now) }
    ensures after { Passes result cursor.new.rest.now (trapped_at cursor.old.rest.now) }
    ensures printable { IfOk result IsPrintableEnd }
{
    let trap = read_trap(cursor)?;
    cursor.passes(b" LINE ")?;
    let line = cursor.number()?;
    cursor.passes(b"\n")?;
    Ok(TraceEnd::Trapped { trap, line })
}

// Why a program could not go on.
#[tactic(auto, unfolding(crate::specs::Reading::after_name))]
fn read_trap(cursor: &mut Cursor<'_>) -> Result<Trap, Stop>
    ensures text { IfOk result (λ trap. cursor.old.rest.now ≡ trap_text trap ++ cursor.new.rest.now) }
    ensures after { Passes result cursor.new.rest.now (after_name is_trap cursor.old.rest.now) }
{
    match trap_of(cursor.word()) {
        Some(trap) => Ok(trap),
        None => Err(Stop::Unread),
    }
}

// How many nodes were to fire, after the first word of its line.
#[tactic(auto, unfolding(crate::specs::GraphReading::limit_at))]
fn read_limit(cursor: &mut Cursor<'_>) -> Result<TraceEnd, Stop>
    ensures text { IfOk result (λ end. end_text end ++ cursor.new.rest.now ≡ codes "LIMIT " ++ cursor.old.rest.now) }
    ensures after { Passes result cursor.new.rest.now (limit_at cursor.old.rest.now) }
    ensures printable { IfOk result IsPrintableEnd }
{
    let limit = cursor.long_number()?;
    cursor.passes(b"\n")?;
    Ok(TraceEnd::Limit(limit))
}
