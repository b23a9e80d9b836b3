// The wires of the lines of a program, as a part of a text.

ghost use Rattle.std.specs.Prelude.{◌≡◌, ◌<◌, ◌≤◌, ◌++◌, filter, OnOk, OnErr};
ghost use Rattle.std.specs.List.{range_with_len};
ghost use Rattle.closed_walks.specs.Graph.{edge_count};
ghost use Rattle.df_io.specs.Faults.{Rose};
ghost use Rattle.df_io.specs.TextBuffer.{IsWrittenBut};
ghost use Rattle.df_io.specs.Write.{AppendsPrefix};
ghost use Rattle.set_columns.specs.Marks.{marked};
ghost use Rattle.graph_texts.specs.EdgeTables.{AreBypasses, AreWires};
ghost use Rattle.graph_texts.specs.GraphText.{hop_line as spec_hop_line, hop_lines, hops_text, numbers_text, wire_line, wire_lines};

use crate::edge_tables::next_edge;
use crate::graph_line::{hop_line, numbered};
use alias_classes::CLASS_WORDS;
use closed_walks::Digraph;
use dep_routing::Lines;
use df_io::{Sink, TextBuffer, WriteFault};
use set_columns::Columns;

/// Appends the wires of each line, which a table tells.
pub fn tell_wires<K: Sink>(
    g: &Digraph,
    l: &Lines<CLASS_WORDS>,
    wires: &Columns,
    buffer: &mut TextBuffer,
    sink: &mut K,
) -> Result<(), WriteFault>
    requires { AreWires g.now l.now wires.now }
    ensures text { OnOk result (IsWrittenBut buffer.new (K.got sink.old) (K.got sink.new) (buffer.old ++ wire_lines g.now l.now)) }
    ensures prefix { OnErr result (AppendsPrefix (K.got sink.old) (K.got sink.new) (buffer.old ++ wire_lines g.now l.now)) }
    ensures later { K.faults sink.old ≤ K.faults sink.new }
    ensures fault { OnErr result (Rose (K.faults sink.old) (K.faults sink.new)) }
{
    for line in 0..l.lines() {
        tell_wire_line(g, l, wires, line, buffer, sink)?;
    }
    Ok(())
}

// Appends the line of the wires of a line of tokens.
fn tell_wire_line<K: Sink>(
    g: &Digraph,
    l: &Lines<CLASS_WORDS>,
    wires: &Columns,
    line: u32,
    buffer: &mut TextBuffer,
    sink: &mut K,
) -> Result<(), WriteFault>
    requires line { line < l.now.lines }
    requires wires { AreWires g.now l.now wires.now }
    ensures text { OnOk result (IsWrittenBut buffer.new (K.got sink.old) (K.got sink.new) (buffer.old ++ wire_line g.now l.now line)) }
    ensures prefix { OnErr result (AppendsPrefix (K.got sink.old) (K.got sink.new) (buffer.old ++ wire_line g.now l.now line)) }
    ensures later { K.faults sink.old ≤ K.faults sink.new }
    ensures fault { OnErr result (Rose (K.faults sink.old) (K.faults sink.new)) }
{
    buffer.append(numbered(b"W ", line).as_bytes(), sink)?;
    tell_edges(wires, line, g.edges(), buffer, sink)?;
    buffer.append(b"\n", sink)
}

// Appends the edges below the end that are marked for a line, rising, each after a blank.
fn tell_edges<K: Sink>(
    table: &Columns,
    line: u32,
    end: u32,
    buffer: &mut TextBuffer,
    sink: &mut K,
) -> Result<(), WriteFault>
    requires { line < table.now.columns }
    ensures text { OnOk result (IsWrittenBut buffer.new (K.got sink.old) (K.got sink.new) (buffer.old ++ numbers_text (filter (marked table.now line) (range_with_len 0 end)))) }
    ensures prefix { OnErr result (AppendsPrefix (K.got sink.old) (K.got sink.new) (buffer.old ++ numbers_text (filter (marked table.now line) (range_with_len 0 end)))) }
    ensures later { K.faults sink.old ≤ K.faults sink.new }
    ensures fault { OnErr result (Rose (K.faults sink.old) (K.faults sink.new)) }
{
    let mut before = None;
    while let Some(edge) = next_edge(table, line, before, end) {
        buffer.append(numbered(b" ", edge).as_bytes(), sink)?;
        before = Some(edge);
    }
    Ok(())
}

/// Appends where each line is led past regions: from an edge that leaves one of its nodes and is no wire of it, as a table tells.
pub fn tell_hops<K: Sink>(
    g: &Digraph,
    l: &Lines<CLASS_WORDS>,
    bypasses: &Columns,
    buffer: &mut TextBuffer,
    sink: &mut K,
) -> Result<(), WriteFault>
    requires edges { l.now.edges ≡ edge_count g.now }
    requires bypasses { AreBypasses g.now l.now bypasses.now }
    ensures text { OnOk result (IsWrittenBut buffer.new (K.got sink.old) (K.got sink.new) (buffer.old ++ hop_lines g.now l.now)) }
    ensures prefix { OnErr result (AppendsPrefix (K.got sink.old) (K.got sink.new) (buffer.old ++ hop_lines g.now l.now)) }
    ensures later { K.faults sink.old ≤ K.faults sink.new }
    ensures fault { OnErr result (Rose (K.faults sink.old) (K.faults sink.new)) }
{
    for line in 0..l.lines() {
        tell_hops_of(g, l, bypasses, line, buffer, sink)?;
    }
    Ok(())
}

// Appends where a line is led past regions.
fn tell_hops_of<K: Sink>(
    g: &Digraph,
    l: &Lines<CLASS_WORDS>,
    bypasses: &Columns,
    line: u32,
    buffer: &mut TextBuffer,
    sink: &mut K,
) -> Result<(), WriteFault>
    requires line { line < l.now.lines }
    requires edges { l.now.edges ≡ edge_count g.now }
    requires bypasses { AreBypasses g.now l.now bypasses.now }
    ensures text { OnOk result (IsWrittenBut buffer.new (K.got sink.old) (K.got sink.new) (buffer.old ++ hops_text g.now l.now line)) }
    ensures prefix { OnErr result (AppendsPrefix (K.got sink.old) (K.got sink.new) (buffer.old ++ hops_text g.now l.now line)) }
    ensures later { K.faults sink.old ≤ K.faults sink.new }
    ensures fault { OnErr result (Rose (K.faults sink.old) (K.faults sink.new)) }
{
    let end = g.edges();
    let mut before = None;
    while let Some(edge) = next_edge(bypasses, line, before, end) {
        tell_hop(l, line, edge, buffer, sink)?;
        before = Some(edge);
    }
    Ok(())
}

// Appends where a line is led from an edge.
fn tell_hop<K: Sink>(
    l: &Lines<CLASS_WORDS>,
    line: u32,
    edge: u32,
    buffer: &mut TextBuffer,
    sink: &mut K,
) -> Result<(), WriteFault>
    requires line { line < l.now.lines }
    requires edge { edge < l.now.edges }
    ensures text { OnOk result (IsWrittenBut buffer.new (K.got sink.old) (K.got sink.new) (buffer.old ++ spec_hop_line l.now line edge)) }
    ensures prefix { OnErr result (AppendsPrefix (K.got sink.old) (K.got sink.new) (buffer.old ++ spec_hop_line l.now line edge)) }
    ensures later { K.faults sink.old ≤ K.faults sink.new }
    ensures fault { OnErr result (Rose (K.faults sink.old) (K.faults sink.new)) }
{
    let text = hop_line(line, edge, l.next_wire(line, edge));
    buffer.append(text.as_str().as_bytes(), sink)
}
