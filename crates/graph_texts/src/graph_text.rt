//! The text of a net of operations, part after part.

ghost use Rattle.std.specs.Prelude.{◌≡◌, ◌≤◌, ◌∷◌, ◌++◌, [], codes, OnOk, OnErr};
ghost use Rattle.std.specs.Fmt.{decimal};
ghost use Rattle.std.specs.Io.KnownBytes.{Appends};
ghost use Rattle.closed_walks.specs.Graph.{edge_count};
ghost use Rattle.df_io.specs.Faults.{Rose};
ghost use Rattle.df_io.specs.TextBuffer.{IsWrittenBut};
ghost use Rattle.df_io.specs.Write.{AppendsPrefix};
ghost use Rattle.f77_tree.specs.WellFormed.{IsWellFormed};
ghost use Rattle.dep_routing.specs.Touch.{touches_in};
ghost use Rattle.flow_analysis.specs.Analysis.{IsRangeAnalysisOf};
ghost use Rattle.net_board.specs.NetParts.{net_with};
ghost use Rattle.operation_tables.specs.GraphView.{operations_of};
ghost use Rattle.graph_texts.specs.EdgeTables.{AreTablesOf};
ghost use Rattle.graph_texts.specs.GraphText.{graph_text};
ghost use Rattle.graph_texts.specs.NameSets.{AreNameSets};

use crate::edge_tables::EdgeTables;
use crate::graph_lines::tell_lines;
use crate::graph_nodes::{tell_nodes, tell_numbered, tell_values};
use crate::graph_wires::{tell_hops, tell_wires};
use alias_classes::CLASS_WORDS;
use class_set::ClassSet;
use df_io::{Sink, TextBuffer, WriteFault};
use f77_tree::Program;
use flow_analysis::Analysis;
use operation_tables::OpGraph;

/// Writes the text of the net of operations of a program, from what was found of it, through a buffer in which nothing is.
pub fn write_graph<K: Sink>(
    program: &Program,
    analysis: &Analysis<'_>,
    name_sets: &[ClassSet<CLASS_WORDS>],
    tables: &EdgeTables,
    net: &OpGraph<'_, CLASS_WORDS>,
    buffer: &mut TextBuffer,
    sink: &mut K,
) -> Result<(), WriteFault>
    requires program { IsWellFormed program.now }
    requires analysis { IsRangeAnalysisOf program.now analysis.now }
    requires own { (operations_of net.now).net ≡ net_with program.now [] (touches_in analysis.now.touch) analysis.now.lines }
    requires sets { AreNameSets program.now.names analysis.now.classes name_sets.now }
    requires tables { AreTablesOf analysis.now.flow.graph analysis.now.lines tables.now }
    requires buffer { buffer.old ≡ [] }
    ensures all { OnOk result (Appends (K.got sink.old) (K.got sink.new) (graph_text program.now analysis.now.classes (operations_of net.now))) }
    ensures prefix { OnErr result (AppendsPrefix (K.got sink.old) (K.got sink.new) (graph_text program.now analysis.now.classes (operations_of net.now))) }
    ensures later { K.faults sink.old ≤ K.faults sink.new }
    ensures fault { OnErr result (Rose (K.faults sink.old) (K.faults sink.new)) }
{
    tell_parts(program, analysis, name_sets, tables, net, buffer, sink)?;
    buffer.write_out(sink)
}

// Appends the text of a net.
fn tell_parts<K: Sink>(
    program: &Program,
    analysis: &Analysis<'_>,
    name_sets: &[ClassSet<CLASS_WORDS>],
    tables: &EdgeTables,
    net: &OpGraph<'_, CLASS_WORDS>,
    buffer: &mut TextBuffer,
    sink: &mut K,
) -> Result<(), WriteFault>
    requires program { IsWellFormed program.now }
    requires analysis { IsRangeAnalysisOf program.now analysis.now }
    requires own { (operations_of net.now).net ≡ net_with program.now [] (touches_in analysis.now.touch) analysis.now.lines }
    requires sets { AreNameSets program.now.names analysis.now.classes name_sets.now }
    requires tables { AreTablesOf analysis.now.flow.graph analysis.now.lines tables.now }
    requires edges { analysis.now.lines.edges ≡ edge_count analysis.now.flow.graph }
    ensures text { OnOk result (IsWrittenBut buffer.new (K.got sink.old) (K.got sink.new) (buffer.old ++ graph_text program.now analysis.now.classes (operations_of net.now))) }
    ensures prefix { OnErr result (AppendsPrefix (K.got sink.old) (K.got sink.new) (buffer.old ++ graph_text program.now analysis.now.classes (operations_of net.now))) }
    ensures later { K.faults sink.old ≤ K.faults sink.new }
    ensures fault { OnErr result (Rose (K.faults sink.old) (K.faults sink.new)) }
{
    let graph = analysis.flow.graph();
    let lines = analysis.lines.lines();
    tell_size(lines, net.nodes(), buffer, sink)?;
    tell_lines(program, &analysis.classes, name_sets, buffer, sink)?;
    tell_nodes(net, lines, buffer, sink)?;
    tell_values(net, buffer, sink)?;
    tell_wires(graph, &analysis.lines, &tables.wires, buffer, sink)?;
    tell_hops(graph, &analysis.lines, &tables.bypasses, buffer, sink)
}

// Appends how many lines and nodes there are.
fn tell_size<K: Sink>(
    lines: u32,
    nodes: u32,
    buffer: &mut TextBuffer,
    sink: &mut K,
) -> Result<(), WriteFault>
    ensures text { OnOk result (IsWrittenBut buffer.new (K.got sink.old) (K.got sink.new) (buffer.old ++ (codes "LINES " ++ decimal lines ++ (codes " NODES " ++ decimal nodes) ++ 10 ∷ []))) }
    ensures prefix { OnErr result (AppendsPrefix (K.got sink.old) (K.got sink.new) (buffer.old ++ (codes "LINES " ++ decimal lines ++ (codes " NODES " ++ decimal nodes) ++ 10 ∷ []))) }
    ensures later { K.faults sink.old ≤ K.faults sink.new }
    ensures fault { OnErr result (Rose (K.faults sink.old) (K.faults sink.new)) }
{
    tell_numbered(b"LINES ", lines, buffer, sink)?;
    tell_numbered(b" NODES ", nodes, buffer, sink)?;
    buffer.append(b"\n", sink)
}
