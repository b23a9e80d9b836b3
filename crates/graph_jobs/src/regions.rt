//! The pieces, edges, classes and regions of a program's flow graph, as a text.

ghost use Rattle.std.specs.Prelude.{◌≡◌, ◌≢◌, ◌≤◌, ◌<◌, [], ◌++◌, length, IfOk, OnOk, OnErr};
ghost use Rattle.std.specs.Io.KnownBytes.{Appends};
ghost use Rattle.closed_walks.specs.Graph.{edge_count};
ghost use Rattle.closed_walks.specs.Numbering.{fresh};
ghost use Rattle.df_io.specs.Faults.{Rose};
ghost use Rattle.df_io.specs.TextBuffer.{IsWrittenBut};
ghost use Rattle.df_io.specs.Write.{AppendsPrefix};
ghost use Rattle.f77_tree.specs.WellFormed.{IsWellFormed};
ghost use Rattle.region_tree.specs.Tree.{region_count};
ghost use Rattle.job_terms.specs.Answers.{AnswersAs};
ghost use Rattle.job_terms.specs.Due.{IsDoneBy};
ghost use Rattle.graph_jobs.specs.Found.{IsFoundOf, text_of};
ghost use Rattle.graph_jobs.specs.Regions.{TellsRegions, piece_lines, edge_lines, region_lines};

use crate::region_line::{counts_line, edge_line, piece_line, region_line};
use cfg_build::Flow;
use closed_walks::Digraph;
use df_io::{NoMemory, Sink, TextBuffer, WriteFault};
use f77_tree::Program;
use flow_analysis::{FlowRegions, flow_regions};
use job_terms::Status;
use region_tree::RegionTree;
use std::alloc::Global;

/// What is found of a flow graph, and the buffer through which it is told.
#[derive(Drop)]
struct Found {
    flow: Flow,
    classes: Vec<u32>,
    tree: RegionTree,
    buffer: TextBuffer,
}

/// Tells the regions of a program. All memory is taken before the first byte is written.
pub fn tell_regions<K: Sink>(alloc: Global, program: &Program, sink: &mut K) -> Status
    requires { IsWellFormed program.now }
    ensures due { AnswersAs (IsDoneBy (TellsRegions program.now)) (K.got sink.old) (K.got sink.new) result }
    ensures words { result ≢ Status.Usage }
    ensures reads { result ≢ Status.ReadFault }
    ensures later { K.faults sink.old ≤ K.faults sink.new }
    ensures fault { result ≡ Status.WriteFault → Rose (K.faults sink.old) (K.faults sink.new) }
{
    match find(alloc, program) {
        Ok(mut found) => match tell(&mut found, sink) {
            Ok(()) => Status::Done,
            Err(WriteFault) => Status::WriteFault,
        },
        Err(NoMemory) => Status::NoMemory,
    }
}

// Finds the flow graph of a program, the classes of its edges, and its regions.
fn find(alloc: Global, program: &Program) -> Result<Found, NoMemory>
    requires { IsWellFormed program.now }
    ensures { IfOk result (λ found. IsFoundOf program.now found) }
{
    let FlowRegions {
        flow,
        edge_classes,
        tree,
    } = flow_regions(alloc, program)?;
    Ok(Found {
        flow,
        classes: edge_classes,
        tree,
        buffer: TextBuffer::new(alloc)?,
    })
}

// Writes the text of what was found.
fn tell<K: Sink>(found: &mut Found, sink: &mut K) -> Result<(), WriteFault>
    requires classes { length found.old.classes.items ≡ edge_count found.old.flow.graph }
    requires buffer { found.old.buffer ≡ [] }
    ensures all { OnOk result (Appends (K.got sink.old) (K.got sink.new) (text_of found.old)) }
    ensures prefix { OnErr result (AppendsPrefix (K.got sink.old) (K.got sink.new) (text_of found.old)) }
    ensures later { K.faults sink.old ≤ K.faults sink.new }
    ensures fault { OnErr result (Rose (K.faults sink.old) (K.faults sink.new)) }
{
    let graph = found.flow.graph();
    let classes = found.classes.as_slice();
    let counts = counts_line(
        found.flow.pieces(),
        graph.edges(),
        class_count(classes),
        found.tree.count(),
    );
    found.buffer.append(counts.as_str().as_bytes(), sink)?;
    tell_pieces(&found.flow, &mut found.buffer, sink)?;
    tell_edges(graph, classes, &mut found.buffer, sink)?;
    tell_tree(&found.tree, &mut found.buffer, sink)?;
    found.buffer.write_out(sink)
}

/// How many classes there are.
pub fn class_count(classes: &[u32]) -> u64
    ensures { result ≡ fresh classes.now }
{
    let mut count = 0;
    for class in classes {
        let next = u64::from(*class) + 1;
        if count < next {
            count = next;
        }
    }
    count
}

// Appends the lines of the pieces.
fn tell_pieces<K: Sink>(
    flow: &Flow,
    buffer: &mut TextBuffer,
    sink: &mut K,
) -> Result<(), WriteFault>
    ensures text { OnOk result (IsWrittenBut buffer.new (K.got sink.old) (K.got sink.new) (buffer.old ++ piece_lines flow.now.pieces (length flow.now.pieces))) }
    ensures prefix { OnErr result (AppendsPrefix (K.got sink.old) (K.got sink.new) (buffer.old ++ piece_lines flow.now.pieces (length flow.now.pieces))) }
    ensures later { K.faults sink.old ≤ K.faults sink.new }
    ensures fault { OnErr result (Rose (K.faults sink.old) (K.faults sink.new)) }
{
    for k in 0..flow.pieces() {
        let line = piece_line(k, flow.piece(k));
        buffer.append(line.as_str().as_bytes(), sink)?;
    }
    Ok(())
}

// Appends the lines of the edges.
fn tell_edges<K: Sink>(
    g: &Digraph,
    classes: &[u32],
    buffer: &mut TextBuffer,
    sink: &mut K,
) -> Result<(), WriteFault>
    requires { length classes.now ≡ edge_count g.now }
    ensures text { OnOk result (IsWrittenBut buffer.new (K.got sink.old) (K.got sink.new) (buffer.old ++ edge_lines g.now classes.now (edge_count g.now))) }
    ensures prefix { OnErr result (AppendsPrefix (K.got sink.old) (K.got sink.new) (buffer.old ++ edge_lines g.now classes.now (edge_count g.now))) }
    ensures later { K.faults sink.old ≤ K.faults sink.new }
    ensures fault { OnErr result (Rose (K.faults sink.old) (K.faults sink.new)) }
{
    for e in 0..g.edges() {
        let line = edge_line(e, g.from(e), g.to(e), classes[e as usize]);
        buffer.append(line.as_str().as_bytes(), sink)?;
    }
    Ok(())
}

// Appends the lines of the regions.
fn tell_tree<K: Sink>(
    tree: &RegionTree,
    buffer: &mut TextBuffer,
    sink: &mut K,
) -> Result<(), WriteFault>
    ensures text { OnOk result (IsWrittenBut buffer.new (K.got sink.old) (K.got sink.new) (buffer.old ++ region_lines tree.now (region_count tree.now))) }
    ensures prefix { OnErr result (AppendsPrefix (K.got sink.old) (K.got sink.new) (buffer.old ++ region_lines tree.now (region_count tree.now))) }
    ensures later { K.faults sink.old ≤ K.faults sink.new }
    ensures fault { OnErr result (Rose (K.faults sink.old) (K.faults sink.new)) }
{
    for r in 1..tree.count() + 1 {
        let line = region_line(r, tree.entry(r), tree.exit(r), tree.parent(r));
        buffer.append(line.as_str().as_bytes(), sink)?;
    }
    Ok(())
}
