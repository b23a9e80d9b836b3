//! The lines, nodes and wires of a program's net of operations, as a text.

ghost use Rattle.std.specs.Prelude.{◌≡◌, ◌≢◌, ◌≤◌, [], IfOk};
ghost use Rattle.df_io.specs.Faults.{Rose};
ghost use Rattle.f77_tree.specs.Operations.{HasFewOperations};
ghost use Rattle.f77_tree.specs.WellFormed.{IsWellFormed};
ghost use Rattle.alias_classes.specs.Number.{HasFewClasses};
ghost use Rattle.job_terms.specs.Answers.{AnswersAs};
ghost use Rattle.graph_jobs.specs.Drawn.{IsDrawnOf};
ghost use Rattle.job_terms.specs.Due.{IsDoneBy};
ghost use Rattle.graph_jobs.specs.DueGraphs.{TellsGraph};

use alias_classes::CLASS_WORDS;
use class_set::ClassSet;
use df_io::{NoMemory, Sink, TextBuffer, WriteFault};
use f77_tree::Program;
use flow_analysis::{Analysis, analyze_by_ranges};
use graph_texts::{name_sets, tables_of_edges, write_graph};
use job_terms::Status;
use operation_tables::OpGraph;
use std::alloc::Global;

/// What is found of a program, and the buffer through which it is told.
#[derive(Drop)]
struct Drawn<'a> {
    analysis: Analysis<'a>,
    /// For each name the classes of its words.
    name_sets: Vec<ClassSet<CLASS_WORDS>>,
    /// The net is the same whatever the data.
    input: Vec<i32>,
    buffer: TextBuffer,
}

/// Tells the net of operations of a program. All memory is taken before the first byte is written.
pub fn tell_graph<K: Sink>(alloc: Global, program: &Program, sink: &mut K) -> Status
    requires program { IsWellFormed program.now }
    requires few { HasFewClasses program.now }
    requires modest { HasFewOperations program.now }
    ensures due { AnswersAs (IsDoneBy (TellsGraph program.now)) (K.got sink.old) (K.got sink.new) result }
    ensures words { result ≢ Status.Usage }
    ensures reads { result ≢ Status.ReadFault }
    ensures later { K.faults sink.old ≤ K.faults sink.new }
    ensures fault { result ≡ Status.WriteFault → Rose (K.faults sink.old) (K.faults sink.new) }
{
    match draw(alloc, program) {
        Ok(mut drawn) => tell_net(alloc, program, &mut drawn, sink),
        Err(NoMemory) => Status::NoMemory,
    }
}

// What the text of a program's net is made of, but for the net itself.
fn draw<'a>(alloc: Global, program: &'a Program) -> Result<Drawn<'a>, NoMemory>
    requires program { IsWellFormed program.now }
    requires few { HasFewClasses program.now }
    ensures { IfOk result (λ drawn. IsDrawnOf program.now drawn) }
{
    let analysis = analyze_by_ranges(alloc, program)?;
    let name_sets = name_sets(alloc, program, &analysis.classes)?;
    Ok(Drawn {
        analysis,
        name_sets,
        input: Vec::new(alloc),
        buffer: TextBuffer::new(alloc)?,
    })
}

// Makes the net of a program, and tells it.
fn tell_net<K: Sink>(
    alloc: Global,
    program: &Program,
    drawn: &mut Drawn<'_>,
    sink: &mut K,
) -> Status
    requires program { IsWellFormed program.now }
    requires modest { HasFewOperations program.now }
    requires drawn { IsDrawnOf program.now drawn.old }
    ensures due { AnswersAs (IsDoneBy (TellsGraph program.now)) (K.got sink.old) (K.got sink.new) result }
    ensures words { result ≢ Status.Usage }
    ensures reads { result ≢ Status.ReadFault }
    ensures later { K.faults sink.old ≤ K.faults sink.new }
    ensures fault { result ≡ Status.WriteFault → Rose (K.faults sink.old) (K.faults sink.new) }
{
    let found = &drawn.analysis;
    let sets = drawn.name_sets.as_slice();
    let made = OpGraph::new(
        alloc,
        program,
        &found.flow,
        &found.classes,
        &found.touch,
        &found.lines,
        &drawn.input,
    );
    match made {
        Err(NoMemory) => Status::NoMemory,
        Ok(net) => match tables_of_edges(alloc, found.flow.graph(), &found.lines) {
            Err(NoMemory) => Status::NoMemory,
            Ok(tables) => {
                match write_graph(program, found, sets, &tables, &net, &mut drawn.buffer, sink) {
                    Ok(()) => Status::Done,
                    Err(WriteFault) => Status::WriteFault,
                }
            }
        },
    }
}
