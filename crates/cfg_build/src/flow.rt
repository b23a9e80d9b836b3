ghost use Rattle.std.specs.Prelude.{◌≡◌, ◌<◌, ◌^◌, length, slice_get, Some, IfOk};
ghost use Rattle.closed_walks.specs.Region.{IsFlowGraph};
ghost use Rattle.closed_walks.specs.Graph.{IsGraph};
ghost use Rattle.cfg_build.specs.Flow.{flow};
ghost use Rattle.cfg_build.specs.Joined.{joined};
ghost use Rattle.cfg_build.specs.Tables.{drawn_as};
ghost use Rattle.f77_tree.specs.WellFormed.{IsWellFormed};

use crate::holds::{held_pieces, put_holds};
use crate::numbers::{numbers, ways};
use crate::parts::{Target, parts_of};
use crate::pieces::Piece;
use crate::reached::reached_execs;
use crate::rows::{Drawing, digraph, drawn};
use closed_walks::{Digraph, endless_ways_meet_cycles, reaching_is_told};
use df_sequence::NoMemory;
use f77_tree::Program;
use std::alloc::Global;
use std::marker::Model;

/// The flow graph of a program.
#[derive(Drop)]
pub struct Flow {
    graph: Digraph,
    pieces: Vec<Piece>,
}

impl Model for Flow {
    ghost use Rattle.cfg_build.specs.Joined.{FlowGraph};

    ghost Value = { FlowGraph };

    ghost use Rattle.cfg_build.specs.Built.{graph_of, IsKept};

    ghost view = { graph_of };

    ghost invariant = { IsKept };
}

impl Flow {
    /// The graph, whose nodes are the pieces.
    pub fn graph(&self) -> &Digraph
        ensures { result.now ≡ self.now.graph }
    {
        &self.graph
    }

    /// How many pieces there are.
    pub fn pieces(&self) -> u32
        ensures count { result ≡ length self.now.pieces }
        ensures nodes { result ≡ self.now.graph.nodes }
    {
        self.graph.nodes()
    }

    /// A piece.
    pub fn piece(&self, k: u32) -> Piece
        requires { k < length self.now.pieces }
        ensures { slice_get self.now.pieces k ≡ Some result }
    {
        self.pieces[k as usize]
    }
}

/// The flow graph of a program. Its time and memory are a few steps and words for each executable and each edge, but for searches
/// from pieces that an edge from above comes to and that can't come to the end.
pub fn flow_of(alloc: Global, p: &Program) -> Result<Flow, NoMemory>
    requires { IsWellFormed p.now }
    ensures flow { IfOk result (λ f. f ≡ flow p.now.execs) }
    ensures flow_graph { IfOk result (λ f. IsFlowGraph f.graph) }
{
    reaching_is_told();
    endless_ways_meet_cycles();
    let mut drawing = joined(alloc, p)?;
    let graph = graph_of(alloc, &drawing)?;
    let finish = graph.nodes() - 1;
    let held = held_pieces(alloc, &graph, finish)?;
    if held.is_empty() {
        let pieces = drawing.pieces;
        return Ok(Flow { graph, pieces });
    }
    put_holds(&mut drawing, &graph, &held, finish)?;
    Ok(Flow {
        graph: graph_of(alloc, &drawing)?,
        pieces: drawing.pieces,
    })
}

// The pieces and edges of a program before holds are put on them.
fn joined(alloc: Global, p: &Program) -> Result<Drawing, NoMemory>
    requires { IsWellFormed p.now }
    ensures { IfOk result (λ drawing. drawn_as drawing ≡ joined p.now.execs) }
{
    reaching_is_told();
    let reached = reached_execs(alloc, p)?;
    let parts = parts_of(alloc, p, &reached)?;
    let execs = p.execs.len();
    let ways = ways(alloc, &parts, execs)?;
    let numbers = numbers(alloc, &parts, &ways, execs)?;
    let finish = numbers.get(Target::First(execs - 1));
    drawn(alloc, &parts, &ways, &numbers, finish)
}

// The graph that is drawn.
fn graph_of(alloc: Global, drawing: &Drawing) -> Result<Digraph, NoMemory>
    requires sound { IsGraph (drawn_as drawing.now).graph }
    requires pieces { length drawing.now.pieces.items < 2 ^ 32 }
    requires edges { length drawing.now.edges.items < 2 ^ 31 }
    ensures { IfOk result (λ g. g ≡ (drawn_as drawing.now).graph) }
{
    digraph(alloc, drawing.pieces.len() as u32, &drawing.edges)
}
