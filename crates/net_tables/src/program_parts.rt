//! The parts of a net: a program, its data, which pieces touch the token lines, and where these are led.

ghost use Rattle.std.specs.Prelude.{◌≡◌, ◌<◌, ◌≤◌, ℕ, length};
ghost use Rattle.class_set.specs.Members.{IsWidth};
ghost use Rattle.cfg_build.specs.Flow.{flow as flow_graph};
ghost use Rattle.closed_walks.specs.Graph.{edge_count};
ghost use Rattle.dep_routing.specs.Routing.{next_at};

use cfg_build::Flow;
use dep_routing::{Lines, TouchList};
use f77_tree::Program;

/// What firings never change: a program and its data, which pieces of it touch the lines of tokens, and where these are led. The
/// flow graph is the program's own. There is one set of touched lines for each of its pieces, and each line is led to an edge of it.
/// There are 1,024 lines at most, as sets of 16 words can hold.
#[derive(Drop)]
pub struct Plan<'a, const W: usize> {
    /// The program.
    pub program: &'a Program,
    /// Its flow graph, with its pieces.
    pub flow: &'a Flow,
    /// For each piece the lines that it touches.
    pub touch: &'a TouchList<W>,
    /// Where each line is led from each edge. Line 0 is the one of output.
    pub routes: &'a Lines<W>,
    /// The words that READ takes, in their order.
    pub input: Vec<i32>,
    pub ghost width: { IsWidth W },
    pub ghost own_flow: { flow.now ≡ flow_graph program.now.execs },
    pub ghost sets: { length touch.now ≡ flow.now.graph.nodes },
    pub ghost pieces: { length flow.now.pieces ≡ flow.now.graph.nodes },
    pub ghost two_edges: { 1 < edge_count flow.now.graph },
    pub ghost few_lines: { routes.now.lines ≤ 1024 },
    pub ghost wires: { routes.now.edges ≡ edge_count flow.now.graph },
    pub ghost led: { (line edge : ℕ) → line < routes.now.lines → edge < edge_count flow.now.graph → next_at routes.now line edge < edge_count flow.now.graph },
}
