//! Looking up the nodes, the token lines and the edges of a piece.

ghost use Rattle.std.specs.Prelude.{◌≡◌, ◌+◌, ◌<◌, ◌≤◌, All, length};
ghost use Rattle.closed_walks.specs.Graph.{IsGraph, edge_count};
ghost use Rattle.cfg_build.specs.Passes.{out, outs as outs_in};
ghost use Rattle.net_board.specs.ControlCourse.{arrival as arrival_in};
ghost use Rattle.net_board.specs.Nodes.{graph_in, first_node, node_at, node_count, nodes_of, touched as touched_in};
ghost use Rattle.net_board.specs.WokenNodes.{no_node, place_of};
ghost use Rattle.net_tables.specs.NetTables.{AreTables};
ghost use Rattle.net_tables.specs.PartsView.{net_in};

use crate::program_parts::Plan;
use crate::tables::{Tables, out_at};
use closed_walks::Digraph;
use df_sequence::LabelList;
use firing::NodeName;

/// What firings never change, with the tables in which they look it up. Its nodes are numbered from 0: those of a piece in a row, and
/// the pieces in their order. The methods take no memory, and a fixed number of steps.
#[derive(Drop)]
pub struct Board<'a, const W: usize> {
    /// What the tables are made from.
    pub plan: Plan<'a, W>,
    pub(crate) tables: Tables,
    pub ghost own_tables: { AreTables (net_in plan) tables },
}

impl<'a, const W: usize> Board<'a, W> {
    ghost use Rattle.net_tables.specs.LookupView.{net_on};

    /// How many nodes there are.
    pub fn nodes(&self) -> u32
        ensures { result ≡ length (nodes_of (net_on self.now)) }
    {
        self.tables.names.len() as u32
    }

    /// The name of a node.
    pub fn name(&self, k: u32) -> NodeName
        requires { k < length (nodes_of (net_on self.now)) }
        ensures { result ≡ node_at (net_on self.now) k }
    {
        self.tables.names.at(k as usize)
    }

    /// The number of the first node of a piece. Where the piece has none, that of the next piece with nodes, or the number of all nodes.
    pub fn first(&self, piece: u32) -> u32
        requires { piece < (graph_in (net_on self.now)).nodes }
        ensures { result ≡ first_node (net_on self.now) piece }
    {
        self.tables.firsts[piece as usize]
    }

    /// The number after the last node of a piece: at most the number of all nodes.
    pub fn end(&self, piece: u32) -> u32
        requires { piece < (graph_in (net_on self.now)).nodes }
        ensures end { result ≡ first_node (net_on self.now) piece + node_count (net_on self.now) piece }
        ensures within { result ≤ length (nodes_of (net_on self.now)) }
    {
        self.tables.firsts[piece as usize + 1]
    }

    /// How many nodes a piece has.
    pub fn count(&self, piece: u32) -> u32
        requires { piece < (graph_in (net_on self.now)).nodes }
        ensures { result ≡ node_count (net_on self.now) piece }
    {
        self.end(piece) - self.first(piece)
    }

    /// The lines that a piece touches, in the order of their numbers.
    pub fn touched(&self, piece: u32) -> &[u32]
        requires { piece < (graph_in (net_on self.now)).nodes }
        ensures lines { result.now ≡ touched_in (net_on self.now) piece }
        ensures exist { All (λ line. line < self.now.plan.routes.now.lines) result.now }
        ensures few { length result.now ≤ self.now.plan.routes.now.lines }
    {
        self.tables.touched[piece as usize].as_slice()
    }

    /// The edges that leave a piece, in the order of their numbers.
    pub fn outs(&self, piece: u32) -> &LabelList
        requires { piece < (graph_in (net_on self.now)).nodes }
        ensures { result.now ≡ outs_in (graph_in (net_on self.now)) piece }
    {
        &self.tables.outs[piece as usize]
    }

    /// The first of the edges that leave a piece.
    pub fn first_out(&self, piece: u32) -> u32
        requires { piece < (graph_in (net_on self.now)).nodes }
        ensures edge { result ≡ out (graph_in (net_on self.now)) piece 0 }
        ensures exists { result < edge_count (graph_in (net_on self.now)) }
    {
        out_at(self.outs(piece), 0)
    }

    /// The next piece with nodes that control comes to along an edge, or the end.
    pub fn arrival(&self, edge: u32) -> u32
        requires { edge < edge_count (graph_in (net_on self.now)) }
        ensures piece { result ≡ arrival_in (net_on self.now) edge }
        ensures exists { result < (graph_in (net_on self.now)).nodes }
    {
        ends_exist(self.plan.flow.graph());
        self.tables.arrivals[edge as usize]
    }

    /// The number of the node of a piece that a line goes through, if there is one. Else it is some number.
    pub fn place(&self, piece: u32, line: u32) -> u32
        requires piece { piece < (graph_in (net_on self.now)).nodes }
        requires line { line < self.now.plan.routes.now.lines }
        ensures { place_of (net_on self.now) piece line < no_node (net_on self.now) → result ≡ place_of (net_on self.now) piece line }
    {
        match self.tables.places.row_of[piece as usize] {
            Some(row) => self.tables.places.table.get(row, line),
            None => self.first(piece),
        }
    }
}

/// Edges end at nodes.
fn ends_exist(g: &Digraph)
    ensures { IsGraph g.now }
{
    let _edges = g.edges();
}
