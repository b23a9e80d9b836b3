//! Directed graphs whose edges are kept by node.

ghost use Rattle.std.specs.Prelude.{◌≡◌, ◌+◌, ◌-◌, ◌<◌, ◌^◌, ◌==◌, ◌||◌, ℕ, [], ◌∷◌, ◌++◌, length, slice_get, slice_index_or, IfOk, OnOk, OnErr, if◌then◌else◌};

use crate::edge_list::EdgeList;
use df_sequence::NoMemory;
use std::alloc::Global;
use std::marker::Model;
use std::sync::ledger::Ledger;
use step_count::Steps;

/// The edge that was asked for, if there is one.
#[derive(Clone, Copy, Debug, PartialEq, Eq)]
pub enum EdgeEnd {
    Edge(u32),
    NoMore,
}

/// A directed graph of fewer than 2^32 nodes and fewer than 2^31 edges. Contracts see it as its number of nodes and the list of its
/// edges.
#[derive(Drop)]
pub struct Digraph {
    ends: Vec<(u32, u32)>,
    touching: Vec<EdgeList>,
}

impl Model for Digraph {
    ghost use Rattle.closed_walks.specs.Graph.{Graph};

    ghost Value = { Graph };

    ghost use Rattle.closed_walks.specs.Digraph.{graph_of, IsKept};

    ghost view = { graph_of };

    ghost invariant = { IsKept };
}

impl Digraph {
    ghost use Rattle.closed_walks.specs.EdgeEnd.{edge_end};
    ghost use Rattle.closed_walks.specs.Graph.{IsGraph, edge_count, edges_at, from, to, with_edge};

    /// The graph of so many nodes without edges.
    pub fn new(alloc: Global, nodes: u32) -> Result<Self, NoMemory>
        ensures { IfOk result (λ g. g ≡ record { nodes = nodes; edges = [] }) }
    {
        Ok(Digraph {
            ends: Vec::new(alloc),
            touching: no_edges(alloc, nodes)?,
        })
    }

    /// Adds an edge from the one node to the other, and answers its number.
    pub fn add_edge(&mut self, _alloc: Global, from: u32, to: u32) -> Result<u32, NoMemory>
        requires begins { from < self.old.nodes }
        requires ends { to < self.old.nodes }
        requires room { edge_count self.old < 2 ^ 31 - 1 }
        ensures number { IfOk result (λ e. e ≡ edge_count self.old) }
        ensures ok { OnOk result (self.new ≡ with_edge self.old from to) }
        ensures err { OnErr result (self.new ≡ self.old) }
    {
        let e = self.ends.len() as u32;
        self.ends.push((from, to))?;
        if let Err(error) = touch(&mut self.touching, from, to, e) {
            self.ends.pop();
            return Err(error);
        }
        Ok(e)
    }

    /// How many nodes there are.
    pub fn nodes(&self) -> u32
        ensures count { result ≡ self.now.nodes }
        ensures sound { IsGraph self.now }
    {
        self.touching.len() as u32
    }

    /// How many edges there are.
    pub fn edges(&self) -> u32
        ensures count { result ≡ edge_count self.now }
        ensures few { result < 2 ^ 31 }
        ensures sound { IsGraph self.now }
    {
        self.ends.len() as u32
    }

    /// The node at which the edge begins.
    pub fn from(&self, e: u32) -> u32
        requires { e < edge_count self.now }
        ensures node { result ≡ from self.now e }
        ensures exists { result < self.now.nodes }
    {
        self.ends[e as usize].0
    }

    /// The node at which the edge ends.
    pub fn to(&self, e: u32) -> u32
        requires { e < edge_count self.now }
        ensures node { result ≡ to self.now e }
        ensures exists { result < self.now.nodes }
    {
        self.ends[e as usize].1
    }

    /// All edges that touch the node, each once, in the order of their numbers.
    pub fn edges_at(&self, node: u32) -> &[u32]
        requires { node < self.now.nodes }
        ensures { result.now ≡ edges_at self.now node }
    {
        self.touching[node as usize].as_slice()
    }

    /// The k-th edge that touches the node, counted from 0 in the order of their numbers. An edge from the node to itself
    /// stands once. It takes one step, and a time that doesn't depend on the graph.
    pub fn edge_at<L: Ledger>(&self, node: u32, k: u32, steps: &mut Steps<L>) -> EdgeEnd
        requires { node < self.now.nodes }
        ensures edge { result ≡ edge_end (slice_get (edges_at self.now node) k) }
        ensures step { steps.new ≡ steps.old + 1 }
    {
        steps.tick();
        match self.edges_at(node).get(k as usize) {
            Some(e) => EdgeEnd::Edge(*e),
            None => EdgeEnd::NoMore,
        }
    }
}

/// A list without edges for each node.
fn no_edges(alloc: Global, nodes: u32) -> Result<Vec<EdgeList>, NoMemory>
    ensures { IfOk result (λ lists. (length lists.items ≡ nodes) × ((node : ℕ) → slice_index_or lists.items node [] ≡ [])) }
{
    let mut lists = Vec::with_capacity(alloc, nodes as usize)?;
    for _ in 0..nodes {
        lists.push(EdgeList::new(alloc))?;
    }
    Ok(lists)
}

/// Puts the edge into the lists of the nodes at which it begins and ends.
fn touch(lists: &mut Vec<EdgeList>, from: u32, to: u32, e: u32) -> Result<(), NoMemory>
    requires begins { from < length lists.old.items }
    requires ends { to < length lists.old.items }
    ensures len { length lists.new.items ≡ length lists.old.items }
    ensures ok { OnOk result ((node : ℕ) → slice_index_or lists.new.items node [] ≡ slice_index_or lists.old.items node [] ++ (if (from == node) || (to == node) then e ∷ [] else [])) }
    ensures err { OnErr result (lists.new.items ≡ lists.old.items) }
{
    lists[from as usize].push(e)?;
    if from != to
        && let Err(error) = lists[to as usize].push(e)
    {
        lists[from as usize].drop_last(e);
        return Err(error);
    }
    Ok(())
}
