//! One depth-first walk of the undirected view of a graph, which gives each edge a name.
//!
//! Johnson, Pearson and Pingali, "The program structure tree", PLDI 1994.

ghost use Rattle.std.specs.Prelude.{◌≡◌, ◌≢◌, ◌+◌, ◌*◌, ◌<◌, ◌≤◌, ℕ, [], true, replicate, slice_get, slice_index, IfNone, IfOk, IfSome, OnOk, None};
ghost use Rattle.closed_walks.specs.Graph.{edge_count, edges_at, touches};
ghost use Rattle.closed_walks.specs.Walk.{IsStrong};
ghost use Rattle.cycle_equiv.specs.DepthFirst.{Joins};
ghost use Rattle.cycle_equiv.specs.WalkState.{AreNamesOf, IsWalk, IsNextEdge, IsPaidWalk, progress};

use crate::walk_caps::{Caps, end_list};
use crate::walk_names::Names;
use crate::walk_reaches::ReachTable;
use crate::walk_tree::{Mark, TreeTable};
use brackets::BracketLists;
use closed_walks::{Digraph, EdgeEnd};
use df_sequence::NoMemory;
use std::alloc::Global;
use std::sync::ledger::Ledger;
use step_count::Steps;

/// What the walk wrote down: the tree, how far up back edges lead, for each node's edge the list of its brackets, for each place
/// the edges of the nodes whose capping brackets lead there, and the names of the edges.
#[derive(Drop)]
pub(crate) struct BracketWalk {
    tree: TreeTable,
    reaches: ReachTable,
    lists: BracketLists,
    caps: Vec<Caps>,
    names: Names,
}

impl BracketWalk {
    /// The walk is at the root, and took no edge yet.
    fn begin(alloc: Global, g: &Digraph, root: u32) -> Result<Self, NoMemory>
        requires { root < g.now.nodes }
        ensures { IfOk result (λ walk. (start : ℕ) → IsPaidWalk g.now walk root start start) }
    {
        let edges = g.edges();
        Ok(BracketWalk {
            tree: TreeTable::begin(alloc, g.nodes(), root)?,
            reaches: ReachTable::begin(alloc, g.nodes())?,
            lists: BracketLists::with_room(alloc, edges)?,
            caps: no_caps(alloc, g.nodes())?,
            names: Names {
                tops: vec![in alloc; 0; edges as usize]?,
                sizes: vec![in alloc; 0; edges as usize]?,
            },
        })
    }

    /// Takes the next edge of the node u, or leaves the node where there is none. Answers where the walk is then, or none at its
    /// end, which is where the root has no more edges.
    fn advance<L: Ledger>(
        &mut self,
        g: &Digraph,
        u: u32,
        steps: &mut Steps<L>,
    ) -> Result<Option<u32>, NoMemory>
        requires walk { IsWalk g.now self.old u }
        requires strong { IsStrong g.now }
        ensures walk { IfOk result (λ next. IfSome next (λ v. (start : ℕ) → IsPaidWalk g.now self.old u start steps.old → IsPaidWalk g.now self.new v start steps.new)) }
        ensures further { IfOk result (λ next. IfSome next (λ v. progress self.old < progress self.new)) }
        ensures end { IfOk result (λ next. IfNone next (AreNamesOf g.now self.new.names)) }
        ensures steps { IfOk result (λ next. IfNone next ((start : ℕ) → IsPaidWalk g.now self.old u start steps.old → steps.new ≤ start + (4 * edge_count g.now + 3 * g.now.nodes))) }
    {
        match g.edge_at(u, self.tree.taken[u as usize], steps) {
            EdgeEnd::Edge(e) => Ok(Some(self.take(g, u, e, steps))),
            EdgeEnd::NoMore => {
                if u == self.tree.root {
                    return Ok(None);
                }
                let p = self.leave(g, u, steps)?;
                Ok(Some(p))
            }
        }
    }

    /// Takes the edge, which is the next one of the node u. Answers where the walk is then.
    fn take<L: Ledger>(&mut self, g: &Digraph, u: u32, e: u32, steps: &mut Steps<L>) -> u32
        requires walk { IsWalk g.now self.old u }
        requires next { IsNextEdge g.now self.old u e }
        ensures walk { (start now : ℕ) → IsPaidWalk g.now self.old u start now → steps.old ≡ now + 1 → IsPaidWalk g.now self.new result start steps.new }
        ensures further { progress self.old < progress self.new }
    {
        let v = other_end(g, u, e);
        let f = self.tree.parent_edge[u as usize];
        let place = self.tree.preorder[v as usize];
        match self.tree.marks[v as usize] {
            Mark::New => {
                let count = self.tree.count;
                self.tree.take(u);
                self.tree.find(u, e, v);
                self.reaches.start(v, count);
                v
            }
            Mark::Open => {
                self.tree.take(u);
                if u == v {
                    self.names.put(e, e, 1);
                    return u;
                }
                if f == e {
                    return u;
                }
                self.names.put(e, e, 1);
                self.lists.push(f, e, steps);
                self.reaches.reach(u, place);
                u
            }
            Mark::Left => {
                let root = self.tree.root;
                self.tree.take(u);
                if u != root {
                    self.lists.delete(f, e, steps);
                }
                u
            }
        }
    }

    /// Leaves the node u, all of whose edges were taken. Answers its parent.
    fn leave<L: Ledger>(
        &mut self,
        g: &Digraph,
        u: u32,
        steps: &mut Steps<L>,
    ) -> Result<u32, NoMemory>
        requires walk { IsWalk g.now self.old u }
        requires other { u ≢ self.old.tree.root }
        requires all { slice_get (edges_at g.now u) (slice_index self.old.tree.taken.items u) ≡ None }
        ensures walk { IfOk result (λ p. (start now : ℕ) → IsPaidWalk g.now self.old u start now → steps.old ≡ now + 1 → IsPaidWalk g.now self.new p start steps.new) }
        ensures further { OnOk result (progress self.old < progress self.new) }
    {
        let f = self.tree.parent_edge[u as usize];
        let p = self.tree.parent[u as usize];
        let above = self.tree.parent_edge[p as usize];
        let place = self.tree.preorder[u as usize];
        let second = self.reaches.second[u as usize];
        let highest = self.reaches.highest(u);
        let root = self.tree.root;
        end_list(
            &mut self.lists,
            &mut self.caps,
            f,
            place,
            second,
            g.edges(),
            steps,
        )?;
        let top = self.lists.top(f, steps).unwrap_or(0);
        let size = self.lists.size(f, steps);
        self.names.put(f, top, size);
        self.reaches.merge(p, highest);
        self.tree.leave(u);
        if p != root {
            self.lists.concat(above, f, steps);
        }
        Ok(p)
    }
}

/// The names of the edges of a strongly connected graph with an edge: those of one name are a class. It takes at most four
/// steps for each edge and three for each node.
pub(crate) fn edge_names<L: Ledger>(
    alloc: Global,
    g: &Digraph,
    steps: &mut Steps<L>,
) -> Result<Names, NoMemory>
    requires strong { IsStrong g.now }
    requires some { 0 < edge_count g.now }
    ensures names { IfOk result (λ names. AreNamesOf g.now names) }
    ensures steps { OnOk result (steps.new ≤ steps.old + (4 * edge_count g.now + 3 * g.now.nodes)) }
{
    let root = g.from(0);
    let mut walk = BracketWalk::begin(alloc, g, root)?;
    let mut u = root;
    'walk: while let Some(v) = walk.advance(g, u, steps)? {
        u = v;
    }
    Ok(walk.names)
}

/// No capping brackets, for each place.
fn no_caps(alloc: Global, nodes: u32) -> Result<Vec<Caps>, NoMemory>
    ensures { IfOk result (λ caps. caps.items ≡ replicate nodes []) }
{
    let mut caps = Vec::new(alloc);
    for _ in 0..nodes {
        caps.push(Caps::new(alloc))?;
    }
    Ok(caps)
}

/// The end of an edge whose one end is u: the other, or u where both are.
fn other_end(g: &Digraph, u: u32, e: u32) -> u32
    requires edge { e < edge_count g.now }
    requires touched { touches g.now u e ≡ true }
    ensures ends { Joins g.now e u result }
    ensures node { result < g.now.nodes }
{
    if g.from(e) == u { g.to(e) } else { g.from(e) }
}
