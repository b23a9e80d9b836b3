//! One walk of a graph for its strongly connected components, and of these for the nodes on cycles.
//!
//! Gabow, "Path-based depth-first search for strong and biconnected components", Information Processing Letters 74, 2000.

ghost use Rattle.std.specs.Prelude.{◌≡◌, ◌<◌, ◌≤◌, ◌↔◌, ℕ, Bool, [], true, false, length, IfOk, IfNone, IfSome, OnOk};
ghost use Rattle.closed_walks.specs.Graph.{edge_count, from, to};
ghost use Rattle.closed_walks.specs.Walk.{Holds};
ghost use Rattle.closed_walks.specs.Component.{HasEdge, marked, stage_of, stands_from, Adds, AreDone, ArePending, AreReaching, IsBound, IsFound, IsLast, IsOrdered, IsWalk, IsWalkBut, KeepsFound, left, work};

use crate::Digraph;
use df_sequence::NoMemory;
use std::alloc::Global;

/// How far the walk is with a node: it wasn't found yet, or is a member of a component that isn't known yet, at a place among the
/// members, or its component is known.
#[derive(Clone, Copy, Drop)]
pub(crate) enum Stage {
    New,
    Member(usize),
    Done,
}

impl Stage {
    /// Whether the node is a member at the place or after it.
    fn stands_from(self, first: usize) -> bool
        ensures { result ≡ stands_from self first }
    {
        match self {
            Stage::Member(place) => first <= place,
            Stage::New | Stage::Done => false,
        }
    }
}

/// The walk between two steps. The members are parted into segments, which begin at the places `bounds`: within a segment each
/// node is reached from each, and from each node all nodes of later segments are reached. The edges of members that weren't
/// followed yet are pending.
#[derive(Drop)]
pub(crate) struct ComponentWalk {
    pub(crate) marks: Vec<bool>,
    pub(crate) stages: Vec<Stage>,
    pub(crate) members: Vec<u32>,
    pub(crate) bounds: Vec<usize>,
    pub(crate) pending: Vec<u32>,
}

impl ComponentWalk {
    /// No node is found.
    pub(crate) fn begin(alloc: Global, g: &Digraph) -> Result<Self, NoMemory>
        ensures walk { IfOk result (λ walk. (avoided : ℕ → Bool) → IsWalk g.now avoided walk) }
        ensures none { IfOk result (λ walk. walk.members.items ≡ []) }
    {
        let n = g.nodes() as usize;
        Ok(ComponentWalk {
            marks: vec![in alloc; false; n]?,
            stages: vec![in alloc; Stage::New; n]?,
            members: Vec::new(alloc),
            bounds: Vec::new(alloc),
            pending: Vec::new(alloc),
        })
    }

    /// Walks on until the component of the root is known, and those of all nodes that are reached from it.
    pub(crate) fn walk_from(
        &mut self,
        g: &Digraph,
        avoided: &[bool],
        root: u32,
    ) -> Result<(), NoMemory>
        requires count { length avoided.now ≡ edge_count g.now }
        requires node { root < g.now.nodes }
        requires walk { IsWalk g.now (marked avoided.now) self.old }
        requires none { self.old.members.items ≡ [] }
        ensures walk { OnOk result (IsWalk g.now (marked avoided.now) self.new) }
        ensures none { OnOk result (self.new.members.items ≡ []) }
        ensures kept { OnOk result (KeepsFound self.old self.new) }
        ensures found { OnOk result (IsFound (stage_of self.new.stages.items root)) }
    {
        match self.stages[root as usize] {
            Stage::New => self.find(g, avoided, root)?,
            Stage::Member(_) | Stage::Done => return Ok(()),
        }
        while let Some(&first) = self.bounds.last() {
            self.advance(g, avoided, first)?;
        }
        Ok(())
    }

    /// Follows the last pending edge, if it begins in the last segment, or else ends the segment, which is a component then.
    fn advance(&mut self, g: &Digraph, avoided: &[bool], first: usize) -> Result<(), NoMemory>
        requires count { length avoided.now ≡ edge_count g.now }
        requires walk { IsWalk g.now (marked avoided.now) self.old }
        requires last { IsLast self.old.bounds.items first }
        ensures walk { OnOk result (IsWalk g.now (marked avoided.now) self.new) }
        ensures kept { OnOk result (KeepsFound self.old self.new) }
        ensures less { OnOk result (work (edge_count g.now) self.new < work (edge_count g.now) self.old) }
    {
        match self.next_edge(g, first) {
            Some(e) => self.follow(g, avoided, first, e),
            None => {
                self.end_segment(g, avoided, first);
                Ok(())
            }
        }
    }

    /// The last pending edge, if it begins in the last segment.
    fn next_edge(&self, g: &Digraph, first: usize) -> Option<u32>
        requires nodes { length self.now.stages.items ≡ g.now.nodes }
        requires pending { ArePending g.now self.now.stages.items self.now.pending.items }
        ensures some { IfSome result (λ e. IsLast self.now.pending.items e) }
        ensures inside { IfSome result (λ e. stands_from (stage_of self.now.stages.items (from g.now e)) first ≡ true) }
        ensures none { IfNone result ((e : ℕ) → Holds self.now.pending.items e → stands_from (stage_of self.now.stages.items (from g.now e)) first ≡ false) }
    {
        let e = *self.pending.last()?;
        if self.stages[g.from(e) as usize].stands_from(first) {
            Some(e)
        } else {
            None
        }
    }

    /// Follows the edge, which is the last pending one.
    fn follow(
        &mut self,
        g: &Digraph,
        avoided: &[bool],
        first: usize,
        e: u32,
    ) -> Result<(), NoMemory>
        requires count { length avoided.now ≡ edge_count g.now }
        requires walk { IsWalk g.now (marked avoided.now) self.old }
        requires last { IsLast self.old.bounds.items first }
        requires pending { IsLast self.old.pending.items e }
        requires inside { stands_from (stage_of self.old.stages.items (from g.now e)) first ≡ true }
        ensures walk { OnOk result (IsWalk g.now (marked avoided.now) self.new) }
        ensures kept { OnOk result (KeepsFound self.old self.new) }
        ensures less { OnOk result (work (edge_count g.now) self.new < work (edge_count g.now) self.old) }
    {
        self.pending.pop();
        let to = g.to(e);
        match self.stages[to as usize] {
            Stage::New => self.find(g, avoided, to),
            Stage::Member(place) => {
                pop_above(&mut self.bounds, place);
                Ok(())
            }
            Stage::Done => Ok(()),
        }
    }

    /// Makes the node, which is reached from all members, a segment of its own.
    fn find(&mut self, g: &Digraph, avoided: &[bool], node: u32) -> Result<(), NoMemory>
        requires count { length avoided.now ≡ edge_count g.now }
        requires node { node < g.now.nodes }
        requires walk { IsWalkBut g.now (marked avoided.now) (λ e. to g.now e ≡ node) self.old }
        requires fresh { stage_of self.old.stages.items node ≡ Stage.New }
        requires reaching { AreReaching g.now (marked avoided.now) self.old.members.items node }
        ensures walk { OnOk result (IsWalk g.now (marked avoided.now) self.new) }
        ensures kept { OnOk result (KeepsFound self.old self.new) }
        ensures found { OnOk result (IsFound (stage_of self.new.stages.items node)) }
        ensures less { OnOk result (work (edge_count g.now) self.new < work (edge_count g.now) self.old) }
    {
        let place = self.members.len();
        self.bounds.push(place)?;
        self.members.push(node)?;
        self.stages[node as usize] = Stage::Member(place);
        push_edges(g, avoided, node, &mut self.pending)
    }

    /// Ends the last segment. It is a component, whose nodes are on cycles if there are two or more, or if an edge leads from the
    /// one back to it.
    fn end_segment(&mut self, g: &Digraph, avoided: &[bool], first: usize)
        requires count { length avoided.now ≡ edge_count g.now }
        requires walk { IsWalk g.now (marked avoided.now) self.old }
        requires last { IsLast self.old.bounds.items first }
        requires some { first < length self.old.members.items }
        requires scanned { (e : ℕ) → Holds self.old.pending.items e → stands_from (stage_of self.old.stages.items (from g.now e)) first ≡ false }
        ensures walk { IsWalk g.now (marked avoided.now) self.new }
        ensures kept { KeepsFound self.old self.new }
        ensures less { work (edge_count g.now) self.new < work (edge_count g.now) self.old }
    {
        let on_cycle = first + 1 < self.members.len() || has_loop(g, avoided, self.members[first]);
        mark_done(
            &self.members[first..],
            on_cycle,
            &mut self.stages,
            &mut self.marks,
        );
        self.members.truncate(first);
        self.bounds.pop();
    }
}

/// Takes off the bounds above the place.
fn pop_above(bounds: &mut Vec<usize>, place: usize)
    requires { IsOrdered (λ a b. a < b) bounds.old.items }
    ensures order { IsOrdered (λ a b. a < b) bounds.new.items }
    ensures kept { (b : ℕ) → Holds bounds.new.items b ↔ IsBound bounds.old.items place b }
    ensures fewer { length bounds.new.items ≤ length bounds.old.items }
{
    while let Some(bound) = bounds.last()
        && place < *bound
    {
        bounds.pop();
    }
}

/// Puts the edges that begin at the node, but for the avoided ones, at the end of the pending ones.
fn push_edges(
    g: &Digraph,
    avoided: &[bool],
    node: u32,
    pending: &mut Vec<u32>,
) -> Result<(), NoMemory>
    requires count { length avoided.now ≡ edge_count g.now }
    requires node { node < g.now.nodes }
    ensures { OnOk result (Adds g.now (marked avoided.now) node pending.old.items pending.new.items) }
{
    for e in g.edges_at(node) {
        if g.from(*e) == node && !avoided[*e as usize] {
            pending.push(*e)?;
        }
    }
    Ok(())
}

/// Whether an edge leads from the node back to it, and isn't avoided.
fn has_loop(g: &Digraph, avoided: &[bool], node: u32) -> bool
    requires count { length avoided.now ≡ edge_count g.now }
    requires node { node < g.now.nodes }
    ensures { (result ≡ true) ↔ HasEdge g.now (marked avoided.now) node node }
{
    for e in g.edges_at(node) {
        if g.from(*e) == node && g.to(*e) == node && !avoided[*e as usize] {
            return true;
        }
    }
    false
}

/// The component of the nodes is known, and whether they are on cycles.
fn mark_done(nodes: &[u32], on_cycle: bool, stages: &mut Vec<Stage>, marks: &mut Vec<bool>)
    requires stages { (v : ℕ) → Holds nodes.now v → v < length stages.old.items }
    requires marks { (v : ℕ) → Holds nodes.now v → v < length marks.old.items }
    ensures done { AreDone nodes.now on_cycle stages.old.items marks.old.items stages.new.items marks.new.items }
    ensures left { (room : ℕ) → left room stages.new.items ≤ left room stages.old.items }
{
    for node in nodes {
        stages[*node as usize] = Stage::Done;
        marks[*node as usize] = on_cycle;
    }
}
