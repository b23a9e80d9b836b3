//! The lines that are led to a node, those of them that pass it, and those that bypass a region.

ghost use Rattle.std.specs.Prelude.{◌≡◌, ◌<◌, ℕ, true, length};
ghost use Rattle.class_set.specs.ClassSet.{holds};
ghost use Rattle.class_set.specs.Members.{IsWidth};
ghost use Rattle.closed_walks.specs.Graph.{edge_count};
ghost use Rattle.dep_routing.specs.FreeLines.{is_free, is_passing, is_bypass};
ghost use Rattle.dep_routing.specs.Touch.{touches_in};

use crate::{Lines, TouchList};
use class_set::ClassSet;
use closed_walks::{Digraph, edges_of_nodes};

/// The lines that are led to a node: those of which an edge to it is a wire. It takes a few steps for each edge at the node.
pub fn free_lines<const W: usize>(g: &Digraph, l: &Lines<W>, node: u32) -> ClassSet<W>
    requires width { IsWidth W }
    requires edges { l.now.edges ≡ edge_count g.now }
    requires node { node < g.now.nodes }
    ensures lines { (line : ℕ) → line < l.now.lines → holds result line ≡ is_free g.now l.now node line }
    ensures within { (line : ℕ) → holds result line ≡ true → line < l.now.lines }
{
    edges_of_nodes();
    let mut free = ClassSet::empty();
    for e in g.edges_at(node) {
        if g.to(*e) == node {
            free = free.union(l.wires(*e));
        }
    }
    free
}

/// The lines that are led to a node and that it doesn't touch. Where control comes to the node, they go on untouched.
pub fn passing_lines<const W: usize>(
    g: &Digraph,
    l: &Lines<W>,
    touch: &TouchList<W>,
    node: u32,
) -> ClassSet<W>
    requires width { IsWidth W }
    requires edges { l.now.edges ≡ edge_count g.now }
    requires node { node < g.now.nodes }
    requires touch { node < length touch.now }
    ensures lines { (line : ℕ) → line < l.now.lines → holds result line ≡ is_passing g.now l.now (touches_in touch.now) node line }
    ensures within { (line : ℕ) → holds result line ≡ true → line < l.now.lines }
{
    free_lines(g, l, node).difference(touch.at(node))
}

/// The lines that bypass the region which the edge enters: they are led to the node at which it begins, and it is no wire of theirs.
/// `Lines::next_wire` tells to which edge each of them is led.
pub fn bypass_lines<const W: usize>(g: &Digraph, l: &Lines<W>, edge: u32) -> ClassSet<W>
    requires width { IsWidth W }
    requires edges { l.now.edges ≡ edge_count g.now }
    requires edge { edge < edge_count g.now }
    ensures lines { (line : ℕ) → line < l.now.lines → holds result line ≡ is_bypass g.now l.now edge line }
    ensures within { (line : ℕ) → holds result line ≡ true → line < l.now.lines }
{
    free_lines(g, l, g.from(edge)).difference(l.wires(edge))
}
