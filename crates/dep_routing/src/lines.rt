//! The table of wires.

ghost use Rattle.std.specs.Prelude.{◌≡◌, ◌<◌, ℕ, true};
ghost use Rattle.class_set.specs.ClassSet.{holds};

use crate::edge_rows::EdgeRows;
use crate::edge_sets::EdgeSets;
use class_set::ClassSet;
use std::marker::Model;

/// For each line and edge, whether the edge is a wire of the line, and to which edge the line is led from it. Contracts see a
/// `Routing`.
#[derive(Drop)]
pub struct Lines<const W: usize> {
    pub(crate) lines: u32,
    /// For each edge the lines of which it is a wire: edges to nodes of which one region is the smallest that holds them have one set.
    pub(crate) wires: EdgeSets<W>,
    /// For each edge, where it is the entry of a region, the edge to which each line is led from it. From any other edge no line
    /// is led on.
    pub(crate) next: EdgeRows,
}

impl<const W: usize> Model for Lines<W> {
    ghost use Rattle.dep_routing.specs.Routing.{Routing};

    ghost Value = { Routing };

    ghost use Rattle.dep_routing.specs.LineTable.{routing_of, IsKept};

    ghost view = { routing_of };

    ghost invariant = { IsKept };
}

impl<const W: usize> Lines<W> {
    ghost use Rattle.dep_routing.specs.Routing.{next_at, wire_at};

    /// How many lines there are.
    pub fn lines(&self) -> u32
        ensures { result ≡ self.now.lines }
    {
        self.lines
    }

    /// The lines of which the edge is a wire: those for which no region that is quiet holds the node at which the edge ends.
    pub fn wires(&self, edge: u32) -> &ClassSet<W>
        requires { edge < self.now.edges }
        ensures wires { (line : ℕ) → line < self.now.lines → holds result.now line ≡ wire_at self.now line edge }
        ensures within { (line : ℕ) → holds result.now line ≡ true → line < self.now.lines }
    {
        self.wires.of(edge)
    }

    /// Whether the edge is a wire of the line.
    pub fn is_wire(&self, line: u32, edge: u32) -> bool
        requires line { line < self.now.lines }
        requires edge { edge < self.now.edges }
        ensures { result ≡ wire_at self.now line edge }
    {
        self.wires.of(edge).holds(line)
    }

    /// The edge to which the line is led from the edge, past regions that are quiet for it. It is a wire where the edge begins at a
    /// node that lies in no such region.
    pub fn next_wire(&self, line: u32, edge: u32) -> u32
        requires line { line < self.now.lines }
        requires edge { edge < self.now.edges }
        ensures { result ≡ next_at self.now line edge }
    {
        self.next.led(line, edge)
    }
}
