//! The sets of edges: of which lines each is a wire.

ghost use Rattle.std.specs.Prelude.{◌≡◌, ◌<◌, ℕ, length, slice_index};
ghost use Rattle.class_set.specs.ClassSet.{holds};
ghost use Rattle.dep_routing.specs.LineTable.{wire_in};

use class_set::ClassSet;

/// Sets of lines, one of them for each edge. Many edges have the same one.
#[derive(Drop)]
pub(crate) struct EdgeSets<const W: usize> {
    pub(crate) sets: Vec<ClassSet<W>>,
    /// For each edge the number of its set.
    pub(crate) set_of: Vec<u32>,
}

impl<const W: usize> EdgeSets<W> {
    /// The lines of which the edge is a wire.
    #[inline]
    pub(crate) fn of(&self, edge: u32) -> &ClassSet<W>
        requires edge { edge < length self.now.set_of.items }
        requires there { slice_index self.now.set_of.items edge < length self.now.sets.items }
        ensures { (line : ℕ) → holds result.now line ≡ wire_in self.now.sets.items self.now.set_of.items line edge }
    {
        &self.sets[self.set_of[edge as usize] as usize]
    }
}
