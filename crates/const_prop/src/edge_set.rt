//! A set of edges.

ghost use Rattle.std.specs.Prelude.{◌≡◌, ◌*◌, ◌<◌, ◌≤◌, ◌==◌, ◌&&◌, ◌||◌, ℕ, not, true, length, MatchOption, IfOk};
ghost use Rattle.class_set.specs.Members.{IsLeast, IsPast};
ghost use Rattle.const_prop.specs.EdgeSet.{edge_holds};

use class_set::ClassSet;
use df_sequence::NoMemory;
use std::alloc::Global;
use std::marker::Model;

/// A set of edges, in blocks of 64, so that the next member is found a block at a time. Contracts see the blocks.
#[derive(Drop)]
pub(crate) struct EdgeSet {
    blocks: Vec<ClassSet<1>>,
}

impl Model for EdgeSet {
    ghost use Rattle.std.specs.Prelude.{◌≤◌, ◌^◌, List, length};
    ghost use Rattle.class_set.specs.declared.ClassSet.{ClassSet};

    ghost Value = { List (ClassSet 1) };

    ghost view = { λ s. s.blocks.items };
    // Few enough that the number of each edge is a `u32`.
    ghost invariant = { λ s. length s.blocks.items ≤ 2 ^ 26 };
}

impl EdgeSet {
    /// The set of all edges, so many.
    pub(crate) fn full(alloc: Global, edges: u32) -> Result<Self, NoMemory>
        ensures room { IfOk result (λ s. edges ≤ 64 * length s) }
        ensures all { IfOk result (λ s. (e : ℕ) → e < edges → edge_holds s e ≡ true) }
    {
        let mut set = EdgeSet {
            blocks: vec![in alloc; ClassSet::empty(); edges.div_ceil(64) as usize]?,
        };
        for edge in 0..edges {
            set.insert(edge);
        }
        Ok(set)
    }

    /// Whether the edge is in the set.
    pub(crate) fn holds(&self, edge: u32) -> bool
        requires { edge < 64 * length self.now }
        ensures { result ≡ edge_holds self.now edge }
    {
        self.blocks[edge as usize / 64].holds(edge % 64)
    }

    /// Puts the edge into the set.
    pub(crate) fn insert(&mut self, edge: u32)
        requires { edge < 64 * length self.old }
        ensures room { length self.new ≡ length self.old }
        ensures holds { (e : ℕ) → edge_holds self.new e ≡ (e == edge || edge_holds self.old e) }
    {
        self.blocks[edge as usize / 64].insert(edge % 64);
    }

    /// Takes the edge out of the set.
    pub(crate) fn remove(&mut self, edge: u32)
        requires { edge < 64 * length self.old }
        ensures room { length self.new ≡ length self.old }
        ensures holds { (e : ℕ) → edge_holds self.new e ≡ (not (e == edge) && edge_holds self.old e) }
    {
        let block = edge as usize / 64;
        self.blocks[block] = self.blocks[block].difference(&ClassSet::empty().with(edge % 64));
    }

    /// The least edge in the set from an edge on.
    pub(crate) fn next_from(&self, edge: u32) -> Option<u32>
        ensures { MatchOption result (IsPast (edge_holds self.now) edge) (IsLeast (edge_holds self.now) edge) }
    {
        let mut below = (edge % 64).checked_sub(1);
        for block in edge as usize / 64..self.blocks.len() {
            if let Some(place) = self.blocks[block].next_after(below) {
                return Some(64 * block as u32 + place);
            }
            below = None;
        }
        None
    }
}
