//! The tree of a depth-first walk that isn't at its end.

ghost use Rattle.std.specs.Prelude.{◌≡◌, ◌+◌, ◌-◌, ◌<◌, ◌^◌, ℕ, true, false, set, slice_index, IfOk};
ghost use Rattle.cycle_equiv.specs.WalkTables.{HasRow, IsTreeTable};
ghost use Rattle.cycle_equiv.specs.Walking.{Trail, beginning, finding, leaving, taking};

use df_sequence::NoMemory;
use std::alloc::Global;

/// Whether the walk found a node, and whether it left the node for good.
#[derive(Clone, Copy, Drop)]
pub(crate) enum Mark {
    New,
    Open,
    Left,
}

/// What the walk wrote down of each node.
#[derive(Drop)]
pub(crate) struct TreeTable {
    pub(crate) root: u32,
    pub(crate) count: u32,
    pub(crate) marks: Vec<Mark>,
    pub(crate) taken: Vec<u32>,
    pub(crate) preorder: Vec<u32>,
    pub(crate) parent: Vec<u32>,
    pub(crate) parent_edge: Vec<u32>,
}

impl TreeTable {
    /// The walk is at the root, and took no edge yet.
    pub(crate) fn begin(alloc: Global, nodes: u32, root: u32) -> Result<Self, NoMemory>
        requires { root < nodes }
        ensures { IfOk result (λ table. IsTreeTable nodes table (beginning root)) }
    {
        let n = nodes as usize;
        let mut marks = vec![in alloc; Mark::New; n]?;
        marks[root as usize] = Mark::Open;
        Ok(TreeTable {
            root,
            count: 1,
            marks,
            taken: vec![in alloc; 0; n]?,
            preorder: vec![in alloc; 0; n]?,
            parent: vec![in alloc; 0; n]?,
            parent_edge: vec![in alloc; 0; n]?,
        })
    }

    /// One edge more was taken at the node.
    pub(crate) fn take(&mut self, u: u32)
        requires row { HasRow self.old u }
        requires room { slice_index self.old.taken.items u < 2 ^ 32 - 1 }
        ensures table { (n : ℕ) (w : Trail) → IsTreeTable n self.old w → IsTreeTable n self.new (taking w u) }
        ensures marks { self.new.marks.items ≡ self.old.marks.items }
        ensures taken { self.new.taken.items ≡ set self.old.taken.items u (slice_index self.old.taken.items u + 1) }
    {
        self.taken[u as usize] += 1;
    }

    /// The edge that was taken at u last led to v, which wasn't found before.
    pub(crate) fn find(&mut self, u: u32, e: u32, v: u32)
        requires row { HasRow self.old v }
        requires room { self.old.count < 2 ^ 32 - 1 }
        ensures table { (n : ℕ) (w : Trail) → IsTreeTable n self.old (taking w u) → (taking w u).taken v ≡ 0 → w.left v ≡ false → IsTreeTable n self.new (finding w u e v) }
        ensures marks { self.new.marks.items ≡ set self.old.marks.items v Mark.Open }
        ensures taken { self.new.taken.items ≡ self.old.taken.items }
    {
        self.marks[v as usize] = Mark::Open;
        self.preorder[v as usize] = self.count;
        self.parent[v as usize] = u;
        self.parent_edge[v as usize] = e;
        self.count += 1;
    }

    /// The node, which is open, was left for good.
    pub(crate) fn leave(&mut self, u: u32)
        requires { HasRow self.old u }
        ensures table { (n : ℕ) (w : Trail) → IsTreeTable n self.old w → w.found u ≡ true → IsTreeTable n self.new (leaving w u) }
        ensures marks { self.new.marks.items ≡ set self.old.marks.items u Mark.Left }
        ensures taken { self.new.taken.items ≡ self.old.taken.items }
    {
        self.marks[u as usize] = Mark::Left;
    }
}
