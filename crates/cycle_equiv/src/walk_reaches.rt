//! How far up the back edges lead that a depth-first walk took so far.

ghost use Rattle.std.specs.Prelude.{◌≡◌, ℕ, IfOk};
ghost use Rattle.cycle_equiv.specs.TrailReaches.{Reaches, highest, merging, reaching, starting};
ghost use Rattle.cycle_equiv.specs.WalkTables.{HasReach, IsReachTable};

use df_sequence::NoMemory;
use std::alloc::Global;

/// For each node the place nearest to the root to which a back edge leads from it, and the two nearest places to which back
/// edges lead from two of the children that were left or their descendants.
#[derive(Drop)]
pub(crate) struct ReachTable {
    pub(crate) own: Vec<u32>,
    pub(crate) first: Vec<u32>,
    pub(crate) second: Vec<u32>,
}

impl ReachTable {
    /// The root alone was found, and has the place 0.
    pub(crate) fn begin(alloc: Global, nodes: u32) -> Result<Self, NoMemory>
        ensures { IfOk result (λ table. IsReachTable nodes table (record { own = λ x. 0; first = λ x. 0; second = λ x. 0 })) }
    {
        let n = nodes as usize;
        Ok(ReachTable {
            own: vec![in alloc; 0; n]?,
            first: vec![in alloc; 0; n]?,
            second: vec![in alloc; 0; n]?,
        })
    }

    /// The node v was found, and has the place k.
    pub(crate) fn start(&mut self, v: u32, k: u32)
        requires { HasReach self.old v }
        ensures { (n : ℕ) (r : Reaches) → IsReachTable n self.old r → IsReachTable n self.new (starting r v k) }
    {
        self.own[v as usize] = k;
        self.first[v as usize] = k;
        self.second[v as usize] = k;
    }

    /// A back edge was taken from u to the place k.
    pub(crate) fn reach(&mut self, u: u32, k: u32)
        requires { HasReach self.old u }
        ensures { (n : ℕ) (r : Reaches) → IsReachTable n self.old r → IsReachTable n self.new (reaching r u k) }
    {
        self.own[u as usize] = self.own[u as usize].min(k);
    }

    /// The place nearest to the root to which back edges lead from the node or its descendants.
    pub(crate) fn highest(&self, c: u32) -> u32
        requires { HasReach self.now c }
        ensures { (n : ℕ) (r : Reaches) → IsReachTable n self.now r → result ≡ highest r c }
    {
        self.first[c as usize].min(self.own[c as usize])
    }

    /// A child of p was left that reaches to the place k.
    pub(crate) fn merge(&mut self, p: u32, k: u32)
        requires { HasReach self.old p }
        ensures { (n : ℕ) (r : Reaches) → IsReachTable n self.old r → IsReachTable n self.new (merging r p k) }
    {
        let first = self.first[p as usize];
        self.first[p as usize] = first.min(k);
        self.second[p as usize] = self.second[p as usize].min(first.max(k));
    }
}
