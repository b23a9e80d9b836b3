//! The edges of one node.

ghost use Rattle.std.specs.Prelude.{◌≡◌, ℕ, List, [], ◌∷◌, ◌++◌, OnOk, OnErr};

use df_sequence::NoMemory;
use smallvec::SmallVec;
use std::alloc::Global;
use std::marker::Model;

/// Numbers of edges. Contracts see the list of them. Most nodes have few edges, and the numbers of those lie in the list itself.
#[derive(Drop)]
pub(crate) struct EdgeList {
    numbers: SmallVec<u32, 4>,
}

impl Model for EdgeList {
    ghost use Rattle.std.specs.Prelude.{List, ℕ};

    ghost Value = { List ℕ };

    ghost view = { λ list. list.numbers.items };
}

impl EdgeList {
    /// No edge. It takes no memory.
    pub(crate) fn new(alloc: Global) -> Self
        ensures { result ≡ [] }
    {
        EdgeList {
            numbers: SmallVec::new(alloc),
        }
    }

    /// Puts an edge at the end.
    pub(crate) fn push(&mut self, e: u32) -> Result<(), NoMemory>
        ensures ok { OnOk result (self.new ≡ self.old ++ e ∷ []) }
        ensures err { OnErr result (self.new ≡ self.old) }
    {
        self.numbers.push(e)?;
        Ok(())
    }

    /// Takes the last edge off again.
    pub(crate) fn drop_last(&mut self, e: u32)
        ensures { (prefix : List ℕ) → self.old ≡ prefix ++ e ∷ [] → self.new ≡ prefix }
    {
        self.numbers.pop();
    }

    /// All edges, in order.
    pub(crate) fn as_slice(&self) -> &[u32]
        ensures { result.now ≡ self.now }
    {
        self.numbers.as_slice()
    }
}
