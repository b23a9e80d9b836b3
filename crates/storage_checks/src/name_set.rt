ghost use Rattle.std.specs.Prelude.{◌≡◌, ◌++◌, [], ◌∷◌, not, true, IfOk, bytes_eq};
ghost use Rattle.std.specs.List.{list_any};

use df_sequence::{Copied, NoMemory};
use f77_tree::Name;
use indexmap::IndexSet;
use std::alloc::Global;
use std::marker::Model;

/// Names, each once. Contracts see them as a list, in the order in which they were added.
#[derive(Drop)]
pub(crate) struct NameSet {
    names: IndexSet<Name>,
}

impl Model for NameSet {
    ghost use Rattle.std.specs.Prelude.{ℕ, List};

    ghost Value = { List (List ℕ) };

    ghost view = { λ s. s.names.keys };
}

impl NameSet {
    /// No names.
    pub(crate) fn new(alloc: Global) -> NameSet
        ensures { result ≡ [] }
    {
        NameSet {
            names: IndexSet::new(alloc),
        }
    }

    /// Adds a name, and tells whether it is new.
    pub(crate) fn add(&mut self, alloc: Global, name: &Name) -> Result<bool, NoMemory>
        ensures new { IfOk result (λ is_new. is_new ≡ not (list_any (bytes_eq name.now) self.old)) }
        ensures names { IfOk result (λ is_new. is_new ≡ true → self.new ≡ self.old ++ name.now ∷ []) }
    {
        Ok(self.names.insert(name.copy(alloc)?)?)
    }
}
