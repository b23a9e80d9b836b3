//! Flags in a row.

ghost use Rattle.std.specs.Prelude.{◌≡◌, ◌<◌, [], ◌∷◌, ◌++◌, false, length, slice_index_or, OnOk};

use df_sequence::NoMemory;
use std::alloc::Global;
use std::marker::Model;

/// Flags, one after another. Contracts see them as a list, and nothing else of them.
#[derive(Drop)]
pub(crate) struct Flags {
    flags: Vec<bool>,
}

impl Model for Flags {
    ghost use Rattle.std.specs.Prelude.{List, Bool};

    ghost Value = { List Bool };

    ghost view = { λ f. f.flags.items };
}

impl Flags {
    /// No flag. It takes no memory.
    pub(crate) fn new(alloc: Global) -> Self
        ensures { result ≡ [] }
    {
        Flags {
            flags: Vec::new(alloc),
        }
    }

    /// How many flags there are.
    pub(crate) fn len(&self) -> usize
        ensures { result ≡ length self.now }
    {
        self.flags.len()
    }

    /// The flag at the index k, counted from 0.
    pub(crate) fn at(&self, k: u32) -> bool
        requires { k < length self.now }
        ensures { result ≡ slice_index_or self.now k false }
    {
        self.flags[k as usize]
    }

    /// Puts a flag after the others.
    pub(crate) fn push(&mut self, flag: bool) -> Result<(), NoMemory>
        ensures { OnOk result (self.new ≡ self.old ++ flag ∷ []) }
    {
        self.flags.push(flag)?;
        Ok(())
    }
}
