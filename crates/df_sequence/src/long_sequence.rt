ghost use Rattle.std.specs.Prelude.{◌≡◌, ◌<◌, [], ◌∷◌, ◌++◌, length, slice_get, slice_index_or, Some, OnOk, OnErr};

use crate::{Copied, NoMemory};
use std::alloc::Global;
use std::marker::Model;

/// A list of any number of items. Contracts see it as the list of its items, as they see a `Sequence`.
#[derive(Debug, Drop)]
pub struct LongSequence<T> {
    items: Vec<T>,
}

impl<T> Model for LongSequence<T> {
    ghost use Rattle.std.specs.Prelude.{List};
    ghost use Rattle.std.specs.Coded.{coded_list};

    ghost Value = { List T };

    ghost coded = { coded_list T.code };

    ghost view = { λ s. s.items.items };
}

impl<T> LongSequence<T> {
    /// An empty list. It takes no memory.
    pub fn new(alloc: Global) -> Self
        ensures { result ≡ [] }
    {
        LongSequence {
            items: Vec::new(alloc),
        }
    }

    /// How many items there are.
    pub fn len(&self) -> usize
        ensures { result ≡ length self.now }
    {
        self.items.len()
    }

    /// The item at the index k, counted from 0.
    pub fn at(&self, k: usize) -> &T
        requires { k < length self.now }
        ensures item { slice_get self.now k ≡ Some result.now }
        ensures lookup { result.now ≡ slice_index_or self.now k result.now }
    {
        &self.items[k]
    }

    /// All items, in order.
    pub fn as_slice(&self) -> &[T]
        ensures { result.now ≡ self.now }
    {
        self.items.as_slice()
    }
}

impl<T: Drop> LongSequence<T> {
    /// Puts one more item at the end. Where there is no memory for it, the item is dropped.
    pub fn push(&mut self, item: T) -> Result<(), NoMemory>
        ensures ok { OnOk result (self.new ≡ self.old ++ item ∷ []) }
        ensures err { OnErr result (self.new ≡ self.old) }
    {
        self.items.push(item)?;
        Ok(())
    }
}

impl<T: Copied + Drop> Copied for LongSequence<T> {
    fn copy(&self, alloc: Global) -> Result<Self, NoMemory> {
        let mut copied = Vec::with_capacity(alloc, self.items.len())?;
        for item in &self.items {
            copied.push(item.copy(alloc)?)?;
        }
        Ok(LongSequence { items: copied })
    }
}
