//! Vectors that contracts see as lists.

ghost use Rattle.std.specs.Prelude.{◌≡◌, ◌<◌, [], ◌∷◌, ◌++◌, length, slice_index, slice_set, OnOk};
ghost use Rattle.redundancy.specs.Available.{has_bit};
ghost use Rattle.redundancy.specs.Numbers.{with_bit};

use df_sequence::NoMemory;
use std::alloc::Global;
use std::marker::Model;

/// A vector that contracts see as the list of its items, and nothing else of it.
#[derive(Drop)]
pub(crate) struct Listed<T> {
    items: Vec<T>,
}

impl<T> Model for Listed<T> {
    ghost use Rattle.std.specs.Prelude.{List};
    ghost use Rattle.std.specs.Coded.{coded_list};

    ghost Value = { List T };

    ghost coded = { coded_list T.code };

    ghost view = { λ s. s.items.items };
}

impl<T> Listed<T> {
    /// An empty list.
    pub(crate) fn new(alloc: Global) -> Self
        ensures { result ≡ [] }
    {
        Listed {
            items: Vec::new(alloc),
        }
    }

    /// The items of a vector.
    pub(crate) fn of(items: Vec<T>) -> Self
        ensures { result ≡ items.items }
    {
        Listed { items }
    }

    /// All items, in order.
    pub(crate) fn as_slice(&self) -> &[T]
        ensures { result.now ≡ self.now }
    {
        self.items.as_slice()
    }
}

impl<T: Drop> Listed<T> {
    /// Puts one more item at the end.
    pub(crate) fn push(&mut self, item: T) -> Result<(), NoMemory>
        ensures { OnOk result (self.new ≡ self.old ++ item ∷ []) }
    {
        self.items.push(item)?;
        Ok(())
    }
}

impl Listed<u64> {
    /// Whether a bit of the word at a place is set.
    pub(crate) fn has_bit(&self, at: usize, bit: u32) -> bool
        requires at { at < length self.now }
        requires bit { bit < 64 }
        ensures { result ≡ has_bit (slice_index self.now at) bit }
    {
        self.items[at] >> bit & 1 == 1
    }

    /// Sets a bit of the word at a place.
    pub(crate) fn set_bit(&mut self, at: usize, bit: u32)
        requires at { at < length self.old }
        requires bit { bit < 64 }
        ensures { self.new ≡ slice_set self.old at (with_bit (slice_index self.old at) bit) }
    {
        self.items[at] |= 1 << bit;
    }
}
