ghost use Rattle.std.specs.Prelude.{◌≡◌, ◌<◌, [], ◌∷◌, ◌++◌, All, length, IsTrue, ◌↔◌, ◌^◌, slice_get, slice_index_or, option_to_list, IfNone, IfOk, OnOk, OnErr};

use crate::{Copied, NoMemory};
use std::alloc::Global;
use std::marker::Model;

/// A list of fewer than 2^32 items. Contracts see it as the list of its items, and nothing else of it, so that two
/// sequences with the same items are equal.
#[derive(Debug, Drop)]
pub struct Sequence<T> {
    items: Vec<T>,
}

/// Integers of 32 bits.
pub type NumList = Sequence<i32>;

/// Words of storage.
pub type WordList = Sequence<i32>;

/// Statement labels, or indices.
pub type LabelList = Sequence<u32>;

/// Characters, one byte each.
pub type CharList = Sequence<u8>;

impl<T> Model for Sequence<T> {
    ghost use Rattle.std.specs.Prelude.{◌<◌, ◌^◌, List, length};
    ghost use Rattle.std.specs.Coded.{coded_list};

    ghost Value = { List T };

    ghost coded = { coded_list T.code };

    ghost view = { λ s. s.items.items };

    ghost invariant = { λ s. length s.items.items < 2 ^ 32 };
}

impl<T> Sequence<T> {
    /// An empty sequence. It takes no memory.
    pub fn new(alloc: Global) -> Self
        ensures { result ≡ [] }
    {
        Sequence {
            items: Vec::new(alloc),
        }
    }

    /// An empty sequence with memory for this many items: as many pushes take no more.
    pub fn with_capacity(alloc: Global, room: usize) -> Result<Self, NoMemory>
        ensures { IfOk result (λ made. made ≡ []) }
    {
        Ok(Sequence {
            items: Vec::with_capacity(alloc, room)?,
        })
    }

    /// How many items there are.
    pub fn len(&self) -> u32
        ensures { result ≡ length self.now }
    {
        self.items.len() as u32
    }

    /// Whether there is no item.
    pub fn is_empty(&self) -> bool
        ensures { IsTrue result ↔ (self.now ≡ []) }
    {
        self.items.is_empty()
    }

    /// The item at the index k, counted from 0.
    pub fn at(&self, k: u32) -> &T
        requires { k < length self.now }
        ensures item { slice_get self.now k ≡ Some result.now }
        ensures lookup { result.now ≡ slice_index_or self.now k result.now }
    {
        &self.items[k as usize]
    }

    /// All items, in order.
    pub fn as_slice(&self) -> &[T]
        ensures items { result.now ≡ self.now }
        ensures len { length result.now < 2 ^ 32 }
    {
        self.items.as_slice()
    }
}

impl Sequence<u8> {
    /// All bytes, in order.
    pub fn as_bytes(&self) -> &[u8]
        ensures items { result.now ≡ self.now }
        ensures len { length result.now < 2 ^ 32 }
        ensures fit { All (λ byte. byte < 256) self.now }
    {
        let items = &self.items;
        fit(items);
        items.as_slice()
    }
}

// What the type of bytes says of them.
fn fit(bytes: &Vec<u8>)
    ensures { All (λ byte. byte < 256) bytes.now.items }
{}

impl<T: Drop> Sequence<T> {
    /// Puts one more item at the end. Where there is no memory for it, the item is dropped.
    pub fn push(&mut self, item: T) -> Result<(), NoMemory>
        requires { length self.old < 4294967295 }
        ensures ok { OnOk result (self.new ≡ self.old ++ item ∷ []) }
        ensures err { OnErr result (self.new ≡ self.old) }
    {
        self.items.push(item)?;
        Ok(())
    }
}

impl<T> Sequence<T> {
    /// Takes the last item away, if there is one.
    pub fn pop(&mut self) -> Option<T>
        ensures items { self.old ≡ self.new ++ option_to_list result }
        ensures none { IfNone result (self.old ≡ []) }
    {
        self.items.pop()
    }
}

impl<T: Copied + Drop> Copied for Sequence<T> {
    fn copy(&self, alloc: Global) -> Result<Self, NoMemory> {
        let mut copied = Vec::with_capacity(alloc, self.items.len())?;
        for item in &self.items {
            copied.push(item.copy(alloc)?)?;
        }
        Ok(Sequence { items: copied })
    }
}
