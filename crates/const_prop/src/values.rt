//! Words at places, of which most have none.

ghost use Rattle.std.specs.Prelude.{◌≡◌, ◌≢◌, ◌<◌, ◌≤◌, ◌^◌, ◌==◌, ℕ, Some, None, length, slice_index_or, if◌then◌else◌, IfOk};
ghost use Rattle.const_prop.specs.Values.{places, word_of};

use class_set::ClassSet;
use df_sequence::NoMemory;
use std::alloc::Global;
use std::marker::Model;

/// How many places are kept together.
const BLOCK: usize = 32;

/// A word or none at each of so many places, none at first. Memory is written only for blocks of 32 places in which one has a word, and a
/// number for each block, so that a large table with few words takes little time. Contracts see the words, place by place, by way of the
/// blocks.
#[derive(Drop)]
pub(crate) struct Values {
    /// For each block its number, from 1 on, or 0 while no place in it has a word.
    numbers: Vec<usize>,
    /// Which places have words, in the blocks that have a number, in the order of the numbers. There is room for all.
    filled: Vec<ClassSet<1>>,
    /// The words of these blocks. There is room for all.
    words: Vec<i32>,
}

impl Model for Values {
    ghost use Rattle.const_prop.specs.Values.{Blocks, blocks_of, IsKept};

    ghost Value = { Blocks };

    ghost view = { blocks_of };

    ghost invariant = { IsKept };
}

impl Values {
    /// So many places, or a few more, with no word.
    pub(crate) fn new(alloc: Global, count: usize) -> Result<Self, NoMemory>
        requires { count < 2 ^ 60 }
        ensures places { IfOk result (λ v. count ≤ places v) }
        ensures none { IfOk result (λ v. (k : ℕ) → word_of v k ≡ None) }
    {
        let blocks = count.div_ceil(BLOCK);
        Ok(Values {
            numbers: vec![in alloc; 0; blocks]?,
            filled: Vec::with_capacity(alloc, blocks)?,
            words: Vec::with_capacity(alloc, BLOCK * blocks)?,
        })
    }

    /// The word at a place.
    pub(crate) fn get(&self, place: usize) -> Option<i32>
        requires { place < places self.now }
        ensures { result ≡ word_of self.now place }
    {
        let number = self.numbers[place / BLOCK];
        if number == 0 {
            return None;
        }
        if !self.filled[number - 1].holds((place % BLOCK) as u32) {
            return None;
        }
        Some(self.words[BLOCK * (number - 1) + place % BLOCK])
    }

    /// Puts a word at a place.
    pub(crate) fn set(&mut self, place: usize, word: i32)
        requires { place < places self.old }
        ensures places { places self.new ≡ places self.old }
        ensures words { (k : ℕ) → word_of self.new k ≡ (if k == place then Some word else word_of self.old k) }
    {
        self.begin(place / BLOCK);
        let number = self.numbers[place / BLOCK];
        self.filled[number - 1].insert((place % BLOCK) as u32);
        self.words[BLOCK * (number - 1) + place % BLOCK] = word;
    }

    /// Gives the block a number, if it has none.
    #[inline(always)]
    fn begin(&mut self, block: usize)
        requires { block < length self.old.numbers }
        ensures blocks { length self.new.numbers ≡ length self.old.numbers }
        ensures numbered { slice_index_or self.new.numbers block 0 ≢ 0 }
        ensures words { (k : ℕ) → word_of self.new k ≡ word_of self.old k }
    {
        if self.numbers[block] == 0 {
            self.give_number(block);
        }
    }

    /// Gives the block a number.
    #[inline(never)]
    fn give_number(&mut self, block: usize)
        requires block { block < length self.old.numbers }
        requires none { slice_index_or self.old.numbers block 0 ≡ 0 }
        ensures blocks { length self.new.numbers ≡ length self.old.numbers }
        ensures numbered { slice_index_or self.new.numbers block 0 ≢ 0 }
        ensures words { (k : ℕ) → word_of self.new k ≡ word_of self.old k }
    {
        self.filled.push_reserved(ClassSet::empty());
        let number = self.filled.len();
        let _grown = self.words.resize(BLOCK * number, 0);
        self.numbers[block] = number;
    }
}
