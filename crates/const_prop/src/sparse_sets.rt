//! Sets for keys, of which most are empty.

ghost use Rattle.std.specs.Prelude.{◌≡◌, ◌≢◌, ◌*◌, ◌<◌, ◌==◌, ◌&&◌, ◌||◌, ℕ, not, false, IfOk};
ghost use Rattle.class_set.specs.ClassSet.{holds};
ghost use Rattle.class_set.specs.Members.{IsWidth};
ghost use Rattle.const_prop.specs.SparseSets.{keys_of, number_of, set_holds};

use class_set::ClassSet;
use df_sequence::NoMemory;
use std::alloc::Global;
use std::marker::Model;

/// A set for each key below some number. Memory is written only for as many sets as aren't empty at a time, and a number for each key.
/// Contracts see which numbers are in the set of each key.
#[derive(Drop)]
pub(crate) struct SparseSets<const W: usize> {
    /// For each key the number of its set, 0 where that is empty.
    numbers: Vec<u32>,
    /// The sets by their numbers. That with number 0 has no member. There is room for one set more than there are keys.
    sets: Vec<ClassSet<W>>,
    /// The numbers of sets that no key has any more. There is room for one for each key.
    free: Vec<u32>,
}

impl<const W: usize> Model for SparseSets<W> {
    ghost use Rattle.const_prop.specs.SparseSets.{Sets, sets_of, IsKept};

    ghost Value = { Sets W };

    ghost view = { sets_of };

    ghost invariant = { IsKept };
}

impl<const W: usize> SparseSets<W> {
    /// An empty set for each of so many keys.
    pub(crate) fn new(alloc: Global, keys: u32) -> Result<Self, NoMemory>
        requires { IsWidth W }
        ensures keys { IfOk result (λ s. keys_of s ≡ keys) }
        ensures none { IfOk result (λ s. (key k : ℕ) → set_holds s key k ≡ false) }
    {
        let mut sets = Vec::with_capacity(alloc, keys as usize + 1)?;
        sets.push(ClassSet::empty())?;
        Ok(SparseSets {
            numbers: vec![in alloc; 0; keys as usize]?,
            sets,
            free: Vec::with_capacity(alloc, keys as usize)?,
        })
    }

    /// How many keys there are.
    pub(crate) fn keys(&self) -> u32
        ensures { result ≡ keys_of self.now }
    {
        self.numbers.len() as u32
    }

    /// The set of the key.
    pub(crate) fn at(&self, key: u32) -> &ClassSet<W>
        requires { key < keys_of self.now }
        ensures { (k : ℕ) → holds result.now k ≡ set_holds self.now key k }
    {
        &self.sets[self.numbers[key as usize] as usize]
    }

    /// Puts the member into the set of the key.
    pub(crate) fn insert(&mut self, key: u32, member: u32)
        requires width { IsWidth W }
        requires key { key < keys_of self.old }
        requires member { member < 64 * W }
        ensures keys { keys_of self.new ≡ keys_of self.old }
        ensures holds { (e k : ℕ) → set_holds self.new e k ≡ ((e == key && k == member) || set_holds self.old e k) }
    {
        self.begin(key);
        self.sets[self.numbers[key as usize] as usize].insert(member);
    }

    /// Puts these members into the set of the key.
    pub(crate) fn add(&mut self, key: u32, members: &ClassSet<W>)
        requires width { IsWidth W }
        requires key { key < keys_of self.old }
        ensures keys { keys_of self.new ≡ keys_of self.old }
        ensures holds { (e k : ℕ) → set_holds self.new e k ≡ ((e == key && holds members.now k) || set_holds self.old e k) }
    {
        self.begin(key);
        let number = self.numbers[key as usize] as usize;
        self.sets[number] = self.sets[number].union(members);
    }

    /// Takes all members out of the set of the key.
    pub(crate) fn take(&mut self, key: u32) -> ClassSet<W>
        requires width { IsWidth W }
        requires key { key < keys_of self.old }
        ensures keys { keys_of self.new ≡ keys_of self.old }
        ensures taken { (k : ℕ) → holds result k ≡ set_holds self.old key k }
        ensures holds { (e k : ℕ) → set_holds self.new e k ≡ (not (e == key) && set_holds self.old e k) }
    {
        let members = *self.at(key);
        self.clear(key);
        members
    }

    /// Gives the key a number of its own, if it has none.
    #[inline(always)]
    fn begin(&mut self, key: u32)
        requires width { IsWidth W }
        requires key { key < keys_of self.old }
        ensures keys { keys_of self.new ≡ keys_of self.old }
        ensures numbered { number_of self.new key ≢ 0 }
        ensures holds { (e k : ℕ) → set_holds self.new e k ≡ set_holds self.old e k }
    {
        if self.numbers[key as usize] == 0 {
            self.give_number(key);
        }
    }

    /// Gives the key a number of its own.
    #[inline(never)]
    fn give_number(&mut self, key: u32)
        requires width { IsWidth W }
        requires key { key < keys_of self.old }
        requires none { number_of self.old key ≡ 0 }
        ensures keys { keys_of self.new ≡ keys_of self.old }
        ensures numbered { number_of self.new key ≢ 0 }
        ensures holds { (e k : ℕ) → set_holds self.new e k ≡ set_holds self.old e k }
    {
        if let Some(number) = self.free.pop() {
            self.sets[number as usize] = ClassSet::empty();
            self.numbers[key as usize] = number;
            return;
        }
        let number = self.sets.len();
        self.sets.push_reserved(ClassSet::empty());
        self.numbers[key as usize] = number as u32;
    }

    /// The key has no number any more.
    fn clear(&mut self, key: u32)
        requires { key < keys_of self.old }
        ensures keys { keys_of self.new ≡ keys_of self.old }
        ensures holds { (e k : ℕ) → set_holds self.new e k ≡ (not (e == key) && set_holds self.old e k) }
    {
        let number = self.numbers[key as usize];
        if number == 0 {
            return;
        }
        self.numbers[key as usize] = 0;
        self.free.push_reserved(number);
    }
}
