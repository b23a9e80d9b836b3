//! Small sets of numbers, as of the alias classes that a statement touches.
#![tactic(auto)]

ghost use Rattle.std.specs.Prelude.{◌≡◌, ◌*◌, ◌<◌, ◌≤◌, ◌↔◌, ◌==◌, ◌||◌, ◌&&◌, ℕ, false, true, not, IsTrue, MatchOption, IfSome};
ghost use Rattle.class_set.specs.Members.{first_above, IsNext, IsLast, IsWidth};

mod words;

use crate::words::{intersect, least_from, meet, subtract, unite};
use df_sequence::{Copied, NoMemory};
use std::alloc::Global;

/// A set of numbers below `64 * W`, as `W` words of 64 bits. `W` is from 1 to 16.
#[derive(Clone, Copy)]
pub struct ClassSet<const W: usize> {
    words: [u64; W],
}

impl<const W: usize> ClassSet<W> {
    ghost use Rattle.class_set.specs.ClassSet.{holds};

    /// The set with no member.
    pub fn empty() -> Self
        requires { IsWidth W }
        ensures { (k : ℕ) → holds result k ≡ false }
    {
        ClassSet { words: [0; W] }
    }

    /// This set with the number as a member.
    pub fn with(&self, n: u32) -> Self
        requires width { IsWidth W }
        requires below { n < 64 * W }
        ensures { (k : ℕ) → holds result k ≡ (k == n || holds self.now k) }
    {
        let mut set = *self;
        set.insert(n);
        set
    }

    /// Makes the number a member.
    pub fn insert(&mut self, n: u32)
        requires width { IsWidth W }
        requires below { n < 64 * W }
        ensures { (k : ℕ) → holds self.new k ≡ (k == n || holds self.old k) }
    {
        self.words[(n / 64) as usize] |= 1 << (n % 64);
    }

    /// Whether the number is a member. No number from `64 * W` on is one.
    pub fn holds(&self, n: u32) -> bool
        requires { IsWidth W }
        ensures member { result ≡ holds self.now n }
        ensures beyond { 64 * W ≤ n → result ≡ false }
    {
        let at = (n / 64) as usize;
        at < W && self.words[at] >> (n % 64) & 1 == 1
    }

    /// The set of the numbers that are members of either.
    pub fn union(&self, o: &Self) -> Self
        requires { IsWidth W }
        ensures { (k : ℕ) → holds result k ≡ (holds self.now k || holds o.now k) }
    {
        let mut words = self.words;
        unite(&mut words, &o.words);
        ClassSet { words }
    }

    /// The set of the numbers that are members of both.
    pub fn intersection(&self, o: &Self) -> Self
        requires { IsWidth W }
        ensures { (k : ℕ) → holds result k ≡ (holds self.now k && holds o.now k) }
    {
        let mut words = self.words;
        intersect(&mut words, &o.words);
        ClassSet { words }
    }

    /// The set of the members that are no members of the other.
    pub fn difference(&self, o: &Self) -> Self
        requires { IsWidth W }
        ensures { (k : ℕ) → holds result k ≡ (holds self.now k && not (holds o.now k)) }
    {
        let mut words = self.words;
        subtract(&mut words, &o.words);
        ClassSet { words }
    }

    /// Whether some number is a member of both.
    pub fn meets(&self, o: &Self) -> bool
        requires { IsWidth W }
        ensures { IsTrue result ↔ ((k : ℕ) × (holds self.now k ≡ true) × (holds o.now k ≡ true)) }
    {
        meet(&self.words, &o.words)
    }

    /// The least member above the number, or the least of all where there is no number.
    pub fn next_after(&self, n: Option<u32>) -> Option<u32>
        requires { IsWidth W }
        ensures next { MatchOption result (IsLast (holds self.now) n) (IsNext (holds self.now) n) }
        ensures within { IfSome result (λ m. m < 64 * W) }
    {
        least_from(&self.words, first_above(n))
    }
}

impl<const W: usize> Copied for ClassSet<W> {
    fn copy(&self, _alloc: Global) -> Result<Self, NoMemory> {
        Ok(*self)
    }
}

/// The least number above the number.
fn first_above(n: Option<u32>) -> usize
    ensures { result ≡ first_above n }
{
    match n {
        None => 0,
        Some(n) => n as usize + 1,
    }
}
