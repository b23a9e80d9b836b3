//! Sets of numbers that find a member by its place.

ghost use Rattle.std.specs.Prelude.{◌≡◌, ◌+◌, ◌*◌, ◌/◌, ◌<◌, ◌≤◌, true, false, length, get_or, replicate, set, count_ones, IfOk};
ghost use Rattle.firing.specs.BlockCounts.{CanShift, IsDigitAt, IsInBlock, before, ones_of, shifted};
ghost use Rattle.firing.specs.ReadySet.{IsMemberAt, has, member_count};

use df_io::NoMemory;
use std::alloc::Global;
use std::marker::Model;

// How many numbers a word and a block of each level hold. A block has 16 or 32 of the level below, so that few counts are
// read on the way to a member. The lowest level is used only where there are more numbers than one of its blocks holds, and
// the two upper ones only where there are more than a middle block holds.
const WORD: usize = 64;

const LOW: usize = 16 * WORD;

const MID: usize = 32 * LOW;

const HIGH: usize = 32 * MID;

/// A set of the numbers below a room. Contracts see it as a flag for each of them.
#[derive(Drop)]
pub struct ReadySet {
    room: u32,
    words: Vec<u64>,
    low: Vec<u32>,
    mid: Vec<u32>,
    high: Vec<u32>,
    total: u32,
}

impl Model for ReadySet {
    ghost use Rattle.std.specs.Prelude.{Bool, List};
    ghost use Rattle.firing.specs.BlockCounts.{AreWords, IsCounted, flags_of};

    ghost Value = { List Bool };

    ghost view = { λ s. flags_of s.words.items s.room };

    ghost invariant = { λ s. AreWords s.words.items s.room × IsCounted (flags_of s.words.items s.room) s.low.items s.mid.items s.high.items s.total };
}

impl ReadySet {
    /// The empty set of numbers below `nodes`.
    pub fn with_room(alloc: Global, nodes: u32) -> Result<ReadySet, NoMemory>
        ensures { IfOk result (λ empty. empty ≡ replicate nodes false) }
    {
        let room = nodes as usize;
        Ok(ReadySet {
            room: nodes,
            words: vec![in alloc; 0; room / WORD + 1]?,
            low: vec![in alloc; 0; room / LOW + 1]?,
            mid: vec![in alloc; 0; room / MID + 1]?,
            high: vec![in alloc; 0; room / HIGH + 1]?,
            total: 0,
        })
    }

    /// How many members it has.
    pub fn len(&self) -> u32
        ensures { result ≡ member_count self.now }
    {
        self.total
    }

    /// Puts a number into the set, or takes it out.
    pub fn put(&mut self, k: u32, ready: bool)
        requires { k < length self.old }
        ensures { self.new ≡ set self.old k ready }
    {
        let k = k as usize;
        let word = self.words[k / WORD];
        let digit = 1 << (k % WORD);
        if (word & digit != 0) == ready {
            return;
        }
        self.words[k / WORD] = word ^ digit;
        shift_blocks(
            self.room,
            &mut self.low,
            &mut self.mid,
            &mut self.high,
            k,
            ready,
        );
        if ready {
            self.total += 1;
        } else {
            self.total -= 1;
        }
    }

    /// Puts a number into the set that is none of its members.
    #[inline(always)]
    pub fn put_in(&mut self, k: u32)
        requires inside { k < length self.old }
        requires out { has self.old k ≡ false }
        ensures { self.new ≡ set self.old k true }
    {
        let k = k as usize;
        let word = self.words[k / WORD];
        self.words[k / WORD] = word | 1 << (k % WORD);
        shift_blocks(
            self.room,
            &mut self.low,
            &mut self.mid,
            &mut self.high,
            k,
            true,
        );
        self.total += 1;
    }

    /// Takes a member out of the set.
    #[inline(always)]
    pub fn take_out(&mut self, k: u32)
        requires inside { k < length self.old }
        requires member { has self.old k ≡ true }
        ensures { self.new ≡ set self.old k false }
    {
        let k = k as usize;
        let word = self.words[k / WORD];
        self.words[k / WORD] = word ^ 1 << (k % WORD);
        shift_blocks(
            self.room,
            &mut self.low,
            &mut self.mid,
            &mut self.high,
            k,
            false,
        );
        self.total -= 1;
    }

    /// The member at this place, counted from 0 in number order.
    #[inline(always)]
    pub fn at(&self, place: u32) -> u32
        requires { place < member_count self.now }
        ensures { IsMemberAt self.now place result }
    {
        let (b, left) = self.word(place);
        let word = self.words[b];
        let digit = set_digit(word, left);
        (WORD * b) as u32 + digit
    }

    // The word that has the member at this place, and its place in the word. The other functions tell so of a block.
    #[inline(always)]
    fn word(&self, place: u32) -> (usize, u32)
        requires { place < member_count self.now }
        ensures { IsInBlock self.now 64 place result.0 result.1 }
    {
        let words = self.words.as_slice();
        if self.room as usize <= LOW {
            return scan_words(words, 0, place);
        }
        let (b, left) = self.low_block(place);
        scan_words(words, 16 * b, left)
    }

    #[inline(always)]
    fn low_block(&self, place: u32) -> (usize, u32)
        requires many { 1024 < length self.now }
        requires place { place < member_count self.now }
        ensures { IsInBlock self.now 1024 place result.0 result.1 }
    {
        if self.room as usize <= MID {
            return scan(&self.low, 0, place);
        }
        let (b, left) = self.mid_block(place);
        scan(&self.low, 32 * b, left)
    }

    #[inline(never)]
    fn mid_block(&self, place: u32) -> (usize, u32)
        requires many { 32768 < length self.now }
        requires place { place < member_count self.now }
        ensures { IsInBlock self.now 32768 place result.0 result.1 }
    {
        let (b, left) = self.high_block(place);
        scan(&self.mid, 32 * b, left)
    }

    fn high_block(&self, place: u32) -> (usize, u32)
        requires many { 32768 < length self.now }
        requires place { place < member_count self.now }
        ensures { IsInBlock self.now 1048576 place result.0 result.1 }
    {
        scan(&self.high, 0, place)
    }
}

// Counts one member more, or one fewer.
fn shift(counts: &mut Vec<u32>, b: usize, more: bool)
    requires { CanShift counts.old.items b more }
    ensures { counts.new.items ≡ set counts.old.items b (shifted (get_or counts.old.items b 0) more) }
{
    if more {
        counts[b] += 1;
    } else {
        counts[b] -= 1;
    }
}

// Counts a number, which comes or goes, in the blocks of each level that is used in a set of this room.
#[inline(always)]
fn shift_blocks(
    room: u32,
    low: &mut Vec<u32>,
    mid: &mut Vec<u32>,
    high: &mut Vec<u32>,
    k: usize,
    more: bool,
)
    requires low { 1024 < room → CanShift low.old.items (k / 1024) more }
    requires mid { 32768 < room → CanShift mid.old.items (k / 32768) more }
    requires high { 32768 < room → CanShift high.old.items (k / 1048576) more }
    ensures low { 1024 < room → low.new.items ≡ set low.old.items (k / 1024) (shifted (get_or low.old.items (k / 1024) 0) more) }
    ensures mid { 32768 < room → mid.new.items ≡ set mid.old.items (k / 32768) (shifted (get_or mid.old.items (k / 32768) 0) more) }
    ensures high { 32768 < room → high.new.items ≡ set high.old.items (k / 1048576) (shifted (get_or high.old.items (k / 1048576) 0) more) }
{
    if room as usize > LOW {
        shift(low, k / LOW, more);
        shift_upper(room as usize > MID, mid, high, k, more);
    }
}

// Counts a number, which comes or goes, in the two upper levels, if they are used.
#[inline(always)]
fn shift_upper(used: bool, mid: &mut Vec<u32>, high: &mut Vec<u32>, k: usize, more: bool)
    requires mid { used ≡ true → CanShift mid.old.items (k / 32768) more }
    requires high { used ≡ true → CanShift high.old.items (k / 1048576) more }
    ensures mid { used ≡ true → mid.new.items ≡ set mid.old.items (k / 32768) (shifted (get_or mid.old.items (k / 32768) 0) more) }
    ensures high { used ≡ true → high.new.items ≡ set high.old.items (k / 1048576) (shifted (get_or high.old.items (k / 1048576) 0) more) }
{
    if used {
        shift(mid, k / MID, more);
        shift(high, k / HIGH, more);
    }
}

// The count, from a first one on, to which the member at this place belongs, and the place among its members.
fn scan(counts: &[u32], first: usize, place: u32) -> (usize, u32)
    requires inside { first ≤ length counts.now }
    requires some { before counts.now first + place < before counts.now (length counts.now) }
    ensures within { result.0 < length counts.now }
    ensures same { before counts.now result.0 + result.1 ≡ before counts.now first + place }
    ensures short { result.1 < get_or counts.now result.0 0 }
{
    let mut b = first;
    let mut left = place;
    while left >= counts[b] {
        left -= counts[b];
        b += 1;
    }
    (b, left)
}

// The word, from a first one on, to which the member at this place belongs, and the place among its members.
fn scan_words(words: &[u64], first: usize, place: u32) -> (usize, u32)
    requires inside { first ≤ length words.now }
    requires some { before (ones_of words.now) first + place < before (ones_of words.now) (length words.now) }
    ensures within { result.0 < length words.now }
    ensures same { before (ones_of words.now) result.0 + result.1 ≡ before (ones_of words.now) first + place }
    ensures short { result.1 < get_or (ones_of words.now) result.0 0 }
{
    let mut b = first;
    let mut left = place;
    while left >= words[b].count_ones() {
        left -= words[b].count_ones();
        b += 1;
    }
    (b, left)
}

// The set digit at this place, counted from the lowest.
fn set_digit(word: u64, place: u32) -> u32
    requires { place < count_ones word }
    ensures { IsDigitAt word place result }
{
    let mut rest = word;
    for _taken in 0..place {
        // Takes the lowest set digit away.
        rest &= rest - 1;
    }
    rest.trailing_zeros()
}
