//! The words that DATA has given values to (ANSI X3.9-1978, section 9).

ghost use Rattle.std.specs.Prelude.{◌≡◌, ℕ, ◌<◌, ◌+◌, ◌^◌, [], not, ◌==◌, true, List, flat_map, IfOk};
ghost use Rattle.std.specs.Ordering.{nat_cmp};
ghost use Rattle.std.specs.BTreeMap.{get};
ghost use Rattle.f77_tree.specs.InitialWords.{words_from};
ghost use Rattle.layout_rules.specs.Faults.{has_repeat};
ghost use Rattle.storage_checks.specs.Runs.{span_words};
ghost use Rattle.storage_checks.specs.GivenWords.{AreClear, Holds, HoldsBeside, IsLastBefore, IsLastReaching, GivesMore, TellsFree};

use crate::data_spans::Span;
use df_sequence::NoMemory;
use std::alloc::Global;
use std::collections::BTreeMap;

/// Words with numbers up to 2^64, in intervals without a common word: the number after the last word, by the first word.
#[derive(Drop)]
pub(crate) struct GivenWords {
    ends: BTreeMap<u64, u64>,
}

impl GivenWords {
    /// No words.
    pub(crate) fn new(alloc: Global) -> GivenWords
        ensures { Holds (get nat_cmp result.ends) [] }
    {
        GivenWords {
            ends: BTreeMap::new(alloc),
        }
    }

    // The last interval that begins before this word.
    fn last_before(&self, word: u64) -> Option<(u64, u64)>
        ensures { IsLastBefore (get nat_cmp self.now.ends) word result }
    {
        match self.ends.range(..word).next_back() {
            Some((first, end)) => Some((*first, *end)),
            None => None,
        }
    }

    // Whether none of these words is held.
    fn is_free(&self, first: u64, len: u32) -> bool
        requires some { 0 < len }
        requires room { first + len < 2 ^ 64 }
        ensures { (seen : List ℕ) → Holds (get nat_cmp self.now.ends) seen → result ≡ not (has_repeat (λ a b. a == b) seen (words_from first len)) }
    {
        match self.last_before(first + len as u64) {
            Some((_, last)) => last <= first,
            None => true,
        }
    }

    // The last interval that begins before this word, where it ends behind the other one.
    fn last_reaching(&self, from: u64, word: u64) -> Option<(u64, u64)>
        ensures { IsLastReaching (get nat_cmp self.now.ends) from word result }
    {
        match self.last_before(word) {
            Some((first, end)) => { if from < end { Some((first, end)) } else { None } }
            None => None,
        }
    }

    // Takes out the intervals that meet the words from `first` up to `end`. All of them together reach from the first result up
    // to the second.
    fn take_out(&mut self, first: u64, end: u64) -> (u64, u64)
        requires { first < end }
        ensures some { result.0 < result.1 }
        ensures beside { (seen : List ℕ) → HoldsBeside (get nat_cmp self.old.ends) first end seen
            → HoldsBeside (get nat_cmp self.new.ends) result.0 result.1 seen }
        ensures clear { (seen : List ℕ) → HoldsBeside (get nat_cmp self.old.ends) first end seen
            → AreClear (get nat_cmp self.new.ends) result.0 result.1 }
    {
        let mut from = first;
        let mut to = end;
        let mut word = end;
        while let Some((other, last)) = self.last_reaching(from, word) {
            self.ends.remove(&other);
            from = from.min(other);
            to = to.max(last);
            word = other;
        }
        (from, to)
    }

    /// Adds so many words from the first one on, and tells whether none of them was held.
    pub(crate) fn add(&mut self, first: u64, len: u32) -> Result<bool, NoMemory>
        requires some { 0 < len }
        requires room { first + len < 2 ^ 64 }
        ensures free { IfOk result (λ free. TellsFree self.old (words_from first len) free) }
        ensures added { IfOk result (λ free. GivesMore self.old self.new (words_from first len)) }
    {
        let free = self.is_free(first, len);
        let (from, to) = self.take_out(first, first + len as u64);
        self.ends.insert(from, to)?;
        Ok(free)
    }

    /// Adds the words of spans, and tells whether none of them was held or stands twice.
    pub(crate) fn add_spans(&mut self, spans: &[Span]) -> Result<bool, NoMemory>
        ensures free { IfOk result (λ free. TellsFree self.old (flat_map span_words spans.now) free) }
        ensures added { IfOk result (λ free. GivesMore self.old self.new (flat_map span_words spans.now)) }
    {
        let mut free = true;
        for span in spans {
            let new = self.add(span.first, span.len)?;
            free = free & new;
        }
        Ok(free)
    }
}
