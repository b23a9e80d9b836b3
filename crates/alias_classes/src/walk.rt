//! The walk through the words of names in order, which numbers the classes of words.

ghost use Rattle.std.specs.Prelude.{◌≡◌, ◌≤◌, ◌<◌, ◌+◌, ℕ, length, slice_index, OnOk, IfOk};
ghost use Rattle.alias_classes.specs.Spans.{AreSpans};
ghost use Rattle.alias_classes.specs.Walk.{key_of, IsMarked, AreSkips, IsWalkedTo};

use crate::spans::Spans;
use df_sequence::NoMemory;
use indexmap::IndexSet;
use std::alloc::Global;

/// What tells the class of a word: one more than the last place at which a name begins that covers it, and the same from
/// the end of the store.
pub(crate) type Key = (u32, u32);

/// The last begins of the names that cover words, forth and back.
#[derive(Drop)]
pub(crate) struct Marks {
    pub(crate) words: u32,
    pub(crate) forth: Vec<u32>,
    pub(crate) back: Vec<u32>,
}

/// The classes that the walk has numbered. The number of a word is 0 until the walk meets it. From a word that has a number
/// `skips` leads over others that have one.
#[derive(Drop)]
pub(crate) struct Walk {
    pub(crate) numbers: Vec<usize>,
    pub(crate) skips: Vec<u32>,
    pub(crate) keys: IndexSet<Key>,
}

// The key of a word.
fn key(marks: &Marks, word: u32) -> Key
    requires inside { word < marks.now.words }
    requires few { marks.now.words ≤ 262144 }
    requires forth { length marks.now.forth.items ≡ marks.now.words + 1 }
    requires back { length marks.now.back.items ≡ marks.now.words + 1 }
    ensures { result ≡ key_of marks.now.words marks.now.forth.items marks.now.back.items word }
{
    (
        marks.forth[word as usize + 1],
        marks.back[(marks.words - word) as usize],
    )
}

// Gives the word a number, if it has none: the place of its key, counted from 1.
fn mark(
    numbers: &mut Vec<usize>,
    keys: &mut IndexSet<Key>,
    key: Key,
    word: u32,
) -> Result<(), NoMemory>
    requires { word < length numbers.old.items }
    ensures { OnOk result (IsMarked word key numbers.old.items keys.old.keys numbers.new.items keys.new.keys) }
{
    if numbers[word as usize] == 0 {
        let (place, _) = keys.insert_full(key)?;
        prove!(place < keys.len());
        numbers[word as usize] = place + 1;
    }
    Ok(())
}

// A later word, before which all from the word on have numbers. It halves the way for the next time.
fn skip(skips: &mut Vec<u32>, numbers: &Vec<usize>, word: u32) -> u32
    requires skips { AreSkips numbers.now.items skips.old.items }
    requires inside { word < length numbers.now.items }
    ensures skips { AreSkips numbers.now.items skips.new.items }
    ensures later { word < result }
    ensures within { result ≤ length numbers.now.items }
    ensures met { (v : ℕ) → word < v → v < result → 1 ≤ slice_index numbers.now.items v }
{
    let next = skips[word as usize] as usize;
    if next < numbers.len() && numbers[next] != 0 {
        skips[word as usize] = skips[next];
    }
    skips[word as usize]
}

// Walks through the words of a name.
fn walk_name(walk: &mut Walk, marks: &Marks, spans: &Spans, k: usize) -> Result<(), NoMemory>
    requires known { k < length spans.now.begins.items }
    requires spans { AreSpans marks.now.words spans.now.begins.items spans.now.ends.items }
    requires few { marks.now.words ≤ 262144 }
    requires forth { length marks.now.forth.items ≡ marks.now.words + 1 }
    requires back { length marks.now.back.items ≡ marks.now.words + 1 }
    requires each { length walk.old.numbers.items ≡ marks.now.words }
    requires skips { AreSkips walk.old.numbers.items walk.old.skips.items }
    requires walked { IsWalkedTo marks.now spans.now k walk.old }
    ensures each { OnOk result (length walk.new.numbers.items ≡ marks.now.words) }
    ensures skips { OnOk result (AreSkips walk.new.numbers.items walk.new.skips.items) }
    ensures walked { OnOk result (IsWalkedTo marks.now spans.now (k + 1) walk.new) }
{
    let end = spans.ends[k];
    let mut word = spans.begins[k];
    while word < end {
        mark(&mut walk.numbers, &mut walk.keys, key(marks, word), word)?;
        word = skip(&mut walk.skips, &walk.numbers, word);
    }
    Ok(())
}

// The skips of words of which none has a number.
fn next_words(alloc: Global, words: u32) -> Result<Vec<u32>, NoMemory>
    requires { words ≤ 262144 }
    ensures { IfOk result (λ skips. (length skips.items ≡ words) × ((v : ℕ) → v < words → slice_index skips.items v ≡ v + 1)) }
{
    let mut skips = Vec::new(alloc);
    for word in 0..words {
        skips.push(word + 1)?;
    }
    Ok(skips)
}

/// Numbers the classes of words by a walk through the names in order and through the words of each.
pub(crate) fn walk_names(alloc: Global, marks: &Marks, spans: &Spans) -> Result<Walk, NoMemory>
    requires spans { AreSpans marks.now.words spans.now.begins.items spans.now.ends.items }
    requires few { marks.now.words ≤ 262144 }
    requires forth { length marks.now.forth.items ≡ marks.now.words + 1 }
    requires back { length marks.now.back.items ≡ marks.now.words + 1 }
    ensures each { IfOk result (λ walk. length walk.numbers.items ≡ marks.now.words) }
    ensures walked { IfOk result (λ walk. IsWalkedTo marks.now spans.now (length spans.now.begins.items) walk) }
{
    let mut walk = Walk {
        numbers: vec![in alloc; 0; marks.words as usize]?,
        skips: next_words(alloc, marks.words)?,
        keys: IndexSet::new(alloc),
    };
    for k in 0..spans.begins.len() {
        walk_name(&mut walk, marks, spans, k)?;
    }
    Ok(walk)
}
