ghost use Rattle.std.specs.Prelude.{◌≡◌, ◌+◌, ◌<◌, ◌^◌, List, length, IfOk, FitsSigned, nat_abs, ◌-ℤ◌, ◌≤ℤ◌};
ghost use Rattle.std.specs.Int.{w64};
ghost use Rattle.layout_rules.specs.Storage.{Spot};
ghost use Rattle.storage_association.specs.Storages.{AreSome};
ghost use Rattle.storage_association.specs.Trees.{AreLowTrees, AreTrees, IsForest};
ghost use Rattle.layout_rules.specs.Spots.{AreLowest};
ghost use Rattle.storage_association.specs.WordNumbers.{AreNumbers, begun, AreSpansOf, AreNumbersOf};

use crate::forest::{Forest, Rooted};
use crate::sizes::size_of;
use crate::storages::Storages;
use df_sequence::NoMemory;
use std::alloc::Global;
use symbol_table::Names;

/// Where the words of a storage begin and end, counted from its root.
#[derive(Clone, Copy, Drop)]
pub(crate) struct Span {
    low: i64,
    high: i64,
}

/// The numbers of words: the first word of each name, and how many words there are.
#[derive(Drop)]
pub struct WordNumbers {
    pub places: Vec<u64>,
    pub words: u64,
}

/// How far each storage reaches, by its root.
fn spans(alloc: Global, names: &Names, forest: &Forest) -> Result<Vec<Span>, NoMemory>
    requires trees { AreTrees forest.now.nodes.items }
    requires names { length forest.now.nodes.items ≡ length names.now }
    ensures all { IfOk result (λ spans. length spans.items ≡ length names.now) }
    ensures reach { IfOk result (λ spans. AreSpansOf names.now forest.now.nodes.items spans.items) }
{
    let none = Span { low: 0, high: 0 };
    let mut spans = vec![in alloc; none; names.len() as usize]?;
    for name in 0..names.len() {
        let Rooted { root, distance } = forest.find(name);
        let end = distance + i64::from(size_of(names.dims(name)));
        let span = spans[root as usize];
        spans[root as usize] = Span {
            low: span.low.min(distance),
            high: span.high.max(end),
        };
    }
    Ok(spans)
}

/// The numbers of the words: those of a storage follow each other, and the storages stand in the order of their lowest
/// names (ANSI X3.9-1978, section 5.2).
fn word_numbers(alloc: Global, names: &Names, forest: &Forest) -> Result<WordNumbers, NoMemory>
    requires trees { AreLowTrees forest.now.nodes.items }
    requires names { length forest.now.nodes.items ≡ length names.now }
    ensures { IfOk result (λ w. (spots : List Spot) → IsForest forest.now.nodes.items spots → AreLowest spots → AreNumbers names.now spots w) }
{
    let spans = spans(alloc, names, forest)?;
    let mut bases = vec![in alloc; None; names.len() as usize]?;
    let mut places = Vec::with_capacity(alloc, names.len() as usize)?;
    let mut words = 0;
    for name in 0..names.len() {
        let Rooted { root, distance } = forest.find(name);
        let Span { low, high } = spans[root as usize];
        let size = words_between(low, high);
        let (base, end) = begun(bases[root as usize], words, size);
        bases[root as usize] = Some(base);
        words = end;
        places.push(base + words_between(low, distance))?;
    }
    Ok(WordNumbers { places, words })
}

/// The numbers of the words that these storages have.
pub fn numbers_of(
    alloc: Global,
    names: &Names,
    storages: &Storages,
) -> Result<WordNumbers, NoMemory>
    requires some { AreSome storages.now }
    requires names { length storages.now.parts.items ≡ length names.now }
    ensures { IfOk result (λ w. AreNumbersOf names.now storages.now w) }
{
    word_numbers(alloc, names, storages.forest())
}

// Where the words of a storage begin that has this size, and the number after all words so far. A storage that has no words
// yet begins there.
fn begun(base: Option<u64>, words: u64, size: u64) -> (u64, u64)
    requires { words + size < 2 ^ 64 }
    ensures { result ≡ begun base words size }
{
    match base {
        Some(base) => (base, words),
        None => (words, words + size),
    }
}

// How many words lie between two places.
fn words_between(low: i64, high: i64) -> u64
    requires order { low ≤ℤ high }
    requires fits { FitsSigned w64 (high -ℤ low) }
    ensures { result ≡ nat_abs (high -ℤ low) }
{
    (high - low) as u64
}
