//! The words of names as spans, and where the last span begins that holds a word.

ghost use Rattle.std.specs.Prelude.{◌≡◌, ◌≤◌, ◌<◌, ◌+◌, ◌≤ℤ◌, ℕ, pos, length, slice_index, All, IfOk};
ghost use Rattle.f77_tree.specs.Declarations.{IsNameInfo, IsDim, AreDims};
ghost use Rattle.f77_tree.specs.Places.{end_of};
ghost use Rattle.f77_tree.specs.Value.{extent, size_of};
ghost use Rattle.alias_classes.specs.Spans.{AreSpansOf, AreSpans, AreReaches, IsLastBegin, AreLastBegins, AreFromEnd};

use df_sequence::NoMemory;
use f77_tree::{Dim, DimList, NameInfoList};
use std::alloc::Global;

/// Spans of words, each from its begin up to, but not with, its end.
#[derive(Drop)]
pub(crate) struct Spans {
    pub(crate) begins: Vec<u32>,
    pub(crate) ends: Vec<u32>,
}

/// The words of each name.
pub(crate) fn name_spans(alloc: Global, names: &NameInfoList) -> Result<Spans, NoMemory>
    requires table { All IsNameInfo names.now }
    requires inside { (k : ℕ) → k < length names.now → end_of names.now k ≤ℤ pos 262144 }
    ensures { IfOk result (λ spans. AreSpansOf names.now spans.begins.items spans.ends.items) }
{
    let mut begins = Vec::new(alloc);
    let mut ends = Vec::new(alloc);
    for info in names.as_slice() {
        begins.push(info.place)?;
        ends.push(info.place + size(&info.dims))?;
    }
    Ok(Spans { begins, ends })
}

// How many words a name of these dimensions has.
fn size(dims: &DimList) -> u32
    requires { AreDims dims.now }
    ensures { pos result ≡ size_of dims.now }
{
    let mut size = 1;
    for dim in dims.as_slice() {
        size *= width(dim);
    }
    size
}

// How many subscripts a dimension has.
fn width(dim: &Dim) -> u32
    requires order { IsDim dim.now }
    requires few { extent dim.now ≤ℤ pos 262144 }
    ensures { pos result ≡ extent dim.now }
{
    (dim.hi - dim.lo + 1) as u32
}

/// The places, counted from the end of a store of so many words.
pub(crate) fn from_end(alloc: Global, places: &Vec<u32>, words: u32) -> Result<Vec<u32>, NoMemory>
    requires { (k : ℕ) → k < length places.now.items → slice_index places.now.items k ≤ words }
    ensures { IfOk result (λ back. AreFromEnd words places.now.items back.items) }
{
    let mut back = Vec::new(alloc);
    for place in places {
        back.push(words - *place)?;
    }
    Ok(back)
}

// For each word at which a span begins the greatest end of those that begin there.
fn reaches(alloc: Global, spans: &Spans, words: u32) -> Result<Vec<u32>, NoMemory>
    requires { AreSpans words spans.now.begins.items spans.now.ends.items }
    ensures { IfOk result (λ reaches. AreReaches words spans.now.begins.items spans.now.ends.items reaches.items) }
{
    let mut reaches = vec![in alloc; 0; words as usize]?;
    for k in 0..spans.begins.len() {
        let begin = spans.begins[k] as usize;
        reaches[begin] = reaches[begin].max(spans.ends[k]);
    }
    Ok(reaches)
}

/// For each word one more than the last place at which a span begins that holds the word, or 0 where none holds it; and
/// before them all a 0.
pub(crate) fn last_begins(alloc: Global, spans: &Spans, words: u32) -> Result<Vec<u32>, NoMemory>
    requires spans { AreSpans words spans.now.begins.items spans.now.ends.items }
    requires few { words ≤ 262144 }
    ensures { IfOk result (λ last. AreLastBegins words spans.now.begins.items spans.now.ends.items last.items) }
{
    let reaches = reaches(alloc, spans, words)?;
    let mut last = vec![in alloc; 0]?;
    for word in 0..words {
        last.push(last_begin(spans, &reaches, &last, word))?;
    }
    Ok(last)
}

// One more than the last place at which a span begins that holds the word. Where the spans that begin at a place all end
// before the word, those that hold it began before and hold the word before that place too.
fn last_begin(spans: &Spans, reaches: &Vec<u32>, last: &Vec<u32>, word: u32) -> u32
    requires reaches { AreReaches (length reaches.now.items) spans.now.begins.items spans.now.ends.items reaches.now.items }
    requires last { AreLastBegins word spans.now.begins.items spans.now.ends.items last.now.items }
    requires inside { word < length reaches.now.items }
    requires few { word < 262144 }
    ensures { IsLastBegin spans.now.begins.items spans.now.ends.items word result }
{
    let mut next = word + 1;
    while next > 0 && reaches[next as usize - 1] <= word {
        next = last[next as usize - 1];
    }
    next
}
