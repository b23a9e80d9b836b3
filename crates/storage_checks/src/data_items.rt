//! The words of items of DATA (ANSI X3.9-1978, section 9).

ghost use Rattle.std.specs.Prelude.{◌≡◌, ◌<◌, ◌≤◌, ◌^◌, not, true, false, slice_index, flat_map, All, IfOk};
ghost use Rattle.std.specs.List.{list_any};
ghost use Rattle.f77_tree.specs.InitialWords.{item_words, item_kinds};
ghost use Rattle.layout_rules.specs.Storage.{elements};
ghost use Rattle.layout_rules.specs.StorageFaults.{is_member, are_wrong_dims};
ghost use Rattle.layout_rules.specs.PlacedNames.{with_places, ArePlaces};
ghost use Rattle.storage_checks.specs.Runs.{span_words, span_kinds};

use crate::data_spans::Span;
use crate::dimensions::{element_count, offset};
use df_sequence::NoMemory;
use f77_tree::{Dim, Member};
use std::alloc::Global;
use symbol_table::Names;

/// The words of items, span by span, where a name has its place from the list.
pub(crate) fn spans_of(
    alloc: Global,
    names: &Names,
    places: &[u64],
    items: &[Member],
) -> Result<Vec<Span>, NoMemory>
    requires members { list_any (λ member. not (is_member names.now member)) items.now ≡ false }
    requires places { ArePlaces names.now places.now }
    ensures words { IfOk result (λ spans. flat_map span_words spans.items ≡ flat_map (item_words (with_places names.now places.now)) items.now) }
    ensures kinds { IfOk result (λ spans. flat_map span_kinds spans.items ≡ flat_map (item_kinds (with_places names.now places.now)) items.now) }
{
    let mut spans = Vec::new(alloc);
    for item in items {
        spans.push(span_of(names, places, item))?;
    }
    Ok(spans)
}

// The words of an item: those of its name, or that of an element.
fn span_of(names: &Names, places: &[u64], item: &Member) -> Span
    requires member { is_member names.now item.now ≡ true }
    requires places { ArePlaces names.now places.now }
    ensures words { span_words result ≡ item_words (with_places names.now places.now) item.now }
    ensures kinds { span_kinds result ≡ item_kinds (with_places names.now places.now) item.now }
{
    let k = names.index(&item.name);
    let kind = names.kind(k);
    let dims = names.dims(k);
    let first = place_at(places, k);
    if item.subs.is_empty() {
        let len = size(dims);
        return Span { first, len, kind };
    }
    Span {
        first: first + offset(dims, item.subs.as_slice()),
        len: 1,
        kind,
    }
}

// The first word of a name. It is word 0 past the end.
fn place_at(places: &[u64], k: u32) -> u64
    requires { All (λ place. place < 2 ^ 63) places.now }
    ensures place { result ≡ slice_index places.now k }
    ensures below { result < 2 ^ 63 }
{
    match places.get(k as usize) {
        Some(place) => *place,
        None => 0,
    }
}

// How many words a name of these dimensions has.
fn size(dims: &[Dim]) -> u32
    requires { are_wrong_dims dims.now ≡ false }
    ensures elements { result ≡ elements dims.now }
    ensures some { 0 < result }
    ensures few { result ≤ 262144 }
{
    match element_count(dims) {
        Some(count) => count,
        None => unreachable!(),
    }
}
