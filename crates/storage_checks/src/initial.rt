//! The words that a program begins with (ANSI X3.9-1978, section 9).

ghost use Rattle.std.specs.Prelude.{◌≡◌, [], ◌∷◌, not, false, map, flat_map, zip, drop, length, ◌<◌, slice_set, IfOk, OnOk};
ghost use Rattle.std.specs.List.{list_any, range_with_len};
ghost use Rattle.f77_tree.specs.InitialWords.{lit_word, initial_word};
ghost use Rattle.layout_rules.specs.StorageFaults.{is_member, has_wrong_part};
ghost use Rattle.layout_rules.specs.PlacedNames.{with_places, ArePlaces};
ghost use Rattle.storage_checks.specs.Runs.{all_constants, span_words};
ghost use Rattle.storage_checks.specs.Writing.{written, part_pairs};

use crate::constants::Constants;
use crate::data_items::spans_of;
use crate::data_spans::Span;
use df_sequence::{NoMemory, Sequence, WordList};
use f77_tree::{InitPart, InitValue, Lit};
use std::alloc::Global;
use symbol_table::Names;

/// So many words, where DATA without fault gives values to names with these places.
pub fn initial_words(
    alloc: Global,
    names: &Names,
    places: &[u64],
    inits: &[InitPart],
    words: u32,
) -> Result<WordList, NoMemory>
    requires members { list_any (λ part. list_any (λ member. not (is_member names.now member)) part.items) inits.now ≡ false }
    requires places { ArePlaces names.now places.now }
    requires data { has_wrong_part (with_places names.now places.now) [] inits.now ≡ false }
    ensures { IfOk result (λ initial. initial ≡ map (initial_word (with_places names.now places.now) inits.now) (range_with_len 0 words)) }
{
    let mut cells = vec![in alloc; 0; words as usize]?;
    write_parts(alloc, names, places, inits, &mut cells)?;
    list_of(alloc, &cells)
}

// Writes the constants of DATA to the words of its items.
fn write_parts(
    alloc: Global,
    names: &Names,
    places: &[u64],
    inits: &[InitPart],
    cells: &mut [i32],
) -> Result<(), NoMemory>
    requires members { list_any (λ part. list_any (λ member. not (is_member names.now member)) part.items) inits.now ≡ false }
    requires places { ArePlaces names.now places.now }
    ensures { OnOk result (cells.new ≡ written cells.old (flat_map (part_pairs (with_places names.now places.now)) inits.now)) }
{
    for part in inits {
        let spans = spans_of(alloc, names, places, part.items.as_slice())?;
        write_spans(cells, &spans, part.values.as_slice());
    }
    Ok(())
}

// The same words as a list.
fn list_of(alloc: Global, cells: &[i32]) -> Result<WordList, NoMemory>
    requires { length cells.now < 4294967296 }
    ensures { IfOk result (λ list. list ≡ cells.now) }
{
    let mut list = Sequence::new(alloc);
    for cell in cells {
        list.push(*cell)?;
    }
    Ok(list)
}

// Writes the constants to the words of the spans, one to each.
fn write_spans(cells: &mut [i32], spans: &[Span], values: &[InitValue])
    ensures { cells.new ≡ written cells.old (zip (flat_map span_words spans.now) (all_constants values.now)) }
{
    let mut constants = Constants::new(values);
    for span in spans {
        write_span(cells, span, &mut constants);
    }
}

fn write_span(cells: &mut [i32], span: &Span, constants: &mut Constants<'_>)
    ensures cells { cells.new ≡ written cells.old (zip (span_words span.now) constants.old) }
    ensures constants { constants.new ≡ drop span.now.len constants.old }
{
    for k in 0..span.len {
        write_next(cells, span.first + k as u64, constants);
    }
}

// Writes the next constant, if there is one.
fn write_next(cells: &mut [i32], word: u64, constants: &mut Constants<'_>)
    ensures cells { cells.new ≡ written cells.old (zip (word ∷ []) constants.old) }
    ensures constants { constants.new ≡ drop 1 constants.old }
{
    if let Some(run) = constants.take(1) {
        write(cells, word, run.value);
    }
}

// Writes a constant to a word, if there is one with this number.
fn write(cells: &mut [i32], word: u64, value: Lit)
    ensures { cells.new ≡ slice_set cells.old word (lit_word value) }
{
    if word < cells.len() as u64 {
        cells[word as usize] = match value {
            Lit::Int(z) => z,
            Lit::Truth(b) => b as i32,
        };
    }
}
