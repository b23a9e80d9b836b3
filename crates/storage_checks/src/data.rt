//! DATA that gives a value of the wrong kind, too few or too many values, or a word two values (ANSI X3.9-1978, section 9).

ghost use Rattle.std.specs.Prelude.{◌≡◌, ℕ, not, false, List, flat_map, IfOk};
ghost use Rattle.std.specs.List.{list_any};
ghost use Rattle.f77_tree.specs.InitialWords.{part_words};
ghost use Rattle.layout_rules.specs.StorageFaults.{is_member, is_wrong_part, has_wrong_part};
ghost use Rattle.layout_rules.specs.StorageLines.{given_by};
ghost use Rattle.layout_rules.specs.PlacedNames.{with_places, ArePlaces};
ghost use Rattle.storage_checks.specs.GivenWords.{AreGiven, GivesMore, gives_wrongly};

use crate::data_items::spans_of;
use crate::data_kinds::fits;
use crate::given_words::GivenWords;
use crate::members;
use df_sequence::NoMemory;
use f77_tree::{InitPart, Labelled, Stmt};
use std::alloc::Global;
use symbol_table::Names;

/// Whether an item of the statement is wrong, where the names have these places, or its values don't fit its items, or one of
/// its words has a value. It adds the words, unless an item is wrong.
pub(crate) fn is_wrong(
    alloc: Global,
    names: &Names,
    places: &[u64],
    given: &mut GivenWords,
    s: &Labelled,
) -> Result<bool, NoMemory>
    requires places { ArePlaces names.now places.now }
    ensures wrong { IfOk result (λ wrong. (seen : List ℕ) → AreGiven given.old seen → wrong ≡ gives_wrongly names.now (with_places names.now places.now) seen s.now) }
    ensures added { IfOk result (λ wrong. GivesMore given.old given.new (flat_map (part_words (with_places names.now places.now)) (given_by names.now s.now))) }
{
    match &s.stmt {
        Stmt::Init(parts) => {
            if members::has_wrong(names, s) {
                return Ok(true);
            }
            are_wrong_parts(alloc, names, places, given, parts.as_slice())
        }
        _ => Ok(false),
    }
}

fn are_wrong_parts(
    alloc: Global,
    names: &Names,
    places: &[u64],
    given: &mut GivenWords,
    parts: &[InitPart],
) -> Result<bool, NoMemory>
    requires members { list_any (λ part. list_any (λ member. not (is_member names.now member)) part.items) parts.now ≡ false }
    requires places { ArePlaces names.now places.now }
    ensures wrong { IfOk result (λ wrong. (seen : List ℕ) → AreGiven given.old seen → wrong ≡ has_wrong_part (with_places names.now places.now) seen parts.now) }
    ensures added { IfOk result (λ wrong. GivesMore given.old given.new (flat_map (part_words (with_places names.now places.now)) parts.now)) }
{
    let mut wrong = false;
    for part in parts {
        let here = is_wrong_part_of(alloc, names, places, given, part)?;
        wrong = wrong | here;
    }
    Ok(wrong)
}

fn is_wrong_part_of(
    alloc: Global,
    names: &Names,
    places: &[u64],
    given: &mut GivenWords,
    part: &InitPart,
) -> Result<bool, NoMemory>
    requires members { list_any (λ member. not (is_member names.now member)) part.now.items ≡ false }
    requires places { ArePlaces names.now places.now }
    ensures wrong { IfOk result (λ wrong. (seen : List ℕ) → AreGiven given.old seen → wrong ≡ is_wrong_part (with_places names.now places.now) seen part.now) }
    ensures added { IfOk result (λ wrong. GivesMore given.old given.new (part_words (with_places names.now places.now) part.now)) }
{
    let spans = spans_of(alloc, names, places, part.items.as_slice())?;
    let fit = fits(&spans, part.values.as_slice());
    let free = given.add_spans(&spans)?;
    Ok(!fit | !free)
}
