//! The classes of a program are made.

ghost use Rattle.std.specs.Prelude.{◌≡◌, ◌≤◌, ◌<◌, ◌+◌, ◌*◌, ℕ, length, slice_index, IfOk};
ghost use Rattle.class_set.specs.declared.ClassSet.{ClassSet};
ghost use Rattle.class_set.specs.Members.{IsWidth};
ghost use Rattle.alias_classes.specs.Classes.{IsNumbering};
ghost use Rattle.alias_classes.specs.Runs.{AreSetsOf};
ghost use Rattle.alias_classes.specs.Spans.{AreSpans, Holds};
ghost use Rattle.alias_classes.specs.Walk.{KeysTell, key_of};

use crate::runs::{classes_between, starts};
use crate::spans::{Spans, from_end, last_begins};
use crate::walk::{Marks, Walk, walk_names};
use class_set::ClassSet;
use df_sequence::NoMemory;
use std::alloc::Global;

// What tells the class of each word.
fn marks_of(alloc: Global, spans: &Spans, words: u32) -> Result<Marks, NoMemory>
    requires spans { AreSpans words spans.now.begins.items spans.now.ends.items }
    requires few { words ≤ 262144 }
    ensures words { IfOk result (λ marks. marks.words ≡ words) }
    ensures forth { IfOk result (λ marks. length marks.forth.items ≡ words + 1) }
    ensures back { IfOk result (λ marks. length marks.back.items ≡ words + 1) }
    ensures tell { IfOk result (λ marks. KeysTell (Holds spans.now.begins.items spans.now.ends.items) (key_of words marks.forth.items marks.back.items) words) }
{
    let mirrored = Spans {
        begins: from_end(alloc, &spans.ends, words)?,
        ends: from_end(alloc, &spans.begins, words)?,
    };
    Ok(Marks {
        words,
        forth: last_begins(alloc, spans, words)?,
        back: last_begins(alloc, &mirrored, words)?,
    })
}

/// The class of each word of a program, and how many there are.
#[derive(Drop)]
pub(crate) struct Numbered {
    pub(crate) numbers: Vec<usize>,
    pub(crate) count: usize,
}

/// The numbers of the classes of words, by the spans of names.
pub(crate) fn number_spans(alloc: Global, spans: &Spans, words: u32) -> Result<Numbered, NoMemory>
    requires spans { AreSpans words spans.now.begins.items spans.now.ends.items }
    requires few { words ≤ 262144 }
    ensures numbering { IfOk result (λ n. IsNumbering (Holds spans.now.begins.items spans.now.ends.items) words n.numbers.items n.count) }
    ensures small { IfOk result (λ n. n.count < 9223372036854775808) }
{
    let marks = marks_of(alloc, spans, words)?;
    let Walk {
        numbers,
        skips: _,
        keys,
    } = walk_names(alloc, &marks, spans)?;
    Ok(Numbered {
        numbers,
        count: keys.len(),
    })
}

/// The classes of each name.
pub(crate) fn name_sets<const W: usize>(
    alloc: Global,
    spans: &Spans,
    numbers: &Vec<usize>,
) -> Result<Vec<ClassSet<W>>, NoMemory>
    requires width { IsWidth W }
    requires spans { AreSpans (length numbers.now.items) spans.now.begins.items spans.now.ends.items }
    requires short { length numbers.now.items ≤ 262144 }
    requires few { (v : ℕ) → slice_index numbers.now.items v < 64 * W }
    ensures count { IfOk result (λ sets. length sets.items ≡ length spans.now.begins.items) }
    ensures each { IfOk result (λ sets. AreSetsOf numbers.now.items spans.now.begins.items spans.now.ends.items sets.items) }
{
    let starts = starts(alloc, numbers)?;
    let mut sets = Vec::new(alloc);
    for k in 0..spans.begins.len() {
        sets.push(classes_between(numbers, &starts, spans.begins[k], spans.ends[k]))?;
    }
    Ok(sets)
}
