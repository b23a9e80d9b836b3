//! Refusals that speak of the size of the expansion.
ghost use Rattle.std.specs.Prelude.{◌≡◌, ◌+◌, ◌<◌, ℕ, List, false, true, length, nat_lt, slice_index_or, bytes_eq, IfOk};
ghost use Rattle.std.specs.List.{list_any};
ghost use Rattle.indexmap.specs.IndexMap.{get};
ghost use Rattle.layout_rules.specs.Faults.{first_answer};
ghost use Rattle.program_units.specs.CallTable.{unit_named};
ghost use Rattle.program_units.specs.Expansion.{total_width};
ghost use Rattle.program_units.specs.Heights.{NoneCallsItself};
ghost use Rattle.program_units.specs.NamedEntities.{AreAllNamed, are_short};
ghost use Rattle.program_units.specs.Names.{own_numbers, used_names};
ghost use Rattle.program_units.specs.Refusals.{size_refusals};
ghost use Rattle.program_units.specs.Units.{runs as runs_of};

use crate::great_names::has_number_above;
use crate::merged_counts::merged_count;
use df_sequence::NoMemory;
use entity_names::TextEntities;
use f77_tree::Name;
use indexmap::IndexMap;
use inlined_copies::has_more_than;
use program_units::{SubEnd, line_of_end};
use std::alloc::Global;

/// More statements are refused.
const MOST_STATEMENTS: u32 = 4_000;

/// A greater number has more digits than a name has room for.
const MOST_NUMBER: u32 = 99_999;

/// The first refusal that speaks of the size of the expansion. The units that run are marked.
pub(crate) fn size_refusal(
    alloc: Global,
    text: &TextEntities,
    index: &IndexMap<Name, usize>,
    runs: &[bool],
) -> Result<Option<SubEnd>, NoMemory>
    requires index { (name : List ℕ) → get bytes_eq index.now name ≡ unit_named text.now.us.now name }
    requires enough { length text.now.us.now < length runs.now }
    requires told { (k : ℕ) → k < length text.now.us.now → slice_index_or runs.now k false ≡ runs_of text.now.us.now k }
    requires none { NoneCallsItself text.now.us.now }
    requires named { AreAllNamed text.now.us.now }
    ensures { IfOk result (λ end. end ≡ first_answer (λ r. r) (size_refusals text.now.us.now)) }
{
    let wide = has_more_statements(alloc, text, index, runs, MOST_STATEMENTS)?;
    if wide {
        return Ok(Some(SubEnd::TooManyStatements(line_of_end(text.us))));
    }
    let great = needs_number_above(alloc, text, MOST_NUMBER)?;
    if great {
        return Ok(Some(SubEnd::TooManyNames(line_of_end(text.us))));
    }
    Ok(None)
}

// Whether the expansion has more statements than this.
fn has_more_statements(
    alloc: Global,
    text: &TextEntities,
    index: &IndexMap<Name, usize>,
    runs: &[bool],
    most: u32,
) -> Result<bool, NoMemory>
    requires index { (name : List ℕ) → get bytes_eq index.now name ≡ unit_named text.now.us.now name }
    requires enough { length text.now.us.now < length runs.now }
    requires told { (k : ℕ) → k < length text.now.us.now → slice_index_or runs.now k false ≡ runs_of text.now.us.now k }
    requires none { NoneCallsItself text.now.us.now }
    requires most { most + 1 < 4294967296 }
    ensures { IfOk result (λ more. more ≡ nat_lt most (total_width text.now.us.now)) }
{
    let merged = merged_count(alloc, text.us, runs, &text.own, &text.main, most + 1)?;
    let more = has_more_than(alloc, text.us, index, merged, most)?;
    Ok(more)
}

// Whether the name of a number above this is needed.
fn needs_number_above(alloc: Global, text: &TextEntities, most: u32) -> Result<bool, NoMemory>
    requires short { are_short (used_names text.now.us.now) ≡ true }
    requires digits { most < 100000 }
    ensures { IfOk result (λ above. above ≡ list_any (nat_lt most) (own_numbers text.now.us.now)) }
{
    let used = text.used(alloc)?;
    let above = has_number_above(alloc, &used, text.own.len(), most)?;
    Ok(above)
}
