//! The places of dummies in their list.
ghost use Rattle.std.specs.Prelude.{◌≡◌, ℕ, List, length, bytes_eq, IfOk};
ghost use Rattle.std.specs.List.{position_or_len};
ghost use Rattle.indexmap.specs.IndexMap.{get};
ghost use Rattle.program_units.specs.CallTable.{if_below};

use df_sequence::NoMemory;
use f77_tree::Name;
use indexmap::IndexMap;
use program_units::note_name;
use std::alloc::Global;

/// For a dummy the first place that it has in the list, counted from 0.
pub(crate) fn dummy_places(
    alloc: Global,
    dummies: &[Name],
) -> Result<IndexMap<Name, usize>, NoMemory>
    ensures { IfOk result (λ places. (x : List ℕ) → get bytes_eq places x ≡ if_below (position_or_len (bytes_eq x) dummies.now) (length dummies.now)) }
{
    let mut places = IndexMap::new(alloc);
    for i in 0..dummies.len() {
        note_name(alloc, &mut places, &dummies[i], i)?;
    }
    Ok(places)
}
