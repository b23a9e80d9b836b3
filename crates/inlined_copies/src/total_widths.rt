//! Whether an expansion has too many statements, known before it is made.
ghost use Rattle.std.specs.Prelude.{◌≡◌, ◌+◌, ◌<◌, ℕ, List, length, min, bytes_eq, nat_lt, IfOk};
ghost use Rattle.indexmap.specs.IndexMap.{get};
ghost use Rattle.program_units.specs.CallTable.{unit_named};
ghost use Rattle.program_units.specs.Expansion.{merged as merged_of, total_width};
ghost use Rattle.program_units.specs.Heights.{NoneCallsItself};

use crate::widths::main_width;
use df_sequence::NoMemory;
use f77_tree::Name;
use indexmap::IndexMap;
use program_units::Units;
use std::alloc::Global;

/// Whether the expansion has more than this many statements, where so many are merged, or one more than this where they
/// are more.
///
/// # Errors
///
/// Where there is no memory.
pub fn has_more_than(
    alloc: Global,
    us: &Units,
    index: &IndexMap<Name, usize>,
    merged: u32,
    most: u32,
) -> Result<bool, NoMemory>
    requires index { (name : List ℕ) → get bytes_eq index.now name ≡ unit_named us.now name }
    requires none { NoneCallsItself us.now }
    requires merged { merged ≡ min (length (merged_of us.now)) (most + 1) }
    requires most { most + 1 < 4294967296 }
    ensures { IfOk result (λ more. more ≡ nat_lt most (total_width us.now)) }
{
    let width = main_width(alloc, us, index, most + 1)?;
    Ok(is_more(width, merged, most))
}

// Whether a sum is more than this.
fn is_more(width: u32, merged: u32, most: u32) -> bool
    ensures { result ≡ nat_lt most (width + merged) }
{
    u64::from(width) + u64::from(merged) > u64::from(most)
}
