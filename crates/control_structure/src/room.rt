//! Tables by numbers, which reach as far as the numbers that are met.

ghost use Rattle.std.specs.Prelude.{◌≡◌, ℕ, ◌<◌, length, slice_index_or, OnOk};

use df_sequence::NoMemory;

/// Lengthens a table so that the number has an entry in it. The value is what is read after the end, and the new entries are
/// that value.
pub(crate) fn make_room<T: Copy + Drop>(
    table: &mut Vec<T>,
    number: u32,
    value: T,
) -> Result<(), NoMemory>
    ensures within { OnOk result (number < length table.new.items) }
    ensures entries { (k : ℕ) → slice_index_or table.new.items k value ≡ slice_index_or table.old.items k value }
{
    for _ in table.len()..number as usize + 1 {
        table.push(value)?;
    }
    Ok(())
}
