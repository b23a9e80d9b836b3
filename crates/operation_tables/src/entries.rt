//! Which operations of a piece are the first ones that need its lines.

ghost use Rattle.std.specs.Prelude.{◌≡◌, ◌<◌, ◌==◌, ℕ, if◌then◌else◌, All, IfOk, None, length, map, unwrap_or};
ghost use Rattle.std.specs.List.{list_any};
ghost use Rattle.operation_tables.specs.ScratchLines.{before_at, first_at};

use crate::hops::Scratch;
use df_sequence::NoMemory;
use std::alloc::Global;

/// Which operation is the first one that is known to need each of the lines, or 0 where none is.
pub(crate) fn first_entries(
    alloc: Global,
    touched: &[u32],
    scratch: &Scratch,
) -> Result<Vec<u32>, NoMemory>
    requires { All (λ line. line < length scratch.now.first.items) touched.now }
    ensures { IfOk result (λ entries. entries.items ≡ map (λ (line : ℕ). unwrap_or (first_at scratch.now line) 0) touched.now) }
{
    let mut entries = Vec::with_capacity(alloc, touched.len())?;
    for line in touched {
        entries.push(u32::from(scratch.first[*line as usize].unwrap_or(0)))?;
    }
    Ok(entries)
}

/// Lets nothing be known of the lines.
pub(crate) fn clear_lines(touched: &[u32], scratch: &mut Scratch)
    requires counts { All (λ line. line < length scratch.old.before.items) touched.now }
    requires firsts { All (λ line. line < length scratch.old.first.items) touched.now }
    ensures counts { length scratch.new.before.items ≡ length scratch.old.before.items }
    ensures firsts { length scratch.new.first.items ≡ length scratch.old.first.items }
    ensures before { (line : ℕ) → before_at scratch.new line ≡ if list_any (λ (other : ℕ). other == line) touched.now then 0 else before_at scratch.old line }
    ensures first { (line : ℕ) → first_at scratch.new line ≡ if list_any (λ (other : ℕ). other == line) touched.now then None else first_at scratch.old line }
{
    for line in touched {
        scratch.before[*line as usize] = 0;
        scratch.first[*line as usize] = None;
    }
}
