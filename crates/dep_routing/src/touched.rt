//! The lines that nodes touch, as lists.

ghost use Rattle.std.specs.Prelude.{◌≡◌, ◌<◌, ◌≤◌, ◌↔◌, ℕ, true, false, length, filter, IfOk};
ghost use Rattle.std.specs.List.{range_with_len};
ghost use Rattle.class_set.specs.ClassSet.{holds};
ghost use Rattle.class_set.specs.Members.{IsAbove, IsWidth};
ghost use Rattle.closed_walks.specs.Walk.{Holds};
ghost use Rattle.dep_routing.specs.Touch.{touches_in};

use crate::TouchList;
use class_set::ClassSet;
use df_sequence::{LabelList, NoMemory};
use std::alloc::Global;

/// Which of so many lines, from 0 on, a node touches, in rising order. It takes a few steps for each of them.
pub fn touched_lines<const W: usize>(
    alloc: Global,
    touch: &TouchList<W>,
    node: u32,
    lines: u32,
) -> Result<LabelList, NoMemory>
    requires width { IsWidth W }
    requires node { node < length touch.now }
    ensures lines { IfOk result (λ list. list ≡ filter (touches_in touch.now node) (range_with_len 0 lines)) }
    ensures members { IfOk result (λ list. (line : ℕ) → Holds list line ↔ ((line < lines) × (touches_in touch.now node line ≡ true))) }
{
    let set = touch.at(node);
    let mut list = LabelList::new(alloc);
    let mut line = least_above(set, None, lines);
    while line < lines {
        list.push(line)?;
        line = least_above(set, Some(line), lines);
    }
    Ok(list)
}

/// The least member above the number, or of all where there is no number, that is below the end; or else the end.
pub fn least_above<const W: usize>(set: &ClassSet<W>, n: Option<u32>, end: u32) -> u32
    requires { IsWidth W }
    ensures within { result ≤ end }
    ensures member { result < end → (holds set.now result ≡ true) × IsAbove n result }
    ensures none { (k : ℕ) → IsAbove n k → k < result → holds set.now k ≡ false }
{
    match set.next_after(n) {
        Some(next) if next < end => next,
        _ => end,
    }
}
