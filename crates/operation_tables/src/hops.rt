//! Where token lines go from an operation.

ghost use Rattle.std.specs.Prelude.{◌≡◌, ◌+◌, ◌^◌, ◌<◌, ◌≤◌, ◌==◌, ℕ, true, if◌then◌else◌, All, IfOk, OnOk, Some, filter, length, map};
ghost use Rattle.std.specs.List.{list_any, range_with_len};
ghost use Rattle.std.specs.List.Sorted.{IsStrictlyIncreasing};
ghost use Rattle.class_set.specs.ClassSet.{holds};
ghost use Rattle.class_set.specs.Members.{IsWidth};
ghost use Rattle.operation_tables.specs.ScratchLines.{IsClean, before_at, first_at, linked, unlinked};
ghost use Rattle.operation_tables.specs.Waits.{one_if};

use class_set::ClassSet;
use df_sequence::NoMemory;
use std::alloc::Global;

/// A line that an operation needs, in eight bytes: a program may have millions of them.
#[derive(Clone, Copy, Debug, PartialEq, Eq)]
pub struct Hop {
    pub line: u16,
    /// How many of the operations of the piece before this one need it.
    pub before: u16,
    /// The next operation of the piece that needs it. Without one the line goes on from the piece.
    pub next: Option<u16>,
}

/// What is known of each line while the rows of a piece are made: how many of its operations need the line so far, and, from the last
/// operation on, the first one that needs it.
#[derive(Drop)]
pub(crate) struct Scratch {
    pub(crate) before: Vec<u32>,
    pub(crate) first: Vec<Option<u16>>,
}

/// Nothing is known of so many lines.
pub(crate) fn make_scratch(alloc: Global, lines: u32) -> Result<Scratch, NoMemory>
    ensures { IfOk result (λ s. IsClean lines s) }
{
    Ok(Scratch {
        before: vec![in alloc; 0; lines as usize]?,
        first: vec![in alloc; None; lines as usize]?,
    })
}

/// A line that an operation needs, as so many before it do.
fn unlinked_hop(line: u32, before: u32) -> Hop
    requires line { line < 2 ^ 16 }
    requires before { before < 2 ^ 16 }
    ensures { result ≡ unlinked line before }
{
    Hop {
        line: line as u16,
        before: before as u16,
        next: None,
    }
}

/// The lines that an operation needs, and how many of the operations before it need each of them. Those of the next operation are
/// counted then.
pub(crate) fn unlinked_hops<const W: usize>(
    alloc: Global,
    needs: &ClassSet<W>,
    scratch: &mut Scratch,
) -> Result<Vec<Hop>, NoMemory>
    requires width { IsWidth W }
    requires exist { (line : ℕ) → holds needs.now line ≡ true → line < length scratch.old.before.items }
    requires lines { length scratch.old.before.items ≤ 1024 }
    requires few { (line : ℕ) → before_at scratch.old line < 2 ^ 16 }
    ensures lines { IfOk result (λ hops. map (λ (hop : Hop). hop.line) hops.items ≡ filter (holds needs.now) (range_with_len 0 (length scratch.old.before.items))) }
    ensures before { IfOk result (λ hops. All (λ (hop : Hop). hop.before ≡ before_at scratch.old hop.line) hops.items) }
    ensures counts { OnOk result ((line : ℕ) → before_at scratch.new line ≡ before_at scratch.old line + one_if (holds needs.now line)) }
    ensures all { length scratch.new.before.items ≡ length scratch.old.before.items }
    ensures first { scratch.new.first.items ≡ scratch.old.first.items }
{
    let mut next = needs.next_after(None);
    // Few operations need more than one line.
    let mut hops = Vec::with_capacity(alloc, usize::from(next.is_some()))?;
    while let Some(line) = next {
        let before = scratch.before[line as usize];
        hops.push(unlinked_hop(line, before))?;
        scratch.before[line as usize] = before + 1;
        next = needs.next_after(Some(line));
    }
    Ok(hops)
}

/// Tells of the lines that operation i needs which operation needs them next. The first one that needs them is operation i then.
pub(crate) fn link_hops(hops: &mut Vec<Hop>, scratch: &mut Scratch, i: u16)
    requires exist { All (λ (hop : Hop). hop.line < length scratch.old.first.items) hops.old.items }
    requires rising { IsStrictlyIncreasing (map (λ (hop : Hop). hop.line) hops.old.items) }
    ensures hops { hops.new.items ≡ map (linked scratch.old) hops.old.items }
    ensures first { (line : ℕ) → first_at scratch.new line ≡ if list_any (λ (hop : Hop). hop.line == line) hops.old.items then Some i else first_at scratch.old line }
    ensures all { length scratch.new.first.items ≡ length scratch.old.first.items }
    ensures before { scratch.new.before.items ≡ scratch.old.before.items }
{
    for j in 0..hops.len() {
        let line = hops[j].line;
        hops[j].next = scratch.first[line as usize];
        scratch.first[line as usize] = Some(i);
    }
}
