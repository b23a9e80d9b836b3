//! Rows of words: a row for each 64 candidates, with a word for each piece.

ghost use Rattle.std.specs.Prelude.{◌≡◌, ◌<◌, ◌≤◌, ◌+◌, ◌*◌, ◌↔◌, ◌==◌, ℕ, true, [], length, slice_index_or, IfOk, OnOk};
ghost use Rattle.class_set.specs.declared.ClassSet.{ClassSet};
ghost use Rattle.class_set.specs.ClassSet.{holds};
ghost use Rattle.class_set.specs.Members.{IsWidth};
ghost use Rattle.redundancy.specs.Available.{has_bit};
ghost use Rattle.redundancy.specs.Noted.{IsMarked};
ghost use Rattle.redundancy.specs.Solving.{HasBit};
ghost use Rattle.redundancy.specs.Killing.{AreUsers, Meet};

use crate::listed::Listed;
use crate::users::{only_member, users_of};
use class_set::ClassSet;
use df_sequence::NoMemory;
use std::alloc::Global;

/// Sets the bit of the candidate at the piece, in a new row where there is none for it.
pub(crate) fn mark(
    alloc: Global,
    rows: &mut Vec<Listed<u64>>,
    nodes: u32,
    k: usize,
    node: u32,
) -> Result<(), NoMemory>
    requires node { node < nodes }
    requires place { k ≤ 64 * length rows.old.items }
    requires each { (r : ℕ) → r < length rows.old.items → length (slice_index_or rows.old.items r []) ≡ nodes }
    ensures each { OnOk result ((r : ℕ) → r < length rows.new.items → length (slice_index_or rows.new.items r []) ≡ nodes) }
    ensures marked { OnOk result (IsMarked k node rows.old.items rows.new.items) }
    ensures old { OnOk result (k < 64 * length rows.old.items → length rows.new.items ≡ length rows.old.items) }
    ensures new { OnOk result (k ≡ 64 * length rows.old.items → length rows.new.items ≡ length rows.old.items + 1) }
{
    let row = k / 64;
    if row == rows.len() {
        rows.push(Listed::of(vec![in alloc; 0; nodes as usize]?))?;
    }
    rows[row].set_bit(node as usize, (k % 64) as u32);
    Ok(())
}

/// For each piece a word that has the bits of those that need a class that the piece writes.
pub(crate) fn kill_row<const W: usize>(
    alloc: Global,
    writes: &[ClassSet<W>],
    needs: &[ClassSet<W>],
) -> Result<Vec<u64>, NoMemory>
    requires width { IsWidth W }
    requires few { length needs.now ≤ 64 }
    ensures count { IfOk result (λ row. length row.items ≡ length writes.now) }
    ensures bits { IfOk result (λ row. (node k : ℕ) (d : ClassSet W) → node < length writes.now → k < length needs.now → HasBit row.items k node ↔ Meet (slice_index_or needs.now k d) (slice_index_or writes.now node d)) }
{
    let all = union_of(needs);
    let users = users_of(alloc, needs)?;
    let mut row = Vec::new(alloc);
    for written in writes {
        row.push(killed(needs, &users, &all, written))?;
    }
    Ok(row)
}

// Which of these sets meet the set. Where it has one member alone, as most have, `users` has the answer.
fn killed<const W: usize>(
    sets: &[ClassSet<W>],
    users: &Listed<u64>,
    all: &ClassSet<W>,
    set: &ClassSet<W>,
) -> u64
    requires width { IsWidth W }
    requires few { length sets.now ≤ 64 }
    requires users { AreUsers sets.now (length sets.now) users.now }
    requires all { (k n : ℕ) (d : ClassSet W) → k < length sets.now → holds (slice_index_or sets.now k d) n ≡ true → holds all.now n ≡ true }
    ensures { (k : ℕ) (d : ClassSet W) → k < length sets.now → (has_bit result k ≡ true) ↔ Meet (slice_index_or sets.now k d) set.now }
{
    match only_member(set) {
        Some(n) => users.as_slice()[n as usize],
        None => killed_by_many(sets, all, set),
    }
}

// Which of these sets meet the set. `all` has all their members, so that most questions need one look.
fn killed_by_many<const W: usize>(sets: &[ClassSet<W>], all: &ClassSet<W>, set: &ClassSet<W>) -> u64
    requires width { IsWidth W }
    requires few { length sets.now ≤ 64 }
    requires all { (k n : ℕ) (d : ClassSet W) → k < length sets.now → holds (slice_index_or sets.now k d) n ≡ true → holds all.now n ≡ true }
    ensures { (k : ℕ) (d : ClassSet W) → k < length sets.now → (has_bit result k ≡ true) ↔ Meet (slice_index_or sets.now k d) set.now }
{
    if all.meets(set) {
        meeting(sets, set)
    } else {
        0
    }
}

// All members of some sets.
fn union_of<const W: usize>(sets: &[ClassSet<W>]) -> ClassSet<W>
    requires width { IsWidth W }
    ensures { (k n : ℕ) (d : ClassSet W) → k < length sets.now → holds (slice_index_or sets.now k d) n ≡ true → holds result n ≡ true }
{
    let mut all = ClassSet::empty();
    for set in sets {
        all = all.union(set);
    }
    all
}

// Which of these sets meet the set.
fn meeting<const W: usize>(sets: &[ClassSet<W>], set: &ClassSet<W>) -> u64
    requires width { IsWidth W }
    requires few { length sets.now ≤ 64 }
    ensures { (k : ℕ) (d : ClassSet W) → k < length sets.now → (has_bit result k ≡ true) ↔ Meet (slice_index_or sets.now k d) set.now }
{
    let mut word = 0;
    for (k, other) in sets.iter().enumerate() {
        if other.meets(set) {
            word |= 1 << k;
        }
    }
    word
}
