//! Which of up to 64 sets have each number, and sets with one member.

ghost use Rattle.std.specs.Prelude.{◌≡◌, ◌≤◌, ◌<◌, ◌*◌, ◌-◌, ℕ, true, false, length, slice_index, None, Some, IfOk, IfSome};
ghost use Rattle.class_set.specs.ClassSet.{holds};
ghost use Rattle.class_set.specs.Members.{IsWidth};
ghost use Rattle.redundancy.specs.Killing.{AreUsers, IsOnly};
ghost use Rattle.redundancy.specs.Numbers.{with_bit};

use crate::listed::Listed;
use class_set::ClassSet;
use df_sequence::NoMemory;
use std::alloc::Global;

/// For each number that a set can have a word that has the bits of those of these sets that have it.
pub(crate) fn users_of<const W: usize>(
    alloc: Global,
    sets: &[ClassSet<W>],
) -> Result<Listed<u64>, NoMemory>
    requires width { IsWidth W }
    requires few { length sets.now ≤ 64 }
    ensures { IfOk result (λ users. AreUsers sets.now (length sets.now) users) }
{
    let mut users = Listed::of(vec![in alloc; 0; 64 * W]?);
    for (k, set) in sets.iter().enumerate() {
        note(&mut users, set, k as u32);
    }
    Ok(users)
}

// Sets bit k in the word of each member.
fn note<const W: usize>(users: &mut Listed<u64>, set: &ClassSet<W>, k: u32)
    requires width { IsWidth W }
    requires bit { k < 64 }
    requires all { length users.old ≡ 64 * W }
    ensures noted { (n : ℕ) → n < 64 * W → holds set.now n ≡ true → slice_index users.new n ≡ with_bit (slice_index users.old n) k }
    ensures kept { (n : ℕ) → holds set.now n ≡ false → slice_index users.new n ≡ slice_index users.old n }
    ensures all { length users.new ≡ 64 * W }
{
    let mut n = least_from(set, 0);
    while n < 64 * W {
        users.set_bit(n, k);
        n = least_from(set, n + 1);
    }
}

// The least member from a number on, or 64 * W where there is none.
fn least_from<const W: usize>(set: &ClassSet<W>, from: usize) -> usize
    requires width { IsWidth W }
    requires bound { from ≤ 64 * W }
    ensures within { result ≤ 64 * W }
    ensures from { from ≤ result }
    ensures member { result < 64 * W → holds set.now result ≡ true }
    ensures none { (j : ℕ) → from ≤ j → j < result → holds set.now j ≡ false }
{
    match set.next_after(number_before(from)) {
        Some(m) => m as usize,
        None => 64 * W,
    }
}

fn number_before(from: usize) -> Option<u32>
    requires { from ≤ 1024 }
    ensures none { from ≡ 0 → result ≡ None }
    ensures some { 0 < from → result ≡ Some (from - 1) }
{
    if from == 0 {
        None
    } else {
        Some((from - 1) as u32)
    }
}

/// The only member of a set, where it has one alone.
pub(crate) fn only_member<const W: usize>(set: &ClassSet<W>) -> Option<u32>
    requires { IsWidth W }
    ensures { IfSome result (IsOnly set.now) }
{
    match set.next_after(None) {
        None => None,
        Some(n) => match set.next_after(Some(n)) {
            None => Some(n),
            Some(_) => None,
        },
    }
}
