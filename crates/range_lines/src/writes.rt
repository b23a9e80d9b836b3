//! The classes that executables write, and where each class is written next.

ghost use Rattle.std.specs.Prelude.{◌≡◌, ◌≤◌, ◌<◌, ◌*◌, ◌-◌, ◌↔◌, ℕ, true, false, length, slice_index, None, Some};
ghost use Rattle.class_set.specs.ClassSet.{holds};
ghost use Rattle.class_set.specs.Members.{IsWidth};
ghost use Rattle.f77_tree.specs.CanRun.{CanExecute};
ghost use Rattle.f77_tree.specs.Value.{place_of};
ghost use Rattle.alias_classes.specs.Classes.{IsClasses, class_of_word, class_count};
ghost use Rattle.alias_classes.specs.Writes.{ExecWrites};

use alias_classes::Classes;
use class_set::ClassSet;
use f77_tree::{ExecKind, Program};

/// The classes of words that an executable writes, or may write.
pub(crate) fn written<const W: usize>(p: &Program, c: &Classes<W>, kind: &ExecKind) -> ClassSet<W>
    requires width { IsWidth W }
    requires classes { IsClasses p.now c.now }
    requires few { class_count c.now < 64 * W }
    requires executes { CanExecute p.now kind.now }
    ensures { (n : ℕ) → (holds result n ≡ true) ↔ ExecWrites c.now kind.now n }
{
    match kind {
        ExecKind::Assign { target, .. } => c.hits(target),
        ExecKind::DoStart { var, .. } => ClassSet::empty().with(class_of(p, c, *var)),
        ExecKind::DoNext { var, .. } => ClassSet::empty().with(class_of(p, c, *var)),
        _ => ClassSet::empty(),
    }
}

/// The class of the word of a variable.
pub(crate) fn class_of<const W: usize>(p: &Program, c: &Classes<W>, var: u32) -> u32
    requires classes { IsClasses p.now c.now }
    requires few { class_count c.now < 64 * W }
    requires name { var < length p.now.names }
    requires word { place_of p.now.names var < p.now.words }
    ensures class { result ≡ class_of_word c.now (place_of p.now.names var) }
    ensures below { result < 64 * W }
{
    c.of_word(p.names.at(var).place)
}

/// Notes k for each member.
pub(crate) fn note<const W: usize>(next: &mut Vec<u32>, set: &ClassSet<W>, k: u32)
    requires width { IsWidth W }
    requires all { length next.old.items ≡ 64 * W }
    ensures noted { (j : ℕ) → j < 64 * W → holds set.now j ≡ true → slice_index next.new.items j ≡ k }
    ensures kept { (j : ℕ) → holds set.now j ≡ false → slice_index next.new.items j ≡ slice_index next.old.items j }
    ensures all { length next.new.items ≡ 64 * W }
{
    let mut n = least_from(set, 0);
    while n < 64 * W {
        next[n] = k;
        n = least_from(set, n + 1);
    }
}

// The least member from a number on, or 64 * W where there is none.
fn least_from<const W: usize>(set: &ClassSet<W>, from: usize) -> usize
    requires width { IsWidth W }
    requires bound { from ≤ 64 * W }
    ensures within { result ≤ 64 * W }
    ensures from { from ≤ result }
    ensures member { result < 64 * W → holds set.now result ≡ true }
    ensures none { (j : ℕ) → from ≤ j → j < result → holds set.now j ≡ false }
{
    match set.next_after(number_before(from)) {
        Some(m) => m as usize,
        None => 64 * W,
    }
}

fn number_before(from: usize) -> Option<u32>
    requires { from ≤ 1024 }
    ensures none { from ≡ 0 → result ≡ None }
    ensures some { 0 < from → result ≡ Some (from - 1) }
{
    if from == 0 {
        None
    } else {
        Some((from - 1) as u32)
    }
}
