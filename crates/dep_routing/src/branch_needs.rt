//! The classes that branches need.

ghost use Rattle.std.specs.Prelude.{◌≡◌, ◌<◌, ◌*◌, ◌↔◌, ℕ, true};
ghost use Rattle.class_set.specs.ClassSet.{holds};
ghost use Rattle.class_set.specs.Members.{IsWidth};
ghost use Rattle.f77_tree.specs.CanRun.{CanExecute};
ghost use Rattle.alias_classes.specs.Classes.{IsClasses, class_count};
ghost use Rattle.dep_routing.specs.Touches.{BranchNeeds};

use alias_classes::{Classes, exec_need};
use class_set::ClassSet;
use f77_tree::{ExecKind, Program};

/// The classes that a branch needs: the test of a DO the count alone.
pub(crate) fn branch_need<const W: usize>(
    p: &Program,
    c: &Classes<W>,
    kind: &ExecKind,
) -> ClassSet<W>
    requires width { IsWidth W }
    requires classes { IsClasses p.now c.now }
    requires few { class_count c.now < 64 * W }
    requires executes { CanExecute p.now kind.now }
    ensures { (n : ℕ) → (holds result n ≡ true) ↔ BranchNeeds c.now kind.now n }
{
    match kind {
        ExecKind::DoStart { loop_no, .. } => ClassSet::empty().with(c.of_loop(*loop_no)),
        _ => exec_need(p, c, kind),
    }
}
