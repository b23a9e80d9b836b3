//! The classes that executables need.

ghost use Rattle.std.specs.Prelude.{◌≡◌, ◌<◌, ◌*◌, ◌↔◌, ℕ, true, length, Any, All};
ghost use Rattle.class_set.specs.ClassSet.{holds};
ghost use Rattle.class_set.specs.Members.{IsWidth};
ghost use Rattle.f77_tree.specs.CanRun.{CanExecute, CanPrint};
ghost use Rattle.f77_tree.specs.Value.{place_of};
ghost use Rattle.alias_classes.specs.Classes.{IsClasses, class_count};
ghost use Rattle.alias_classes.specs.Needs.{ItemNeeds, ExecNeeds, IsOfLoop};

use crate::classes::Classes;
use class_set::ClassSet;
use f77_tree::{ExecKind, Item, ItemList, Program};

/// The classes that an executable needs: those that the accesses in it need, the target of an assignment included, and those of the DO
/// that it begins or increments.
pub fn exec_need<const W: usize>(p: &Program, c: &Classes<W>, kind: &ExecKind) -> ClassSet<W>
    requires width { IsWidth W }
    requires classes { IsClasses p.now c.now }
    requires few { class_count c.now < 64 * W }
    requires executes { CanExecute p.now kind.now }
    ensures { (n : ℕ) → (holds result n ≡ true) ↔ ExecNeeds c.now kind.now n }
{
    match kind {
        ExecKind::Assign { target, value, .. } => c.need(target).union(&c.expr_need(value)),
        ExecKind::Print { items, .. } => items_need(p, c, items),
        ExecKind::Test { cond: e, .. }
        | ExecKind::Sign { value: e, .. }
        | ExecKind::Pick { value: e, .. } => c.expr_need(e),
        ExecKind::DoStart {
            loop_no,
            var,
            first,
            last,
            step,
            ..
        } => {
            let bounds = c.expr_need(first).union(&c.expr_need(last));
            bounds
                .union(&c.expr_need(step))
                .union(&loop_need(p, c, *loop_no, *var))
        }
        ExecKind::DoNext { loop_no, var, .. } => loop_need(p, c, *loop_no, *var),
        ExecKind::Pass { .. } | ExecKind::End => ClassSet::empty(),
    }
}

// The classes of a DO's variable, and of its count and step.
fn loop_need<const W: usize>(p: &Program, c: &Classes<W>, loop_no: u32, var: u32) -> ClassSet<W>
    requires width { IsWidth W }
    requires classes { IsClasses p.now c.now }
    requires few { class_count c.now < 64 * W }
    requires number { loop_no < p.now.loops }
    requires name { var < length p.now.names }
    requires word { place_of p.now.names var < p.now.words }
    ensures { (n : ℕ) → (holds result n ≡ true) ↔ IsOfLoop c.now loop_no var n }
{
    let variable = c.of_word(p.names.at(var).place);
    ClassSet::empty().with(variable).with(c.of_loop(loop_no))
}

// The classes that items of output need.
fn items_need<const W: usize>(p: &Program, c: &Classes<W>, items: &ItemList) -> ClassSet<W>
    requires width { IsWidth W }
    requires classes { IsClasses p.now c.now }
    requires items { All (CanPrint p.now.names) items.now }
    ensures { (n : ℕ) → (holds result n ≡ true) ↔ Any (λ item. ItemNeeds c.now item n) items.now }
{
    let mut set = ClassSet::empty();
    for item in items.as_slice() {
        set = set.union(&item_need(p, c, item));
    }
    set
}

// The classes that an item of output needs.
fn item_need<const W: usize>(p: &Program, c: &Classes<W>, item: &Item) -> ClassSet<W>
    requires width { IsWidth W }
    requires classes { IsClasses p.now c.now }
    requires fits { CanPrint p.now.names item.now }
    ensures { (n : ℕ) → (holds result n ≡ true) ↔ ItemNeeds c.now item.now n }
{
    match item {
        Item::Value(e) => c.expr_need(e),
        Item::Chars(_) => ClassSet::empty(),
    }
}
