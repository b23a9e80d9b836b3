//! Executables that trap whenever they are executed.

ghost use Rattle.std.specs.Prelude.{◌≡◌, All, map};
ghost use Rattle.f77_tree.specs.CanRun.{CanExecute, CanPrint};
ghost use Rattle.f77_tree.specs.Value.{IsExpression};
ghost use Rattle.sure_traps.specs.Causes.{cause_of as cause_of_kind, first_some, item_cause as item_cause_of, step_cause as step_cause_of};

use crate::Cause;
use crate::causes::operator_cause;
use crate::expressions::{access_cause, see};
use f77_tree::{ExecKind, Expr, Item, NameInfoList, Program};
use op_table::Op;

/// Why an executable traps whenever it is executed, where constants make that sure.
pub fn cause_of(p: &Program, kind: &ExecKind) -> Option<Cause>
    requires { CanExecute p.now kind.now }
    ensures { result ≡ cause_of_kind p.now.names kind.now }
{
    let names = &p.names;
    match kind {
        ExecKind::Assign { target, value, .. } => {
            access_cause(names, target).or(see(names, value).cause)
        }
        ExecKind::Print { items, .. } => items_cause(names, items.as_slice()),
        ExecKind::Test { cond: e, .. }
        | ExecKind::Sign { value: e, .. }
        | ExecKind::Pick { value: e, .. } => see(names, e).cause,
        ExecKind::DoStart {
            first,
            last,
            step,
            ..
        } => see(names, first)
            .cause
            .or(see(names, last).cause.or(step_cause(names, step))),
        ExecKind::Pass { .. } | ExecKind::DoNext { .. } | ExecKind::End => None,
    }
}

// Why the step of a DO traps: by itself, or since it is 0.
fn step_cause(names: &NameInfoList, step: &Expr) -> Option<Cause>
    requires { IsExpression names.now step.now }
    ensures { result ≡ step_cause_of names.now step.now }
{
    let sight = see(names, step);
    sight.cause.or(operator_cause(Op::Step, &[sight.value]))
}

// Why the first of the items that traps does.
fn items_cause(names: &NameInfoList, items: &[Item]) -> Option<Cause>
    requires { All (CanPrint names.now) items.now }
    ensures { result ≡ first_some (map (item_cause_of names.now) items.now) }
{
    for item in items {
        let cause = item_cause(names, item);
        if cause.is_some() {
            return cause;
        }
    }
    None
}

// Why an item of output traps.
fn item_cause(names: &NameInfoList, item: &Item) -> Option<Cause>
    requires { CanPrint names.now item.now }
    ensures { result ≡ item_cause_of names.now item.now }
{
    match item {
        Item::Value(e) => see(names, e).cause,
        Item::Chars(_) => None,
    }
}
