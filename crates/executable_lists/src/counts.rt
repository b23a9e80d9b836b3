//! How much a program and each of its statements may ask.
ghost use Rattle.std.specs.Prelude.{◌≡◌, ◌≤◌, ◌&&◌, ◌||◌, Bool, length, nat_le, nat_lt, sum_by};
ghost use Rattle.f77_tree.specs.Kinds.{taken_as};
ghost use Rattle.f77_tree.specs.Operations.{operations};
ghost use Rattle.control_structure.specs.Counted.{counted};
ghost use Rattle.layout_rules.specs.LowestLines.{lowest_line};
ghost use Rattle.layout_rules.specs.Counts.{is_too_great, labels_picked as labels_picked_in, items_taken as items_taken_in};
ghost use Rattle.control_structure.specs.OwnOperations.{own_operations, printed_operations, target_operations};
ghost use Rattle.layout_rules.specs.Executables.{kind_or_integer};
ghost use Rattle.layout_rules.specs.Resolved.{resolved_step};

use crate::operations::{access_operations_of, operations_of};
use declared_names::kind_of;
use f77_tree::{Kind, Labelled, RawExpr, RawItem, RawItemList, RawList, Stmt};
use layout_rules::with_line;
use symbol_table::Names;

/// The lowest line of a statement that takes more than 500 operations, or up to and with which there are more than 4,000
/// labels in computed GO TO, or with which the items of READ become more than 4,000: the same in either dialect.
pub fn lowest_too_great(names: &Names, stmts: &[Labelled]) -> Option<u32>
    requires { length stmts.now ≤ 4000 }
    ensures { (checked : Bool) → result ≡ lowest_line (is_too_great names.now checked stmts.now) stmts.now }
{
    let mut lowest = None;
    let mut labels = 0_u64;
    let mut items = 0_u64;
    for s in stmts {
        let above = items;
        labels += u64::from(labels_picked(&s.stmt));
        items += u64::from(items_taken(&s.stmt));
        let faulty = are_too_many(own_operations_of(names, &s.stmt), labels, above, items);
        lowest = with_line(lowest, s.line, faulty);
    }
    lowest
}

/// Whether a statement takes too many operations, or there are too many labels up to and with it, or too many items of READ with
/// it, but not above it.
fn are_too_many(operations: u32, labels: u64, above: u64, items: u64) -> bool
    ensures { result ≡ (nat_lt 500 operations || nat_lt 4000 labels || (nat_le above 4000 && nat_lt 4000 items)) }
{
    operations > 500 || labels > 4000 || (above <= 4000 && items > 4000)
}

/// The operations of a statement, without the increments of the DOs that end at it: as many in either dialect. A count that
/// fits no `u32` is the greatest `u32`.
fn own_operations_of(names: &Names, stmt: &Stmt) -> u32
    ensures { (checked : Bool) → result ≡ counted (own_operations names.now checked stmt.now) }
{
    match stmt {
        Stmt::Assign(target, value) => {
            access_operations_of(names, target).saturating_add(operations_of(names, value))
        }
        Stmt::Print(items) => operations_of_items(names, items),
        Stmt::Take(targets) => operations_of_targets(names, targets),
        Stmt::PickGoTo(_, e) | Stmt::SignIf(e, _, _, _) | Stmt::BlockIf(e) | Stmt::ElseIf(e) => {
            operations_of(names, e).saturating_add(1)
        }
        Stmt::ThenIf(condition, inner) => operations_of(names, condition)
            .saturating_add(1)
            .saturating_add(own_operations_of(names, inner.get())),
        Stmt::Do(_, _, first, last, step) => operations_of(names, first)
            .saturating_add(operations_of(names, last))
            .saturating_add(operations_of_step(names, step))
            .saturating_add(4),
        _ => 0,
    }
}

/// The operations of items of output, counted likewise.
fn operations_of_items(names: &Names, items: &RawItemList) -> u32
    ensures { (checked : Bool) → result ≡ counted (sum_by (printed_operations names.now checked) items.now) }
{
    let mut count = 0_u32;
    for item in items.as_slice() {
        count = count.saturating_add(operations_of_item(names, item));
    }
    count
}

fn operations_of_item(names: &Names, item: &RawItem) -> u32
    ensures { (checked : Bool) → result ≡ counted (printed_operations names.now checked item.now) }
{
    match item {
        RawItem::Value(e) => operations_of(names, e).saturating_add(1),
        RawItem::Chars(_) => 1,
    }
}

/// The operations of the targets of READ, counted likewise.
fn operations_of_targets(names: &Names, targets: &RawList) -> u32
    ensures { (checked : Bool) → result ≡ counted (sum_by (target_operations names.now checked) targets.now) }
{
    let mut count = 0_u32;
    for target in targets.as_slice() {
        count = count.saturating_add(operations_of_target(names, target));
    }
    count
}

fn operations_of_target(names: &Names, target: &RawExpr) -> u32
    ensures { (checked : Bool) → result ≡ counted (target_operations names.now checked target.now) }
{
    let taken = operations_of_taken(kind_of(names, target));
    access_operations_of(names, target).saturating_add(taken)
}

/// The operations of the next word of the data, as a target of this kind takes it.
fn operations_of_taken(kind: Option<Kind>) -> u32
    ensures { result ≡ operations (taken_as (kind_or_integer kind)) }
{
    match kind {
        None | Some(Kind::Integer) => 1,
        Some(Kind::Logical) => 2,
    }
}

/// The operations of the step of a DO, counted likewise.
fn operations_of_step(names: &Names, step: &Option<RawExpr>) -> u32
    ensures { (checked : Bool) → result ≡ counted (operations (resolved_step names.now checked step.now)) }
{
    match step {
        None => 0,
        Some(e) => operations_of(names, e),
    }
}

/// How many labels stand in the computed GO TO of a statement.
fn labels_picked(stmt: &Stmt) -> u32
    ensures { result ≡ labels_picked_in stmt.now }
{
    match stmt {
        Stmt::PickGoTo(labels, _) => labels.len(),
        Stmt::ThenIf(_, inner) => labels_picked(inner.get()),
        _ => 0,
    }
}

/// How many items READ takes in a statement.
fn items_taken(stmt: &Stmt) -> u32
    ensures { result ≡ items_taken_in stmt.now }
{
    match stmt {
        Stmt::Take(targets) => targets.len(),
        Stmt::ThenIf(_, inner) => items_taken(inner.get()),
        _ => 0,
    }
}
