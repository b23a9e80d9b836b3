//! Statements in a copy.
ghost use Rattle.std.specs.Prelude.{◌≡◌, IfOk, map};
ghost use Rattle.program_units.specs.Copies.{changed_item as changed_item_of, changed_step as changed_step_of, changed_stmt as changed_stmt_of};
ghost use Rattle.inlined_copies.specs.Changes.{changes_of};

use crate::changed::{changed, changed_row};
use crate::unit_table::CopyOf;
use df_sequence::{Boxed, Copied, LabelList, NoMemory, Sequence};
use f77_tree::{RawExpr, RawItem, RawItemList, Stmt};
use std::alloc::Global;

/// The statement with what changes in the copy. Declarations and CALLs stay, and RETURN becomes GO TO.
pub(crate) fn changed_stmt(alloc: Global, c: &CopyOf, stmt: &Stmt) -> Result<Stmt, NoMemory>
    ensures { IfOk result (λ made. made ≡ changed_stmt_of (changes_of c.now) stmt.now) }
{
    match stmt {
        Stmt::Assign(target, value) => Ok(Stmt::Assign(
            changed(alloc, c, target)?,
            changed(alloc, c, value)?,
        )),
        Stmt::Print(items) => Ok(Stmt::Print(changed_items(alloc, c, items)?)),
        Stmt::Take(targets) => Ok(Stmt::Take(changed_row(alloc, c, targets)?)),
        Stmt::GoTo(label) => Ok(Stmt::GoTo(c.jump(*label))),
        Stmt::PickGoTo(labels, value) => Ok(Stmt::PickGoTo(
            changed_labels(alloc, c, labels)?,
            changed(alloc, c, value)?,
        )),
        Stmt::SignIf(value, neg, zero, pos) => {
            let value = changed(alloc, c, value)?;
            Ok(Stmt::SignIf(value, c.jump(*neg), c.jump(*zero), c.jump(*pos)))
        }
        Stmt::ThenIf(cond, stmt) => {
            let cond = changed(alloc, c, cond)?;
            let stmt = changed_stmt(alloc, c, stmt.get())?;
            Ok(Stmt::ThenIf(cond, Boxed::new(alloc, stmt)?))
        }
        Stmt::BlockIf(cond) => Ok(Stmt::BlockIf(changed(alloc, c, cond)?)),
        Stmt::ElseIf(cond) => Ok(Stmt::ElseIf(changed(alloc, c, cond)?)),
        Stmt::Do(label, var, first, last, step) => Ok(Stmt::Do(
            c.end(*label),
            c.name(alloc, var)?,
            changed(alloc, c, first)?,
            changed(alloc, c, last)?,
            changed_step(alloc, c, step)?,
        )),
        Stmt::Back => Ok(Stmt::GoTo(c.back())),
        _ => stmt.copy(alloc),
    }
}

// Items of output.
fn changed_items(alloc: Global, c: &CopyOf, items: &RawItemList) -> Result<RawItemList, NoMemory>
    ensures { IfOk result (λ made. made ≡ map (changed_item_of (changes_of c.now)) items.now) }
{
    let mut made = Sequence::new(alloc);
    for item in items.as_slice() {
        made.push(changed_item(alloc, c, item)?)?;
    }
    Ok(made)
}

// An item of output.
fn changed_item(alloc: Global, c: &CopyOf, item: &RawItem) -> Result<RawItem, NoMemory>
    ensures { IfOk result (λ made. made ≡ changed_item_of (changes_of c.now) item.now) }
{
    match item {
        RawItem::Value(e) => Ok(RawItem::Value(changed(alloc, c, e)?)),
        RawItem::Chars(text) => Ok(RawItem::Chars(text.copy(alloc)?)),
    }
}

// Labels of jumps.
fn changed_labels(alloc: Global, c: &CopyOf, labels: &LabelList) -> Result<LabelList, NoMemory>
    ensures { IfOk result (λ made. made ≡ map (changes_of c.now).jump labels.now) }
{
    let mut made = Sequence::new(alloc);
    for label in labels.as_slice() {
        made.push(c.jump(*label))?;
    }
    Ok(made)
}

// The step of a DO, if it has one.
fn changed_step(
    alloc: Global,
    c: &CopyOf,
    step: &Option<RawExpr>,
) -> Result<Option<RawExpr>, NoMemory>
    ensures { IfOk result (λ made. made ≡ changed_step_of (changes_of c.now) step.now) }
{
    match step {
        None => Ok(None),
        Some(e) => Ok(Some(changed(alloc, c, e)?)),
    }
}
