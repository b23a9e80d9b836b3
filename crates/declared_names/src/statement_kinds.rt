//! Statements whose expressions have the kinds that their places ask for.

ghost use Rattle.std.specs.List.{list_all};
ghost use Rattle.std.specs.Prelude.{◌≡◌, ◌&&◌, not};
ghost use Rattle.f77_tree.specs.declared.declarations.Kind.TheVariants.{Integer};
ghost use Rattle.layout_rules.specs.Types.{is_well_kinded as spec_is_well_kinded, is_kind_of_target as spec_is_kind_of_target, is_step as spec_is_step, is_item as spec_is_item, is_target as spec_is_target, is_variable as spec_is_variable, is_of_kind as spec_is_of_kind, kind_named, is_array_in, kind_in, is_kind as spec_is_kind};

use crate::kinds::{is_array, is_kind, kind_of};
use f77_tree::{Kind, Name, RawExpr, RawItem, Stmt};
use symbol_table::Names;

/// Whether the expressions of a statement have the kinds that their places ask for (ANSI X3.9-1978, sections 10 to 12).
pub(crate) fn is_well_kinded(names: &Names, stmt: &Stmt) -> bool
    ensures { result ≡ spec_is_well_kinded names.now stmt.now }
{
    match stmt {
        Stmt::Assign(target, value) => is_assignment(names, target, value),
        Stmt::Print(items) => are_items(names, items.as_slice()),
        Stmt::Take(targets) => are_targets(names, targets.as_slice()),
        Stmt::PickGoTo(_, index) => is_of_kind(names, Kind::Integer, index),
        Stmt::SignIf(value, _, _, _) => is_of_kind(names, Kind::Integer, value),
        Stmt::ThenIf(condition, inner) => {
            is_of_kind(names, Kind::Logical, condition) && is_well_kinded(names, inner.get())
        }
        Stmt::BlockIf(condition) | Stmt::ElseIf(condition) => {
            is_of_kind(names, Kind::Logical, condition)
        }
        Stmt::Do(_, variable, first, last, step) => {
            is_integer_scalar(names, variable)
                && is_of_kind(names, Kind::Integer, first)
                && is_of_kind(names, Kind::Integer, last)
                && is_step(names, step)
        }
        _ => true,
    }
}

// Whether an expression has this kind.
fn is_of_kind(names: &Names, kind: Kind, e: &RawExpr) -> bool
    ensures { result ≡ spec_is_of_kind names.now kind e.now }
{
    is_kind(kind, kind_of(names, e))
}

// Whether the value of an assignment has the kind of its target.
fn is_assignment(names: &Names, target: &RawExpr, value: &RawExpr) -> bool
    ensures { result ≡ (spec_is_variable names.now target.now
        && spec_is_kind_of_target (kind_in names.now target.now) (kind_in names.now value.now)) }
{
    if !is_variable(names, target) {
        return false;
    }
    match kind_of(names, target) {
        None => false,
        Some(kind) => is_of_kind(names, kind, value),
    }
}

// Whether an expression is a variable or an element of an array.
fn is_variable(names: &Names, e: &RawExpr) -> bool
    ensures { result ≡ spec_is_variable names.now e.now }
{
    match e {
        RawExpr::Named(_) => true,
        RawExpr::Call(name, _) => is_array(names, name),
        _ => false,
    }
}

// Whether each item of a PRINT has a kind.
fn are_items(names: &Names, items: &[RawItem]) -> bool
    ensures { result ≡ list_all (spec_is_item names.now) items.now }
{
    items.iter().all(|item| is_item(names, item))
}

fn is_item(names: &Names, item: &RawItem) -> bool
    ensures { result ≡ spec_is_item names.now item.now }
{
    match item {
        RawItem::Value(e) => kind_of(names, e).is_some(),
        RawItem::Chars(_) => true,
    }
}

// Whether each expression can be given a value by a READ.
fn are_targets(names: &Names, targets: &[RawExpr]) -> bool
    ensures { result ≡ list_all (spec_is_target names.now) targets.now }
{
    targets.iter().all(|target| is_target(names, target))
}

fn is_target(names: &Names, e: &RawExpr) -> bool
    ensures { result ≡ spec_is_target names.now e.now }
{
    is_variable(names, e) && kind_of(names, e).is_some()
}

// Whether the step of a DO, if it has one, is an integer.
fn is_step(names: &Names, step: &Option<RawExpr>) -> bool
    ensures { result ≡ spec_is_step names.now step.now }
{
    match step {
        None => true,
        Some(e) => is_of_kind(names, Kind::Integer, e),
    }
}

// Whether a name can be the variable of a DO.
fn is_integer_scalar(names: &Names, name: &Name) -> bool
    ensures { result ≡ (not (is_array_in names.now name.now) && spec_is_kind Integer (Some (kind_named names.now name.now))) }
{
    if is_array(names, name) {
        return false;
    }
    names.kind(names.index(name)) == Kind::Integer
}
