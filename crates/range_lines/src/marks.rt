//! The subscripts of an executable, one after another, and whether each is seen in range.

ghost use Rattle.std.specs.Prelude.{◌≡◌, ◌&&◌, ◌≤◌, ◌^◌, unsigned_abs, ◌++◌, All, map, flat_map, OnOk, IfOk};
ghost use Rattle.f77_tree.specs.CanRun.{CanExecute, CanPrint};
ghost use Rattle.f77_tree.specs.Value.{IsExpression, IsAccess};
ghost use Rattle.loop_ranges.specs.Subscripts.{item_subscripts};
ghost use Rattle.range_lines.specs.Marks.{is_seen as spec_is_seen, lies_at as spec_lies_at, flags, exec_flags};
ghost use Rattle.range_lines.specs.Shapes.{shape_at, lies_in};

use crate::flags::Flags;
use crate::reaches::Reach;
use crate::shapes::{Shape, lies_inside, shape_of};
use df_sequence::NoMemory;
use f77_tree::{Access, Dim, ExecKind, Expr, ExprList, Item, ItemList, NameInfoList, Program};
use op_table::Op;
use std::alloc::Global;

/// Whether each subscript of the executable k is seen in range, in the order in which they are checked. Of each name `current` tells
/// how far the last DO before k reaches whose variable it is.
pub(crate) fn row_of(
    alloc: Global,
    p: &Program,
    current: &[Option<Reach>],
    k: u32,
    kind: &ExecKind,
) -> Result<Flags, NoMemory>
    requires { CanExecute p.now kind.now }
    ensures { IfOk result (λ row. row ≡ exec_flags p.now.names current.now k kind.now) }
{
    let mut row = Flags::new(alloc);
    mark_exec(p, current, k, kind, &mut row)?;
    Ok(row)
}

fn mark_exec(
    p: &Program,
    current: &[Option<Reach>],
    k: u32,
    kind: &ExecKind,
    row: &mut Flags,
) -> Result<(), NoMemory>
    requires { CanExecute p.now kind.now }
    ensures { OnOk result (row.new ≡ row.old ++ exec_flags p.now.names current.now k kind.now) }
{
    match kind {
        ExecKind::Assign { target, value, .. } => {
            mark_access(&p.names, current, k, target, row)?;
            mark(&p.names, current, k, value, row)
        }
        ExecKind::Print { items, .. } => mark_items(&p.names, current, k, items, row),
        ExecKind::Test { cond: e, .. } => mark(&p.names, current, k, e, row),
        ExecKind::Sign { value: e, .. } => mark(&p.names, current, k, e, row),
        ExecKind::Pick { value: e, .. } => mark(&p.names, current, k, e, row),
        ExecKind::DoStart {
            first,
            last,
            step,
            ..
        } => {
            mark(&p.names, current, k, first, row)?;
            mark(&p.names, current, k, last, row)?;
            mark(&p.names, current, k, step, row)
        }
        ExecKind::Pass { .. } => Ok(()),
        ExecKind::DoNext { .. } => Ok(()),
        ExecKind::End => Ok(()),
    }
}

fn mark_items(
    names: &NameInfoList,
    current: &[Option<Reach>],
    k: u32,
    items: &ItemList,
    row: &mut Flags,
) -> Result<(), NoMemory>
    requires { All (CanPrint names.now) items.now }
    ensures { OnOk result (row.new ≡ row.old ++ map (spec_is_seen current.now k) (flat_map (item_subscripts names.now) items.now)) }
{
    for item in items.as_slice() {
        mark_item(names, current, k, item, row)?;
    }
    Ok(())
}

fn mark_item(
    names: &NameInfoList,
    current: &[Option<Reach>],
    k: u32,
    item: &Item,
    row: &mut Flags,
) -> Result<(), NoMemory>
    requires { CanPrint names.now item.now }
    ensures { OnOk result (row.new ≡ row.old ++ map (spec_is_seen current.now k) (item_subscripts names.now item.now)) }
{
    match item {
        Item::Value(e) => mark(names, current, k, e, row),
        Item::Chars(_) => Ok(()),
    }
}

// The subscripts in an expression.
#[cycle(marking)]
fn mark(
    names: &NameInfoList,
    current: &[Option<Reach>],
    k: u32,
    e: &Expr,
    row: &mut Flags,
) -> Result<(), NoMemory>
    requires { IsExpression names.now e.now }
    ensures { OnOk result (row.new ≡ row.old ++ flags names.now current.now k e.now) }
{
    match e {
        Expr::Read(access) => {
            access_fits(names, e, access);
            mark_access(names, current, k, access, row)
        }
        Expr::Apply(op, args) => {
            operands_fit(names, e, *op, args);
            mark_all(names, current, k, args, row)
        }
        Expr::Const(_) => Ok(()),
        Expr::Truth(_) => Ok(()),
        Expr::Input => Ok(()),
    }
}

#[cycle(marking)]
fn mark_all(
    names: &NameInfoList,
    current: &[Option<Reach>],
    k: u32,
    es: &ExprList,
    row: &mut Flags,
) -> Result<(), NoMemory>
    requires { All (IsExpression names.now) es.now }
    ensures { OnOk result (row.new ≡ row.old ++ flat_map (flags names.now current.now k) es.now) }
{
    for e in es.as_slice() {
        mark(names, current, k, e, row)?;
    }
    Ok(())
}

// The subscripts of an access: those in each before it.
#[cycle(marking)]
fn mark_access(
    names: &NameInfoList,
    current: &[Option<Reach>],
    k: u32,
    access: &Access,
    row: &mut Flags,
) -> Result<(), NoMemory>
    requires { IsAccess names.now access.now }
    ensures { OnOk result (row.new ≡ row.old ++ flags names.now current.now k (Expr.Read access.now)) }
{
    let dims = names.at(access.name).dims.as_slice();
    let mut at = 0;
    for sub in access.subs.as_slice() {
        mark(names, current, k, sub, row)?;
        row.push(is_seen(names, current, k, sub, dims[at]))?;
        at += 1;
    }
    Ok(())
}

/// Whether a subscript of this dimension, in the executable k, is seen in range.
pub(crate) fn is_seen(
    names: &NameInfoList,
    current: &[Option<Reach>],
    k: u32,
    sub: &Expr,
    dim: Dim,
) -> bool
    requires { IsExpression names.now sub.now }
    ensures { result ≡ spec_is_seen current.now k (record { sub = sub.now; dim = dim }) }
{
    match shape_of(names, sub) {
        Some(shape) => lies_at(k, shape, dim, current.get(shape.variable as usize).copied()),
        None => false,
    }
}

fn lies_at(k: u32, shape: Shape, dim: Dim, reach: Option<Option<Reach>>) -> bool
    requires { unsigned_abs shape.constant ≤ 2 ^ 31 }
    ensures { result ≡ spec_lies_at k shape dim reach }
{
    match reach {
        Some(Some(reach)) => k < reach.next && ends_inside(shape, dim, reach),
        _ => false,
    }
}

// Whether the numbers of the shape for the first and the last value lie within the bounds.
fn ends_inside(shape: Shape, dim: Dim, reach: Reach) -> bool
    requires { unsigned_abs shape.constant ≤ 2 ^ 31 }
    ensures { result ≡ (lies_in dim (shape_at shape reach.first) && lies_in dim (shape_at shape reach.last)) }
{
    if !lies_inside(dim, shape, reach.first) {
        return false;
    }
    lies_inside(dim, shape, reach.last)
}

/// What an expression that fits the table of names reads is an access of the table.
pub(crate) fn access_fits(names: &NameInfoList, e: &Expr, a: &Access)
    requires form { e.now ≡ Expr.Read a.now }
    requires expression { IsExpression names.now e.now }
    ensures { IsAccess names.now a.now }
{}

// The operands in an expression that fits the table of names fit it too.
fn operands_fit(names: &NameInfoList, e: &Expr, op: Op, args: &ExprList)
    requires form { e.now ≡ Expr.Apply op args.now }
    requires expression { IsExpression names.now e.now }
    ensures { All (IsExpression names.now) args.now }
{}
