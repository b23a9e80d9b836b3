//! How many operators a program has: it has no more different candidates.

use f77_tree::{ExecKind, Expr, ExprList, Item, ItemList, Program};

/// How many operators stand in the expressions of a program; more than a number of 32 bits counts are as many as it counts.
pub(crate) fn operator_count(p: &Program) -> u32 {
    let mut count: u32 = 0;
    for exec in p.execs.as_slice() {
        count = count.saturating_add(in_exec(&exec.kind));
    }
    count
}

// How many stand in the expressions of an executable.
fn in_exec(kind: &ExecKind) -> u32 {
    match kind {
        ExecKind::Assign { target, value, .. } => in_all(&target.subs).saturating_add(in_expr(
            value,
        )),
        ExecKind::Print { items, .. } => in_items(items),
        ExecKind::Test { cond, .. } => in_expr(cond),
        ExecKind::Sign { value, .. } | ExecKind::Pick { value, .. } => in_expr(value),
        ExecKind::DoStart {
            first,
            last,
            step,
            ..
        } => in_expr(first)
            .saturating_add(in_expr(last))
            .saturating_add(in_expr(step)),
        _ => 0,
    }
}

// How many stand in what is printed.
fn in_items(items: &ItemList) -> u32 {
    let mut count: u32 = 0;
    for item in items.as_slice() {
        if let Item::Value(e) = item {
            count = count.saturating_add(in_expr(e));
        }
    }
    count
}

// How many stand in an expression.
#[cycle(operators)]
fn in_expr(e: &Expr) -> u32 {
    match e {
        Expr::Read(access) => in_all(&access.subs),
        Expr::Apply(_, args) => in_all(args).saturating_add(1),
        _ => 0,
    }
}

#[cycle(operators)]
fn in_all(es: &ExprList) -> u32 {
    let mut count: u32 = 0;
    for e in es.as_slice() {
        count = count.saturating_add(in_expr(e));
    }
    count
}
