//! Expressions in which temporaries stand for shared candidates.

ghost use Rattle.std.specs.Prelude.{◌≡◌, ◌<◌, map, Option, Some, length, IfOk};
ghost use Rattle.std.specs.Option.{option_and_then};
ghost use Rattle.shared_forms.specs.Numbered.{AreTemporaries, name_alone, number_of, temporary_of};
ghost use Rattle.shared_forms.specs.Shared.{replaced, replaced_access, replaced_in, replaced_item};

use crate::sharing::number;
use df_sequence::{Copied, NoMemory, Sequence};
use f77_tree::{Access, Expr, ExprList, Item, ItemList, Program};
use flat_programs::Flat;
use redundancy::Avail;
use std::alloc::Global;

/// The temporaries of a flat program.
#[derive(Drop)]
pub(crate) struct Temporaries<'a> {
    pub(crate) q: &'a Program,
    pub(crate) a: &'a Avail,
    /// For each candidate the name of its temporary, where it is shared.
    pub(crate) names: &'a [Option<u32>],
}

// ---- expressions

/// The expression with temporaries in place of shared candidates.
#[cycle(replaced)]
pub(crate) fn replace(alloc: Global, t: &Temporaries, e: &Expr) -> Result<Expr, NoMemory>
    requires { AreTemporaries t.now.q.now t.now.a.now t.now.names.now }
    ensures { IfOk result (λ x. x ≡ replaced t.now.q.now t.now.a.now (number_of t.now.a.now) e.now) }
{
    match e {
        Expr::Const(z) => Ok(Expr::Const(*z)),
        Expr::Truth(b) => Ok(Expr::Truth(*b)),
        Expr::Input => Ok(Expr::Input),
        Expr::Read(access) => Ok(Expr::Read(replace_access(alloc, t, access)?)),
        Expr::Apply(op, args) => {
            if let Some(name) = temporary(t, e) {
                return Ok(Expr::Read(scalar(alloc, name)));
            }
            let args = replace_all(alloc, t, args)?;
            Ok(Expr::Apply(*op, args))
        }
    }
}

/// Expressions with temporaries in place of shared candidates.
#[cycle(replaced)]
fn replace_all(alloc: Global, t: &Temporaries, es: &ExprList) -> Result<ExprList, NoMemory>
    requires { AreTemporaries t.now.q.now t.now.a.now t.now.names.now }
    ensures { IfOk result (λ xs. xs ≡ map (replaced t.now.q.now t.now.a.now (number_of t.now.a.now)) es.now) }
{
    let mut all = Sequence::with_capacity(alloc, es.len() as usize)?;
    for e in es.as_slice() {
        all.push(replace(alloc, t, e)?)?;
    }
    Ok(all)
}

/// The access in whose subscripts temporaries stand for shared candidates.
#[cycle(replaced)]
fn replace_access(alloc: Global, t: &Temporaries, access: &Access) -> Result<Access, NoMemory>
    requires { AreTemporaries t.now.q.now t.now.a.now t.now.names.now }
    ensures { IfOk result (λ x. x ≡ replaced_access t.now.q.now t.now.a.now (number_of t.now.a.now) access.now) }
{
    let subs = replace_all(alloc, t, &access.subs)?;
    Ok(Access {
        name: access.name,
        subs,
    })
}

/// The temporary of an expression, where it is a shared candidate.
fn temporary(t: &Temporaries, e: &Expr) -> Option<u32>
    requires { AreTemporaries t.now.q.now t.now.a.now t.now.names.now }
    ensures { result ≡ option_and_then (temporary_of t.now.q.now t.now.a.now) (number_of t.now.a.now e.now) }
{
    match number(t.a, e) {
        None => None,
        Some(n) => name_of(t, n),
    }
}

/// The temporary of a candidate, where it is shared.
pub(crate) fn name_of(t: &Temporaries, n: usize) -> Option<u32>
    requires names { AreTemporaries t.now.q.now t.now.a.now t.now.names.now }
    requires n { n < length t.now.a.now.candidates }
    ensures { result ≡ temporary_of t.now.q.now t.now.a.now n }
{
    t.names[n]
}

/// A name without subscripts.
pub(crate) fn scalar(alloc: Global, name: u32) -> Access
    ensures { result ≡ name_alone name }
{
    Access {
        name,
        subs: Sequence::new(alloc),
    }
}

// ---- statements

/// What is printed, with temporaries in place of shared candidates.
fn replace_items(alloc: Global, t: &Temporaries, items: &ItemList) -> Result<ItemList, NoMemory>
    requires { AreTemporaries t.now.q.now t.now.a.now t.now.names.now }
    ensures { IfOk result (λ xs. xs ≡ map (replaced_item t.now.q.now t.now.a.now (number_of t.now.a.now)) items.now) }
{
    let mut all = Sequence::with_capacity(alloc, items.len() as usize)?;
    for item in items.as_slice() {
        all.push(replace_item(alloc, t, item)?)?;
    }
    Ok(all)
}

fn replace_item(alloc: Global, t: &Temporaries, item: &Item) -> Result<Item, NoMemory>
    requires { AreTemporaries t.now.q.now t.now.a.now t.now.names.now }
    ensures { IfOk result (λ x. x ≡ replaced_item t.now.q.now t.now.a.now (number_of t.now.a.now) item.now) }
{
    match item {
        Item::Value(e) => Ok(Item::Value(replace(alloc, t, e)?)),
        Item::Chars(text) => Ok(Item::Chars(text.copy(alloc)?)),
    }
}

/// The statement with temporaries in place of shared candidates.
pub(crate) fn replace_in(alloc: Global, t: &Temporaries, stmt: &Flat) -> Result<Flat, NoMemory>
    requires { AreTemporaries t.now.q.now t.now.a.now t.now.names.now }
    ensures { IfOk result (λ x. x ≡ replaced_in t.now.q.now t.now.a.now (number_of t.now.a.now) stmt.now) }
{
    match stmt {
        Flat::Mark => Ok(Flat::Mark),
        Flat::Assignment { target, value } => Ok(Flat::Assignment {
            target: replace_access(alloc, t, target)?,
            value: replace(alloc, t, value)?,
        }),
        Flat::Output { items } => Ok(Flat::Output {
            items: replace_items(alloc, t, items)?,
        }),
        Flat::LogicalIf { cond, target } => Ok(Flat::LogicalIf {
            cond: replace(alloc, t, cond)?,
            target: *target,
        }),
        Flat::ArithmeticIf {
            value,
            below,
            at,
            above,
        } => Ok(Flat::ArithmeticIf {
            value: replace(alloc, t, value)?,
            below: *below,
            at: *at,
            above: *above,
        }),
        Flat::ComputedGoTo { value, targets } => Ok(Flat::ComputedGoTo {
            value: replace(alloc, t, value)?,
            targets: targets.copy(alloc)?,
        }),
        Flat::DoLoop {
            end,
            var,
            first,
            last,
            step,
        } => Ok(Flat::DoLoop {
            end: *end,
            var: *var,
            first: replace(alloc, t, first)?,
            last: replace(alloc, t, last)?,
            step: replace(alloc, t, step)?,
        }),
        Flat::Jump { target } => Ok(Flat::Jump { target: *target }),
        Flat::Finish => Ok(Flat::Finish),
    }
}
