//! Which expressions are the same tree.

ghost use Rattle.std.specs.Prelude.{◌≡◌, ◌↔◌, IsTrue};
ghost use Rattle.redundancy.specs.Digests.{digest, digest_of_all, mixed};

use f77_tree::{Expr, ExprList};

/// Whether two expressions are the same tree.
#[cycle(same)]
pub(crate) fn are_same(a: &Expr, b: &Expr) -> bool
    ensures { IsTrue result ↔ (a.now ≡ b.now) }
{
    match (a, b) {
        (Expr::Const(x), Expr::Const(y)) => x == y,
        (Expr::Truth(x), Expr::Truth(y)) => x == y,
        (Expr::Input, Expr::Input) => true,
        (Expr::Read(x), Expr::Read(y)) => x.name == y.name && all_same(&x.subs, &y.subs),
        (Expr::Apply(f, x), Expr::Apply(g, y)) => f == g && all_same(x, y),
        _ => false,
    }
}

#[cycle(same)]
fn all_same(xs: &ExprList, ys: &ExprList) -> bool
    ensures { IsTrue result ↔ (xs.now ≡ ys.now) }
{
    if xs.len() != ys.len() {
        return false;
    }
    let mut k = 0;
    for x in xs.as_slice() {
        if !are_same(x, ys.at(k)) {
            return false;
        }
        k += 1;
    }
    true
}

/// A number for an expression, the same for the same tree. Few different trees share one: operators don't count for it, nor does
/// the sign of a constant.
#[cycle(digest)]
pub(crate) fn digest(e: &Expr) -> u64
    ensures { result ≡ digest e.now }
{
    match e {
        Expr::Const(z) => u64::from(z.unsigned_abs()),
        Expr::Truth(_) => 1,
        Expr::Input => 2,
        Expr::Read(access) => mix(digest_all(&access.subs), u64::from(access.name)),
        Expr::Apply(_, args) => digest_all(args),
    }
}

#[cycle(digest)]
fn digest_all(es: &ExprList) -> u64
    ensures { result ≡ digest_of_all es.now }
{
    let mut all = 3;
    for e in es.as_slice() {
        all = mix(all, digest(e));
    }
    all
}

// An odd number of which no low bits are alike.
const SPREAD: u64 = 0x9e37_79b9_7f4a_7c15;

fn mix(all: u64, next: u64) -> u64
    ensures { result ≡ mixed all next }
{
    all.wrapping_mul(SPREAD).wrapping_add(next)
}
