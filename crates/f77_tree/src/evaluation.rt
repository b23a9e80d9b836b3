ghost use Rattle.std.specs.Prelude.{◌≡◌, ◌<ℤ◌, ◌≤ℤ◌, pos, length};
ghost use Rattle.f77_tree.specs.Value.{value, place, moved, read_as, extent, IsExpression, IsAccess, ArePlaced};

use crate::{Access, Dim, Expr, Kind, NameInfoList};
use op_table::{Op, Trap, apply};

// No operator takes more operands.
const MOST_OPERANDS: usize = 3;

/// The value of an expression over a store and the next word of the data, if there is one: operands are evaluated from
/// left to right, and the first trap is the answer (ANSI X3.9-1978, section 6; the order is this compiler's choice).
/// `Input` is the next word of the data, and traps where there is none. It takes no memory.
#[cycle(evaluation)]
pub fn evaluate(
    e: &Expr,
    names: &NameInfoList,
    store: &[i32],
    next: Option<i32>,
) -> Result<i32, Trap>
    requires expression { IsExpression names.now e.now }
    requires places { ArePlaced names.now (length store.now) }
    ensures { result ≡ value names.now store.now next e.now }
{
    match e {
        Expr::Const(z) => Ok(*z),
        Expr::Truth(b) => Ok(i32::from(*b)),
        Expr::Input => next.ok_or(Trap::Input),
        Expr::Read(access) => {
            let word = locate(access, names, store, next)?;
            Ok(read(names.at(access.name).kind, store[word as usize]))
        }
        Expr::Apply(op, args) => {
            let mut operands = [0; MOST_OPERANDS];
            let mut count = 0;
            for arg in args.as_slice() {
                operands[count] = evaluate(arg, names, store, next)?;
                count += 1;
            }
            apply(*op, &operands[..count])
        }
    }
}

/// The word of the store that an access names. Its subscripts are evaluated and checked one after another, from left to
/// right (ANSI X3.9-1978, section 5.4). It takes no memory.
#[cycle(evaluation)]
#[inline(always)]
pub fn locate(
    access: &Access,
    names: &NameInfoList,
    store: &[i32],
    next: Option<i32>,
) -> Result<u32, Trap>
    requires access { IsAccess names.now access.now }
    requires places { ArePlaced names.now (length store.now) }
    ensures { result ≡ place names.now store.now next access.now }
{
    let info = names.at(access.name);
    let dims = info.dims.as_slice();
    let mut word = info.place as i32;
    let mut size = 1;
    let mut k = 0;
    for sub in access.subs.as_slice() {
        let v = evaluate(sub, names, store, next)?;
        let dim = &dims[k];
        word = shift(size, dim, word, v)?;
        size *= width(dim);
        k += 1;
    }
    Ok(word as u32)
}

// A word, moved by a subscript of a dimension of which each part has so many words.
fn shift(size: i32, dim: &Dim, word: i32, v: i32) -> Result<i32, Trap>
    ensures { result ≡ moved size dim.now word v }
{
    let d = apply(Op::Bound, &[v, dim.lo, dim.hi])?;
    apply(Op::Place, &[word, d, size])
}

// How many subscripts a dimension has.
fn width(dim: &Dim) -> i32
    requires order { dim.now.lo ≤ℤ dim.now.hi }
    requires few { extent dim.now <ℤ pos 2147483648 }
    ensures { result ≡ extent dim.now }
{
    dim.hi - dim.lo + 1
}

// A word as a name of this kind is read.
fn read(kind: Kind, z: i32) -> i32
    ensures { result ≡ read_as kind z }
{
    match kind {
        Kind::Integer => z,
        Kind::Logical => i32::from(z != 0),
    }
}
