//! Names of two units that have the same kind and the same dimensions.
ghost use Rattle.std.specs.Prelude.{◌≡◌, slice_get};
ghost use Rattle.std.specs.Ordering.{int_eq};
ghost use Rattle.declared_names.specs.KeptDeclarations.{said_by};
ghost use Rattle.program_units.specs.Refusals.{are_same_dims as are_same_dims_of, is_same_dim as is_same_dim_of, is_same_kind as is_same_kind_of};
ghost use Rattle.unit_checks.specs.Alike.{are_alike_told, are_both, is_alike_told};

use declared_names::NameDeclarations;
use f77_tree::{Dim, Kind, Name};

/// Whether these names of a unit and those of another are as many, and have the same kinds and dimensions, one by one.
pub(crate) fn are_alike(
    u: &NameDeclarations,
    v: &NameDeclarations,
    xs: &[Name],
    ys: &[Name],
) -> bool
    ensures { result ≡ are_alike_told (said_by u.now) (said_by v.now) xs.now ys.now }
{
    for i in 0..xs.len() {
        if !is_alike_at(u, v, xs, ys, i) {
            return false;
        }
    }
    xs.len() == ys.len()
}

// Whether both have a name at the index, and these are alike.
fn is_alike_at(
    u: &NameDeclarations,
    v: &NameDeclarations,
    xs: &[Name],
    ys: &[Name],
    i: usize,
) -> bool
    ensures { result ≡ are_both (is_alike_told (said_by u.now) (said_by v.now)) (slice_get xs.now i) (slice_get ys.now i) }
{
    match (xs.get(i), ys.get(i)) {
        (Some(x), Some(y)) => is_alike(u, v, x, y),
        _ => false,
    }
}

// Whether a name of a unit has the kind and the dimensions of a name of another.
fn is_alike(u: &NameDeclarations, v: &NameDeclarations, x: &Name, y: &Name) -> bool
    ensures { result ≡ is_alike_told (said_by u.now) (said_by v.now) x.now y.now }
{
    is_same_kind(u.kind(x), v.kind(y)) && are_same_dims(u.dims(x), v.dims(y))
}

// Whether the first kind is there, and is the other.
fn is_same_kind(a: Option<Kind>, b: Option<Kind>) -> bool
    ensures { result ≡ is_same_kind_of a b }
{
    match (a, b) {
        (Some(kind), Some(other)) => kind == other,
        _ => false,
    }
}

// Whether the dimensions are the same, with the same bounds.
fn are_same_dims(a: &[Dim], b: &[Dim]) -> bool
    ensures { result ≡ are_same_dims_of a.now b.now }
{
    for i in 0..a.len() {
        if !is_same_dim_at(a, b, i) {
            return false;
        }
    }
    a.len() == b.len()
}

// Whether both have a dimension at the index, and these have the same bounds.
fn is_same_dim_at(a: &[Dim], b: &[Dim], i: usize) -> bool
    ensures { result ≡ are_both is_same_dim_of (slice_get a.now i) (slice_get b.now i) }
{
    match (a.get(i), b.get(i)) {
        (Some(x), Some(y)) => is_same_dim(x, y),
        _ => false,
    }
}

// Whether two dimensions have the same bounds.
fn is_same_dim(a: &Dim, b: &Dim) -> bool
    ensures { result ≡ is_same_dim_of a.now b.now }
{
    is_same(a.lo, b.lo) && is_same(a.hi, b.hi)
}

fn is_same(a: i32, b: i32) -> bool
    ensures { result ≡ int_eq a b }
{
    a == b
}
