//! The elements of arrays (ANSI X3.9-1978, sections 5.1 and 5.4).

ghost use Rattle.std.specs.Prelude.{◌≡◌, ◌≤◌, ◌<◌, ◌^◌, pos, ◌-ℤ◌, ◌≤ℤ◌, true, not, IfSome};
ghost use Rattle.std.specs.Option.{is_some};
ghost use Rattle.f77_tree.specs.Declarations.{offset_of};
ghost use Rattle.layout_rules.specs.Storage.{extent as spec_extent, elements};
ghost use Rattle.layout_rules.specs.StorageFaults.{are_wrong_dims, are_within};

use f77_tree::Dim;

/// An array has at most this many elements.
const MOST_ELEMENTS: u64 = 262_144;

/// The number of elements; a scalar is one. None where a bound lies below the lower one, or there are more elements than an
/// array may have.
pub(crate) fn element_count(dims: &[Dim]) -> Option<u32>
    ensures wrong { is_some result ≡ not (are_wrong_dims dims.now) }
    ensures count { IfSome result (λ count. count ≡ elements dims.now) }
{
    let mut elements: u64 = 1;
    for dim in dims {
        if dim.hi < dim.lo {
            return None;
        }
        elements *= extent(dim);
        if elements > MOST_ELEMENTS {
            return None;
        }
    }
    Some(elements as u32)
}

/// How many subscripts a dimension has.
fn extent(dim: &Dim) -> u64
    ensures extent { result ≡ spec_extent dim.now }
    ensures bound { result ≤ 2 ^ 32 }
{
    if dim.hi < dim.lo {
        return 0;
    }
    (dim.hi as i64 - dim.lo as i64 + 1) as u64
}

/// Whether there are as many subscripts as dimensions, each within its bounds.
pub(crate) fn are_inside(dims: &[Dim], subs: &[i32]) -> bool
    ensures { result ≡ are_within dims.now subs.now }
{
    match (dims.split_first(), subs.split_first()) {
        (Some((dim, dims)), Some((sub, subs))) => {
            dim.lo <= *sub && *sub <= dim.hi && are_inside(dims, subs)
        }
        (None, None) => true,
        _ => false,
    }
}

/// How many elements stand before the one with these subscripts: the first subscript runs fastest.
pub(crate) fn offset(dims: &[Dim], subs: &[i32]) -> u64
    requires inside { are_within dims.now subs.now ≡ true }
    requires few { elements dims.now ≤ 262144 }
    ensures offset { pos result ≡ offset_of dims.now subs.now }
    ensures below { result < elements dims.now }
{
    match (dims.split_first(), subs.split_first()) {
        (Some((dim, dims)), Some((sub, subs))) => {
            steps_up(dim, *sub) + extent(dim) * offset(dims, subs)
        }
        _ => 0,
    }
}

// How far a subscript lies above the lower bound.
fn steps_up(dim: &Dim, sub: i32) -> u64
    requires low { dim.now.lo ≤ℤ sub }
    requires high { sub ≤ℤ dim.now.hi }
    ensures steps { pos result ≡ sub -ℤ dim.now.lo }
    ensures below { result < spec_extent dim.now }
{
    (sub as i64 - dim.lo as i64) as u64
}
