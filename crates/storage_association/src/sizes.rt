ghost use Rattle.std.specs.Prelude.{◌≡◌, ◌≤◌, ◌^◌};
ghost use Rattle.layout_rules.specs.Storage.{distance_of, extent, size_of, subscripts_before, too_many};

use f77_tree::Dim;

/// More words than any array without fault has.
const TOO_MANY: u64 = 262_145;

/// How many words a name of these dimensions has, up to 262,145.
pub(crate) fn size_of(dims: &[Dim]) -> u32
    ensures { result ≡ size_of dims.now }
{
    let mut size: u64 = 1;
    for dim in dims {
        size = (size * extent(*dim)).min(TOO_MANY);
    }
    size as u32
}

/// How many words an element lies after the first one of its array, up to 262,145.
pub(crate) fn distance_of(dims: &[Dim], subs: &[i32]) -> u32
    ensures value { result ≡ distance_of dims.now subs.now }
    ensures within { result ≤ too_many }
{
    match dims {
        [] => 0,
        [dim, dims @ ..] => match subs {
            [] => 0,
            [sub, subs @ ..] => {
                let others = u64::from(distance_of(dims, subs));
                let distance = subscripts_before(*dim, *sub) + extent(*dim) * others;
                distance.min(TOO_MANY) as u32
            }
        },
    }
}

// How many subscripts a dimension has.
fn extent(dim: Dim) -> u64
    ensures value { result ≡ extent dim }
    ensures within { result ≤ 2 ^ 32 }
{
    if dim.hi < dim.lo {
        0
    } else {
        (i64::from(dim.hi) - i64::from(dim.lo) + 1) as u64
    }
}

// How many subscripts of the dimension stand before this one.
fn subscripts_before(dim: Dim, sub: i32) -> u64
    ensures value { result ≡ subscripts_before dim sub }
    ensures within { result ≤ 2 ^ 32 }
{
    if sub < dim.lo {
        0
    } else {
        (i64::from(sub) - i64::from(dim.lo)) as u64
    }
}
