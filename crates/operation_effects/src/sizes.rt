//! How many words names have.

ghost use Rattle.std.specs.Prelude.{◌≡◌, ◌≤ℤ◌, pos, All};
ghost use Rattle.f77_tree.specs.Value.{extent, size_of};

use f77_tree::{Dim, DimList};

/// How many words a name of these dimensions has.
pub(crate) fn size(dims: &DimList) -> u32
    requires order { All (λ dim. dim.lo ≤ℤ dim.hi) dims.now }
    requires few { size_of dims.now ≤ℤ pos 2147483647 }
    ensures { pos result ≡ size_of dims.now }
{
    let mut size = 1;
    for dim in dims.as_slice() {
        size *= width(dim);
    }
    size
}

// How many subscripts a dimension has.
fn width(dim: &Dim) -> u32
    requires order { dim.now.lo ≤ℤ dim.now.hi }
    requires few { extent dim.now ≤ℤ pos 2147483647 }
    ensures { pos result ≡ extent dim.now }
{
    (dim.hi - dim.lo + 1) as u32
}
