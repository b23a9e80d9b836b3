//! The numbers of classes, from the names of edges.

ghost use Rattle.std.specs.Prelude.{◌≡◌, ◌<◌, ◌^◌, length, IfOk};
ghost use Rattle.cycle_equiv.specs.Names.{AreNumbered};

use df_sequence::NoMemory;
use indexmap::IndexSet;
use std::alloc::Global;

/// The class of each edge, where two edges are in one class exactly where they have one name: the same top bracket and
/// the same size of its list. The classes are numbered from 0 in the order of their lowest edges: a name's number is its
/// place among the names in the order in which they first come.
pub(crate) fn numbered(alloc: Global, tops: &[u32], sizes: &[u32]) -> Result<Vec<u32>, NoMemory>
    requires edges { length sizes.now ≡ length tops.now }
    requires few { length tops.now < 2 ^ 32 }
    ensures { IfOk result (λ classes. AreNumbered tops.now sizes.now classes.items) }
{
    let mut names = IndexSet::new(alloc);
    let mut classes = Vec::new(alloc);
    for e in 0..tops.len() {
        let (class, _) = names.insert_full((tops[e], sizes[e]))?;
        classes.push(class as u32)?;
    }
    Ok(classes)
}
