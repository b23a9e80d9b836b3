//! The next edge of the same class.

ghost use Rattle.std.specs.Prelude.{◌≡◌, ◌<◌, ℕ, length, slice_index, IfOk};
ghost use Rattle.closed_walks.specs.Walk.{Holds};
ghost use Rattle.region_tree.specs.Classes.{next_of};
ghost use Rattle.region_tree.specs.Listing.{next_at};

use df_sequence::NoMemory;
use std::alloc::Global;

/// For each edge the first one of its class after it in the list, if there is one.
pub(crate) fn next_edges(
    alloc: Global,
    classes: &[u32],
    edges: &[u32],
) -> Result<Vec<Option<u32>>, NoMemory>
    requires exist { (e : ℕ) → Holds edges.now e → e < length classes.now }
    requires below { (e : ℕ) → e < length classes.now → slice_index classes.now e < length classes.now }
    ensures size { IfOk result (λ next. length next.items ≡ length classes.now) }
    ensures next { IfOk result (λ next. (e : ℕ) → e < length classes.now → next_at next.items e ≡ next_of classes.now e edges.now) }
{
    let mut next = vec![in alloc; None; classes.len()]?;
    let mut first = vec![in alloc; None; classes.len()]?;
    for k in (0..edges.len()).rev() {
        let e = edges[k];
        let class = classes[e as usize] as usize;
        next[e as usize] = first[class];
        first[class] = Some(e);
    }
    Ok(next)
}
