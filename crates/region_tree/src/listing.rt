//! The numbers of regions.

ghost use Rattle.std.specs.Prelude.{◌≡◌, ◌<◌, ◌^◌, length, IfOk};
ghost use Rattle.region_tree.specs.Listing.{IsListing};

use df_sequence::NoMemory;
use std::alloc::Global;

/// The entries and exits of regions, and for each edge the number of the region that it enters, or 0.
#[derive(Drop)]
pub(crate) struct Listing {
    pub(crate) numbers: Vec<u32>,
    pub(crate) entries: Vec<u32>,
    pub(crate) exits: Vec<u32>,
}

/// Lists the edges below the count that have a next one, and these.
pub(crate) fn list(alloc: Global, count: u32, next: &[Option<u32>]) -> Result<Listing, NoMemory>
    requires few { count < 2 ^ 31 }
    requires size { length next.now ≡ count }
    ensures { IfOk result (λ listing. IsListing next.now count listing.numbers.items listing.entries.items listing.exits.items) }
{
    let mut numbers = Vec::new(alloc);
    let mut entries = vec![in alloc; 0]?;
    let mut exits = vec![in alloc; 0]?;
    for e in 0..count {
        if let Some(exit) = next[e as usize] {
            numbers.push(entries.len() as u32)?;
            entries.push(e)?;
            exits.push(exit)?;
        } else {
            numbers.push(0)?;
        }
    }
    Ok(Listing {
        numbers,
        entries,
        exits,
    })
}
