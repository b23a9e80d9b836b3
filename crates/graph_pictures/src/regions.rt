//! The smallest region of each piece.

ghost use Rattle.std.specs.Prelude.{◌≡◌, ◌-◌, false, IfOk, map, set, slice_index, Some};
ghost use Rattle.graph_pictures.specs.FlowDot.{found_at, over_edge, over_edges, parent_of, region_after, smallest_regions as spec_smallest};
ghost use Rattle.graph_pictures.specs.Regions.{AreBorders};

use crate::groups::Groups;
use printed_graphs::{Edge, PrintedFlow};
use std::alloc::{AllocError, Global};

/// The smallest region of each piece that is reached from START.
#[tactic(auto, using(crate::proofs::Sweeps::one_sweep, crate::proofs::Sweeps::idle_sweep, crate::proofs::Sweeps::last_sweep))]
pub fn smallest_regions(alloc: Global, flow: &PrintedFlow) -> Result<Vec<Option<usize>>, AllocError>
    ensures { IfOk result (λ found. found.items ≡ spec_smallest flow.now) }
{
    let borders = Borders::of(alloc, flow)?;
    let mut found = vec![in alloc; None; flow.pieces.len()]?;
    put(&mut found, 0, 0);
    for _ in 0..flow.pieces.len() {
        if !borders.over_edges(&mut found) {
            return Ok(found);
        }
    }
    Ok(found)
}

/// The parents of the regions.
pub fn parents_of(alloc: Global, flow: &PrintedFlow) -> Result<Vec<usize>, AllocError>
    ensures { IfOk result (λ parents. parents.items ≡ map parent_of flow.now.regions.items) }
{
    let mut parents = Vec::with_capacity(alloc, flow.regions.len())?;
    for region in flow.regions.iter() {
        parents.push(region.parent as usize)?;
    }
    Ok(parents)
}

// The regions that edges enter and leave.
#[derive(Drop)]
struct Borders<'a> {
    flow: &'a PrintedFlow,
    entered: Groups,
    left: Groups,
}

impl<'a> Borders<'a> {
    // Those of a flow graph.
    fn of(alloc: Global, flow: &'a PrintedFlow) -> Result<Borders<'a>, AllocError>
        ensures flow { IfOk result (λ borders. borders.flow.now ≡ flow.now) }
        ensures borders { IfOk result AreBorders }
    {
        let mut entries = Vec::with_capacity(alloc, flow.regions.len())?;
        let mut exits = Vec::with_capacity(alloc, flow.regions.len())?;
        for region in flow.regions.iter() {
            entries.push(region.entry as usize)?;
            exits.push(region.exit as usize)?;
        }
        Ok(Borders {
            flow,
            entered: Groups::of(alloc, flow.edges.len(), 1, entries.as_slice())?,
            left: Groups::of(alloc, flow.edges.len(), 1, exits.as_slice())?,
        })
    }

    // Adds what is found over all edges, and tells whether that is anything.
    fn over_edges(&self, found: &mut Vec<Option<usize>>) -> bool
        requires { AreBorders self.now }
        ensures found { found.new.items ≡ over_edges self.now.flow.now 0 self.now.flow.now.edges.items found.old.items }
        ensures same { result ≡ false → found.new.items ≡ found.old.items }
    {
        let mut is_changed = false;
        let mut number = 0usize;
        for edge in self.flow.edges.iter() {
            let is_found = self.over_edge(number, *edge, found);
            is_changed = is_changed || is_found;
            number += 1;
        }
        is_changed
    }

    // Adds what is found over an edge, and tells whether that is anything.
    fn over_edge(&self, k: usize, edge: Edge, found: &mut Vec<Option<usize>>) -> bool
        requires { AreBorders self.now }
        ensures found { found.new.items ≡ over_edge self.now.flow.now k edge found.old.items }
        ensures same { result ≡ false → found.new.items ≡ found.old.items }
    {
        if k == 0 {
            return false;
        }
        let to = edge.to as usize;
        match (at(found, edge.from as usize), at(found, to)) {
            (Some(inside), None) => {
                put(found, to, self.after(k, inside));
                true
            }
            _ => false,
        }
    }

    // The smallest region after an edge, from a piece whose smallest region is `inside`.
    fn after(&self, edge: usize, inside: usize) -> usize
        requires { AreBorders self.now }
        ensures { result ≡ region_after self.now.flow.now edge inside }
    {
        let entered = self.entered.places(edge).first().copied();
        let left = self.left.places(edge).first().copied();
        match (entered, left) {
            (Some(region), _) => region,
            (None, Some(region)) => self.parent(region),
            (None, None) => inside,
        }
    }

    // The smallest region around a region.
    fn parent(&self, region: usize) -> usize
        ensures { result ≡ slice_index (map parent_of self.now.flow.now.regions.items) (region - 1) }
    {
        match self.flow.regions.get(region.saturating_sub(1)) {
            Some(found) => found.parent as usize,
            None => 0,
        }
    }
}

// What is found of a piece.
fn at(found: &Vec<Option<usize>>, piece: usize) -> Option<usize>
    ensures { result ≡ found_at found.now.items piece }
{
    found.get(piece).copied().flatten()
}

// Keeps the smallest region of a piece, if there is such a piece.
fn put(found: &mut Vec<Option<usize>>, piece: usize, region: usize)
    ensures { found.new.items ≡ set found.old.items piece (Some region) }
{
    if let Some(place) = found.get_mut(piece) {
        *place = Some(region);
    }
}
