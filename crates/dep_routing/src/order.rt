//! An order of regions in which each stands after the one that its exit enters.

ghost use Rattle.std.specs.Prelude.{◌<◌, ℕ, length, IfOk, OnOk};
ghost use Rattle.region_tree.specs.Tree.{IsNumber, entry_of, exit_of};
ghost use Rattle.dep_routing.specs.Numbers.{AreNumbersBelow};
ghost use Rattle.dep_routing.specs.Order.{Ranks, IsOrder, IsOrdering, IsPutAfter};

use crate::borders::Borders;
use df_sequence::NoMemory;
use region_tree::RegionTree;
use std::alloc::Global;

/// Regions in an order, and for each region whether it stands there.
#[derive(Drop)]
struct Ordering {
    marks: Vec<bool>,
    regions: Vec<u32>,
}

/// All regions, each after the one that its exit enters. From those whose exit enters none it goes back, region by region, to
/// those whose exit enters them.
pub(crate) fn regions_in_order(
    alloc: Global,
    t: &RegionTree,
    borders: &Borders,
) -> Result<Vec<u32>, NoMemory>
    requires some { 0 < length t.now.entries }
    requires ranks { Ranks t.now }
    requires exist { (r : ℕ) → IsNumber t.now r → (entry_of t.now r < length borders.now.left.items) × (exit_of t.now r < length borders.now.entered.items) }
    requires entered { AreNumbersBelow (length borders.now.entered.items) (length t.now.entries) (entry_of t.now) borders.now.entered.items }
    requires left { AreNumbersBelow (length borders.now.left.items) (length t.now.entries) (exit_of t.now) borders.now.left.items }
    ensures { IfOk result (λ order. IsOrder t.now order.items) }
{
    let Ordering {
        mut marks,
        regions: mut order,
    } = last_regions(alloc, t, borders)?;
    let mut done = 0;
    while done < order.len() {
        let before = borders.left[t.entry(order[done]) as usize];
        if before != 0 {
            place(before, &mut marks, &mut order)?;
        }
        done += 1;
    }
    Ok(order)
}

/// The regions whose exits enter no region.
fn last_regions(alloc: Global, t: &RegionTree, borders: &Borders) -> Result<Ordering, NoMemory>
    requires some { 0 < length t.now.entries }
    requires exist { (r : ℕ) → IsNumber t.now r → (entry_of t.now r < length borders.now.left.items) × (exit_of t.now r < length borders.now.entered.items) }
    requires entered { AreNumbersBelow (length borders.now.entered.items) (length t.now.entries) (entry_of t.now) borders.now.entered.items }
    ensures { IfOk result (λ o. IsOrdering t.now (length t.now.entries) 0 o.marks.items o.regions.items) }
{
    let mut marks = vec![in alloc; false; t.count() as usize + 1]?;
    let mut regions = Vec::with_capacity(alloc, t.count() as usize)?;
    for r in 1..t.count() + 1 {
        if borders.entered[t.exit(r) as usize] == 0 {
            place(r, &mut marks, &mut regions)?;
        }
    }
    Ok(Ordering { marks, regions })
}

/// Puts the region after the order, where it isn't in it.
fn place(r: u32, marks: &mut Vec<bool>, order: &mut Vec<u32>) -> Result<(), NoMemory>
    requires { r < length marks.old.items }
    ensures { OnOk result (IsPutAfter r marks.old.items order.old.items marks.new.items order.new.items) }
{
    if !marks[r as usize] {
        marks[r as usize] = true;
        order.push(r)?;
    }
    Ok(())
}
