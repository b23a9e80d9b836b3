//! How many statements copies have, known before they are made.
ghost use Rattle.std.specs.Prelude.{◌≡◌, ◌+◌, ℕ, List, length, map, min, true, get_or, sum_by, bytes_eq, IfOk};
ghost use Rattle.indexmap.specs.IndexMap.{get};
ghost use Rattle.program_units.specs.Units.{unit_at};
ghost use Rattle.program_units.specs.Widths.{body_width, width};
ghost use Rattle.program_units.specs.CallTable.{AreSettled, row_width as row_width_of, unit_named};
ghost use Rattle.program_units.specs.Heights.{NoneCallsItself};

use crate::call_rows::{CallRow, add_within, call_rows};
use df_sequence::NoMemory;
use f77_tree::Name;
use indexmap::IndexMap;
use program_units::Units;
use std::alloc::Global;

/// How many statements stand for those of the main program, or the limit where they are more. It takes a time linear in the
/// statements.
pub(crate) fn main_width(
    alloc: Global,
    us: &Units,
    index: &IndexMap<Name, usize>,
    limit: u32,
) -> Result<u32, NoMemory>
    requires index { (name : List ℕ) → get bytes_eq index.now name ≡ unit_named us.now name }
    requires none { NoneCallsItself us.now }
    ensures { IfOk result (λ found. found ≡ min (sum_by (width (body_width us.now (length us.now)) us.now 0) (unit_at us.now 0)) limit) }
{
    let rows = call_rows(alloc, us, index, limit)?;
    let widths = settled_widths(alloc, &rows, limit)?;
    Ok(width_at(&widths, 0))
}

/// The widths after one round more than there are rows. Where no row leads back to itself, a search in depth finds them, and
/// one round tells that they are right; so it takes a time linear in the rows and what they call.
pub(crate) fn settled_widths(
    alloc: Global,
    rows: &[CallRow],
    limit: u32,
) -> Result<Vec<u32>, NoMemory>
    ensures { IfOk result (λ widths. AreSettled limit rows.now widths.items) }
{
    let mut widths = first_widths(alloc, rows, limit)?;
    for _ in 0..rows.len() {
        let next = next_widths(alloc, rows, &widths, limit)?;
        if are_same(&next, &widths) {
            return Ok(widths);
        }
        widths = next;
    }
    let last = next_widths(alloc, rows, &widths, limit)?;
    Ok(last)
}

// Widths to begin with: those of each row by those of the rows that it needs, as a search in depth comes to them. They may be
// any, since rounds follow.
fn first_widths(alloc: Global, rows: &[CallRow], limit: u32) -> Result<Vec<u32>, NoMemory> {
    let mut search = WidthSearch {
        seen: vec![in alloc; false; rows.len()]?,
        widths: vec![in alloc; 0; rows.len()]?,
    };
    for k in 0..rows.len() {
        search.visit(rows, limit, rows.len(), k);
    }
    Ok(search.widths)
}

// A search in depth for the widths of rows.
#[derive(Drop)]
struct WidthSearch {
    seen: Vec<bool>,
    widths: Vec<u32>,
}

impl WidthSearch {
    // Finds the width of a row that wasn't seen yet, behind those of the rows that it needs, so deep.
    fn visit(&mut self, rows: &[CallRow], limit: u32, depth: usize, k: usize) {
        if depth == 0 || k >= rows.len() || !self.is_new(k) {
            return;
        }
        let row = &rows[k];
        for g in &row.callees {
            self.visit(rows, limit, depth - 1, *g);
        }
        let width = row_width(row, &self.widths, limit);
        self.note(k, width);
    }

    // Whether a row wasn't seen yet. Now it is.
    fn is_new(&mut self, k: usize) -> bool {
        match self.seen.get_mut(k) {
            Some(seen) => {
                let new = !*seen;
                *seen = true;
                new
            }
            None => false,
        }
    }

    fn note(&mut self, k: usize, width: u32) {
        if let Some(found) = self.widths.get_mut(k) {
            *found = width;
        }
    }
}

// Whether these are the same widths.
fn are_same(a: &[u32], b: &[u32]) -> bool
    ensures { result ≡ true → a.now ≡ b.now }
{
    a == b
}

// The widths after one round more.
fn next_widths(
    alloc: Global,
    rows: &[CallRow],
    widths: &[u32],
    limit: u32,
) -> Result<Vec<u32>, NoMemory>
    ensures { IfOk result (λ next. next.items ≡ map (row_width_of limit widths.now) rows.now) }
{
    let mut next = Vec::new(alloc);
    for row in rows {
        next.push(row_width(row, widths, limit))?;
    }
    Ok(next)
}

// The width of a row, by the widths of all.
fn row_width(row: &CallRow, widths: &[u32], limit: u32) -> u32
    ensures { result ≡ row_width_of limit widths.now row.now }
{
    sum_within(row.own, &row.callees, widths, limit)
}

// The sum of this and of the widths at these indices, or the limit where it is more.
fn sum_within(own: u32, callees: &[usize], widths: &[u32], limit: u32) -> u32
    ensures { result ≡ min (own + sum_by (λ g. get_or widths.now g 0) callees.now) limit }
{
    let mut total = own.min(limit);
    for g in callees {
        total = add_within(total, width_at(widths, *g), limit);
    }
    total
}

// The width at an index, or 0 where there is none.
fn width_at(widths: &[u32], index: usize) -> u32
    ensures { result ≡ get_or widths.now index 0 }
{
    match widths.get(index) {
        Some(width) => *width,
        None => 0,
    }
}
