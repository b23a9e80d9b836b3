//! The labels of copies.
ghost use Rattle.std.specs.Prelude.{◌≡◌, ◌≤◌, ◌^◌, ℕ, suc, List, length, min, bytes_eq, IfOk};
ghost use Rattle.indexmap.specs.IndexMap.{get};
ghost use Rattle.program_units.specs.Units.{call_by, call_in, unit_at};
ghost use Rattle.program_units.specs.Widths.{body_labels, labels as labels_of_stmt, labels_by};
ghost use Rattle.program_units.specs.CallTable.{unit_named};
ghost use Rattle.program_units.specs.Heights.{NoneCallsItself};
ghost use Rattle.inlined_copies.specs.LabelRows.{label_row as label_row_of, label_rows as label_rows_of, own_labels as own_labels_of, own_labels_by};
ghost use Rattle.inlined_copies.specs.LabelCounts.{AreCounted, count_at};

use crate::call_rows::{CallRow, add_within, is_kept, note_callee};
use crate::counted_units::LabelCounts;
use crate::widths::settled_widths;
use df_sequence::NoMemory;
use f77_tree::{Labelled, Name, Stmt};
use indexmap::IndexMap;
use program_units::{Units, inner_of, unit_of};
use std::alloc::Global;

impl<'a> LabelCounts<'a> {
    /// How many labels stand for a statement of the unit at the index k.
    pub fn labels(&self, k: usize, s: &Labelled) -> u32
        ensures { result ≡ labels_of_stmt (count_at self.now.counts.now) self.now.us.now k s.now }
    {
        if is_kept(k, &s.stmt) {
            self.labels_kept(s)
        } else {
            0
        }
    }

    // How many labels stand for a statement that is kept.
    fn labels_kept(&self, s: &Labelled) -> u32
        ensures { result ≡ labels_by (count_at self.now.counts.now) self.now.us.now s.now.label (call_in s.now.stmt) }
    {
        match inner_of(&s.stmt) {
            Stmt::CallTo(name, _) => 2 + self.count(unit_of(self.us, self.index, name)),
            _ => u32::from(s.label != 0),
        }
    }

    /// How many labels the copy of the unit at an index has.
    pub(crate) fn count(&self, k: usize) -> u32
        ensures count { result ≡ count_at self.now.counts.now k }
        ensures few { result ≤ 2 ^ 20 }
    {
        match self.counts.get(k) {
            Some(count) => *count,
            None => 0,
        }
    }
}

/// How many labels the copy of each unit has, or the limit where it has more. It takes a time linear in the statements.
///
/// # Errors
///
/// Where there is no memory.
pub fn label_counts(
    alloc: Global,
    us: &Units,
    index: &IndexMap<Name, usize>,
    limit: u32,
) -> Result<Vec<u32>, NoMemory>
    requires index { (name : List ℕ) → get bytes_eq index.now name ≡ unit_named us.now name }
    requires none { NoneCallsItself us.now }
    ensures exact { IfOk result (λ counts. (k : ℕ) → count_at counts.items k ≡ min (body_labels us.now (suc (length us.now)) k) limit) }
    ensures counted { IfOk result (λ counts. AreCounted us.now limit counts.items) }
{
    let rows = label_rows(alloc, us, index, limit)?;
    let counts = settled_widths(alloc, &rows, limit)?;
    Ok(counts)
}

// The rows of all units, in order.
fn label_rows(
    alloc: Global,
    us: &Units,
    index: &IndexMap<Name, usize>,
    limit: u32,
) -> Result<Vec<CallRow>, NoMemory>
    requires { (name : List ℕ) → get bytes_eq index.now name ≡ unit_named us.now name }
    ensures { IfOk result (λ rows. rows.items ≡ label_rows_of limit us.now) }
{
    let mut rows = Vec::new(alloc);
    for k in 0..us.len() {
        rows.push(label_row(alloc, us, index, limit, k, us.at(k))?)?;
    }
    Ok(rows)
}

// The row of the unit at the index k.
fn label_row(
    alloc: Global,
    us: &Units,
    index: &IndexMap<Name, usize>,
    limit: u32,
    k: usize,
    unit: &[Labelled],
) -> Result<CallRow, NoMemory>
    requires index { (name : List ℕ) → get bytes_eq index.now name ≡ unit_named us.now name }
    requires unit { unit.now ≡ unit_at us.now k }
    ensures { IfOk result (λ row. row ≡ label_row_of limit us.now k) }
{
    let mut own = 0;
    let mut callees = Vec::new(alloc);
    for s in unit {
        own = add_within(own, own_labels(k, s), limit);
        note_callee(&mut callees, us, index, inner_of(&s.stmt))?;
    }
    Ok(CallRow { own, callees })
}

// How many labels of its own stand for a statement of the unit at the index k.
fn own_labels(k: usize, s: &Labelled) -> u32
    ensures { result ≡ own_labels_of k s.now }
{
    if is_kept(k, &s.stmt) {
        own_labels_kept(s.label, inner_of(&s.stmt))
    } else {
        0
    }
}

fn own_labels_kept(label: u32, inner: &Stmt) -> u32
    ensures { result ≡ own_labels_by label (call_by inner.now) }
{
    match inner {
        Stmt::CallTo(_, _) => 2,
        _ => u32::from(label != 0),
    }
}
