//! What stands for the statements with labels in the copies of a unit.
ghost use Rattle.std.specs.Prelude.{◌≡◌, ◌+◌, ◌≤◌, ◌^◌, ℕ, if◌then◌else◌, nat_eq, Some, None, IfOk, OnOk};
ghost use Rattle.indexmap.specs.IndexMap.{get};
ghost use Rattle.layout_rules.specs.Faults.{answer_or};
ghost use Rattle.program_units.specs.Units.{call_in};
ghost use Rattle.inlined_copies.specs.LabelTables.{AreLabelsOf};
ghost use Rattle.inlined_copies.specs.UnitTables.{labels_behind as labels_behind_of};

use crate::call_rows::add_within;
use crate::counted_units::LabelCounts;
use crate::unit_table::NewLabel;
use df_sequence::NoMemory;
use f77_tree::{Labelled, Stmt};
use indexmap::IndexMap;
use program_units::{inner_of, unit_of};
use std::alloc::Global;

/// The copy of a unit has at most this many labels.
const MOST_LABELS: u32 = 1 << 20;

impl<'a> LabelCounts<'a> {
    /// For the label of a statement of the unit at the index k what stands for it in a copy, and the number of the label
    /// behind a copy, less those before it.
    ///
    /// # Errors
    ///
    /// Where there is no memory.
    pub fn new_labels(
        &self,
        alloc: Global,
        k: usize,
        unit: &[Labelled],
    ) -> Result<(IndexMap<u32, NewLabel>, u32), NoMemory>
        ensures labels { IfOk result (λ made. AreLabelsOf self.now k unit.now made.0 made.1) }
        ensures few { IfOk result (λ made. made.1 ≤ 2 ^ 20 + 1) }
    {
        let mut labels = IndexMap::new(alloc);
        let mut before = 0;
        for s in unit {
            let first = before + 1;
            let last = first + self.labels_behind(&s.stmt);
            note_label(&mut labels, s.label, NewLabel { first, last })?;
            before = add_within(before, self.labels(k, s), MOST_LABELS);
        }
        Ok((labels, before + 1))
    }

    // How many labels more stand at the end of a copy, if the statement is a CALL.
    fn labels_behind(&self, stmt: &Stmt) -> u32
        ensures count { result ≡ labels_behind_of self.now.us.now self.now.counts.now (call_in stmt.now) }
        ensures few { result ≤ 2 ^ 20 + 1 }
    {
        match inner_of(stmt) {
            Stmt::CallTo(name, _) => self.count(unit_of(self.us, self.index, name)) + 1,
            _ => 0,
        }
    }
}

// Notes what stands for the statement with a label, unless one above has the same label.
fn note_label(
    labels: &mut IndexMap<u32, NewLabel>,
    label: u32,
    new: NewLabel,
) -> Result<(), NoMemory>
    ensures { OnOk result ((l : ℕ) → get nat_eq labels.new l ≡ answer_or (get nat_eq labels.old l) (if nat_eq label l then Some new else None)) }
{
    if !labels.contains_key(&label) {
        labels.insert(label, new)?;
    }
    Ok(())
}
