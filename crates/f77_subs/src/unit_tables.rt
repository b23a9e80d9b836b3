//! The tables of all units.
ghost use Rattle.std.specs.Prelude.{◌≡◌, ◌<◌, ◌^◌, length, bytes_eq, IfOk};
ghost use Rattle.indexmap.specs.IndexMap.{get};
ghost use Rattle.inlined_copies.specs.NamedTables.{AreTablesOf, AreNamed};
ghost use Rattle.inlined_copies.specs.UnitTables.{IsTableOf};

use declared_names::NameDeclarations;
use df_sequence::NoMemory;
use entity_names::NewNames;
use f77_tree::Name;
use indexmap::IndexMap;
use inlined_copies::{LabelCounts, UnitTable};
use program_units::NewName;
use std::alloc::Global;

/// The tables of all units, by the names of the text and the labels of copies. They take a time linear in the text.
pub(crate) fn unit_tables(
    alloc: Global,
    new: &NewNames,
    counts: &LabelCounts,
) -> Result<Vec<UnitTable>, NoMemory>
    requires { counts.now.us.now ≡ new.now.text.now.us.now }
    ensures { IfOk result (λ tables. AreTablesOf new.now.text.now.us.now counts.now.counts.now tables.items) }
{
    let mut tables = Vec::new(alloc);
    for k in 0..new.text.us.len() {
        tables.push(unit_table(alloc, new, counts, k)?)?;
    }
    Ok(tables)
}

// The table of the unit k.
fn unit_table(
    alloc: Global,
    new: &NewNames,
    counts: &LabelCounts,
    k: usize,
) -> Result<UnitTable, NoMemory>
    requires same { counts.now.us.now ≡ new.now.text.now.us.now }
    requires unit { k < length new.now.text.now.us.now }
    ensures { IfOk result (λ table. IsTableOf new.now.text.now.us.now (2 ^ 20) counts.now.counts.now k table) }
{
    let unit = new.text.us.at(k);
    let names = names_of(alloc, new, k)?;
    let declared = NameDeclarations::of(alloc, unit)?;
    let (labels, behind) = counts.new_labels(alloc, k, unit)?;
    Ok(UnitTable {
        copied: k != 0,
        names,
        declared,
        labels,
        behind,
    })
}

// What the names of the unit k become. Those of the main program stay.
fn names_of(alloc: Global, new: &NewNames, k: usize) -> Result<IndexMap<Name, NewName>, NoMemory>
    requires { k < length new.now.text.now.us.now }
    ensures { IfOk result (λ names. AreNamed new.now.text.now.us.now k (get bytes_eq names)) }
{
    if k == 0 {
        return Ok(IndexMap::new(alloc));
    }
    new.new_names(alloc, k)
}
