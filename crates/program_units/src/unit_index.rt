//! The units by the names of their subroutines.
ghost use Rattle.std.specs.Prelude.{◌≡◌, ℕ, List, bytes_eq, IfOk, OnOk};
ghost use Rattle.std.specs.List.{list_any};
ghost use Rattle.indexmap.specs.IndexMap.{get};
ghost use Rattle.declared_names.specs.KeptDeclarations.{Keeps};
ghost use Rattle.program_units.specs.Units.{is_named, is_sub_of, sub_name, unit_of as unit_of_name};
ghost use Rattle.program_units.specs.CallTable.{unit_if, unit_named};

use crate::splitting::Units;
use df_sequence::{Copied, NoMemory};
use f77_tree::{Labelled, Name, Stmt};
use indexmap::IndexMap;
use std::alloc::Global;

/// For the name of a subroutine the first unit that has it, counted from 0.
///
/// # Errors
///
/// Where there is no memory.
pub fn sub_index(alloc: Global, us: &Units) -> Result<IndexMap<Name, usize>, NoMemory>
    ensures { IfOk result (λ index. (name : List ℕ) → get bytes_eq index name ≡ unit_named us.now name) }
{
    let mut index = IndexMap::new(alloc);
    for k in 0..us.len() {
        note_subs(alloc, &mut index, us.at(k), k)?;
    }
    Ok(index)
}

// Notes the subroutines of the unit at the index k.
fn note_subs(
    alloc: Global,
    index: &mut IndexMap<Name, usize>,
    unit: &[Labelled],
    k: usize,
) -> Result<(), NoMemory>
    ensures { OnOk result (Keeps bytes_eq index.old index.new (λ x. unit_if (list_any (is_sub_of x) unit.now) k)) }
{
    for s in unit {
        note_sub(alloc, index, &s.stmt, k)?;
    }
    Ok(())
}

// Notes a subroutine, unless one of its name was noted before.
fn note_sub(
    alloc: Global,
    index: &mut IndexMap<Name, usize>,
    stmt: &Stmt,
    k: usize,
) -> Result<(), NoMemory>
    ensures { OnOk result (Keeps bytes_eq index.old index.new (λ x. unit_if (is_named x (sub_name stmt.now)) k)) }
{
    match stmt {
        Stmt::Sub(name, _) => note_name(alloc, index, name, k),
        _ => Ok(()),
    }
}

/// Notes the number k for a name, unless one was noted before.
///
/// # Errors
///
/// Where there is no memory.
pub fn note_name(
    alloc: Global,
    index: &mut IndexMap<Name, usize>,
    name: &Name,
    k: usize,
) -> Result<(), NoMemory>
    ensures { OnOk result (Keeps bytes_eq index.old index.new (λ x. unit_if (bytes_eq name.now x) k)) }
{
    if !index.contains_key(name) {
        index.insert(name.copy(alloc)?, k)?;
    }
    Ok(())
}

/// The index of the first unit with a SUBROUTINE of this name, or the number of units.
pub fn unit_of(us: &Units, index: &IndexMap<Name, usize>, name: &Name) -> usize
    requires { (name : List ℕ) → get bytes_eq index.now name ≡ unit_named us.now name }
    ensures { result ≡ unit_of_name us.now name.now }
{
    match found(index, name) {
        Some(k) => k,
        None => us.len(),
    }
}

fn found(index: &IndexMap<Name, usize>, name: &Name) -> Option<usize>
    ensures { result ≡ get bytes_eq index.now name.now }
{
    match index.get(name) {
        Some(k) => Some(*k),
        None => None,
    }
}
