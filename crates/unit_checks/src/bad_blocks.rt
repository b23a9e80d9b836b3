//! COMMON blocks whose names aren't alike in all units.
ghost use Rattle.std.specs.Prelude.{◌≡◌, ◌≤◌, ◌<◌, length, IfOk};
ghost use Rattle.std.specs.List.{list_any};
ghost use Rattle.layout_rules.specs.Declarations.{all_commons};
ghost use Rattle.layout_rules.specs.Faults.{first_answer};
ghost use Rattle.program_units.specs.Units.{unit_at};
ghost use Rattle.program_units.specs.Refusals.{bad_block, is_mismatched_part};
ghost use Rattle.unit_checks.specs.BlockTables.{AreBlockTables, AreOwners, IsTableOfBlocks, is_mismatched_block};

use crate::alike::are_alike;
use crate::block_names::BlockTable;
use crate::block_owners::{BlockOwners, block_owners};
use crate::recursion::line_of_first;
use df_sequence::NoMemory;
use f77_tree::Name;
use program_units::Units;
use std::alloc::Global;

/// The first line of the first unit that has a COMMON block with other names than the first unit that has it: more or fewer,
/// or of another kind or other dimensions. It takes a time linear in the statements.
///
/// # Errors
///
/// Where there is no memory.
pub fn first_bad_block(alloc: Global, us: &Units) -> Result<Option<u32>, NoMemory>
    ensures { IfOk result (λ line. line ≡ first_answer (bad_block us.now) us.now) }
{
    let tables = block_tables(alloc, us)?;
    let owners = block_owners(alloc, us, &tables)?;
    Ok(first_mismatch(us, &tables, &owners))
}

// The blocks of each unit, and, last, of one without statements.
fn block_tables(alloc: Global, us: &Units) -> Result<Vec<BlockTable>, NoMemory>
    ensures { IfOk result (λ tables. AreBlockTables us.now tables.items) }
{
    let mut tables = Vec::new(alloc);
    for k in 0..us.len() {
        tables.push(BlockTable::of(alloc, us.at(k))?)?;
    }
    tables.push(BlockTable::of(alloc, &[])?)?;
    Ok(tables)
}

// The first line of the first unit with a block at odds.
fn first_mismatch(us: &Units, tables: &[BlockTable], owners: &BlockOwners) -> Option<u32>
    requires tables { AreBlockTables us.now tables.now }
    requires owners { AreOwners us.now owners.now }
    ensures { result ≡ first_answer (bad_block us.now) us.now }
{
    for k in 0..us.len() {
        if has_mismatch(us, tables, owners, k) {
            return Some(line_of_first(us.at(k)));
        }
    }
    None
}

// Whether the unit k has a block at odds with the first unit that has it.
fn has_mismatch(us: &Units, tables: &[BlockTable], owners: &BlockOwners, k: usize) -> bool
    requires tables { AreBlockTables us.now tables.now }
    requires owners { AreOwners us.now owners.now }
    requires unit { k < length us.now }
    ensures { result ≡ list_any (is_mismatched_part us.now (unit_at us.now k)) (all_commons (unit_at us.now k)) }
{
    let table = table_at(us, tables, k);
    for block in &table.blocks {
        if is_mismatched(us, tables, owners, k, block) {
            return true;
        }
    }
    false
}

// Whether the names of a block in the unit k are others than in the first unit that has it.
fn is_mismatched(
    us: &Units,
    tables: &[BlockTable],
    owners: &BlockOwners,
    k: usize,
    block: &Option<Name>,
) -> bool
    requires tables { AreBlockTables us.now tables.now }
    requires owners { AreOwners us.now owners.now }
    requires unit { k ≤ length us.now }
    ensures { result ≡ is_mismatched_block us.now (unit_at us.now k) block.now }
{
    let here = table_at(us, tables, k);
    let first = table_at(us, tables, owners.unit(us, block));
    !are_alike(
        &here.declared,
        &first.declared,
        here.names.of(block),
        first.names.of(block),
    )
}

fn table_at<'a>(us: &Units, tables: &'a [BlockTable], k: usize) -> &'a BlockTable
    requires tables { AreBlockTables us.now tables.now }
    requires unit { k ≤ length us.now }
    ensures { IsTableOfBlocks (unit_at us.now k) result.now }
{
    &tables[k]
}
