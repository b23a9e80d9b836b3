//! The blocks of all units.
ghost use Rattle.std.specs.Prelude.{◌≡◌, ◌<◌, [], ℕ, List, Option, false, fold, if◌then◌else◌, is_some, length, slice_index_or, IfOk, OnOk};
ghost use Rattle.std.specs.List.{list_any};
ghost use Rattle.indexmap.specs.IndexMap.{get};
ghost use Rattle.f77_tree.specs.Places.{same_block};
ghost use Rattle.declared_names.specs.KeptDeclarations.{Keeps};
ghost use Rattle.program_units.specs.CallTable.{unit_if};
ghost use Rattle.program_units.specs.Expansion.{blocks as blocks_of, with_block, blocks_in};
ghost use Rattle.program_units.specs.Names.{has_block};
ghost use Rattle.program_units.specs.Merged.{first_with_block, is_run_block};
ghost use Rattle.program_units.specs.Units.{runs as runs_of};

use df_sequence::NoMemory;
use entity_names::{Blocks, note_number};
use f77_layout::commons_of;
use f77_tree::{CommonPart, Labelled, Name};
use indexmap::IndexMap;
use program_units::{Units, copy_of_block};
use std::alloc::Global;

/// The blocks of subroutines that run.
pub(crate) fn running_blocks(alloc: Global, us: &Units, runs: &[bool]) -> Result<Blocks, NoMemory>
    requires enough { length us.now < length runs.now }
    requires told { (k : ℕ) → k < length us.now → slice_index_or runs.now k false ≡ runs_of us.now k }
    ensures { IfOk result (λ blocks. (block : Option (List ℕ)) → list_any (same_block block) blocks ≡ is_run_block us.now block) }
{
    let mut blocks = Blocks::new(alloc);
    for k in 1..us.len() {
        add_if(alloc, &mut blocks, runs[k], us.at(k))?;
    }
    Ok(blocks)
}

// Adds the blocks of a unit, if it runs.
fn add_if(alloc: Global, blocks: &mut Blocks, runs: bool, unit: &[Labelled]) -> Result<(), NoMemory>
    ensures { OnOk result (blocks.new ≡ fold with_block blocks.old (if runs then blocks_in unit.now else [])) }
{
    if runs {
        blocks.add_all(alloc, unit)
    } else {
        Ok(())
    }
}

/// All blocks, in the order in which they first appear.
pub(crate) fn all_blocks(alloc: Global, us: &Units) -> Result<Blocks, NoMemory>
    ensures { IfOk result (λ blocks. blocks ≡ blocks_of us.now) }
{
    let mut blocks = Blocks::new(alloc);
    for k in 0..us.len() {
        blocks.add_all(alloc, us.at(k))?;
    }
    Ok(blocks)
}

/// For a block the first unit that has it.
pub(crate) fn first_units(
    alloc: Global,
    us: &Units,
) -> Result<IndexMap<Option<Name>, usize>, NoMemory>
    ensures { IfOk result (λ firsts. (block : Option (List ℕ)) → get same_block firsts block ≡ first_with_block us.now block) }
{
    let mut firsts = IndexMap::new(alloc);
    for k in 0..us.len() {
        note_unit(alloc, &mut firsts, us.at(k), k)?;
    }
    Ok(firsts)
}

// Notes the blocks of the unit k, but for those of a unit before it.
fn note_unit(
    alloc: Global,
    firsts: &mut IndexMap<Option<Name>, usize>,
    unit: &[Labelled],
    k: usize,
) -> Result<(), NoMemory>
    ensures { OnOk result (Keeps same_block firsts.old firsts.new (λ b. unit_if (has_block unit.now b) k)) }
{
    let commons = commons_of(alloc, unit)?;
    note_parts(alloc, firsts, commons.as_slice(), k)?;
    Ok(())
}

// Notes the blocks of these parts of the unit k, but for those of a unit before it.
fn note_parts(
    alloc: Global,
    firsts: &mut IndexMap<Option<Name>, usize>,
    parts: &[CommonPart],
    k: usize,
) -> Result<(), NoMemory>
    ensures { OnOk result (Keeps same_block firsts.old firsts.new (λ b. unit_if (list_any (λ part. same_block part.block b) parts.now) k)) }
{
    for part in parts {
        note_block(alloc, firsts, &part.block, k)?;
    }
    Ok(())
}

fn note_block(
    alloc: Global,
    firsts: &mut IndexMap<Option<Name>, usize>,
    block: &Option<Name>,
    k: usize,
) -> Result<(), NoMemory>
    ensures { OnOk result (Keeps same_block firsts.old firsts.new (λ b. unit_if (same_block block.now b) k)) }
{
    if has_block_in(firsts, block) {
        return Ok(());
    }
    note_number(firsts, copy_of_block(alloc, block)?, k)?;
    Ok(())
}

// Whether a block has a number.
fn has_block_in(numbers: &IndexMap<Option<Name>, usize>, block: &Option<Name>) -> bool
    ensures { result ≡ is_some (get same_block numbers.now block.now) }
{
    numbers.contains_key(block)
}
