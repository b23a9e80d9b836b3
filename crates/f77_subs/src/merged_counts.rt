//! How many statements are merged into the main program, known before they are made.
ghost use Rattle.std.specs.Prelude.{◌≡◌, ◌+◌, ◌-◌, ◌<◌, ◌≤◌, ℕ, List, Option, false, cond, filter, length, min, slice_index_or, IfOk};
ghost use Rattle.std.specs.List.{list_any, count_by};
ghost use Rattle.f77_tree.specs.Places.{same_block};
ghost use Rattle.program_units.specs.declared.entity.Entity.TheVariants.{Local};
ghost use Rattle.program_units.specs.Expansion.{is_running as is_running_of, merged};
ghost use Rattle.program_units.specs.Names.{has_block, y_entities};
ghost use Rattle.f77_subs.specs.MergedCounts.{is_added_by, is_equivalence_or_data as is_put_of, storage_below, storage_of};
ghost use Rattle.program_units.specs.Merged.{is_run_block};
ghost use Rattle.program_units.specs.Units.{runs as runs_of, unit_at};

use crate::merged_blocks::{all_blocks, running_blocks};
use df_sequence::NoMemory;
use entity_names::Blocks;
use f77_tree::{Labelled, Name, Stmt};
use inlined_copies::add_within;
use program_units::{Entities, Entity, Units};
use std::alloc::Global;

/// How many statements are merged, or the limit where they are more. These are the units that run, the entities that get names
/// of their own, and the blocks of the main program.
pub(crate) fn merged_count(
    alloc: Global,
    us: &Units,
    runs: &[bool],
    own: &Entities,
    main: &Blocks,
    limit: u32,
) -> Result<u32, NoMemory>
    requires enough { length us.now < length runs.now }
    requires told { (k : ℕ) → k < length us.now → slice_index_or runs.now k false ≡ runs_of us.now k }
    requires own { own.now ≡ y_entities us.now }
    requires main { (block : Option (List ℕ)) → list_any (same_block block) main.now ≡ has_block (unit_at us.now 0) block }
    ensures { IfOk result (λ count. count ≡ min (length (merged us.now)) limit) }
{
    let running = running_blocks(alloc, us, runs)?;
    let blocks = all_blocks(alloc, us)?;
    let types = type_count(us, runs, &running, own, limit);
    let commons = common_count(main, &running, &blocks, limit);
    let stored = storage_count(us, runs, limit);
    let declared = add_within(types, commons, limit);
    Ok(add_within(declared, stored, limit))
}

// How many of the entities that get names of their own are those of subroutines that run.
fn type_count(us: &Units, runs: &[bool], running: &Blocks, own: &Entities, limit: u32) -> u32
    requires enough { length us.now < length runs.now }
    requires told { (k : ℕ) → k < length us.now → slice_index_or runs.now k false ≡ runs_of us.now k }
    requires running { (block : Option (List ℕ)) → list_any (same_block block) running.now ≡ is_run_block us.now block }
    requires own { own.now ≡ y_entities us.now }
    ensures { result ≡ min (length (filter (is_running_of us.now) own.now)) limit }
{
    let mut count = 0;
    for i in 0..own.len() {
        count = one_more(count, is_running(us, runs, running, own.at(i)), limit);
    }
    count
}

// One more, or the limit where that is more.
fn one_more(count: u32, counted: bool, limit: u32) -> u32
    ensures { result ≡ min (count + cond counted 1 0) limit }
{
    add_within(count, one_if(counted), limit)
}

/// One where this holds, else none.
pub(crate) fn one_if(counted: bool) -> u32
    ensures is { result ≡ cond counted 1 0 }
    ensures few { result ≤ 1 }
{
    if counted { 1 } else { 0 }
}

/// Whether an entity is one of a subroutine that runs, where these are the units that run, and their blocks.
pub(crate) fn is_running(us: &Units, runs: &[bool], running: &Blocks, entity: &Entity) -> bool
    requires enough { length us.now < length runs.now }
    requires told { (k : ℕ) → k < length us.now → slice_index_or runs.now k false ≡ runs_of us.now k }
    requires running { (block : Option (List ℕ)) → list_any (same_block block) running.now ≡ is_run_block us.now block }
    requires unit { (k : ℕ) (name : List ℕ) → entity.now ≡ Local k name → k < length us.now }
    ensures { result ≡ is_running_of us.now entity.now }
{
    match entity {
        Entity::Local(unit, _) => runs[*unit],
        Entity::InBlock(block, _) => running.has(block),
    }
}

// How many of all blocks are merged, where these are those of the main program and of subroutines that run.
fn common_count(main: &Blocks, running: &Blocks, blocks: &Blocks, limit: u32) -> u32
    ensures { result ≡ min (length (filter (is_added_by main.now running.now) blocks.now)) limit }
{
    let mut count = 0;
    for i in 0..blocks.len() {
        count = one_more(count, is_added(main, running, blocks.at(i)), limit);
    }
    count
}

// Whether a block is one of subroutines that run, and none of the main program.
fn is_added(main: &Blocks, running: &Blocks, block: &Option<Name>) -> bool
    ensures { result ≡ is_added_by main.now running.now block.now }
{
    !main.has(block) && running.has(block)
}

// How many EQUIVALENCE and DATA statements subroutines that run have.
fn storage_count(us: &Units, runs: &[bool], limit: u32) -> u32
    requires enough { length us.now < length runs.now }
    requires told { (k : ℕ) → k < length us.now → slice_index_or runs.now k false ≡ runs_of us.now k }
    ensures { result ≡ min (storage_below us.now (length us.now - 1)) limit }
{
    let mut count = 0;
    for i in 0..us.len().saturating_sub(1) {
        count = add_within(count, running_storage(us, runs, i + 1, limit), limit);
    }
    count
}

// How many EQUIVALENCE and DATA statements of the unit k are merged.
fn running_storage(us: &Units, runs: &[bool], k: usize, limit: u32) -> u32
    requires enough { length us.now < length runs.now }
    requires told { (k : ℕ) → k < length us.now → slice_index_or runs.now k false ≡ runs_of us.now k }
    requires unit { k < length us.now }
    ensures { result ≡ min (storage_of us.now k) limit }
{
    if runs[k] {
        return unit_storage(us.at(k), limit);
    }
    0
}

// How many EQUIVALENCE and DATA statements a unit has.
fn unit_storage(unit: &[Labelled], limit: u32) -> u32
    ensures { result ≡ min (count_by (λ s. is_put_of s.stmt) unit.now) limit }
{
    let mut count = 0;
    for s in unit {
        count = one_more(count, is_equivalence_or_data(&s.stmt), limit);
    }
    count
}

// Whether a statement of a subroutine is merged.
fn is_equivalence_or_data(stmt: &Stmt) -> bool
    ensures { result ≡ is_put_of stmt.now }
{
    matches!(stmt, Stmt::Equivalence(_) | Stmt::Init(_))
}
