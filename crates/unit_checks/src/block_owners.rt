//! The first unit that has a COMMON block.
ghost use Rattle.std.specs.Prelude.{◌≡◌, ℕ, List, Option, None, IfOk, OnOk};
ghost use Rattle.std.specs.List.{list_any, position_or_len};
ghost use Rattle.f77_tree.specs.Places.{same_block};
ghost use Rattle.layout_rules.specs.Faults.{answer_or};
ghost use Rattle.program_units.specs.Names.{has_block};
ghost use Rattle.program_units.specs.CallTable.{unit_if};
ghost use Rattle.unit_checks.specs.BlockTables.{AreBlockTables, AreOwners, OwnsMore, owner_in};

use crate::block_names::BlockTable;
use df_sequence::NoMemory;
use f77_tree::Name;
use indexmap::IndexMap;
use program_units::{Units, note_name};
use std::alloc::Global;

/// Numbers of units by the COMMON blocks that they have.
#[derive(Drop)]
pub(crate) struct BlockOwners {
    blank: Option<usize>,
    named: IndexMap<Name, usize>,
}

impl BlockOwners {
    // No blocks. It takes no memory.
    fn new(alloc: Global) -> BlockOwners
        ensures { (block : Option (List ℕ)) → owner_in result block ≡ None }
    {
        BlockOwners {
            blank: None,
            named: IndexMap::new(alloc),
        }
    }

    // The unit noted for a block.
    fn found(&self, block: &Option<Name>) -> Option<usize>
        ensures { result ≡ owner_in self.now block.now }
    {
        match block {
            None => self.blank,
            Some(name) => self.named.get(name).copied(),
        }
    }

    // Notes the unit k for a block, unless one was noted before.
    fn note(&mut self, alloc: Global, block: &Option<Name>, k: usize) -> Result<(), NoMemory>
        ensures { OnOk result (OwnsMore self.old self.new (λ b. unit_if (same_block block.now b) k)) }
    {
        match block {
            None => {
                self.note_blank(k);
                Ok(())
            }
            Some(name) => note_name(alloc, &mut self.named, name, k),
        }
    }

    fn note_blank(&mut self, k: usize)
        ensures blank { self.new.blank ≡ answer_or self.old.blank (Some k) }
        ensures named { self.new.named ≡ self.old.named }
    {
        if self.blank.is_none() {
            self.blank = Some(k);
        }
    }

    // Notes the unit k for these blocks, each unless one was noted before.
    fn note_all(&mut self, alloc: Global, blocks: &[Option<Name>], k: usize) -> Result<(), NoMemory>
        ensures { OnOk result (OwnsMore self.old self.new (λ b. unit_if (list_any (λ c. same_block c b) blocks.now) k)) }
    {
        for block in blocks {
            self.note(alloc, block, k)?;
        }
        Ok(())
    }

    /// The index of the first unit that has the block, or the number of units.
    pub(crate) fn unit(&self, us: &Units, block: &Option<Name>) -> usize
        requires { AreOwners us.now self.now }
        ensures { result ≡ position_or_len (λ u. has_block u block.now) us.now }
    {
        match self.found(block) {
            Some(k) => k,
            None => us.len(),
        }
    }
}

/// For each block the first unit that has it.
pub(crate) fn block_owners(
    alloc: Global,
    us: &Units,
    tables: &[BlockTable],
) -> Result<BlockOwners, NoMemory>
    requires { AreBlockTables us.now tables.now }
    ensures { IfOk result (λ owners. AreOwners us.now owners) }
{
    let mut owners = BlockOwners::new(alloc);
    for k in 0..us.len() {
        owners.note_all(alloc, &tables[k].blocks, k)?;
    }
    Ok(owners)
}
