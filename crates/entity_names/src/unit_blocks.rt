//! The COMMON blocks of a unit.
ghost use Rattle.std.specs.Prelude.{◌≡◌, ◌+◌, ◌++◌, ◌∷◌, [], List, Option, option_copied, Some, None, bytes_eq, IfOk, OnOk};
ghost use Rattle.indexmap.specs.IndexMap.{get, index_map_len};
ghost use Rattle.f77_tree.specs.Places.{same_block};
ghost use Rattle.declared_names.specs.KeptDeclarations.{Keeps};
ghost use Rattle.program_units.specs.Names.{same_entity};
ghost use Rattle.entity_names.specs.UnitBlocks.{AreBlocksOf, AreKept, InCommon, KeepsNames, Sets, declared_by, in_commons, or_zero, place_if};

use df_sequence::{Copied, NoMemory};
use f77_layout::commons_of;
use f77_tree::{CommonPart, Decl, Labelled, Name};
use indexmap::IndexMap;
use program_units::{Entity, copy_of_block};
use std::alloc::Global;

/// The COMMON blocks of a unit, each over all parts of it.
#[derive(Drop)]
pub struct UnitBlocks {
    /// For a block how many names it has.
    sizes: IndexMap<Option<Name>, usize>,
    /// For a name of a block what it stands for.
    entities: IndexMap<Name, Entity>,
    /// For a place of a block the name there.
    names: IndexMap<Entity, Name>,
}

impl UnitBlocks {
    /// Reads a unit. It takes a time linear in the names of COMMON.
    pub(crate) fn of(alloc: Global, unit: &[Labelled]) -> Result<UnitBlocks, NoMemory>
        ensures { IfOk result (λ blocks. AreBlocksOf unit.now blocks) }
    {
        let commons = commons_of(alloc, unit)?;
        let mut blocks = UnitBlocks::new(alloc);
        blocks.note_parts(alloc, commons.as_slice())?;
        Ok(blocks)
    }

    // Notes the names of parts of blocks.
    fn note_parts(&mut self, alloc: Global, parts: &[CommonPart]) -> Result<(), NoMemory>
        requires { KeepsNames self.old }
        ensures { OnOk result ((common : List InCommon) → AreKept common self.old → AreKept (common ++ in_commons parts.now) self.new) }
    {
        for part in parts {
            self.note_decls(alloc, &part.block, part.decls.as_slice())?;
        }
        Ok(())
    }

    // No blocks.
    fn new(alloc: Global) -> UnitBlocks
        ensures { AreKept [] result }
    {
        UnitBlocks {
            sizes: IndexMap::new(alloc),
            entities: IndexMap::new(alloc),
            names: IndexMap::new(alloc),
        }
    }

    // Notes the names of a part of a block.
    fn note_decls(
        &mut self,
        alloc: Global,
        block: &Option<Name>,
        decls: &[Decl],
    ) -> Result<(), NoMemory>
        requires { KeepsNames self.old }
        ensures { OnOk result ((common : List InCommon) → AreKept common self.old → AreKept (common ++ declared_by block.now decls.now) self.new) }
    {
        for decl in decls {
            self.note(alloc, block, &decl.name)?;
        }
        Ok(())
    }

    // Notes a name of a block.
    fn note(&mut self, alloc: Global, block: &Option<Name>, name: &Name) -> Result<(), NoMemory>
        requires { KeepsNames self.old }
        ensures { OnOk result ((common : List InCommon) → AreKept common self.old → AreKept (common ++ record { block = block.now; name = name.now } ∷ []) self.new) }
    {
        let place = self.size(block);
        // No block has more names than are kept, and a map has room for fewer than 2^63.
        let _kept = self.names.len();
        note_number(&mut self.sizes, copy_of_block(alloc, block)?, place + 1)?;
        let entity = Entity::InBlock(copy_of_block(alloc, block)?, place);
        note_name(&mut self.names, entity, name.copy(alloc)?)?;
        note_entity(alloc, &mut self.entities, block, place, name)?;
        Ok(())
    }

    /// How many names a block has.
    pub fn size(&self, block: &Option<Name>) -> usize
        ensures { result ≡ or_zero (get same_block self.now.sizes block.now) }
    {
        match self.sizes.get(block) {
            Some(size) => *size,
            None => 0,
        }
    }

    /// What a name stands for, if it is one of a block.
    pub(crate) fn entity(&self, name: &Name) -> Option<&Entity>
        ensures { option_copied result ≡ get bytes_eq self.now.entities name.now }
    {
        self.entities.get(name)
    }

    /// The name at a place of a block.
    pub fn name_at(&self, entity: &Entity) -> Option<&Name>
        ensures { option_copied result ≡ get same_entity self.now.names entity.now }
    {
        self.names.get(entity)
    }
}

/// Notes the number of a block in place of an older one.
///
/// # Errors
///
/// Where there is no memory.
pub fn note_number(
    numbers: &mut IndexMap<Option<Name>, usize>,
    block: Option<Name>,
    number: usize,
) -> Result<(), NoMemory>
    ensures { OnOk result (Sets same_block block number (get same_block numbers.old) (get same_block numbers.new)) }
{
    numbers.insert(block, number)?;
    Ok(())
}

// Notes the name of an entity in place of an older one.
fn note_name(names: &mut IndexMap<Entity, Name>, entity: Entity, name: Name) -> Result<(), NoMemory>
    ensures sets { OnOk result (Sets same_entity entity name (get same_entity names.old) (get same_entity names.new)) }
    ensures more { OnOk result (get same_entity names.old entity ≡ None → index_map_len names.new ≡ index_map_len names.old + 1) }
{
    names.insert(entity, name)?;
    Ok(())
}

// Notes the place of a name of a block, unless the name has one.
fn note_entity(
    alloc: Global,
    entities: &mut IndexMap<Name, Entity>,
    block: &Option<Name>,
    place: usize,
    name: &Name,
) -> Result<(), NoMemory>
    ensures { OnOk result (Keeps bytes_eq entities.old entities.new (λ x. place_if block.now place (bytes_eq name.now x))) }
{
    if !entities.contains_key(name) {
        let entity = Entity::InBlock(copy_of_block(alloc, block)?, place);
        entities.insert(name.copy(alloc)?, entity)?;
    }
    Ok(())
}
