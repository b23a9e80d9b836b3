//! The names of a text: what they stand for, and which are in use.
ghost use Rattle.std.specs.Prelude.{◌≡◌, ◌<◌, ◌∷◌, [], ℕ, List, Option, Some, fold, length, map, slice_get, IfOk, OnOk};
ghost use Rattle.std.specs.List.{list_any};
ghost use Rattle.f77_tree.specs.Places.{same_block};
ghost use Rattle.program_units.specs.Expansion.{with_block, blocks_in};
ghost use Rattle.program_units.specs.Names.{has_block, with_entity, y_entities};
ghost use Rattle.program_units.specs.Units.{unit_at};
ghost use Rattle.entity_names.specs.UnitEntities.{AreNamesOfAll, is_main_by, own_by};

use crate::unit_entities::UnitNames;
use df_sequence::NoMemory;
use f77_layout::commons_of;
use f77_tree::{CommonPart, Labelled, Name};
use indexmap::IndexSet;
use program_units::{Entities, Entity, Units, copy_of_block};
use std::alloc::Global;
use std::marker::Model;

/// COMMON blocks, each once. Contracts see them as a list, in the order in which they were added.
#[derive(Drop)]
pub struct Blocks {
    set: IndexSet<Option<Name>>,
}

impl Model for Blocks {
    ghost use Rattle.std.specs.Prelude.{ℕ, List, Option};

    ghost Value = { List (Option (List ℕ)) };

    ghost view = { λ b. b.set.keys };
}

impl Blocks {
    /// No blocks. They take no memory.
    pub fn new(alloc: Global) -> Blocks
        ensures { result ≡ [] }
    {
        Blocks {
            set: IndexSet::new(alloc),
        }
    }

    /// Adds the blocks of a unit.
    ///
    /// # Errors
    ///
    /// Where there is no memory.
    pub fn add_all(&mut self, alloc: Global, unit: &[Labelled]) -> Result<(), NoMemory>
        ensures { OnOk result (self.new ≡ fold with_block self.old (blocks_in unit.now)) }
    {
        let commons = commons_of(alloc, unit)?;
        self.add_parts(alloc, commons.as_slice())?;
        Ok(())
    }

    // Adds the blocks of these parts.
    fn add_parts(&mut self, alloc: Global, parts: &[CommonPart]) -> Result<(), NoMemory>
        ensures { OnOk result (self.new ≡ fold with_block self.old (map (λ part. part.block) parts.now)) }
    {
        for part in parts {
            self.add(alloc, &part.block)?;
        }
        Ok(())
    }

    // Adds a block where it isn't among them yet.
    fn add(&mut self, alloc: Global, block: &Option<Name>) -> Result<(), NoMemory>
        ensures { OnOk result (self.new ≡ with_block self.old block.now) }
    {
        self.set.insert(copy_of_block(alloc, block)?)?;
        Ok(())
    }

    /// Whether a block is among them.
    pub fn has(&self, block: &Option<Name>) -> bool
        ensures { result ≡ list_any (same_block block.now) self.now }
    {
        self.set.contains(block)
    }

    /// How many there are.
    pub fn len(&self) -> usize
        ensures { result ≡ length self.now }
    {
        self.set.len()
    }

    /// The block at an index.
    pub fn at(&self, index: usize) -> &Option<Name>
        requires { index < length self.now }
        ensures { slice_get self.now index ≡ Some result.now }
    {
        match self.set.get_index(index) {
            Some(block) => block,
            None => unreachable!(),
        }
    }
}

/// The blocks of the main program.
pub(crate) fn main_blocks(alloc: Global, us: &Units) -> Result<Blocks, NoMemory>
    ensures { IfOk result (λ blocks. (block : Option (List ℕ)) → list_any (same_block block) blocks ≡ has_block (unit_at us.now 0) block) }
{
    if us.len() == 0 {
        return Ok(Blocks::new(alloc));
    }
    blocks_of(alloc, us.at(0))
}

// The blocks of a unit.
fn blocks_of(alloc: Global, unit: &[Labelled]) -> Result<Blocks, NoMemory>
    ensures { IfOk result (λ blocks. (block : Option (List ℕ)) → list_any (same_block block) blocks ≡ has_block unit.now block) }
{
    let mut blocks = Blocks::new(alloc);
    blocks.add_all(alloc, unit)?;
    Ok(blocks)
}

/// The entities that get names of their own, in the order of these. These are the blocks of the main program.
pub(crate) fn own_entities(
    alloc: Global,
    us: &Units,
    kept: &[UnitNames],
    main: &Blocks,
) -> Result<Entities, NoMemory>
    requires kept { AreNamesOfAll us.now kept.now }
    requires main { (block : Option (List ℕ)) → list_any (same_block block) main.now ≡ has_block (unit_at us.now 0) block }
    ensures { IfOk result (λ own. own ≡ y_entities us.now) }
{
    let mut own = Entities::new(alloc);
    for k in 1..us.len() {
        add_own(alloc, &mut own, main, &kept[k], k)?;
    }
    Ok(own)
}

// Adds the entities of the unit k that get names of their own.
fn add_own(
    alloc: Global,
    own: &mut Entities,
    main: &Blocks,
    kept: &UnitNames,
    k: usize,
) -> Result<(), NoMemory>
    ensures { OnOk result (own.new ≡ fold with_entity own.old (own_by main.now kept.now k kept.now.names)) }
{
    for i in 0..kept.names.len() {
        add_entity(alloc, own, main, kept, k, kept.names.name(i))?;
    }
    Ok(())
}

// Adds what a name of the unit k stands for, unless it is a dummy, or the main program has a name for it.
fn add_entity(
    alloc: Global,
    own: &mut Entities,
    main: &Blocks,
    kept: &UnitNames,
    k: usize,
    name: &Name,
) -> Result<(), NoMemory>
    ensures { OnOk result (own.new ≡ fold with_entity own.old (own_by main.now kept.now k (name.now ∷ []))) }
{
    if kept.places.contains_key(name) {
        return Ok(());
    }
    let entity = kept.entity(alloc, k, name)?;
    if is_main(main, &entity) {
        return Ok(());
    }
    own.add(entity)
}

/// Whether the name of an entity is the main program's, whose blocks are these.
pub(crate) fn is_main(main: &Blocks, entity: &Entity) -> bool
    ensures { result ≡ is_main_by main.now entity.now }
{
    match entity {
        Entity::Local(unit, _) => *unit == 0,
        Entity::InBlock(block, _) => main.has(block),
    }
}
