//! What the names of units stand for.
ghost use Rattle.std.specs.Prelude.{◌≡◌, ◌<◌, [], length, Some, slice_get, true, IfOk, OnOk};
ghost use Rattle.std.specs.List.{list_any, position_or_len};
ghost use Rattle.program_units.specs.Names.{same_entity, with_entity};

use df_sequence::{Copied, NoMemory};
use f77_tree::Name;
use indexmap::IndexSet;
use std::alloc::Global;
use std::marker::Model;

/// What a name of a unit stands for.
#[derive(PartialEq, Eq, Hash, Drop)]
pub enum Entity {
    /// A local of a unit, and its name there.
    Local(usize, Name),
    /// A COMMON block, blank where it has no name, and a place in it, counted from 0.
    InBlock(Option<Name>, usize),
}

impl Copied for Entity {
    fn copy(&self, alloc: Global) -> Result<Entity, NoMemory> {
        match self {
            Entity::Local(unit, name) => Ok(Entity::Local(*unit, name.copy(alloc)?)),
            Entity::InBlock(block, place) => {
                Ok(Entity::InBlock(copy_of_block(alloc, block)?, *place))
            }
        }
    }
}

/// A copy of a block's name, which blank COMMON hasn't.
///
/// # Errors
///
/// Where there is no memory.
pub fn copy_of_block(alloc: Global, block: &Option<Name>) -> Result<Option<Name>, NoMemory>
    ensures { IfOk result (λ copied. copied ≡ block.now) }
{
    match block {
        None => Ok(None),
        Some(name) => Ok(Some(name.copy(alloc)?)),
    }
}

/// Entities, each once. Contracts see them as a list, in the order in which they were added.
#[derive(Drop)]
pub struct Entities {
    set: IndexSet<Entity>,
}

impl Model for Entities {
    ghost use Rattle.std.specs.Prelude.{List};
    ghost use Rattle.program_units.specs.Entities.{Entity as EntityOf};

    ghost Value = { List EntityOf };

    ghost view = { λ e. e.set.keys };
}

impl Entities {
    /// No entities. They take no memory.
    pub fn new(alloc: Global) -> Entities
        ensures { result ≡ [] }
    {
        Entities {
            set: IndexSet::new(alloc),
        }
    }

    /// Adds an entity where it isn't among them yet.
    ///
    /// # Errors
    ///
    /// Where there is no memory.
    pub fn add(&mut self, entity: Entity) -> Result<(), NoMemory>
        ensures { OnOk result (self.new ≡ with_entity self.old entity) }
    {
        self.set.insert(entity)?;
        Ok(())
    }

    /// How many there are.
    pub fn len(&self) -> usize
        ensures { result ≡ length self.now }
    {
        self.set.len()
    }

    /// The index of an entity that is among them.
    pub fn place(&self, entity: &Entity) -> usize
        requires { list_any (same_entity entity.now) self.now ≡ true }
        ensures is { result ≡ position_or_len (same_entity entity.now) self.now }
        ensures inside { result < length self.now }
    {
        match self.set.get_index_of(entity) {
            Some(i) => i,
            None => unreachable!(),
        }
    }

    /// The entity at an index.
    pub fn at(&self, index: usize) -> &Entity
        requires { index < length self.now }
        ensures { slice_get self.now index ≡ Some result.now }
    {
        match self.set.get_index(index) {
            Some(entity) => entity,
            None => unreachable!(),
        }
    }
}
