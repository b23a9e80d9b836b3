//! What is kept of the names of units.
ghost use Rattle.std.specs.Prelude.{◌≡◌, IfOk};
ghost use Rattle.entity_names.specs.UnitEntities.{AreNamesOf, AreNamesOfAll, entity_by};

use crate::dummy_places::dummy_places;
use crate::unit_blocks::UnitBlocks;
use crate::unit_names::unit_names;
use declared_names::{AppearingNames, NameDeclarations};
use df_sequence::{Copied, NoMemory};
use f77_tree::{Labelled, Name};
use indexmap::IndexMap;
use program_units::{Entity, Units, dummies};
use std::alloc::Global;

/// What is kept of the names of a unit.
#[derive(Drop)]
pub struct UnitNames {
    pub declared: NameDeclarations,
    /// All names, each once, in the order in which they first appear.
    pub(crate) names: AppearingNames,
    pub(crate) dummies: Vec<Name>,
    /// For a dummy its first place in their list.
    pub(crate) places: IndexMap<Name, usize>,
    pub blocks: UnitBlocks,
}

impl UnitNames {
    /// Reads a unit. It takes a time linear in the unit.
    pub(crate) fn of(alloc: Global, unit: &[Labelled]) -> Result<UnitNames, NoMemory>
        ensures { IfOk result (λ kept. AreNamesOf unit.now kept) }
    {
        let declared = NameDeclarations::of(alloc, unit)?;
        let names = unit_names(alloc, &declared, unit)?;
        let dummies = dummies(alloc, unit)?;
        let places = dummy_places(alloc, &dummies)?;
        let blocks = UnitBlocks::of(alloc, unit)?;
        Ok(UnitNames {
            declared,
            names,
            dummies,
            places,
            blocks,
        })
    }

    /// What a name of the unit, which has the index k in its text, stands for.
    pub(crate) fn entity(&self, alloc: Global, k: usize, name: &Name) -> Result<Entity, NoMemory>
        ensures { IfOk result (λ e. e ≡ entity_by self.now k name.now) }
    {
        match self.blocks.entity(name) {
            Some(entity) => entity.copy(alloc),
            None => Ok(Entity::Local(k, name.copy(alloc)?)),
        }
    }
}

/// What is kept of each unit.
pub(crate) fn names_of_all(alloc: Global, us: &Units) -> Result<Vec<UnitNames>, NoMemory>
    ensures { IfOk result (λ kept. AreNamesOfAll us.now kept.items) }
{
    let mut kept = Vec::new(alloc);
    for k in 0..us.len() {
        kept.push(UnitNames::of(alloc, us.at(k))?)?;
    }
    Ok(kept)
}
