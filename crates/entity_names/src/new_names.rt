//! The names of a text in its expansion.
ghost use Rattle.std.specs.Prelude.{◌≡◌, ◌<◌, ◌≤◌, length, Some, option_copied, false, true, bytes_eq, IfOk};
ghost use Rattle.std.specs.List.{list_any};
ghost use Rattle.std.specs.Option.{is_some};
ghost use Rattle.indexmap.specs.IndexMap.{get};
ghost use Rattle.program_units.specs.Entities.{entity_of};
ghost use Rattle.program_units.specs.NamedEntities.{AreAllNamed, has_main_name, has_name};
ghost use Rattle.program_units.specs.Names.{main_name, name_for, names_of_unit, same_entity, y_entities, y_name};
ghost use Rattle.program_units.specs.NewNames.{own_texts, AreNewNames, new_name};
ghost use Rattle.program_units.specs.Refusals.{has_great_name};
ghost use Rattle.program_units.specs.Units.{unit_at};

use crate::text_entities::TextEntities;
use crate::text_names::is_main;
use crate::y_names::free_names;
use declared_names::AppearingNames;
use df_sequence::{Copied, NoMemory};
use f77_tree::Name;
use indexmap::IndexMap;
use program_units::{Entity, NewName};
use std::alloc::Global;

/// The names of a text in its expansion.
#[derive(Drop)]
pub struct NewNames<'a> {
    /// What its names stand for.
    pub text: &'a TextEntities<'a>,
    /// The names of the entities that get names of their own, one by one.
    names: Vec<Name>,
    ghost all_named: { names.items ≡ own_texts text.now.us.now },
    ghost as_many: { length names.items ≡ length (y_entities text.now.us.now) },
    ghost few: { length names.items ≤ 99999 },
    ghost named: { AreAllNamed text.now.us.now },
}

impl<'a> NewNames<'a> {
    /// Finds free names. It takes a time linear in the text.
    ///
    /// # Errors
    ///
    /// Where there is no memory.
    pub fn of(alloc: Global, text: &'a TextEntities<'a>) -> Result<NewNames<'a>, NoMemory>
        requires named { AreAllNamed text.now.us.now }
        requires small { has_great_name text.now.us.now ≡ false }
        ensures { IfOk result (λ new. new.text.now ≡ text.now) }
    {
        let used = text.used(alloc)?;
        let names = free_names(alloc, &used, text.own.len())?;
        Ok(NewNames { text, names })
    }

    /// The name of an entity.
    ///
    /// # Errors
    ///
    /// Where there is no memory.
    pub fn name_for(&self, alloc: Global, entity: &Entity) -> Result<Name, NoMemory>
        requires { has_name self.now.text.now.us.now entity.now ≡ true }
        ensures { IfOk result (λ name. name ≡ name_for self.now.text.now.us.now entity.now) }
    {
        if is_main(&self.text.main, entity) {
            self.main_name(alloc, entity)
        } else {
            self.own_name(alloc, entity)
        }
    }

    // The name that the main program has for an entity.
    fn main_name(&self, alloc: Global, entity: &Entity) -> Result<Name, NoMemory>
        requires { has_main_name self.now.text.now.us.now entity.now ≡ true }
        ensures { IfOk result (λ name. name ≡ main_name self.now.text.now.us.now entity.now) }
    {
        match entity {
            Entity::Local(_, name) => name.copy(alloc),
            Entity::InBlock(_, _) => copy_found(alloc, self.text.kept[0].blocks.name_at(entity)),
        }
    }

    // The name of an entity that has one of its own.
    fn own_name(&self, alloc: Global, entity: &Entity) -> Result<Name, NoMemory>
        requires { list_any (same_entity entity.now) (y_entities self.now.text.now.us.now) ≡ true }
        ensures { IfOk result (λ name. name ≡ y_name self.now.text.now.us.now entity.now) }
    {
        let i = self.text.own.place(entity);
        self.names[i].copy(alloc)
    }

    /// The new name of a name of the unit k that isn't a dummy.
    ///
    /// # Errors
    ///
    /// Where there is no memory.
    pub fn name_in(&self, alloc: Global, k: usize, name: &Name) -> Result<Name, NoMemory>
        requires unit { k < length self.now.text.now.us.now }
        requires named { has_name self.now.text.now.us.now (entity_of self.now.text.now.us.now k name.now) ≡ true }
        ensures { IfOk result (λ new. new ≡ name_for self.now.text.now.us.now (entity_of self.now.text.now.us.now k name.now)) }
    {
        let entity = self.text.kept[k].entity(alloc, k, name)?;
        self.name_for(alloc, &entity)
    }

    /// What the names of the unit k become in its copies.
    ///
    /// # Errors
    ///
    /// Where there is no memory.
    pub fn new_names(&self, alloc: Global, k: usize) -> Result<IndexMap<Name, NewName>, NoMemory>
        requires sub { 0 < k }
        requires unit { k < length self.now.text.now.us.now }
        ensures { IfOk result (λ new. AreNewNames self.now.text.now.us.now k (get bytes_eq new)) }
    {
        let kept = &self.text.kept[k];
        let mut new = IndexMap::new(alloc);
        for i in 0..kept.names.len() {
            let name = kept.names.name(i);
            let becomes = self.new_name(alloc, k, name)?;
            new.insert(name.copy(alloc)?, becomes)?;
        }
        Ok(new)
    }

    /// The names of the unit k, each once, in the order in which they first appear, those of CALL too.
    pub fn names(&self, k: usize) -> &AppearingNames
        requires { k < length self.now.text.now.us.now }
        ensures { result.now ≡ names_of_unit (unit_at self.now.text.now.us.now k) }
    {
        &self.text.kept[k].names
    }

    /// What a name of the subroutine k becomes in its copies.
    ///
    /// # Errors
    ///
    /// Where there is no memory.
    pub fn new_name(&self, alloc: Global, k: usize, name: &Name) -> Result<NewName, NoMemory>
        requires sub { 0 < k }
        requires unit { k < length self.now.text.now.us.now }
        requires appears { list_any (bytes_eq name.now) (names_of_unit (unit_at self.now.text.now.us.now k)) ≡ true }
        ensures { IfOk result (λ new. new ≡ new_name self.now.text.now.us.now k name.now) }
    {
        match self.text.kept[k].places.get(name) {
            Some(place) => Ok(NewName::Argument(*place)),
            None => Ok(NewName::Fixed(self.name_in(alloc, k, name)?)),
        }
    }
}

/// A copy of a name that was found.
///
/// # Errors
///
/// Where there is no memory.
pub fn copy_found(alloc: Global, found: Option<&Name>) -> Result<Name, NoMemory>
    requires { is_some (option_copied found) ≡ true }
    ensures { IfOk result (λ name. option_copied found.entry ≡ Some name) }
{
    match found {
        Some(name) => name.copy(alloc),
        None => unreachable!(),
    }
}
