//! The entities of a text.
ghost use Rattle.std.specs.Prelude.{◌≡◌, ℕ, List, Option, IfOk};
ghost use Rattle.std.specs.List.{list_any};
ghost use Rattle.f77_tree.specs.Places.{same_block};
ghost use Rattle.layout_rules.specs.Appearances.{each_once};
ghost use Rattle.program_units.specs.Names.{has_block, used_names as used_names_of, y_entities};
ghost use Rattle.program_units.specs.Units.{unit_at};
ghost use Rattle.entity_names.specs.UnitEntities.{AreNamesOfAll};

use crate::text_names::{Blocks, main_blocks, own_entities};
use crate::unit_entities::{UnitNames, names_of_all};
use crate::used_names::used_names;
use declared_names::AppearingNames;
use df_sequence::NoMemory;
use program_units::{Entities, Units};
use std::alloc::Global;

/// What the names of a text stand for.
#[derive(Drop)]
pub struct TextEntities<'a> {
    /// Its units.
    pub us: &'a Units<'a>,
    /// What is kept of each unit.
    pub kept: Vec<UnitNames>,
    /// The blocks of the main program.
    pub main: Blocks,
    /// The entities that get names of their own.
    pub own: Entities,
    ghost all_kept: { AreNamesOfAll us.now kept.items },
    ghost main_blocks: { (block : Option (List ℕ)) → list_any (same_block block) main ≡ has_block (unit_at us.now 0) block },
    ghost all_own: { own ≡ y_entities us.now },
}

impl<'a> TextEntities<'a> {
    /// Reads all units. It takes a time linear in them.
    ///
    /// # Errors
    ///
    /// Where there is no memory.
    pub fn of(alloc: Global, us: &'a Units<'a>) -> Result<TextEntities<'a>, NoMemory>
        ensures { IfOk result (λ text. text.us.now ≡ us.now) }
    {
        let kept = names_of_all(alloc, us)?;
        let main = main_blocks(alloc, us)?;
        let own = own_entities(alloc, us, &kept, &main)?;
        Ok(TextEntities {
            us,
            kept,
            main,
            own,
        })
    }

    /// All names in use.
    ///
    /// # Errors
    ///
    /// Where there is no memory.
    pub fn used(&self, alloc: Global) -> Result<AppearingNames, NoMemory>
        ensures { IfOk result (λ used. used ≡ each_once (used_names_of self.now.us.now)) }
    {
        used_names(alloc, self.us, &self.kept)
    }
}
