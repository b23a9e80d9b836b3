//! What is merged into the main program: declarations of the entities that subroutines add, and their EQUIVALENCE and DATA.
ghost use Rattle.std.specs.Prelude.{◌≡◌, ◌<◌, ◌++◌, ℕ, List, Option, false, true, length, slice_index_or, IfOk, OnOk};
ghost use Rattle.std.specs.List.{list_any};
ghost use Rattle.indexmap.specs.IndexMap.{get};
ghost use Rattle.f77_tree.specs.Places.{same_block};
ghost use Rattle.program_units.specs.Expansion.{blocks as blocks_of, merged};
ghost use Rattle.layout_rules.specs.Layout.{last_line};
ghost use Rattle.program_units.specs.NamedEntities.{has_name, is_declared};
ghost use Rattle.program_units.specs.Merged.{common_if, commons, first_with_block, is_merged as is_merged_of, is_run_block, type_if, types};
ghost use Rattle.f77_subs.specs.MergedStorage.{storage};
ghost use Rattle.program_units.specs.Units.{runs as runs_of, unit_at};

use crate::declaring::{common_decls, type_decl};
use crate::merged_blocks::{all_blocks, first_units, running_blocks};
use crate::merged_counts::is_running;
use crate::merged_storage::{StorageKind, put_storage_if};
use df_sequence::{NoMemory, Sequence};
use entity_names::{Blocks, NewNames};
use f77_tree::{CommonPart, Labelled, Name, Stmt};
use indexmap::IndexMap;
use inlined_copies::put;
use program_units::{Entity, copy_of_block, line_of_end};
use std::alloc::Global;

/// What is known of a text while statements are merged.
#[derive(Drop)]
pub(crate) struct Merging<'a> {
    pub(crate) new: &'a NewNames<'a>,
    /// For each unit whether it runs.
    pub(crate) runs: &'a [bool],
    /// The blocks of subroutines that run.
    running: Blocks,
    /// All blocks, in the order in which they first appear.
    blocks: Blocks,
    /// For a block the first unit that has it.
    pub(crate) firsts: IndexMap<Option<Name>, usize>,
    /// The line of the main program's END.
    line: u32,
    ghost enough: { length new.now.text.now.us.now < length runs.now },
    ghost told: { (k : ℕ) → k < length new.now.text.now.us.now → slice_index_or runs.now k false ≡ runs_of new.now.text.now.us.now k },
    ghost run_blocks: { (block : Option (List ℕ)) → list_any (same_block block) running ≡ is_run_block new.now.text.now.us.now block },
    ghost all_blocks: { blocks ≡ blocks_of new.now.text.now.us.now },
    ghost first_units: { (block : Option (List ℕ)) → get same_block firsts block ≡ first_with_block new.now.text.now.us.now block },
    ghost last: { line ≡ last_line (unit_at new.now.text.now.us.now 0) },
}

impl<'a> Merging<'a> {
    /// Reads the blocks of all units.
    pub(crate) fn of(
        alloc: Global,
        new: &'a NewNames<'a>,
        runs: &'a [bool],
    ) -> Result<Merging<'a>, NoMemory>
        requires enough { length new.now.text.now.us.now < length runs.now }
        requires told { (k : ℕ) → k < length new.now.text.now.us.now → slice_index_or runs.now k false ≡ runs_of new.now.text.now.us.now k }
        ensures { IfOk result (λ made. made.new.now.text.now.us.now ≡ new.now.text.now.us.now) }
    {
        let running = running_blocks(alloc, new.text.us, runs)?;
        let blocks = all_blocks(alloc, new.text.us)?;
        let firsts = first_units(alloc, new.text.us)?;
        Ok(Merging {
            new,
            runs,
            running,
            blocks,
            firsts,
            line: line_of_end(new.text.us),
        })
    }

    /// Puts all of it behind the list.
    pub(crate) fn put_all(&self, alloc: Global, out: &mut Vec<Labelled>) -> Result<(), NoMemory>
        ensures { OnOk result (out.new.items ≡ out.old.items ++ merged self.now.new.now.text.now.us.now) }
    {
        self.put_types(alloc, out)?;
        self.put_commons(alloc, out)?;
        self.put_storage(alloc, out, StorageKind::Equivalence)?;
        self.put_storage(alloc, out, StorageKind::Data)?;
        Ok(())
    }

    // A type statement for each entity of a subroutine that runs.
    fn put_types(&self, alloc: Global, out: &mut Vec<Labelled>) -> Result<(), NoMemory>
        ensures { OnOk result (out.new.items ≡ out.old.items ++ types self.now.new.now.text.now.us.now self.now.line) }
    {
        for i in 0..self.new.text.own.len() {
            self.put_type(alloc, out, self.new.text.own.at(i))?;
        }
        Ok(())
    }

    // The type statement of an entity, if its subroutine runs.
    fn put_type(
        &self,
        alloc: Global,
        out: &mut Vec<Labelled>,
        entity: &Entity,
    ) -> Result<(), NoMemory>
        requires named { has_name self.now.new.now.text.now.us.now entity.now ≡ true }
        requires declared { is_declared self.now.new.now.text.now.us.now entity.now ≡ true }
        ensures { OnOk result (out.new.items ≡ out.old.items ++ type_if self.now.new.now.text.now.us.now self.now.line entity.now) }
    {
        if !is_running(self.new.text.us, self.runs, &self.running, entity) {
            return Ok(());
        }
        let (kind, decls) = type_decl(alloc, self, entity)?;
        put(out, 0, self.line, Stmt::TypeOf(kind, decls))?;
        Ok(())
    }

    // A COMMON statement for each block that subroutines that run add.
    fn put_commons(&self, alloc: Global, out: &mut Vec<Labelled>) -> Result<(), NoMemory>
        ensures { OnOk result (out.new.items ≡ out.old.items ++ commons self.now.new.now.text.now.us.now self.now.line) }
    {
        for i in 0..self.blocks.len() {
            self.put_common(alloc, out, self.blocks.at(i))?;
        }
        Ok(())
    }

    // The COMMON statement of a block, if it is added.
    fn put_common(
        &self,
        alloc: Global,
        out: &mut Vec<Labelled>,
        block: &Option<Name>,
    ) -> Result<(), NoMemory>
        ensures { OnOk result (out.new.items ≡ out.old.items ++ common_if self.now.new.now.text.now.us.now self.now.line block.now) }
    {
        if !self.is_added(block) {
            return Ok(());
        }
        let decls = common_decls(alloc, self, block)?;
        let part = CommonPart {
            block: copy_of_block(alloc, block)?,
            decls,
        };
        let mut parts = Sequence::new(alloc);
        parts.push(part)?;
        put(out, 0, self.line, Stmt::Common(parts))?;
        Ok(())
    }

    // Whether a block is one of subroutines that run, and none of the main program.
    fn is_added(&self, block: &Option<Name>) -> bool
        ensures { result ≡ is_merged_of self.now.new.now.text.now.us.now block.now }
    {
        !self.new.text.main.has(block) && self.running.has(block)
    }

    // The statements of this kind of subroutines that run.
    fn put_storage(
        &self,
        alloc: Global,
        out: &mut Vec<Labelled>,
        kind: StorageKind,
    ) -> Result<(), NoMemory>
        ensures { OnOk result (out.new.items ≡ out.old.items ++ storage kind self.now.new.now.text.now.us.now) }
    {
        for k in 1..self.new.text.us.len() {
            put_storage_if(alloc, self.new, out, kind, self.runs[k], k)?;
        }
        Ok(())
    }
}
