//! The COMMON blocks of a unit, with the names of each.
ghost use Rattle.std.specs.Prelude.{◌≡◌, ◌++◌, ◌∷◌, [], ℕ, List, Option, Some, None, if◌then◌else◌, unwrap_or, bytes_eq, IfOk, OnOk};
ghost use Rattle.std.specs.Option.{is_none};
ghost use Rattle.indexmap.specs.IndexMap.{get};
ghost use Rattle.unit_checks.specs.BlockTables.{AreNoted, HasMore, IsTableOfBlocks, decl_names, found_names, more_if, names_under};

use declared_names::NameDeclarations;
use df_sequence::{Copied, NoMemory};
use f77_layout::commons_of;
use f77_tree::{CommonPart, Decl, Labelled, Name};
use indexmap::IndexMap;
use std::alloc::Global;

/// The names of COMMON blocks, of each over all its parts, in order.
#[derive(Drop)]
pub(crate) struct BlockNames {
    has_blank: bool,
    /// The names of blank common.
    blank: Vec<Name>,
    named: IndexMap<Name, Vec<Name>>,
}

impl BlockNames {
    /// No blocks. It takes no memory.
    fn new(alloc: Global) -> BlockNames
        ensures { (block : Option (List ℕ)) → found_names result block ≡ None }
    {
        BlockNames {
            has_blank: false,
            blank: Vec::new(alloc),
            named: IndexMap::new(alloc),
        }
    }

    /// The names of a block: none where it isn't there.
    pub(crate) fn of(&self, block: &Option<Name>) -> &[Name]
        ensures { result.now ≡ unwrap_or (found_names self.now block.now) [] }
    {
        match block {
            None => self.of_blank(),
            Some(name) => self.of_named(name),
        }
    }

    fn of_blank(&self) -> &[Name]
        ensures { result.now ≡ unwrap_or (found_names self.now None) [] }
    {
        if self.has_blank {
            self.blank.as_slice()
        } else {
            &[]
        }
    }

    fn of_named(&self, name: &Name) -> &[Name]
        ensures { result.now ≡ unwrap_or (found_names self.now (Some name.now)) [] }
    {
        match self.named.get(name) {
            Some(names) => names.as_slice(),
            None => &[],
        }
    }

    // Puts the names of a part behind those of its block, and tells whether the block is new.
    fn add(&mut self, alloc: Global, part: &CommonPart) -> Result<bool, NoMemory>
        ensures is_new { IfOk result (λ is_new. is_new ≡ is_none (found_names self.old part.now.block)) }
        ensures names { OnOk result (HasMore self.old part.now self.new) }
    {
        match &part.block {
            None => self.add_blank(alloc, part.decls.as_slice()),
            Some(name) => add_named(alloc, &mut self.named, name, part.decls.as_slice()),
        }
    }

    // Puts names behind those of blank common, and tells whether it is new.
    fn add_blank(&mut self, alloc: Global, decls: &[Decl]) -> Result<bool, NoMemory>
        ensures is_new { IfOk result (λ is_new. is_new ≡ is_none (found_names self.old None)) }
        ensures blank { OnOk result (found_names self.new None ≡ Some (unwrap_or (found_names self.old None) [] ++ decl_names decls.now)) }
        ensures named { self.new.named ≡ self.old.named }
    {
        if self.has_blank {
            add_names(alloc, &mut self.blank, decls)?;
            return Ok(false);
        }
        self.blank = names_of(alloc, decls)?;
        self.has_blank = true;
        Ok(true)
    }
}

// Puts names behind those of a block, and tells whether it is new.
fn add_named(
    alloc: Global,
    named: &mut IndexMap<Name, Vec<Name>>,
    name: &Name,
    decls: &[Decl],
) -> Result<bool, NoMemory>
    ensures is_new { IfOk result (λ is_new. is_new ≡ is_none (get bytes_eq named.old name.now)) }
    ensures names { OnOk result ((x : List ℕ) → names_under named.new x ≡ more_if (bytes_eq name.now x) (names_under named.old x) decls.now) }
{
    match named.get_mut(name) {
        Some(names) => {
            add_names(alloc, names, decls)?;
            Ok(false)
        }
        None => {
            named.insert(name.copy(alloc)?, names_of(alloc, decls)?)?;
            Ok(true)
        }
    }
}

// The names of declarators.
fn names_of(alloc: Global, decls: &[Decl]) -> Result<Vec<Name>, NoMemory>
    ensures { IfOk result (λ names. names.items ≡ decl_names decls.now) }
{
    let mut names = Vec::new(alloc);
    add_names(alloc, &mut names, decls)?;
    Ok(names)
}

// Adds the names of declarators.
fn add_names(alloc: Global, names: &mut Vec<Name>, decls: &[Decl]) -> Result<(), NoMemory>
    ensures { OnOk result (names.new.items ≡ names.old.items ++ decl_names decls.now) }
{
    for decl in decls {
        names.push(decl.name.copy(alloc)?)?;
    }
    Ok(())
}

/// What the declarations of a unit say of names, and its COMMON blocks, each once.
#[derive(Drop)]
pub(crate) struct BlockTable {
    pub(crate) declared: NameDeclarations,
    pub(crate) names: BlockNames,
    pub(crate) blocks: Vec<Option<Name>>,
}

impl BlockTable {
    /// Reads a unit.
    pub(crate) fn of(alloc: Global, unit: &[Labelled]) -> Result<BlockTable, NoMemory>
        ensures { IfOk result (λ table. IsTableOfBlocks unit.now table) }
    {
        let declared = NameDeclarations::of(alloc, unit)?;
        let commons = commons_of(alloc, unit)?;
        let mut names = BlockNames::new(alloc);
        let mut blocks = Vec::new(alloc);
        note_parts(alloc, &mut names, &mut blocks, commons.as_slice())?;
        Ok(BlockTable {
            declared,
            names,
            blocks,
        })
    }
}

// Notes the parts of a unit, where nothing was noted before.
fn note_parts(
    alloc: Global,
    names: &mut BlockNames,
    blocks: &mut Vec<Option<Name>>,
    parts: &[CommonPart],
) -> Result<(), NoMemory>
    requires names { (block : Option (List ℕ)) → found_names names.old block ≡ None }
    requires blocks { blocks.old.items ≡ [] }
    ensures { OnOk result (AreNoted parts.now names.new blocks.new.items) }
{
    for part in parts {
        note_part(alloc, names, blocks, part)?;
    }
    Ok(())
}

// Notes a part.
fn note_part(
    alloc: Global,
    names: &mut BlockNames,
    blocks: &mut Vec<Option<Name>>,
    part: &CommonPart,
) -> Result<(), NoMemory>
    ensures names { OnOk result (HasMore names.old part.now names.new) }
    ensures blocks { OnOk result (blocks.new.items ≡ blocks.old.items ++ (if is_none (found_names names.old part.now.block) then part.now.block ∷ [] else [])) }
{
    let is_new = names.add(alloc, part)?;
    if is_new {
        blocks.push(copy_block(alloc, &part.block)?)?;
    }
    Ok(())
}

fn copy_block(alloc: Global, block: &Option<Name>) -> Result<Option<Name>, NoMemory>
    ensures { IfOk result (λ copied. copied ≡ block.now) }
{
    match block {
        None => Ok(None),
        Some(name) => Ok(Some(name.copy(alloc)?)),
    }
}
