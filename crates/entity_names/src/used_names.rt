//! The names that are in use in a text.
ghost use Rattle.std.specs.Prelude.{◌≡◌, fold, flat_map, IfOk, OnOk};
ghost use Rattle.layout_rules.specs.Appearances.{each_once, with_name};
ghost use Rattle.layout_rules.specs.Declarations.{all_commons};
ghost use Rattle.program_units.specs.Names.{option_names, used_names as used_names_of};
ghost use Rattle.program_units.specs.Units.{sub_name};
ghost use Rattle.entity_names.specs.UnitEntities.{AreNamesOfAll, used_by};

use crate::unit_entities::UnitNames;
use crate::unit_names::note_names;
use declared_names::{AppearingNames, NameDeclarations};
use df_sequence::NoMemory;
use f77_layout::commons_of;
use f77_tree::{CommonPart, Labelled, Name, Stmt};
use program_units::Units;
use std::alloc::Global;

/// The names of a text: those in its units, its dummies, subroutines and blocks.
pub(crate) fn used_names(
    alloc: Global,
    us: &Units,
    kept: &[UnitNames],
) -> Result<AppearingNames, NoMemory>
    requires { AreNamesOfAll us.now kept.now }
    ensures { IfOk result (λ used. used ≡ each_once (used_names_of us.now)) }
{
    let mut used = AppearingNames::new(alloc);
    for k in 0..us.len() {
        note_used(alloc, &mut used, &kept[k], us.at(k))?;
    }
    Ok(used)
}

// Adds the names that a unit uses.
fn note_used(
    alloc: Global,
    used: &mut AppearingNames,
    kept: &UnitNames,
    unit: &[Labelled],
) -> Result<(), NoMemory>
    ensures { OnOk result (used.new ≡ fold with_name used.old (used_by kept.now unit.now)) }
{
    note_all(alloc, used, &kept.declared, &kept.names)?;
    note_names(alloc, used, &kept.declared, &kept.dummies)?;
    note_subs(alloc, used, &kept.declared, unit)?;
    note_blocks(alloc, used, &kept.declared, unit)?;
    Ok(())
}

// Adds all of these names.
fn note_all(
    alloc: Global,
    used: &mut AppearingNames,
    declared: &NameDeclarations,
    names: &AppearingNames,
) -> Result<(), NoMemory>
    ensures { OnOk result (used.new ≡ fold with_name used.old names.now) }
{
    for i in 0..names.len() {
        used.note(alloc, declared, names.name(i))?;
    }
    Ok(())
}

// Adds the names of the subroutines of a unit.
fn note_subs(
    alloc: Global,
    used: &mut AppearingNames,
    declared: &NameDeclarations,
    unit: &[Labelled],
) -> Result<(), NoMemory>
    ensures { OnOk result (used.new ≡ fold with_name used.old (flat_map (λ s. option_names (sub_name s.stmt)) unit.now)) }
{
    for s in unit {
        note_sub(alloc, used, declared, &s.stmt)?;
    }
    Ok(())
}

// Adds the name of a subroutine.
fn note_sub(
    alloc: Global,
    used: &mut AppearingNames,
    declared: &NameDeclarations,
    stmt: &Stmt,
) -> Result<(), NoMemory>
    ensures { OnOk result (used.new ≡ fold with_name used.old (option_names (sub_name stmt.now))) }
{
    match stmt {
        Stmt::Sub(name, _) => used.note(alloc, declared, name),
        _ => Ok(()),
    }
}

// Adds the names of the blocks of a unit.
fn note_blocks(
    alloc: Global,
    used: &mut AppearingNames,
    declared: &NameDeclarations,
    unit: &[Labelled],
) -> Result<(), NoMemory>
    ensures { OnOk result (used.new ≡ fold with_name used.old (flat_map (λ part. option_names part.block) (all_commons unit.now))) }
{
    let commons = commons_of(alloc, unit)?;
    note_parts(alloc, used, declared, commons.as_slice())?;
    Ok(())
}

// Adds the names of the blocks of these parts.
fn note_parts(
    alloc: Global,
    used: &mut AppearingNames,
    declared: &NameDeclarations,
    parts: &[CommonPart],
) -> Result<(), NoMemory>
    ensures { OnOk result (used.new ≡ fold with_name used.old (flat_map (λ part. option_names part.block) parts.now)) }
{
    for part in parts {
        note_block(alloc, used, declared, &part.block)?;
    }
    Ok(())
}

// Adds the name of a block, if it has one.
fn note_block(
    alloc: Global,
    used: &mut AppearingNames,
    declared: &NameDeclarations,
    block: &Option<Name>,
) -> Result<(), NoMemory>
    ensures { OnOk result (used.new ≡ fold with_name used.old (option_names block.now)) }
{
    match block {
        Some(name) => used.note(alloc, declared, name),
        None => Ok(()),
    }
}
