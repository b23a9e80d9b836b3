//! EQUIVALENCE and DATA of subroutines, with the new names.
ghost use Rattle.std.specs.Prelude.{◌≡◌, ◌<◌, ◌++◌, [], flat_map, if◌then◌else◌, length, map, true, IfOk, OnOk};
ghost use Rattle.layout_rules.specs.Appearances.{appearing};
ghost use Rattle.layout_rules.specs.Declarations.{is_array};
ghost use Rattle.program_units.specs.Entities.{entity_of};
ghost use Rattle.program_units.specs.Expansion.{data_for, init_for, member_for, members_for, equivalence_for};
ghost use Rattle.program_units.specs.NamedEntities.{HaveNames, has_name};
ghost use Rattle.f77_subs.specs.MergedStorage.{stored, unit_storage};
ghost use Rattle.program_units.specs.Refusals.{is_of_storage};
ghost use Rattle.program_units.specs.Units.{unit_at};

use df_sequence::{Copied, NoMemory, Sequence};
use entity_names::NewNames;
use f77_tree::{GroupList, InitPart, InitPartList, Labelled, Member, MemberList, Stmt};
use inlined_copies::put;
use std::alloc::Global;

/// Which statements on storage are merged.
#[derive(Clone, Copy, Drop)]
pub(crate) enum StorageKind {
    Equivalence,
    Data,
}

/// Puts the statements of this kind of the unit k behind the list, if it runs.
pub(crate) fn put_storage_if(
    alloc: Global,
    new: &NewNames,
    out: &mut Vec<Labelled>,
    kind: StorageKind,
    runs: bool,
    k: usize,
) -> Result<(), NoMemory>
    requires sub { 0 < k }
    requires unit { k < length new.now.text.now.us.now }
    ensures { OnOk result (out.new.items ≡ out.old.items ++ (if runs then unit_storage kind new.now.text.now.us.now k else [])) }
{
    if runs {
        put_unit_storage(alloc, new, out, kind, k)
    } else {
        Ok(())
    }
}

// Puts the statements of this kind of the unit k behind the list.
fn put_unit_storage(
    alloc: Global,
    new: &NewNames,
    out: &mut Vec<Labelled>,
    kind: StorageKind,
    k: usize,
) -> Result<(), NoMemory>
    requires sub { 0 < k }
    requires unit { k < length new.now.text.now.us.now }
    ensures { OnOk result (out.new.items ≡ out.old.items ++ unit_storage kind new.now.text.now.us.now k) }
{
    let unit = new.text.us.at(k);
    for s in unit {
        put_stored(alloc, new, out, kind, k, s)?;
    }
    Ok(())
}

// Puts a statement of the unit k, where it is of this kind.
fn put_stored(
    alloc: Global,
    new: &NewNames,
    out: &mut Vec<Labelled>,
    kind: StorageKind,
    k: usize,
    s: &Labelled,
) -> Result<(), NoMemory>
    requires unit { k < length new.now.text.now.us.now }
    requires named { is_of_storage s.now.stmt ≡ true → HaveNames new.now.text.now.us.now k (appearing (is_array (unit_at new.now.text.now.us.now k)) s.now.stmt) }
    ensures { OnOk result (out.new.items ≡ out.old.items ++ stored kind new.now.text.now.us.now k s.now) }
{
    match kind {
        StorageKind::Equivalence => put_equivalence(alloc, new, out, k, s),
        StorageKind::Data => put_data(alloc, new, out, k, s),
    }
}

fn put_equivalence(
    alloc: Global,
    new: &NewNames,
    out: &mut Vec<Labelled>,
    k: usize,
    s: &Labelled,
) -> Result<(), NoMemory>
    requires unit { k < length new.now.text.now.us.now }
    requires named { is_of_storage s.now.stmt ≡ true → HaveNames new.now.text.now.us.now k (appearing (is_array (unit_at new.now.text.now.us.now k)) s.now.stmt) }
    ensures { OnOk result (out.new.items ≡ out.old.items ++ equivalence_for new.now.text.now.us.now k s.now) }
{
    match &s.stmt {
        Stmt::Equivalence(groups) => {
            let changed = changed_groups(alloc, new, k, groups)?;
            put(out, 0, s.line, Stmt::Equivalence(changed))
        }
        _ => Ok(()),
    }
}

fn put_data(
    alloc: Global,
    new: &NewNames,
    out: &mut Vec<Labelled>,
    k: usize,
    s: &Labelled,
) -> Result<(), NoMemory>
    requires unit { k < length new.now.text.now.us.now }
    requires named { is_of_storage s.now.stmt ≡ true → HaveNames new.now.text.now.us.now k (appearing (is_array (unit_at new.now.text.now.us.now k)) s.now.stmt) }
    ensures { OnOk result (out.new.items ≡ out.old.items ++ data_for new.now.text.now.us.now k s.now) }
{
    match &s.stmt {
        Stmt::Init(parts) => {
            let changed = changed_parts(alloc, new, k, parts)?;
            put(out, 0, s.line, Stmt::Init(changed))
        }
        _ => Ok(()),
    }
}

// Groups of EQUIVALENCE.
fn changed_groups(
    alloc: Global,
    new: &NewNames,
    k: usize,
    groups: &GroupList,
) -> Result<GroupList, NoMemory>
    requires unit { k < length new.now.text.now.us.now }
    requires named { HaveNames new.now.text.now.us.now k (flat_map (λ group. map (λ member. member.name) group) groups.now) }
    ensures { IfOk result (λ made. made ≡ map (members_for new.now.text.now.us.now k) groups.now) }
{
    let mut made = Sequence::new(alloc);
    for group in groups.as_slice() {
        made.push(changed_members(alloc, new, k, group)?)?;
    }
    Ok(made)
}

// Parts of DATA.
fn changed_parts(
    alloc: Global,
    new: &NewNames,
    k: usize,
    parts: &InitPartList,
) -> Result<InitPartList, NoMemory>
    requires unit { k < length new.now.text.now.us.now }
    requires named { HaveNames new.now.text.now.us.now k (flat_map (λ part. map (λ item. item.name) part.items) parts.now) }
    ensures { IfOk result (λ made. made ≡ map (init_for new.now.text.now.us.now k) parts.now) }
{
    let mut made = Sequence::new(alloc);
    for part in parts.as_slice() {
        made.push(changed_part(alloc, new, k, part)?)?;
    }
    Ok(made)
}

// A part of DATA.
fn changed_part(
    alloc: Global,
    new: &NewNames,
    k: usize,
    part: &InitPart,
) -> Result<InitPart, NoMemory>
    requires unit { k < length new.now.text.now.us.now }
    requires named { HaveNames new.now.text.now.us.now k (map (λ item. item.name) part.now.items) }
    ensures { IfOk result (λ made. made ≡ init_for new.now.text.now.us.now k part.now) }
{
    Ok(InitPart {
        items: changed_members(alloc, new, k, &part.items)?,
        values: part.values.copy(alloc)?,
    })
}

// Variables and elements.
fn changed_members(
    alloc: Global,
    new: &NewNames,
    k: usize,
    members: &MemberList,
) -> Result<MemberList, NoMemory>
    requires unit { k < length new.now.text.now.us.now }
    requires named { HaveNames new.now.text.now.us.now k (map (λ member. member.name) members.now) }
    ensures { IfOk result (λ made. made ≡ members_for new.now.text.now.us.now k members.now) }
{
    let mut made = Sequence::new(alloc);
    for member in members.as_slice() {
        made.push(changed_member(alloc, new, k, member)?)?;
    }
    Ok(made)
}

// A variable or an element.
fn changed_member(
    alloc: Global,
    new: &NewNames,
    k: usize,
    member: &Member,
) -> Result<Member, NoMemory>
    requires unit { k < length new.now.text.now.us.now }
    requires named { has_name new.now.text.now.us.now (entity_of new.now.text.now.us.now k member.now.name) ≡ true }
    ensures { IfOk result (λ made. made ≡ member_for new.now.text.now.us.now k member.now) }
{
    Ok(Member {
        name: new.name_in(alloc, k, &member.name)?,
        subs: member.subs.copy(alloc)?,
    })
}
