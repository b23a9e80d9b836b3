ghost use Rattle.std.specs.Prelude.{◌≡◌, ◌<◌, ℕ, [], ◌∷◌, List, length, if◌then◌else◌, Option, Some, None, OnOk, IfOk, All, flat_map};
ghost use Rattle.f77_tree.specs.Declarations.{index_of, member_index};
ghost use Rattle.f77_tree.specs.Places.{same_block};
ghost use Rattle.layout_rules.specs.Declarations.{groups_of, parts_of};
ghost use Rattle.layout_rules.specs.Storage.{equated, group_equations, standings_of};
ghost use Rattle.layout_rules.specs.StorageFaults.{is_equivalence};
ghost use Rattle.storage_association.specs.Storages.{AreSome};
ghost use Rattle.layout_rules.specs.Standings.{AreDeclsKnown, AreGroupsKnown, AreKnown, ArePartsKnown};
ghost use Rattle.storage_association.specs.CommonStorages.{AreSomeCommons, Extends, IsPlacing, Links, last_in, AddsStanding, AreCommonStorages};

use crate::sizes::{distance_of, size_of};
use crate::storages::Storages;
use df_sequence::{Copied, NoMemory};
use f77_tree::{CommonPart, Labelled, Member, MemberList, Name, Stmt};
use indexmap::IndexMap;
use std::alloc::Global;
use symbol_table::Names;

/// The last name so far of blank common and of each named block, by its index.
#[derive(Drop)]
pub(crate) struct Blocks {
    blank: Option<u32>,
    named: IndexMap<Name, u32>,
}

impl Blocks {
    // No block has a name.
    fn new(alloc: Global) -> Blocks
        ensures { (block : Option (List ℕ)) → last_in result block ≡ None }
    {
        Blocks {
            blank: None,
            named: IndexMap::new(alloc),
        }
    }

    // The name that stands last in a block, if one does.
    fn last(&self, block: &Option<Name>) -> Option<u32>
        ensures { result ≡ last_in self.now block.now }
    {
        match block {
            None => self.blank,
            Some(name) => self.named.get(name).copied(),
        }
    }

    // A name stands last in a block from now on.
    fn put(&mut self, alloc: Global, block: &Option<Name>, name: u32) -> Result<(), NoMemory>
        ensures { OnOk result ((other : Option (List ℕ)) → last_in self.new other
            ≡ (if same_block block.now other then Some name else last_in self.old other)) }
    {
        match block {
            None => self.blank = Some(name),
            Some(block) => {
                self.named.insert(block.copy(alloc)?, name)?;
            }
        }
        Ok(())
    }
}

/// The storages while the names of COMMON come one by one.
#[derive(Drop)]
pub(crate) struct Commons {
    storages: Storages,
    // Whether a name stands in COMMON, by its index.
    stood: Vec<bool>,
    blocks: Blocks,
}

impl Commons {
    // One more name in a block of COMMON. Where it stood there already, nothing changes.
    fn stand(
        &mut self,
        alloc: Global,
        names: &Names,
        block: &Option<Name>,
        name: &Name,
    ) -> Result<(), NoMemory>
        requires some { AreSomeCommons names.now self.old }
        requires known { index_of names.now name.now < length names.now }
        ensures { OnOk result (AddsStanding names.now (record { block = block.now; name = index_of names.now name.now }) self.old self.new) }
    {
        let k = names.index(name);
        if self.stood[k as usize] {
            return Ok(());
        }
        self.stood[k as usize] = true;
        match self.blocks.last(block) {
            None => self.storages.begin_block(k),
            Some(before) => {
                let size = size_of(names.dims(before));
                self.storages.join(before, k, i64::from(size));
            }
        }
        self.blocks.put(alloc, block, k)
    }

    // The names of a part of COMMON, in order.
    fn stand_in_part(
        &mut self,
        alloc: Global,
        names: &Names,
        part: &CommonPart,
    ) -> Result<(), NoMemory>
        requires some { AreSomeCommons names.now self.old }
        requires known { AreDeclsKnown names.now part.now.decls }
        ensures { OnOk result (Extends names.now self.old self.new (standings_of names.now part.now)) }
    {
        let decls = part.decls.as_slice();
        for decl in decls {
            self.stand(alloc, names, &part.block, &decl.name)?;
        }
        Ok(())
    }

    // The names of parts of COMMON, in order.
    fn stand_in_parts(
        &mut self,
        alloc: Global,
        names: &Names,
        parts: &[CommonPart],
    ) -> Result<(), NoMemory>
        requires some { AreSomeCommons names.now self.old }
        requires known { ArePartsKnown names.now parts.now }
        ensures { OnOk result (Extends names.now self.old self.new (flat_map (standings_of names.now) parts.now)) }
    {
        for part in parts {
            self.stand_in_part(alloc, names, part)?;
        }
        Ok(())
    }
}

// The parts of a COMMON statement, of which another statement has none.
fn parts_of(stmt: &Stmt) -> &[CommonPart]
    ensures { result.now ≡ parts_of stmt.now }
{
    match stmt {
        Stmt::Common(parts) => parts.as_slice(),
        _ => &[],
    }
}

// The groups of an EQUIVALENCE statement, of which another statement has none.
fn groups_of(stmt: &Stmt) -> &[MemberList]
    ensures { result.now ≡ groups_of stmt.now }
{
    match stmt {
        Stmt::Equivalence(groups) => groups.as_slice(),
        _ => &[],
    }
}

/// The storages that the COMMON statements give.
fn common_storages(alloc: Global, names: &Names, stmts: &[Labelled]) -> Result<Storages, NoMemory>
    requires { AreKnown names.now stmts.now }
    ensures { IfOk result (λ s. AreCommonStorages names.now stmts.now s) }
{
    let count = names.len();
    let mut commons = Commons {
        storages: Storages::new(alloc, count)?,
        stood: vec![in alloc; false; count as usize]?,
        blocks: Blocks::new(alloc),
    };
    for s in stmts {
        commons.stand_in_parts(alloc, names, parts_of(&s.stmt))?;
    }
    Ok(commons.storages)
}

// Links a member of a group to the first one: both are at one place.
fn equate(storages: &mut Storages, names: &Names, first: &Member, other: &Member)
    requires some { AreSome storages.old }
    requires names { length storages.old.parts.items ≡ length names.now }
    requires first { member_index names.now first.now < length names.now }
    requires other { member_index names.now other.now < length names.now }
    ensures links { Links (length names.now) storages.old storages.new (equated names.now first.now other.now ∷ []) }
{
    let a = names.index(&first.name);
    let b = names.index(&other.name);
    let distance_a = i64::from(distance_of(names.dims(a), first.subs.as_slice()));
    let distance_b = i64::from(distance_of(names.dims(b), other.subs.as_slice()));
    storages.join(a, b, distance_a - distance_b);
}

// Links the members of a group.
fn equate_group(storages: &mut Storages, names: &Names, group: &[Member])
    requires some { AreSome storages.old }
    requires names { length storages.old.parts.items ≡ length names.now }
    requires known { All (λ member. member_index names.now member < length names.now) group.now }
    ensures links { Links (length names.now) storages.old storages.new (group_equations names.now group.now) }
{
    if let [first, rest @ ..] = group {
        for other in rest {
            equate(storages, names, first, other);
        }
    }
}

// Links the members of each group.
fn equate_groups(storages: &mut Storages, names: &Names, groups: &[MemberList])
    requires some { AreSome storages.old }
    requires names { length storages.old.parts.items ≡ length names.now }
    requires known { AreGroupsKnown names.now groups.now }
    ensures links { Links (length names.now) storages.old storages.new (flat_map (group_equations names.now) groups.now) }
{
    for group in groups {
        equate_group(storages, names, group.as_slice());
    }
}

// Whether a statement is an EQUIVALENCE statement.
fn is_equivalence(stmt: &Stmt) -> bool
    ensures { result ≡ is_equivalence stmt.now }
{
    match stmt {
        Stmt::Equivalence(_) => true,
        _ => false,
    }
}

/// What the declarations say of places.
#[derive(Drop)]
pub enum Placing {
    /// The line of the first EQUIVALENCE statement that makes the places wrong.
    Wrong(u32),
    /// The storages of all names.
    Right(Storages),
}

/// The storages that COMMON and EQUIVALENCE give, or the first EQUIVALENCE statement that makes the places wrong.
pub fn place_names(alloc: Global, names: &Names, stmts: &[Labelled]) -> Result<Placing, NoMemory>
    requires { AreKnown names.now stmts.now }
    ensures { IfOk result (λ placing. IsPlacing names.now stmts.now placing) }
{
    let mut storages = common_storages(alloc, names, stmts)?;
    for s in stmts {
        equate_groups(&mut storages, names, groups_of(&s.stmt));
        if is_equivalence(&s.stmt) && !storages.are_right() {
            return Ok(Placing::Wrong(s.line));
        }
    }
    Ok(Placing::Right(storages))
}
