//! The declarations of a program, as its statements have them, in the order of the text.

ghost use Rattle.std.specs.Prelude.{◌≡◌, ◌<◌, ◌≤◌, ◌++◌, [], ◌^◌, length, filter, All, IfOk, OnOk};
ghost use Rattle.layout_rules.specs.Declarations.{all_commons, all_groups, all_inits, parts_of, groups_of as groups_of_stmt, inits_of as inits_of_stmt};
ghost use Rattle.layout_rules.specs.Executables.{is_do as is_do_of};
ghost use Rattle.layout_rules.specs.PlacedNames.{with_places};

use df_sequence::{Copied, LongSequence, NoMemory, Sequence};
use executable_lists::is_do;
use f77_tree::{
    AllCommonParts, AllGroups, AllInitParts, CommonPart, InitPart, Labelled, MemberList,
    NameInfoList, Stmt,
};
use std::alloc::Global;
use symbol_table::Names;

/// Copies of items after those of a list.
fn append<T: Copied + Drop>(
    alloc: Global,
    list: &mut LongSequence<T>,
    items: &[T],
) -> Result<(), NoMemory>
    ensures { OnOk result (list.new ≡ list.old ++ items.now) }
{
    for item in items {
        list.push(item.copy(alloc)?)?;
    }
    Ok(())
}

fn parts_in(stmt: &Stmt) -> &[CommonPart]
    ensures { result.now ≡ parts_of stmt.now }
{
    match stmt {
        Stmt::Common(parts) => parts.as_slice(),
        _ => &[],
    }
}

fn groups_in(stmt: &Stmt) -> &[MemberList]
    ensures { result.now ≡ groups_of_stmt stmt.now }
{
    match stmt {
        Stmt::Equivalence(groups) => groups.as_slice(),
        _ => &[],
    }
}

fn inits_in(stmt: &Stmt) -> &[InitPart]
    ensures { result.now ≡ inits_of_stmt stmt.now }
{
    match stmt {
        Stmt::Init(parts) => parts.as_slice(),
        _ => &[],
    }
}

/// The parts of all COMMON statements.
pub fn commons_of(alloc: Global, stmts: &[Labelled]) -> Result<AllCommonParts, NoMemory>
    ensures { IfOk result (λ commons. commons ≡ all_commons stmts.now) }
{
    let mut commons = LongSequence::new(alloc);
    for s in stmts {
        append(alloc, &mut commons, parts_in(&s.stmt))?;
    }
    Ok(commons)
}

/// The groups of all EQUIVALENCE statements.
pub(crate) fn groups_of(alloc: Global, stmts: &[Labelled]) -> Result<AllGroups, NoMemory>
    ensures { IfOk result (λ groups. groups ≡ all_groups stmts.now) }
{
    let mut groups = LongSequence::new(alloc);
    for s in stmts {
        append(alloc, &mut groups, groups_in(&s.stmt))?;
    }
    Ok(groups)
}

/// The parts of all DATA statements.
pub(crate) fn inits_of(alloc: Global, stmts: &[Labelled]) -> Result<AllInitParts, NoMemory>
    ensures { IfOk result (λ inits. inits ≡ all_inits stmts.now) }
{
    let mut inits = LongSequence::new(alloc);
    for s in stmts {
        append(alloc, &mut inits, inits_in(&s.stmt))?;
    }
    Ok(inits)
}

/// The table of names with their places.
pub(crate) fn placed_names(
    alloc: Global,
    names: &Names,
    places: &[u64],
) -> Result<NameInfoList, NoMemory>
    requires as_many { length places.now ≡ length names.now }
    requires few { All (λ place. place < 2 ^ 32) places.now }
    ensures { IfOk result (λ placed. placed ≡ with_places names.now places.now) }
{
    let mut placed = Sequence::new(alloc);
    for k in 0..names.len() {
        placed.push(names.placed(alloc, k, places[k as usize] as u32)?)?;
    }
    Ok(placed)
}

/// The number of DO loops.
pub(crate) fn count_loops(stmts: &[Labelled]) -> u32
    requires { length stmts.now ≤ 4000 }
    ensures { result ≡ length (filter (λ s. is_do_of s.stmt) stmts.now) }
{
    let mut count = 0;
    for s in stmts {
        count += u32::from(is_do(&s.stmt));
    }
    count
}
