//! The statement that makes the layout of storage wrong (ANSI X3.9-1978, sections 5.1, 8.2, 8.3 and 9).

ghost use Rattle.std.specs.Prelude.{◌≡◌, ◌<◌, ◌^◌, Some, None, List, length, All, IfOk};
ghost use Rattle.f77_tree.specs.declared.programs.NameInfo.{NameInfo};
ghost use Rattle.layout_rules.specs.Faults.{first_line};
ghost use Rattle.layout_rules.specs.Layout.{names_of};
ghost use Rattle.layout_rules.specs.LowestLines.{lowest_line};
ghost use Rattle.layout_rules.specs.StorageFaults.{has_wrong_places};
ghost use Rattle.layout_rules.specs.StorageLines.{initializes_wrongly, storage_line};
ghost use Rattle.layout_rules.specs.PlacedNames.{with_places, ArePlaces};

use crate::data;
use crate::declaration_faults::first_wrong_declaration;
use crate::given_words::GivenWords;
use df_sequence::NoMemory;
use f77_tree::Labelled;
use layout_rules::{lower, with_line};
use std::alloc::Global;
use symbol_table::Names;

/// The line that is told of a fault of storage, where the places are right, and these.
pub fn wrong_storage_line(
    alloc: Global,
    stmts: &[Labelled],
    names: &Names,
    places: &[u64],
) -> Result<Option<u32>, NoMemory>
    requires names { names.now ≡ names_of stmts.now }
    requires right { first_line (has_wrong_places names.now stmts.now) stmts.now ≡ None }
    requires as_many { length places.now ≡ length names.now }
    requires few { All (λ place. place < 2 ^ 63) places.now }
    ensures { IfOk result (λ line. line ≡ storage_line names.now (with_places names.now places.now) stmts.now) }
{
    if let Some(line) = first_wrong_declaration(alloc, stmts, names)? {
        return Ok(Some(line));
    }
    lowest_wrong_data(alloc, stmts, names, places)
}

/// The lowest line of DATA that is wrong.
fn lowest_wrong_data(
    alloc: Global,
    stmts: &[Labelled],
    names: &Names,
    places: &[u64],
) -> Result<Option<u32>, NoMemory>
    requires { ArePlaces names.now places.now }
    ensures { IfOk result (λ line. line ≡ lowest_line (initializes_wrongly names.now (with_places names.now places.now)) stmts.now) }
{
    let mut given = GivenWords::new(alloc);
    let mut lowest = None;
    for s in stmts {
        let wrong = data::is_wrong(alloc, names, places, &mut given, s)?;
        lowest = with_line(lowest, s.line, wrong);
    }
    Ok(lowest)
}

/// The line that is told of a fault of storage, where the EQUIVALENCE on this line is the first that makes places wrong. Then the
/// places don't matter, since DATA isn't looked at.
pub fn wrong_places_line(
    alloc: Global,
    stmts: &[Labelled],
    names: &Names,
    line: u32,
) -> Result<u32, NoMemory>
    requires { first_line (has_wrong_places names.now stmts.now) stmts.now ≡ Some line }
    ensures { IfOk result (λ told. (placed : List NameInfo) → Some told ≡ storage_line names.now placed stmts.now) }
{
    match first_wrong_declaration(alloc, stmts, names)? {
        Some(first) => Ok(lower(first, Some(line))),
        None => Ok(line),
    }
}
