//! Dummies that stand where they can't: twice in their list, or in COMMON, EQUIVALENCE or DATA.
ghost use Rattle.std.specs.Prelude.{◌≡◌, [], fold, bytes_eq, IfOk, OnOk};
ghost use Rattle.std.specs.List.{list_any};
ghost use Rattle.layout_rules.specs.Appearances.{each_once, with_name};
ghost use Rattle.declared_names.specs.Described.{described, is_array_told};
ghost use Rattle.layout_rules.specs.Faults.{has_repeat};
ghost use Rattle.declared_names.specs.KeptDeclarations.{said_by};
ghost use Rattle.program_units.specs.Units.{sub_dummies};
ghost use Rattle.program_units.specs.Refusals.{names_of_storage};
ghost use Rattle.program_units.specs.Dummies.{are_wrong_dummies as are_wrong_dummies_of, is_stored, stored};

use declared_names::{AppearingNames, NameDeclarations};
use df_sequence::NoMemory;
use f77_tree::{Labelled, Name, Stmt};
use program_units::SubNames;
use std::alloc::Global;

/// The names in COMMON, EQUIVALENCE and DATA of a unit, each once.
pub(crate) fn storage_names(
    alloc: Global,
    declared: &NameDeclarations,
    unit: &[Labelled],
) -> Result<AppearingNames, NoMemory>
    requires { said_by declared.now ≡ described unit.now }
    ensures { IfOk result (λ names. names ≡ each_once (names_of_storage unit.now)) }
{
    let mut names = AppearingNames::new(alloc);
    for s in unit {
        note_storage(alloc, &mut names, declared, &s.stmt)?;
    }
    Ok(names)
}

// Adds the names of a statement of storage.
fn note_storage(
    alloc: Global,
    names: &mut AppearingNames,
    declared: &NameDeclarations,
    stmt: &Stmt,
) -> Result<(), NoMemory>
    ensures { OnOk result (names.new ≡ fold with_name names.old (stored (is_array_told (said_by declared.now)) stmt.now)) }
{
    match stmt {
        Stmt::Common(_) | Stmt::Equivalence(_) | Stmt::Init(_) => {
            names.note_stmt(alloc, declared, stmt)
        }
        _ => Ok(()),
    }
}

/// Whether a statement has a dummy twice, or one that is one of these names.
pub(crate) fn has_wrong_dummy(
    alloc: Global,
    names: &AppearingNames,
    stmt: &Stmt,
) -> Result<bool, NoMemory>
    ensures { IfOk result (λ wrong. wrong ≡ are_wrong_dummies_of names.now (sub_dummies stmt.now)) }
{
    match stmt {
        Stmt::Sub(_, dummies) => are_wrong_dummies(alloc, names, dummies.as_slice()),
        _ => Ok(false),
    }
}

// Whether a dummy stands twice here, or is one of the names.
fn are_wrong_dummies(
    alloc: Global,
    names: &AppearingNames,
    dummies: &[Name],
) -> Result<bool, NoMemory>
    ensures { IfOk result (λ wrong. wrong ≡ are_wrong_dummies_of names.now dummies.now) }
{
    let twice = has_repeats(alloc, dummies)?;
    Ok(twice || is_any_stored(names, dummies))
}

// Whether a name stands twice among these.
fn has_repeats(alloc: Global, names: &[Name]) -> Result<bool, NoMemory>
    ensures { IfOk result (λ repeats. repeats ≡ has_repeat bytes_eq [] names.now) }
{
    let mut seen = SubNames::new(alloc);
    for name in names {
        if !seen.add(alloc, name)? {
            return Ok(true);
        }
    }
    Ok(false)
}

// Whether one of the dummies is one of the names.
fn is_any_stored(names: &AppearingNames, dummies: &[Name]) -> bool
    ensures { result ≡ list_any (is_stored names.now) dummies.now }
{
    dummies.iter().any(|d| names.has(d))
}
