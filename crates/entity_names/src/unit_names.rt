//! The names of a unit.
ghost use Rattle.std.specs.Prelude.{◌≡◌, fold, IfOk, OnOk};
ghost use Rattle.layout_rules.specs.Appearances.{with_name};
ghost use Rattle.declared_names.specs.Described.{described, is_array_told};
ghost use Rattle.declared_names.specs.KeptDeclarations.{said_by};
ghost use Rattle.program_units.specs.Names.{appearing_here, names_of_unit};

use declared_names::{AppearingNames, NameDeclarations};
use df_sequence::NoMemory;
use f77_tree::{Labelled, Name, Stmt};
use std::alloc::Global;

/// The names of a unit, each once, in the order in which they first appear, those of CALL too.
pub(crate) fn unit_names(
    alloc: Global,
    declared: &NameDeclarations,
    unit: &[Labelled],
) -> Result<AppearingNames, NoMemory>
    requires { said_by declared.now ≡ described unit.now }
    ensures { IfOk result (λ names. names ≡ names_of_unit unit.now) }
{
    let mut names = AppearingNames::new(alloc);
    for s in unit {
        note_here(alloc, &mut names, declared, &s.stmt)?;
    }
    Ok(names)
}

// Adds the names of a statement.
fn note_here(
    alloc: Global,
    names: &mut AppearingNames,
    declared: &NameDeclarations,
    stmt: &Stmt,
) -> Result<(), NoMemory>
    ensures { OnOk result (names.new ≡ fold with_name names.old (appearing_here (is_array_told (said_by declared.now)) stmt.now)) }
{
    match stmt {
        Stmt::CallTo(_, arguments) => note_names(alloc, names, declared, arguments.as_slice()),
        Stmt::ThenIf(condition, inner) => {
            names.note_in(alloc, declared, condition)?;
            note_here(alloc, names, declared, inner.get())
        }
        _ => names.note_stmt(alloc, declared, stmt),
    }
}

/// Adds these names.
pub(crate) fn note_names(
    alloc: Global,
    names: &mut AppearingNames,
    declared: &NameDeclarations,
    added: &[Name],
) -> Result<(), NoMemory>
    ensures { OnOk result (names.new ≡ fold with_name names.old added.now) }
{
    for name in added {
        names.note(alloc, declared, name)?;
    }
    Ok(())
}
