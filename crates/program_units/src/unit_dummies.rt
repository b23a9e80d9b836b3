//! The dummy arguments of a unit.
ghost use Rattle.std.specs.Prelude.{◌≡◌, ◌++◌, IfOk, OnOk};
ghost use Rattle.program_units.specs.Units.{dummies_of, sub_dummies};

use df_sequence::{Copied, NoMemory};
use f77_tree::{Labelled, Name, Stmt};
use std::alloc::Global;

/// The dummies of a unit.
///
/// # Errors
///
/// Where there is no memory.
pub fn dummies(alloc: Global, unit: &[Labelled]) -> Result<Vec<Name>, NoMemory>
    ensures { IfOk result (λ names. names.items ≡ dummies_of unit.now) }
{
    let mut names = Vec::new(alloc);
    for s in unit {
        add_dummies(alloc, &mut names, &s.stmt)?;
    }
    Ok(names)
}

// Adds the dummies of a statement.
fn add_dummies(alloc: Global, names: &mut Vec<Name>, stmt: &Stmt) -> Result<(), NoMemory>
    ensures { OnOk result (names.new.items ≡ names.old.items ++ sub_dummies stmt.now) }
{
    match stmt {
        Stmt::Sub(_, dummies) => add_names(alloc, names, dummies.as_slice()),
        _ => Ok(()),
    }
}

// Adds copies of these names.
fn add_names(alloc: Global, names: &mut Vec<Name>, added: &[Name]) -> Result<(), NoMemory>
    ensures { OnOk result (names.new.items ≡ names.old.items ++ added.now) }
{
    for name in added {
        names.push(name.copy(alloc)?)?;
    }
    Ok(())
}
