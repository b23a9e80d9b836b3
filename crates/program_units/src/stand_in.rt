//! A unit by itself, as a program of one unit is written.
ghost use Rattle.std.specs.Prelude.{◌≡◌, ◌<◌, ◌^◌, length, IfOk};
ghost use Rattle.program_units.specs.Units.{stand_in as stand_in_of, stand_in_alone as stand_in_alone_of, standing_in as standing_in_of};

use df_sequence::{Boxed, Copied, NoMemory, Sequence};
use f77_tree::{Labelled, LabelledList, Stmt};
use std::alloc::Global;

/// The statements of a unit with PROGRAM in place of SUBROUTINE, CONTINUE of CALL, and STOP of RETURN. Labels and lines stay.
///
/// # Errors
///
/// Where there is no memory.
pub fn standing_in(alloc: Global, unit: &[Labelled]) -> Result<LabelledList, NoMemory>
    requires { length unit.now < 2 ^ 32 }
    ensures { IfOk result (λ list. list ≡ standing_in_of unit.now) }
{
    let mut list = Sequence::new(alloc);
    for s in unit {
        list.push(Labelled {
            label: s.label,
            line: s.line,
            stmt: stand_in(alloc, &s.stmt)?,
        })?;
    }
    Ok(list)
}

// What stands in for a statement.
fn stand_in(alloc: Global, stmt: &Stmt) -> Result<Stmt, NoMemory>
    ensures { IfOk result (λ made. made ≡ stand_in_of stmt.now) }
{
    match stmt {
        Stmt::ThenIf(condition, inner) => {
            let condition = condition.copy(alloc)?;
            let inner = stand_in_alone(alloc, inner.get())?;
            Ok(Stmt::ThenIf(condition, Boxed::new(alloc, inner)?))
        }
        _ => stand_in_alone(alloc, stmt),
    }
}

// What stands in for a statement that isn't a logical IF.
fn stand_in_alone(alloc: Global, stmt: &Stmt) -> Result<Stmt, NoMemory>
    ensures { IfOk result (λ made. made ≡ stand_in_alone_of stmt.now) }
{
    match stmt {
        Stmt::Sub(_, _) => Ok(Stmt::Program),
        Stmt::CallTo(_, _) => Ok(Stmt::Continue),
        Stmt::Back => Ok(Stmt::Stop),
        _ => stmt.copy(alloc),
    }
}
