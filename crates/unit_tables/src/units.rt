//! The units of a text.

ghost use Rattle.std.specs.Prelude.{◌≡◌, ◌++◌, length, not, slice_get, IfOk};
ghost use Rattle.std.specs.List.{filter};
ghost use Rattle.unit_tables.specs.Units.{all_statements, head_at, is_main as has_main, place_at};

use fortran_tree::{Head, LowerError, Place, Reason, Statement};
use std::alloc::Global;

/// A unit: a main program, a subroutine, a function or a BLOCK DATA. Its last statement is END.
#[derive(Drop)]
pub struct Unit {
    pub statements: Vec<Statement>,
}

impl Unit {
    /// The kind of its first statement.
    pub fn head(&self) -> Head
        ensures { result ≡ head_at (slice_get self.now.statements.items 0) }
    {
        match self.statements.first() {
            Some(first) => first.head,
            None => Head::End,
        }
    }

    /// Where its first statement stands.
    pub fn place(&self) -> Place
        ensures { result ≡ place_at (slice_get self.now.statements.items 0) }
    {
        match self.statements.first() {
            Some(first) => first.place,
            None => Place { line: 0, column: 0 },
        }
    }

    /// Whether it is a main program.
    pub fn is_main(&self) -> bool
        ensures { result ≡ has_main self.now }
    {
        !matches!(
            self.head(),
            Head::Subroutine | Head::Function(_) | Head::BlockData
        )
    }
}

/// The units that statements make: each ends with an END, and only its first statement may say what unit it is.
pub fn units_of(alloc: Global, statements: Vec<Statement>) -> Result<Vec<Unit>, LowerError>
    ensures { IfOk result (λ units. all_statements units.items ≡ statements.items) }
{
    let mut units = Vec::new(alloc);
    let mut open: Vec<Statement> = Vec::new(alloc);
    for statement in statements {
        let is_end = matches!(statement.head, Head::End);
        if statement.head.begins_unit() && !open.is_empty() {
            return Err(statement.place.refused(Reason::UnitInside));
        }
        open.push(statement)?;
        if is_end {
            let statements = std::mem::replace(&mut open, Vec::new(alloc));
            units.push(Unit { statements })?;
        }
    }
    match open.last() {
        Some(last) => Err(last.place.refused(Reason::NoEnd)),
        None => Ok(units),
    }
}

/// The same units, the main program first and the others in their order.
///
/// # Errors
///
/// Refused where there is no main program, or a second one.
pub fn main_first(alloc: Global, units: Vec<Unit>) -> Result<Vec<Unit>, LowerError>
    ensures order { IfOk result (λ all. all.items ≡ filter has_main units.items ++ filter (λ unit. not (has_main unit)) units.items) }
    ensures one { IfOk result (λ all. length (filter has_main units.items) ≡ 1) }
{
    let mut mains: Vec<Unit> = Vec::new(alloc);
    let mut others: Vec<Unit> = Vec::new(alloc);
    for unit in units {
        if !unit.is_main() {
            others.push(unit)?;
        } else if mains.is_empty() {
            mains.push(unit)?;
        } else {
            return Err(unit.place().refused(Reason::SecondMain));
        }
    }
    if mains.is_empty() {
        return Err(Place { line: 1, column: 1 }.refused(Reason::NoMain));
    }
    mains.append(&mut others)?;
    Ok(mains)
}
