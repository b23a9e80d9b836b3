//! What the copy of each unit has: statements of its own, and copies of the units that it calls.
ghost use Rattle.std.specs.Prelude.{◌≡◌, ◌+◌, ◌<◌, ◌++◌, ◌&&◌, ℕ, List, min, not, bytes_eq, IfOk, OnOk};
ghost use Rattle.std.specs.Option.{is_some};
ghost use Rattle.indexmap.specs.IndexMap.{get};
ghost use Rattle.layout_rules.specs.Labels.{is_executable as is_executable_of};
ghost use Rattle.program_units.specs.Units.{call_by, guard_of, is_end as is_end_of, unit_at};
ghost use Rattle.program_units.specs.Widths.{is_kept as is_kept_of};
ghost use Rattle.program_units.specs.CallTable.{call_row as call_row_of, call_rows as call_rows_of, callee_of, own_lines as own_lines_of, own_width as own_width_of, unit_named};

use df_sequence::NoMemory;
use f77_tree::{Labelled, Name, Stmt};
use indexmap::IndexMap;
use program_units::{Units, inner_of, is_end, unit_of};
use std::alloc::Global;
use std::marker::Model;

/// What the copy of a unit has: so many statements of its own, or the limit where they are more, and the copies of the units
/// that it calls, once for each CALL.
#[derive(Drop)]
pub(crate) struct CallRow {
    pub(crate) own: u32,
    pub(crate) callees: Vec<usize>,
}

impl Model for CallRow {
    ghost use Rattle.program_units.specs.CallTable.{CallRow as CallRowOf};

    ghost Value = { CallRowOf };

    ghost view = { λ r. record { own = r.own; callees = r.callees.items } };
}

/// The rows of all units, in order.
pub(crate) fn call_rows(
    alloc: Global,
    us: &Units,
    index: &IndexMap<Name, usize>,
    limit: u32,
) -> Result<Vec<CallRow>, NoMemory>
    requires { (name : List ℕ) → get bytes_eq index.now name ≡ unit_named us.now name }
    ensures { IfOk result (λ rows. rows.items ≡ call_rows_of limit us.now) }
{
    let mut rows = Vec::new(alloc);
    for k in 0..us.len() {
        rows.push(call_row(alloc, us, index, limit, k, us.at(k))?)?;
    }
    Ok(rows)
}

// The row of the unit at the index k.
fn call_row(
    alloc: Global,
    us: &Units,
    index: &IndexMap<Name, usize>,
    limit: u32,
    k: usize,
    unit: &[Labelled],
) -> Result<CallRow, NoMemory>
    requires index { (name : List ℕ) → get bytes_eq index.now name ≡ unit_named us.now name }
    requires unit { unit.now ≡ unit_at us.now k }
    ensures { IfOk result (λ row. row ≡ call_row_of limit us.now k) }
{
    let mut own = 0;
    let mut callees = Vec::new(alloc);
    for s in unit {
        own = add_within(own, own_width(k, &s.stmt), limit);
        note_callee(&mut callees, us, index, inner_of(&s.stmt))?;
    }
    Ok(CallRow { own, callees })
}

/// Notes the unit that a statement calls, if it is a CALL.
pub(crate) fn note_callee(
    callees: &mut Vec<usize>,
    us: &Units,
    index: &IndexMap<Name, usize>,
    stmt: &Stmt,
) -> Result<(), NoMemory>
    requires { (name : List ℕ) → get bytes_eq index.now name ≡ unit_named us.now name }
    ensures { OnOk result (callees.new.items ≡ callees.old.items ++ callee_of us.now (call_by stmt.now)) }
{
    if let Stmt::CallTo(name, _) = stmt {
        callees.push(unit_of(us, index, name))?;
    }
    Ok(())
}

/// The sum, or the limit where it is more.
pub fn add_within(a: u32, b: u32, limit: u32) -> u32
    ensures { result ≡ min (a + b) limit }
{
    if a < limit && b < limit - a {
        a + b
    } else {
        limit
    }
}

// How many statements of its own stand for a statement of the unit at the index k.
fn own_width(k: usize, stmt: &Stmt) -> u32
    ensures { result ≡ own_width_of k stmt.now }
{
    if is_kept(k, stmt) {
        own_lines(is_guarded(stmt), is_call(inner_of(stmt)))
    } else {
        0
    }
}

fn own_lines(guarded: bool, called: bool) -> u32
    ensures { result ≡ own_lines_of guarded called }
{
    match (called, guarded) {
        (true, true) => 4,
        (true, false) => 2,
        (false, _) => 1,
    }
}

fn is_guarded(stmt: &Stmt) -> bool
    ensures { result ≡ is_some (guard_of stmt.now) }
{
    matches!(stmt, Stmt::ThenIf(_, _))
}

/// Whether a statement of the unit at the index k stands in its copies, or, of the main program, in the list.
pub(crate) fn is_kept(k: usize, stmt: &Stmt) -> bool
    ensures { result ≡ is_kept_of k stmt.now }
{
    k == 0 || stands_in_copies(stmt)
}

// Whether a statement of a subroutine stands in its copies.
fn stands_in_copies(stmt: &Stmt) -> bool
    ensures { result ≡ (not (is_end_of stmt.now) && is_executable_of stmt.now) }
{
    !is_end(stmt) && is_executable(stmt)
}

fn is_call(stmt: &Stmt) -> bool
    ensures { result ≡ is_some (call_by stmt.now) }
{
    matches!(stmt, Stmt::CallTo(_, _))
}

fn is_executable(stmt: &Stmt) -> bool
    ensures { result ≡ is_executable_of stmt.now }
{
    !matches!(
        stmt,
        Stmt::Program
            | Stmt::Implicit(_)
            | Stmt::ImplicitNone
            | Stmt::TypeOf(_, _)
            | Stmt::Dimension(_)
            | Stmt::Common(_)
            | Stmt::Equivalence(_)
            | Stmt::Init(_)
            | Stmt::Sub(_, _)
    )
}
