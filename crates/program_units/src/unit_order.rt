//! The order of units: SUBROUTINE stands directly after END, and no other statement does.
ghost use Rattle.std.specs.Prelude.{◌≡◌, ◌&&◌, ◌||◌};
ghost use Rattle.std.specs.Option.{is_some};
ghost use Rattle.layout_rules.specs.Faults.{first_line};
ghost use Rattle.program_units.specs.Units.{inner, is_return, sub_name};
ghost use Rattle.program_units.specs.Refusals.{differ as differ_of, is_out_of_unit};

use crate::splitting::is_end;
use f77_tree::{Labelled, Stmt};

/// The line of the first SUBROUTINE that follows no END, of the first other statement that follows one, or of the first
/// RETURN in the main program, whichever comes first.
pub fn first_out_of_unit(stmts: &[Labelled]) -> Option<u32>
    ensures { result ≡ first_line is_out_of_unit stmts.now }
{
    let mut follows_end = false;
    let mut in_main = true;
    for s in stmts {
        if is_misplaced(&s.stmt, follows_end, in_main) {
            return Some(s.line);
        }
        let ends = is_end(&s.stmt);
        follows_end = ends;
        in_main &= !ends;
    }
    None
}

// Whether a statement may not stand here.
fn is_misplaced(stmt: &Stmt, follows_end: bool, in_main: bool) -> bool
    ensures { result ≡ (differ_of follows_end (is_some (sub_name stmt.now)) || (in_main && is_return (inner stmt.now))) }
{
    differ(follows_end, is_sub(stmt)) || (in_main && returns(stmt))
}

fn differ(a: bool, b: bool) -> bool
    ensures { result ≡ differ_of a b }
{
    if a { !b } else { b }
}

fn is_sub(stmt: &Stmt) -> bool
    ensures { result ≡ is_some (sub_name stmt.now) }
{
    matches!(stmt, Stmt::Sub(_, _))
}

// Whether a statement is RETURN, alone or after a condition.
fn returns(stmt: &Stmt) -> bool
    ensures { result ≡ is_return (inner stmt.now) }
{
    match stmt {
        Stmt::ThenIf(_, inner) => is_back(inner.get()),
        _ => is_back(stmt),
    }
}

fn is_back(stmt: &Stmt) -> bool
    ensures { result ≡ is_return stmt.now }
{
    matches!(stmt, Stmt::Back)
}
