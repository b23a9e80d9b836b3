//! The statements of the one program that a text comes to.
ghost use Rattle.std.specs.Prelude.{◌≡◌, ◌≢◌, ◌<◌, length, IfOk, IfErr, Ok, Err};
ghost use Rattle.std.specs.List.{list_all};
ghost use Rattle.f77_tree.specs.StatementGrammar.{is_of_subroutines as is_of_subroutines_of};
ghost use Rattle.layout_rules.specs.Source.{IsSource};
ghost use Rattle.program_units.specs.Texts.{IsText};
ghost use Rattle.f77_source.specs.Listed.{is_one_unit as is_one_unit_of, listed as listed_of, stays_in_unit as stays_in_unit_of};

use expanded_sources::expansions_are_sources;
use f77_subs::expand;
use f77_tree::{Labelled, LabelledList, Stmt};
use program_units::SubEnd;
use std::alloc::Global;

/// The statements of one program in place of those of a text: the same where it is one unit without subroutines, and else
/// the expansion.
///
/// # Errors
///
/// Why the units make no program. NoMemory may come in place of any answer.
pub(crate) fn listed(
    alloc: Global,
    stmts: LabelledList,
    checked: bool,
) -> Result<LabelledList, SubEnd>
    requires { IsText stmts }
    ensures accepted { IfOk result (λ list. listed_of stmts checked ≡ Ok list) }
    ensures refused { IfErr result (λ end. end ≢ SubEnd.NoMemory → listed_of stmts checked ≡ Err end) }
    ensures source { IfOk result (λ list. IsSource list) }
{
    if is_one_unit(stmts.as_slice()) {
        Ok(stmts)
    } else {
        expansions_are_sources();
        expand(alloc, &stmts, checked)
    }
}

// Whether statements are one unit without subroutines.
fn is_one_unit(stmts: &[Labelled]) -> bool
    requires { 0 < length stmts.now }
    ensures { result ≡ is_one_unit_of stmts.now }
{
    stay_in_unit(&stmts[..stmts.len() - 1])
}

fn stay_in_unit(stmts: &[Labelled]) -> bool
    ensures { result ≡ list_all (λ s. stays_in_unit_of s.stmt) stmts.now }
{
    stmts.iter().all(|s| stays_in_unit(&s.stmt))
}

// Whether a statement is neither END nor one of subroutines.
fn stays_in_unit(stmt: &Stmt) -> bool
    ensures { result ≡ stays_in_unit_of stmt.now }
{
    match stmt {
        Stmt::End => false,
        _ => !is_of_subroutines(stmt),
    }
}

// Whether a statement is one of subroutines, alone or after a condition.
fn is_of_subroutines(stmt: &Stmt) -> bool
    ensures { result ≡ is_of_subroutines_of stmt.now }
{
    match stmt {
        Stmt::Sub(_, _) | Stmt::CallTo(_, _) | Stmt::Back => true,
        Stmt::ThenIf(_, inner) => is_of_subroutines(inner.get()),
        _ => false,
    }
}
