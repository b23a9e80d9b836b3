//! The sure traps of a program.

ghost use Rattle.std.specs.Prelude.{◌≡◌, ◌==◌, All, IfOk, OnOk};
ghost use Rattle.std.specs.List.{list_any};
ghost use Rattle.f77_tree.specs.CanRun.{CanExecute};
ghost use Rattle.f77_tree.specs.WellFormed.{IsWellFormed};
ghost use Rattle.sure_traps.specs.Causes.{cause_of as cause_of_kind};
ghost use Rattle.sure_traps.specs.SureTraps.{IsSure, traps_of, with_trap};

use crate::SureTrap;
use crate::executables::cause_of;
use f77_tree::{Exec, Program, well_formed_programs_can_run};
use std::alloc::{AllocError, Global};

/// The statements of a program that trap whenever they are executed, in the order of its executables, and of each line the
/// first alone: a subroutine that is called often has its statements as often.
///
/// # Errors
///
/// `AllocError` where memory runs out.
#[tactic(auto, using(crate::proofs::Told::told_next))]
pub fn sure_traps(alloc: Global, p: &Program) -> Result<Vec<SureTrap>, AllocError>
    requires { IsWellFormed p.now }
    ensures told { IfOk result (λ traps. traps.items ≡ traps_of p.now) }
    ensures sure { IfOk result (λ traps. All (IsSure p.now) traps.items) }
{
    well_formed_programs_can_run();
    let mut traps = Vec::new(alloc);
    for exec in p.execs.as_slice() {
        add_trap(p, exec, &mut traps)?;
    }
    Ok(traps)
}

// Adds the trap of an executable, if it has one and none of its line was told.
fn add_trap(p: &Program, exec: &Exec, traps: &mut Vec<SureTrap>) -> Result<(), AllocError>
    requires { CanExecute p.now exec.now.kind }
    ensures { OnOk result (traps.new.items ≡ with_trap traps.old.items exec.now.line (cause_of_kind p.now.names exec.now.kind)) }
{
    let line = exec.line;
    let Some(cause) = cause_of(p, &exec.kind) else {
        return Ok(());
    };
    if is_told(traps.as_slice(), line) {
        return Ok(());
    }
    traps.push(SureTrap { line, cause })?;
    Ok(())
}

// Whether a trap of a line was told.
fn is_told(traps: &[SureTrap], line: u32) -> bool
    ensures { result ≡ list_any (λ trap. trap.line == line) traps.now }
{
    traps.iter().any(|trap| trap.line == line)
}
