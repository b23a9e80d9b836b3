//! Laws on the shared form, as contracts of functions that do nothing.

ghost use Rattle.f77_tree.specs.declared.programs.Program.{Program};
ghost use Rattle.alias_classes.specs.Classes.{ClassTable};
ghost use Rattle.cfg_build.specs.Flow.{flow};
ghost use Rattle.flat_programs.specs.FlatForm.{IsFlatProgram};
ghost use Rattle.redundancy.specs.Available.{Availability, IsAvailability};
ghost use Rattle.shared_forms.specs.Shared.{IsShared};
ghost use Rattle.shared_laws.specs.SharedFlat.{SharedStatementsAreFlat};

use f77_tree::scalars_can_be_added;
use flat_programs::{executables_tell_statements, flat_statements_make_programs};

/// The shared form of a flat program is a flat program: the temporaries are scalars with new names at words of their own, each statement
/// leads to where it led, and the assignments in front of statements are proper.
pub fn shared_programs_are_flat()
    ensures { (q : Program) (c : ClassTable) (a : Availability) (s : Program) → IsFlatProgram q → IsAvailability q (flow q.execs) c a → IsShared q a s → IsFlatProgram s }
{
    scalars_can_be_added();
    executables_tell_statements();
    flat_statements_make_programs();
}

/// Flat statements stay flat where temporaries stand for candidates and assignments to them come before statements: marks keep their
/// numbers, and each statement leads to where it led.
pub fn shared_statements_are_flat()
    ensures { SharedStatementsAreFlat }
{}
