//! The law on runs, as the contract of a function that does nothing.

ghost use Rattle.std.specs.Prelude.{Bool, List};
ghost use Rattle.f77_tree.specs.declared.programs.Program.{Program};
ghost use Rattle.f77_tree.specs.declared.statements.Labelled.{Labelled};
ghost use Rattle.called_runs.specs.Expanded.{IsExpanded};
ghost use Rattle.called_runs.specs.RunsAsCalled.{KeepsPaceWithCalls, RunsAsCalled};

use crate::contexts::{names_are_tied, tables_are_changed, tables_are_placed};
use crate::opening_words::opening_words_are_initial;
use f77_layout::programs_are_well_formed;
use f77_tree::well_formed_programs_can_run;

/// A text with subroutines runs as the one program that it comes to: over any storage, a run with a frame for each CALL and a run
/// of the program write the same, end alike with the same whole output, and trap alike, at one line. For n steps of the units the program
/// takes at most 4n; after them it holds the words of each entity whose name it has.
pub fn expansions_run_as_calls()
    ensures alike { (stmts : List Labelled) (checked : Bool) (p : Program) → IsExpanded stmts checked p → RunsAsCalled stmts checked p }
    ensures paced { (stmts : List Labelled) (checked : Bool) (p : Program) → IsExpanded stmts checked p → KeepsPaceWithCalls stmts checked p }
{
    tables_are_changed();
    names_are_tied();
    tables_are_placed();
    opening_words_are_initial();
    programs_are_well_formed();
    well_formed_programs_can_run();
}
