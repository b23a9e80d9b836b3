//! What rewritten forms mean for the runs of their programs.

ghost use Rattle.std.specs.Prelude.{ℕ, ℤ, All, Bool, List};
ghost use Rattle.op_table.specs.Words.{IsWord};
ghost use Rattle.f77_tree.specs.declared.programs.Program.{Program};
ghost use Rattle.f77_tree.specs.Dialects.{IsOfDialect};
ghost use Rattle.f77_tree.specs.WellFormed.{IsWellFormed};
ghost use Rattle.job_terms.specs.Tasks.{Regen, Run};
ghost use Rattle.job_laws.specs.Headline.{MeansOn};
ghost use Rattle.job_laws.specs.SourceRuns.{run_of};

use f77_tree::{runs_stop_first, stopped_runs_stay};
use flat_programs::executables_tell_statements;
use rewriting::{rewritten_forms_are_one, rewritten_programs_print_alike};
use rewritten_texts::rewritten_texts_are_read_back;

/// The text of a program's rewritten form means what the program does.
pub fn regenerated_texts_mean()
    ensures { (p : Program) (checked : Bool) → IsWellFormed p → IsOfDialect checked p → MeansOn Regen checked p (run_of p) }
{
    executables_tell_statements();
    rewritten_forms_are_one();
    rewritten_programs_print_alike();
    rewritten_texts_are_read_back();
    runs_stop_first();
    stopped_runs_stay();
}

/// The output of a program's rewritten form means what the run of the program does, over all data of words.
pub fn runs_mean()
    ensures { (p : Program) (checked : Bool) (limit : ℕ) (input : List ℤ) → IsWellFormed p → All IsWord input → MeansOn (Run limit input) checked p (run_of p) }
{
    rewritten_forms_are_one();
    rewritten_programs_print_alike();
    runs_stop_first();
    stopped_runs_stay();
}
