//! Texts, their programs and their runs.

ghost use Rattle.std.specs.Prelude.{ℕ, Bool, List};
ghost use Rattle.f77_tree.specs.declared.programs.Program.{Program};
ghost use Rattle.f77_source.specs.Reading.{IsProgramOf};
ghost use Rattle.job_terms.specs.Reading.{IsOwnProgram, reading};
ghost use Rattle.job_terms.specs.Tasks.{Task};
ghost use Rattle.job_laws.specs.Data.{HasWords};
ghost use Rattle.job_laws.specs.Headline.{MeansRead};
ghost use Rattle.job_laws.specs.SourceRuns.{RunsAs};

use crate::forms::{regenerated_texts_mean, runs_mean};
use crate::games::{forks_mean, games_mean};
use crate::graphs::{graphs_mean, regions_mean};
use called_runs::{expansions_run_as_calls, laid_expansions_are_expanded, programs_have_storage};
use expanded_sources::expansions_are_sources;
use f77_tree::{runs_stop_first, stopped_runs_stay};

/// A text runs as the program that it comes to does: one of several units with a frame for each CALL, over any storage. The program takes
/// at most four steps for one of the units, and leaves the words of each entity under its name.
pub fn texts_run_as_programs()
    ensures { (bytes : List ℕ) (checked : Bool) (p : Program) → IsProgramOf bytes checked p → RunsAs bytes checked p }
{
    expansions_are_sources();
    laid_expansions_are_expanded();
    expansions_run_as_calls();
    programs_have_storage();
    runs_stop_first();
    stopped_runs_stay();
}

/// What is due of a task on the program of a text means what the task promises of the runs of the text.
pub fn texts_mean()
    ensures { (task : Task) (checked : Bool) (bytes : List ℕ) → IsOwnProgram bytes checked → HasWords task → MeansRead task checked bytes (reading checked bytes) }
{
    texts_run_as_programs();
    regions_mean();
    graphs_mean();
    games_mean();
    forks_mean();
    regenerated_texts_mean();
    runs_mean();
    runs_stop_first();
}
