//! What samples mean for the runs of their programs.

ghost use Rattle.std.specs.Prelude.{ℕ, List, false};
ghost use Rattle.f77_tree.specs.declared.programs.Program.{Program};
ghost use Rattle.f77_tree.specs.WellFormed.{IsWellFormed};
ghost use Rattle.job_terms.specs.Reading.{IfAccepted, reading};
ghost use Rattle.job_laws.specs.Headline.{MeansSample, MeansSampleText};

use crate::forms::runs_mean;
use crate::games::games_mean;
use crate::graphs::{graphs_mean, regions_mean};

/// What is due of a sample means what the jobs promise that owe its parts.
fn samples_mean()
    ensures { (p : Program) (n bytes limit : ℕ) → IsWellFormed p → MeansSample n bytes limit p }
{
    regions_mean();
    graphs_mean();
    games_mean();
    runs_mean();
}

/// So it is with any text in the place of a sample's.
pub fn sample_texts_mean()
    ensures { (n limit : ℕ) (text : List ℕ) → IfAccepted (reading false text) IsWellFormed → MeansSampleText n limit text }
{
    samples_mean();
}
