//! What the texts of regions and of nets mean.

ghost use Rattle.std.specs.Prelude.{Bool};
ghost use Rattle.f77_tree.specs.declared.programs.Program.{Program};
ghost use Rattle.f77_tree.specs.WellFormed.{IsWellFormed};
ghost use Rattle.job_terms.specs.Tasks.{Graph, Regions};
ghost use Rattle.job_laws.specs.Headline.{MeansOn};
ghost use Rattle.job_laws.specs.SourceRuns.{run_of};

use alias_classes::one_numbering;
use cfg_build::flow_graph_is_strong;
use dep_routing::one_routing;
use range_lines::one_range_touching;
use region_tree::one_tree;

/// A program has one text of its regions, and it tells each edge with its class.
pub fn regions_mean()
    ensures { (p : Program) (checked : Bool) → IsWellFormed p → MeansOn Regions checked p (run_of p) }
{
    cycle_equiv::one_numbering();
    one_tree();
    flow_graph_is_strong();
}

/// A program has one text of its net, and it tells the net over whatever data.
pub fn graphs_mean()
    ensures { (p : Program) (checked : Bool) → IsWellFormed p → MeansOn Graph checked p (run_of p) }
{
    one_numbering();
    one_range_touching();
    one_routing();
    flow_graph_is_strong();
}
