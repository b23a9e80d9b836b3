//! The text of regions.

ghost use Rattle.std.specs.Prelude.{List, ℕ};
ghost use Rattle.f77_tree.specs.declared.programs.Program.{Program};
ghost use Rattle.f77_tree.specs.WellFormed.{IsWellFormed};
ghost use Rattle.cfg_build.specs.Flow.{flow};
ghost use Rattle.graph_jobs.specs.Regions.{TellsRegions};
ghost use Rattle.printed_graphs.specs.Printable.{IsPrintedText};
ghost use Rattle.printed_laws.specs.ShortFlow.{IsShortFlow};

use cfg_build::{flow_graph_has_shape, flow_graph_is_strong, pieces_are_few};

/// A text that tells the regions of a well-formed program can be read. The premise holds of each flow graph that is made: its edges and
/// the lines of its pieces are counted in 32 bits.
pub fn regions_are_read()
    ensures { (p : Program) (text : List ℕ) → IsWellFormed p → IsShortFlow (flow p.execs) → TellsRegions p text → IsPrintedText text }
{
    flow_graph_is_strong();
    flow_graph_has_shape();
    pieces_are_few();
}
