//! What the laws of other crates say of the flow graph of a program.

ghost use Rattle.std.specs.Prelude.{◌≡◌};
ghost use Rattle.closed_walks.specs.Region.{IsFlowGraph};
ghost use Rattle.f77_tree.specs.declared.programs.Program.{Program};
ghost use Rattle.f77_tree.specs.WellFormed.{IsWellFormed};
ghost use Rattle.cfg_build.specs.Flow.{flow};
ghost use Rattle.cfg_build.specs.Joined.{FlowGraph};
ghost use Rattle.const_prop.specs.Setting.{IsProgram};

use cfg_build::{flow_graph_has_shape, flow_graph_is_strong, pieces_run_executables};
use f77_tree::well_formed_programs_can_run;

/// What the laws on flow graphs say of that of a well-formed program, in one clause.
pub fn program_facts()
    ensures program { (p : Program) (f : FlowGraph) → IsWellFormed p → f ≡ flow p.execs → IsProgram p f }
    ensures strong { (p : Program) → IsWellFormed p → IsFlowGraph (flow p.execs).graph }
{
    flow_graph_is_strong();
    flow_graph_has_shape();
    pieces_run_executables();
    well_formed_programs_can_run();
}
