//! Laws of the firings of nets, and of their parts, as contracts of functions that do nothing.

ghost use Rattle.std.specs.Prelude.{ℕ, Bool};
ghost use Rattle.f77_tree.specs.declared.programs.Program.{Program};
ghost use Rattle.cfg_build.specs.Joined.{FlowGraph};
ghost use Rattle.dep_routing.specs.Routing.{Routing};
ghost use Rattle.firing.specs.Laws.{IsLawful};
ghost use Rattle.net_board.specs.NetLaws.{HoldsOfProgramNets, WokenNodesAreAll};
ghost use Rattle.net_board.specs.SoundNets.{IsNet, CanCome};
ghost use Rattle.net_board.specs.ProgramFacts.{ProgramFacts};
ghost use Rattle.net_board.specs.Nodes.{NetOf};
ghost use Rattle.net_board.specs.NetParts.{AreParts};
ghost use Rattle.net_board.specs.Simulation.{LeadsLines};
ghost use Rattle.net_board.specs.Tokens.{first_tokens, net_moves};

use alias_classes::{needs_are_a_frame, needs_are_numbered, needs_cover_accesses};
use cfg_build::{flow_graph_has_shape, flow_graph_is_strong};
use dep_routing::next_edges;
use f77_tree::{reads_decide, well_formed_programs_can_run};

/// Nets keep the laws of firing: of two nodes that may both fire, the firings commute (the diamond property).
pub fn nets_keep_the_laws()
    ensures { (net : NetOf) → IsLawful (CanCome net) (net_moves net) }
{}

/// The marking of a net before any firing is one that can come.
pub fn nets_begin_soundly()
    ensures { (net : NetOf) → IsNet net → CanCome net (first_tokens net) }
{
    ground();
}

/// The parts that are a program's own make its net over data of words.
pub fn parts_make_nets()
    ensures { HoldsOfProgramNets IsNet }
{
    well_formed_programs_can_run();
}

/// The parts of a program lead each line to an edge of its graph.
pub fn parts_lead_lines()
    ensures { (p : Program) (f : FlowGraph) (touches : (piece line : ℕ) → Bool) (routing : Routing) → AreParts p f touches routing → LeadsLines p routing }
{
    ground();
}

/// A list that has the nodes before which the moved lines stand then, and those that wait, has each that a firing can have made ready.
pub fn woken_nodes_are_all()
    ensures { WokenNodesAreAll }
{}

// What lower layers tell of programs, and their nets rest on.
fn ground()
    ensures { ProgramFacts }
{
    flow_graph_is_strong();
    flow_graph_has_shape();
    next_edges();
    needs_are_numbered();
    reads_decide();
    needs_cover_accesses();
    needs_are_a_frame();
}
