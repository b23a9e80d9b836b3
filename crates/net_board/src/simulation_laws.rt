//! Laws of the own order of nets beside the runs of their programs, as contracts of functions that do nothing.

ghost use Rattle.std.specs.Prelude.{◌≡◌, ◌<◌, ℕ, List, [], false};
ghost use Rattle.closed_walks.specs.Graph.{edge_count};
ghost use Rattle.firing.specs.Control.{KeepsStep};
ghost use Rattle.firing.specs.SourceOrder.{IsSourceOrder};
ghost use Rattle.net_board.specs.SoundNets.{IsNet, CanCome};
ghost use Rattle.net_board.specs.FlowFacts.{FlowFacts, GraphFacts};
ghost use Rattle.net_board.specs.NetLockstep.{IsInLockstep};
ghost use Rattle.net_board.specs.ControlCourse.{arrival, doubled_arrival, first_control, is_idle, net_course};
ghost use Rattle.net_board.specs.Nodes.{NetOf, graph_in, nodes_at};
ghost use Rattle.net_board.specs.Simulation.{AreFew, HasExecs, HasMemoryAfter, IsDueInTurn, IsLoneEnd, RestsAtEnd, Simulates, StandsAfter};
ghost use Rattle.net_board.specs.ProgramStages.{RunFacts};
ghost use Rattle.net_board.specs.Tokens.{first_tokens, net_moves};

use crate::net_laws::nets_begin_soundly;
use cfg_build::{
    flow_graph_has_shape, flow_graph_is_strong, passes_are_a_walk, passes_follow_steps,
    pieces_are_few, pieces_run_executables,
};
use closed_walks::reaching_is_told;
use dep_routing::{
    free_nodes, free_passed_nodes, output_keeps_moving, pieces_touch_lines, places,
    places_over_a_pass,
};

/// A control that keeps step with the passes of a program stays in step where the node that is due fires, and such a node can
/// fire; where none is due, none can.
pub fn nets_stay_in_lockstep()
    ensures steady { (net : NetOf) → KeepsStep (CanCome net) (net_moves net) (net_course net) (IsInLockstep net) }
    ensures ordered { (net : NetOf) → IsSourceOrder (CanCome net) (net_moves net) (net_course net) (IsInLockstep net) }
{}

/// The source's own order of a net stays in lockstep with the steps of its program. Its firings are due one after another, five for
/// each line and step at most. After the firings of so many steps the memory is that after the steps, and while the run goes on each token
/// line stands in its place for the edge on which control is. Whatever the order in which nodes fire, where none may fire any more
/// and nothing has trapped, each token line is on edge 0.
pub fn nets_simulate_programs()
    ensures begins { (net : NetOf) (n : IsNet net) → IsInLockstep net (first_tokens net) (first_control net) }
    ensures simulated { (net : NetOf) (n : IsNet net) → Simulates net }
    ensures due { (net : NetOf) (n : IsNet net) → (steps : ℕ) → IsDueInTurn net steps }
    ensures few { (net : NetOf) (n : IsNet net) → (steps : ℕ) → AreFew net steps }
    ensures memory { (net : NetOf) (n : IsNet net) → (steps : ℕ) → HasMemoryAfter net steps }
    ensures stands { (net : NetOf) (n : IsNet net) → (steps : ℕ) → StandsAfter net n.tree steps }
    ensures rests { (net : NetOf) (n : IsNet net) → (ks : List ℕ) → RestsAtEnd net ks }
{
    nets_begin_soundly();
    flow_graphs_ground_nets();
    runs_ground_nets();
}

/// Control that goes past idle pieces comes to one with nodes, or to the end. 18 doublings lead there too: they go past 262,144
/// pieces, and a program has fewer.
pub fn control_arrives()
    ensures busy { (net : NetOf) (edge : ℕ) → HasExecs net → edge < edge_count (graph_in net) → is_idle net (arrival net edge) ≡ false }
    ensures doublings { (net : NetOf) (edge : ℕ) → HasExecs net → edge < edge_count (graph_in net) → doubled_arrival net edge ≡ arrival net edge }
{
    flow_graphs_lead_on();
}

/// An end to which one edge leads has no nodes.
pub fn lone_ends_have_no_nodes()
    ensures { (net : NetOf) (n : IsNet net) (node : ℕ) → IsLoneEnd net node → nodes_at net node ≡ [] }
{
    flow_graph_is_strong();
    free_passed_nodes();
    flow_graphs_ground_nets();
}

// What lower layers tell of the flow graphs of programs.
fn flow_graphs_lead_on()
    ensures { (net : NetOf) → HasExecs net → GraphFacts net }
{
    flow_graph_is_strong();
    flow_graph_has_shape();
    passes_are_a_walk();
    reaching_is_told();
    pieces_run_executables();
    pieces_are_few();
}

// What a net stands on: what routing and the flow graph tell of it.
fn flow_graphs_ground_nets()
    ensures { (net : NetOf) (n : IsNet net) → FlowFacts net n.tree }
{
    flow_graph_is_strong();
    flow_graph_has_shape();
    places();
    places_over_a_pass();
    free_nodes();
    free_passed_nodes();
    pieces_touch_lines();
    flow_graphs_lead_on();
}

// What the runs of a program tell its net: its passes follow its steps, and output keeps moving.
fn runs_ground_nets()
    ensures { (net : NetOf) (n : IsNet net) → RunFacts net n.tree }
{
    passes_follow_steps();
    output_keeps_moving();
}
