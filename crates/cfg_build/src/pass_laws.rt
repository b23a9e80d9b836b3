//! Laws on runs through flow graphs, as contracts of functions that do nothing.

ghost use Rattle.std.specs.Prelude.{◌≡◌, ◌<◌, ℕ, ℤ, List, All};
ghost use Rattle.op_table.specs.Words.{IsWord};
ghost use Rattle.closed_walks.specs.Graph.{edge_count, from, to};
ghost use Rattle.f77_tree.specs.declared.programs.Exec.{Exec};
ghost use Rattle.f77_tree.specs.declared.programs.NameInfo.{NameInfo};
ghost use Rattle.f77_tree.specs.declared.programs.Program.{Program};
ghost use Rattle.f77_tree.specs.Run.{source};
ghost use Rattle.f77_tree.specs.Steps.{HoldsWords};
ghost use Rattle.f77_tree.specs.WellFormed.{AreExecs, IsWellFormed};
ghost use Rattle.cfg_build.specs.Chains.{AreFew, entry, chain, passes_of, StandsAt};
ghost use Rattle.cfg_build.specs.Control.{IsReachedExec};
ghost use Rattle.cfg_build.specs.Flow.{flow};
ghost use Rattle.cfg_build.specs.FlowLaws.{ReachedExecutablesHaveChains, ChainsHaveOneHold, PassesGoAlongEdges, PassesLeadOn, RunsLeaveTheStart};
ghost use Rattle.cfg_build.specs.Passes.{passes};

use closed_walks::{endless_ways_meet_cycles, reaching_is_told};
use f77_tree::{executables_lead_to_successors, runs_hold_words};

/// The pieces of each executable that control can come to: joins and holds that lead on, and its own pieces, the edges of
/// whose last one lead to the successors. There are five at most, and one hold among them at most.
pub fn chains_lead_to_successors()
    ensures chain { ReachedExecutablesHaveChains }
    ensures few { (names : List NameInfo) (execs : List Exec) (loops k : ℕ) (exec : Exec) → IsReachedExec names execs loops k exec → AreFew execs k }
    ensures one_hold { ChainsHaveOneHold }

    // Edge 1 leads to the first executable.
    ensures first { (names : List NameInfo) (execs : List Exec) (loops : ℕ) → AreExecs names execs loops → to (flow execs).graph 1 ≡ entry execs 0 }
{
    reaching_is_told();
    endless_ways_meet_cycles();
}

/// The passes of a run follow its steps: after the passes of so many steps the memory, the text and the mark are those after
/// the steps, and while the run goes on, its edge leads to the executable that comes next.
pub fn passes_follow_steps()
    ensures { (p : Program) (input : List ℤ) (n : ℕ) → AreExecs p.names p.execs p.loops → StandsAt p (source p input n) (passes p input (passes_of p input n)) }
{
    reaching_is_told();
    endless_ways_meet_cycles();
    executables_lead_to_successors();
}

/// From each edge of the flow graph, in each memory, the pass of the piece at which the edge ends goes along an edge that leaves
/// this piece, or along none. So the passes of a run are a walk through the flow graph from its start: each edge is one of the
/// graph, the first one leaves the start, and the next one begins where the last one ends.
pub fn passes_are_a_walk()
    ensures each { PassesGoAlongEdges }
    ensures start { (p : Program) (input : List ℤ) → AreExecs p.names p.execs p.loops → from (flow p.execs).graph (passes p input 0).edge ≡ 0 }
    ensures edges { (p : Program) (input : List ℤ) (n : ℕ) → AreExecs p.names p.execs p.loops → (passes p input n).edge < edge_count (flow p.execs).graph }
    ensures leads_on { PassesLeadOn }
{
    reaching_is_told();
    endless_ways_meet_cycles();
}

/// Over data of words, the store and the steps hold words at each pass of a run of a well-formed program.
pub fn passes_hold_words()
    ensures { (p : Program) (input : List ℤ) (n : ℕ) → IsWellFormed p → All IsWord input → HoldsWords (passes p input n).memory }
{
    runs_hold_words();
}

/// A run never comes back to the start.
pub fn runs_leave_the_start()
    ensures { RunsLeaveTheStart }
{
    reaching_is_told();
    endless_ways_meet_cycles();
}
