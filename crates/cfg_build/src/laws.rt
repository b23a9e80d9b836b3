//! Laws on flow graphs, as contracts of functions that do nothing.

ghost use Rattle.std.specs.Prelude.{◌≤◌, List, ℕ};
ghost use Rattle.closed_walks.specs.Region.{IsFlowGraph};
ghost use Rattle.f77_tree.specs.declared.programs.Exec.{Exec};
ghost use Rattle.f77_tree.specs.declared.programs.NameInfo.{NameInfo};
ghost use Rattle.f77_tree.specs.WellFormed.{AreExecs};
ghost use Rattle.cfg_build.specs.Joined.{finish};
ghost use Rattle.cfg_build.specs.Flow.{flow};
ghost use Rattle.cfg_build.specs.FlowLaws.{PiecesRun, PiecesHaveWaysOut, HoldsLeadToTheEnd};
ghost use Rattle.cfg_build.specs.Rounds.{HoldsComeInRounds};
ghost use Rattle.cfg_build.specs.Runs.{is_act, is_branch};
ghost use Rattle.cfg_build.specs.Shape.{IsShaped};

use crate::pieces::PieceKind;
use closed_walks::{endless_ways_meet_cycles, reaching_is_told};

/// The flow graph of a well-formed program is strongly connected, and its edge 0 ends at the start.
pub fn flow_graph_is_strong()
    ensures { (names : List NameInfo) (execs : List Exec) (loops : ℕ) → AreExecs names execs loops → IsFlowGraph (flow execs).graph }
{
    reaching_is_told();
    endless_ways_meet_cycles();
}

/// What stands where in the flow graph of a well-formed program, and how many edges come to each piece and leave it.
pub fn flow_graph_has_shape()
    ensures { (names : List NameInfo) (execs : List Exec) (loops : ℕ) → AreExecs names execs loops → IsShaped (flow execs) (finish execs) }
{
    reaching_is_told();
    endless_ways_meet_cycles();
}

/// The flow graph of a well-formed program has few pieces: two parts at most for each executable, with the start and the end, a
/// join at most for each part, and a hold at most for each of these.
pub fn pieces_are_few()
    ensures { (names : List NameInfo) (execs : List Exec) (loops : ℕ) → AreExecs names execs loops → (flow execs).graph.nodes ≤ 160008 }
{
    reaching_is_told();
    endless_ways_meet_cycles();
}

/// The holds of the flow graph of a well-formed program come in rounds: as long as some piece on a cycle can't come to the end, the
/// lowest such piece gets a hold. In the end there is none.
pub fn holds_come_in_rounds()
    ensures { (names : List NameInfo) (execs : List Exec) (loops : ℕ) → AreExecs names execs loops → HoldsComeInRounds execs }
{
    reaching_is_told();
}

/// Each act and each branch is a part of an executable, and of one of those that such a piece runs.
pub fn pieces_run_executables()
    ensures acts { PiecesRun PieceKind.Act is_act }
    ensures branches { PiecesRun PieceKind.Branch is_branch }
{
    reaching_is_told();
    endless_ways_meet_cycles();
}

/// How many edges leave each piece: as many as its executable has successors leave a branch, two leave a hold, and one leaves any
/// other. The second edge of a hold leads to the end.
pub fn pieces_have_ways_out()
    ensures count { PiecesHaveWaysOut }
    ensures holds { HoldsLeadToTheEnd }
{
    reaching_is_told();
    endless_ways_meet_cycles();
}
