//! Laws on the steps of a run, as the passes through a flow graph that make them: contracts of functions that do nothing.

ghost use Rattle.std.specs.Prelude.{◌≡◌, ◌<◌, ℕ, ℤ, List, length};
ghost use Rattle.f77_tree.specs.declared.programs.Exec.{Exec};
ghost use Rattle.f77_tree.specs.declared.programs.NameInfo.{NameInfo};
ghost use Rattle.f77_tree.specs.declared.programs.Program.{Program};
ghost use Rattle.f77_tree.specs.Run.{Running};
ghost use Rattle.f77_tree.specs.WellFormed.{AreExecs};
ghost use Rattle.cfg_build.specs.Control.{IsReachedExec};
ghost use Rattle.cfg_build.specs.Passes.{passes};
ghost use Rattle.cfg_build.specs.Steps.{chain_after, BeginsStep, HasOwnPiece, IsAtOwnPiece, IsWithinStep, LiesInStep};

use closed_walks::{endless_ways_meet_cycles, reaching_is_told};
use f77_tree::executables_lead_to_successors;

/// The chain of each executable that control can come to has a piece that runs it, after joins and holds alone: its act, its pass,
/// its branch, or the end.
pub fn executables_have_own_pieces()
    ensures { (names : List NameInfo) (execs : List Exec) (loops k : ℕ) (exec : Exec) → IsReachedExec names execs loops k exec → HasOwnPiece execs k exec.kind }
{
    reaching_is_told();
    endless_ways_meet_cycles();
}

/// Each pass lies within a step. After the passes of n steps, and i more, the run is at piece i of the chain of the next step, with
/// the memory, the text and the mark before that step as long as i is not past the executable's own piece, and with those after it
/// from then on. So it is in a step that traps or ends, and where the run has stopped. While a run of passes goes on, it is
/// within a step of the run; where it comes to a piece that is made to run an executable, it is at the beginning of a step of that one.
pub fn passes_lie_within_steps()
    ensures within { (p : Program) (input : List ℤ) (n i : ℕ) → AreExecs p.names p.execs p.loops → i < length (chain_after p input n) → IsWithinStep p input n i }
    ensures lies { (p : Program) (input : List ℤ) (passed : ℕ) → AreExecs p.names p.execs p.loops → (passes p input passed).mark ≡ Running → LiesInStep p input passed }
    ensures own { (p : Program) (input : List ℤ) (k passed : ℕ) → AreExecs p.names p.execs p.loops → IsAtOwnPiece p input k passed → BeginsStep p input k passed }
{
    reaching_is_told();
    endless_ways_meet_cycles();
    executables_lead_to_successors();
}
