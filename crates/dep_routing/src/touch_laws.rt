//! That touches are sound, as contracts of functions that do nothing.

ghost use Rattle.std.specs.Prelude.{◌≡◌, ◌<◌, ◌↔◌, ℕ, suc, Bool, true};
ghost use Rattle.f77_tree.specs.declared.programs.Program.{Program};
ghost use Rattle.alias_classes.specs.Classes.{ClassTable};
ghost use Rattle.cfg_build.specs.declared.pieces.PieceKind.TheVariants.{Act, Branch, Hold};
ghost use Rattle.cfg_build.specs.Flow.{flow};
ghost use Rattle.dep_routing.specs.RunLaws.{TrapsTouchOutput, TouchesAreSound};
ghost use Rattle.dep_routing.specs.TouchLaws.{PiecesTouchLines};
ghost use Rattle.dep_routing.specs.Touches.{AreTouches, PieceNeeds};
ghost use Rattle.dep_routing.specs.Sound.{MustTouchOut, MayTouchOut};

use crate::leaving::quiet_regions_are_left;
use alias_classes::needs_are_numbered;
use cfg_build::{
    flow_graph_is_strong, passes_are_a_walk, passes_hold_words, pieces_run_executables,
};
use f77_tree::{well_formed_programs_can_run, what_cannot_trap_does_not};

/// Of the classes a piece touches exactly those that it needs. It touches the line of output where it has to, and only where it
/// may.
pub fn touches_follow_needs()
    ensures classes { (p : Program) (c : ClassTable) (touches : ℕ → ℕ → Bool) (node n : ℕ) → AreTouches p c touches → node < (flow p.execs).graph.nodes → (touches node (suc n) ≡ true) ↔ PieceNeeds p c node (suc n) }
    ensures must { (p : Program) (c : ClassTable) (touches : ℕ → ℕ → Bool) (node : ℕ) → AreTouches p c touches → node < (flow p.execs).graph.nodes → MustTouchOut p c node → touches node 0 ≡ true }
    ensures may { (p : Program) (c : ClassTable) (touches : ℕ → ℕ → Bool) (node : ℕ) → AreTouches p c touches → node < (flow p.execs).graph.nodes → touches node 0 ≡ true → MayTouchOut p node }
{}

/// Where touches are sound, a piece that acts, branches or holds touches a line: that of output, or a class of the program.
pub fn pieces_touch_lines()
    ensures acts { PiecesTouchLines Act }
    ensures branches { PiecesTouchLines Branch }
    ensures holds { PiecesTouchLines Hold }
{
    needs_are_numbered();
    pieces_run_executables();
    well_formed_programs_can_run();
}

/// Where a run over data of words traps, the piece touches the line of output.
pub fn traps_touch_output()
    ensures { TrapsTouchOutput }
{
    flow_graph_is_strong();
    passes_are_a_walk();
    passes_hold_words();
    what_cannot_trap_does_not();
}

/// What firings ask of the lines that pieces touch holds of the touches of a program, with any tree of its regions.
pub fn touches_are_sound()
    ensures { TouchesAreSound }
{
    touches_follow_needs();
    traps_touch_output();
    quiet_regions_are_left();
}
