//! Laws on runs in regions that are quiet for the line of output, as contracts of functions that do nothing.

ghost use Rattle.std.specs.Prelude.{◌≡◌, ℕ, ℤ, Bool, List, All};
ghost use Rattle.op_table.specs.Words.{IsWord};
ghost use Rattle.f77_tree.specs.declared.programs.Program.{Program};
ghost use Rattle.f77_tree.specs.Run.{Running};
ghost use Rattle.f77_tree.specs.WellFormed.{AreExecs};
ghost use Rattle.alias_classes.specs.Classes.{ClassTable};
ghost use Rattle.cfg_build.specs.Flow.{flow};
ghost use Rattle.cfg_build.specs.Passes.{passes};
ghost use Rattle.region_tree.specs.Tree.{Tree, IsRegionTree, IsIn, exit_of};
ghost use Rattle.dep_routing.specs.Leaving.{MarksTraps, MarksStays};
ghost use Rattle.dep_routing.specs.Quiet.{IsQuiet};
ghost use Rattle.dep_routing.specs.RunLaws.{OutputKeepsMoving};
ghost use Rattle.dep_routing.specs.Sound.{IsLeftBy, comes_to};
ghost use Rattle.dep_routing.specs.Touches.{AreTouches};

use crate::facts::tree_facts;
use cfg_build::{
    acts_go_on, flow_graph_has_shape, flow_graph_is_strong, passes_are_a_walk,
    ranges_are_entered_by_tests, runs_leave_the_start,
};
use f77_tree::executables_keep_the_rest;

/// A run that is in a region quiet for the line of output leaves it, by its exit and without a trap: a stay is made of rounds, each
/// of which lowers the count of a DO.
pub fn quiet_regions_are_left()
    ensures marks { (p : Program) (c : ClassTable) (touches : ℕ → ℕ → Bool) → AreTouches p c touches → MarksTraps p touches → MarksStays p touches }
    ensures leaves { (p : Program) (t : Tree) (touches : ℕ → ℕ → Bool) (input : List ℤ) (n r : ℕ) → AreExecs p.names p.execs p.loops → IsRegionTree (flow p.execs).graph t → MarksStays p touches → All IsWord input → (passes p input n).mark ≡ Running → IsQuiet (flow p.execs).graph t touches 0 r → IsIn (flow p.execs).graph t r (comes_to p input n) → IsLeftBy p input n (exit_of t r) }
{
    tree_facts();
    flow_graph_is_strong();
    flow_graph_has_shape();
    passes_are_a_walk();
    ranges_are_entered_by_tests();
    acts_go_on();
    executables_keep_the_rest();
}

/// A run that goes on comes again and again to nodes that are free for the line of output, until it ends or traps.
pub fn output_keeps_moving()
    ensures { OutputKeepsMoving }
{
    tree_facts();
    flow_graph_is_strong();
    passes_are_a_walk();
    runs_leave_the_start();
}
