//! What the laws of other crates say, in one clause for each subject.

ghost use Rattle.std.specs.Prelude.{ℕ, ℤ, List, Bool};
ghost use Rattle.closed_walks.specs.Graph.{Graph};
ghost use Rattle.closed_walks.specs.Region.{IsFlowGraph};
ghost use Rattle.f77_tree.specs.declared.programs.Program.{Program};
ghost use Rattle.f77_tree.specs.WellFormed.{IsWellFormed};
ghost use Rattle.alias_classes.specs.Classes.{ClassTable, IsClasses};
ghost use Rattle.region_tree.specs.Tree.{Tree, IsRegionTree};
ghost use Rattle.dep_routing.specs.Routing.{Routing, IsRouting};
ghost use Rattle.constant_laws.specs.Facts.{PlaceFacts, WordFacts, RunFacts};

use alias_classes::needs_cover_accesses;
use cfg_build::{passes_are_a_walk, runs_leave_the_start};
use dep_routing::{
    free_nodes, free_passed_nodes, largest_quiet_regions, next_edges, places, places_over_a_pass,
};
use f77_tree::{executables_keep_the_rest, known_values_are_right, well_formed_programs_can_run};

/// What the laws on quiet regions say of where lines stand.
pub(crate) fn place_facts()
    ensures { (g : Graph) (tree : Tree) (touches : ℕ → ℕ → Bool) (lines : ℕ) (r : Routing) → IsFlowGraph g → IsRegionTree g tree → IsRouting g tree touches lines r → PlaceFacts g tree touches r }
{
    free_nodes();
    free_passed_nodes();
    largest_quiet_regions();
    next_edges();
    places();
    places_over_a_pass();
}

/// What the laws on executables say of words and their classes.
pub(crate) fn word_facts()
    ensures { (p : Program) (c : ClassTable) (input : List ℤ) → IsWellFormed p → IsClasses p c → WordFacts p c input }
{
    executables_keep_the_rest();
    known_values_are_right();
    needs_cover_accesses();
    well_formed_programs_can_run();
}

/// What the laws on passes say of the edges of a run.
pub(crate) fn run_facts()
    ensures { (p : Program) (input : List ℤ) → IsWellFormed p → RunFacts p input }
{
    passes_are_a_walk();
    runs_leave_the_start();
}
