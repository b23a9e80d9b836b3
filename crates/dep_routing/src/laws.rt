//! Laws on quiet regions and on the places of lines, as contracts of functions that do nothing.

ghost use Rattle.std.specs.Prelude.{◌≡◌, ◌<◌, ◌⊎◌, ◌↔◌, ℕ, Bool, true};
ghost use Rattle.closed_walks.specs.Graph.{Graph, edge_count, from, to};
ghost use Rattle.closed_walks.specs.Region.{IsFlowGraph};
ghost use Rattle.region_tree.specs.Tree.{Tree, IsRegionTree, IsNumber, IsPart, innermost_of};
ghost use Rattle.dep_routing.specs.FreeLaws.{FreePassedNodesTouch};
ghost use Rattle.dep_routing.specs.Quiet.{IsQuiet, IsTouched, IsInQuiet, IsFree, IsWire, IsLargest};
ghost use Rattle.dep_routing.specs.Next.{Next};
ghost use Rattle.dep_routing.specs.Place.{Place};

use crate::facts::tree_facts;

/// Each region is quiet for a line, or a node in it touches the line; one within a quiet one is quiet. A quiet region holds a node
/// exactly where the smallest region that holds it is quiet.
pub fn quiet_regions()
    ensures either { (g : Graph) (t : Tree) (touches : ℕ → ℕ → Bool) (line r : ℕ) → IsFlowGraph g → IsRegionTree g t → IsNumber t r → IsQuiet g t touches line r ⊎ IsTouched g t touches line r }
    ensures within { (g : Graph) (t : Tree) (touches : ℕ → ℕ → Bool) (line q r : ℕ) → IsQuiet g t touches line q → IsNumber t r → IsPart g t r q → IsQuiet g t touches line r }
    ensures innermost { (g : Graph) (t : Tree) (touches : ℕ → ℕ → Bool) (line node : ℕ) → IsFlowGraph g → IsRegionTree g t → node < g.nodes → IsInQuiet g t touches line node ↔ IsQuiet g t touches line (innermost_of t node) }
{
    tree_facts();
}

/// A node that touches a line is free for it, and so is the start for each line.
pub fn free_nodes()
    ensures touching { (g : Graph) (t : Tree) (touches : ℕ → ℕ → Bool) (line node : ℕ) → touches node line ≡ true → IsFree g t touches line node }
    ensures start { (g : Graph) (t : Tree) (touches : ℕ → ℕ → Bool) (line : ℕ) → IsFlowGraph g → IsRegionTree g t → IsFree g t touches line 0 }
{
    tree_facts();
}

/// A node is free for a line, or one quiet region that holds it is the largest.
pub fn largest_quiet_regions()
    ensures some { (g : Graph) (t : Tree) (touches : ℕ → ℕ → Bool) (line node : ℕ) → IsFlowGraph g → IsRegionTree g t → node < g.nodes → IsFree g t touches line node ⊎ ((q : ℕ) × IsLargest g t touches line node q) }
    ensures one { (g : Graph) (t : Tree) (touches : ℕ → ℕ → Bool) (line node q r : ℕ) → IsFlowGraph g → IsRegionTree g t → IsLargest g t touches line node q → IsLargest g t touches line node r → q ≡ r }
{
    tree_facts();
}

/// From each edge a line is led to one edge, and from a wire to no other. From an edge that begins at a free node it is led to a wire,
/// and to each wire from one such edge at most.
pub fn next_edges()
    ensures some { (g : Graph) (t : Tree) (touches : ℕ → ℕ → Bool) (line e : ℕ) → IsFlowGraph g → IsRegionTree g t → (f : ℕ) × Next g t touches line e f }
    ensures one { (g : Graph) (t : Tree) (touches : ℕ → ℕ → Bool) (line e f h : ℕ) → IsFlowGraph g → IsRegionTree g t → Next g t touches line e f → Next g t touches line e h → f ≡ h }
    ensures exists { (g : Graph) (t : Tree) (touches : ℕ → ℕ → Bool) (line e f : ℕ) → IsFlowGraph g → IsRegionTree g t → e < edge_count g → Next g t touches line e f → f < edge_count g }
    ensures wire { (g : Graph) (t : Tree) (touches : ℕ → ℕ → Bool) (line e f : ℕ) → IsFlowGraph g → IsRegionTree g t → e < edge_count g → IsFree g t touches line (from g e) → Next g t touches line e f → IsWire g t touches line f }
    ensures stays { (g : Graph) (t : Tree) (touches : ℕ → ℕ → Bool) (line e f : ℕ) → IsFlowGraph g → IsRegionTree g t → IsWire g t touches line e → Next g t touches line e f → f ≡ e }
    ensures back { (g : Graph) (t : Tree) (touches : ℕ → ℕ → Bool) (line e d f : ℕ) → IsFlowGraph g → IsRegionTree g t → IsFree g t touches line (from g e) → IsFree g t touches line (from g d) → Next g t touches line e f → Next g t touches line d f → e ≡ d }
{
    tree_facts();
}

/// Each edge has one place of a line, and it is a wire.
pub fn places()
    ensures some { (g : Graph) (t : Tree) (touches : ℕ → ℕ → Bool) (line e : ℕ) → IsFlowGraph g → IsRegionTree g t → e < edge_count g → (f : ℕ) × Place g t touches line e f }
    ensures one { (g : Graph) (t : Tree) (touches : ℕ → ℕ → Bool) (line e f h : ℕ) → IsFlowGraph g → IsRegionTree g t → Place g t touches line e f → Place g t touches line e h → f ≡ h }
    ensures exists { (g : Graph) (t : Tree) (touches : ℕ → ℕ → Bool) (line e f : ℕ) → IsFlowGraph g → IsRegionTree g t → e < edge_count g → Place g t touches line e f → f < edge_count g }
    ensures wire { (g : Graph) (t : Tree) (touches : ℕ → ℕ → Bool) (line e f : ℕ) → IsFlowGraph g → IsRegionTree g t → e < edge_count g → Place g t touches line e f → IsWire g t touches line f }
{
    tree_facts();
}

/// How the place of a line changes where control comes to a node by the edge e and leaves it by the edge d. At a free node it is e,
/// and then the edge to which the line is led from d. At any other node it doesn't change.
pub fn places_over_a_pass()
    ensures arrives { (g : Graph) (t : Tree) (touches : ℕ → ℕ → Bool) (line e : ℕ) → IsFlowGraph g → IsRegionTree g t → e < edge_count g → IsFree g t touches line (to g e) → Place g t touches line e e }
    ensures departs { (g : Graph) (t : Tree) (touches : ℕ → ℕ → Bool) (line d f : ℕ) → IsFlowGraph g → IsRegionTree g t → IsFree g t touches line (from g d) → Place g t touches line d f ↔ Next g t touches line d f }
    ensures stays { (g : Graph) (t : Tree) (touches : ℕ → ℕ → Bool) (line e d f : ℕ) → IsFlowGraph g → IsRegionTree g t → e < edge_count g → d < edge_count g → from g d ≡ to g e → (IsFree g t touches line (to g e) → ⊥) → Place g t touches line d f ↔ Place g t touches line e f }
{
    tree_facts();
}

/// A free node other than the start, with one edge to it and another from it, touches the line.
pub fn free_passed_nodes()
    ensures { FreePassedNodesTouch }
{
    tree_facts();
}
