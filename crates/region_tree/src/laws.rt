//! Laws on region trees, as contracts of functions that do nothing.

ghost use Rattle.std.specs.Prelude.{◌≡◌, ◌≢◌, ℕ};
ghost use Rattle.closed_walks.specs.Graph.{Graph};
ghost use Rattle.closed_walks.specs.Region.{IsFlowGraph, IsPassed};
ghost use Rattle.region_tree.specs.Tree.{Tree, IsRegionTree, IsNumber, IsIn, IsPart, entry_of, exit_of};
ghost use Rattle.region_tree.specs.Laws.{HasBorders, IsOwnRegion, IsTreeRank, AreApartOrNested, HoldersAreAChain};

use crate::facts::region_facts;

/// Of all edges the entry of a region alone leads into it, and its exit alone leads out of it.
pub fn region_borders()
    ensures { (g : Graph) (t : Tree) (r : ℕ) → IsFlowGraph g → IsRegionTree g t → IsNumber t r → HasBorders g t r }
{
    region_facts();
}

/// Different regions have different entries and different exits.
pub fn region_numbers()
    ensures entry { (g : Graph) (t : Tree) (q r : ℕ) → IsFlowGraph g → IsRegionTree g t → IsNumber t q → IsNumber t r → entry_of t q ≡ entry_of t r → q ≡ r }
    ensures exit { (g : Graph) (t : Tree) (q r : ℕ) → IsFlowGraph g → IsRegionTree g t → IsNumber t q → IsNumber t r → exit_of t q ≡ exit_of t r → q ≡ r }
{
    region_facts();
}

/// Two different regions have no node in common, or one of them lies within the other; two that lie within each other are one.
pub fn tree_nests()
    ensures apart { AreApartOrNested }
    ensures one_way { (g : Graph) (t : Tree) (q r : ℕ) → IsFlowGraph g → IsRegionTree g t → IsNumber t q → IsNumber t r → IsPart g t q r → IsPart g t r q → q ≡ r }
{
    region_facts();
}

/// The start lies in no region.
pub fn start_is_outside()
    ensures { (g : Graph) (t : Tree) (r : ℕ) → IsFlowGraph g → IsRegionTree g t → IsNumber t r → IsIn g t r 0 → ⊥ }
{
    region_facts();
}

/// A node other than the start, with one edge to it and another from it, is a region by itself.
pub fn passed_nodes_are_regions()
    ensures { (g : Graph) (t : Tree) (node a b : ℕ) → IsFlowGraph g → IsRegionTree g t → IsPassed g node a b → 0 ≢ node → IsOwnRegion g t node a b }
{
    region_facts();
}

/// Edges can be numbered so that the numbers rise from the entry of a region to its exit, and from the entry of a region to that of
/// each region within it.
pub fn tree_ranks()
    ensures { (g : Graph) (t : Tree) → IsFlowGraph g → IsRegionTree g t → (rank : ℕ → ℕ) × (bound : ℕ) × IsTreeRank g t rank bound }
{
    region_facts();
}

/// A region that holds a node is the smallest that does, or comes of it by parents.
pub fn holders_are_a_chain()
    ensures { HoldersAreAChain }
{
    region_facts();
}

/// A graph has one region tree.
pub fn one_tree()
    ensures { (g : Graph) (t u : Tree) → IsFlowGraph g → IsRegionTree g t → IsRegionTree g u → t ≡ u }
{
    region_facts();
}
