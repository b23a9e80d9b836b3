//! Laws on regions, as contracts of functions that do nothing. A region is an edge, the next edge of its class from the start,
//! and the nodes between the two.
//!
//! Source: Johnson, Pearson and Pingali, "The program structure tree", PLDI 1994.

ghost use Rattle.std.specs.Prelude.{◌≡◌, ◌≢◌, ◌<◌, ◌↔◌, ◌⊎◌, ℕ, List, length, take, slice_index_or};
ghost use Rattle.closed_walks.specs.ClassLaws.{SidesOfClassesAreTold};
ghost use Rattle.closed_walks.specs.Graph.{Graph, from};
ghost use Rattle.closed_walks.specs.Walk.{Holds, Reach, only};
ghost use Rattle.closed_walks.specs.Region.{IsFlowGraph, IsPair, IsBefore, IsInside, IsRegion, IsRank, IsGrown, IsPassed, AreApart, IsWithin};

/// In a strongly connected graph the nodes between two different edges of one class can be told by a test, and of all edges the
/// first alone enters them and the second alone leaves them.
pub fn sides_of_classes()
    ensures { SidesOfClassesAreTold }
{}

/// The edges of a class have an order: of two the one or the other is met first from the start, never both, and what is met
/// first is so on and on. Edge 0 is met last.
pub fn class_order()
    ensures first { (g : Graph) (a b : ℕ) → IsFlowGraph g → IsPair g a b → IsBefore g a b ⊎ IsBefore g b a }
    ensures not_both { (g : Graph) (a b : ℕ) → IsFlowGraph g → IsPair g a b → IsBefore g a b → IsBefore g b a → ⊥ }
    ensures on { (g : Graph) (a b c : ℕ) → IsFlowGraph g → IsPair g a b → IsPair g b c → IsBefore g a b → IsBefore g b c → IsBefore g a c }
    ensures last { (g : Graph) (c : ℕ) → IsFlowGraph g → IsPair g c 0 → IsBefore g c 0 }
{}

/// What lies between two edges of a class, of which the one is met first, is come to from the start over the one alone, and
/// from there the start is come to over the other alone.
pub fn regions_are_passed()
    ensures entry { (g : Graph) (a b node : ℕ) → IsFlowGraph g → IsPair g a b → IsBefore g a b → Reach g (only a) 0 node → IsInside g a b node → ⊥ }
    ensures exit { (g : Graph) (a b node : ℕ) → IsFlowGraph g → IsPair g a b → IsBefore g a b → IsInside g a b node → Reach g (only b) node 0 → ⊥ }
{}

/// A region is told by its entry, by its exit, and by its nodes.
pub fn region_edges()
    ensures entry { (g : Graph) (a b c : ℕ) → IsFlowGraph g → IsRegion g a b → IsRegion g a c → b ≡ c }
    ensures exit { (g : Graph) (a b c : ℕ) → IsFlowGraph g → IsRegion g a b → IsRegion g c b → a ≡ c }
    ensures nodes { (g : Graph) (a b c d : ℕ) → IsFlowGraph g → IsRegion g a b → IsRegion g c d → ((node : ℕ) → IsInside g a b node ↔ IsInside g c d node) → a ≡ c }
{}

/// Two regions with different entries have no node in common, or the nodes of the one are among those of the other.
pub fn regions_nest()
    ensures { (g : Graph) (a b c d : ℕ) → IsFlowGraph g → IsRegion g a b → IsRegion g c d → a ≢ c → AreApart g a b c d ⊎ (IsWithin g a b c d ⊎ IsWithin g c d a b) }
{}

/// Edges can be numbered so that the entry of a region has a lesser number than each edge that begins in the region. In a list
/// of edges, each of which begins where the edges before it lead from the start, the entry stands before them.
pub fn edge_ranks()
    ensures rank { (g : Graph) → IsFlowGraph g → (rank : ℕ → ℕ) × (bound : ℕ) × IsRank g rank bound }
    ensures grown { (g : Graph) (a b : ℕ) (edges : List ℕ) → IsFlowGraph g → IsPair g a b → IsBefore g a b → IsGrown g edges → (i : ℕ) → i < length edges → IsInside g a b (from g (slice_index_or edges i 0)) → Holds (take i edges) a }
{}

/// A node other than the start, with one edge to it and another from it, is a region.
pub fn passed_nodes()
    ensures region { (g : Graph) (node a b : ℕ) → IsFlowGraph g → IsPassed g node a b → 0 ≢ node → IsRegion g a b }
    ensures inside { (g : Graph) (node a b n : ℕ) → IsFlowGraph g → IsPassed g node a b → IsInside g a b n ↔ (n ≡ node) }
{}
