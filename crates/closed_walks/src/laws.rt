//! Laws on closed walks, as contracts of functions that do nothing.

ghost use Rattle.std.specs.Prelude.{◌≡◌, ◌<◌, ◌↔◌, ℕ, true, List, length, slice_index};
ghost use Rattle.closed_walks.specs.ClassLaws.{CutsAreClasses};
ghost use Rattle.closed_walks.specs.Graph.{Graph, IsGraph, edge_count, touches, edges_at};
ghost use Rattle.closed_walks.specs.Walk.{IsClosed, Holds, IsOnlyOnWalksWith, Reach, no_edge, IsStrong, IsCycleEquivalent};
ghost use Rattle.closed_walks.specs.Cycle.{AreOnSameCycles};
ghost use Rattle.closed_walks.specs.Endless.{GoesOn, MeetsCycle};
ghost use Rattle.closed_walks.specs.Reaching.{reaches};

/// Every closed walk that holds the one edge holds the other exactly where the one lies on no closed walk of the graph
/// without the other.
pub fn walks_without()
    ensures { (g : Graph) (a b : ℕ) → ((w : List ℕ) → IsClosed g w → Holds w a → Holds w b) ↔ IsOnlyOnWalksWith g b a }
{}

/// In a strongly connected graph two different edges are cycle equivalent exactly where they are a cut: of all edges they
/// alone join nodes of some set with nodes outside it.
pub fn cuts_are_classes()
    ensures { CutsAreClasses }
{}

/// In a strongly connected graph two edges are cycle equivalent exactly where no undirected cycle has just one of them. Such a
/// cycle may take an edge from either of its ends, but takes no edge and passes no node twice.
pub fn cycles_are_classes()
    ensures { (g : Graph) (a b : ℕ) → IsGraph g → IsStrong g → a < edge_count g → b < edge_count g → IsCycleEquivalent g a b ↔ AreOnSameCycles g a b }
{}

/// The test `reaches` tells whether a node is reached from another.
pub fn reaching_is_told()
    ensures { (g : Graph) (u v : ℕ) → IsGraph g → u < g.nodes → (reaches g u v ≡ true) ↔ Reach g no_edge u v }
{}

/// The edges of a node are those that touch it, in the order of their numbers.
pub fn edges_of_nodes()
    ensures touch { (g : Graph) (node e : ℕ) → Holds (edges_at g node) e ↔ ((e < edge_count g) × (touches g node e ≡ true)) }
    ensures rise { (g : Graph) (node i j : ℕ) → i < j → j < length (edges_at g node) → slice_index (edges_at g node) i < slice_index (edges_at g node) j }
{}

/// Where an edge leaves each node that is reached from a node, some node on a cycle is reached from it.
pub fn endless_ways_meet_cycles()
    ensures { (g : Graph) (u : ℕ) → IsGraph g → u < g.nodes → GoesOn g u → MeetsCycle g u }
{}
