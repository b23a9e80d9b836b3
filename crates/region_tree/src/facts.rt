//! What is known of regions, in one clause.

ghost use Rattle.closed_walks.specs.Graph.{Graph};
ghost use Rattle.closed_walks.specs.Region.{IsFlowGraph};
ghost use Rattle.region_tree.specs.Facts.{RegionFacts};

use closed_walks::{
    class_order, edge_ranks, passed_nodes, region_edges, regions_are_passed, regions_nest,
    sides_of_classes,
};

/// What the laws of walks say of the regions of a flow graph.
pub(crate) fn region_facts()
    ensures { (g : Graph) → IsFlowGraph g → RegionFacts g }
{
    sides_of_classes();
    class_order();
    regions_are_passed();
    region_edges();
    regions_nest();
    edge_ranks();
    passed_nodes();
}
