//! The regions of the flow graph of a program.

ghost use Rattle.std.specs.Prelude.{◌≡◌, ◌<◌, IfOk};
ghost use Rattle.closed_walks.specs.Graph.{edge_count};
ghost use Rattle.closed_walks.specs.Numbering.{IsNumbering};
ghost use Rattle.closed_walks.specs.Walk.{IsStrong};
ghost use Rattle.f77_tree.specs.WellFormed.{IsWellFormed};
ghost use Rattle.flow_analysis.specs.Analysis.{AreFlowRegionsOf};

use cfg_build::{Flow, flow_of};
use closed_walks::Digraph;
use cycle_equiv::edge_classes;
use df_sequence::NoMemory;
use f77_tree::Program;
use region_tree::{RegionTree, region_tree};
use std::alloc::Global;
use std::marker::Brand;
use std::sync::ledger::{Blank, Ledger};
use step_count::Steps;

/// The flow graph of a program, the number of each edge's class of cycle equivalent edges, from 0, and the tree of the regions.
#[derive(Drop)]
pub struct FlowRegions {
    pub flow: Flow,
    pub edge_classes: Vec<u32>,
    pub tree: RegionTree,
}

/// The flow graph of a program with its regions.
///
/// # Errors
///
/// NoMemory, where an allocation failed.
pub fn flow_regions(alloc: Global, program: &Program) -> Result<FlowRegions, NoMemory>
    requires { IsWellFormed program.now }
    ensures { IfOk result (λ found. AreFlowRegionsOf program.now found) }
{
    let flow = flow_of(alloc, program)?;
    let edge_classes = edge_numbers::<Brand>(alloc, flow.graph(), Blank::new(1))?;
    let tree = region_tree(alloc, flow.graph(), &edge_classes)?;
    Ok(FlowRegions {
        flow,
        edge_classes,
        tree,
    })
}

// The classes of cycle equivalent edges, counted on a ledger of their own.
fn edge_numbers<L: Ledger>(alloc: Global, g: &Digraph, blank: Blank) -> Result<Vec<u32>, NoMemory>
    requires strong { IsStrong g.now }
    requires edge { 0 < edge_count g.now }
    requires name { blank.name ≡ L.name }
    requires parts { blank.parts ≡ L.parts }
    requires some { 0 < blank.parts }
    ensures { IfOk result (λ classes. IsNumbering g.now classes.items) }
{
    let mut steps: Steps<L> = Steps::new(blank);
    edge_classes(alloc, g, &mut steps)
}
