//! All that the jobs on a program share.

ghost use Rattle.std.specs.Prelude.{◌<◌, ◌*◌, IfOk};
ghost use Rattle.f77_tree.specs.WellFormed.{IsWellFormed};
ghost use Rattle.alias_classes.specs.Classes.{IsClasses, class_count};
ghost use Rattle.alias_classes.specs.Number.{HasFewClasses};
ghost use Rattle.alias_classes.specs.declared.TheConstants.{CLASS_WORDS};
ghost use Rattle.flow_analysis.specs.Analysis.{IsAnalysisOf, IsRangeAnalysisOf};

use crate::graph::{FlowRegions, flow_regions};
use alias_classes::{CLASS_WORDS, ClassEnd, Classes, classes_of};
use cfg_build::Flow;
use dep_routing::{Lines, TouchList, route, touches, touches_are_sound};
use df_sequence::NoMemory;
use f77_tree::Program;
use range_lines::{range_touches, range_touches_are_sound};
use region_tree::RegionTree;
use std::alloc::Global;

/// All that the jobs on a program share, beside the program itself.
#[derive(Drop)]
pub struct Analysis<'a> {
    /// The flow graph of the program.
    pub flow: Flow,
    /// The number of each edge's class of cycle equivalent edges, from 0.
    pub edge_classes: Vec<u32>,
    /// The tree of the regions of the flow graph.
    pub tree: RegionTree,
    /// The alias classes.
    pub classes: Classes<'a, CLASS_WORDS>,
    /// The token lines that each piece touches: line 0 is that of output, and the others are the alias classes.
    pub touch: TouchList<CLASS_WORDS>,
    /// The wires of each token line, and to which edge it is led from each.
    pub lines: Lines<CLASS_WORDS>,
}

/// Makes all that the jobs on a program share.
///
/// # Errors
///
/// NoMemory, where an allocation failed.
pub fn analyze<'a>(alloc: Global, program: &'a Program) -> Result<Analysis<'a>, NoMemory>
    requires program { IsWellFormed program.now }
    requires few { HasFewClasses program.now }
    ensures { IfOk result (λ found. IsAnalysisOf program.now found) }
{
    touches_are_sound();
    let classes = few_classes_of(alloc, program)?;
    let FlowRegions {
        flow,
        edge_classes,
        tree,
    } = flow_regions(alloc, program)?;
    let touch = touches(alloc, program, &flow, &classes)?;
    let lines = route(alloc, flow.graph(), &tree, &touch, classes.count() + 1)?;
    Ok(Analysis {
        flow,
        edge_classes,
        tree,
        classes,
        touch,
        lines,
    })
}

/// Makes the same for the games on a program: subscripts that are seen in range can't trap, so fewer pieces touch the line of output.
///
/// # Errors
///
/// NoMemory, where an allocation failed.
pub fn analyze_by_ranges<'a>(alloc: Global, program: &'a Program) -> Result<Analysis<'a>, NoMemory>
    requires program { IsWellFormed program.now }
    requires few { HasFewClasses program.now }
    ensures { IfOk result (λ found. IsRangeAnalysisOf program.now found) }
{
    range_touches_are_sound();
    let classes = few_classes_of(alloc, program)?;
    let FlowRegions {
        flow,
        edge_classes,
        tree,
    } = flow_regions(alloc, program)?;
    let touched = range_touches(alloc, program, &flow, &classes)?;
    let lines = route(alloc, flow.graph(), &tree, &touched, classes.count() + 1)?;
    Ok(Analysis {
        flow,
        edge_classes,
        tree,
        classes,
        touch: touched,
        lines,
    })
}

// The alias classes of a program that has few.
fn few_classes_of(alloc: Global, program: &Program) -> Result<Classes<'_, CLASS_WORDS>, NoMemory>
    requires program { IsWellFormed program.now }
    requires few { HasFewClasses program.now }
    ensures classes { IfOk result (λ classes. IsClasses program.now classes) }
    ensures few { IfOk result (λ classes. class_count classes < 64 * CLASS_WORDS) }
{
    match classes_of::<CLASS_WORDS>(alloc, program) {
        Ok(classes) => Ok(classes),
        Err(ClassEnd::TooManyClasses) => unreachable!(),
        Err(ClassEnd::NoMemory) => Err(NoMemory),
    }
}
