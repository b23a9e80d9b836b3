//! What was found of a program as the parts of its net.

ghost use Rattle.dep_routing.specs.Touch.{touches_in};
ghost use Rattle.f77_tree.specs.WellFormed.{IsWellFormed};
ghost use Rattle.flow_analysis.specs.Analysis.{IsRangeAnalysisOf};
ghost use Rattle.operation_tables.specs.OperationParts.{AreOperationParts};

use f77_tree::Program;
use flow_analysis::Analysis;

/// What was found of a program makes its net of operations.
pub fn are_net_parts(program: &Program, found: &Analysis<'_>)
    requires program { IsWellFormed program.now }
    requires found { IsRangeAnalysisOf program.now found.now }
    ensures { AreOperationParts program.now found.now.flow found.now.classes (touches_in found.now.touch) found.now.lines }
{}
