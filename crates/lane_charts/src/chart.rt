//! The lane chart of a program.

ghost use Rattle.std.specs.Prelude.{IfOk, string_bytes};
ghost use Rattle.lane_charts.specs.Pictures.{ShowsChart};

use chart_words::SourceLines;
use lane_layout::chart_of;
use printed_graphs::{PrintedFlow, PrintedGraph};
use std::alloc::Global;
use svg_text::ChartFault;

/// The lane chart of a program, as SVG: a row for each statement, a vertical lane for each token line, a mark where a node
/// takes it, and a box for each region of several rows. A lane that runs straight through a box is a token line that
/// bypasses the region.
///
/// # Errors
///
/// `TooLarge` where a place would be 2^32 pixels or more from the left or from above, and `NoMemory`.
pub fn lane_chart(
    alloc: Global,
    flow: &PrintedFlow,
    graph: &PrintedGraph,
    source: &[u8],
) -> Result<String, ChartFault>
    ensures { IfOk result (λ text. ShowsChart flow.now graph.now (string_bytes text)) }
{
    let lines = SourceLines::of(alloc, source)?;
    let chart = chart_of(alloc, flow, graph, &lines)?;
    let text = format!(in alloc; "{chart}")?;
    Ok(text)
}
