// The lines that tell how large a sample is. They are made in small arrays, without memory.

ghost use Rattle.std.specs.Prelude.{◌≡◌, ◌∷◌, ◌++◌, [], codes, length};
ghost use Rattle.std.specs.Fmt.{decimal};
ghost use Rattle.closed_walks.specs.Graph.{edge_count};
ghost use Rattle.closed_walks.specs.Numbering.{fresh};
ghost use Rattle.region_tree.specs.Tree.{region_count};
ghost use Rattle.sample_jobs.specs.DueSamples.{sample_line as spec_sample_line};
ghost use Rattle.graph_jobs.specs.Regions.{counts_line as spec_counts_line};

use arrayvec::ArrayString;
use flow_analysis::Analysis;
use graph_jobs::{class_count, counts_line};
use itoa::Buffer;

/// How long the text of a sample is.
pub fn sample_line(n: u32, bytes: usize) -> ArrayString<48>
    ensures { result.bytes ≡ spec_sample_line n bytes }
{
    let mut buffer = Buffer::new();
    let mut text = ArrayString::new();
    text.push_str("SAMPLE ");
    text.push_str(buffer.format(n));
    text.push_str(" BYTES ");
    text.push_str(buffer.format(bytes));
    text.push_str("\n");
    text
}

/// How many pieces, edges, classes and regions were found.
pub fn found_line(analysis: &Analysis<'_>) -> ArrayString<96>
    ensures { result.bytes ≡ spec_counts_line (length analysis.now.flow.pieces) (edge_count analysis.now.flow.graph) (fresh analysis.now.edge_classes.items) (region_count analysis.now.tree) }
{
    counts_line(
        analysis.flow.pieces(),
        analysis.flow.graph().edges(),
        class_count(analysis.edge_classes.as_slice()),
        analysis.tree.count(),
    )
}

/// How many lines and nodes a net has.
pub fn net_line(lines: u32, nodes: u32) -> ArrayString<48>
    ensures { result.bytes ≡ codes "LINES " ++ decimal lines ++ codes " NODES " ++ decimal nodes ++ 10 ∷ [] }
{
    let mut buffer = Buffer::new();
    let mut text = ArrayString::new();
    text.push_str("LINES ");
    text.push_str(buffer.format(lines));
    text.push_str(" NODES ");
    text.push_str(buffer.format(nodes));
    text.push_str("\n");
    text
}
