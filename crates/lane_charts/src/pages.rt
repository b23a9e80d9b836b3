//! A page that shows a program and its runs, and steps through them.

ghost use Rattle.std.specs.Prelude.{◌≡◌, IfOk, Some, map, string_bytes};
ghost use Rattle.lane_charts.specs.Page.{AreSections, IsPage, IsSection, node_of};
ghost use Rattle.lane_charts.specs.Sections.{counts_from, page_html, writes as spec_writes};

use crate::chart::lane_chart;
use crate::script::{page_sheet, script};
use crate::sections::Section;
use printed_graphs::{Firing, Node, PrintedFlow, PrintedGraph, PrintedTrace, Work};
use round_charts::rounds_chart;
use std::alloc::Global;
use std::fmt;
use svg_text::{ChartFault, Each};

/// A run of a program.
#[derive(Clone, Copy)]
pub struct Run<'a> {
    /// What stands above it.
    pub name: &'a str,
    /// What fires in it.
    pub trace: &'a PrintedTrace,
    /// The round of each firing, counted from 1.
    pub rounds: &'a [u32],
    /// What the program prints in it: line k is what the WRITE of number k writes.
    pub printed: &'a [u8],
}

/// A page in HTML, with all that it needs, that shows the lane chart of a program and the rounds of its runs side by side, and
/// steps through them: the token of each line moves along its lane, and what has been printed stands below.
///
/// # Errors
///
/// `TooLarge` where a picture would be 2^32 pixels or more wide or high, and `NoMemory`.
pub fn page(
    alloc: Global,
    flow: &PrintedFlow,
    graph: &PrintedGraph,
    runs: &[Run<'_>],
    source: &[u8],
) -> Result<String, ChartFault>
    ensures { IfOk result (λ text. IsPage flow.now graph.now runs.now (string_bytes text)) }
{
    let chart = lane_chart(alloc, flow, graph, source)?;
    let sections = sections_of(alloc, flow, graph, runs, source, chart.as_str())?;
    let page = Document(sections.as_slice());
    let text = format!(in alloc; "{page}")?;
    Ok(text)
}

// The page of these sections.
#[derive(Clone, Copy)]
struct Document<'a, 'b>(&'a [Section<'b>]);

impl fmt::Display for Document<'_, '_> {
    ghost output = { λ p. Some (page_html p.0.now) };

    #[tactic(auto, unfolding(crate::specs::Sections::page_html))]
    fn fmt<W: fmt::Write>(&self, f: &mut fmt::Formatter<W>) -> fmt::Result {
        let sheet = page_sheet();
        let sections = Each(self.0);
        let script = script();
        write!(
            f,
            "<!DOCTYPE html>\n<html lang=\"en\"><head><meta charset=\"utf-8\"><title>A program and its runs</title>\n{sheet}</head><body>\n<div class=\"runs\">\n{sections}</div>\n{script}</body></html>\n"
        )
    }
}

// The sections of runs, each once, with this chart in each.
#[tactic(auto, using(crate::proofs::MoreSections::one_more))]
fn sections_of<'a>(
    alloc: Global,
    flow: &PrintedFlow,
    graph: &PrintedGraph,
    runs: &[Run<'a>],
    source: &[u8],
    chart: &str,
) -> Result<Vec<Section<'a>>, ChartFault>
    ensures { IfOk result (λ sections. AreSections graph.now chart.now runs.now sections.items) }
{
    let mut sections = Vec::with_capacity(alloc, runs.len())?;
    for run in runs {
        sections.push(section_of(alloc, flow, graph, run, source, chart)?)?;
    }
    Ok(sections)
}

// The section of a run, with this chart.
fn section_of<'a>(
    alloc: Global,
    flow: &PrintedFlow,
    graph: &PrintedGraph,
    run: &Run<'a>,
    source: &[u8],
    chart: &str,
) -> Result<Section<'a>, ChartFault>
    ensures { IfOk result (λ section. IsSection graph.now chart.now run.now section) }
{
    let firings = run.trace.firings.as_slice();
    let nodes = nodes_of(alloc, firings)?;
    let counts = counts_of(alloc, graph.nodes.as_slice(), firings)?;
    let chart = String::from_str(alloc, chart)?;
    let rounds = rounds_chart(alloc, flow, graph, run.trace, run.rounds, source)?;
    Ok(Section {
        name: run.name,
        nodes,
        counts,
        printed: run.printed,
        chart,
        rounds,
    })
}

// The nodes that fire.
fn nodes_of(alloc: Global, firings: &[Firing]) -> Result<Vec<u32>, ChartFault>
    ensures { IfOk result (λ nodes. nodes.items ≡ map node_of firings.now) }
{
    let mut nodes = Vec::with_capacity(alloc, firings.len())?;
    for firing in firings {
        nodes.push(firing.node)?;
    }
    Ok(nodes)
}

// How many lines have been printed after each firing.
fn counts_of(alloc: Global, nodes: &[Node], firings: &[Firing]) -> Result<Vec<u32>, ChartFault>
    ensures { IfOk result (λ counts. counts.items ≡ counts_from nodes.now 0 firings.now) }
{
    let mut counts = Vec::with_capacity(alloc, firings.len())?;
    let mut lines = 0u32;
    for firing in firings {
        if writes(nodes, firing.node) {
            lines = lines.checked_add(1).ok_or(ChartFault::TooLarge)?;
        }
        counts.push(lines)?;
    }
    Ok(counts)
}

// Whether a node writes a line.
fn writes(nodes: &[Node], node: u32) -> bool
    ensures { result ≡ spec_writes nodes.now node }
{
    match nodes.get(node as usize) {
        Some(Node::Operation { work, .. }) => matches!(work, Work::Write),
        _ => false,
    }
}
