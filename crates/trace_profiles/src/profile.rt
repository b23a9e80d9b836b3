//! How wide a program is: how many nodes of a trace could have fired in each round.

ghost use Rattle.std.specs.Prelude.{◌≡◌, ◌↔◌, ◌-◌, ◌^◌, ◌==◌, ℕ, [], All, Err, IfOk, IsTrue, OnOk, Some, length, min, option_map, position, string_bytes};
ghost use Rattle.view_output.specs.declared.fault.Fault.TheVariants as fault;
ghost use Rattle.trace_profiles.specs.RunRounds.{Fires, TellsFiring, name_of, rounds_from};
ghost use Rattle.trace_profiles.specs.Profiles.{decimals_text, flow_lines as spec_flow_lines, graph_lines as spec_graph_lines, hundredths, lines_before, profile_text, sums_text, widest_round as spec_widest_round, widths_of, widths_text};
ghost use Rattle.trace_profiles.specs.Widths.{IsCounted};
ghost use Rattle.view_output.specs.Told.{Adds, told};

use crate::bars::{Table, greatest};
use crate::loads::Loads;
use crate::rounds::Rounds;
use df_io::Sink;
use printed_graphs::{Firing, Node, NodeName, PrintedFlow, PrintedGraph, PrintedTrace};
use std::alloc::Global;
use std::fmt;
use view_output::{Fault, Output};

/// Writes the profile of a trace.
pub fn write_profile<K: Sink + Drop>(
    alloc: Global,
    flow: Option<&PrintedFlow>,
    graph: &PrintedGraph,
    trace: &PrintedTrace,
    loads: Loads,
    output: &mut Output<K>,
) -> Result<(), Fault>
    ensures { OnOk result (Adds (told K.got output.old) (told K.got output.new) (profile_text graph.now loads trace.now.firings.items)) }
{
    let before = lines_before_trace(flow, graph);
    let text = text_of(alloc, graph, loads, trace.firings.as_slice(), before)?;
    output.text(text.as_str())
}

// The profile of these firings.
fn text_of(
    alloc: Global,
    graph: &PrintedGraph,
    loads: Loads,
    firings: &[Firing],
    before: u64,
) -> Result<String, Fault>
    ensures { IfOk result (λ text. string_bytes text ≡ profile_text graph.now loads firings.now) }
{
    let rounds = rounds_of(alloc, graph, loads, firings, before)?;
    let widths = widths(alloc, rounds.as_slice())?;
    let profile = Profile {
        widths: widths.as_slice(),
        firings: firings.len(),
    };
    let text = format!(in alloc; "{profile}")?;
    Ok(text)
}

/// The earliest round in which each firing could have come, counted from 1. So many lines of the text stand before the trace.
///
/// # Errors
///
/// `Firing` tells the line of a firing whose node the graph doesn't have under that name.
pub fn rounds_of(
    alloc: Global,
    graph: &PrintedGraph,
    loads: Loads,
    firings: &[Firing],
    before: u64,
) -> Result<Vec<u32>, Fault>
    ensures rounds { IfOk result (λ all. all.items ≡ rounds_from graph.now loads [] firings.now) }
    ensures nodes { IfOk result (λ all. All (Fires graph.now.nodes.items) firings.now) }
    ensures firing { (line : ℕ) → result ≡ Err (fault.Firing line) → TellsFiring graph.now.nodes.items firings.now before line }
{
    let mut rounds = Rounds::new(alloc, graph, loads)?;
    let mut all = Vec::new(alloc);
    let mut line = before;
    for firing in firings {
        line = line.saturating_add(1);
        if !is_node(graph.nodes.as_slice(), *firing) {
            return Err(Fault::Firing(line));
        }
        all.push(rounds.next(firing.node))?;
    }
    Ok(all)
}

// How many firings came in each round.
fn widths(alloc: Global, rounds: &[u32]) -> Result<Vec<u32>, Fault>
    ensures { IfOk result (λ widths. widths.items ≡ widths_of rounds.now) }
{
    let mut widths = vec![in alloc; 0u32; greatest(rounds) as usize]?;
    for round in rounds {
        count(&mut widths, *round);
    }
    Ok(widths)
}

// Counts a firing in a round.
fn count(widths: &mut Vec<u32>, round: u32)
    ensures count { length widths.new.items ≡ length widths.old.items }
    ensures counted { IsCounted widths.old.items widths.new.items round }
{
    let Some(place) = (round as usize).checked_sub(1) else {
        return;
    };
    if let Some(width) = widths.get_mut(place) {
        *width = width.saturating_add(1);
    }
}

// Whether the graph has the node that fired.
fn is_node(nodes: &[Node], firing: Firing) -> bool
    ensures { IsTrue result ↔ (Fires nodes.now firing) }
{
    match nodes.get(firing.node as usize) {
        Some(node) => has_name(node, firing.name),
        None => false,
    }
}

// Whether this is the node's name.
fn has_name(node: &Node, name: NodeName) -> bool
    ensures { IsTrue result ↔ (name_of node.now ≡ name) }
{
    match node {
        Node::Operation { piece, number, .. } => {
            name == NodeName::Operation {
                piece: *piece,
                number: *number,
            }
        }
        Node::Switch { piece, line } => {
            name == NodeName::Switch {
                piece: *piece,
                line: *line,
            }
        }
        Node::Merge { piece, line } => {
            name == NodeName::Merge {
                piece: *piece,
                line: *line,
            }
        }
    }
}

/// How many lines of a text with these graphs stand before its trace.
pub fn lines_before_trace(flow: Option<&PrintedFlow>, graph: &PrintedGraph) -> u64
    ensures { result ≡ lines_before (option_map (λ f. f.now) flow.entry) graph.now }
{
    flow_lines(flow).saturating_add(graph_lines(graph))
}

// How many lines the text of the flow graph has.
fn flow_lines(flow: Option<&PrintedFlow>) -> u64
    ensures { result ≡ min (spec_flow_lines (option_map (λ f. f.now) flow.entry)) (2 ^ 64 - 1) }
{
    match flow {
        Some(flow) => 1u64
            .saturating_add(flow.pieces.len() as u64)
            .saturating_add(flow.edges.len() as u64)
            .saturating_add(flow.regions.len() as u64),
        None => 0,
    }
}

// How many lines the text of the dataflow graph has.
fn graph_lines(graph: &PrintedGraph) -> u64
    ensures { result ≡ min (spec_graph_lines graph.now) (2 ^ 64 - 1) }
{
    1u64.saturating_add(graph.lines.len() as u64)
        .saturating_add(graph.nodes.len() as u64)
        .saturating_add(graph.values.len() as u64)
        .saturating_add(graph.wires.len() as u64)
        .saturating_add(graph.bypasses.len() as u64)
}

// The widths of rounds, and how many nodes fire in all of them.
#[derive(Clone, Copy)]
struct Profile<'a> {
    widths: &'a [u32],
    firings: usize,
}

impl fmt::Display for Profile<'_> {
    ghost output = { λ p. Some (widths_text p.widths.now p.firings) };

    #[tactic(auto, unfolding(crate::specs::Profiles::widths_text))]
    fn fmt<W: fmt::Write>(&self, f: &mut fmt::Formatter<W>) -> fmt::Result {
        let sums = Sums(*self);
        let table = Table(self.widths);
        write!(f, "{sums}{table}")
    }
}

// The numbers of firings and rounds, the mean width, and the widest round.
#[derive(Clone, Copy)]
struct Sums<'a>(Profile<'a>);

impl fmt::Display for Sums<'_> {
    ghost output = { λ s. Some (sums_text s.0.widths.now s.0.firings) };

    #[tactic(auto, unfolding(crate::specs::Profiles::sums_text))]
    fn fmt<W: fmt::Write>(&self, f: &mut fmt::Formatter<W>) -> fmt::Result {
        let Profile { widths, firings } = self.0;
        let rounds = widths.len();
        let mean = Hundredths(hundredths_of(firings as u64, rounds as u64));
        let width = greatest(widths);
        let round = widest_round(widths);
        writeln!(
            f,
            "FIRINGS {firings}\nROUNDS {rounds}\nMEAN {mean}\nWIDEST {width} ROUND {round}"
        )
    }
}

// Hundredths, as a number with two digits after the point.
#[derive(Clone, Copy)]
struct Hundredths(u64);

impl fmt::Display for Hundredths {
    ghost output = { λ h. Some (decimals_text h.0) };

    #[tactic(auto, unfolding(crate::specs::Profiles::decimals_text))]
    fn fmt<W: fmt::Write>(&self, f: &mut fmt::Formatter<W>) -> fmt::Result {
        let whole = self.0 / 100;
        let tenths = self.0 / 10 % 10;
        let rest = self.0 % 10;
        write!(f, "{whole}.{tenths}{rest}")
    }
}

// The hundredths of a ratio, cut off; that to 0 has none.
fn hundredths_of(n: u64, of: u64) -> u64
    ensures { result ≡ hundredths n of }
{
    if of == 0 {
        return 0;
    }
    n.saturating_mul(100) / of
}

// The first of the widest rounds, counted from 1, or 0 where no node fires.
fn widest_round(widths: &[u32]) -> usize
    ensures { result ≡ spec_widest_round widths.now }
{
    let most = greatest(widths);
    if most == 0 {
        return 0;
    }
    match place_of(widths, most) {
        Some(k) => k + 1,
        None => 0,
    }
}

// The place of the first round that is so wide.
fn place_of(widths: &[u32], most: u32) -> Option<usize>
    ensures { result ≡ position (λ w. w == most) widths.now }
{
    widths.iter().position(|width| *width == most)
}
