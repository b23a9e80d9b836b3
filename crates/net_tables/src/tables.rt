//! The tables of a net, made from its parts.

ghost use Rattle.std.specs.Prelude.{◌≡◌, ◌+◌, ◌<◌, ◌^◌, ◌++◌, ◌&&◌, ℕ, suc, All, length, map, slice_index, IfOk, OnOk};
ghost use Rattle.std.specs.List.{range_with_len};
ghost use Rattle.class_set.specs.ClassSet.{holds};
ghost use Rattle.closed_walks.specs.Graph.{edge_count, to};
ghost use Rattle.cfg_build.specs.Joined.{is_end};
ghost use Rattle.cfg_build.specs.Passes.{outs as outs_in};
ghost use Rattle.firing.specs.declared.system.NodeName.TheVariants.{Merge, Switch};
ghost use Rattle.net_board.specs.Nodes.{graph_in, is_free, led_to, passing, touched, nodes_at, nodes_below, nodes_of, first_node};
ghost use Rattle.net_board.specs.ControlCourse.{arrival, is_idle, passed};
ghost use Rattle.net_board.specs.Simulation.{HasExecs};
ghost use Rattle.net_tables.specs.NetTables.{AreTables, all_edges, all_pieces};
ghost use Rattle.net_tables.specs.PartsView.{net_in};
ghost use Rattle.net_tables.specs.PlaceRowSteps.{is_led_past};

use crate::places::{PlaceRows, all_places};
use crate::program_parts::Plan;
use cfg_build::{PieceKind, pieces_are_few};
use class_set::ClassSet;
use closed_walks::Digraph;
use dep_routing::{least_above, touched_lines};
use df_sequence::{LabelList, NoMemory};
use firing::NodeName;
use net_board::control_arrives;
use node_names::NameList;
use std::alloc::Global;

/// The nodes of a net, and for each piece what its firings look up.
#[derive(Drop)]
pub(crate) struct Tables {
    /// The name of each node.
    pub(crate) names: NameList,
    /// For each piece the number of its first node, and last the number of all nodes.
    pub(crate) firsts: Vec<u32>,
    /// For each piece the lines that it touches.
    pub(crate) touched: Vec<LabelList>,
    /// For each piece the edges that leave it.
    pub(crate) outs: Vec<LabelList>,
    /// For each edge the next piece with nodes that control comes to along it, or the end.
    pub(crate) arrivals: Vec<u32>,
    /// For each piece that can have switches or merges, for each line the node of the piece that the line goes through, or the
    /// number of all nodes. The list of any other piece is empty.
    pub(crate) places: PlaceRows,
}

/// The tables of a net.
pub(crate) fn make_tables<const W: usize>(alloc: Global, plan: &Plan<W>) -> Result<Tables, NoMemory>
    requires { HasExecs (net_in plan.now) }
    ensures { IfOk result (λ t. AreTables (net_in plan.now) t) }
{
    let nodes = numbered_nodes(alloc, plan)?;
    let touched = all_touched(alloc, plan)?;
    let outs = all_outs(alloc, plan.flow.graph())?;
    let arrivals = arrivals(alloc, plan, &nodes.firsts, &outs)?;
    let places = all_places(alloc, plan, &nodes.firsts, nodes.names.len() as u32)?;
    Ok(Tables {
        names: nodes.names,
        firsts: nodes.firsts,
        touched,
        outs,
        arrivals,
        places,
    })
}

/// The nodes by pieces.
#[derive(Drop)]
struct NumberedNodes {
    names: NameList,
    firsts: Vec<u32>,
}

/// The nodes. A program has few pieces, and each of them a node for each line and one more at most: so all can be numbered.
fn numbered_nodes<const W: usize>(alloc: Global, plan: &Plan<W>) -> Result<NumberedNodes, NoMemory>
    requires { HasExecs (net_in plan.now) }
    ensures names { IfOk result (λ n. n.names ≡ nodes_of (net_in plan.now)) }
    ensures few { IfOk result (λ n. length n.names < 2 ^ 32) }
    ensures firsts { IfOk result (λ n. n.firsts.items ≡ map (first_node (net_in plan.now)) (range_with_len 0 (suc (graph_in (net_in plan.now)).nodes))) }
{
    let mut names = NameList::new(alloc);
    let mut firsts = Vec::with_capacity(alloc, plan.flow.pieces() as usize + 1)?;
    let mut count = 0;
    firsts.push(count)?;
    for piece in 0..plan.flow.pieces() {
        push_nodes(&mut names, plan, piece)?;
        count = count_of(plan, piece, &names);
        firsts.push(count)?;
    }
    Ok(NumberedNodes { names, firsts })
}

/// How many nodes the pieces up to this one have.
fn count_of<const W: usize>(plan: &Plan<W>, piece: u32, names: &NameList) -> u32
    requires execs { HasExecs (net_in plan.now) }
    requires piece { piece < (graph_in (net_in plan.now)).nodes }
    requires names { names.now ≡ nodes_below (net_in plan.now) (piece + 1) }
    ensures count { result ≡ length names.now }
    ensures few { length names.now < 2 ^ 32 }
{
    pieces_are_few();
    names.len() as u32
}

/// Appends the nodes of a piece.
fn push_nodes<const W: usize>(
    names: &mut NameList,
    plan: &Plan<W>,
    piece: u32,
) -> Result<(), NoMemory>
    requires { piece < (graph_in (net_in plan.now)).nodes }
    ensures { OnOk result (names.new ≡ names.old ++ nodes_at (net_in plan.now) piece) }
{
    match plan.flow.piece(piece).kind {
        PieceKind::Act => {
            names.push(NodeName::Act(piece))?;
            Ok(())
        }
        PieceKind::Branch | PieceKind::Hold => {
            names.push(NodeName::Act(piece))?;
            push_switches(names, plan, piece)
        }
        PieceKind::Join | PieceKind::End => push_merges(names, plan, piece),
        PieceKind::Start | PieceKind::Pass => Ok(()),
    }
}

/// Appends a switch for each line that passes the piece untouched.
fn push_switches<const W: usize>(
    names: &mut NameList,
    plan: &Plan<W>,
    piece: u32,
) -> Result<(), NoMemory>
    requires { piece < (graph_in (net_in plan.now)).nodes }
    ensures { OnOk result (names.new ≡ names.old ++ map (Switch piece) (passing (net_in plan.now) piece)) }
{
    let passing = passing_lines(plan, piece);
    let lines = plan.routes.lines();
    let mut line = least_above(&passing, None, lines);
    while line < lines {
        names.push(NodeName::Switch(piece, line))?;
        line = least_above(&passing, Some(line), lines);
    }
    Ok(())
}

/// Appends a merge for each line that is led to the piece.
fn push_merges<const W: usize>(
    names: &mut NameList,
    plan: &Plan<W>,
    piece: u32,
) -> Result<(), NoMemory>
    requires { piece < (graph_in (net_in plan.now)).nodes }
    ensures { OnOk result (names.new ≡ names.old ++ map (Merge piece) (led_to (net_in plan.now) piece)) }
{
    let free = free_lines(plan, piece);
    let lines = plan.routes.lines();
    let mut line = least_above(&free, None, lines);
    while line < lines {
        names.push(NodeName::Merge(piece, line))?;
        line = least_above(&free, Some(line), lines);
    }
    Ok(())
}

/// The lines that are led to the piece: those of which an edge to it is a wire.
pub(crate) fn free_lines<const W: usize>(plan: &Plan<W>, piece: u32) -> ClassSet<W>
    requires { piece < (graph_in (net_in plan.now)).nodes }
    ensures { (line : ℕ) → line < (net_in plan.now).routing.lines → holds result line ≡ is_free (net_in plan.now) piece line }
{
    let graph = plan.flow.graph();
    let mut free = ClassSet::empty();
    for e in graph.edges_at(piece) {
        if graph.to(*e) == piece {
            free = free.union(plan.routes.wires(*e));
        }
    }
    free
}

/// The lines that are led to the piece, and that it doesn't touch.
pub(crate) fn passing_lines<const W: usize>(plan: &Plan<W>, piece: u32) -> ClassSet<W>
    requires { piece < (graph_in (net_in plan.now)).nodes }
    ensures { (line : ℕ) → line < (net_in plan.now).routing.lines → holds result line ≡ is_led_past (net_in plan.now) piece line }
{
    free_lines(plan, piece).difference(plan.touch.at(piece))
}

/// Whether the piece touches the line.
pub fn touches<const W: usize>(plan: &Plan<W>, piece: u32, line: u32) -> bool
    requires { piece < (graph_in (net_in plan.now)).nodes }
    ensures { result ≡ (net_in plan.now).touches piece line }
{
    plan.touch.at(piece).holds(line)
}

/// For each piece the lines that it touches.
fn all_touched<const W: usize>(alloc: Global, plan: &Plan<W>) -> Result<Vec<LabelList>, NoMemory>
    ensures { IfOk result (λ all. all.items ≡ map (touched (net_in plan.now)) (all_pieces (net_in plan.now))) }
{
    let mut all = Vec::with_capacity(alloc, plan.flow.pieces() as usize)?;
    for piece in 0..plan.flow.pieces() {
        all.push(touched_lines(alloc, plan.touch, piece, plan.routes.lines())?)?;
    }
    Ok(all)
}

/// For each piece the edges that leave it.
fn all_outs(alloc: Global, g: &Digraph) -> Result<Vec<LabelList>, NoMemory>
    ensures { IfOk result (λ all. all.items ≡ map (outs_in g.now) (range_with_len 0 g.now.nodes)) }
{
    let mut all = Vec::with_capacity(alloc, g.nodes() as usize)?;
    for piece in 0..g.nodes() {
        all.push(outs(alloc, g, piece)?)?;
    }
    Ok(all)
}

fn outs(alloc: Global, g: &Digraph, piece: u32) -> Result<LabelList, NoMemory>
    requires { piece < g.now.nodes }
    ensures { IfOk result (λ edges. edges ≡ outs_in g.now piece) }
{
    few_edges(g);
    let mut list = LabelList::new(alloc);
    for e in g.edges_at(piece) {
        if g.from(*e) == piece {
            list.push(*e)?;
        }
    }
    Ok(list)
}

/// A graph has fewer edges than a list can have items.
fn few_edges(g: &Digraph)
    ensures { edge_count g.now < 2 ^ 31 }
{
    let _edges = g.edges();
}

/// The edge with this place, counted from 0, among those that leave a piece, or edge 0 where none has it.
pub fn out_at(outs: &LabelList, i: u32) -> u32
    ensures { result ≡ slice_index outs.now i }
{
    outs.as_slice().get(i as usize).copied().unwrap_or(0)
}

/// For each edge the next piece with nodes that control comes to along it, or the end. Each round goes twice as far as the one
/// before, so that a program of nothing but idle pieces takes no longer than any other.
fn arrivals<const W: usize>(
    alloc: Global,
    plan: &Plan<W>,
    firsts: &Vec<u32>,
    outs: &Vec<LabelList>,
) -> Result<Vec<u32>, NoMemory>
    requires execs { HasExecs (net_in plan.now) }
    requires firsts { firsts.now.items ≡ map (first_node (net_in plan.now)) (range_with_len 0 (suc (graph_in (net_in plan.now)).nodes)) }
    requires outs { outs.now.items ≡ map (outs_in (graph_in (net_in plan.now))) (all_pieces (net_in plan.now)) }
    ensures { IfOk result (λ arrivals. arrivals.items ≡ map (arrival (net_in plan.now)) (all_edges (net_in plan.now))) }
{
    control_arrives();
    let mut edges = edges_passed(alloc, plan, firsts, outs)?;
    for round in 0..18u32 {
        edges = doubled(alloc, &edges)?;
    }
    heads(alloc, plan.flow.graph(), &edges)
}

/// For each edge that edge, or the one that leaves the idle piece to which it leads.
fn edges_passed<const W: usize>(
    alloc: Global,
    plan: &Plan<W>,
    firsts: &Vec<u32>,
    outs: &Vec<LabelList>,
) -> Result<Vec<u32>, NoMemory>
    requires firsts { firsts.now.items ≡ map (first_node (net_in plan.now)) (range_with_len 0 (suc (graph_in (net_in plan.now)).nodes)) }
    requires outs { outs.now.items ≡ map (outs_in (graph_in (net_in plan.now))) (all_pieces (net_in plan.now)) }
    ensures { IfOk result (λ edges. edges.items ≡ map (passed (net_in plan.now)) (all_edges (net_in plan.now))) }
{
    let count = plan.flow.graph().edges();
    let mut edges = Vec::with_capacity(alloc, count as usize)?;
    for e in 0..count {
        edges.push(passed(plan, firsts, outs, e))?;
    }
    Ok(edges)
}

/// The edge, or the one that leaves the idle piece to which it leads.
fn passed<const W: usize>(
    plan: &Plan<W>,
    firsts: &Vec<u32>,
    outs: &Vec<LabelList>,
    edge: u32,
) -> u32
    requires edge { edge < edge_count (graph_in (net_in plan.now)) }
    requires firsts { firsts.now.items ≡ map (first_node (net_in plan.now)) (range_with_len 0 (suc (graph_in (net_in plan.now)).nodes)) }
    requires outs { outs.now.items ≡ map (outs_in (graph_in (net_in plan.now))) (all_pieces (net_in plan.now)) }
    ensures { result ≡ passed (net_in plan.now) edge }
{
    let piece = plan.flow.graph().to(edge);
    if is_idle(plan, firsts, piece) {
        out_at(&outs[piece as usize], 0)
    } else {
        edge
    }
}

/// Whether control has nothing to fire at the piece, and goes on.
fn is_idle<const W: usize>(plan: &Plan<W>, firsts: &Vec<u32>, piece: u32) -> bool
    requires piece { piece < (graph_in (net_in plan.now)).nodes }
    requires firsts { firsts.now.items ≡ map (first_node (net_in plan.now)) (range_with_len 0 (suc (graph_in (net_in plan.now)).nodes)) }
    ensures { result ≡ is_idle (net_in plan.now) piece }
{
    firsts[piece as usize] == firsts[piece as usize + 1] && !is_end(plan.flow.piece(piece).kind)
}

/// Whether a piece of this kind is the end.
pub fn is_end(kind: PieceKind) -> bool
    ensures { result ≡ is_end kind }
{
    match kind {
        PieceKind::End => true,
        _ => false,
    }
}

/// For each edge where two rounds lead from it.
fn doubled(alloc: Global, edges: &Vec<u32>) -> Result<Vec<u32>, NoMemory>
    requires { All (λ e. e < length edges.now.items) edges.now.items }
    ensures { IfOk result (λ twice. twice.items ≡ map (slice_index edges.now.items) edges.now.items) }
{
    let mut twice = Vec::with_capacity(alloc, edges.len())?;
    for e in edges {
        twice.push(edges[*e as usize])?;
    }
    Ok(twice)
}

/// The pieces to which the edges lead.
fn heads(alloc: Global, g: &Digraph, edges: &Vec<u32>) -> Result<Vec<u32>, NoMemory>
    requires { All (λ e. e < edge_count g.now) edges.now.items }
    ensures { IfOk result (λ pieces. pieces.items ≡ map (to g.now) edges.now.items) }
{
    let mut pieces = Vec::with_capacity(alloc, edges.len())?;
    for e in edges {
        pieces.push(g.to(*e))?;
    }
    Ok(pieces)
}
