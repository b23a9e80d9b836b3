//! Which edges control may come to, by the decisions of a table.

ghost use Rattle.std.specs.Prelude.{◌≡◌, ◌<◌, ◌↔◌, ◌&&◌, ℕ, true, false, not, if◌then◌else◌, length, slice_index, slice_index_or, IfOk};
ghost use Rattle.op_table.specs.Trips.{at_least_zero};
ghost use Rattle.closed_walks.specs.Graph.{edge_count, from, to};
ghost use Rattle.f77_tree.specs.WellFormed.{IsWellFormed};
ghost use Rattle.cfg_build.specs.Flow.{flow};
ghost use Rattle.const_prop.specs.Kept.{IsKeptGraph, is_other_of, excludes};
ghost use Rattle.const_prop.specs.Live.{IsLive};
ghost use Rattle.const_prop.specs.Setting.{AreOuts};
ghost use Rattle.const_prop.specs.Table.{knowns_of};

use crate::facts::program_facts;
use crate::known::Known;
use crate::row::Row;
use crate::setting::out_rows;
use crate::table::Table;
use crate::visit::is_switch;
use cfg_build::Flow;
use closed_walks::{Digraph, reached_from};
use df_sequence::NoMemory;
use f77_tree::Program;
use std::alloc::Global;

/// For each edge of the flow graph of a program whether a walk from the start takes it, without an edge that the table excludes: one of
/// a branch or a hold that decides for another edge. It takes a few steps for each edge and each piece.
pub fn live_edges<const W: usize>(
    alloc: Global,
    p: &Program,
    f: &Flow,
    t: &Table<W>,
) -> Result<Vec<bool>, NoMemory>
    requires program { IsWellFormed p.now }
    requires flow { f.now ≡ flow p.now.execs }
    requires pieces { length t.now.decisions ≡ f.now.graph.nodes }
    ensures size { IfOk result (λ live. length live.items ≡ edge_count f.now.graph) }
    ensures live { IfOk result (λ live. (e : ℕ) → e < edge_count f.now.graph → (slice_index_or live.items e false ≡ true) ↔ IsLive p.now (knowns_of t.now) e) }
{
    program_facts();
    let excluded = excluded_edges(alloc, f, t)?;
    let kept = kept_graph(alloc, f.graph(), &excluded)?;
    let reached = reached_from(alloc, &kept, 0)?;
    reached_edges(alloc, f.graph(), &excluded, &reached)
}

/// For each edge whether the piece at which it begins decides for another one.
fn excluded_edges<const W: usize>(
    alloc: Global,
    f: &Flow,
    t: &Table<W>,
) -> Result<Vec<bool>, NoMemory>
    requires count { length f.now.pieces ≡ f.now.graph.nodes }
    requires pieces { length t.now.decisions ≡ f.now.graph.nodes }
    ensures size { IfOk result (λ excluded. length excluded.items ≡ edge_count f.now.graph) }
    ensures excluded { IfOk result (λ excluded. (e : ℕ) → e < edge_count f.now.graph → slice_index_or excluded.items e false ≡ excludes f.now (knowns_of t.now) e) }
{
    let rows = out_rows(alloc, f.graph())?;
    let mut excluded = Vec::with_capacity(alloc, f.graph().edges() as usize)?;
    for e in 0..f.graph().edges() {
        excluded.push(is_excluded(f, t, &rows, e))?;
    }
    Ok(excluded)
}

/// Whether the piece at which the edge begins decides for another one.
fn is_excluded<const W: usize>(f: &Flow, t: &Table<W>, outs: &Vec<Row>, e: u32) -> bool
    requires count { length f.now.pieces ≡ f.now.graph.nodes }
    requires pieces { length t.now.decisions ≡ f.now.graph.nodes }
    requires outs { AreOuts f.now outs.now.items }
    requires edge { e < edge_count f.now.graph }
    ensures { result ≡ excludes f.now (knowns_of t.now) e }
{
    let node = f.graph().from(e);
    is_switch(f.piece(node).kind) && is_other(&outs[node as usize], t.decision(node), e)
}

/// Whether one of these out-edges is decided, and it isn't this edge.
fn is_other(outs: &Row, decision: Known, e: u32) -> bool
    ensures { result ≡ is_other_of outs.now decision e }
{
    match decision {
        Known::One(v) => decided_out(outs.as_slice(), v) != e,
        _ => false,
    }
}

/// The out-edge with this place, or edge 0 where there is none.
fn decided_out(outs: &[u32], v: i32) -> u32
    ensures { result ≡ slice_index outs.now (at_least_zero v) }
{
    let place = v.max(0).unsigned_abs() as usize;
    if place < outs.len() { outs[place] } else { 0 }
}

/// The graph in which each edge that is excluded leads back to where it begins.
fn kept_graph(alloc: Global, g: &Digraph, excluded: &[bool]) -> Result<Digraph, NoMemory>
    requires { length excluded.now ≡ edge_count g.now }
    ensures { IfOk result (λ kept. IsKeptGraph g.now (λ e. slice_index_or excluded.now e false) (edge_count g.now) kept) }
{
    let mut kept = Digraph::new(alloc, g.nodes())?;
    for e in 0..g.edges() {
        kept.add_edge(alloc, g.from(e), kept_end(g, excluded, e))?;
    }
    Ok(kept)
}

/// Where an edge leads in that graph.
fn kept_end(g: &Digraph, excluded: &[bool], e: u32) -> u32
    requires excluded { length excluded.now ≡ edge_count g.now }
    requires edge { e < edge_count g.now }
    ensures end { result ≡ (if slice_index_or excluded.now e false then from g.now e else to g.now e) }
    ensures exists { result < g.now.nodes }
{
    if excluded[e as usize] {
        g.from(e)
    } else {
        g.to(e)
    }
}

/// The edges that aren't excluded, and begin at nodes that are reached.
fn reached_edges(
    alloc: Global,
    g: &Digraph,
    excluded: &[bool],
    reached: &[bool],
) -> Result<Vec<bool>, NoMemory>
    requires excluded { length excluded.now ≡ edge_count g.now }
    requires reached { length reached.now ≡ g.now.nodes }
    ensures size { IfOk result (λ live. length live.items ≡ edge_count g.now) }
    ensures live { IfOk result (λ live. (e : ℕ) → e < edge_count g.now → slice_index_or live.items e false ≡ (not (slice_index_or excluded.now e false) && slice_index_or reached.now (from g.now e) false)) }
{
    let mut live = Vec::with_capacity(alloc, g.edges() as usize)?;
    for e in 0..g.edges() {
        live.push(is_reached(g, excluded, reached, e))?;
    }
    Ok(live)
}

/// Whether the edge isn't excluded, and begins at a node that is reached.
fn is_reached(g: &Digraph, excluded: &[bool], reached: &[bool], e: u32) -> bool
    requires excluded { length excluded.now ≡ edge_count g.now }
    requires reached { length reached.now ≡ g.now.nodes }
    requires edge { e < edge_count g.now }
    ensures { result ≡ (not (slice_index_or excluded.now e false) && slice_index_or reached.now (from g.now e) false) }
{
    !excluded[e as usize] && reached[g.from(e) as usize]
}
