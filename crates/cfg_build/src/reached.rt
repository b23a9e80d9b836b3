//! Which executables control can come to.

ghost use Rattle.std.specs.Prelude.{◌≡◌, ◌+◌, ◌<◌, ◌^◌, ℕ, [], ◌∷◌, ◌++◌, All, length, map, IfOk, OnOk, slice_index_or, false};
ghost use Rattle.closed_walks.specs.Graph.{edge_count};
ghost use Rattle.f77_tree.specs.Control.{successors};
ghost use Rattle.f77_tree.specs.WellFormed.{IsWellFormed};
ghost use Rattle.cfg_build.specs.Control.{control, is_reached};

use closed_walks::{Digraph, reached_from, reaching_is_told};
use df_sequence::{LabelList, NoMemory};
use f77_tree::{ExecKind, Program};
use smallvec::{SmallVec, smallvec};
use std::alloc::Global;

/// For each executable, whether control can come to it from the first one.
pub(crate) fn reached_execs(alloc: Global, p: &Program) -> Result<Vec<bool>, NoMemory>
    requires { IsWellFormed p.now }
    ensures count { IfOk result (λ marks. length marks.items ≡ length p.now.execs) }
    ensures reached { IfOk result (λ marks. (k : ℕ) → k < length p.now.execs → slice_index_or marks.items k false ≡ is_reached p.now.execs k) }
{
    let control = control(alloc, p)?;
    reaching_is_told();
    let _nodes = control.nodes();
    reached_from(alloc, &control, 0)
}

// The graph of the executables: an edge leads from each to each of its successors.
fn control(alloc: Global, p: &Program) -> Result<Digraph, NoMemory>
    requires { IsWellFormed p.now }
    ensures { IfOk result (λ g. g ≡ control p.now.execs) }
{
    let mut graph = Digraph::new(alloc, p.execs.len())?;
    for k in 0..p.execs.len() {
        let heads = successors(alloc, &p.execs.at(k).kind)?;
        add_edges(alloc, &mut graph, k, heads.as_slice())?;
    }
    Ok(graph)
}

// Adds an edge from the node to each of the others.
fn add_edges(alloc: Global, graph: &mut Digraph, tail: u32, heads: &[u32]) -> Result<(), NoMemory>
    requires tail { tail < graph.old.nodes }
    requires heads { All (λ head. head < graph.old.nodes) heads.now }
    requires room { edge_count graph.old + length heads.now < 2 ^ 31 }
    ensures { OnOk result (graph.new ≡ record { nodes = graph.old.nodes; edges = graph.old.edges ++ map (λ head. (tail, head)) heads.now }) }
{
    for head in heads {
        graph.add_edge(alloc, tail, *head)?;
    }
    Ok(())
}

/// Executables that control may go to, of which most have no more than three.
pub(crate) type Heads = SmallVec<u32, 3>;

/// The executables that control may go to from an executable.
pub(crate) fn successors(alloc: Global, kind: &ExecKind) -> Result<Heads, NoMemory>
    ensures { IfOk result (λ heads. heads.items ≡ successors kind.now) }
{
    match kind {
        ExecKind::Assign { next, .. } => Ok(smallvec![in alloc; *next]?),
        ExecKind::Print { next, .. } => Ok(smallvec![in alloc; *next]?),
        ExecKind::Pass { next } => Ok(smallvec![in alloc; *next]?),
        ExecKind::Test { yes, no, .. } => Ok(smallvec![in alloc; *yes, *no]?),
        ExecKind::Sign { neg, zero, pos, .. } => Ok(smallvec![in alloc; *neg, *zero, *pos]?),
        ExecKind::Pick { targets, other, .. } => targets_with(alloc, targets, *other),
        ExecKind::DoStart { body, exit, .. } => Ok(smallvec![in alloc; *body, *exit]?),
        ExecKind::DoNext { body, exit, .. } => Ok(smallvec![in alloc; *body, *exit]?),
        ExecKind::End => Ok(SmallVec::new(alloc)),
    }
}

// The targets of a computed GO TO, and what follows where none is taken.
fn targets_with(alloc: Global, targets: &LabelList, other: u32) -> Result<Heads, NoMemory>
    ensures { IfOk result (λ heads. heads.items ≡ targets.now ++ other ∷ []) }
{
    let mut heads = SmallVec::new(alloc);
    for target in targets.as_slice() {
        heads.push(*target)?;
    }
    heads.push(other)?;
    Ok(heads)
}
