//! The executables that the simplified form of a program keeps.

ghost use Rattle.std.specs.Prelude.{◌≡◌, ◌<◌, ◌↔◌, ℕ, true, length, IfOk};
ghost use Rattle.f77_tree.specs.Loops.{do_start};
ghost use Rattle.f77_tree.specs.WellFormed.{IsWellFormed};
ghost use Rattle.cfg_build.specs.Flow.{flow};
ghost use Rattle.const_prop.specs.Table.{knowns_of};
ghost use Rattle.simplified_forms.specs.Items.{own_piece, IsEnteredPiece};
ghost use Rattle.simplified_forms.specs.Plans.{answer, keeps, AreKept};
ghost use Rattle.simplified_forms.specs.Tables.{IsTable, AreAnswers};

use crate::loops::do_starts;
use cfg_build::Flow;
use const_prop::{Table, live_edges};
use df_sequence::NoMemory;
use f77_tree::{ExecKind, Program};
use std::alloc::Global;

/// For each executable whether it is kept by the decisions of a table, where `own` has the pieces that run executables.
pub(crate) fn items<const W: usize>(
    alloc: Global,
    p: &Program,
    f: &Flow,
    t: &Table<W>,
    own: &[u32],
) -> Result<Vec<bool>, NoMemory>
    requires program { IsWellFormed p.now }
    requires flow { f.now ≡ flow p.now.execs }
    requires pieces { length t.now.decisions ≡ f.now.graph.nodes }
    requires own { IsTable (own_piece p.now) (length p.now.execs) own.now }
    ensures { IfOk result (λ items. AreKept p.now (knowns_of t.now) items.items) }
{
    let entered = entered_pieces(alloc, p, f, t)?;
    kept(alloc, p, own, &entered)
}

/// For each executable whether it is kept, where `entered` tells to which pieces control can come.
fn kept(alloc: Global, p: &Program, own: &[u32], entered: &[bool]) -> Result<Vec<bool>, NoMemory>
    requires program { IsWellFormed p.now }
    requires own { IsTable (own_piece p.now) (length p.now.execs) own.now }
    ensures { IfOk result (λ items. AreAnswers (keeps p.now (answer entered.now)) (length p.now.execs) items.items) }
{
    let starts = do_starts(alloc, p)?;
    let mut items = Vec::new(alloc);
    for k in 0..p.execs.len() {
        items.push(is_kept(p, own, entered, &starts, k))?;
    }
    Ok(items)
}

/// Whether an executable is kept.
fn is_kept(p: &Program, own: &[u32], entered: &[bool], starts: &[u32], k: u32) -> bool
    requires program { IsWellFormed p.now }
    requires own { IsTable (own_piece p.now) (length p.now.execs) own.now }
    requires starts { IsTable (do_start p.now.execs) p.now.loops starts.now }
    requires k { k < length p.now.execs }
    ensures { result ≡ keeps p.now (answer entered.now) k }
{
    match &p.execs.at(k).kind {
        ExecKind::End => true,
        ExecKind::DoNext { loop_no, .. } => {
            is_entered(entered, own[starts[*loop_no as usize] as usize])
        }
        _ => is_entered(entered, own[k as usize]),
    }
}

/// Whether control can come to a piece, which there needn't be.
fn is_entered(entered: &[bool], piece: u32) -> bool
    ensures { result ≡ answer entered.now piece }
{
    (piece as usize) < entered.len() && entered[piece as usize]
}

/// For each piece whether control can come to it by the decisions of a table.
fn entered_pieces<const W: usize>(
    alloc: Global,
    p: &Program,
    f: &Flow,
    t: &Table<W>,
) -> Result<Vec<bool>, NoMemory>
    requires program { IsWellFormed p.now }
    requires flow { f.now ≡ flow p.now.execs }
    requires pieces { length t.now.decisions ≡ f.now.graph.nodes }
    ensures { IfOk result (λ entered. (node : ℕ) → (answer entered.items node ≡ true) ↔ IsEnteredPiece p.now (knowns_of t.now) node) }
{
    let live = live_edges(alloc, p, f, t)?;
    let g = f.graph();
    let mut entered = vec![in alloc; false; f.pieces() as usize]?;
    for e in 0..g.edges() {
        if live[e as usize] {
            entered[g.to(e) as usize] = true;
        }
    }
    Ok(entered)
}
