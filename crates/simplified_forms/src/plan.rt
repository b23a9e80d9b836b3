//! Which marks the items of a program have.

ghost use Rattle.std.specs.Prelude.{◌≡◌, ◌+◌, ◌<◌, ◌==◌, ◌&&◌, ◌||◌, length, IfOk};
ghost use Rattle.std.specs.List.{position_or_len, range_with_len};
ghost use Rattle.closed_walks.specs.Graph.{edge_count, to};
ghost use Rattle.f77_tree.specs.WellFormed.{IsWellFormed};
ghost use Rattle.cfg_build.specs.Flow.{flow};
ghost use Rattle.const_prop.specs.Table.{Knowns, knowns_of};
ghost use Rattle.f77_tree.specs.declared.programs.Program.{Program as TheProgram};
ghost use Rattle.simplified_forms.specs.Items.{own_piece, own_edge};
ghost use Rattle.simplified_forms.specs.Plans.{answer, AreTold, AreWays, IsPlan};
ghost use Rattle.simplified_forms.specs.Simplified.{decided as decided_out, has_mark, is_increment, is_jumped_to, mark_of};
ghost use Rattle.simplified_forms.specs.Tables.{IsTable, AreAnswers};

use crate::counts::counts;
use crate::loops::do_nexts;
use crate::own::{edges_to, own_pieces};
use crate::ways::{Ways, note_jumps};
use cfg_build::Flow;
use const_prop::Table;
use df_sequence::NoMemory;
use f77_tree::{ExecKind, Program};
use std::alloc::Global;

/// What is looked up of the executables of a program.
#[derive(Drop)]
pub(crate) struct Plan {
    /// Which are items, and where control goes on from them.
    pub(crate) ways: Ways,
    /// For each the edge to the piece that runs it.
    pub(crate) edges: Vec<u32>,
    /// For each whether it has a mark.
    pub(crate) marked: Vec<bool>,
    /// For each how many marks stand before it, and after them how many there are.
    pub(crate) marks: Vec<u32>,
    /// For each DO the executable that increments it.
    pub(crate) nexts: Vec<u32>,
}

impl Plan {
    /// The plan of a program, by a table of constants.
    pub(crate) fn of<const W: usize>(
        alloc: Global,
        p: &Program,
        f: &Flow,
        t: &Table<W>,
    ) -> Result<Plan, NoMemory>
        requires program { IsWellFormed p.now }
        requires flow { f.now ≡ flow p.now.execs }
        requires pieces { length t.now.decisions ≡ f.now.graph.nodes }
        ensures { IfOk result (λ plan. IsPlan p.now (knowns_of t.now) plan) }
    {
        let own = own_pieces(alloc, p, f)?;
        let edges = own_edges(alloc, p, f, &own)?;
        let ways = Ways::of(alloc, p, f, t, &own)?;
        let marked = marked(alloc, p, &ways)?;
        let marks = counts(alloc, &marked)?;
        let nexts = do_nexts(alloc, p)?;
        Ok(Plan {
            ways,
            edges,
            marked,
            marks,
            nexts,
        })
    }

    /// The number of the mark of an executable.
    pub(crate) fn mark(&self, k: u32) -> u32
        requires k { k < length self.now.marked.items }
        requires size { length self.now.marks.items ≡ length self.now.marked.items + 1 }
        ensures { (p : TheProgram) (t : Knowns) → IsPlan p t self.now → result ≡ mark_of p t (answer self.now.ways.items.items) k }
    {
        self.marks[k as usize + 1]
    }
}

/// For each executable the edge to the piece that runs it, or the number of edges where there is none.
fn own_edges(alloc: Global, p: &Program, f: &Flow, own: &[u32]) -> Result<Vec<u32>, NoMemory>
    requires flow { f.now ≡ flow p.now.execs }
    requires own { IsTable (own_piece p.now) (length p.now.execs) own.now }
    ensures { IfOk result (λ edges. IsTable (own_edge p.now) (length p.now.execs) edges.items) }
{
    let edges = edges_to(alloc, f)?;
    let mut found = Vec::new(alloc);
    for k in 0..p.execs.len() {
        found.push(edge_to(f, &edges, own[k as usize]))?;
    }
    Ok(found)
}

/// The first edge to a piece, or the number of edges where there is none, or no such piece.
fn edge_to(f: &Flow, edges: &[u32], piece: u32) -> u32
    requires { IsTable (λ node. position_or_len (λ e. to f.now.graph e == node) (range_with_len 0 (edge_count f.now.graph))) f.now.graph.nodes edges.now }
    ensures { result ≡ position_or_len (λ e. to f.now.graph e == piece) (range_with_len 0 (edge_count f.now.graph)) }
{
    if piece < f.pieces() {
        edges[piece as usize]
    } else {
        f.graph().edges()
    }
}

/// For each executable whether it has a mark.
fn marked(alloc: Global, p: &Program, ways: &Ways) -> Result<Vec<bool>, NoMemory>
    requires program { IsWellFormed p.now }
    requires ways { AreWays ways.now }
    requires size { length ways.now.items.items ≡ length p.now.execs }
    ensures size { IfOk result (λ marked. length marked.items ≡ length p.now.execs) }
    ensures marked { IfOk result (λ marked. (t : Knowns) → AreTold (decided_out p.now t) (length p.now.execs) ways.now.decided.items → AreAnswers (has_mark p.now t (answer ways.now.items.items)) (length p.now.execs) marked.items) }
{
    let jumped = jumped_to(alloc, p, ways)?;
    let mut marked = Vec::new(alloc);
    for k in 0..p.execs.len() {
        let is_item = ways.items[k as usize];
        marked.push(is_marked(is_item, &p.execs.at(k).kind, jumped[k as usize]))?;
    }
    Ok(marked)
}

/// Whether an executable has a mark: an item that increments a DO, or to which statements jump.
fn is_marked(is_item: bool, kind: &ExecKind, is_jumped_to: bool) -> bool
    ensures { result ≡ (is_item && (is_increment kind.now || is_jumped_to)) }
{
    is_item && (matches!(kind, ExecKind::DoNext { .. }) || is_jumped_to)
}

/// For each executable whether statements of items jump to it.
fn jumped_to(alloc: Global, p: &Program, ways: &Ways) -> Result<Vec<bool>, NoMemory>
    requires program { IsWellFormed p.now }
    requires ways { AreWays ways.now }
    requires size { length ways.now.items.items ≡ length p.now.execs }
    ensures size { IfOk result (λ jumped. length jumped.items ≡ length p.now.execs) }
    ensures jumped { IfOk result (λ jumped. (t : Knowns) → AreTold (decided_out p.now t) (length p.now.execs) ways.now.decided.items → AreAnswers (is_jumped_to p.now t (answer ways.now.items.items)) (length p.now.execs) jumped.items) }
{
    let mut jumped = vec![in alloc; false; p.execs.len() as usize]?;
    for k in 0..p.execs.len() {
        if ways.items[k as usize] {
            note_jumps(&mut jumped, ways, k, &p.execs.at(k).kind);
        }
    }
    Ok(jumped)
}
