//! A table in the making, and what waits to be passed on.

ghost use Rattle.std.specs.Prelude.{◌≡◌, ◌<◌, ◌≤◌, ◌||◌, ℕ, false, true, IsTrue, ◌↔◌};
ghost use Rattle.class_set.specs.ClassSet.{holds};
ghost use Rattle.closed_walks.specs.Graph.{edge_count};
ghost use Rattle.dep_routing.specs.Routing.{next_at};
ghost use Rattle.dep_routing.specs.Touch.{touches_in};
ghost use Rattle.const_prop.specs.declared.known.Known.TheVariants.{Any};
ghost use Rattle.const_prop.specs.Closed.{IsClosed, IsWay, is_one_word, is_switch, is_merge, led_to, KindAllows};
ghost use Rattle.const_prop.specs.Known.{AtMost, IsNotOne};
ghost use Rattle.const_prop.specs.Setting.{IsSetting};
ghost use Rattle.const_prop.specs.Table.{Knowns};
ghost use Rattle.const_prop.specs.Work.{IsSized, Rises, IsFound, IsSettling, so_far, work_left, these_lines, no_line, this_piece};

use crate::edge_set::EdgeSet;
use crate::known::Known;
use crate::known_rows::KnownRows;
use crate::setting::Setting;
use crate::sparse_sets::SparseSets;
use cfg_build::PieceKind;
use class_set::ClassSet;

/// A table in the making.
#[derive(Drop)]
pub(crate) struct Work<const W: usize> {
    pub(crate) known: KnownRows<W>,
    pub(crate) decisions: Vec<Known>,
    /// For each edge the lines of which more is known there than was passed on.
    pub(crate) pending: SparseSets<W>,
    /// The edges that are to be visited: those that have such lines, or by which the piece at their end is still to be entered.
    pub(crate) waits: EdgeSet,
}

impl<const W: usize> Work<W> {
    /// Joins what comes to what is known of the line on the edge. Where that rises, the edge waits with the line.
    #[inline(always)]
    pub(crate) fn raise(&mut self, s: &Setting<W>, line: u32, edge: u32, comes: Known)
        requires setting { IsSetting s.now.program.now s.now.flow.now s.now.classes.now s.now.touch.now s.now.lines.now s.now.one_word.items s.now.outs.items s.now.touched.items }
        requires sized { IsSized s.now.flow.now s.now.lines.now.lines self.old }
        requires line { line < s.now.lines.now.lines }
        requires edge { edge < edge_count s.now.flow.now.graph }
        requires found { IsFound s.now.program.now s.now.flow.now s.now.classes.now (touches_in s.now.touch.now) s.now.lines.now (so_far self.old) }
        requires due { (b : Knowns) → IsClosed s.now.program.now s.now.flow.now s.now.classes.now (touches_in s.now.touch.now) s.now.lines.now b → AtMost comes (b.value line edge) }
        requires one { is_one_word s.now.classes.now line ≡ false → IsNotOne comes }
        ensures rises { Rises s.now.flow.now s.now.lines.now.lines self.old self.new }
        ensures found { IsFound s.now.program.now s.now.flow.now s.now.classes.now (touches_in s.now.touch.now) s.now.lines.now (so_far self.new) }
        ensures reached { AtMost comes ((so_far self.new).value line edge) }
    {
        if self.known.raise(line, edge, comes) {
            self.pending.insert(edge, line);
            self.waits.insert(edge);
        }
    }

    /// Any value may come on these lines by the edge. Where that is new, the edge waits with the line.
    fn raise_to_any(&mut self, s: &Setting<W>, edge: u32, lines: &ClassSet<W>)
        requires setting { IsSetting s.now.program.now s.now.flow.now s.now.classes.now s.now.touch.now s.now.lines.now s.now.one_word.items s.now.outs.items s.now.touched.items }
        requires sized { IsSized s.now.flow.now s.now.lines.now.lines self.old }
        requires within { (line : ℕ) → holds lines.now line ≡ true → line < s.now.lines.now.lines }
        requires edge { edge < edge_count s.now.flow.now.graph }
        requires found { IsFound s.now.program.now s.now.flow.now s.now.classes.now (touches_in s.now.touch.now) s.now.lines.now (so_far self.old) }
        requires due { (b : Knowns) (line : ℕ) → IsClosed s.now.program.now s.now.flow.now s.now.classes.now (touches_in s.now.touch.now) s.now.lines.now b → holds lines.now line ≡ true → AtMost Any (b.value line edge) }
        ensures rises { Rises s.now.flow.now s.now.lines.now.lines self.old self.new }
        ensures found { IsFound s.now.program.now s.now.flow.now s.now.classes.now (touches_in s.now.touch.now) s.now.lines.now (so_far self.new) }
        ensures reached { (line : ℕ) → holds lines.now line ≡ true → AtMost Any ((so_far self.new).value line edge) }
    {
        let risen = lines.difference(self.known.any_at(edge));
        if risen.next_after(None).is_none() {
            return;
        }
        self.known.set_any(edge, &risen);
        self.pending.add(edge, &risen);
        self.waits.insert(edge);
    }

    /// Sends what is known of a line along the out-edges that control may take at the end of the edge.
    pub(crate) fn send(&mut self, s: &Setting<W>, line: u32, edge: u32, known: Known)
        requires setting { IsSetting s.now.program.now s.now.flow.now s.now.classes.now s.now.touch.now s.now.lines.now s.now.one_word.items s.now.outs.items s.now.touched.items }
        requires sized { IsSized s.now.flow.now s.now.lines.now.lines self.old }
        requires line { line < s.now.lines.now.lines }
        requires edge { edge < edge_count s.now.flow.now.graph }
        requires found { IsFound s.now.program.now s.now.flow.now s.now.classes.now (touches_in s.now.touch.now) s.now.lines.now (so_far self.old) }
        requires due { (b : Knowns) (i : ℕ) → IsClosed s.now.program.now s.now.flow.now s.now.classes.now (touches_in s.now.touch.now) s.now.lines.now b → IsWay s.now.flow.now (so_far self.old) edge i → AtMost known (b.value line (led_to s.now.flow.now s.now.lines.now edge line i)) }
        requires one { is_one_word s.now.classes.now line ≡ false → IsNotOne known }
        ensures rises { Rises s.now.flow.now s.now.lines.now.lines self.old self.new }
        ensures found { IsFound s.now.program.now s.now.flow.now s.now.classes.now (touches_in s.now.touch.now) s.now.lines.now (so_far self.new) }
        ensures sent { (i : ℕ) → IsWay s.now.flow.now (so_far self.old) edge i → AtMost known ((so_far self.new).value line (led_to s.now.flow.now s.now.lines.now edge line i)) }
    {
        let node = s.head(edge);
        let kind = s.kind(node);
        let decision = self.decisions[node as usize];
        'ways: for (i, out) in s.outs[node as usize].as_slice().iter().enumerate() {
            if allows(kind, decision, i) {
                self.raise(s, line, s.lines.next_wire(line, *out), known);
            }
        }
    }

    /// These lines go past the piece at the end of the edge where it doesn't touch them.
    pub(crate) fn pass(&mut self, s: &Setting<W>, edge: u32, fresh: &ClassSet<W>)
        requires setting { IsSetting s.now.program.now s.now.flow.now s.now.classes.now s.now.touch.now s.now.lines.now s.now.one_word.items s.now.outs.items s.now.touched.items }
        requires edge { edge < edge_count s.now.flow.now.graph }
        requires settling { IsSettling s.now.program.now s.now.flow.now s.now.classes.now (touches_in s.now.touch.now) s.now.lines.now (these_lines fresh.now edge) (this_piece edge) self.old }
        ensures settling { IsSettling s.now.program.now s.now.flow.now s.now.classes.now (touches_in s.now.touch.now) s.now.lines.now no_line (this_piece edge) self.new }
        ensures bounded { work_left s.now.flow.now s.now.lines.now.lines self.new ≤ work_left s.now.flow.now s.now.lines.now.lines self.old }
    {
        let node = s.head(edge);
        let kind = s.kind(node);
        if !passes_on(kind) {
            return;
        }
        let decision = self.decisions[node as usize];
        let standing = fresh.intersection(s.lines.wires(edge));
        let lines = standing.difference(s.touch.at(node));
        'ways: for (i, out) in s.outs[node as usize].as_slice().iter().enumerate() {
            if allows(kind, decision, i) {
                self.pass_along(s, edge, *out, &lines);
            }
        }
    }

    /// These lines go on from the edge by the out-edge. Those on which any value may come and that bypass nothing go at once.
    fn pass_along(&mut self, s: &Setting<W>, edge: u32, out: u32, lines: &ClassSet<W>)
        requires setting { IsSetting s.now.program.now s.now.flow.now s.now.classes.now s.now.touch.now s.now.lines.now s.now.one_word.items s.now.outs.items s.now.touched.items }
        requires sized { IsSized s.now.flow.now s.now.lines.now.lines self.old }
        requires within { (line : ℕ) → holds lines.now line ≡ true → line < s.now.lines.now.lines }
        requires edge { edge < edge_count s.now.flow.now.graph }
        requires out { out < edge_count s.now.flow.now.graph }
        requires found { IsFound s.now.program.now s.now.flow.now s.now.classes.now (touches_in s.now.touch.now) s.now.lines.now (so_far self.old) }
        requires due { (b : Knowns) (line : ℕ) → IsClosed s.now.program.now s.now.flow.now s.now.classes.now (touches_in s.now.touch.now) s.now.lines.now b → holds lines.now line ≡ true → AtMost (b.value line edge) (b.value line (next_at s.now.lines.now line out)) }
        ensures rises { Rises s.now.flow.now s.now.lines.now.lines self.old self.new }
        ensures found { IsFound s.now.program.now s.now.flow.now s.now.classes.now (touches_in s.now.touch.now) s.now.lines.now (so_far self.new) }
        ensures passed { (line : ℕ) → holds lines.now line ≡ true → AtMost ((so_far self.old).value line edge) ((so_far self.new).value line (next_at s.now.lines.now line out)) }
    {
        let any = lines.intersection(self.known.any_at(edge));
        let at_once = any.intersection(s.lines.wires(out));
        self.raise_to_any(s, out, &at_once);
        self.pass_each(s, edge, out, &lines.difference(&at_once));
    }

    /// These lines go on from the edge by the out-edge, one after the other.
    fn pass_each(&mut self, s: &Setting<W>, edge: u32, out: u32, lines: &ClassSet<W>)
        requires setting { IsSetting s.now.program.now s.now.flow.now s.now.classes.now s.now.touch.now s.now.lines.now s.now.one_word.items s.now.outs.items s.now.touched.items }
        requires sized { IsSized s.now.flow.now s.now.lines.now.lines self.old }
        requires within { (line : ℕ) → holds lines.now line ≡ true → line < s.now.lines.now.lines }
        requires edge { edge < edge_count s.now.flow.now.graph }
        requires out { out < edge_count s.now.flow.now.graph }
        requires found { IsFound s.now.program.now s.now.flow.now s.now.classes.now (touches_in s.now.touch.now) s.now.lines.now (so_far self.old) }
        requires due { (b : Knowns) (line : ℕ) → IsClosed s.now.program.now s.now.flow.now s.now.classes.now (touches_in s.now.touch.now) s.now.lines.now b → holds lines.now line ≡ true → AtMost (b.value line edge) (b.value line (next_at s.now.lines.now line out)) }
        ensures rises { Rises s.now.flow.now s.now.lines.now.lines self.old self.new }
        ensures found { IsFound s.now.program.now s.now.flow.now s.now.classes.now (touches_in s.now.touch.now) s.now.lines.now (so_far self.new) }
        ensures passed { (line : ℕ) → holds lines.now line ≡ true → AtMost ((so_far self.old).value line edge) ((so_far self.new).value line (next_at s.now.lines.now line out)) }
    {
        let mut next = lines.next_after(None);
        'each: while let Some(line) = next {
            let known = self.known.get(line, edge);
            self.raise(s, line, s.lines.next_wire(line, out), known);
            next = lines.next_after(Some(line));
        }
    }
}

/// Whether control may take the out-edge with this place at a piece.
fn allows(kind: PieceKind, decision: Known, i: usize) -> bool
    ensures { IsTrue result ↔ KindAllows kind decision i }
{
    match kind {
        PieceKind::Branch | PieceKind::Hold => match decision {
            Known::Nothing => false,
            Known::One(v) => 0 <= v && v as usize == i,
            Known::Any => true,
        },
        _ => true,
    }
}

/// Whether lines that the piece doesn't touch go on from it.
fn passes_on(kind: PieceKind) -> bool
    ensures { result ≡ (is_switch kind || is_merge kind) }
{
    matches!(
        kind,
        PieceKind::Branch | PieceKind::Hold | PieceKind::Join | PieceKind::End
    )
}
