//! Visits of the edges that wait, until none does.

ghost use Rattle.std.specs.Prelude.{◌≡◌, ◌<◌, ◌^◌, ℕ, false, true, IsTrue, MatchOption, IfSome};
ghost use Rattle.closed_walks.specs.Graph.{edge_count};
ghost use Rattle.dep_routing.specs.Touch.{touches_in};
ghost use Rattle.const_prop.specs.Setting.{IsSetting};
ghost use Rattle.const_prop.specs.Work.{IsSettling, NoneWaits, IsNextWaiting, is_waiting, work_left, no_line, no_piece};

use crate::setting::Setting;
use crate::work::Work;

impl<const W: usize> Work<W> {
    /// Visits the edges that wait, until none does. The edges are taken in order, again and again, so that most lines have come to an edge when
    /// it is visited, and go on together.
    pub(crate) fn settle(&mut self, s: &Setting<W>)
        requires setting { IsSetting s.now.program.now s.now.flow.now s.now.classes.now s.now.touch.now s.now.lines.now s.now.one_word.items s.now.outs.items s.now.touched.items }
        requires settling { IsSettling s.now.program.now s.now.flow.now s.now.classes.now (touches_in s.now.touch.now) s.now.lines.now no_line no_piece self.old }
        ensures settling { IsSettling s.now.program.now s.now.flow.now s.now.classes.now (touches_in s.now.touch.now) s.now.lines.now no_line no_piece self.new }
        ensures rests { (e : ℕ) → e < edge_count s.now.flow.now.graph → is_waiting self.new e ≡ false }
    {
        'settling: while self.sweep(s) {}
    }

    /// Visits each edge that waits when its turn comes. The answer is whether there was one.
    fn sweep(&mut self, s: &Setting<W>) -> bool
        requires setting { IsSetting s.now.program.now s.now.flow.now s.now.classes.now s.now.touch.now s.now.lines.now s.now.one_word.items s.now.outs.items s.now.touched.items }
        requires settling { IsSettling s.now.program.now s.now.flow.now s.now.classes.now (touches_in s.now.touch.now) s.now.lines.now no_line no_piece self.old }
        ensures settling { IsSettling s.now.program.now s.now.flow.now s.now.classes.now (touches_in s.now.touch.now) s.now.lines.now no_line no_piece self.new }
        ensures less { IsTrue result → work_left s.now.flow.now s.now.lines.now.lines self.new < work_left s.now.flow.now s.now.lines.now.lines self.old }
        ensures rests { result ≡ false → (e : ℕ) → e < edge_count s.now.flow.now.graph → is_waiting self.new e ≡ false }
    {
        let mut some = false;
        let mut next = self.next_waiting(s, 0);
        'sweep: while let Some(edge) = next {
            self.drain(s, edge);
            some = true;
            next = self.next_waiting(s, edge + 1);
        }
        some
    }

    /// The least edge that waits, from an edge on.
    fn next_waiting(&self, s: &Setting<W>, edge: u32) -> Option<u32>
        ensures next { MatchOption result (NoneWaits s.now.flow.now self.now edge) (IsNextWaiting s.now.flow.now self.now edge) }
        ensures few { IfSome result (λ next. next < 2 ^ 31) }
    {
        match self.waits.next_from(edge) {
            Some(next) if next < s.flow.graph().edges() => Some(next),
            _ => None,
        }
    }

    /// Visits the edge until it waits no more.
    fn drain(&mut self, s: &Setting<W>, edge: u32)
        requires setting { IsSetting s.now.program.now s.now.flow.now s.now.classes.now s.now.touch.now s.now.lines.now s.now.one_word.items s.now.outs.items s.now.touched.items }
        requires edge { edge < edge_count s.now.flow.now.graph }
        requires waits { is_waiting self.old edge ≡ true }
        requires settling { IsSettling s.now.program.now s.now.flow.now s.now.classes.now (touches_in s.now.touch.now) s.now.lines.now no_line no_piece self.old }
        ensures settling { IsSettling s.now.program.now s.now.flow.now s.now.classes.now (touches_in s.now.touch.now) s.now.lines.now no_line no_piece self.new }
        ensures less { work_left s.now.flow.now s.now.lines.now.lines self.new < work_left s.now.flow.now s.now.lines.now.lines self.old }
    {
        self.visit(s, edge);
        'again: while self.waits.holds(edge) {
            self.visit(s, edge);
        }
    }

    /// What has risen on the edge goes on.
    fn visit(&mut self, s: &Setting<W>, edge: u32)
        requires setting { IsSetting s.now.program.now s.now.flow.now s.now.classes.now s.now.touch.now s.now.lines.now s.now.one_word.items s.now.outs.items s.now.touched.items }
        requires edge { edge < edge_count s.now.flow.now.graph }
        requires waits { is_waiting self.old edge ≡ true }
        requires settling { IsSettling s.now.program.now s.now.flow.now s.now.classes.now (touches_in s.now.touch.now) s.now.lines.now no_line no_piece self.old }
        ensures settling { IsSettling s.now.program.now s.now.flow.now s.now.classes.now (touches_in s.now.touch.now) s.now.lines.now no_line no_piece self.new }
        ensures less { work_left s.now.flow.now s.now.lines.now.lines self.new < work_left s.now.flow.now s.now.lines.now.lines self.old }
    {
        self.waits.remove(edge);
        let fresh = self.pending.take(edge);
        self.pass(s, edge, &fresh);
        self.enter(s, edge);
    }
}
