//! What pieces make of the lines that they touch.

ghost use Rattle.std.specs.Prelude.{◌≡◌, ◌<◌, ◌≤◌, ◌+◌, ◌⊎◌, ◌↔◌, true, IsTrue};
ghost use Rattle.closed_walks.specs.Graph.{edge_count, to};
ghost use Rattle.dep_routing.specs.Touch.{touches_in};
ghost use Rattle.const_prop.specs.Closed.{IsReady, WritesAfter, written_after, decided_after, kind_after};
ghost use Rattle.const_prop.specs.Closed.{is_action as spec_is_action, is_switch as spec_is_switch};
ghost use Rattle.const_prop.specs.Known.{AtMost, IsSomething};
ghost use Rattle.const_prop.specs.Setting.{IsSetting};
ghost use Rattle.const_prop.specs.Work.{IsSized, IsSettling, so_far, work_left, all_lines, this_piece, no_line, no_piece};

use crate::known::{Known, risen};
use crate::pieces::{selected, writes, written};
use crate::setting::Setting;
use crate::work::Work;
use cfg_build::PieceKind;

impl<const W: usize> Work<W> {
    /// A piece is entered by the edge. Where something comes on each line that it touches, it decides, and its lines go on.
    pub(crate) fn enter(&mut self, s: &Setting<W>, edge: u32)
        requires setting { IsSetting s.now.program.now s.now.flow.now s.now.classes.now s.now.touch.now s.now.lines.now s.now.one_word.items s.now.outs.items s.now.touched.items }
        requires edge { edge < edge_count s.now.flow.now.graph }
        requires settling { IsSettling s.now.program.now s.now.flow.now s.now.classes.now (touches_in s.now.touch.now) s.now.lines.now no_line (this_piece edge) self.old }
        ensures settling { IsSettling s.now.program.now s.now.flow.now s.now.classes.now (touches_in s.now.touch.now) s.now.lines.now no_line no_piece self.new }
        ensures bounded { work_left s.now.flow.now s.now.lines.now.lines self.new ≤ work_left s.now.flow.now s.now.lines.now.lines self.old }
    {
        if !self.is_ready(s, edge) {
            return;
        }
        self.decide_at_switch(s, edge);
        self.leave(s, edge);
    }

    /// The piece decides anew, if control decides at it.
    fn decide_at_switch(&mut self, s: &Setting<W>, edge: u32)
        requires setting { IsSetting s.now.program.now s.now.flow.now s.now.classes.now s.now.touch.now s.now.lines.now s.now.one_word.items s.now.outs.items s.now.touched.items }
        requires edge { edge < edge_count s.now.flow.now.graph }
        requires ready { IsReady s.now.flow.now (touches_in s.now.touch.now) s.now.lines.now.lines (so_far self.old) edge }
        requires settling { IsSettling s.now.program.now s.now.flow.now s.now.classes.now (touches_in s.now.touch.now) s.now.lines.now no_line (this_piece edge) self.old }
        ensures settling { IsSettling s.now.program.now s.now.flow.now s.now.classes.now (touches_in s.now.touch.now) s.now.lines.now no_line (this_piece edge) self.new }
        ensures ready { IsReady s.now.flow.now (touches_in s.now.touch.now) s.now.lines.now.lines (so_far self.new) edge }
        ensures decided { spec_is_switch (kind_after s.now.flow.now edge) ≡ true → AtMost (decided_after s.now.program.now s.now.flow.now s.now.classes.now (so_far self.new) edge) ((so_far self.new).decision (to s.now.flow.now.graph edge)) }
        ensures bounded { work_left s.now.flow.now s.now.lines.now.lines self.new ≤ work_left s.now.flow.now s.now.lines.now.lines self.old }
    {
        if !is_switch(s.kind(s.head(edge))) {
            return;
        }
        self.decide(s, edge);
    }

    /// The lines that the piece touches go on.
    fn leave(&mut self, s: &Setting<W>, edge: u32)
        requires setting { IsSetting s.now.program.now s.now.flow.now s.now.classes.now s.now.touch.now s.now.lines.now s.now.one_word.items s.now.outs.items s.now.touched.items }
        requires edge { edge < edge_count s.now.flow.now.graph }
        requires ready { IsReady s.now.flow.now (touches_in s.now.touch.now) s.now.lines.now.lines (so_far self.old) edge }
        requires settling { IsSettling s.now.program.now s.now.flow.now s.now.classes.now (touches_in s.now.touch.now) s.now.lines.now no_line (this_piece edge) self.old }
        requires decided { spec_is_switch (kind_after s.now.flow.now edge) ≡ true → AtMost (decided_after s.now.program.now s.now.flow.now s.now.classes.now (so_far self.old) edge) ((so_far self.old).decision (to s.now.flow.now.graph edge)) }
        ensures settling { IsSettling s.now.program.now s.now.flow.now s.now.classes.now (touches_in s.now.touch.now) s.now.lines.now no_line no_piece self.new }
        ensures bounded { work_left s.now.flow.now s.now.lines.now.lines self.new ≤ work_left s.now.flow.now s.now.lines.now.lines self.old }
    {
        let node = s.head(edge);
        for line in s.touched[node as usize].as_slice() {
            let known = self.left(s, *line, edge);
            self.send(s, *line, edge, known);
        }
    }

    /// Whether the edge comes to a piece that reads and changes what its lines bring, and something comes on each of them.
    fn is_ready(&self, s: &Setting<W>, edge: u32) -> bool
        requires setting { IsSetting s.now.program.now s.now.flow.now s.now.classes.now s.now.touch.now s.now.lines.now s.now.one_word.items s.now.outs.items s.now.touched.items }
        requires edge { edge < edge_count s.now.flow.now.graph }
        requires sized { IsSized s.now.flow.now s.now.lines.now.lines self.now }
        ensures { IsTrue result ↔ IsReady s.now.flow.now (touches_in s.now.touch.now) s.now.lines.now.lines (so_far self.now) edge }
    {
        let node = s.head(edge);
        if !is_action(s.kind(node)) {
            return false;
        }
        for line in s.touched[node as usize].as_slice() {
            if !is_something(self.known.get(*line, edge)) {
                return false;
            }
        }
        true
    }

    /// What the piece decides.
    fn decided(&self, s: &Setting<W>, edge: u32) -> Known
        requires setting { IsSetting s.now.program.now s.now.flow.now s.now.classes.now s.now.touch.now s.now.lines.now s.now.one_word.items s.now.outs.items s.now.touched.items }
        requires edge { edge < edge_count s.now.flow.now.graph }
        requires sized { IsSized s.now.flow.now s.now.lines.now.lines self.now }
        requires switch { spec_is_switch (kind_after s.now.flow.now edge) ≡ true }
        ensures { result ≡ decided_after s.now.program.now s.now.flow.now s.now.classes.now (so_far self.now) edge }
    {
        let node = s.head(edge);
        match s.kind(node) {
            PieceKind::Hold => Known::One(0),
            _ => selected(s, &self.known, edge, s.exec(node)),
        }
    }

    /// What the piece leaves on a line that it touches.
    fn left(&self, s: &Setting<W>, line: u32, edge: u32) -> Known
        requires setting { IsSetting s.now.program.now s.now.flow.now s.now.classes.now s.now.touch.now s.now.lines.now s.now.one_word.items s.now.outs.items s.now.touched.items }
        requires edge { edge < edge_count s.now.flow.now.graph }
        requires line { line < s.now.lines.now.lines }
        requires sized { IsSized s.now.flow.now s.now.lines.now.lines self.now }
        ensures { (WritesAfter s.now.program.now s.now.flow.now s.now.classes.now edge line × (result ≡ written_after s.now.program.now s.now.flow.now s.now.classes.now (so_far self.now) edge line)) ⊎ ((WritesAfter s.now.program.now s.now.flow.now s.now.classes.now edge line → ⊥) × (result ≡ (so_far self.now).value line edge)) }
    {
        match s.kind(s.head(edge)) {
            PieceKind::Act => self.left_by_act(s, line, edge),
            _ => self.known.get(line, edge),
        }
    }

    /// What an act leaves on a line that it touches.
    fn left_by_act(&self, s: &Setting<W>, line: u32, edge: u32) -> Known
        requires setting { IsSetting s.now.program.now s.now.flow.now s.now.classes.now s.now.touch.now s.now.lines.now s.now.one_word.items s.now.outs.items s.now.touched.items }
        requires edge { edge < edge_count s.now.flow.now.graph }
        requires line { line < s.now.lines.now.lines }
        requires sized { IsSized s.now.flow.now s.now.lines.now.lines self.now }
        requires act { kind_after s.now.flow.now edge ≡ PieceKind.Act }
        ensures { (WritesAfter s.now.program.now s.now.flow.now s.now.classes.now edge line × (result ≡ written_after s.now.program.now s.now.flow.now s.now.classes.now (so_far self.now) edge line)) ⊎ ((WritesAfter s.now.program.now s.now.flow.now s.now.classes.now edge line → ⊥) × (result ≡ (so_far self.now).value line edge)) }
    {
        let exec = s.exec(s.head(edge));
        if writes(s, exec, line) {
            written(s, &self.known, edge, exec, line)
        } else {
            self.known.get(line, edge)
        }
    }

    /// The piece decides anew. Where its decision rises, the lines that go past it are to be passed on again.
    fn decide(&mut self, s: &Setting<W>, edge: u32)
        requires setting { IsSetting s.now.program.now s.now.flow.now s.now.classes.now s.now.touch.now s.now.lines.now s.now.one_word.items s.now.outs.items s.now.touched.items }
        requires edge { edge < edge_count s.now.flow.now.graph }
        requires ready { IsReady s.now.flow.now (touches_in s.now.touch.now) s.now.lines.now.lines (so_far self.old) edge }
        requires switch { spec_is_switch (kind_after s.now.flow.now edge) ≡ true }
        requires settling { IsSettling s.now.program.now s.now.flow.now s.now.classes.now (touches_in s.now.touch.now) s.now.lines.now no_line (this_piece edge) self.old }
        ensures settling { IsSettling s.now.program.now s.now.flow.now s.now.classes.now (touches_in s.now.touch.now) s.now.lines.now no_line (this_piece edge) self.new }
        ensures values { self.new.known ≡ self.old.known }
        ensures decided { AtMost (decided_after s.now.program.now s.now.flow.now s.now.classes.now (so_far self.new) edge) ((so_far self.new).decision (to s.now.flow.now.graph edge)) }
        ensures bounded { work_left s.now.flow.now s.now.lines.now.lines self.new ≤ work_left s.now.flow.now s.now.lines.now.lines self.old }
    {
        let node = s.head(edge);
        let decided = self.decided(s, edge);
        let Some(decision) = risen(self.decisions[node as usize], decided) else {
            return;
        };
        self.decisions[node as usize] = decision;
        self.again(s, edge);
    }

    /// The lines that go past the piece are to be passed on again.
    fn again(&mut self, s: &Setting<W>, edge: u32)
        requires setting { IsSetting s.now.program.now s.now.flow.now s.now.classes.now s.now.touch.now s.now.lines.now s.now.one_word.items s.now.outs.items s.now.touched.items }
        requires edge { edge < edge_count s.now.flow.now.graph }
        requires settling { IsSettling s.now.program.now s.now.flow.now s.now.classes.now (touches_in s.now.touch.now) s.now.lines.now (all_lines edge) (this_piece edge) self.old }
        ensures settling { IsSettling s.now.program.now s.now.flow.now s.now.classes.now (touches_in s.now.touch.now) s.now.lines.now no_line (this_piece edge) self.new }
        ensures values { self.new.known ≡ self.old.known }
        ensures decisions { self.new.decisions.items ≡ self.old.decisions.items }
        ensures bounded { work_left s.now.flow.now s.now.lines.now.lines self.new ≤ work_left s.now.flow.now s.now.lines.now.lines self.old + 1 }
    {
        self.pending.add(edge, s.lines.wires(edge));
        self.waits.insert(edge);
    }
}

/// Whether control decides at the piece.
pub(crate) fn is_switch(kind: PieceKind) -> bool
    ensures { result ≡ spec_is_switch kind }
{
    matches!(kind, PieceKind::Branch | PieceKind::Hold)
}

/// Whether something comes there.
fn is_something(known: Known) -> bool
    ensures { IsTrue result ↔ IsSomething known }
{
    match known {
        Known::Nothing => false,
        Known::One(_) | Known::Any => true,
    }
}

/// Whether the piece reads and changes what its lines bring.
fn is_action(kind: PieceKind) -> bool
    ensures { result ≡ spec_is_action kind }
{
    matches!(kind, PieceKind::Act | PieceKind::Branch | PieceKind::Hold)
}
