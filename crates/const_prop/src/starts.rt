//! The opening of a table: what is known where a run begins.

ghost use Rattle.std.specs.Prelude.{◌≡◌, ◌<◌, length, IfOk};
ghost use Rattle.dep_routing.specs.Touch.{touches_in};
ghost use Rattle.f77_tree.specs.Value.{word_at};
ghost use Rattle.const_prop.specs.Setting.{IsSetting};
ghost use Rattle.const_prop.specs.Work.{IsBlank, IsSettling, IsSettlingFrom, no_line, no_piece};

use crate::edge_set::EdgeSet;
use crate::known::Known;
use crate::known_rows::KnownRows;
use crate::setting::Setting;
use crate::sparse_sets::SparseSets;
use crate::work::Work;
use df_sequence::NoMemory;
use f77_tree::Program;
use std::alloc::Global;

impl<const W: usize> Work<W> {
    /// A table in which nothing comes anywhere. Each edge waits, since its piece is still to be entered.
    pub(crate) fn blank(alloc: Global, s: &Setting<W>) -> Result<Self, NoMemory>
        requires { IsSetting s.now.program.now s.now.flow.now s.now.classes.now s.now.touch.now s.now.lines.now s.now.one_word.items s.now.outs.items s.now.touched.items }
        ensures { IfOk result (IsBlank s.now.flow.now s.now.lines.now) }
    {
        let edges = s.flow.graph().edges();
        Ok(Work {
            known: KnownRows::new(alloc, s.lines.lines(), edges)?,
            decisions: vec![in alloc; Known::Nothing; s.flow.pieces() as usize]?,
            pending: SparseSets::new(alloc, edges)?,
            waits: EdgeSet::full(alloc, edges)?,
        })
    }

    /// Opens each line: a class of one word with the initial word, and every other line with any.
    pub(crate) fn open(&mut self, s: &Setting<W>)
        requires setting { IsSetting s.now.program.now s.now.flow.now s.now.classes.now s.now.touch.now s.now.lines.now s.now.one_word.items s.now.outs.items s.now.touched.items }
        requires settling { IsSettlingFrom s.now.program.now s.now.flow.now s.now.classes.now (touches_in s.now.touch.now) s.now.lines.now 0 0 no_line no_piece self.old }
        ensures { IsSettling s.now.program.now s.now.flow.now s.now.classes.now (touches_in s.now.touch.now) s.now.lines.now no_line no_piece self.new }
    {
        self.open_others(s);
        self.open_words(s);
    }

    /// Opens the lines that are no classes of one word.
    fn open_others(&mut self, s: &Setting<W>)
        requires setting { IsSetting s.now.program.now s.now.flow.now s.now.classes.now s.now.touch.now s.now.lines.now s.now.one_word.items s.now.outs.items s.now.touched.items }
        requires settling { IsSettlingFrom s.now.program.now s.now.flow.now s.now.classes.now (touches_in s.now.touch.now) s.now.lines.now 0 0 no_line no_piece self.old }
        ensures { IsSettlingFrom s.now.program.now s.now.flow.now s.now.classes.now (touches_in s.now.touch.now) s.now.lines.now 0 s.now.lines.now.lines no_line no_piece self.new }
    {
        for line in 0..s.lines.lines() {
            if !s.one_word[line as usize] {
                self.raise(s, line, s.lines.next_wire(line, 1), Known::Any);
            }
        }
    }

    /// Opens the classes of one word.
    fn open_words(&mut self, s: &Setting<W>)
        requires setting { IsSetting s.now.program.now s.now.flow.now s.now.classes.now s.now.touch.now s.now.lines.now s.now.one_word.items s.now.outs.items s.now.touched.items }
        requires settling { IsSettlingFrom s.now.program.now s.now.flow.now s.now.classes.now (touches_in s.now.touch.now) s.now.lines.now 0 s.now.lines.now.lines no_line no_piece self.old }
        ensures { IsSettling s.now.program.now s.now.flow.now s.now.classes.now (touches_in s.now.touch.now) s.now.lines.now no_line no_piece self.new }
    {
        for word in 0..s.program.words {
            let line = s.classes.of_word(word);
            if s.one_word[line as usize] {
                let first = first_word(s.program, word);
                self.raise(s, line, s.lines.next_wire(line, 1), first);
            }
        }
    }
}

/// The initial word.
fn first_word(p: &Program, word: u32) -> Known
    requires { word < length p.now.initial }
    ensures { result ≡ Known.One (word_at p.now.initial word) }
{
    Known::One(*p.initial.at(word))
}
