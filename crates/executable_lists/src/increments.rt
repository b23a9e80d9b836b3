//! The executables that increment the DOs.
ghost use Rattle.std.specs.Prelude.{◌≡◌, ◌+◌, ◌<◌, ◌^◌, ◌++◌, Some, true, length, slice_get, OnOk};
ghost use Rattle.f77_tree.specs.Declarations.{index_of};
ghost use Rattle.layout_rules.specs.Executables.{is_do_in, loop_number, first_of, variable_of, loops_to, increments, at_line};
ghost use Rattle.executable_lists.specs.Flows.{IsFlow};

use crate::executables::Maker;
use df_sequence::NoMemory;
use f77_tree::{Exec, ExecKind, ExecList, Labelled, Stmt};

impl Maker<'_> {
    /// The executables that increment the DOs which end at the statement at a place, the innermost first.
    pub(crate) fn increments(
        &self,
        execs: &mut ExecList,
        place: usize,
        s: &Labelled,
    ) -> Result<(), NoMemory>
        requires flow { IsFlow self.now.stmts.now self.now.flow.now }
        requires at { slice_get self.now.stmts.now place ≡ Some s.now }
        requires label { s.now.label < 100000 }
        requires room { length execs.old + length (loops_to self.now.stmts.now s.now.label) < 2 ^ 32 }
        ensures { OnOk result (execs.new
            ≡ execs.old ++ at_line s.now.line
            (increments self.now.names.now self.now.stmts.now place (length execs.old) (loops_to self.now.stmts.now s.now.label))) }
    {
        let loops = self.flow.loops_to(self.stmts, s.label).as_slice();
        for outer in (0..loops.len()).rev() {
            let exit = if outer == 0 {
                self.flow.next(self.stmts, place)
            } else {
                execs.len() + 1
            };
            let kind = self.increment(loops[outer] as usize, s.label, exit);
            execs.push(Exec { line: s.line, kind })?;
        }
        Ok(())
    }

    /// The executable that increments the DO at a place, whose range ends at the statement with the label.
    fn increment(&self, place: usize, label: u32, exit: u32) -> ExecKind
        requires flow { IsFlow self.now.stmts.now self.now.flow.now }
        requires place { place < length self.now.stmts.now }
        requires begins { is_do_in label (slice_get self.now.stmts.now place) ≡ true }
        ensures { result ≡ ExecKind.DoNext (loop_number self.now.stmts.now place)
            (index_of self.now.names.now (variable_of (slice_get self.now.stmts.now place))) (first_of self.now.stmts.now place + 1) exit }
    {
        let var = match &self.stmts[place].stmt {
            Stmt::Do(_, variable, _, _, _) => self.names.index(variable),
            _ => unreachable!(),
        };
        ExecKind::DoNext {
            loop_no: self.flow.number(self.stmts, place),
            var,
            body: self.flow.first(self.stmts, place) + 1,
            exit,
        }
    }
}
