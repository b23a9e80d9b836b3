//! The reader of a whole text, line by line.

ghost use Rattle.std.specs.Prelude.{◌≡◌, ◌≢◌, ◌+◌, ◌<◌, ◌≤◌, ◌++◌, List, [], length, Option, None, Some, OnOk, IfOk, IfErr, Ok, Err};
ghost use Rattle.fixed_form.specs.declared.line.LineKind.TheVariants.{Initial, Continuation};
ghost use Rattle.fixed_form.specs.Columns.{card, kind};
ghost use Rattle.fixed_form.specs.SourceLine.{SourceLine, numbered};
ghost use Rattle.fixed_form.specs.Statement.{ends_with_end};
ghost use Rattle.fixed_form.specs.Limits.{AreWithinForm};
ghost use Rattle.fixed_form.specs.Reading.{outcome};
ghost use Rattle.fixed_form.specs.Reader.{closed_last, statements_after, HasRead, IsBounded, Reads};

use crate::line::{LineKind, has_bad_byte, has_blank_label, in_columns, kind_of, label_of};
use crate::open_stmt::OpenStmt;
use crate::{FormEnd, RawStmt, RawStmtList};
use df_sequence::NoMemory;
use std::alloc::Global;

/// A text has at most this many statements.
const MOST_STATEMENTS: u32 = 4000;

/// A statement has at most this many continuation lines.
const MOST_CONTINUATIONS: u32 = 19;

/// What is known of a text once some of its lines are read.
#[derive(Drop)]
pub(crate) struct Reader {
    /// The statements that are whole.
    pub(crate) done: RawStmtList,
    /// The statement that was begun last.
    pub(crate) last: Option<OpenStmt>,
    /// How many lines are read.
    pub(crate) lines: u32,
}

impl Reader {
    /// Nothing is read.
    pub(crate) fn new(alloc: Global) -> Reader
        ensures { result ≡ record { done = []; last = None; lines = 0 } }
    {
        Reader {
            done: RawStmtList::new(alloc),
            last: None,
            lines: 0,
        }
    }

    /// Puts the statement begun last beside the others.
    fn close(&mut self) -> Result<(), NoMemory>
        requires { length self.old.done ≤ 4000 }
        ensures { OnOk result (self.new ≡ record self.old { done = self.old.done ++ closed_last self.old.last; last = None }) }
    {
        if let Some(stmt) = self.last.take() {
            self.done.push(RawStmt {
                label: stmt.label,
                line: stmt.line,
                text: stmt.text,
            })?;
        }
        Ok(())
    }

    /// Begins a statement with the line read last.
    fn begin(&mut self, alloc: Global, columns: &[u8]) -> Result<(), FormEnd>
        requires short { length columns.now ≤ 72 }
        requires initial { kind (card columns.now) ≡ Initial }
        requires bounded { IsBounded self.old }
        ensures bounded { OnOk result (IsBounded self.new) }
        ensures lines { OnOk result (self.new.lines ≡ self.old.lines) }
        ensures reads { (above : List SourceLine) → HasRead self.old above → Reads above self.old self.new (numbered self.old.lines columns.now) result }
    {
        let line = self.lines;
        if has_bad_byte(columns) {
            return Err(FormEnd::BadByte(line));
        }
        let Some(label) = label_of(columns) else {
            return Err(FormEnd::BadLabelField(line));
        };
        self.close()?;
        if self.done.len() >= MOST_STATEMENTS {
            return Err(FormEnd::TooManyStatements(line));
        }
        let mut stmt = OpenStmt::new(alloc, label, line);
        stmt.add(columns)?;
        self.last = Some(stmt);
        Ok(())
    }

    /// Goes on with the line read last.
    fn go_on(&mut self, columns: &[u8]) -> Result<(), FormEnd>
        requires short { length columns.now ≤ 72 }
        requires continuation { kind (card columns.now) ≡ Continuation }
        requires bounded { IsBounded self.old }
        ensures bounded { OnOk result (IsBounded self.new) }
        ensures lines { OnOk result (self.new.lines ≡ self.old.lines) }
        ensures reads { (above : List SourceLine) → HasRead self.old above → Reads above self.old self.new (numbered self.old.lines columns.now) result }
    {
        let line = self.lines;
        if has_bad_byte(columns) {
            return Err(FormEnd::BadByte(line));
        }
        if !has_blank_label(columns) {
            return Err(FormEnd::BadLabelField(line));
        }
        let Some(stmt) = &mut self.last else {
            return Err(FormEnd::StrayContinuation(line));
        };
        if stmt.continuations >= MOST_CONTINUATIONS {
            return Err(FormEnd::TooManyContinuations(line));
        }
        stmt.go_on(columns)?;
        Ok(())
    }

    /// Reads one line more.
    pub(crate) fn take_line(&mut self, alloc: Global, line: &[u8]) -> Result<(), FormEnd>
        requires few { self.old.lines < 4294967295 }
        requires bounded { IsBounded self.old }
        ensures bounded { OnOk result (IsBounded self.new) }
        ensures lines { OnOk result (self.new.lines ≡ self.old.lines + 1) }
        ensures reads { (above : List SourceLine) → HasRead self.old above → Reads above self.old self.new (numbered (self.old.lines + 1) line.now) result }
    {
        self.lines += 1;
        let columns = in_columns(line);
        match kind_of(columns) {
            LineKind::Comment => Ok(()),
            LineKind::Initial => self.begin(alloc, columns),
            LineKind::Continuation => self.go_on(columns),
        }
    }

    /// Whether the statement begun last is `END`.
    fn is_at_end(&self) -> bool
        ensures { result ≡ ends_with_end (closed_last self.now.last) }
    {
        match &self.last {
            Some(stmt) => stmt.text.as_slice() == b"END".as_slice(),
            None => false,
        }
    }

    /// The statements of the text, all lines of which are read.
    pub(crate) fn finish(mut self) -> Result<RawStmtList, FormEnd>
        requires few { self.lines < 4294967295 }
        requires bounded { IsBounded self }
        ensures limits { IfOk result AreWithinForm }
        ensures accepted { IfOk result (λ list. outcome None (statements_after self []) self.lines ≡ Ok list) }
        ensures refused { IfErr result (λ end. end ≢ FormEnd.NoMemory → outcome None (statements_after self []) self.lines ≡ Err end) }
    {
        if !self.is_at_end() {
            return Err(FormEnd::NoEnd(self.lines + 1));
        }
        self.close()?;
        Ok(self.done)
    }
}
