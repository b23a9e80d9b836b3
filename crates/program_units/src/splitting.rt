//! The units of a text, each up to and with its END.
ghost use Rattle.std.specs.Prelude.{◌≡◌, ◌<◌, ◌++◌, length, Some, slice_get, IfOk, OnOk};
ghost use Rattle.program_units.specs.Cuts.{span_if};
ghost use Rattle.program_units.specs.Units.{is_end as is_end_of, unit_at, units};

use df_sequence::NoMemory;
use f77_tree::{Labelled, Stmt};
use std::alloc::Global;
use std::marker::Model;

// Places of statements, from one up to another.
#[derive(Clone, Copy)]
struct Span {
    from: usize,
    to: usize,
}

/// The units of a text, the main program first (ANSI X3.9-1978, section 3.5). Contracts see them as lists of statements.
#[derive(Drop)]
pub struct Units<'a> {
    stmts: &'a [Labelled],
    spans: Vec<Span>,
}

impl<'a> Model for Units<'a> {
    ghost use Rattle.std.specs.Prelude.{List, All};
    ghost use Rattle.f77_tree.specs.declared.statements.Labelled.{Labelled};
    ghost use Rattle.program_units.specs.Cuts.{parts, IsSpanOf};
    ghost use Rattle.std.specs.Coded.{codes};
    ghost use Rattle.f77_tree.specs.contracts.statements.Stmt as statement;

    ghost Value = { List (List Labelled) };

    ghost coded = { Prim.hlevel (codes, statement.the_row.coded) };

    ghost view = { λ u. parts u.spans.items u.stmts.now };

    ghost invariant = { λ u. All (IsSpanOf u.stmts.now) u.spans.items };
}

impl<'a> Units<'a> {
    /// The units of these statements.
    ///
    /// # Errors
    ///
    /// Where there is no memory.
    pub fn of(alloc: Global, stmts: &'a [Labelled]) -> Result<Units<'a>, NoMemory>
        ensures { IfOk result (λ found. found ≡ units stmts.now) }
    {
        let mut spans = Vec::new(alloc);
        let mut from = 0;
        for (i, s) in stmts.iter().enumerate() {
            if is_end(&s.stmt) {
                spans.push(Span { from, to: i + 1 })?;
                from = i + 1;
            }
        }
        close(&mut spans, from, stmts.len())?;
        Ok(Units { stmts, spans })
    }

    /// How many there are.
    pub fn len(&self) -> usize
        ensures { result ≡ length self.now }
    {
        self.spans.len()
    }

    /// The unit at the index k, counted from 0.
    pub fn at(&self, k: usize) -> &'a [Labelled]
        requires { k < length self.now }
        ensures unit { slice_get self.now k ≡ Some result.now }
        ensures statements { result.now ≡ unit_at self.now k }
    {
        let span = self.spans[k];
        &self.stmts[span.from..span.to]
    }
}

/// Puts a span after the others, unless it is empty.
fn close(spans: &mut Vec<Span>, from: usize, to: usize) -> Result<(), NoMemory>
    ensures { OnOk result (spans.new.items ≡ spans.old.items ++ span_if from to) }
{
    if from < to {
        spans.push(Span { from, to })?;
    }
    Ok(())
}

/// Whether a statement is END.
pub fn is_end(stmt: &Stmt) -> bool
    ensures { result ≡ is_end_of stmt.now }
{
    matches!(stmt, Stmt::End)
}
