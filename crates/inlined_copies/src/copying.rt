//! Copies of units in place of CALLs.
ghost use Rattle.std.specs.Prelude.{◌≡◌, ◌+◌, ◌<◌, ◌^◌, ◌++◌, ◌∷◌, ◌==◌, [], if◌then◌else◌, OnOk};
ghost use Rattle.program_units.specs.Units.{call_to, guard_of, unit_of as unit_of_name};
ghost use Rattle.program_units.specs.Widths.{labels};
ghost use Rattle.program_units.specs.Copies.{bare};
ghost use Rattle.inlined_copies.specs.Changes.{changes_of};
ghost use Rattle.inlined_copies.specs.PutCopies.{called_in, closing, copies_of, count_of, labels_in, opening, piece_of, pieces_of};

use crate::call_rows::is_kept;
use crate::changed::changed;
use crate::changed_stmts::changed_stmt;
use crate::unit_table::{CopyOf, CopyTables};
use df_sequence::NoMemory;
use f77_tree::{Labelled, Name, NameList, Stmt};
use program_units::{inner_of, unit_of};
use std::alloc::Global;

impl<'a> CopyTables<'a> {
    /// Puts the copy of a unit whose dummies become these names behind the list. So many labels stand before it. CALLs are
    /// followed so deep.
    #[cycle(putting)]
    fn put_copy(
        &self,
        alloc: Global,
        out: &mut Vec<Labelled>,
        depth: usize,
        k: usize,
        arguments: &[Name],
        base: u32,
    ) -> Result<(), NoMemory>
        requires { base + count_of self.now k < 2 ^ 20 }
        ensures { OnOk result (out.new.items ≡ out.old.items ++ copies_of self.now depth k arguments.now base) }
    {
        if depth == 0 {
            return Ok(());
        }
        if k >= self.tables.len() {
            return Ok(());
        }
        let copy = CopyOf {
            table: &self.tables[k],
            arguments,
            base,
        };
        self.put_pieces(alloc, out, depth - 1, k, &copy, base, self.units.us.at(k))
    }

    /// Puts what stands for statements of a unit in a copy of it behind the list. So many labels stand before them.
    ///
    /// # Errors
    ///
    /// Where there is no memory.
    #[cycle(putting)]
    pub fn put_pieces(
        &self,
        alloc: Global,
        out: &mut Vec<Labelled>,
        depth: usize,
        k: usize,
        copy: &CopyOf,
        before: u32,
        stmts: &[Labelled],
    ) -> Result<(), NoMemory>
        requires { before + labels_in self.now k stmts.now < 2 ^ 20 }
        ensures { OnOk result (out.new.items ≡ out.old.items ++ pieces_of self.now depth k (changes_of copy.now) before stmts.now) }
    {
        let mut stood = before;
        for s in stmts {
            self.put_piece(alloc, out, depth, k, copy, stood + 1, s)?;
            stood += self.units.labels(k, s);
        }
        Ok(())
    }

    // Puts what stands for a statement of a unit. Its first label is m, if it has one.
    #[cycle(putting)]
    fn put_piece(
        &self,
        alloc: Global,
        out: &mut Vec<Labelled>,
        depth: usize,
        k: usize,
        copy: &CopyOf,
        m: u32,
        s: &Labelled,
    ) -> Result<(), NoMemory>
        requires { m + labels (count_of self.now) self.now.units.us.now k s.now < 2 ^ 20 + 1 }
        ensures { OnOk result (out.new.items ≡ out.old.items ++ piece_of self.now depth k (changes_of copy.now) m s.now) }
    {
        if !is_kept(k, &s.stmt) {
            return Ok(());
        }
        match inner_of(&s.stmt) {
            Stmt::CallTo(name, arguments) => {
                self.put_call(alloc, out, depth, copy, m, s, name, arguments)
            }
            _ => {
                let stmt = changed_stmt(alloc, copy, &s.stmt)?;
                put(out, label_or_none(s.label, m), s.line, stmt)
            }
        }
    }

    // Puts what stands for a CALL: the copy of the unit, between labels.
    #[cycle(putting)]
    fn put_call(
        &self,
        alloc: Global,
        out: &mut Vec<Labelled>,
        depth: usize,
        copy: &CopyOf,
        m: u32,
        s: &Labelled,
        name: &Name,
        arguments: &NameList,
    ) -> Result<(), NoMemory>
        requires { m + 1 + count_of self.now (unit_of_name self.now.units.us.now name.now) < 2 ^ 20 }
        ensures { OnOk result (out.new.items ≡ out.old.items ++ called_in self.now depth (changes_of copy.now) m s.now (call_to name.now arguments.now)) }
    {
        let passed = copy.all(alloc, arguments)?;
        let g = unit_of(self.units.us, self.units.index, name);
        put_opening(alloc, out, copy, m, s.line, &s.stmt)?;
        self.put_copy(alloc, out, depth, g, &passed, m)?;
        put_closing(out, m + self.units.count(g) + 1, s.line, &s.stmt)
    }
}

// Puts what stands before the copy at a CALL: a label, and after a condition the head of a block.
fn put_opening(
    alloc: Global,
    out: &mut Vec<Labelled>,
    copy: &CopyOf,
    label: u32,
    line: u32,
    stmt: &Stmt,
) -> Result<(), NoMemory>
    ensures { OnOk result (out.new.items ≡ out.old.items ++ opening (changes_of copy.now) label line (guard_of stmt.now)) }
{
    put(out, label, line, Stmt::Continue)?;
    match stmt {
        Stmt::ThenIf(condition, _) => {
            let head = Stmt::BlockIf(changed(alloc, copy, condition)?);
            put(out, 0, line, head)
        }
        _ => Ok(()),
    }
}

// Puts what stands behind the copy at a CALL: after a condition the end of the block, and a label.
fn put_closing(out: &mut Vec<Labelled>, label: u32, line: u32, stmt: &Stmt) -> Result<(), NoMemory>
    ensures { OnOk result (out.new.items ≡ out.old.items ++ closing label line (guard_of stmt.now)) }
{
    match stmt {
        Stmt::ThenIf(_, _) => {
            put(out, 0, line, Stmt::EndIf)?;
            put(out, label, line, Stmt::Continue)
        }
        _ => put(out, label, line, Stmt::Continue),
    }
}

// The new label, unless there was none.
fn label_or_none(old: u32, new: u32) -> u32
    ensures { result ≡ (if old == 0 then 0 else new) }
{
    if old == 0 { 0 } else { new }
}

/// Puts a statement behind the list.
///
/// # Errors
///
/// Where there is no memory.
pub fn put(out: &mut Vec<Labelled>, label: u32, line: u32, stmt: Stmt) -> Result<(), NoMemory>
    ensures { OnOk result (out.new.items ≡ out.old.items ++ bare label line stmt ∷ []) }
{
    out.push(Labelled { label, line, stmt })?;
    Ok(())
}
