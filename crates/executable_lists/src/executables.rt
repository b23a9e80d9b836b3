//! The executables of a program, statement by statement.
ghost use Rattle.std.specs.Prelude.{◌≡◌, ℕ, ◌+◌, ◌<◌, ◌^◌, [], ◌∷◌, ◌++◌, Some, None, true, All, length, map, slice_get, IfOk, OnOk};
ghost use Rattle.layout_rules.specs.Resolved.{resolved_item};
ghost use Rattle.layout_rules.specs.Source.{IsSource};
ghost use Rattle.layout_rules.specs.Faults.{first_line};
ghost use Rattle.layout_rules.specs.Labels.{used, lacks_label};
ghost use Rattle.control_structure.specs.LabelTable.{ArePlacesOf};
ghost use Rattle.control_structure.specs.BlockEnds.{AreBlocksOf};
ghost use Rattle.layout_rules.specs.Counts.{asks_too_much};
ghost use Rattle.layout_rules.specs.Executables.{first_of, executables, executables_if_any, labelled, own_kinds, kind_or_integer, own_executables, taking, at_line};
ghost use Rattle.layout_rules.specs.Types.{kind_in};
ghost use Rattle.f77_tree.specs.Kinds.{taken_as};
ghost use Rattle.layout_rules.specs.Tables.{IsStanding, is_plain, is_simple, is_structural, has_simple_inner, IsUsable};
ghost use Rattle.executable_lists.specs.Flows.{IsFlow};

use crate::flow::{Flow, flow_of};
use crate::resolve::{access, resolve, resolve_item, resolve_step};
use control_structure::{Blocks, Labels};
use declared_names::kind_of;
use df_sequence::{LabelList, NoMemory, Sequence};
use f77_tree::{
    Exec, ExecKind, ExecList, Expr, ItemList, Kind, Labelled, RawExpr, RawItemList, RawList, Stmt,
};
use op_table::Op;
use std::alloc::Global;
use symbol_table::Names;

/// The executables of the statements of a source without refusals, in the order of the text (ANSI X3.9-1978, section 11).
pub fn executables_of(
    alloc: Global,
    names: &Names,
    checked: bool,
    stmts: &[Labelled],
    labels: Labels,
    blocks: Blocks,
) -> Result<ExecList, NoMemory>
    requires source { IsSource stmts.now }
    requires labelled { first_line (lacks_label stmts.now) stmts.now ≡ None }
    requires modest { first_line (asks_too_much names.now checked stmts.now) stmts.now ≡ None }
    requires places { ArePlacesOf stmts.now labels }
    requires blocks { AreBlocksOf stmts.now blocks }
    ensures { IfOk result (λ execs. execs ≡ executables names.now checked stmts.now) }
{
    let flow = flow_of(alloc, stmts, labels, blocks)?;
    all(&Maker {
        alloc,
        names,
        checked,
        stmts,
        flow: &flow,
    })
}

/// The executables of all statements.
fn all(maker: &Maker) -> Result<ExecList, NoMemory>
    requires flow { IsFlow maker.now.stmts.now maker.now.flow.now }
    requires usable { All (IsUsable maker.now.stmts.now) maker.now.stmts.now }
    ensures { IfOk result (λ execs. execs ≡ executables maker.now.names.now maker.now.checked maker.now.stmts.now) }
{
    let mut execs = Sequence::with_capacity(maker.alloc, maker.stmts.len())?;
    for place in 0..maker.stmts.len() {
        maker.statement(&mut execs, place)?;
    }
    Ok(execs)
}

/// What executables are made of: the table of names, the dialect, the statements, and what is looked up of them.
#[derive(Clone, Copy)]
pub(crate) struct Maker<'a> {
    pub(crate) alloc: Global,
    pub(crate) names: &'a Names,
    pub(crate) checked: bool,
    pub(crate) stmts: &'a [Labelled],
    pub(crate) flow: &'a Flow,
}

impl Maker<'_> {
    /// The executables of the statement at a place, after those of the statements above it.
    fn statement(&self, execs: &mut ExecList, place: usize) -> Result<(), NoMemory>
        requires flow { IsFlow self.now.stmts.now self.now.flow.now }
        requires usable { All (IsUsable self.now.stmts.now) self.now.stmts.now }
        requires place { place < length self.now.stmts.now }
        requires index { length execs.old ≡ first_of self.now.stmts.now place }
        ensures execs { OnOk result (execs.new
            ≡ execs.old ++ executables_if_any self.now.names.now self.now.checked self.now.stmts.now place (slice_get self.now.stmts.now place)) }
        ensures index { OnOk result (length execs.new ≡ first_of self.now.stmts.now (place + 1)) }
    {
        let s = &self.stmts[place];
        let next = self.flow.beyond(self.stmts, place);
        self.own(execs, place, s, next)?;
        self.increments(execs, place, s)
    }

    /// The one executable of a statement that may stand after a condition and is no READ.
    fn plain(&self, stmt: &Stmt, next: u32) -> Result<ExecKind, NoMemory>
        requires flow { IsFlow self.now.stmts.now self.now.flow.now }
        requires plain { is_plain stmt.now ≡ true }
        ensures { IfOk result (λ kind. (place index : ℕ)
            → own_kinds self.now.names.now self.now.checked self.now.stmts.now place index next stmt.now ≡ kind ∷ []) }
    {
        match stmt {
            Stmt::Assign(target, value) => Ok(ExecKind::Assign {
                target: access(self.alloc, self.names, self.checked, target)?,
                value: resolve(self.alloc, self.names, self.checked, value)?,
                next,
            }),
            Stmt::Print(items) => Ok(ExecKind::Print {
                items: self.items(items)?,
                next,
            }),
            Stmt::Continue => Ok(ExecKind::Pass { next }),
            Stmt::Stop => Ok(ExecKind::Pass {
                next: self.flow.last(self.stmts),
            }),
            Stmt::GoTo(label) => Ok(ExecKind::Pass {
                next: self.flow.labelled(self.stmts, *label),
            }),
            Stmt::PickGoTo(labels, e) => Ok(ExecKind::Pick {
                value: resolve(self.alloc, self.names, self.checked, e)?,
                targets: self.targets(labels)?,
                other: next,
            }),
            Stmt::SignIf(e, neg, zero, pos) => Ok(ExecKind::Sign {
                value: resolve(self.alloc, self.names, self.checked, e)?,
                neg: self.flow.labelled(self.stmts, *neg),
                zero: self.flow.labelled(self.stmts, *zero),
                pos: self.flow.labelled(self.stmts, *pos),
            }),
            _ => unreachable!(),
        }
    }

    /// The one executable of a statement where a block of IF or a loop begins or ends.
    fn structural(
        &self,
        place: usize,
        s: &Labelled,
        index: u32,
        next: u32,
    ) -> Result<ExecKind, NoMemory>
        requires flow { IsFlow self.now.stmts.now self.now.flow.now }
        requires at { slice_get self.now.stmts.now place ≡ Some s.now }
        requires structural { is_structural s.now.stmt ≡ true }
        requires labels { All (IsStanding self.now.stmts.now) (used s.now.stmt) }
        requires index { index < 4294967295 }
        ensures { IfOk result (λ kind. own_kinds self.now.names.now self.now.checked self.now.stmts.now place index next s.now.stmt ≡ kind ∷ []) }
    {
        match &s.stmt {
            Stmt::BlockIf(condition) | Stmt::ElseIf(condition) => Ok(ExecKind::Test {
                cond: resolve(self.alloc, self.names, self.checked, condition)?,
                yes: self.flow.next(self.stmts, place),
                no: self.flow.when_false(self.stmts, place),
            }),
            Stmt::EndIf => Ok(ExecKind::Pass { next }),
            Stmt::Do(label, variable, first, last, step) => Ok(ExecKind::DoStart {
                loop_no: self.flow.number(self.stmts, place),
                var: self.names.index(variable),
                first: resolve(self.alloc, self.names, self.checked, first)?,
                last: resolve(self.alloc, self.names, self.checked, last)?,
                step: resolve_step(self.alloc, self.names, self.checked, step)?,
                body: index + 1,
                exit: self.flow.exit(self.stmts, place, *label),
            }),
            Stmt::End => Ok(ExecKind::End),
            _ => unreachable!(),
        }
    }

    /// Items of output over the table of names.
    fn items(&self, items: &RawItemList) -> Result<ItemList, NoMemory>
        ensures { IfOk result (λ list. list ≡ map (resolved_item self.now.names.now self.now.checked) items.now) }
    {
        let mut list = Sequence::with_capacity(self.alloc, items.len() as usize)?;
        for item in items.as_slice() {
            list.push(resolve_item(self.alloc, self.names, self.checked, item)?)?;
        }
        Ok(list)
    }

    /// The executables of the statements with these labels.
    fn targets(&self, labels: &LabelList) -> Result<LabelList, NoMemory>
        requires { IsFlow self.now.stmts.now self.now.flow.now }
        ensures { IfOk result (λ list. list ≡ map (labelled self.now.stmts.now) labels.now) }
    {
        let mut list = Sequence::with_capacity(self.alloc, labels.len() as usize)?;
        for label in labels.as_slice() {
            list.push(self.flow.labelled(self.stmts, *label))?;
        }
        Ok(list)
    }

    /// The executables of READ, one for each target, after those that are there.
    fn take(
        &self,
        execs: &mut ExecList,
        line: u32,
        next: u32,
        targets: &RawList,
    ) -> Result<(), NoMemory>
        requires { length execs.old + length targets.now < 2 ^ 32 }
        ensures { OnOk result (execs.new
            ≡ execs.old ++ at_line line (taking self.now.names.now self.now.checked (length execs.old) next targets.now)) }
    {
        for (k, target) in targets.as_slice().iter().enumerate() {
            let last = k + 1 == targets.len() as usize;
            let next = if last { next } else { execs.len() + 1 };
            let kind = ExecKind::Assign {
                target: access(self.alloc, self.names, self.checked, target)?,
                value: self.taken(target)?,
                next,
            };
            execs.push(Exec { line, kind })?;
        }
        Ok(())
    }

    /// The next word of the data, as a target takes it.
    fn taken(&self, target: &RawExpr) -> Result<Expr, NoMemory>
        ensures { IfOk result (λ value. value ≡ taken_as (kind_or_integer (kind_in self.now.names.now target.now))) }
    {
        if let Some(Kind::Logical) = kind_of(self.names, target) {
            let mut input = Sequence::with_capacity(self.alloc, 1)?;
            input.push(Expr::Input)?;
            return Ok(Expr::Apply(Op::Truth, input));
        }
        Ok(Expr::Input)
    }

    /// The executables of a statement that may stand after a condition.
    fn simple(
        &self,
        execs: &mut ExecList,
        line: u32,
        next: u32,
        stmt: &Stmt,
    ) -> Result<(), NoMemory>
        requires flow { IsFlow self.now.stmts.now self.now.flow.now }
        requires simple { is_simple stmt.now ≡ true }
        requires room { length execs.old + own_executables stmt.now < 2 ^ 32 }
        ensures { (place : ℕ) → OnOk result (execs.new ≡ execs.old
            ++ at_line line (own_kinds self.now.names.now self.now.checked self.now.stmts.now place (length execs.old) next stmt.now)) }
    {
        if let Stmt::Take(targets) = stmt {
            return self.take(execs, line, next, targets);
        }
        let kind = self.plain(stmt, next)?;
        execs.push(Exec { line, kind })
    }

    /// The executables of the statement at a place, but for the increments of the DOs that end at it.
    fn own(
        &self,
        execs: &mut ExecList,
        place: usize,
        s: &Labelled,
        next: u32,
    ) -> Result<(), NoMemory>
        requires flow { IsFlow self.now.stmts.now self.now.flow.now }
        requires at { slice_get self.now.stmts.now place ≡ Some s.now }
        requires inner { has_simple_inner s.now.stmt ≡ true }
        requires labels { All (IsStanding self.now.stmts.now) (used s.now.stmt) }
        requires room { length execs.old + own_executables s.now.stmt < 2 ^ 32 }
        ensures { OnOk result (execs.new
            ≡ execs.old ++ at_line s.now.line
            (own_kinds self.now.names.now self.now.checked self.now.stmts.now place (length execs.old) next s.now.stmt)) }
    {
        let line = s.line;
        match &s.stmt {
            Stmt::ThenIf(condition, inner) => {
                let kind = ExecKind::Test {
                    cond: resolve(self.alloc, self.names, self.checked, condition)?,
                    yes: execs.len() + 1,
                    no: next,
                };
                execs.push(Exec { line, kind })?;
                self.simple(execs, line, next, inner.get())
            }
            Stmt::BlockIf(_)
            | Stmt::ElseIf(_)
            | Stmt::EndIf
            | Stmt::Do(_, _, _, _, _)
            | Stmt::End => {
                let kind = self.structural(place, s, execs.len(), next)?;
                execs.push(Exec { line, kind })
            }
            Stmt::Assign(_, _)
            | Stmt::Print(_)
            | Stmt::Take(_)
            | Stmt::Continue
            | Stmt::Stop
            | Stmt::GoTo(_)
            | Stmt::PickGoTo(_, _)
            | Stmt::SignIf(_, _, _, _) => self.simple(execs, line, next, &s.stmt),
            _ => Ok(()),
        }
    }
}
