//! The flat statements that executables come from.
ghost use Rattle.std.specs.Prelude.{◌≡◌, ◌<◌, ◌^◌, ◌++◌, Some, length, map, slice_get, slice_index, IfOk, OnOk};
ghost use Rattle.flat_programs.specs.FlatForm.{AreStatementsOf, IsFlatProgram};
ghost use Rattle.flat_programs.specs.Recovered.{follows_test as follows_test_in, goes_on_in, idle_statement as idle_statement_of, is_mark_at, is_test_in, lines_at, mark_counts as counts_of_marks, recovered, statement_of as statement_from, straight_statement as straight_statement_of};

use crate::{Flat, FlatLine, FlatList};
use df_sequence::{Copied, LabelList, NoMemory, Sequence};
use f77_tree::{Exec, ExecKind, ExecList, Program};
use std::alloc::Global;

/// The statements whose executables a program of flat statements has. There are no other ones, as
/// `executables_tell_statements` says. It takes time in proportion to the length of the executables.
pub fn recover(alloc: Global, p: &Program) -> Result<FlatList, NoMemory>
    requires { IsFlatProgram p.now }
    ensures { IfOk result (λ flat. AreStatementsOf p.now flat) }
{
    statements_of(alloc, &p.execs)
}

/// The statements that executables tell, in the order of the text.
fn statements_of(alloc: Global, execs: &ExecList) -> Result<FlatList, NoMemory>
    ensures { IfOk result (λ flat. flat ≡ recovered execs.now) }
{
    let counts = mark_counts(alloc, execs)?;
    let mut flat = Sequence::with_capacity(alloc, execs.len() as usize)?;
    for k in 0..execs.len() {
        append_statement(alloc, execs, &counts, k, &mut flat)?;
    }
    Ok(flat)
}

/// Appends the statement whose first executable is at an index, if there is one.
fn append_statement(
    alloc: Global,
    execs: &ExecList,
    counts: &[u32],
    k: u32,
    flat: &mut FlatList,
) -> Result<(), NoMemory>
    requires counts { counts.now ≡ counts_of_marks execs.now }
    requires index { k < length execs.now }
    requires short { length execs.now < 2 ^ 32 }
    requires few { length flat.old < 4294967295 }
    ensures { OnOk result (flat.new ≡ flat.old ++ lines_at execs.now k) }
{
    let exec = execs.at(k);
    match statement_of(alloc, execs, counts, k, &exec.kind)? {
        None => Ok(()),
        Some(stmt) => flat.push(FlatLine {
            line: exec.line,
            stmt,
        }),
    }
}

/// The statement whose first executable is at an index and does this, if there is one.
fn statement_of(
    alloc: Global,
    execs: &ExecList,
    counts: &[u32],
    k: u32,
    kind: &ExecKind,
) -> Result<Option<Flat>, NoMemory>
    requires counts { counts.now ≡ counts_of_marks execs.now }
    requires index { k < length execs.now }
    requires short { length execs.now < 2 ^ 32 }
    ensures { IfOk result (λ stmt. stmt ≡ statement_from execs.now k kind.now) }
{
    match kind {
        ExecKind::Pass { next } => Ok(idle_statement(execs, counts, k, *next)),
        ExecKind::Test { cond, .. } => Ok(Some(Flat::LogicalIf {
            cond: cond.copy(alloc)?,
            target: number_at(counts, goes_on(execs, k + 1)),
        })),
        ExecKind::Sign {
            value,
            neg,
            zero,
            pos,
        } => Ok(Some(Flat::ArithmeticIf {
            value: value.copy(alloc)?,
            below: number_at(counts, *neg),
            at: number_at(counts, *zero),
            above: number_at(counts, *pos),
        })),
        ExecKind::Pick { value, targets, .. } => Ok(Some(Flat::ComputedGoTo {
            value: value.copy(alloc)?,
            targets: numbers_at(alloc, counts, targets)?,
        })),
        _ => straight_statement(alloc, counts, kind),
    }
}

/// The statement that an executable is that does nothing, if it isn't the GO TO of a logical IF.
fn idle_statement(execs: &ExecList, counts: &[u32], k: u32, next: u32) -> Option<Flat>
    requires counts { counts.now ≡ counts_of_marks execs.now }
    requires index { k < length execs.now }
    requires short { length execs.now < 2 ^ 32 }
    ensures { result ≡ idle_statement_of execs.now k next }
{
    if follows_test(execs, k) {
        None
    } else if next == k + 1 {
        Some(Flat::Mark)
    } else {
        Some(Flat::Jump {
            target: number_at(counts, next),
        })
    }
}

/// The assignment, the PRINT, the DO or the END that an executable is, if it is one.
fn straight_statement(
    alloc: Global,
    counts: &[u32],
    kind: &ExecKind,
) -> Result<Option<Flat>, NoMemory>
    ensures { IfOk result (λ stmt. stmt ≡ straight_statement_of (slice_index counts.now) kind.now) }
{
    match kind {
        ExecKind::Assign { target, value, .. } => Ok(Some(Flat::Assignment {
            target: target.copy(alloc)?,
            value: value.copy(alloc)?,
        })),
        ExecKind::Print { items, .. } => Ok(Some(Flat::Output {
            items: items.copy(alloc)?,
        })),
        ExecKind::DoStart {
            var,
            first,
            last,
            step,
            exit,
            ..
        } => Ok(Some(Flat::DoLoop {
            end: number_at(counts, exit.saturating_sub(2)),
            var: *var,
            first: first.copy(alloc)?,
            last: last.copy(alloc)?,
            step: step.copy(alloc)?,
        })),
        ExecKind::End => Ok(Some(Flat::Finish)),
        _ => Ok(None),
    }
}

// ---- marks

/// The numbers of the marks whose executables these are.
fn numbers_at(alloc: Global, counts: &[u32], places: &LabelList) -> Result<LabelList, NoMemory>
    ensures { IfOk result (λ numbers. numbers ≡ map (slice_index counts.now) places.now) }
{
    let mut numbers = Sequence::new(alloc);
    for k in places.as_slice() {
        numbers.push(number_at(counts, *k))?;
    }
    Ok(numbers)
}

/// The number of the mark whose executable this is.
fn number_at(counts: &[u32], k: u32) -> u32
    ensures { result ≡ slice_index counts.now k }
{
    counts.get(k as usize).copied().unwrap_or_default()
}

/// For each executable, how many marks there are up to it and with it.
fn mark_counts(alloc: Global, execs: &ExecList) -> Result<Vec<u32>, NoMemory>
    ensures { IfOk result (λ counts. counts.items ≡ counts_of_marks execs.now) }
{
    let mut counts = Vec::new(alloc);
    let mut count = 0;
    for k in 0..execs.len() {
        count += u32::from(is_mark(execs, k));
        counts.push(count)?;
    }
    Ok(counts)
}

/// Whether an executable is a mark.
fn is_mark(execs: &ExecList, k: u32) -> bool
    requires index { k < length execs.now }
    requires short { length execs.now < 2 ^ 32 }
    ensures { result ≡ is_mark_at execs.now k }
{
    !follows_test(execs, k) && goes_on(execs, k) == k + 1
}

/// Whether the executable before this one is a test.
fn follows_test(execs: &ExecList, k: u32) -> bool
    requires { k < length execs.now }
    ensures { result ≡ follows_test_in execs.now k }
{
    k > 0 && is_test(execs.at(k - 1))
}

/// Whether an executable is a test.
fn is_test(exec: &Exec) -> bool
    ensures { result ≡ is_test_in (Some exec.now) }
{
    matches!(exec.kind, ExecKind::Test { .. })
}

/// Where an executable that does nothing goes on, and 0 for every other one.
fn goes_on(execs: &ExecList, k: u32) -> u32
    ensures { result ≡ goes_on_in (slice_get execs.now k) }
{
    match execs.as_slice().get(k as usize) {
        Some(
            Exec {
                kind: ExecKind::Pass { next },
                ..
            },
        ) => *next,
        _ => 0,
    }
}
