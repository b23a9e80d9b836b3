//! The executables of a flat program.
ghost use Rattle.std.specs.Prelude.{◌≡◌, ◌+◌, ◌-◌, ◌<◌, ◌^◌, ◌++◌, map, length, Some, true, IfOk, OnOk};
ghost use Rattle.flat_programs.specs.Marks.{mark_at, loop_count as count_of_loops, is_loop, variable_in};
ghost use Rattle.flat_programs.specs.Executables.{executables, executables_at, first_of, following, increments, leading, marked as executable_of_mark, program_of as program_with};
ghost use Rattle.flat_programs.specs.FlatForm.{IsChoiceOrStart};
ghost use Rattle.flat_programs.specs.Flow.{IsFlow, IsTable};

use crate::flow::Flow;
use crate::{Flat, FlatLine, FlatList};
use df_sequence::{Copied, LabelList, NoMemory, Sequence};
use f77_tree::{Exec, ExecKind, ExecList, Program};
use std::alloc::Global;

/// The program with the declarations of another one and the executables of these statements. It takes time in proportion to their
/// length and the length of the declarations.
pub fn program_of(alloc: Global, q: &Program, flat: &FlatList) -> Result<Program, NoMemory>
    requires { length flat.now < 2 ^ 31 }
    ensures { IfOk result (λ p. p ≡ program_with q.now flat.now) }
{
    Ok(Program {
        names: q.names.copy(alloc)?,
        words: q.words,
        initial: q.initial.copy(alloc)?,
        commons: q.commons.copy(alloc)?,
        groups: q.groups.copy(alloc)?,
        inits: q.inits.copy(alloc)?,
        execs: executables_of(alloc, flat)?,
        loops: loop_count(flat),
    })
}

/// How many DOs there are.
pub fn loop_count(flat: &FlatList) -> u32
    ensures { result ≡ count_of_loops flat.now }
{
    let mut count = 0;
    for l in flat.as_slice() {
        if let Flat::DoLoop { .. } = &l.stmt {
            count += 1;
        }
    }
    count
}

/// The executables of these statements, in the order of the text (ANSI X3.9-1978, section 11).
pub fn executables_of(alloc: Global, flat: &FlatList) -> Result<ExecList, NoMemory>
    requires { length flat.now < 2 ^ 31 }
    ensures { IfOk result (λ execs. execs ≡ executables flat.now) }
{
    let flow = Flow::of(alloc, flat)?;
    let mut execs = Sequence::with_capacity(alloc, flat.len() as usize)?;
    for place in 0..flat.len() {
        append_executables(alloc, flat, &flow, place, &mut execs)?;
    }
    Ok(execs)
}

/// For each place, the index of the first executable of its statement; after them how many executables there are.
pub fn first_executables(alloc: Global, flat: &FlatList) -> Result<Vec<u32>, NoMemory>
    requires { length flat.now < 2 ^ 31 }
    ensures { IfOk result (λ first. IsTable (first_of flat.now) (length flat.now + 1) first.items) }
{
    let flow = Flow::of(alloc, flat)?;
    Ok(flow.first)
}

/// Appends the executables of the statement at a place.
fn append_executables(
    alloc: Global,
    flat: &FlatList,
    flow: &Flow,
    place: u32,
    execs: &mut ExecList,
) -> Result<(), NoMemory>
    requires flow { IsFlow flat.now flow.now }
    requires place { place < length flat.now }
    requires few { length execs.old < 2 ^ 32 - 2 }
    ensures { OnOk result (execs.new ≡ execs.old ++ executables_at flat.now place) }
{
    let l = flat.at(place);
    let kind = first_kind(alloc, flat, flow, place, &l.stmt)?;
    execs.push(Exec { line: l.line, kind })?;
    match second_kind(flat, flow, place, &l.stmt) {
        None => Ok(()),
        Some(kind) => execs.push(Exec { line: l.line, kind }),
    }
}

/// What the first executable of a statement at a place does.
fn first_kind(
    alloc: Global,
    flat: &FlatList,
    flow: &Flow,
    place: u32,
    stmt: &Flat,
) -> Result<ExecKind, NoMemory>
    requires flow { IsFlow flat.now flow.now }
    requires place { place < length flat.now }
    ensures { IfOk result (λ kind. kind ≡ leading flat.now place stmt.now) }
{
    let index = flow.first[place as usize];
    let next = flow.first[place as usize + 1];
    match stmt {
        Flat::Mark => Ok(ExecKind::Pass { next: index + 1 }),
        Flat::Assignment { target, value } => Ok(ExecKind::Assign {
            target: target.copy(alloc)?,
            value: value.copy(alloc)?,
            next,
        }),
        Flat::Output { items } => Ok(ExecKind::Print {
            items: items.copy(alloc)?,
            next,
        }),
        Flat::LogicalIf { cond, .. } => Ok(ExecKind::Test {
            cond: cond.copy(alloc)?,
            yes: index + 1,
            no: next,
        }),
        Flat::Jump { target } => Ok(ExecKind::Pass {
            next: flow.marked(flat, *target),
        }),
        Flat::Finish => Ok(ExecKind::End),
        _ => choice_or_start(alloc, flat, flow, place, stmt),
    }
}

/// What the executable of an arithmetic IF, a computed GO TO or a DO at a place does.
fn choice_or_start(
    alloc: Global,
    flat: &FlatList,
    flow: &Flow,
    place: u32,
    stmt: &Flat,
) -> Result<ExecKind, NoMemory>
    requires flow { IsFlow flat.now flow.now }
    requires place { place < length flat.now }
    ensures { IfOk result (λ kind. IsChoiceOrStart stmt.now → kind ≡ leading flat.now place stmt.now) }
{
    let next = flow.first[place as usize + 1];
    match stmt {
        Flat::ArithmeticIf {
            value,
            below,
            at,
            above,
        } => Ok(ExecKind::Sign {
            value: value.copy(alloc)?,
            neg: flow.marked(flat, *below),
            zero: flow.marked(flat, *at),
            pos: flow.marked(flat, *above),
        }),
        Flat::ComputedGoTo { value, targets } => Ok(ExecKind::Pick {
            value: value.copy(alloc)?,
            targets: marked_targets(alloc, flat, flow, targets)?,
            other: next,
        }),
        _ => start(alloc, flat, flow, place, stmt),
    }
}

/// What the first executable of a DO at a place does.
fn start(
    alloc: Global,
    flat: &FlatList,
    flow: &Flow,
    place: u32,
    stmt: &Flat,
) -> Result<ExecKind, NoMemory>
    requires flow { IsFlow flat.now flow.now }
    requires place { place < length flat.now }
    ensures { IfOk result (λ kind. is_loop stmt.now ≡ true → kind ≡ leading flat.now place stmt.now) }
{
    match stmt {
        Flat::DoLoop {
            end,
            var,
            first,
            last,
            step,
        } => Ok(ExecKind::DoStart {
            loop_no: flow.loops[place as usize],
            var: *var,
            first: first.copy(alloc)?,
            last: last.copy(alloc)?,
            step: step.copy(alloc)?,
            body: flow.first[place as usize + 1],
            exit: flow.beyond(flat, *end),
        }),
        _ => Ok(ExecKind::End),
    }
}

/// What the executable after the first one of a statement at a place does, if there is another.
fn second_kind(flat: &FlatList, flow: &Flow, place: u32, stmt: &Flat) -> Option<ExecKind>
    requires flow { IsFlow flat.now flow.now }
    requires place { place < length flat.now }
    ensures { result ≡ following flat.now place stmt.now }
{
    match stmt {
        Flat::Mark => increment_at(flat, flow, place),
        Flat::LogicalIf { target, .. } => Some(ExecKind::Pass {
            next: flow.marked(flat, *target),
        }),
        _ => None,
    }
}

/// The increment of the DO whose range ends at the mark at a place, if one ends there.
fn increment_at(flat: &FlatList, flow: &Flow, place: u32) -> Option<ExecKind>
    requires flow { IsFlow flat.now flow.now }
    requires place { place < length flat.now }
    ensures { result ≡ increments flat.now (mark_at flat.now place) (first_of flat.now (place + 1)) }
{
    let head = flow.ends[flow.numbers[place as usize] as usize];
    if head >= flat.len() {
        return None;
    }
    Some(ExecKind::DoNext {
        loop_no: flow.loops[head as usize],
        var: variable(flat.at(head)),
        body: flow.first[head as usize + 1],
        exit: flow.first[place as usize + 1],
    })
}

/// The variable of a DO, and 0 for another statement.
fn variable(l: &FlatLine) -> u32
    ensures { result ≡ variable_in (Some l.now) }
{
    match &l.stmt {
        Flat::DoLoop { var, .. } => *var,
        _ => 0,
    }
}

/// The executables of the marks with these numbers.
fn marked_targets(
    alloc: Global,
    flat: &FlatList,
    flow: &Flow,
    targets: &LabelList,
) -> Result<LabelList, NoMemory>
    requires { IsFlow flat.now flow.now }
    ensures { IfOk result (λ marked. marked ≡ map (executable_of_mark flat.now) targets.now) }
{
    let mut marked = Sequence::with_capacity(alloc, targets.len() as usize)?;
    for number in targets.as_slice() {
        marked.push(flow.marked(flat, *number))?;
    }
    Ok(marked)
}
