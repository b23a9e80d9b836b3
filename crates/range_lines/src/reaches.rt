//! Which DOs are plain, and through which values their variables run.

ghost use Rattle.std.specs.Prelude.{◌≡◌, ◌≢◌, ◌<◌, ◌+◌, ◌-◌, ◌*◌, ◌+ℤ◌, ◌*ℤ◌, pos, Some, length, slice_get, IfOk};
ghost use Rattle.class_set.specs.Members.{IsWidth};
ghost use Rattle.op_table.specs.Trips.{trip_count};
ghost use Rattle.f77_tree.specs.CanRun.{CanExecute};
ghost use Rattle.f77_tree.specs.Known.{known};
ghost use Rattle.f77_tree.specs.Value.{IsExpression};
ghost use Rattle.f77_tree.specs.WellFormed.{IsWellFormed};
ghost use Rattle.alias_classes.specs.Classes.{IsClasses, class_count};
ghost use Rattle.loop_ranges.specs.Plain.{all_three};
ghost use Rattle.range_lines.specs.Reaches.{reach_with, increments_loop, IsReach, AreReaches, AreNextWrites};

use crate::shapes::known_value;
use crate::writes::{class_of, note, written};
use alias_classes::Classes;
use df_sequence::NoMemory;
use f77_tree::{Exec, ExecKind, Expr, NameInfoList, Program};
use op_table::do_count;
use std::alloc::Global;

/// The first and the last value of the variable of a plain DO, and the executable that increments it.
#[derive(Clone, Copy, Debug, PartialEq, Eq)]
pub(crate) struct Reach {
    pub(crate) first: i32,
    pub(crate) last: i32,
    pub(crate) next: u32,
}

/// For each executable that begins a plain DO how far that reaches.
pub(crate) fn loop_reaches<const W: usize>(
    alloc: Global,
    p: &Program,
    c: &Classes<W>,
) -> Result<Vec<Option<Reach>>, NoMemory>
    requires width { IsWidth W }
    requires program { IsWellFormed p.now }
    requires classes { IsClasses p.now c.now }
    requires few { class_count c.now < 64 * W }
    ensures { IfOk result (λ reaches. AreReaches p.now c.now reaches.items) }
{
    let end = p.execs.len();
    let mut reaches = vec![in alloc; None; end as usize]?;
    let mut next = vec![in alloc; end; 64 * W]?;
    for k in (0..end).rev() {
        let exec = p.execs.at(k);
        executable_fits(p, k, exec);
        reaches[k as usize] = reach_from(p, c, &next, k, exec);
        note(&mut next, &written(p, c, &exec.kind), k);
    }
    Ok(reaches)
}

// How far a plain DO reaches that an executable begins.
fn reach_from<const W: usize>(
    p: &Program,
    c: &Classes<W>,
    next: &[u32],
    k: u32,
    exec: &Exec,
) -> Option<Reach>
    requires program { IsWellFormed p.now }
    requires classes { IsClasses p.now c.now }
    requires few { class_count c.now < 64 * W }
    requires executable { slice_get p.now.execs k ≡ Some exec.now }
    requires executes { CanExecute p.now exec.now.kind }
    requires all { length next.now ≡ 64 * W }
    requires next { AreNextWrites p.now c.now (k + 1) next.now }
    ensures { IsReach p.now c.now k result }
{
    match &exec.kind {
        ExecKind::DoStart {
            loop_no,
            var,
            first,
            last,
            step,
            ..
        } => {
            let at = next[class_of(p, c, *var) as usize];
            if is_increment_of(p, at, *loop_no) {
                reach_of(&p.names, first, last, step, at)
            } else {
                None
            }
        }
        _ => None,
    }
}

// Whether an executable increments the DO of this number.
fn is_increment_of(p: &Program, k: u32, loop_no: u32) -> bool
    ensures { result ≡ increments_loop p.now.execs k loop_no }
{
    if k >= p.execs.len() {
        return false;
    }
    match p.execs.at(k).kind {
        ExecKind::DoNext { loop_no: n, .. } => n == loop_no,
        _ => false,
    }
}

// How far a DO with these parameters reaches that is incremented there, if the parameters are known and the range is executed.
fn reach_of(
    names: &NameInfoList,
    first: &Expr,
    last: &Expr,
    step: &Expr,
    next: u32,
) -> Option<Reach>
    requires first { IsExpression names.now first.now }
    requires last { IsExpression names.now last.now }
    requires step { IsExpression names.now step.now }
    ensures { result ≡ reach_with next (all_three (known first.now) (known last.now) (known step.now)) }
{
    let first = known_value(names, first)?;
    let last = known_value(names, last)?;
    let step = known_value(names, step)?;
    if step == 0 {
        return None;
    }
    let count = do_count(first, last, step);
    if count == 0 {
        return None;
    }
    Some(Reach {
        first,
        last: last_value(first, last, step, count),
        next,
    })
}

// The value of the variable of a DO in the last iteration.
fn last_value(first: i32, last: i32, step: i32, count: u64) -> i32
    requires step { step ≢ pos 0 }
    requires count { count ≡ trip_count first last step }
    requires some { 0 < count }
    ensures { result ≡ first +ℤ pos (count - 1) *ℤ step }
{
    (i64::from(first) + (count - 1) as i64 * i64::from(step)) as i32
}

// An executable of a well-formed program can run.
fn executable_fits(p: &Program, k: u32, exec: &Exec)
    requires program { IsWellFormed p.now }
    requires executable { slice_get p.now.execs k ≡ Some exec.now }
    ensures { CanExecute p.now exec.now.kind }
{}
