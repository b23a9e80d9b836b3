//! The statements that items become.

ghost use Rattle.std.specs.Prelude.{◌≡◌, ◌<◌, ◌+◌, ◌++◌, ◌^◌, ℕ, [], ◌∷◌, map, if◌then◌else◌, true, length, All, Option, option_to_list, IfOk, OnOk};
ghost use Rattle.closed_walks.specs.Graph.{edge_count};
ghost use Rattle.f77_tree.specs.CanRun.{CanExecute};
ghost use Rattle.f77_tree.specs.Control.{successors};
ghost use Rattle.cfg_build.specs.Flow.{flow};
ghost use Rattle.const_prop.specs.Closed.{words_on};
ghost use Rattle.const_prop.specs.KnownRows.{edges_of};
ghost use Rattle.const_prop.specs.Table.{knowns_of};
ghost use Rattle.simplified_forms.specs.Items.{own_edge};
ghost use Rattle.simplified_forms.specs.Plans.{answer, told, mark_in, IsScene, IsFoldedAt, IsChoice, IsStart};
ghost use Rattle.simplified_forms.specs.Simplified.{flat as all_lines, has_mark, last_jump, left_of, lines, rest};
ghost use Rattle.flat_programs.specs.declared.statements.Flat.TheVariants.{Mark, Jump};

use crate::plan::Plan;
use crate::scene::Scene;
use alias_classes::Classes;
use const_prop::Table;
use df_sequence::{NoMemory, Sequence};
use f77_tree::{ExecKind, Program, well_formed_programs_can_run};
use flat_programs::{Flat, FlatLine, FlatList};
use std::alloc::Global;

/// All statements of the simplified form of a program, in order. There is room at once for as many as are told.
pub(crate) fn statements<'a, const W: usize>(
    alloc: Global,
    p: &'a Program,
    c: &'a Classes<'a, W>,
    t: &'a Table<W>,
    checked: bool,
    plan: &'a Plan,
    count: u32,
) -> Result<FlatList, NoMemory>
    requires scene { IsScene p.now c.now t.now plan.now }
    requires edges { edges_of t.now.known ≡ edge_count (flow p.now.execs).graph }
    ensures few { IfOk result (λ flat. length flat < 2 ^ 31) }
    ensures flat { IfOk result (λ flat. flat ≡ all_lines p.now c.now (knowns_of t.now) checked (answer plan.now.ways.items.items)) }
{
    let mut flat = Sequence::with_capacity(alloc, count as usize)?;
    for k in 0..p.execs.len() {
        let edge = plan.edges[k as usize];
        let scene = Scene {
            p,
            c,
            t,
            checked,
            plan,
            k,
            edge,
        };
        append_executable(alloc, &scene, &mut flat)?;
    }
    Ok(flat)
}

/// Appends the statements that an executable becomes; there are none where it is no item.
fn append_executable<const W: usize>(
    alloc: Global,
    s: &Scene<W>,
    flat: &mut FlatList,
) -> Result<(), NoMemory>
    requires scene { IsScene s.now.p.now s.now.c.now s.now.t.now s.now.plan.now }
    requires edges { edges_of s.now.t.now.known ≡ edge_count (flow s.now.p.now.execs).graph }
    requires k { s.now.k < length s.now.p.now.execs }
    requires edge { s.now.edge ≡ own_edge s.now.p.now s.now.k }
    requires few { length flat.old < 2 ^ 31 }
    ensures { OnOk result (flat.new ≡ flat.old ++ lines s.now.p.now s.now.c.now (knowns_of s.now.t.now) s.now.checked (answer s.now.plan.now.ways.items.items) s.now.k) }
{
    if !s.plan.ways.items[s.k as usize] {
        return Ok(());
    }
    append_item(alloc, s, flat)
}

/// Appends the statements of an item: its mark, what is left of it, and its jump.
fn append_item<const W: usize>(
    alloc: Global,
    s: &Scene<W>,
    flat: &mut FlatList,
) -> Result<(), NoMemory>
    requires scene { IsScene s.now.p.now s.now.c.now s.now.t.now s.now.plan.now }
    requires edges { edges_of s.now.t.now.known ≡ edge_count (flow s.now.p.now.execs).graph }
    requires k { s.now.k < length s.now.p.now.execs }
    requires edge { s.now.edge ≡ own_edge s.now.p.now s.now.k }
    requires item { answer s.now.plan.now.ways.items.items s.now.k ≡ true }
    requires few { length flat.old < 2 ^ 31 }
    ensures { OnOk result (flat.new ≡ flat.old ++ lines s.now.p.now s.now.c.now (knowns_of s.now.t.now) s.now.checked (answer s.now.plan.now.ways.items.items) s.now.k) }
{
    well_formed_programs_can_run();
    let exec = s.p.execs.at(s.k);
    append(flat, exec.line, own_mark(s))?;
    append(flat, exec.line, left(alloc, s, &exec.kind)?)?;
    append(flat, exec.line, jump(s, &exec.kind))?;
    Ok(())
}

/// Appends a statement, if there is one.
fn append(flat: &mut FlatList, line: u32, stmt: Option<Flat>) -> Result<(), NoMemory>
    requires { length flat.old < 2 ^ 31 + 2 }
    ensures { OnOk result (flat.new ≡ flat.old ++ map (λ stmt. record { line = line; stmt = stmt }) (option_to_list stmt)) }
{
    match stmt {
        None => Ok(()),
        Some(stmt) => flat.push(FlatLine { line, stmt }),
    }
}

/// The mark of an item, if it has one.
pub(crate) fn own_mark<const W: usize>(s: &Scene<W>) -> Option<Flat>
    requires scene { IsScene s.now.p.now s.now.c.now s.now.t.now s.now.plan.now }
    requires k { s.now.k < length s.now.p.now.execs }
    ensures { option_to_list result ≡ (if has_mark s.now.p.now (knowns_of s.now.t.now) (answer s.now.plan.now.ways.items.items) s.now.k then Mark ∷ [] else []) }
{
    if s.plan.marked[s.k as usize] {
        Some(Flat::Mark)
    } else {
        None
    }
}

/// The jump of an item to the successor that is left, if it has one.
pub(crate) fn jump<const W: usize>(s: &Scene<W>, kind: &ExecKind) -> Option<Flat>
    requires scene { IsScene s.now.p.now s.now.c.now s.now.t.now s.now.plan.now }
    requires k { s.now.k < length s.now.p.now.execs }
    requires executable { All (λ x. x < length s.now.p.now.execs) (successors kind.now) }
    ensures { option_to_list result ≡ map (λ x. Jump (mark_in s.now.p.now (knowns_of s.now.t.now) s.now.plan.now x)) (last_jump (answer s.now.plan.now.ways.items.items) s.now.k (rest kind.now (told s.now.plan.now.ways.decided.items s.now.k))) }
{
    match s.plan.ways.last_jump(s.k, kind) {
        None => None,
        Some(x) => Some(Flat::Jump { target: s.mark(x) }),
    }
}

/// What is left of an executable itself, if anything is.
fn left<const W: usize>(
    alloc: Global,
    s: &Scene<W>,
    kind: &ExecKind,
) -> Result<Option<Flat>, NoMemory>
    requires scene { IsScene s.now.p.now s.now.c.now s.now.t.now s.now.plan.now }
    requires k { s.now.k < length s.now.p.now.execs }
    requires edge { IsFoldedAt s.now.edge (edges_of s.now.t.now.known) kind.now }
    requires executable { CanExecute s.now.p.now kind.now }
    ensures { IfOk result (λ stmt. option_to_list stmt ≡ left_of s.now.p.now s.now.checked (words_on s.now.c.now (knowns_of s.now.t.now) s.now.edge) (mark_in s.now.p.now (knowns_of s.now.t.now) s.now.plan.now) kind.now (told s.now.plan.now.ways.decided.items s.now.k)) }
{
    match kind {
        ExecKind::Assign { target, value, .. } => Ok(Some(Flat::Assignment {
            target: s.fold_access(alloc, target)?,
            value: s.fold(alloc, value)?,
        })),
        ExecKind::Print { items, .. } => Ok(Some(Flat::Output {
            items: s.fold_items(alloc, items)?,
        })),
        ExecKind::Pass { .. } => Ok(None),
        ExecKind::DoStart { .. } => start(alloc, s, kind),
        ExecKind::DoNext { .. } => Ok(None),
        ExecKind::End => Ok(Some(Flat::Finish)),
        _ => match s.plan.ways.decided[s.k as usize] {
            None => choice(alloc, s, kind),
            Some(_) => Ok(None),
        },
    }
}

/// The statement of a branch that doesn't always go one way.
fn choice<const W: usize>(
    alloc: Global,
    s: &Scene<W>,
    kind: &ExecKind,
) -> Result<Option<Flat>, NoMemory>
    requires scene { IsScene s.now.p.now s.now.c.now s.now.t.now s.now.plan.now }
    requires edge { IsFoldedAt s.now.edge (edges_of s.now.t.now.known) kind.now }
    requires executable { CanExecute s.now.p.now kind.now }
    ensures { IfOk result (λ stmt. IsChoice kind.now → option_to_list stmt ≡ left_of s.now.p.now s.now.checked (words_on s.now.c.now (knowns_of s.now.t.now) s.now.edge) (mark_in s.now.p.now (knowns_of s.now.t.now) s.now.plan.now) kind.now None) }
{
    match kind {
        ExecKind::Test { cond, yes, .. } => Ok(Some(Flat::LogicalIf {
            cond: s.fold(alloc, cond)?,
            target: s.mark(*yes),
        })),
        ExecKind::Sign {
            value,
            neg,
            zero,
            pos,
        } => Ok(Some(Flat::ArithmeticIf {
            value: s.fold(alloc, value)?,
            below: s.mark(*neg),
            at: s.mark(*zero),
            above: s.mark(*pos),
        })),
        ExecKind::Pick { value, targets, .. } => Ok(Some(Flat::ComputedGoTo {
            value: s.fold(alloc, value)?,
            targets: s.marks(alloc, targets)?,
        })),
        _ => Ok(None),
    }
}

/// The statement of an executable that begins a DO.
fn start<const W: usize>(
    alloc: Global,
    s: &Scene<W>,
    kind: &ExecKind,
) -> Result<Option<Flat>, NoMemory>
    requires scene { IsScene s.now.p.now s.now.c.now s.now.t.now s.now.plan.now }
    requires edge { IsFoldedAt s.now.edge (edges_of s.now.t.now.known) kind.now }
    requires executable { CanExecute s.now.p.now kind.now }
    ensures { IfOk result (λ stmt. (decided : Option ℕ) → IsStart kind.now → option_to_list stmt ≡ left_of s.now.p.now s.now.checked (words_on s.now.c.now (knowns_of s.now.t.now) s.now.edge) (mark_in s.now.p.now (knowns_of s.now.t.now) s.now.plan.now) kind.now decided) }
{
    match kind {
        ExecKind::DoStart {
            loop_no,
            var,
            first,
            last,
            step,
            ..
        } => Ok(Some(Flat::DoLoop {
            end: s.mark(s.plan.nexts[*loop_no as usize]),
            var: *var,
            first: s.fold(alloc, first)?,
            last: s.fold(alloc, last)?,
            step: s.fold(alloc, step)?,
        })),
        _ => Ok(None),
    }
}
