//! How many statements items become. None of them is made.

ghost use Rattle.std.specs.Prelude.{◌≡◌, ◌<◌, ◌≤◌, true, length, option_to_list};
ghost use Rattle.const_prop.specs.Table.{knowns_of};
ghost use Rattle.simplified_forms.specs.Plans.{answer, IsScene};
ghost use Rattle.simplified_forms.specs.Simplified.{flat as all_lines, lines};
ghost use Rattle.simplified_forms.specs.StatementCounts.{left_count as count_left};

use crate::plan::Plan;
use crate::scene::Scene;
use crate::statements::{jump, own_mark};
use alias_classes::Classes;
use const_prop::Table;
use f77_tree::{ExecKind, Program, well_formed_programs_can_run};
use flat_programs::Flat;

/// How many statements the simplified form of a program has.
pub(crate) fn statement_count<'a, const W: usize>(
    p: &'a Program,
    c: &'a Classes<'a, W>,
    t: &'a Table<W>,
    checked: bool,
    plan: &'a Plan,
) -> u32
    requires { IsScene p.now c.now t.now plan.now }
    ensures { result ≡ length (all_lines p.now c.now (knowns_of t.now) checked (answer plan.now.ways.items.items)) }
{
    let mut count = 0;
    for k in 0..p.execs.len() {
        let edge = plan.edges[k as usize];
        let scene = Scene {
            p,
            c,
            t,
            checked,
            plan,
            k,
            edge,
        };
        count += line_count(&scene);
    }
    count
}

/// How many statements an executable becomes; there are none where it is no item.
fn line_count<const W: usize>(s: &Scene<W>) -> u32
    requires scene { IsScene s.now.p.now s.now.c.now s.now.t.now s.now.plan.now }
    requires k { s.now.k < length s.now.p.now.execs }
    ensures count { result ≡ length (lines s.now.p.now s.now.c.now (knowns_of s.now.t.now) s.now.checked (answer s.now.plan.now.ways.items.items) s.now.k) }
    ensures most { result ≤ 3 }
{
    if !s.plan.ways.items[s.k as usize] {
        return 0;
    }
    item_count(s)
}

/// How many statements an item becomes: its mark, what is left of it, and its jump.
fn item_count<const W: usize>(s: &Scene<W>) -> u32
    requires scene { IsScene s.now.p.now s.now.c.now s.now.t.now s.now.plan.now }
    requires k { s.now.k < length s.now.p.now.execs }
    requires item { answer s.now.plan.now.ways.items.items s.now.k ≡ true }
    ensures count { result ≡ length (lines s.now.p.now s.now.c.now (knowns_of s.now.t.now) s.now.checked (answer s.now.plan.now.ways.items.items) s.now.k) }
    ensures most { result ≤ 3 }
{
    well_formed_programs_can_run();
    let exec = s.p.execs.at(s.k);
    let marks = count_of(own_mark(s));
    let own = left_count(&exec.kind, s.plan.ways.decided[s.k as usize]);
    let jumps = count_of(jump(s, &exec.kind));
    marks + own + jumps
}

/// How many statements these are.
fn count_of(stmt: Option<Flat>) -> u32
    ensures count { result ≡ length (option_to_list stmt) }
    ensures most { result ≤ 1 }
{
    match stmt {
        None => 0,
        Some(_) => 1,
    }
}

/// How many statements are left of an executable itself.
fn left_count(kind: &ExecKind, decided: Option<u32>) -> u32
    ensures count { result ≡ count_left kind.now decided }
    ensures most { result ≤ 1 }
{
    match kind {
        ExecKind::Assign { .. } => 1,
        ExecKind::Print { .. } => 1,
        ExecKind::Pass { .. } => 0,
        ExecKind::Test { .. } => match decided {
            None => 1,
            Some(_) => 0,
        },
        ExecKind::Sign { .. } => match decided {
            None => 1,
            Some(_) => 0,
        },
        ExecKind::Pick { .. } => match decided {
            None => 1,
            Some(_) => 0,
        },
        ExecKind::DoStart { .. } => 1,
        ExecKind::DoNext { .. } => 0,
        ExecKind::End => 1,
    }
}
