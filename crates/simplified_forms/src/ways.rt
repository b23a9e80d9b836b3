//! Where control goes on from the items of a program, and to which executables their statements jump.

ghost use Rattle.std.specs.Prelude.{◌≡◌, ◌<◌, ◌==◌, ◌||◌, ◌++◌, ◌∷◌, [], ℕ, All, length, slice_index, option_to_list, IfOk, IfSome};
ghost use Rattle.std.specs.List.{list_any};
ghost use Rattle.std.specs.Option.{option_map};
ghost use Rattle.op_table.specs.Trips.{at_least_zero};
ghost use Rattle.f77_tree.specs.Control.{successors};
ghost use Rattle.f77_tree.specs.WellFormed.{IsWellFormed};
ghost use Rattle.cfg_build.specs.Flow.{flow};
ghost use Rattle.const_prop.specs.Known.{one_of};
ghost use Rattle.const_prop.specs.Table.{knowns_of};
ghost use Rattle.simplified_forms.specs.Items.{own_piece};
ghost use Rattle.simplified_forms.specs.Plans.{answer, told, AreTold, AreWays, IsWays};
ghost use Rattle.simplified_forms.specs.Simplified.{decided as decided_out, own_jumps, is_next, jumps_by, last_jump, rest as left};
ghost use Rattle.simplified_forms.specs.Tables.{IsTable};

use crate::counts::counts;
use crate::items::items;
use cfg_build::Flow;
use const_prop::{Known, Table};
use df_sequence::{LabelList, NoMemory};
use f77_tree::{ExecKind, Program};
use std::alloc::Global;

/// Which executables are items, and where control goes on from them.
#[derive(Drop)]
pub(crate) struct Ways {
    /// For each executable whether it is an item.
    pub(crate) items: Vec<bool>,
    /// For each executable the out-edge that it always takes, counted from 0.
    pub(crate) decided: Vec<Option<u32>>,
    /// For each executable how many items stand before it, and after them how many there are.
    pub(crate) before: Vec<u32>,
}

impl Ways {
    /// The ways of a program by a table of constants, where `own` has the pieces that run its executables.
    pub(crate) fn of<const W: usize>(
        alloc: Global,
        p: &Program,
        f: &Flow,
        t: &Table<W>,
        own: &[u32],
    ) -> Result<Ways, NoMemory>
        requires program { IsWellFormed p.now }
        requires flow { f.now ≡ flow p.now.execs }
        requires pieces { length t.now.decisions ≡ f.now.graph.nodes }
        requires own { IsTable (own_piece p.now) (length p.now.execs) own.now }
        ensures { IfOk result (λ ways. IsWays p.now (knowns_of t.now) ways) }
    {
        let decided = decisions(alloc, p, f, t, own)?;
        let items = items(alloc, p, f, t, own)?;
        let before = counts(alloc, &items)?;
        Ok(Ways {
            items,
            decided,
            before,
        })
    }

    /// The executable to which an item jumps at last: the successor that is left, where that isn't the next item.
    pub(crate) fn last_jump(&self, k: u32, kind: &ExecKind) -> Option<u32>
        requires ways { AreWays self.now }
        requires k { k < length self.now.items.items }
        requires successors { All (λ s. s < length self.now.items.items) (successors kind.now) }
        ensures jump { option_to_list result ≡ last_jump (answer self.now.items.items) k (left kind.now (told self.now.decided.items k)) }
        ensures exists { IfSome result (λ s. s < length self.now.items.items) }
    {
        let Some(s) = rest(kind, self.decided[k as usize]) else {
            return None;
        };
        if self.is_next(k, s) {
            return None;
        }
        Some(s)
    }

    /// Whether an executable is the item after an item.
    fn is_next(&self, k: u32, s: u32) -> bool
        requires ways { AreWays self.now }
        requires k { k < length self.now.items.items }
        requires s { s < length self.now.items.items }
        ensures { result ≡ is_next (answer self.now.items.items) k s }
    {
        self.items[s as usize] && self.before[s as usize] == self.before[k as usize] + 1
    }
}

/// For each executable the out-edge that it always takes, counted from 0.
fn decisions<const W: usize>(
    alloc: Global,
    p: &Program,
    f: &Flow,
    t: &Table<W>,
    own: &[u32],
) -> Result<Vec<Option<u32>>, NoMemory>
    requires pieces { length t.now.decisions ≡ f.now.graph.nodes }
    requires own { IsTable (own_piece p.now) (length p.now.execs) own.now }
    ensures { IfOk result (λ decided. AreTold (decided_out p.now (knowns_of t.now)) (length p.now.execs) decided.items) }
{
    let mut decided = Vec::new(alloc);
    for k in 0..p.execs.len() {
        decided.push(out_of(decision_at(f, t, own[k as usize])))?;
    }
    Ok(decided)
}

/// What is known of the out-edge that control takes at a piece; nothing is, where there is no such piece.
fn decision_at<const W: usize>(f: &Flow, t: &Table<W>, piece: u32) -> Known
    requires { length t.now.decisions ≡ f.now.graph.nodes }
    ensures { result ≡ (knowns_of t.now).decision piece }
{
    if piece < f.pieces() {
        t.decision(piece)
    } else {
        Known::Nothing
    }
}

/// The one out-edge, if there is one.
fn out_of(decision: Known) -> Option<u32>
    ensures { result ≡ option_map at_least_zero (one_of decision) }
{
    match decision {
        Known::One(v) => Some(v.max(0).unsigned_abs()),
        _ => None,
    }
}

/// Notes the executables to which the statements of an item jump.
pub(crate) fn note_jumps(noted: &mut Vec<bool>, ways: &Ways, k: u32, kind: &ExecKind)
    requires ways { AreWays ways.now }
    requires k { k < length ways.now.items.items }
    requires size { length noted.old.items ≡ length ways.now.items.items }
    requires successors { All (λ s. s < length noted.old.items) (successors kind.now) }
    ensures size { length noted.new.items ≡ length noted.old.items }
    ensures noted { (s : ℕ) → s < length noted.old.items → answer noted.new.items s ≡ (answer noted.old.items s || list_any (λ x. x == s) (jumps_by (answer ways.now.items.items) k kind.now (told ways.now.decided.items k))) }
{
    note_own_jumps(noted, kind, ways.decided[k as usize]);
    note_one(noted, ways.last_jump(k, kind));
}

/// Notes the executables to which an executable jumps by itself.
fn note_own_jumps(noted: &mut Vec<bool>, kind: &ExecKind, decided: Option<u32>)
    requires { All (λ s. s < length noted.old.items) (successors kind.now) }
    ensures size { length noted.new.items ≡ length noted.old.items }
    ensures noted { (s : ℕ) → s < length noted.old.items → answer noted.new.items s ≡ (answer noted.old.items s || list_any (λ x. x == s) (own_jumps kind.now decided)) }
{
    if decided.is_some() {
        return;
    }
    match kind {
        ExecKind::Test { yes, .. } => note(noted, &[*yes]),
        ExecKind::Sign { neg, zero, pos, .. } => note(noted, &[*neg, *zero, *pos]),
        ExecKind::Pick { targets, .. } => note(noted, targets.as_slice()),
        _ => {}
    }
}

/// Notes an executable, if there is one.
fn note_one(noted: &mut Vec<bool>, one: Option<u32>)
    requires { IfSome one (λ s. s < length noted.old.items) }
    ensures size { length noted.new.items ≡ length noted.old.items }
    ensures noted { (s : ℕ) → s < length noted.old.items → answer noted.new.items s ≡ (answer noted.old.items s || list_any (λ x. x == s) (option_to_list one)) }
{
    if let Some(s) = one {
        noted[s as usize] = true;
    }
}

/// Notes these executables.
fn note(noted: &mut Vec<bool>, these: &[u32])
    requires { All (λ s. s < length noted.old.items) these.now }
    ensures size { length noted.new.items ≡ length noted.old.items }
    ensures noted { (s : ℕ) → s < length noted.old.items → answer noted.new.items s ≡ (answer noted.old.items s || list_any (λ x. x == s) these.now) }
{
    for s in these {
        noted[*s as usize] = true;
    }
}

/// The successor that is left after those to which an executable jumps by itself.
fn rest(kind: &ExecKind, decided: Option<u32>) -> Option<u32>
    ensures { result ≡ left kind.now decided }
{
    match kind {
        ExecKind::Assign { next, .. } => Some(*next),
        ExecKind::Print { next, .. } => Some(*next),
        ExecKind::Pass { next } => Some(*next),
        ExecKind::Test { yes, no, .. } => match decided {
            None => Some(*no),
            Some(i) => Some(at(&[*yes, *no], i)),
        },
        ExecKind::Sign { neg, zero, pos, .. } => match decided {
            None => None,
            Some(i) => Some(at(&[*neg, *zero, *pos], i)),
        },
        ExecKind::Pick { targets, other, .. } => match decided {
            None => Some(*other),
            Some(i) => Some(target_at(targets, *other, i)),
        },
        ExecKind::DoNext { exit, .. } => Some(*exit),
        ExecKind::DoStart { .. } => None,
        ExecKind::End => None,
    }
}

/// The number at a place of a list, or 0 where there is none.
fn at(list: &[u32], i: u32) -> u32
    ensures { result ≡ slice_index list.now i }
{
    if (i as usize) < list.len() {
        list[i as usize]
    } else {
        0
    }
}

/// The successor at a place of a computed GO TO, or 0 where there is none.
fn target_at(targets: &LabelList, other: u32, i: u32) -> u32
    ensures { result ≡ slice_index (targets.now ++ other ∷ []) i }
{
    if i < targets.len() {
        return at(targets.as_slice(), i);
    }
    if i == targets.len() {
        return other;
    }
    0
}
