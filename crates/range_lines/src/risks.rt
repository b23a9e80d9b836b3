//! Which executables may trap, where subscripts that are seen in range don't count.

ghost use Rattle.std.specs.Prelude.{◌≡◌, ◌<◌, ◌*◌, ◌↔◌, IfOk, IsTrue};
ghost use Rattle.class_set.specs.Members.{IsWidth};
ghost use Rattle.f77_tree.specs.CanRun.{CanExecute, CanPrint};
ghost use Rattle.f77_tree.specs.Known.{known, MayTrapBut, SubscriptMayTrap, AccessMayTrapBut, ItemMayTrapBut, ExecMayTrapBut};
ghost use Rattle.f77_tree.specs.Value.{IsExpression, IsAccess};
ghost use Rattle.f77_tree.specs.WellFormed.{IsWellFormed};
ghost use Rattle.alias_classes.specs.Classes.{IsClasses, class_count};
ghost use Rattle.range_lines.specs.RangeRisks.{AreRangeRisks, IsMarked};

use crate::marks::{access_fits, is_seen};
use crate::ranges::{advance, executable_fits, no_reaches};
use crate::reaches::{Reach, loop_reaches};
use crate::shapes::{MOST_OPERANDS, operands_fit};
use alias_classes::Classes;
use df_sequence::NoMemory;
use f77_tree::{Access, Dim, ExecKind, Expr, Foresight, Item, NameInfoList, Program};
use op_table::{Op, fold, may_trap};
use std::alloc::Global;

/// For each executable whether something in it can trap but in its subscripts that are seen in range. It takes a few steps for each
/// operation of the program, and some for each class that an executable writes.
///
/// # Errors
///
/// NoMemory, where an allocation failed.
pub fn range_risks<const W: usize>(
    alloc: Global,
    p: &Program,
    c: &Classes<W>,
) -> Result<Vec<bool>, NoMemory>
    requires width { IsWidth W }
    requires program { IsWellFormed p.now }
    requires classes { IsClasses p.now c.now }
    requires few { class_count c.now < 64 * W }
    ensures { IfOk result (λ flags. AreRangeRisks p.now c.now flags.items) }
{
    let reaches = loop_reaches(alloc, p, c)?;
    let mut current = no_reaches(alloc, p.names.len())?;
    let mut flags = Vec::new(alloc);
    for k in 0..p.execs.len() {
        let exec = p.execs.at(k);
        executable_fits(p, k, exec);
        flags.push(exec_risk(p, &current, k, &exec.kind))?;
        advance(p, &mut current, exec, reaches[k as usize]);
    }
    Ok(flags)
}

// Whether something in the executable k can trap but in its subscripts that are marked. Of each name `current` tells how far the last
// DO before k reaches whose variable it is.
fn exec_risk(p: &Program, current: &[Option<Reach>], k: u32, kind: &ExecKind) -> bool
    requires { CanExecute p.now kind.now }
    ensures { IsTrue result ↔ ExecMayTrapBut (IsMarked current.now k) p.now.names kind.now }
{
    match kind {
        ExecKind::Assign { target, value, .. } => {
            access_risk(&p.names, current, k, target)
                || foresee(&p.names, current, k, value).may_trap
        }
        ExecKind::Print { items, .. } => items
            .as_slice()
            .iter()
            .any(|item| item_risk(&p.names, current, k, item)),
        ExecKind::Test { cond: e, .. }
        | ExecKind::Sign { value: e, .. }
        | ExecKind::Pick { value: e, .. } => foresee(&p.names, current, k, e).may_trap,
        ExecKind::DoStart {
            first,
            last,
            step,
            ..
        } => {
            let step = foresee(&p.names, current, k, step);
            foresee(&p.names, current, k, first).may_trap
                || foresee(&p.names, current, k, last).may_trap
                || step.may_trap
                || may_trap(Op::Step, &[step.value])
        }
        ExecKind::Pass { .. } | ExecKind::DoNext { .. } | ExecKind::End => false,
    }
}

// Whether something in an item of output can.
fn item_risk(names: &NameInfoList, current: &[Option<Reach>], k: u32, item: &Item) -> bool
    requires { CanPrint names.now item.now }
    ensures { IsTrue result ↔ ItemMayTrapBut (IsMarked current.now k) names.now item.now }
{
    match item {
        Item::Value(e) => foresee(names, current, k, e).may_trap,
        Item::Chars(_) => false,
    }
}

// What is known of an expression: its value, and whether something in it can trap but in marked subscripts.
#[cycle(risk)]
fn foresee(names: &NameInfoList, current: &[Option<Reach>], k: u32, e: &Expr) -> Foresight
    requires { IsExpression names.now e.now }
    ensures value { result.value ≡ known e.now }
    ensures trap { IsTrue result.may_trap ↔ MayTrapBut (IsMarked current.now k) names.now e.now }
{
    match e {
        Expr::Const(z) => Foresight {
            value: Some(*z),
            may_trap: false,
        },
        Expr::Truth(b) => Foresight {
            value: Some(i32::from(*b)),
            may_trap: false,
        },
        Expr::Input => Foresight {
            value: None,
            may_trap: true,
        },
        Expr::Read(access) => {
            access_fits(names, e, access);
            Foresight {
                value: None,
                may_trap: access_risk(names, current, k, access),
            }
        }
        Expr::Apply(op, args) => {
            operands_fit(names, e, *op, args);
            let mut operands = [None; MOST_OPERANDS];
            let mut count = 0;
            let mut risk = false;
            for arg in args.as_slice() {
                let operand = foresee(names, current, k, arg);
                operands[count] = operand.value;
                risk |= operand.may_trap;
                count += 1;
            }
            Foresight {
                value: fold(*op, &operands[..count]),
                may_trap: risk || may_trap(*op, &operands[..count]),
            }
        }
    }
}

// Whether something in an access can: in a subscript that isn't marked, or at the bounds of one.
#[cycle(risk)]
fn access_risk(names: &NameInfoList, current: &[Option<Reach>], k: u32, access: &Access) -> bool
    requires { IsAccess names.now access.now }
    ensures { IsTrue result ↔ AccessMayTrapBut (IsMarked current.now k) names.now access.now }
{
    let dims = names.at(access.name).dims.as_slice();
    let mut at = 0;
    for sub in access.subs.as_slice() {
        let told = foresee(names, current, k, sub);
        if subscript_risk(names, current, k, sub, dims[at], told) {
            return true;
        }
        at += 1;
    }
    false
}

// Whether a subscript can, of which so much is known: where it isn't marked, and something in it can, or it may lie outside its bounds.
fn subscript_risk(
    names: &NameInfoList,
    current: &[Option<Reach>],
    k: u32,
    sub: &Expr,
    dim: Dim,
    told: Foresight,
) -> bool
    requires expression { IsExpression names.now sub.now }
    requires value { told.value ≡ known sub.now }
    requires trap { IsTrue told.may_trap ↔ MayTrapBut (IsMarked current.now k) names.now sub.now }
    ensures { IsTrue result ↔ SubscriptMayTrap (IsMarked current.now k) dim sub.now (MayTrapBut (IsMarked current.now k) names.now sub.now) }
{
    if is_seen(names, current, k, sub, dim) {
        return false;
    }
    told.may_trap || may_trap(Op::Bound, &[told.value, Some(dim.lo), Some(dim.hi)])
}
