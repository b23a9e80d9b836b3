//! What is known of expressions before the program runs: their values, and whether they can trap.

ghost use Rattle.std.specs.Prelude.{◌≡◌, ◌↔◌, IsTrue, All, length};
ghost use Rattle.op_table.specs.Operators.{arity_of};
ghost use Rattle.f77_tree.specs.CanRun.{CanExecute, CanPrint};
ghost use Rattle.f77_tree.specs.Known.{known, MayTrap, AccessMayTrap, ItemMayTrap, ExecMayTrap};
ghost use Rattle.f77_tree.specs.Value.{IsExpression, IsAccess};

use crate::{Access, ExecKind, Expr, ExprList, Item, NameInfoList, Program};
use op_table::{Op, fold, may_trap};

// No operator takes more operands.
const MOST_OPERANDS: usize = 3;

/// What is known of an expression: its value, or none, and whether something in it can trap.
#[derive(Clone, Copy, Debug, PartialEq, Eq)]
pub struct Foresight {
    pub value: Option<i32>,
    pub may_trap: bool,
}

/// What is known of an expression. It takes no memory, and a few steps for each operator and subscript.
#[cycle(foresight)]
pub fn foresee(names: &NameInfoList, e: &Expr) -> Foresight
    requires { IsExpression names.now e.now }
    ensures value { result.value ≡ known e.now }
    ensures trap { IsTrue result.may_trap ↔ MayTrap names.now e.now }
{
    match e {
        Expr::Const(z) => Foresight {
            value: Some(*z),
            may_trap: false,
        },
        Expr::Truth(b) => Foresight {
            value: Some(i32::from(*b)),
            may_trap: false,
        },
        Expr::Input => Foresight {
            value: None,
            may_trap: true,
        },
        Expr::Read(access) => {
            access_fits(names, e, access);
            Foresight {
                value: None,
                may_trap: access_may_trap(names, access),
            }
        }
        Expr::Apply(op, args) => {
            operands_fit(names, e, *op, args);
            let mut operands = [None; MOST_OPERANDS];
            let mut count = 0;
            let mut risk = false;
            for arg in args.as_slice() {
                let operand = foresee(names, arg);
                operands[count] = operand.value;
                risk |= operand.may_trap;
                count += 1;
            }
            Foresight {
                value: fold(*op, &operands[..count]),
                may_trap: risk || may_trap(*op, &operands[..count]),
            }
        }
    }
}

// Whether something in an access can trap: in a subscript, or at the bounds of one.
#[cycle(foresight)]
fn access_may_trap(names: &NameInfoList, access: &Access) -> bool
    requires { IsAccess names.now access.now }
    ensures { IsTrue result ↔ AccessMayTrap names.now access.now }
{
    let dims = names.at(access.name).dims.as_slice();
    let mut k = 0;
    for sub in access.subs.as_slice() {
        let known = foresee(names, sub);
        let dim = &dims[k];
        if known.may_trap || may_trap(Op::Bound, &[known.value, Some(dim.lo), Some(dim.hi)]) {
            return true;
        }
        k += 1;
    }
    false
}

// Whether something in an item of output can trap.
fn item_may_trap(names: &NameInfoList, item: &Item) -> bool
    requires { CanPrint names.now item.now }
    ensures { IsTrue result ↔ ItemMayTrap names.now item.now }
{
    match item {
        Item::Value(e) => foresee(names, e).may_trap,
        Item::Chars(_) => false,
    }
}

/// Whether something in an executable can trap.
pub fn exec_may_trap(p: &Program, kind: &ExecKind) -> bool
    requires { CanExecute p.now kind.now }
    ensures { IsTrue result ↔ ExecMayTrap p.now.names kind.now }
{
    match kind {
        ExecKind::Assign { target, value, .. } => {
            access_may_trap(&p.names, target) || foresee(&p.names, value).may_trap
        }
        ExecKind::Print { items, .. } => items
            .as_slice()
            .iter()
            .any(|item| item_may_trap(&p.names, item)),
        ExecKind::Test { cond: e, .. }
        | ExecKind::Sign { value: e, .. }
        | ExecKind::Pick { value: e, .. } => foresee(&p.names, e).may_trap,
        ExecKind::DoStart {
            first,
            last,
            step,
            ..
        } => {
            let step = foresee(&p.names, step);
            foresee(&p.names, first).may_trap
                || foresee(&p.names, last).may_trap
                || step.may_trap
                || may_trap(Op::Step, &[step.value])
        }
        ExecKind::Pass { .. } | ExecKind::DoNext { .. } | ExecKind::End => false,
    }
}

// What an expression that fits the table of names reads is an access of the table.
fn access_fits(names: &NameInfoList, e: &Expr, a: &Access)
    requires form { e.now ≡ Expr.Read a.now }
    requires expression { IsExpression names.now e.now }
    ensures { IsAccess names.now a.now }
{}

// As many operands as the operator takes fit the table of names with the expression.
fn operands_fit(names: &NameInfoList, e: &Expr, op: Op, args: &ExprList)
    requires form { e.now ≡ Expr.Apply op args.now }
    requires expression { IsExpression names.now e.now }
    ensures as_many { length args.now ≡ arity_of op }
    ensures operands { All (IsExpression names.now) args.now }
{}
