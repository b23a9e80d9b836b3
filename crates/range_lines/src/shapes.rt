//! Subscripts that are a multiple of a variable and a constant.

ghost use Rattle.std.specs.Prelude.{◌≡◌, ◌≤◌, ◌^◌, pos, All, length, unsigned_abs, IfSome};
ghost use Rattle.op_table.specs.Operators.{arity_of};
ghost use Rattle.f77_tree.specs.Known.{known};
ghost use Rattle.f77_tree.specs.Value.{IsExpression};
ghost use Rattle.range_lines.specs.Shapes.{term_of as spec_term_of, sum as spec_sum, difference as spec_difference, product as spec_product, combined as spec_combined, shape_of as spec_shape_of, shape_at, lies_in};

use f77_tree::{Dim, Expr, ExprList, NameInfoList};
use op_table::{Op, fold};

/// No operator takes more operands.
pub(crate) const MOST_OPERANDS: usize = 3;

/// What an operand of a subscript is: a name that is read, a number that is known before the program runs, or neither.
#[derive(Clone, Copy, Debug, PartialEq, Eq)]
pub(crate) enum Term {
    Name(u32),
    Number(i32),
    Other,
}

/// A multiple of the variable with this name and a constant.
#[derive(Clone, Copy, Debug, PartialEq, Eq)]
pub(crate) struct Shape {
    pub(crate) variable: u32,
    pub(crate) factor: i32,
    pub(crate) constant: i64,
}

/// The known value of an expression. What is read isn't looked into.
pub(crate) fn known_value(names: &NameInfoList, e: &Expr) -> Option<i32>
    requires { IsExpression names.now e.now }
    ensures { result ≡ known e.now }
{
    match e {
        Expr::Const(z) => Some(*z),
        Expr::Truth(b) => Some(i32::from(*b)),
        Expr::Input | Expr::Read(_) => None,
        Expr::Apply(op, args) => {
            operands_fit(names, e, *op, args);
            let mut operands = [None; MOST_OPERANDS];
            let mut count = 0;
            for arg in args.as_slice() {
                operands[count] = known_value(names, arg);
                count += 1;
            }
            fold(*op, &operands[..count])
        }
    }
}

/// What a subscript is of a variable, if it has one of the forms V, V + k, k + V, V - k, k * V and V * k.
pub(crate) fn shape_of(names: &NameInfoList, e: &Expr) -> Option<Shape>
    requires { IsExpression names.now e.now }
    ensures shape { result ≡ spec_shape_of e.now }
    ensures small { IfSome result (λ shape. unsigned_abs shape.constant ≤ 2 ^ 31) }
{
    match e {
        Expr::Read(access) => Some(shifted(access.name, 0)),
        Expr::Apply(op, args) => {
            operands_fit(names, e, *op, args);
            if args.len() == 2 {
                combined(*op, term_of(names, args.at(0)), term_of(names, args.at(1)))
            } else {
                None
            }
        }
        Expr::Const(_) | Expr::Truth(_) | Expr::Input => None,
    }
}

/// Whether the number that a shape has at a value of its variable lies within the bounds of a dimension.
pub(crate) fn lies_inside(dim: Dim, shape: Shape, v: i32) -> bool
    requires { unsigned_abs shape.constant ≤ 2 ^ 31 }
    ensures { result ≡ lies_in dim (shape_at shape v) }
{
    let z = number_at(shape, v);
    i64::from(dim.lo) <= z && z <= i64::from(dim.hi)
}

// The number that a shape has at a value of its variable.
fn number_at(shape: Shape, v: i32) -> i64
    requires { unsigned_abs shape.constant ≤ 2 ^ 31 }
    ensures { result ≡ shape_at shape v }
{
    i64::from(shape.factor) * i64::from(v) + shape.constant
}

fn term_of(names: &NameInfoList, e: &Expr) -> Term
    requires { IsExpression names.now e.now }
    ensures { result ≡ spec_term_of e.now }
{
    if let Expr::Read(access) = e {
        return Term::Name(access.name);
    }
    match known_value(names, e) {
        Some(k) => Term::Number(k),
        None => Term::Other,
    }
}

// The shape of an operator of either dialect at two operands.
fn combined(op: Op, x: Term, y: Term) -> Option<Shape>
    ensures shape { result ≡ spec_combined op x y }
    ensures small { IfSome result (λ shape. unsigned_abs shape.constant ≤ 2 ^ 31) }
{
    match op {
        Op::Add | Op::AddChecked => sum(x, y),
        Op::Sub | Op::SubChecked => difference(x, y),
        Op::Mul | Op::MulChecked => product(x, y),
        _ => None,
    }
}

fn sum(x: Term, y: Term) -> Option<Shape>
    ensures shape { result ≡ spec_sum x y }
    ensures small { IfSome result (λ shape. unsigned_abs shape.constant ≤ 2 ^ 31) }
{
    match (x, y) {
        (Term::Name(v), Term::Number(k)) => Some(shifted(v, i64::from(k))),
        (Term::Number(k), Term::Name(v)) => Some(shifted(v, i64::from(k))),
        _ => None,
    }
}

fn difference(x: Term, y: Term) -> Option<Shape>
    ensures shape { result ≡ spec_difference x y }
    ensures small { IfSome result (λ shape. unsigned_abs shape.constant ≤ 2 ^ 31) }
{
    match (x, y) {
        (Term::Name(v), Term::Number(k)) => Some(shifted(v, -i64::from(k))),
        _ => None,
    }
}

fn product(x: Term, y: Term) -> Option<Shape>
    ensures shape { result ≡ spec_product x y }
    ensures small { IfSome result (λ shape. unsigned_abs shape.constant ≤ 2 ^ 31) }
{
    match (x, y) {
        (Term::Name(v), Term::Number(k)) => Some(multiple(v, k)),
        (Term::Number(k), Term::Name(v)) => Some(multiple(v, k)),
        _ => None,
    }
}

// The variable and a constant.
fn shifted(variable: u32, constant: i64) -> Shape
    ensures { result ≡ record { variable = variable; factor = pos 1; constant = constant } }
{
    Shape {
        variable,
        factor: 1,
        constant,
    }
}

// A multiple of the variable.
fn multiple(variable: u32, factor: i32) -> Shape
    ensures { result ≡ record { variable = variable; factor = factor; constant = pos 0 } }
{
    Shape {
        variable,
        factor,
        constant: 0,
    }
}

/// As many operands as the operator takes fit the table of names with the expression.
pub(crate) fn operands_fit(names: &NameInfoList, e: &Expr, op: Op, args: &ExprList)
    requires form { e.now ≡ Expr.Apply op args.now }
    requires expression { IsExpression names.now e.now }
    ensures as_many { length args.now ≡ arity_of op }
    ensures operands { All (IsExpression names.now) args.now }
{}
