//! Expressions in which constants stand for what is known.

ghost use Rattle.std.specs.Prelude.{◌≡◌, ◌<◌, ◌+◌, map, All, length, IfOk, Some};
ghost use Rattle.f77_tree.specs.KnownWith.{known_with};
ghost use Rattle.f77_tree.specs.Value.{IsAccess, IsExpression};
ghost use Rattle.f77_tree.specs.WellFormed.{IsWellFormed};
ghost use Rattle.op_table.specs.Operators.{arity_of};
ghost use Rattle.alias_classes.specs.Classes.{IsClasses, class_count};
ghost use Rattle.const_prop.specs.Closed.{words_on};
ghost use Rattle.const_prop.specs.KnownRows.{edges_of};
ghost use Rattle.const_prop.specs.Table.{knowns_of};
ghost use Rattle.simplified_forms.specs.Folding.{folded};
ghost use Rattle.simplified_forms.specs.Literals.{literal as spec_literal};
ghost use Rattle.f77_tree.specs.Line.{kind_of_expression};

use crate::literals::literal;
use alias_classes::Classes;
use const_prop::Table;
use df_sequence::{NoMemory, Sequence};
use f77_meaning::kind_of_value;
use f77_tree::{Access, Expr, ExprList, NameInfoList, Program};
use op_table::{Op, fold};
use smallvec::SmallVec;
use std::alloc::Global;

/// An expression in which constants stand for what is known, and its value, where that is known.
#[derive(Drop)]
pub struct FoldedExpr {
    /// The expression with constants.
    pub tree: Expr,
    /// Its value, where that is known.
    pub known: Option<i32>,
}

/// The same of some expressions, one after another.
#[derive(Drop)]
pub(crate) struct FoldedExprs {
    pub(crate) trees: ExprList,
    pub(crate) known: SmallVec<Option<i32>, 4>,
}

/// The expression in which constants stand for what is known where control takes an edge. It takes a few steps for each part of the
/// expression.
#[cycle(fold)]
pub fn fold_expr<const W: usize>(
    alloc: Global,
    p: &Program,
    c: &Classes<W>,
    t: &Table<W>,
    checked: bool,
    edge: u32,
    e: &Expr,
) -> Result<FoldedExpr, NoMemory>
    requires program { IsWellFormed p.now }
    requires classes { IsClasses p.now c.now }
    requires lines { t.now.known.lines ≡ class_count c.now + 1 }
    requires edge { edge < edges_of t.now.known }
    requires expression { IsExpression p.now.names e.now }
    ensures tree { IfOk result (λ f. f.tree ≡ folded p.now.names checked (words_on c.now (knowns_of t.now) edge) e.now) }
    ensures known { IfOk result (λ f. f.known ≡ known_with p.now.names (words_on c.now (knowns_of t.now) edge) e.now) }
{
    match e {
        Expr::Const(z) => Ok(FoldedExpr {
            tree: Expr::Const(*z),
            known: Some(*z),
        }),
        Expr::Truth(b) => Ok(FoldedExpr {
            tree: Expr::Truth(*b),
            known: Some(i32::from(*b)),
        }),
        Expr::Input => Ok(FoldedExpr {
            tree: Expr::Input,
            known: None,
        }),
        Expr::Read(access) => {
            access_fits(&p.names, e, access);
            if let Some(z) = t.known_value(p, c, edge, e) {
                return known_as(alloc, &p.names, checked, e, z);
            }
            let FoldedExprs { trees, known: _ } = fold_all(
                alloc,
                p,
                c,
                t,
                checked,
                edge,
                &access.subs,
            )?;
            Ok(FoldedExpr {
                tree: Expr::Read(Access {
                    name: access.name,
                    subs: trees,
                }),
                known: None,
            })
        }
        Expr::Apply(op, args) => {
            operands_fit(&p.names, e, *op, args);
            let FoldedExprs { trees, known } = fold_all(alloc, p, c, t, checked, edge, args)?;
            if let Some(z) = fold(*op, known.as_slice()) {
                return known_as(alloc, &p.names, checked, e, z);
            }
            Ok(FoldedExpr {
                tree: Expr::Apply(*op, trees),
                known: None,
            })
        }
    }
}

/// The same, where the parts of an operator whose value is known aren't looked at one by one. It is for whole expressions: each part
/// would be looked at again for each operator around it.
#[tactic(auto, using(crate::proofs::FoldedWholes::whole_known))]
pub(crate) fn fold_whole<const W: usize>(
    alloc: Global,
    p: &Program,
    c: &Classes<W>,
    t: &Table<W>,
    checked: bool,
    edge: u32,
    e: &Expr,
) -> Result<FoldedExpr, NoMemory>
    requires program { IsWellFormed p.now }
    requires classes { IsClasses p.now c.now }
    requires lines { t.now.known.lines ≡ class_count c.now + 1 }
    requires edge { edge < edges_of t.now.known }
    requires expression { IsExpression p.now.names e.now }
    ensures { IfOk result (λ f. f.tree ≡ folded p.now.names checked (words_on c.now (knowns_of t.now) edge) e.now) }
{
    if let Expr::Apply(op, args) = e {
        operands_fit(&p.names, e, *op, args);
        if let Some(z) = t.known_value(p, c, edge, e) {
            return known_as(alloc, &p.names, checked, e, z);
        }
    }
    fold_expr(alloc, p, c, t, checked, edge, e)
}

/// Expressions in which constants stand for what is known where control takes an edge.
#[cycle(fold)]
pub(crate) fn fold_all<const W: usize>(
    alloc: Global,
    p: &Program,
    c: &Classes<W>,
    t: &Table<W>,
    checked: bool,
    edge: u32,
    es: &ExprList,
) -> Result<FoldedExprs, NoMemory>
    requires program { IsWellFormed p.now }
    requires classes { IsClasses p.now c.now }
    requires lines { t.now.known.lines ≡ class_count c.now + 1 }
    requires edge { edge < edges_of t.now.known }
    requires expressions { All (IsExpression p.now.names) es.now }
    ensures trees { IfOk result (λ f. f.trees ≡ map (folded p.now.names checked (words_on c.now (knowns_of t.now) edge)) es.now) }
    ensures known { IfOk result (λ f. f.known.items ≡ map (known_with p.now.names (words_on c.now (knowns_of t.now) edge)) es.now) }
{
    let mut trees = Sequence::with_capacity(alloc, es.len() as usize)?;
    let mut known = SmallVec::new(alloc);
    for e in es.as_slice() {
        let f = fold_expr(alloc, p, c, t, checked, edge, e)?;
        trees.push(f.tree)?;
        known.push(f.known)?;
    }
    Ok(FoldedExprs { trees, known })
}

/// The literal of the known value of an expression.
fn known_as(
    alloc: Global,
    names: &NameInfoList,
    checked: bool,
    e: &Expr,
    z: i32,
) -> Result<FoldedExpr, NoMemory>
    requires { IsExpression names.now e.now }
    ensures tree { IfOk result (λ f. f.tree ≡ spec_literal checked (kind_of_expression names.now e.now) z) }
    ensures known { IfOk result (λ f. f.known ≡ Some z) }
{
    Ok(FoldedExpr {
        tree: literal(alloc, checked, kind_of_value(e, names), z)?,
        known: Some(z),
    })
}

// What an expression that fits the table of names reads is an access of the table.
fn access_fits(names: &NameInfoList, e: &Expr, a: &Access)
    requires form { e.now ≡ Expr.Read a.now }
    requires expression { IsExpression names.now e.now }
    ensures { IsAccess names.now a.now }
{}

// As many operands as the operator takes fit the table of names with the expression.
fn operands_fit(names: &NameInfoList, e: &Expr, op: Op, args: &ExprList)
    requires form { e.now ≡ Expr.Apply op args.now }
    requires expression { IsExpression names.now e.now }
    ensures as_many { length args.now ≡ arity_of op }
    ensures operands { All (IsExpression names.now) args.now }
{}
