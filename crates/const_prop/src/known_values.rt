//! What is known of expressions on an edge.

ghost use Rattle.std.specs.Prelude.{◌≡◌, ◌<◌, ◌+◌, [], map, length, All};
ghost use Rattle.std.specs.Option.{option_map, option_and_then};
ghost use Rattle.op_table.specs.Operators.{arity_of};
ghost use Rattle.f77_tree.specs.Known.{known};
ghost use Rattle.f77_tree.specs.KnownWith.{known_with};
ghost use Rattle.f77_tree.specs.KnownWith.{known_word as spec_known_word};
ghost use Rattle.f77_tree.specs.Value.{ArePlaced, IsAccess, IsExpression, kind_of};
ghost use Rattle.f77_tree.specs.Value.{read_as as spec_read_as};
ghost use Rattle.f77_tree.specs.WellFormed.{IsWellFormed};
ghost use Rattle.alias_classes.specs.Classes.{IsClasses, class_count};
ghost use Rattle.const_prop.specs.Closed.{words_on};
ghost use Rattle.const_prop.specs.KnownRows.{edges_of};
ghost use Rattle.const_prop.specs.Table.{knowns};

use crate::known::Known;
use crate::known_rows::KnownRows;
use alias_classes::{Classes, known_word};
use f77_tree::{Access, Expr, ExprList, Kind, NameInfoList, Program};
use op_table::{Op, fold};

// No operator takes more operands.
const MOST_OPERANDS: usize = 3;

/// The known value of an expression, where the lines of these values come by the edge.
pub(crate) fn known_value<const W: usize>(
    p: &Program,
    c: &Classes<W>,
    rows: &KnownRows<W>,
    edge: u32,
    e: &Expr,
) -> Option<i32>
    requires program { IsWellFormed p.now }
    requires placed { ArePlaced p.now.names p.now.words }
    requires classes { IsClasses p.now c.now }
    requires lines { rows.now.lines ≡ class_count c.now + 1 }
    requires edge { edge < edges_of rows.now }
    requires expression { IsExpression p.now.names e.now }
    ensures { result ≡ known_with p.now.names (words_on c.now (knowns rows.now []) edge) e.now }
{
    match e {
        Expr::Const(z) => Some(*z),
        Expr::Truth(b) => Some(i32::from(*b)),
        Expr::Input => None,
        Expr::Read(access) => {
            access_fits(&p.names, e, access);
            known_read(p, c, rows, edge, access)
        }
        Expr::Apply(op, args) => {
            operands_fit(&p.names, e, *op, args);
            let mut operands = [None; MOST_OPERANDS];
            let mut count = 0;
            for arg in args.as_slice() {
                operands[count] = known_value(p, c, rows, edge, arg);
                count += 1;
            }
            fold(*op, &operands[..count])
        }
    }
}

/// What is known of what an access reads: the one value of the word that it surely hits.
fn known_read<const W: usize>(
    p: &Program,
    c: &Classes<W>,
    rows: &KnownRows<W>,
    edge: u32,
    access: &Access,
) -> Option<i32>
    requires program { IsWellFormed p.now }
    requires placed { ArePlaced p.now.names p.now.words }
    requires classes { IsClasses p.now c.now }
    requires lines { rows.now.lines ≡ class_count c.now + 1 }
    requires edge { edge < edges_of rows.now }
    requires access { IsAccess p.now.names access.now }
    ensures { result ≡ option_map (spec_read_as (kind_of p.now.names access.now.name)) (option_and_then (words_on c.now (knowns rows.now []) edge) (spec_known_word p.now.names access.now.name (map known access.now.subs))) }
{
    let names = &p.names;
    let word = known_word(names, p.initial.as_slice(), access)?;
    match rows.get(c.of_word(word), edge) {
        Known::One(v) => Some(read_as(names.at(access.name).kind, v)),
        _ => None,
    }
}

/// A word as a name of this kind is read.
fn read_as(kind: Kind, z: i32) -> i32
    ensures { result ≡ spec_read_as kind z }
{
    match kind {
        Kind::Integer => z,
        Kind::Logical => i32::from(z != 0),
    }
}

// What an expression that fits the table of names reads is an access of the table.
fn access_fits(names: &NameInfoList, e: &Expr, a: &Access)
    requires form { e.now ≡ Expr.Read a.now }
    requires expression { IsExpression names.now e.now }
    ensures { IsAccess names.now a.now }
{}

// As many operands as the operator takes fit the table of names with the expression.
fn operands_fit(names: &NameInfoList, e: &Expr, op: Op, args: &ExprList)
    requires form { e.now ≡ Expr.Apply op args.now }
    requires expression { IsExpression names.now e.now }
    ensures as_many { length args.now ≡ arity_of op }
    ensures operands { All (IsExpression names.now) args.now }
{}
