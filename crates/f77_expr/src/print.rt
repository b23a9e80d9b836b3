ghost use Rattle.std.specs.Prelude.{◌≡◌, ◌≤◌, ◌<◌, ◌++◌, List, [], map, length, codes, true, All, OnOk, OnErr};
ghost use Rattle.f77_tree.specs.declared.programs.NameInfo.{NameInfo};
ghost use Rattle.f77_tree.specs.Grammar.{IsGrammatical, Written, level, reading, spelling, spellings, left_level as left_of, right_level as right_of};
ghost use Rattle.f77_tree.specs.Kinds.{IsProper};
ghost use Rattle.f77_tree.specs.Name.{is_name};
ghost use Rattle.f77_expr.specs.Appending.{Appended, BeginsWith, arguments_text, listed_in, operator_of};
ghost use Rattle.f77_expr.specs.Constants.{HasConstants};
ghost use Rattle.f77_expr.specs.Operands.{AreOperands, AreSubscripts, operator_at, access_at};
ghost use Rattle.f77_expr.specs.Parsing.{IsReadAs};
ghost use Rattle.f77_expr.specs.Printing.{enclosed, plain as plain_of, printed, printed_text, raw_form};

use crate::appending::{append, append_number, append_truth};
use crate::extremes::Extreme;
use crate::operators::{levels_of, symbol};
use crate::printed_operators::{plain, printed_level};
use df_sequence::NoMemory;
use f77_tree::{Access, Expr, ExprList, NameInfoList, Program};
use op_table::Op;
use std::alloc::Global;

/// Appends the text of an expression of a program (ANSI X3.9-1978, section 6): with the brackets that the grammar needs,
/// with the arguments of nested MAX and MIN in one list where they are grouped from the left, and with checked operators
/// written as plain ones. Where there was no memory, a part of the text may have been appended.
pub fn print_expr(_alloc: Global, p: &Program, e: &Expr, out: &mut Vec<u8>) -> Result<(), NoMemory>
    requires { IsProper p.now.names e.now }
    ensures text { OnOk result (out.new.items ≡ out.old.items ++ printed_text p.now.names e.now) }
    ensures kept { OnErr result (BeginsWith out.new.items out.old.items) }
    ensures read { All (λ info. is_name info.name ≡ true) p.now.names → OnOk result (IsReadAs (printed_text p.now.names e.now) (raw_form p.now.names e.now)) }
    ensures shortest { OnOk result ((w : Written) → IsGrammatical w → reading w ≡ raw_form p.now.names e.now → length (printed_text p.now.names e.now) ≤ length (spelling w)) }
{
    print_at(0, e, &p.names, out)
}

// Appends an expression where one of at least this level may stand: between brackets where its own is lower.
#[cycle(printing)]
fn print_at(least: u8, e: &Expr, names: &NameInfoList, out: &mut Vec<u8>) -> Result<(), NoMemory>
    requires { IsProper names.now e.now }
    ensures text { Appended out.old.items (spelling (enclosed least (printed names.now e.now).alone)) out.new.items result }
    ensures constants { OnOk result (HasConstants e.now) }
{
    if least <= level_of(e) {
        return print_open(e, names, out);
    }
    append(b"(", out)?;
    print_open(e, names, out)?;
    append(b")", out)
}

// The level of an expression as it is printed.
fn level_of(e: &Expr) -> u8
    ensures { (names : List NameInfo) → IsProper names e.now → result ≡ level (printed names e.now).alone }
{
    match e {
        Expr::Apply(op, _) => printed_level(*op),
        _ => 8,
    }
}

// Appends an expression without brackets around it.
#[cycle(printing)]
fn print_open(e: &Expr, names: &NameInfoList, out: &mut Vec<u8>) -> Result<(), NoMemory>
    requires { IsProper names.now e.now }
    ensures text { Appended out.old.items (spelling (printed names.now e.now).alone) out.new.items result }
    ensures constants { OnOk result (HasConstants e.now) }
{
    match e {
        Expr::Const(z) => append_number(*z, out),
        Expr::Truth(b) => append_truth(*b, out),
        Expr::Input => Ok(()),
        Expr::Read(access) => print_element(access, names, out),
        Expr::Apply(op, args) => print_operator(*op, args, names, out),
    }
}

// Appends a scalar, or an array element.
#[cycle(printing)]
pub(crate) fn print_element(
    access: &Access,
    names: &NameInfoList,
    out: &mut Vec<u8>,
) -> Result<(), NoMemory>
    requires { AreSubscripts names.now access.now }
    ensures text { Appended out.old.items (spelling (access_at names.now access.now).alone) out.new.items result }
    ensures constants { OnOk result (All HasConstants access.now.subs) }
{
    let name = names.at(access.name).name.as_bytes();
    if access.subs.is_empty() {
        append(name, out)
    } else {
        print_call(name, &access.subs, names, out)
    }
}

// Appends an operator at its operands.
#[cycle(printing)]
fn print_operator(
    op: Op,
    args: &ExprList,
    names: &NameInfoList,
    out: &mut Vec<u8>,
) -> Result<(), NoMemory>
    requires { AreOperands names.now op args.now }
    ensures text { Appended out.old.items (spelling (operator_at names.now op args.now).alone) out.new.items result }
    ensures constants { OnOk result (All HasConstants args.now) }
{
    match op {
        Op::Neg | Op::NegChecked => print_prefixed(b"-", 6, args.at(0), names, out),
        Op::Not => print_prefixed(b".NOT.", 4, args.at(0), names, out),
        Op::Abs | Op::AbsChecked => print_call(b"ABS", args, names, out),
        Op::Mod => print_call(b"MOD", args, names, out),
        Op::Sign => print_call(b"SIGN", args, names, out),
        Op::Max => print_extreme(Extreme::Greatest, args, names, out),
        Op::Min => print_extreme(Extreme::Least, args, names, out),
        _ => print_between(op, args.at(0), args.at(1), names, out),
    }
}

// Appends a prefix and its operand, which has at least this level.
#[cycle(printing)]
fn print_prefixed(
    prefix: &[u8],
    least: u8,
    e: &Expr,
    names: &NameInfoList,
    out: &mut Vec<u8>,
) -> Result<(), NoMemory>
    requires { IsProper names.now e.now }
    ensures text { Appended out.old.items (prefix.now ++ spelling (enclosed least (printed names.now e.now).alone)) out.new.items result }
    ensures constants { OnOk result (HasConstants e.now) }
{
    append(prefix, out)?;
    print_at(least, e, names, out)
}

// Appends an operator between its operands.
#[cycle(printing)]
fn print_between(
    op: Op,
    a: &Expr,
    b: &Expr,
    names: &NameInfoList,
    out: &mut Vec<u8>,
) -> Result<(), NoMemory>
    requires left { IsProper names.now a.now }
    requires right { IsProper names.now b.now }
    ensures text { Appended out.old.items (spelling (Written.binary (plain_of op) (enclosed (left_of (plain_of op)) (printed names.now a.now).alone) (enclosed (right_of (plain_of op)) (printed names.now b.now).alone))) out.new.items result }
    ensures left { OnOk result (HasConstants a.now) }
    ensures right { OnOk result (HasConstants b.now) }
{
    let op = plain(op);
    let levels = levels_of(op);
    print_at(levels.left, a, names, out)?;
    append(symbol(op), out)?;
    print_at(levels.right, b, names, out)
}

// Appends a name, and arguments or subscripts between brackets.
#[cycle(printing)]
fn print_call(
    name: &[u8],
    args: &ExprList,
    names: &NameInfoList,
    out: &mut Vec<u8>,
) -> Result<(), NoMemory>
    requires some { 0 < length args.now }
    requires proper { All (IsProper names.now) args.now }
    ensures text { Appended out.old.items (name.now ++ codes "(" ++ arguments_text (map (printed names.now) args.now) ++ codes ")") out.new.items result }
    ensures constants { OnOk result (All HasConstants args.now) }
{
    append(name, out)?;
    append(b"(", out)?;
    print_arguments(args, names, out)?;
    append(b")", out)
}

// Appends arguments with commas between them.
#[cycle(printing)]
fn print_arguments(args: &ExprList, names: &NameInfoList, out: &mut Vec<u8>) -> Result<(), NoMemory>
    requires some { 0 < length args.now }
    requires proper { All (IsProper names.now) args.now }
    ensures text { Appended out.old.items (arguments_text (map (printed names.now) args.now)) out.new.items result }
    ensures constants { OnOk result (All HasConstants args.now) }
{
    print_at(0, args.at(0), names, out)?;
    for k in 1..args.len() {
        append(b",", out)?;
        print_at(0, args.at(k), names, out)?;
    }
    Ok(())
}

// Appends a MAX or a MIN of two operands.
#[cycle(printing)]
fn print_extreme(
    extreme: Extreme,
    args: &ExprList,
    names: &NameInfoList,
    out: &mut Vec<u8>,
) -> Result<(), NoMemory>
    requires { AreOperands names.now (operator_of extreme) args.now }
    ensures text { Appended out.old.items (spelling (operator_at names.now (operator_of extreme) args.now).alone) out.new.items result }
    ensures constants { OnOk result (All HasConstants args.now) }
{
    append(extreme.name(), out)?;
    append(b"(", out)?;
    print_listed(extreme, args, names, out)?;
    append(b")", out)
}

// Appends the arguments of a MAX or a MIN of two operands: those that the first gives, and the second.
#[cycle(printing)]
fn print_listed(
    extreme: Extreme,
    args: &ExprList,
    names: &NameInfoList,
    out: &mut Vec<u8>,
) -> Result<(), NoMemory>
    requires { AreOperands names.now (operator_of extreme) args.now }
    ensures text { Appended out.old.items (spellings (listed_in extreme (operator_at names.now (operator_of extreme) args.now))) out.new.items result }
    ensures constants { OnOk result (All HasConstants args.now) }
{
    print_first(extreme, args.at(0), names, out)?;
    append(b",", out)?;
    print_at(0, args.at(1), names, out)
}

// Appends the arguments that the first operand of a MAX or a MIN gives: its own where it is one too, else itself.
#[cycle(printing)]
fn print_first(
    extreme: Extreme,
    e: &Expr,
    names: &NameInfoList,
    out: &mut Vec<u8>,
) -> Result<(), NoMemory>
    requires { IsProper names.now e.now }
    ensures text { Appended out.old.items (spellings (listed_in extreme (printed names.now e.now))) out.new.items result }
    ensures constants { OnOk result (HasConstants e.now) }
{
    match extreme.operands(e) {
        Some(args) => print_listed(extreme, args, names, out),
        None => print_at(0, e, names, out),
    }
}
