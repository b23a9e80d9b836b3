//! The texts of statements.
ghost use Rattle.std.specs.Prelude.{◌≡◌, ◌++◌, ◌<◌, ◌==◌, true, All, codes, decimal, OnOk, map, length};
ghost use Rattle.f77_tree.specs.Execution.{count_if, is_input, is_truth, words_taken};
ghost use Rattle.f77_tree.specs.Kinds.{IsAssignment, IsProper};
ghost use Rattle.f77_tree.specs.StatementGrammar.{item_text, step_text, with_commas};
ghost use Rattle.f77_tree.specs.WellFormed.{IsProperItem};
ghost use Rattle.f77_expr.specs.Printing.{name_at, printed_text};
ghost use Rattle.flat_programs.specs.declared.statements.Flat.TheVariants.{Assignment, Output, LogicalIf, ArithmeticIf, ComputedGoTo, DoLoop, Jump};
ghost use Rattle.flat_programs.specs.FlatForm.{IsProperFlat};
ghost use Rattle.flat_programs.specs.Shown.{is_one as is_one_of, shown, written_item, written_step};
ghost use Rattle.flat_programs.specs.Typeset.{blank, typeset};

use crate::Flat;
use crate::appending::{append, append_characters, append_comma, append_number};
use df_sequence::{LabelList, NoMemory};
use f77_expr::{print_access, print_expr};
use f77_tree::{Access, Expr, Item, ItemList, Program};
use op_table::Op;
use std::alloc::Global;

/// Appends the text of a statement.
pub(crate) fn append_statement(
    alloc: Global,
    p: &Program,
    stmt: &Flat,
    out: &mut Vec<u8>,
) -> Result<(), NoMemory>
    requires { IsProperFlat p.now.names stmt.now }
    ensures { OnOk result (out.new.items ≡ out.old.items ++ typeset (shown p.now.names stmt.now)) }
{
    match stmt {
        Flat::Mark => append(b"CONTINUE", out),
        Flat::Assignment { target, value } => append_assignment(alloc, p, target, value, out),
        Flat::Output { items } => append_output(alloc, p, items, out),
        Flat::LogicalIf { cond, target } => append_logical_if(alloc, p, cond, *target, out),
        Flat::ArithmeticIf {
            value,
            below,
            at,
            above,
        } => append_arithmetic_if(alloc, p, value, *below, *at, *above, out),
        Flat::ComputedGoTo { value, targets } => {
            append_computed_go_to(alloc, p, value, targets, out)
        }
        Flat::DoLoop {
            end,
            var,
            first,
            last,
            step,
        } => append_do_loop(alloc, p, *end, *var, first, last, step, out),
        Flat::Jump { target } => append_go_to(*target, out),
        Flat::Finish => append(b"END", out),
    }
}

/// Appends an assignment, or READ where the value takes data.
fn append_assignment(
    alloc: Global,
    p: &Program,
    target: &Access,
    value: &Expr,
    out: &mut Vec<u8>,
) -> Result<(), NoMemory>
    requires { IsAssignment p.now.names target.now value.now }
    ensures { OnOk result (out.new.items ≡ out.old.items ++ typeset (shown p.now.names (Assignment target.now value.now))) }
{
    if takes_data(value) {
        append(b"READ *,", out)?;
        return print_access(alloc, p, target, out);
    }
    print_access(alloc, p, target, out)?;
    append(b"=", out)?;
    print_expr(alloc, p, value, out)
}

/// Whether a value takes a word of the data.
fn takes_data(value: &Expr) -> bool
    ensures { result ≡ (words_taken value.now == 1) }
{
    match value {
        Expr::Input => true,
        Expr::Apply(op, args) => is_truth_of_input(*op, args.as_slice()),
        _ => false,
    }
}

/// Whether an operator at these operands takes a word of the data.
fn is_truth_of_input(op: Op, args: &[Expr]) -> bool
    ensures { result ≡ (count_if (is_truth op) (map is_input args.now) == 1) }
{
    matches!(op, Op::Truth) && args.len() == 1 && is_input(&args[0])
}

/// Whether an expression is the next word of the data.
fn is_input(e: &Expr) -> bool
    ensures { result ≡ is_input e.now }
{
    matches!(e, Expr::Input)
}

/// Appends a PRINT.
fn append_output(
    alloc: Global,
    p: &Program,
    items: &ItemList,
    out: &mut Vec<u8>,
) -> Result<(), NoMemory>
    requires { All (IsProperItem p.now.names) items.now }
    ensures { OnOk result (out.new.items ≡ out.old.items ++ typeset (shown p.now.names (Output items.now))) }
{
    append(b"PRINT *", out)?;
    for item in items.as_slice() {
        append(b",", out)?;
        append_item(alloc, p, item, out)?;
    }
    Ok(())
}

/// Appends an item of PRINT.
fn append_item(alloc: Global, p: &Program, item: &Item, out: &mut Vec<u8>) -> Result<(), NoMemory>
    requires { IsProperItem p.now.names item.now }
    ensures { OnOk result (out.new.items ≡ out.old.items ++ item_text (written_item p.now.names item.now)) }
{
    match item {
        Item::Value(e) => print_expr(alloc, p, e, out),
        Item::Chars(text) => append_characters(text.as_bytes(), out),
    }
}

/// Appends a logical IF.
fn append_logical_if(
    alloc: Global,
    p: &Program,
    cond: &Expr,
    target: u32,
    out: &mut Vec<u8>,
) -> Result<(), NoMemory>
    requires { IsProper p.now.names cond.now }
    ensures { OnOk result (out.new.items ≡ out.old.items ++ typeset (shown p.now.names (LogicalIf cond.now target))) }
{
    append(b"IF (", out)?;
    print_expr(alloc, p, cond, out)?;
    append(b") ", out)?;
    append_go_to(target, out)
}

/// Appends an arithmetic IF.
fn append_arithmetic_if(
    alloc: Global,
    p: &Program,
    value: &Expr,
    below: u32,
    at: u32,
    above: u32,
    out: &mut Vec<u8>,
) -> Result<(), NoMemory>
    requires { IsProper p.now.names value.now }
    ensures { OnOk result (out.new.items ≡ out.old.items ++ typeset (shown p.now.names (ArithmeticIf value.now below at above))) }
{
    append(b"IF (", out)?;
    print_expr(alloc, p, value, out)?;
    append(b") ", out)?;
    append_number(below, out)?;
    append(b",", out)?;
    append_number(at, out)?;
    append(b",", out)?;
    append_number(above, out)
}

/// Appends a computed GO TO.
fn append_computed_go_to(
    alloc: Global,
    p: &Program,
    value: &Expr,
    targets: &LabelList,
    out: &mut Vec<u8>,
) -> Result<(), NoMemory>
    requires { IsProper p.now.names value.now }
    ensures { OnOk result (out.new.items ≡ out.old.items ++ typeset (shown p.now.names (ComputedGoTo value.now targets.now))) }
{
    append(b"GO TO (", out)?;
    append_labels(targets, out)?;
    append(b"),", out)?;
    print_expr(alloc, p, value, out)
}

/// Appends labels with commas between them.
fn append_labels(labels: &LabelList, out: &mut Vec<u8>) -> Result<(), NoMemory>
    ensures { OnOk result (out.new.items ≡ out.old.items ++ with_commas (map decimal labels.now)) }
{
    for k in 0..labels.len() {
        append_comma(k, out)?;
        append_number(*labels.at(k), out)?;
    }
    Ok(())
}

/// Appends a DO.
fn append_do_loop(
    alloc: Global,
    p: &Program,
    end: u32,
    var: u32,
    first: &Expr,
    last: &Expr,
    step: &Expr,
    out: &mut Vec<u8>,
) -> Result<(), NoMemory>
    requires var { var < length p.now.names }
    requires first { IsProper p.now.names first.now }
    requires last { IsProper p.now.names last.now }
    requires step { IsProper p.now.names step.now }
    ensures { OnOk result (out.new.items ≡ out.old.items ++ typeset (shown p.now.names (DoLoop end var first.now last.now step.now))) }
{
    append_head(p, end, var, out)?;
    append_bounds(alloc, p, first, last, out)?;
    append_step(alloc, p, step, out)
}

/// Appends the label and the variable of a DO.
fn append_head(p: &Program, end: u32, var: u32, out: &mut Vec<u8>) -> Result<(), NoMemory>
    requires { var < length p.now.names }
    ensures { OnOk result (out.new.items ≡ out.old.items ++ (codes "DO " ++ decimal end ++ blank ++ name_at p.now.names var ++ codes "=")) }
{
    append(b"DO ", out)?;
    append_number(end, out)?;
    append(b" ", out)?;
    append(p.names.at(var).name.as_bytes(), out)?;
    append(b"=", out)
}

/// Appends the first and the last value of the variable of a DO.
fn append_bounds(
    alloc: Global,
    p: &Program,
    first: &Expr,
    last: &Expr,
    out: &mut Vec<u8>,
) -> Result<(), NoMemory>
    requires first { IsProper p.now.names first.now }
    requires last { IsProper p.now.names last.now }
    ensures { OnOk result (out.new.items ≡ out.old.items ++ (printed_text p.now.names first.now ++ codes "," ++ printed_text p.now.names last.now)) }
{
    print_expr(alloc, p, first, out)?;
    append(b",", out)?;
    print_expr(alloc, p, last, out)
}

/// Appends the step of a DO after a comma. A step of 1 isn't written.
fn append_step(alloc: Global, p: &Program, step: &Expr, out: &mut Vec<u8>) -> Result<(), NoMemory>
    requires { IsProper p.now.names step.now }
    ensures { OnOk result (out.new.items ≡ out.old.items ++ step_text (written_step p.now.names step.now)) }
{
    if is_one(step) {
        return Ok(());
    }
    append(b",", out)?;
    print_expr(alloc, p, step, out)
}

/// Whether an expression is the constant 1.
fn is_one(e: &Expr) -> bool
    ensures { result ≡ is_one_of e.now }
{
    match e {
        Expr::Const(z) => *z == 1,
        _ => false,
    }
}

/// Appends a GO TO.
fn append_go_to(target: u32, out: &mut Vec<u8>) -> Result<(), NoMemory>
    ensures { OnOk result (out.new.items ≡ out.old.items ++ codes "GO TO " ++ decimal target) }
{
    append(b"GO TO ", out)?;
    append_number(target, out)
}
