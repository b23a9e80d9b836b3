//! The operations of the pieces of a program.

ghost use Rattle.std.specs.Prelude.{◌≡◌, ◌+◌, ◌^◌, ◌<◌, ◌≤◌, [], ◌∷◌, sum_by, All, length, map, slice_get, IfOk, OnOk};
ghost use Rattle.cfg_build.specs.Passes.{kind_in};
ghost use Rattle.f77_tree.specs.CanRun.{CanExecute, CanPrint, CanRun};
ghost use Rattle.f77_tree.specs.Operations.{HasFewOperations, access_operations, exec_operations, item_operations, operations};
ghost use Rattle.f77_tree.specs.Value.{ArePlaced, IsAccess, IsExpression};
ghost use Rattle.op_board.specs.Operations.{act_operations, assign_operations, begin_operations, branch_operations, decide_operations, ended, items_compiled, operations_of, print_operations};
ghost use Rattle.operation_lists.specs.CanPerform.{CanPerform, CanWork, IsLoop};
ghost use Rattle.operation_lists.specs.OperandLists.{row_after};
ghost use Rattle.operation_lists.specs.Seen.{operand_seen, operation_seen, row_seen, work_seen};

use crate::expressions::{compile, compile_place, place_operands};
use crate::operations::{Operands, Operation, Work, one_operand, push_operation, three_operands};
use crate::operators::operate;
use cfg_build::{Piece, PieceKind};
use df_sequence::NoMemory;
use f77_tree::{Access, ExecKind, Expr, Item, ItemList, Program};
use op_table::Op;
use smallvec::SmallVec;
use std::alloc::Global;

/// The operations of a piece, in the order in which they are evaluated. A piece whose executable is none of the program has
/// those of the end.
pub fn piece_operations<'a>(
    alloc: Global,
    p: &'a Program,
    piece: Piece,
) -> Result<Vec<Operation<'a>>, NoMemory>
    requires can_run { CanRun p.now }
    requires modest { HasFewOperations p.now }
    ensures operations { IfOk result (λ done. map operation_seen done.items ≡ operations_of p.now.names piece.kind (kind_in (slice_get p.now.execs piece.exec))) }
    ensures can { IfOk result (λ done. All (CanPerform p.now) done.items) }
    ensures few { IfOk result (λ done. length done.items ≤ 500) }
{
    if piece.exec < p.execs.len() {
        return operations_of(alloc, p, piece.kind, &p.execs.at(piece.exec).kind);
    }
    match piece.kind {
        PieceKind::Hold => lone_operation(alloc, p, Work::DecideFirst),
        _ => Ok(Vec::new(alloc)),
    }
}

// The operations of a piece that is a part of this executable.
fn operations_of<'a>(
    alloc: Global,
    p: &'a Program,
    kind: PieceKind,
    exec: &'a ExecKind,
) -> Result<Vec<Operation<'a>>, NoMemory>
    requires exec { CanExecute p.now exec.now }
    requires places { ArePlaced p.now.names p.now.words }
    requires modest { exec_operations exec.now ≤ 500 }
    ensures operations { IfOk result (λ done. map operation_seen done.items ≡ operations_of p.now.names kind exec.now) }
    ensures can { IfOk result (λ done. All (CanPerform p.now) done.items) }
    ensures few { IfOk result (λ done. length done.items ≤ 500) }
{
    match kind {
        PieceKind::Act => act_operations(alloc, p, exec),
        PieceKind::Branch => branch_operations(alloc, p, exec),
        PieceKind::Hold => lone_operation(alloc, p, Work::DecideFirst),
        _ => Ok(Vec::new(alloc)),
    }
}

// An operation with no operands, alone.
fn lone_operation<'a>(
    alloc: Global,
    p: &'a Program,
    work: Work<'a>,
) -> Result<Vec<Operation<'a>>, NoMemory>
    requires { CanWork p.now work 0 }
    ensures operations { IfOk result (λ done. map operation_seen done.items ≡ ended [] (work_seen work.entry) []) }
    ensures can { IfOk result (λ done. All (CanPerform p.now) done.items) }
    ensures few { IfOk result (λ done. length done.items ≤ 500) }
{
    let mut done = Vec::new(alloc);
    end_with(p, &mut done, work, SmallVec::new(alloc))?;
    Ok(done)
}

// Appends the last operation of a piece.
fn end_with<'a>(
    p: &Program,
    done: &mut Vec<Operation<'a>>,
    work: Work<'a>,
    operands: Operands,
) -> Result<(), NoMemory>
    requires work { CanWork p.now work (length operands.items) }
    requires room { length done.old.items < 2 ^ 32 }
    requires short { length operands.items ≤ 500 }
    requires can { All (CanPerform p.now) done.old.items }
    ensures operations { OnOk result (map operation_seen done.new.items ≡ ended (map operation_seen done.old.items) (work_seen work.entry) (map operand_seen operands.items)) }
    ensures can { OnOk result (All (CanPerform p.now) done.new.items) }
    ensures few { OnOk result (length done.new.items ≡ length done.old.items + 1) }
{
    let _operand = push_operation(done, work, operands)?;
    Ok(())
}

// The operations of an executable that is an act.
fn act_operations<'a>(
    alloc: Global,
    p: &'a Program,
    kind: &'a ExecKind,
) -> Result<Vec<Operation<'a>>, NoMemory>
    requires kind { CanExecute p.now kind.now }
    requires places { ArePlaced p.now.names p.now.words }
    requires modest { exec_operations kind.now ≤ 500 }
    ensures operations { IfOk result (λ done. map operation_seen done.items ≡ act_operations p.now.names kind.now) }
    ensures can { IfOk result (λ done. All (CanPerform p.now) done.items) }
    ensures few { IfOk result (λ done. length done.items ≤ 500) }
{
    match kind {
        ExecKind::Assign { target, value, .. } => assign_operations(alloc, p, target, value),
        ExecKind::Print { items, .. } => print_operations(alloc, p, items),
        ExecKind::DoStart {
            loop_no,
            var,
            first,
            last,
            step,
            ..
        } => begin_operations(alloc, p, *loop_no, *var, first, last, step),
        ExecKind::DoNext { loop_no, var, .. } => {
            lone_operation(alloc, p, Work::Advance(*loop_no, *var))
        }
        _ => Ok(Vec::new(alloc)),
    }
}

// The target's subscripts come first, then the value, and then the word is stored.
fn assign_operations<'a>(
    alloc: Global,
    p: &'a Program,
    target: &'a Access,
    value: &'a Expr,
) -> Result<Vec<Operation<'a>>, NoMemory>
    requires target { IsAccess p.now.names target.now }
    requires value { IsExpression p.now.names value.now }
    requires places { ArePlaced p.now.names p.now.words }
    requires modest { access_operations target.now + operations value.now ≤ 500 }
    ensures operations { IfOk result (λ done. map operation_seen done.items ≡ assign_operations p.now.names target.now value.now) }
    ensures can { IfOk result (λ done. All (CanPerform p.now) done.items) }
    ensures few { IfOk result (λ done. length done.items ≤ 500) }
{
    let mut done = Vec::new(alloc);
    let place = compile_place(alloc, p, &mut done, target)?;
    let z = compile(alloc, p, &mut done, value)?;
    let mut operands = place_operands(alloc, target, place)?;
    operands.push(z)?;
    end_with(p, &mut done, Work::Store(target), operands)?;
    Ok(done)
}

// The items are evaluated one after another, and then written as a line.
fn print_operations<'a>(
    alloc: Global,
    p: &'a Program,
    items: &'a ItemList,
) -> Result<Vec<Operation<'a>>, NoMemory>
    requires items { All (CanPrint p.now.names) items.now }
    requires places { ArePlaced p.now.names p.now.words }
    requires modest { sum_by item_operations items.now ≤ 500 }
    ensures operations { IfOk result (λ done. map operation_seen done.items ≡ print_operations p.now.names items.now) }
    ensures can { IfOk result (λ done. All (CanPerform p.now) done.items) }
    ensures few { IfOk result (λ done. length done.items ≤ 500) }
{
    let mut done = Vec::new(alloc);
    let operands = compile_items(alloc, p, &mut done, items)?;
    end_with(p, &mut done, Work::Write(items), operands)?;
    Ok(done)
}

// Appends the operations of items of output, and answers the operands that their values are.
#[tactic(auto, using(crate::proofs::ListLemmas::sum_left))]
fn compile_items<'a>(
    alloc: Global,
    p: &'a Program,
    done: &mut Vec<Operation<'a>>,
    items: &'a ItemList,
) -> Result<Operands, NoMemory>
    requires items { All (CanPrint p.now.names) items.now }
    requires places { ArePlaced p.now.names p.now.words }
    requires can { All (CanPerform p.now) done.old.items }
    requires room { length done.old.items + sum_by item_operations items.now < 2 ^ 32 }
    ensures compiled { IfOk result (λ operands. row_seen done.new.items operands.items ≡ items_compiled p.now.names (map operation_seen done.old.items) items.now) }
    ensures can { OnOk result (All (CanPerform p.now) done.new.items) }
    ensures few { OnOk result (length done.new.items + length items.now ≤ length done.old.items + sum_by item_operations items.now) }
    ensures short { IfOk result (λ operands. length operands.items ≤ length items.now) }
{
    let mut operands = SmallVec::new(alloc);
    for item in items.as_slice() {
        compile_item(alloc, p, done, &mut operands, item)?;
    }
    Ok(operands)
}

// Appends the operations of an item of output, and the operand that its value is, if it has one.
fn compile_item<'a>(
    alloc: Global,
    p: &'a Program,
    done: &mut Vec<Operation<'a>>,
    operands: &mut Operands,
    item: &'a Item,
) -> Result<(), NoMemory>
    requires item { CanPrint p.now.names item.now }
    requires places { ArePlaced p.now.names p.now.words }
    requires can { All (CanPerform p.now) done.old.items }
    requires room { length done.old.items + item_operations item.now < 2 ^ 32 }
    ensures compiled { OnOk result (row_seen done.new.items operands.new.items ≡ row_after (map operand_seen operands.old.items) (items_compiled p.now.names (map operation_seen done.old.items) (item.now ∷ []))) }
    ensures can { OnOk result (All (CanPerform p.now) done.new.items) }
    ensures few { OnOk result (length done.new.items + 1 ≤ length done.old.items + item_operations item.now) }
    ensures short { OnOk result (length operands.new.items ≤ length operands.old.items + 1) }
{
    if let Item::Value(e) = item {
        let operand = compile(alloc, p, done, e)?;
        operands.push(operand)?;
    }
    Ok(())
}

// A step that isn't known to be other than 0 is an operation, which traps at 0.
fn begin_operations<'a>(
    alloc: Global,
    p: &'a Program,
    loop_no: u32,
    var: u32,
    first: &'a Expr,
    last: &'a Expr,
    step: &'a Expr,
) -> Result<Vec<Operation<'a>>, NoMemory>
    requires counted { IsLoop p.now loop_no var }
    requires first { IsExpression p.now.names first.now }
    requires last { IsExpression p.now.names last.now }
    requires step { IsExpression p.now.names step.now }
    requires places { ArePlaced p.now.names p.now.words }
    requires modest { 4 + operations first.now + operations last.now + operations step.now ≤ 500 }
    ensures operations { IfOk result (λ done. map operation_seen done.items ≡ begin_operations p.now.names loop_no var first.now last.now step.now) }
    ensures can { IfOk result (λ done. All (CanPerform p.now) done.items) }
    ensures few { IfOk result (λ done. length done.items ≤ 500) }
{
    let mut done = Vec::new(alloc);
    let a = compile(alloc, p, &mut done, first)?;
    let b = compile(alloc, p, &mut done, last)?;
    let c = compile(alloc, p, &mut done, step)?;
    let operands = one_operand(alloc, c)?;
    let d = operate(&mut done, Op::Step, operands)?;
    let operands = three_operands(alloc, a, b, d)?;
    end_with(p, &mut done, Work::Begin(loop_no, var), operands)?;
    Ok(done)
}

// The operations of an executable that is a branch.
fn branch_operations<'a>(
    alloc: Global,
    p: &'a Program,
    kind: &'a ExecKind,
) -> Result<Vec<Operation<'a>>, NoMemory>
    requires kind { CanExecute p.now kind.now }
    requires places { ArePlaced p.now.names p.now.words }
    requires modest { exec_operations kind.now ≤ 500 }
    ensures operations { IfOk result (λ done. map operation_seen done.items ≡ branch_operations p.now.names kind.now) }
    ensures can { IfOk result (λ done. All (CanPerform p.now) done.items) }
    ensures few { IfOk result (λ done. length done.items ≤ 500) }
{
    match kind {
        ExecKind::Test { cond, .. } => decide_operations(alloc, p, Work::DecideTruth, cond),
        ExecKind::Sign { value, .. } => decide_operations(alloc, p, Work::DecideSign, value),
        ExecKind::Pick { value, targets, .. } => {
            decide_operations(alloc, p, Work::DecideNumber(targets.len()), value)
        }
        ExecKind::DoStart { loop_no, .. } => {
            lone_operation(alloc, p, Work::DecideTrips(*loop_no))
        }
        _ => Ok(Vec::new(alloc)),
    }
}

// The selector of a branch, and the decision by it.
fn decide_operations<'a>(
    alloc: Global,
    p: &'a Program,
    work: Work<'a>,
    selector: &'a Expr,
) -> Result<Vec<Operation<'a>>, NoMemory>
    requires work { CanWork p.now work 1 }
    requires selector { IsExpression p.now.names selector.now }
    requires places { ArePlaced p.now.names p.now.words }
    requires modest { 1 + operations selector.now ≤ 500 }
    ensures operations { IfOk result (λ done. map operation_seen done.items ≡ decide_operations p.now.names (work_seen work.entry) selector.now) }
    ensures can { IfOk result (λ done. All (CanPerform p.now) done.items) }
    ensures few { IfOk result (λ done. length done.items ≤ 500) }
{
    let mut done = Vec::new(alloc);
    let operand = compile(alloc, p, &mut done, selector)?;
    let operands = one_operand(alloc, operand)?;
    end_with(p, &mut done, work, operands)?;
    Ok(done)
}
