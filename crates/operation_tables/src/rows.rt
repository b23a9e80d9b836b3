//! What the firing of an operation looks up.

ghost use Rattle.std.specs.Prelude.{◌≡◌, ◌+◌, ◌<◌, ◌≤◌, [], ◌∷◌, ℕ, pos, true, if◌then◌else◌, IfOk, OnOk, get_or, length, map};
ghost use Rattle.net_board.specs.Nodes.{graph_in, is_acting, kind_in, switches};
ghost use Rattle.op_board.specs.Operations.{Known, gives_value, is_decision};
ghost use Rattle.op_board.specs.OperationNets.{OperationNet, needed, operation_at, operation_count};
ghost use Rattle.op_board.specs.OperationTokens.{givers};
ghost use Rattle.operation_tables.specs.OperationRows.{AreRows, HasRows, IsCountedHop, IsHop, IsRowWith, IsTaker, first_three, short_count, waits_anew};
ghost use Rattle.operation_lists.specs.Seen.{operand_seen, operation_seen, work_seen};
ghost use Rattle.operation_tables.specs.PlanView.{operations_in};
ghost use Rattle.operation_tables.specs.ScratchLines.{AreCounted, AreLinked, IsClean};

use crate::entries::{clear_lines, first_entries};
use crate::hops::{Hop, Scratch, link_hops, unlinked_hops};
use crate::plan::OperationPlan;
use crate::row_laws::{needed_lines_exist, operations_fit, plans_can_be_numbered};
use crate::takers::{copied_operands, value_takers};
use df_sequence::NoMemory;
use op_board::values_are_taken_once;
use operation_effects::{Task, task_of};
use operation_lists::{Operand, Operands, Operation, Work, gives_value, is_decision};
use std::alloc::Global;

/// Stands for more operands than an operation has room for in its row.
pub const MANY: u8 = 4;

/// An operation, ready to fire. Operations are told by their numbers in the piece.
#[derive(Drop)]
pub struct Row<'a> {
    pub task: Task<'a>,
    /// The piece of the operation, and its number there.
    pub piece: u32,
    pub number: u32,
    pub operands: Operands,
    /// The first three of its operands, and 0 where there are fewer.
    pub few: [Operand; 3],
    /// The lines that it needs, in rising order.
    pub hops: Vec<Hop>,
    /// The operation that takes its value. It is of no meaning where there is no value.
    pub taker: u32,
    /// Whether it gives a value.
    pub gives: bool,
    /// Whether it tells the edge by which control leaves the piece.
    pub decides: bool,
    /// Whether it needs the line of output.
    pub serial: bool,
    /// How many operands there are, or `MANY` where there are more than three.
    pub count: u8,
    /// The first of the edges that leave the piece.
    pub edge: u32,
    /// For how much it waits once it has fired and given a value.
    pub waits: u32,
}

/// The operations of a piece, and for each line that it touches the first one that needs it.
#[derive(Drop)]
pub(crate) struct PieceRows<'a> {
    pub(crate) rows: Vec<Row<'a>>,
    pub(crate) entries: Vec<u32>,
}

/// The rows of a piece. The scratch is clean before and after, but not after a failure.
pub(crate) fn make_rows<'a, const W: usize>(
    alloc: Global,
    plan: &OperationPlan<'a, W>,
    piece: u32,
    scratch: &mut Scratch,
) -> Result<PieceRows<'a>, NoMemory>
    requires piece { piece < (graph_in (operations_in plan.now).net).nodes }
    requires clean { IsClean (operations_in plan.now).net.routing.lines scratch.old }
    ensures rows { IfOk result (λ t. ∥ AreRows (operations_in plan.now) piece t ∥₁) }
    ensures clean { OnOk result (IsClean (operations_in plan.now).net.routing.lines scratch.new) }
{
    let rows = linked_rows(alloc, plan, piece, scratch)?;
    let touched = plan.board.touched(piece);
    let entries = first_entries(alloc, touched, scratch)?;
    clear_lines(touched, scratch);
    Ok(PieceRows { rows, entries })
}

/// The rows of the operations of a piece.
fn linked_rows<'a, const W: usize>(
    alloc: Global,
    plan: &OperationPlan<'a, W>,
    piece: u32,
    scratch: &mut Scratch,
) -> Result<Vec<Row<'a>>, NoMemory>
    requires piece { piece < (graph_in (operations_in plan.now).net).nodes }
    requires clean { IsClean (operations_in plan.now).net.routing.lines scratch.old }
    ensures rows { IfOk result (λ rows. ∥ HasRows (IsHop (operations_in plan.now) piece) (operations_in plan.now) piece rows.items ∥₁) }
    ensures counted { OnOk result (AreCounted (operations_in plan.now) piece (operation_count (operations_in plan.now) piece) scratch.new) }
    ensures linked { OnOk result (AreLinked (operations_in plan.now) piece 0 scratch.new) }
{
    plans_can_be_numbered(plan);
    let mut rows = unlinked_rows(alloc, plan, piece, scratch)?;
    let mut i = plan.pieces[piece as usize].operations.len() as u16;
    while i > 0 {
        i -= 1;
        link_hops(&mut rows[i as usize].hops, scratch, i);
    }
    Ok(rows)
}

/// The rows of the operations of a piece, which don't tell yet where lines go on after each of them.
fn unlinked_rows<'a, const W: usize>(
    alloc: Global,
    plan: &OperationPlan<'a, W>,
    piece: u32,
    scratch: &mut Scratch,
) -> Result<Vec<Row<'a>>, NoMemory>
    requires piece { piece < (graph_in (operations_in plan.now).net).nodes }
    requires clean { IsClean (operations_in plan.now).net.routing.lines scratch.old }
    ensures rows { IfOk result (λ rows. ∥ HasRows (IsCountedHop (operations_in plan.now) piece) (operations_in plan.now) piece rows.items ∥₁) }
    ensures counted { OnOk result (AreCounted (operations_in plan.now) piece (operation_count (operations_in plan.now) piece) scratch.new) }
    ensures first { scratch.new.first.items ≡ scratch.old.first.items }
{
    values_are_taken_once();
    plans_can_be_numbered(plan);
    let operations = &plan.pieces[piece as usize].operations;
    let count = operations.len() as u32;
    let takers = value_takers(alloc, operations)?;
    let mut rows = Vec::with_capacity(alloc, count as usize)?;
    for i in 0..count {
        rows.push(unlinked_row(alloc, plan, piece, i, takers[i as usize], scratch)?)?;
    }
    Ok(rows)
}

/// The row of an operation whose value, if it gives one, is taken by the taker.
fn unlinked_row<'a, const W: usize>(
    alloc: Global,
    plan: &OperationPlan<'a, W>,
    piece: u32,
    i: u32,
    taker: u32,
    scratch: &mut Scratch,
) -> Result<Row<'a>, NoMemory>
    requires piece { piece < (graph_in (operations_in plan.now).net).nodes }
    requires operation { i < operation_count (operations_in plan.now) piece }
    requires few { operation_count (operations_in plan.now) piece ≤ 500 }
    requires taker { gives_value (operation_at (operations_in plan.now) piece i).work ≡ true → IsTaker (operations_in plan.now) piece i taker }
    requires counted { AreCounted (operations_in plan.now) piece i scratch.old }
    ensures row { IfOk result (λ row. ∥ IsRowWith (IsCountedHop (operations_in plan.now) piece i) (operations_in plan.now) piece i row ∥₁) }
    ensures counted { OnOk result (AreCounted (operations_in plan.now) piece (i + 1) scratch.new) }
    ensures first { scratch.new.first.items ≡ scratch.old.first.items }
{
    needed_lines_exist();
    operations_fit();
    let operations = &plan.pieces[piece as usize];
    let operation = &operations.operations[i as usize];
    let needs = operations.needs.at(i as usize);
    let operands = copied_operands(alloc, &operation.operands)?;
    let count = count_of(&operands);
    let hops = unlinked_hops(alloc, &needs, scratch)?;
    let lines = hops.len() as u32;
    let waits = waits_anew(plan, piece, operation, lines) as u32;
    Ok(Row {
        task: task_of(plan.board.plan.program, operation.work),
        few: first_operands(&operands),
        operands,
        count,
        piece,
        number: i,
        hops,
        taker,
        gives: gives_value(&operation.work),
        decides: is_decision(&operation.work),
        serial: needs.holds(0),
        edge: plan.board.first_out(piece),
        waits,
    })
}

/// For how much an operation that needs so many lines waits once it has fired and given a value: for those lines, the operands that
/// others give, its value to be taken, and where it is a decision for the switches of the piece.
fn waits_anew<const W: usize>(
    plan: &OperationPlan<W>,
    piece: u32,
    operation: &Operation,
    lines: u32,
) -> usize
    requires piece { piece < (graph_in (operations_in plan.now).net).nodes }
    requires acts { is_acting (kind_in (operations_in plan.now).net piece) ≡ true }
    ensures count { (i : ℕ) → operation_at (operations_in plan.now) piece i ≡ operation_seen operation.now → lines ≡ length (needed (operations_in plan.now) piece i) → result ≡ waits_anew (operations_in plan.now) piece i }
    ensures few { result ≤ lines + length operation.now.operands.items + 1025 }
{
    let values = values_of_others(operation.operands.as_slice());
    let own = usize::from(gives_value(&operation.work));
    let switches = switches_told(plan, piece, &operation.work) as usize;
    lines as usize + (values + (own + switches))
}

/// How many operands are values that others give.
fn values_of_others(operands: &[Operand]) -> usize
    ensures count { (x : OperationNet) (piece : ℕ) → result ≡ length (givers x piece (map operand_seen operands.now)) }
    ensures few { result ≤ length operands.now }
{
    let mut count = 0;
    for operand in operands {
        count += one_if_value(operand);
    }
    count
}

/// 1 where the operand is a value that another operation gives.
fn one_if_value(operand: &Operand) -> usize
    ensures count { (x : OperationNet) (piece : ℕ) → result ≡ length (givers x piece (operand_seen operand.now ∷ [])) }
    ensures few { result ≤ 1 }
{
    match operand {
        Operand::Known(_) => 0,
        Operand::Node(_) => 1,
    }
}

/// How many switches an operation of a piece tells the edge.
fn switches_told<const W: usize>(plan: &OperationPlan<W>, piece: u32, work: &Work) -> u32
    requires piece { piece < (graph_in (operations_in plan.now).net).nodes }
    requires acts { is_acting (kind_in (operations_in plan.now).net piece) ≡ true }
    ensures count { result ≡ if is_decision (work_seen work.now) then length (switches (operations_in plan.now).net piece) else 0 }
    ensures few { result ≤ 1024 }
{
    if is_decision(work) {
        plan.board.end(piece) - (plan.board.first(piece) + 1)
    } else {
        0
    }
}

/// How many operands there are, or `MANY` where there are more than three.
fn count_of(operands: &Operands) -> u8
    ensures { result ≡ short_count (length operands.now.items) }
{
    if operands.len() > 3 {
        MANY
    } else {
        operands.len() as u8
    }
}

/// The first three operands, and 0 where there are fewer.
fn first_operands(operands: &Operands) -> [Operand; 3]
    ensures { map operand_seen result ≡ first_three (map operand_seen operands.now.items) }
{
    [
        operand_or_zero(operands, 0),
        operand_or_zero(operands, 1),
        operand_or_zero(operands, 2),
    ]
}

/// The operand with this number, or 0 where there are fewer.
fn operand_or_zero(operands: &Operands, j: usize) -> Operand
    ensures { operand_seen result ≡ get_or (map operand_seen operands.now.items) j (Known (pos 0)) }
{
    if j < operands.len() {
        operands.as_slice()[j]
    } else {
        Operand::Known(0)
    }
}
