//! All operations of a piece, performed one after another, without places for their values.

ghost use Rattle.std.specs.Prelude.{◌≡◌, ◌≢◌, ◌<◌, ◌≤◌, [], All, IfSome, None, Ok, Some, length, take, true, vec_capacity};
ghost use Rattle.f77_meaning.specs.Storage.{memory_of};
ghost use Rattle.net_board.specs.Nodes.{graph_in};
ghost use Rattle.net_board.specs.SoundNets.{HasSizesOf};
ghost use Rattle.op_board.specs.Effects.{All_done, gives};
ghost use Rattle.op_board.specs.OperationNets.{operation_count};
ghost use Rattle.op_board.specs.OperationOrder.{ran_at};
ghost use Rattle.operation_effects.specs.Done.{KeepsLine, KeepsStorage, told};
ghost use Rattle.operation_effects.specs.OperandValues.{IsAmong, operand_values};
ghost use Rattle.operation_lists.specs.Seen.{operand_seen};
ghost use Rattle.operation_lists.specs.declared.operations.Operand.{Operand};
ghost use Rattle.operation_tables.specs.BoardView.{operation_net_on};
ghost use Rattle.op_net.specs.FiringChanges.{remembered};
ghost use Rattle.op_net.specs.NetView.{marking_of, net_of};
ghost use Rattle.operation_tables.specs.OperationRows.{IsRow};
ghost use Rattle.op_net.specs.PieceEnds.{effect_told};
ghost use Rattle.op_net.specs.PieceValues.{HasRoom, performed_over, ran_from};

use crate::OpNet;
use crate::operating::push_argument;
use f77_meaning::Storage;
use operation_effects::{Did, give_value, operand_value, perform};
use operation_lists::Operands;
use operation_tables::{OperationBoard, Row};

/// How control leaves a piece whose operations were all performed.
#[derive(Clone, Copy)]
pub(crate) enum PieceEnd {
    /// By the out-edge with this number.
    Along(u32),
    /// By the first out-edge, after a line was made.
    Wrote,
}

impl<const W: usize> OpNet<'_, W> {
    /// Performs the operations of a piece one after another, without places for their values. There is no answer, and nothing but the
    /// draft has changed, where one of them takes data or traps.
    pub(crate) fn perform_operations(&mut self, piece: u32) -> Option<PieceEnd>
        requires piece { piece < (graph_in (net_of self.old).net).nodes }
        requires sizes { HasSizesOf (net_of self.old).net.program (marking_of self.old).tokens.memory }
        ensures net { net_of self.new ≡ net_of self.old }
        ensures done { (end : PieceEnd) → result ≡ Some end → ran_at (net_of self.old) piece (marking_of self.old).tokens.memory ≡ All_done (effect_told end (memory_of self.new.storage) self.new.draft.items) }
        ensures line { result ≡ Some PieceEnd.Wrote → self.new.draft.items ≢ [] }
        ensures marking { marking_of self.new ≡ remembered (marking_of self.old) (memory_of self.new.storage) }
        ensures none { result ≡ None → marking_of self.new ≡ marking_of self.old }
        ensures control { self.new.control ≡ self.old.control }
        ensures kept { self.new.places ≡ self.old.places }
        ensures text { self.new.text.items ≡ self.old.text.items }
    {
        perform_piece(
            &self.board,
            piece,
            &mut self.storage,
            &mut self.draft,
            &mut self.values,
            &mut self.args,
        )
    }
}

// Performs the operations of a piece one after another. Where there is no answer, nothing but the draft has changed.
fn perform_piece<const W: usize>(
    board: &OperationBoard<W>,
    piece: u32,
    storage: &mut Storage,
    draft: &mut Vec<u8>,
    values: &mut Vec<i32>,
    args: &mut Vec<i32>,
) -> Option<PieceEnd>
    requires piece { piece < (graph_in (operation_net_on board.now).net).nodes }
    requires room { HasRoom (operation_net_on board.now) board.now.tables.most storage.old (vec_capacity draft.old) (vec_capacity args.old) }
    requires values { board.now.tables.most ≤ length values.old.items }
    ensures done { (end : PieceEnd) → result ≡ Some end → ran_at (operation_net_on board.now) piece (memory_of storage.old) ≡ All_done (effect_told end (memory_of storage.new) draft.new.items) }
    ensures line { result ≡ Some PieceEnd.Wrote → draft.new.items ≢ [] }
    ensures none { result ≡ None → memory_of storage.new ≡ memory_of storage.old }
    ensures room { HasRoom (operation_net_on board.now) board.now.tables.most storage.new (vec_capacity draft.new) (vec_capacity args.new) }
    ensures values { length values.new.items ≡ length values.old.items }
{
    let rows = board.rows(piece);
    let count = rows.len();
    if count == 0 {
        return Some(PieceEnd::Along(0));
    }
    let last = count - 1;
    if !give_values(board, piece, last, storage, values) {
        return None;
    }
    perform_last(
        board,
        piece,
        last,
        &rows[last],
        storage,
        draft,
        &values[..last],
        args,
    )
}

// The values of the operations of a piece before the last one, in their places. It stops before an operation that doesn't only give a
// value, and at a trap, and answers whether it came to the last one.
#[inline(always)]
fn give_values<const W: usize>(
    board: &OperationBoard<W>,
    piece: u32,
    last: usize,
    storage: &Storage,
    values: &mut Vec<i32>,
) -> bool
    requires piece { piece < (graph_in (operation_net_on board.now).net).nodes }
    requires last { last < operation_count (operation_net_on board.now) piece }
    requires room { last ≤ length values.old.items }
    requires sizes { HasSizesOf (operation_net_on board.now).net.program (memory_of storage.now) }
    ensures ran { result ≡ true → ran_at (operation_net_on board.now) piece (memory_of storage.now) ≡ ran_from (operation_net_on board.now) piece last (memory_of storage.now) (take last values.new.items) }
    ensures room { length values.new.items ≡ length values.old.items }
{
    let rows = board.rows(piece);
    for i in 0..last {
        let Some(z) = give_value_of(board, piece, i, &rows[i], storage, &values[..i]) else {
            return false;
        };
        values[i] = z;
    }
    true
}

// The value of an operation over those of the operations before it in its piece. There is no answer at an operation that doesn't
// only give a value, and at a trap.
#[inline(always)]
fn give_value_of<const W: usize>(
    board: &OperationBoard<W>,
    piece: u32,
    i: usize,
    row: &Row,
    storage: &Storage,
    values: &[i32],
) -> Option<i32>
    requires operation { i < operation_count (operation_net_on board.now) piece }
    requires row { ∥ IsRow (operation_net_on board.now) piece i row.now ∥₁ }
    requires values { length values.now ≡ i }
    requires sizes { HasSizesOf (operation_net_on board.now).net.program (memory_of storage.now) }
    ensures { IfSome result (λ z. performed_over (operation_net_on board.now) piece i (memory_of storage.now) values.now ≡ Ok (gives (memory_of storage.now) z)) }
{
    let program = board.plan.board.plan.program;
    give_value(row.task, row.operands.as_slice(), values, program, storage)
}

// Performs the last operation of a piece over the values of those before it. There is no answer at an operation that gives a value.
fn perform_last<const W: usize>(
    board: &OperationBoard<W>,
    piece: u32,
    last: usize,
    row: &Row,
    storage: &mut Storage,
    draft: &mut Vec<u8>,
    values: &[i32],
    args: &mut Vec<i32>,
) -> Option<PieceEnd>
    requires piece { piece < (graph_in (operation_net_on board.now).net).nodes }
    requires operation { last < operation_count (operation_net_on board.now) piece }
    requires row { ∥ IsRow (operation_net_on board.now) piece last row.now ∥₁ }
    requires values { length values.now ≡ last }
    requires room { HasRoom (operation_net_on board.now) board.now.tables.most storage.old (vec_capacity draft.old) (vec_capacity args.old) }
    ensures done { (end : PieceEnd) → result ≡ Some end → performed_over (operation_net_on board.now) piece last (memory_of storage.old) values.now ≡ Ok (effect_told end (memory_of storage.new) draft.new.items) }
    ensures line { result ≡ Some PieceEnd.Wrote → draft.new.items ≢ [] }
    ensures none { result ≡ None → memory_of storage.new ≡ memory_of storage.old }
    ensures room { HasRoom (operation_net_on board.now) board.now.tables.most storage.new (vec_capacity draft.new) (vec_capacity args.new) }
{
    if row.gives {
        return None;
    }
    match perform_row(board, piece, last, row, storage, draft, values, args) {
        Did::Changed => Some(PieceEnd::Along(0)),
        Did::Told(choice) => Some(PieceEnd::Along(choice)),
        Did::Wrote => Some(PieceEnd::Wrote),
        Did::Gave(_) | Did::Trapped(_) => None,
    }
}

// Performs an operation over the values of those before it in its piece.
#[inline(always)]
fn perform_row<const W: usize>(
    board: &OperationBoard<W>,
    piece: u32,
    i: usize,
    row: &Row,
    storage: &mut Storage,
    draft: &mut Vec<u8>,
    values: &[i32],
    args: &mut Vec<i32>,
) -> Did
    requires piece { piece < (graph_in (operation_net_on board.now).net).nodes }
    requires operation { i < operation_count (operation_net_on board.now) piece }
    requires row { ∥ IsRow (operation_net_on board.now) piece i row.now ∥₁ }
    requires values { length values.now ≡ i }
    requires room { HasRoom (operation_net_on board.now) board.now.tables.most storage.old (vec_capacity draft.old) (vec_capacity args.old) }
    ensures effect { performed_over (operation_net_on board.now) piece i (memory_of storage.old) values.now ≡ told result (memory_of storage.new) draft.new.items }
    ensures memory { KeepsStorage result storage.old storage.new }
    ensures line { KeepsLine result draft.old.items draft.new.items }
    ensures room { HasRoom (operation_net_on board.now) board.now.tables.most storage.new (vec_capacity draft.new) (vec_capacity args.new) }
{
    read_operands(&row.operands, values, args);
    let plan = &board.plan.board.plan;
    perform(
        row.task,
        args.as_slice(),
        plan.program,
        &plan.input,
        storage,
        draft,
    )
}

// The values of operands, which are among those of operations where they aren't known.
#[inline(always)]
fn read_operands(operands: &Operands, values: &[i32], args: &mut Vec<i32>)
    requires among { All (λ (operand : Operand). IsAmong (length values.now) (operand_seen operand)) operands.now.items }
    requires room { length operands.now.items ≤ vec_capacity args.old }
    ensures items { args.new.items ≡ operand_values values.now operands.now.items }
    ensures capacity { vec_capacity args.old ≤ vec_capacity args.new }
{
    args.clear();
    for operand in operands.as_slice() {
        let z = operand_value(*operand, values);
        push_argument(args, z);
    }
}
