//! The operations of a program, piece by piece, and the lines that they need.

ghost use Rattle.std.specs.Prelude.{◌≡◌, ◌<◌, ◌≤◌, ◌*◌, ℕ, All, IfOk, Some, length, map, slice_get};
ghost use Rattle.class_set.specs.Members.{IsWidth};
ghost use Rattle.f77_tree.specs.CanRun.{CanRun};
ghost use Rattle.f77_tree.specs.Operations.{HasFewOperations};
ghost use Rattle.alias_classes.specs.Classes.{IsClasses, class_count};
ghost use Rattle.cfg_build.specs.Flow.{flow as flow_graph};
ghost use Rattle.dep_routing.specs.Touch.{touches_in};
ghost use Rattle.net_board.specs.NetParts.{net_with};
ghost use Rattle.net_board.specs.Nodes.{graph_in};
ghost use Rattle.net_tables.specs.LookupView.{net_on};
ghost use Rattle.op_board.specs.OperationNets.{operations_at};
ghost use Rattle.op_board.specs.SoundOperationNets.{IsOperationNet};
ghost use Rattle.operation_lists.specs.CanPerform.{CanPerform};
ghost use Rattle.operation_lists.specs.Seen.{operation_seen};
ghost use Rattle.operation_tables.specs.OperationParts.{AreOperationParts};
ghost use Rattle.operation_tables.specs.PieceView.{net_with_operations};
ghost use Rattle.operation_tables.specs.PlanFacts.{PlanFacts};
ghost use Rattle.operation_tables.specs.PlannedPieces.{AreNeedsOf, AreOperationsOf, ArePlanned};
ghost use Rattle.set_lists.specs.Sets.{set_count};

use alias_classes::Classes;
use cfg_build::Flow;
use dep_routing::{Lines, TouchList};
use df_sequence::NoMemory;
use f77_tree::{Program, well_formed_programs_can_run};
use net_tables::{Board, make_board, words_are_words};
use op_board::{known_traps_touch_output, operations_have_facts};
use operation_lists::{Operation, operation_needs, piece_operations};
use set_lists::SetList;
use std::alloc::Global;

/// The operations of a piece, and the lines that each of them needs.
#[derive(Drop)]
pub struct PieceOperations<'a, const W: usize> {
    pub operations: Vec<Operation<'a>>,
    pub needs: SetList<W>,
}

/// The board of a net of statements, and the operations of each piece.
#[derive(Drop)]
pub struct OperationPlan<'a, const W: usize> {
    pub board: Board<'a, W>,
    pub pieces: Vec<PieceOperations<'a, W>>,
    pub ghost is_net: { ∥ IsOperationNet (net_with_operations board pieces.items) ∥₁ },
    pub ghost facts: { PlanFacts (net_with_operations board pieces.items) },
    pub ghost every_piece: { length pieces.items ≡ (graph_in (net_on board)).nodes },
    pub ghost own_operations: { (piece : ℕ) (operations : _) → slice_get pieces.items piece ≡ Some operations → ∥ map operation_seen operations.operations.items ≡ operations_at (net_with_operations board pieces.items) piece ∥₁ },
    pub ghost own_needs: { (piece : ℕ) (operations : _) → slice_get pieces.items piece ≡ Some operations → set_count operations.needs ≡ length operations.operations.items },
    pub ghost few_operations: { (piece : ℕ) (operations : _) → slice_get pieces.items piece ≡ Some operations → length operations.operations.items ≤ 500 },
    pub ghost few_operands: { (piece i : ℕ) (operations : _) (operation : _) → slice_get pieces.items piece ≡ Some operations → slice_get operations.operations.items i ≡ Some operation → length operation.operands.items ≤ 500 },
}

/// The operations of a program over data.
pub(crate) fn make_plan<'a, const W: usize>(
    alloc: Global,
    p: &'a Program,
    f: &'a Flow,
    c: &Classes<W>,
    touch: &'a TouchList<W>,
    l: &'a Lines<W>,
    input: &Vec<i32>,
) -> Result<OperationPlan<'a, W>, NoMemory>
    requires width { IsWidth W }
    requires parts { AreOperationParts p.now f.now c.now (touches_in touch.now) l.now }
    requires sets { length touch.now ≡ (flow_graph p.now.execs).graph.nodes }
    requires modest { HasFewOperations p.now }
    ensures net { IfOk result (λ plan. net_on plan.board ≡ net_with p.now input.now.items (touches_in touch.now) l.now) }
    ensures is_net { IfOk result (λ plan. IsOperationNet (net_with_operations plan.board plan.pieces.items)) }
{
    well_formed_programs_can_run();
    few_lines(p, f, c, touch, l);
    words_are_words(input);
    known_traps_touch_output();
    operations_have_facts();
    let board = make_board(alloc, p, f, touch, l, input)?;
    let pieces = planned_pieces(alloc, &board, c)?;
    Ok(OperationPlan { board, pieces })
}

/// The operations of each piece of the net, and the lines that they need.
fn planned_pieces<'a, const W: usize>(
    alloc: Global,
    board: &Board<'a, W>,
    c: &Classes<W>,
) -> Result<Vec<PieceOperations<'a, W>>, NoMemory>
    requires can_run { CanRun board.now.plan.program.now }
    requires classes { IsClasses board.now.plan.program.now c.now }
    requires modest { HasFewOperations board.now.plan.program.now }
    ensures { IfOk result (λ pieces. ArePlanned (net_on board.now) c.now pieces.items) }
{
    let mut pieces = Vec::with_capacity(alloc, board.plan.flow.pieces() as usize)?;
    for piece in 0..board.plan.flow.pieces() {
        pieces.push(operations_with_needs(alloc, board, c, piece)?)?;
    }
    Ok(pieces)
}

/// The operations of a piece, and the lines that they need.
fn operations_with_needs<'a, const W: usize>(
    alloc: Global,
    board: &Board<'a, W>,
    c: &Classes<W>,
    piece: u32,
) -> Result<PieceOperations<'a, W>, NoMemory>
    requires piece { piece < (graph_in (net_on board.now)).nodes }
    requires can_run { CanRun board.now.plan.program.now }
    requires classes { IsClasses board.now.plan.program.now c.now }
    requires modest { HasFewOperations board.now.plan.program.now }
    ensures { IfOk result (λ planned. AreOperationsOf (net_on board.now) c.now piece planned) }
{
    let operations = piece_operations(alloc, board.plan.program, board.plan.flow.piece(piece))?;
    let needs = all_needs(alloc, board, c, piece, &operations)?;
    Ok(PieceOperations { operations, needs })
}

/// For each of the operations of a piece the lines that it needs.
fn all_needs<const W: usize>(
    alloc: Global,
    board: &Board<W>,
    c: &Classes<W>,
    piece: u32,
    operations: &Vec<Operation>,
) -> Result<SetList<W>, NoMemory>
    requires piece { piece < (graph_in (net_on board.now)).nodes }
    requires classes { IsClasses board.now.plan.program.now c.now }
    requires can { All (CanPerform board.now.plan.program.now) operations.now.items }
    ensures { IfOk result (λ needs. AreNeedsOf c.now ((net_on board.now).touches piece) operations.now.items needs) }
{
    few_classes(c);
    let touched = board.plan.touch.at(piece);
    let mut needs = SetList::with_room(alloc, operations.len())?;
    for operation in operations {
        needs.push(&operation_needs(board.plan.program, c, touched, operation))?;
    }
    Ok(needs)
}

/// There is a line for each class, and the one of output: 1,024 at most.
fn few_lines<const W: usize>(
    p: &Program,
    f: &Flow,
    c: &Classes<W>,
    touch: &TouchList<W>,
    l: &Lines<W>,
)
    requires width { IsWidth W }
    requires parts { AreOperationParts p.now f.now c.now (touches_in touch.now) l.now }
    ensures { l.now.lines ≤ 1024 }
{
    few_classes(c);
}

/// A set of W words holds the number of each class.
fn few_classes<const W: usize>(c: &Classes<W>)
    ensures { class_count c.now < 64 * W }
{
    let _count = c.count();
}
