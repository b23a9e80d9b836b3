//! What the firing of an operation takes, and where it leads lines.

ghost use Rattle.std.specs.Prelude.{◌≡◌, ◌<◌, ◌≤◌, ◌+◌, ◌++◌, [], ◌∷◌, None, Some, length, map, true, vec_capacity, vec_len};
ghost use Rattle.closed_walks.specs.Graph.{edge_count};
ghost use Rattle.cfg_build.specs.Passes.{out};
ghost use Rattle.net_board.specs.Nodes.{graph_in, switches};
ghost use Rattle.net_board.specs.Tokens.{edge_of, led_from};
ghost use Rattle.op_board.specs.Operations.{is_decision};
ghost use Rattle.op_board.specs.OperationNets.{first_operation, needed, operation_at, operation_count};
ghost use Rattle.op_board.specs.OperationTokens.{are_clear, givers, is_given, operand_in, passed_by, stands_before};
ghost use Rattle.std.specs.List.{list_all};
ghost use Rattle.operation_lists.specs.Seen.{operand_seen};
ghost use Rattle.operation_tables.specs.BoardView.{operation_net_on};
ghost use Rattle.operation_tables.specs.OperationRows.{IsHop, IsRow, first_three};
ghost use Rattle.op_net.specs.PlaceSteps.{IsOwnOperand, line_moved, operand_taken, values_for};
ghost use Rattle.operation_places.specs.PlacesView.{IsAheadBy, KeepsCounts, MakesUp, line_put, standing};
ghost use Rattle.operation_places.specs.SoundPlaces.{ArePlaces};
ghost use Rattle.operation_places.specs.StandingChanges.{lines_dropped, lines_moved, room_filled, values_taken};
ghost use Rattle.operation_tables.specs.Waits.{IsNodeBefore, node_total};

use operation_lists::Operand;
use operation_places::{Places, lead_of};
use operation_tables::{Hop, OperationBoard, Row};

/// Appends a value for which there is room.
pub(crate) fn push_argument(args: &mut Vec<i32>, z: i32)
    requires { vec_len args.old + 1 ≤ vec_capacity args.old }
    ensures items { args.new.items ≡ args.old.items ++ z ∷ [] }
    ensures capacity { vec_capacity args.old ≤ vec_capacity args.new }
{
    let _pushed = args.push(z);
}

/// Takes the values of the operands of an operation that has at most three. After them stand zeros.
#[inline(always)]
pub(crate) fn take_few<const W: usize>(
    board: &OperationBoard<W>,
    places: &mut Places,
    piece: u32,
    i: u32,
    first: u32,
    row: &Row,
) -> [i32; 3]
    requires piece { piece < (graph_in (operation_net_on board.now).net).nodes }
    requires operation { i < operation_count (operation_net_on board.now) piece }
    requires first { first ≡ first_operation (operation_net_on board.now) piece }
    requires row { ∥ IsRow (operation_net_on board.now) piece i row.now ∥₁ }
    requires few { length (operation_at (operation_net_on board.now) piece i).operands ≤ 3 }
    requires places { ArePlaces (operation_net_on board.now) places.old }
    requires ahead { ∥ IsAheadBy (operation_net_on board.now) places.old (first + i) (length (givers (operation_net_on board.now) piece (operation_at (operation_net_on board.now) piece i).operands)) ∥₁ }
    requires given { list_all (is_given (operation_net_on board.now) (standing places.old) piece) (operation_at (operation_net_on board.now) piece i).operands ≡ true }
    ensures args { map (operand_in (operation_net_on board.now) (standing places.old) piece) (first_three (operation_at (operation_net_on board.now) piece i).operands) ≡ result }
    ensures standing { standing places.new ≡ values_taken (operation_net_on board.now) (standing places.old) piece i }
    ensures counted { MakesUp (operation_net_on board.now) places.old places.new (first + i) (length (givers (operation_net_on board.now) piece (operation_at (operation_net_on board.now) piece i).operands)) }
    ensures kept { KeepsCounts places.old places.new }
{
    [
        take_operand(board, places, piece, i, first, row.few[0]),
        take_operand(board, places, piece, i, first, row.few[1]),
        take_operand(board, places, piece, i, first, row.few[2]),
    ]
}

/// Takes the values of the operands of an operation.
#[inline(always)]
pub(crate) fn take_operands<const W: usize>(
    board: &OperationBoard<W>,
    places: &mut Places,
    piece: u32,
    i: u32,
    row: &Row,
    args: &mut Vec<i32>,
)
    requires piece { piece < (graph_in (operation_net_on board.now).net).nodes }
    requires operation { i < operation_count (operation_net_on board.now) piece }
    requires row { ∥ IsRow (operation_net_on board.now) piece i row.now ∥₁ }
    requires places { ArePlaces (operation_net_on board.now) places.old }
    requires ahead { ∥ IsAheadBy (operation_net_on board.now) places.old (first_operation (operation_net_on board.now) piece + i) (length (givers (operation_net_on board.now) piece (operation_at (operation_net_on board.now) piece i).operands)) ∥₁ }
    requires given { list_all (is_given (operation_net_on board.now) (standing places.old) piece) (operation_at (operation_net_on board.now) piece i).operands ≡ true }
    requires room { board.now.tables.most ≤ vec_capacity args.old }
    ensures args { args.new.items ≡ map (operand_in (operation_net_on board.now) (standing places.old) piece) (operation_at (operation_net_on board.now) piece i).operands }
    ensures capacity { vec_capacity args.old ≤ vec_capacity args.new }
    ensures standing { standing places.new ≡ values_taken (operation_net_on board.now) (standing places.old) piece i }
    ensures counted { MakesUp (operation_net_on board.now) places.old places.new (first_operation (operation_net_on board.now) piece + i) (length (givers (operation_net_on board.now) piece (operation_at (operation_net_on board.now) piece i).operands)) }
    ensures kept { KeepsCounts places.old places.new }
{
    let first = board.first(piece);
    args.clear();
    for operand in row.operands.as_slice() {
        let z = take_operand(board, places, piece, i, first, *operand);
        push_argument(args, z);
    }
}

// Takes the value of an operand.
#[inline(always)]
fn take_operand<const W: usize>(
    board: &OperationBoard<W>,
    places: &mut Places,
    piece: u32,
    i: u32,
    first: u32,
    operand: Operand,
) -> i32
    requires piece { piece < (graph_in (operation_net_on board.now).net).nodes }
    requires operation { i < operation_count (operation_net_on board.now) piece }
    requires first { first ≡ first_operation (operation_net_on board.now) piece }
    requires values { length places.old.values.items ≡ node_total (operation_net_on board.now) }
    requires marks { length places.old.set ≡ node_total (operation_net_on board.now) }
    requires ahead { ∥ IsAheadBy (operation_net_on board.now) places.old (first + i) (values_for (operand_seen operand)) ∥₁ }
    requires own { IsOwnOperand (operation_net_on board.now) piece i (operand_seen operand) }
    requires given { is_given (operation_net_on board.now) (standing places.old) piece (operand_seen operand) ≡ true }
    ensures value { result ≡ operand_in (operation_net_on board.now) (standing places.old) piece (operand_seen operand) }
    ensures standing { standing places.new ≡ operand_taken (operation_net_on board.now) piece (standing places.old) (operand_seen operand) }
    ensures counted { MakesUp (operation_net_on board.now) places.old places.new (first + i) (values_for (operand_seen operand)) }
    ensures kept { KeepsCounts places.old places.new }
{
    match operand {
        Operand::Known(z) => z,
        Operand::Node(number) => {
            let giver = first + number;
            let z = places.values[giver as usize].unwrap_or(0);
            places.take(board, giver, first + i);
            z
        }
    }
}

/// The edge that leaves a piece and has this number among those, or the first edge of the graph where none has it.
pub(crate) fn chosen_edge<const W: usize>(
    board: &OperationBoard<W>,
    piece: u32,
    i: u32,
    row: &Row,
    choice: u32,
) -> u32
    requires piece { piece < (graph_in (operation_net_on board.now).net).nodes }
    requires row { ∥ IsRow (operation_net_on board.now) piece i row.now ∥₁ }
    ensures edge { result ≡ out (graph_in (operation_net_on board.now).net) piece choice }
    ensures exists { result < edge_count (graph_in (operation_net_on board.now).net) }
{
    if choice == 0 {
        row.edge
    } else {
        board.out_edge(piece, choice)
    }
}

/// Leads on the lines that an operation needs: past it, and after the last operation of the piece that needs them along this edge.
#[inline(always)]
pub(crate) fn move_lines<const W: usize>(
    board: &OperationBoard<W>,
    places: &mut Places,
    piece: u32,
    i: u32,
    first: u32,
    row: &Row,
    edge: u32,
)
    requires first { first ≡ first_operation (operation_net_on board.now) piece }
    requires piece { piece < (graph_in (operation_net_on board.now).net).nodes }
    requires operation { i < operation_count (operation_net_on board.now) piece }
    requires row { ∥ IsRow (operation_net_on board.now) piece i row.now ∥₁ }
    requires edge { edge < edge_count (graph_in (operation_net_on board.now).net) }
    requires places { ArePlaces (operation_net_on board.now) places.old }
    requires ahead { ∥ IsAheadBy (operation_net_on board.now) places.old (first_operation (operation_net_on board.now) piece + i) (length (needed (operation_net_on board.now) piece i)) ∥₁ }
    requires stand { list_all (stands_before (operation_net_on board.now) (standing places.old) piece i) (needed (operation_net_on board.now) piece i) ≡ true }
    ensures standing { standing places.new ≡ lines_moved (operation_net_on board.now) (standing places.old) piece i edge }
    ensures counted { MakesUp (operation_net_on board.now) places.old places.new (first_operation (operation_net_on board.now) piece + i) (length (needed (operation_net_on board.now) piece i)) }
    ensures kept { KeepsCounts places.old places.new }
{
    for hop in &row.hops {
        move_line(board, places, piece, i, first, *hop, edge);
    }
}

// Leads on one line.
#[inline(always)]
fn move_line<const W: usize>(
    board: &OperationBoard<W>,
    places: &mut Places,
    piece: u32,
    i: u32,
    first: u32,
    hop: Hop,
    edge: u32,
)
    requires piece { piece < (graph_in (operation_net_on board.now).net).nodes }
    requires operation { i < operation_count (operation_net_on board.now) piece }
    requires first { first ≡ first_operation (operation_net_on board.now) piece }
    requires edge { edge < edge_count (graph_in (operation_net_on board.now).net) }
    requires lines { length places.old.lines.items ≡ (operation_net_on board.now).net.routing.lines }
    requires passed { length places.old.passed.items ≡ (operation_net_on board.now).net.routing.lines }
    requires marks { length places.old.set ≡ node_total (operation_net_on board.now) }
    requires ahead { ∥ IsAheadBy (operation_net_on board.now) places.old (first + i) 1 ∥₁ }
    requires hop { ∥ IsHop (operation_net_on board.now) piece i hop ∥₁ }
    requires needs { (operation_net_on board.now).needs piece i hop.line ≡ true }
    requires stands { stands_before (operation_net_on board.now) (standing places.old) piece i hop.line ≡ true }
    ensures standing { standing places.new ≡ line_moved (operation_net_on board.now) piece i edge (standing places.old) hop.line }
    ensures counted { MakesUp (operation_net_on board.now) places.old places.new (first + i) 1 }
    ensures kept { KeepsCounts places.old places.new }
{
    match hop.next {
        Some(n) => {
            places.pass_on(
                board,
                hop.line as u32,
                hop.before as u32 + 1,
                first + i,
                first + n as u32,
            );
        }
        None => lead_line(board, places, hop.line as u32, edge, first + i),
    }
}

/// Leads a line along an edge from the node before which it stands.
#[inline(always)]
pub(crate) fn lead_line<const W: usize>(
    board: &OperationBoard<W>,
    places: &mut Places,
    line: u32,
    edge: u32,
    k: u32,
)
    requires edge { edge < edge_count (graph_in (operation_net_on board.now).net) }
    requires line { line < (operation_net_on board.now).net.routing.lines }
    requires lines { length places.old.lines.items ≡ (operation_net_on board.now).net.routing.lines }
    requires passed { length places.old.passed.items ≡ (operation_net_on board.now).net.routing.lines }
    requires marks { length places.old.set ≡ node_total (operation_net_on board.now) }
    requires node { k < node_total (operation_net_on board.now) }
    requires ahead { ∥ IsAheadBy (operation_net_on board.now) places.old k 1 ∥₁ }
    requires from { IsNodeBefore (operation_net_on board.now) line (edge_of (standing places.old).tokens line) (passed_by (standing places.old) line) k }
    ensures standing { standing places.new ≡ line_put (standing places.old) line (led_from (operation_net_on board.now).net edge line) 0 }
    ensures counted { MakesUp (operation_net_on board.now) places.old places.new k 1 }
    ensures kept { KeepsCounts places.old places.new }
{
    let lead = lead_of(board, places.counted, &mut places.leads, line, edge);
    places.lead_on(board, line, lead.wire, k, lead.node);
}

/// The lines that an operation needs vanish.
pub(crate) fn drop_needed<const W: usize>(
    board: &OperationBoard<W>,
    places: &mut Places,
    piece: u32,
    i: u32,
)
    requires piece { piece < (graph_in (operation_net_on board.now).net).nodes }
    requires operation { i < operation_count (operation_net_on board.now) piece }
    requires places { ArePlaces (operation_net_on board.now) places.old }
    requires ahead { ∥ IsAheadBy (operation_net_on board.now) places.old (first_operation (operation_net_on board.now) piece + i) (length (needed (operation_net_on board.now) piece i)) ∥₁ }
    requires stand { list_all (stands_before (operation_net_on board.now) (standing places.old) piece i) (needed (operation_net_on board.now) piece i) ≡ true }
    ensures standing { standing places.new ≡ lines_dropped (operation_net_on board.now) (standing places.old) piece i }
    ensures counted { MakesUp (operation_net_on board.now) places.old places.new (first_operation (operation_net_on board.now) piece + i) (length (needed (operation_net_on board.now) piece i)) }
    ensures kept { KeepsCounts places.old places.new }
{
    let k = board.first(piece) + i;
    for hop in &board.row(piece, i).hops {
        places.take_off(board, hop.line as u32, k);
    }
}

/// Leaves an edge for the switches of a piece at which edges part.
pub(crate) fn fill_room<const W: usize>(
    board: &OperationBoard<W>,
    places: &mut Places,
    piece: u32,
    i: u32,
    edge: u32,
)
    requires piece { piece < (graph_in (operation_net_on board.now).net).nodes }
    requires operation { i < operation_count (operation_net_on board.now) piece }
    requires decides { is_decision (operation_at (operation_net_on board.now) piece i).work ≡ true }
    requires edge { edge < edge_count (graph_in (operation_net_on board.now).net) }
    requires places { ArePlaces (operation_net_on board.now) places.old }
    requires ahead { ∥ IsAheadBy (operation_net_on board.now) places.old (first_operation (operation_net_on board.now) piece + i) (length (switches (operation_net_on board.now).net piece)) ∥₁ }
    requires clear { are_clear (operation_net_on board.now) (standing places.old) piece ≡ true }
    ensures standing { standing places.new ≡ room_filled (operation_net_on board.now) (standing places.old) piece edge }
    ensures counted { MakesUp (operation_net_on board.now) places.old places.new (first_operation (operation_net_on board.now) piece + i) (length (switches (operation_net_on board.now).net piece)) }
    ensures kept { KeepsCounts places.old places.new }
{
    let decision = board.first(piece) + i;
    let from = board.plan.board.first(piece) + 1;
    let end = board.plan.board.end(piece);
    for switch in from..end {
        places.leave(
            board,
            switch,
            edge,
            decision + 1 + (switch - from),
            decision,
        );
    }
}
