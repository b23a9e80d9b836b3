//! The firings of a net of operations.

ghost use Rattle.std.specs.Prelude.{◌≡◌, ◌<◌, ◌≤◌, ◌+◌, None, Some, length, true, vec_capacity};
ghost use Rattle.std.specs.List.{list_all};
ghost use Rattle.cfg_build.specs.Passes.{out};
ghost use Rattle.closed_walks.specs.Graph.{edge_count};
ghost use Rattle.f77_meaning.specs.Room.{most_room};
ghost use Rattle.f77_meaning.specs.Storage.{memory_of};
ghost use Rattle.firing.specs.Control.{steered as steered_in};
ghost use Rattle.firing.specs.Moves.{FiredIs, newest};
ghost use Rattle.firing.specs.declared.system.NodeName.TheVariants.{Merge, Op, Switch};
ghost use Rattle.net_board.specs.Nodes.{graph_in};
ghost use Rattle.net_board.specs.SoundNets.{HasSizesOf};
ghost use Rattle.op_board.specs.OperationCourse.{due_operation, operation_course};
ghost use Rattle.op_board.specs.OperationNets.{first_operation, needed, operation_at, operation_count, operation_node};
ghost use Rattle.op_board.specs.OperationTokens.{can_operate, givers, has_room, is_given, line_as, merged_on, operated, operation_moves, performed_at, ready_as, stands_before, switched_on, value_at};
ghost use Rattle.op_board.specs.Operations.{gives_value};
ghost use Rattle.operation_effects.specs.Done.{KeepsLine, KeepsStorage, told};
ghost use Rattle.op_net.specs.ApartLoads.{KeepsApart};
ghost use Rattle.operation_tables.specs.BoardView.{operation_net_on};
ghost use Rattle.op_net.specs.FiringChanges.{given_on, remembered, room_left, told_on};
ghost use Rattle.op_net.specs.NetView.{marking_of, net_of};
ghost use Rattle.operation_tables.specs.OperationRows.{IsRow, room_of};
ghost use Rattle.operation_places.specs.PlacesView.{IsAheadBy, IsCounted, IsCountedAhead, KeepsCounts, MakesUp, standing};
ghost use Rattle.operation_places.specs.SoundPlaces.{ArePlaces};
ghost use Rattle.operation_places.specs.StandingChanges.{lines_dropped, values_taken};
ghost use Rattle.operation_places.specs.Turns.{is_turning};
ghost use Rattle.operation_places.specs.Steering.{LeadsBy};
ghost use Rattle.operation_places.specs.Visits.{IsVisit};
ghost use Rattle.operation_tables.specs.Waits.{node_total};

use crate::OpNet;
use crate::operating::{
    chosen_edge, drop_needed, fill_room, lead_line, move_lines, take_few, take_operands,
};
use f77_meaning::Storage;
use firing::{Fired, NodeName};
use operation_effects::{Did, perform};
use operation_places::{Places, Visit, passed_on, waits_are_few};
use operation_tables::{MANY, OperationBoard, Row};
use std::mem::swap;

impl<const W: usize> OpNet<'_, W> {
    /// Fires a ready node, and tells the edge by which control leaves the piece, if the node is due where that is decided.
    #[inline(always)]
    pub fn fire_node(&mut self, k: u32) -> (Fired, u32)
        requires node { k < node_total (net_of self.old) }
        requires ready { (operation_moves (net_of self.old)).ready (marking_of self.old) k ≡ true }
        requires sizes { HasSizesOf (net_of self.old).net.program (marking_of self.old).tokens.memory }
        requires going { self.old.trapped ≡ None }
        ensures net { net_of self.new ≡ net_of self.old }
        ensures marking { marking_of self.new ≡ (operation_moves (net_of self.old)).fired (marking_of self.old) k }
        ensures control { self.new.control ≡ self.old.control }
        ensures leads { LeadsBy (net_of self.old) (marking_of self.old) k result.1 }
        ensures edge { result.1 < edge_count (graph_in (net_of self.old).net) }
        ensures kept { KeepsApart self.old self.new }
        ensures fired { FiredIs (operation_moves (net_of self.old)) (marking_of self.old) k result.0 }
        ensures last { self.new.text.items ≡ newest ((operation_moves (net_of self.old)).line (marking_of self.old) k) self.old.text.items }
    {
        match self.board.row_at(k) {
            Some(row) => {
                let piece = row.piece;
                let i = row.number;
                self.operate(k, piece, i)
            }
            None => (Fired::Moved, self.turn(k)),
        }
    }

    // Fires a ready switch or merge, and tells the edge along which its line is led.
    #[inline(always)]
    fn turn(&mut self, k: u32) -> u32
        requires node { k < node_total (net_of self.old) }
        requires turn { is_turning (operation_node (net_of self.old) k) ≡ true }
        requires ready { ready_as (net_of self.old) (marking_of self.old) k (operation_node (net_of self.old) k) ≡ true }
        ensures net { net_of self.new ≡ net_of self.old }
        ensures marking { marking_of self.new ≡ (operation_moves (net_of self.old)).fired (marking_of self.old) k }
        ensures control { self.new.control ≡ self.old.control }
        ensures leads { LeadsBy (net_of self.old) (marking_of self.old) k result }
        ensures edge { result < edge_count (graph_in (net_of self.old).net) }
        ensures kept { KeepsApart self.old self.new }
        ensures text { self.new.text.items ≡ self.old.text.items }
    {
        match self.board.name(k) {
            NodeName::Switch(piece, line) => {
                switch(&self.board, &mut self.places, k, piece, line)
            }
            NodeName::Merge(piece, line) => merge(&self.board, &mut self.places, k, piece, line),
            NodeName::Act(_) | NodeName::Op(_, _) => 0,
        }
    }

    /// Fires the node that is due where control stands, and moves control on.
    pub(crate) fn fire_visited(&mut self, visit: &mut Visit, k: u32) -> Fired
        requires visit { IsVisit (net_of self.old) visit.old }
        requires here { self.old.control ≡ Some visit.old.control }
        requires due { due_operation (net_of self.old) visit.old.control ≡ Some k }
        requires node { k < node_total (net_of self.old) }
        requires ready { (operation_moves (net_of self.old)).ready (marking_of self.old) k ≡ true }
        requires sizes { HasSizesOf (net_of self.old).net.program (marking_of self.old).tokens.memory }
        requires going { self.old.trapped ≡ None }
        ensures net { net_of self.new ≡ net_of self.old }
        ensures marking { marking_of self.new ≡ (operation_moves (net_of self.old)).fired (marking_of self.old) k }
        ensures place { self.new.control ≡ steered_in (operation_course (net_of self.old)) (marking_of self.old) self.old.control k }
        ensures fired { FiredIs (operation_moves (net_of self.old)) (marking_of self.old) k result }
        ensures last { self.new.text.items ≡ newest ((operation_moves (net_of self.old)).line (marking_of self.old) k) self.old.text.items }
        ensures visit { IsVisit (net_of self.new) visit.new }
        ensures here { self.new.control ≡ Some visit.new.control }
    {
        let piece = visit.control.piece;
        let (fired, edge) = self.fire_numbered(k, piece, visit.control.fired, visit.operations);
        *visit = passed_on(&self.board, *visit, edge);
        self.control = Some(visit.control);
        fired
    }

    // Fires a ready node, which has this number in its piece, that has so many operations.
    fn fire_numbered(&mut self, k: u32, piece: u32, number: u32, operations: u32) -> (Fired, u32)
        requires piece { piece < (graph_in (net_of self.old).net).nodes }
        requires number { k ≡ first_operation (net_of self.old) piece + number }
        requires operations { operations ≡ operation_count (net_of self.old) piece }
        requires node { k < node_total (net_of self.old) }
        requires ready { (operation_moves (net_of self.old)).ready (marking_of self.old) k ≡ true }
        requires sizes { HasSizesOf (net_of self.old).net.program (marking_of self.old).tokens.memory }
        requires going { self.old.trapped ≡ None }
        ensures net { net_of self.new ≡ net_of self.old }
        ensures marking { marking_of self.new ≡ (operation_moves (net_of self.old)).fired (marking_of self.old) k }
        ensures control { self.new.control ≡ self.old.control }
        ensures leads { LeadsBy (net_of self.old) (marking_of self.old) k result.1 }
        ensures edge { result.1 < edge_count (graph_in (net_of self.old).net) }
        ensures kept { KeepsApart self.old self.new }
        ensures fired { FiredIs (operation_moves (net_of self.old)) (marking_of self.old) k result.0 }
        ensures last { self.new.text.items ≡ newest ((operation_moves (net_of self.old)).line (marking_of self.old) k) self.old.text.items }
    {
        if number < operations {
            self.operate(k, piece, number)
        } else {
            self.fire_node(k)
        }
    }

    // Fires an operation, and tells the edge by which control leaves the piece after the last one.
    #[inline(always)]
    fn operate(&mut self, k: u32, piece: u32, i: u32) -> (Fired, u32)
        requires node { k < node_total (net_of self.old) }
        requires name { operation_node (net_of self.old) k ≡ Op piece i }
        requires ready { can_operate (net_of self.old) (marking_of self.old) k piece i (operation_at (net_of self.old) piece i) ≡ true }
        requires sizes { HasSizesOf (net_of self.old).net.program (marking_of self.old).tokens.memory }
        requires going { self.old.trapped ≡ None }
        ensures net { net_of self.new ≡ net_of self.old }
        ensures marking { marking_of self.new ≡ operated (net_of self.old) (marking_of self.old) k piece i (operation_at (net_of self.old) piece i) (performed_at (net_of self.old) (marking_of self.old) piece (operation_at (net_of self.old) piece i)) }
        ensures control { self.new.control ≡ self.old.control }
        ensures leads { LeadsBy (net_of self.old) (marking_of self.old) k result.1 }
        ensures edge { result.1 < edge_count (graph_in (net_of self.old).net) }
        ensures kept { KeepsApart self.old self.new }
        ensures fired { FiredIs (operation_moves (net_of self.old)) (marking_of self.old) k result.0 }
        ensures last { self.new.text.items ≡ newest (line_as (net_of self.old) (marking_of self.old) (Op piece i)) self.old.text.items }
    {
        let board = &self.board;
        let row = board.row_of(k);
        let places = &mut self.places;
        count_ahead(board, places, k, row.waits);
        let plan = &board.plan.board.plan;
        let did = work_with(
            board,
            places,
            piece,
            i,
            k - i,
            row,
            &plan.input,
            &mut self.storage,
            &mut self.draft,
            &mut self.args,
        );
        match did {
            Did::Gave(z) => (Fired::Moved, give(board, places, k, piece, i, row, z)),
            Did::Changed => (Fired::Moved, tell(board, places, piece, i, row, 0)),
            Did::Wrote => {
                swap(&mut self.text, &mut self.draft);
                (Fired::Line, tell(board, places, piece, i, row, 0))
            }
            Did::Told(choice) => (Fired::Moved, tell(board, places, piece, i, row, choice)),
            Did::Trapped(trap) => {
                if !row.serial {
                    return (Fired::Moved, give(board, places, k, piece, i, row, 0));
                }
                let line = plan.flow.piece(piece).line;
                self.trapped = Some((trap, line));
                (Fired::Trapped, stop(board, places, k, piece, i, row))
            }
        }
    }
}

/// A node that fires waits anew for so much, which is counted at once.
#[inline(always)]
pub(crate) fn count_ahead<const W: usize>(
    board: &OperationBoard<W>,
    places: &mut Places,
    k: u32,
    more: u32,
)
    requires node { k < node_total (operation_net_on board.now) }
    requires places { ArePlaces (operation_net_on board.now) places.old }
    requires counted { IsCounted (operation_net_on board.now) places.old }
    ensures ahead { IsCountedAhead (operation_net_on board.now) places.new k more }
    ensures standing { standing places.new ≡ standing places.old }
    ensures kept { KeepsCounts places.old places.new }
    ensures places { ArePlaces (operation_net_on board.now) places.new }
{
    waits_are_few(board);
    places.wait_anew(k, more);
}

/// Takes the operands of an operation, and performs it.
#[inline(always)]
pub(crate) fn work_with<'a, const W: usize>(
    board: &OperationBoard<'a, W>,
    places: &mut Places,
    piece: u32,
    i: u32,
    first: u32,
    row: &Row<'a>,
    input: &Vec<i32>,
    storage: &mut Storage,
    draft: &mut Vec<u8>,
    args: &mut Vec<i32>,
) -> Did
    requires piece { piece < (graph_in (operation_net_on board.now).net).nodes }
    requires operation { i < operation_count (operation_net_on board.now) piece }
    requires first { first ≡ first_operation (operation_net_on board.now) piece }
    requires row { ∥ IsRow (operation_net_on board.now) piece i row.now ∥₁ }
    requires places { ArePlaces (operation_net_on board.now) places.old }
    requires given { list_all (is_given (operation_net_on board.now) (standing places.old) piece) (operation_at (operation_net_on board.now) piece i).operands ≡ true }
    requires sizes { HasSizesOf (operation_net_on board.now).net.program (memory_of storage.old) }
    requires data { input.now.items ≡ (operation_net_on board.now).net.input }
    requires taken { storage.old.taken ≤ length input.now.items }
    requires room { board.now.tables.most ≤ vec_capacity args.old }
    requires draft_room { most_room (operation_net_on board.now).net.program.execs ≤ vec_capacity draft.old }
    requires ahead { ∥ IsAheadBy (operation_net_on board.now) places.old (first_operation (operation_net_on board.now) piece + i) (length (givers (operation_net_on board.now) piece (operation_at (operation_net_on board.now) piece i).operands)) ∥₁ }
    ensures effect { performed_at (operation_net_on board.now) (remembered (standing places.old) (memory_of storage.old)) piece (operation_at (operation_net_on board.now) piece i) ≡ told result (memory_of storage.new) draft.new.items }
    ensures standing { standing places.new ≡ values_taken (operation_net_on board.now) (standing places.old) piece i }
    ensures memory { KeepsStorage result storage.old storage.new }
    ensures line { KeepsLine result draft.old.items draft.new.items }
    ensures data { storage.new.taken ≤ length input.now.items }
    ensures room { vec_capacity args.old ≤ vec_capacity args.new }
    ensures draft_room { vec_capacity draft.old ≤ vec_capacity draft.new }
    ensures counted { MakesUp (operation_net_on board.now) places.old places.new (first_operation (operation_net_on board.now) piece + i) (length (givers (operation_net_on board.now) piece (operation_at (operation_net_on board.now) piece i).operands)) }
    ensures kept { KeepsCounts places.old places.new }
    ensures places { ArePlaces (operation_net_on board.now) places.new }
{
    if row.count == MANY {
        return work_with_many(board, places, piece, i, row, input, storage, draft, args);
    }
    let few = take_few(board, places, piece, i, first, row);
    let program = board.plan.board.plan.program;
    perform(
        row.task,
        &few[..usize::from(row.count)],
        program,
        input,
        storage,
        draft,
    )
}

// The same for an operation of any number of operands.
#[inline(never)]
fn work_with_many<'a, const W: usize>(
    board: &OperationBoard<'a, W>,
    places: &mut Places,
    piece: u32,
    i: u32,
    row: &Row<'a>,
    input: &Vec<i32>,
    storage: &mut Storage,
    draft: &mut Vec<u8>,
    args: &mut Vec<i32>,
) -> Did
    requires piece { piece < (graph_in (operation_net_on board.now).net).nodes }
    requires operation { i < operation_count (operation_net_on board.now) piece }
    requires row { ∥ IsRow (operation_net_on board.now) piece i row.now ∥₁ }
    requires places { ArePlaces (operation_net_on board.now) places.old }
    requires given { list_all (is_given (operation_net_on board.now) (standing places.old) piece) (operation_at (operation_net_on board.now) piece i).operands ≡ true }
    requires sizes { HasSizesOf (operation_net_on board.now).net.program (memory_of storage.old) }
    requires data { input.now.items ≡ (operation_net_on board.now).net.input }
    requires taken { storage.old.taken ≤ length input.now.items }
    requires room { board.now.tables.most ≤ vec_capacity args.old }
    requires draft_room { most_room (operation_net_on board.now).net.program.execs ≤ vec_capacity draft.old }
    requires ahead { ∥ IsAheadBy (operation_net_on board.now) places.old (first_operation (operation_net_on board.now) piece + i) (length (givers (operation_net_on board.now) piece (operation_at (operation_net_on board.now) piece i).operands)) ∥₁ }
    ensures effect { performed_at (operation_net_on board.now) (remembered (standing places.old) (memory_of storage.old)) piece (operation_at (operation_net_on board.now) piece i) ≡ told result (memory_of storage.new) draft.new.items }
    ensures standing { standing places.new ≡ values_taken (operation_net_on board.now) (standing places.old) piece i }
    ensures memory { KeepsStorage result storage.old storage.new }
    ensures line { KeepsLine result draft.old.items draft.new.items }
    ensures data { storage.new.taken ≤ length input.now.items }
    ensures room { vec_capacity args.old ≤ vec_capacity args.new }
    ensures draft_room { vec_capacity draft.old ≤ vec_capacity draft.new }
    ensures counted { MakesUp (operation_net_on board.now) places.old places.new (first_operation (operation_net_on board.now) piece + i) (length (givers (operation_net_on board.now) piece (operation_at (operation_net_on board.now) piece i).operands)) }
    ensures kept { KeepsCounts places.old places.new }
    ensures places { ArePlaces (operation_net_on board.now) places.new }
{
    take_operands(board, places, piece, i, row, args);
    let program = board.plan.board.plan.program;
    perform(row.task, args.as_slice(), program, input, storage, draft)
}

// Gives a value to the operation that takes it, and leads on the lines that the operation needs.
#[inline(always)]
fn give<const W: usize>(
    board: &OperationBoard<W>,
    places: &mut Places,
    k: u32,
    piece: u32,
    i: u32,
    row: &Row,
    z: i32,
) -> u32
    requires node { k < node_total (operation_net_on board.now) }
    requires name { operation_node (operation_net_on board.now) k ≡ Op piece i }
    requires piece { piece < (graph_in (operation_net_on board.now).net).nodes }
    requires operation { i < operation_count (operation_net_on board.now) piece }
    requires row { ∥ IsRow (operation_net_on board.now) piece i row.now ∥₁ }
    requires places { ArePlaces (operation_net_on board.now) places.old }
    requires gives { gives_value (operation_at (operation_net_on board.now) piece i).work ≡ true }
    requires empty { value_at (standing places.old) k ≡ None }
    requires stand { list_all (stands_before (operation_net_on board.now) (standing places.old) piece i) (needed (operation_net_on board.now) piece i) ≡ true }
    requires ahead { ∥ IsAheadBy (operation_net_on board.now) places.old k (1 + length (needed (operation_net_on board.now) piece i)) ∥₁ }
    ensures standing { standing places.new ≡ given_on (operation_net_on board.now) (standing places.old) k piece i z }
    ensures counted { MakesUp (operation_net_on board.now) places.old places.new k (1 + length (needed (operation_net_on board.now) piece i)) }
    ensures kept { KeepsCounts places.old places.new }
    ensures places { ArePlaces (operation_net_on board.now) places.new }
    ensures edge { result ≡ out (graph_in (operation_net_on board.now).net) piece 0 }
    ensures exists { result < edge_count (graph_in (operation_net_on board.now).net) }
{
    let first = k - i;
    places.give(board, k, z, first + row.taker);
    move_lines(board, places, piece, i, first, row, row.edge);
    row.edge
}

// Leads on the lines that an operation needs along the edge with this number, which it tells, and where it is a decision leaves that
// edge for the switches.
#[inline(never)]
fn tell<const W: usize>(
    board: &OperationBoard<W>,
    places: &mut Places,
    piece: u32,
    i: u32,
    row: &Row,
    choice: u32,
) -> u32
    requires piece { piece < (graph_in (operation_net_on board.now).net).nodes }
    requires operation { i < operation_count (operation_net_on board.now) piece }
    requires row { ∥ IsRow (operation_net_on board.now) piece i row.now ∥₁ }
    requires places { ArePlaces (operation_net_on board.now) places.old }
    requires stand { list_all (stands_before (operation_net_on board.now) (standing places.old) piece i) (needed (operation_net_on board.now) piece i) ≡ true }
    requires room { has_room (operation_net_on board.now) (standing places.old) piece (operation_at (operation_net_on board.now) piece i).work ≡ true }
    requires ahead { ∥ IsAheadBy (operation_net_on board.now) places.old (first_operation (operation_net_on board.now) piece + i) (room_of (operation_net_on board.now) piece i + length (needed (operation_net_on board.now) piece i)) ∥₁ }
    ensures standing { standing places.new ≡ told_on (operation_net_on board.now) (standing places.old) piece i choice }
    ensures counted { MakesUp (operation_net_on board.now) places.old places.new (first_operation (operation_net_on board.now) piece + i) (room_of (operation_net_on board.now) piece i + length (needed (operation_net_on board.now) piece i)) }
    ensures kept { KeepsCounts places.old places.new }
    ensures places { ArePlaces (operation_net_on board.now) places.new }
    ensures edge { result ≡ out (graph_in (operation_net_on board.now).net) piece choice }
    ensures exists { result < edge_count (graph_in (operation_net_on board.now).net) }
{
    let edge = chosen_edge(board, piece, i, row, choice);
    leave_room(board, places, piece, i, row, edge);
    let first = board.first(piece);
    move_lines(board, places, piece, i, first, row, edge);
    edge
}

// A decision leaves an edge for the switches of its piece.
#[inline(always)]
fn leave_room<const W: usize>(
    board: &OperationBoard<W>,
    places: &mut Places,
    piece: u32,
    i: u32,
    row: &Row,
    edge: u32,
)
    requires piece { piece < (graph_in (operation_net_on board.now).net).nodes }
    requires operation { i < operation_count (operation_net_on board.now) piece }
    requires row { ∥ IsRow (operation_net_on board.now) piece i row.now ∥₁ }
    requires edge { edge < edge_count (graph_in (operation_net_on board.now).net) }
    requires places { ArePlaces (operation_net_on board.now) places.old }
    requires room { has_room (operation_net_on board.now) (standing places.old) piece (operation_at (operation_net_on board.now) piece i).work ≡ true }
    requires ahead { ∥ IsAheadBy (operation_net_on board.now) places.old (first_operation (operation_net_on board.now) piece + i) (room_of (operation_net_on board.now) piece i) ∥₁ }
    ensures standing { standing places.new ≡ room_left (operation_net_on board.now) (standing places.old) piece i edge }
    ensures counted { MakesUp (operation_net_on board.now) places.old places.new (first_operation (operation_net_on board.now) piece + i) (room_of (operation_net_on board.now) piece i) }
    ensures kept { KeepsCounts places.old places.new }
    ensures places { ArePlaces (operation_net_on board.now) places.new }
{
    if row.decides {
        fill_room(board, places, piece, i, edge);
    }
}

// At a trap the lines that an operation needs vanish, and no value is given.
#[inline(never)]
fn stop<const W: usize>(
    board: &OperationBoard<W>,
    places: &mut Places,
    k: u32,
    piece: u32,
    i: u32,
    row: &Row,
) -> u32
    requires node { k < node_total (operation_net_on board.now) }
    requires name { operation_node (operation_net_on board.now) k ≡ Op piece i }
    requires piece { piece < (graph_in (operation_net_on board.now).net).nodes }
    requires operation { i < operation_count (operation_net_on board.now) piece }
    requires row { ∥ IsRow (operation_net_on board.now) piece i row.now ∥₁ }
    requires places { ArePlaces (operation_net_on board.now) places.old }
    requires stand { list_all (stands_before (operation_net_on board.now) (standing places.old) piece i) (needed (operation_net_on board.now) piece i) ≡ true }
    requires ahead { ∥ IsAheadBy (operation_net_on board.now) places.old k (1 + length (needed (operation_net_on board.now) piece i)) ∥₁ }
    ensures standing { standing places.new ≡ lines_dropped (operation_net_on board.now) (standing places.old) piece i }
    ensures counted { MakesUp (operation_net_on board.now) places.old places.new k (1 + length (needed (operation_net_on board.now) piece i)) }
    ensures kept { KeepsCounts places.old places.new }
    ensures places { ArePlaces (operation_net_on board.now) places.new }
    ensures edge { result ≡ out (graph_in (operation_net_on board.now).net) piece 0 }
    ensures exists { result < edge_count (graph_in (operation_net_on board.now).net) }
{
    drop_needed(board, places, piece, i);
    places.wait_less(k);
    row.edge
}

// Leads a line on along the edge that was left for it, which it tells.
#[inline(always)]
fn switch<const W: usize>(
    board: &OperationBoard<W>,
    places: &mut Places,
    k: u32,
    piece: u32,
    line: u32,
) -> u32
    requires node { k < node_total (operation_net_on board.now) }
    requires name { operation_node (operation_net_on board.now) k ≡ Switch piece line }
    requires ready { ready_as (operation_net_on board.now) (standing places.old) k (Switch piece line) ≡ true }
    requires places { ArePlaces (operation_net_on board.now) places.old }
    requires counted { IsCounted (operation_net_on board.now) places.old }
    ensures standing { standing places.new ≡ switched_on (operation_net_on board.now) (standing places.old) piece line }
    ensures counted { IsCounted (operation_net_on board.now) places.new }
    ensures kept { KeepsCounts places.old places.new }
    ensures places { ArePlaces (operation_net_on board.now) places.new }
    ensures edge { result < edge_count (graph_in (operation_net_on board.now).net) }
{
    let switch = board.switch_number(k, piece);
    let Some(edge) = places.edges[switch as usize] else {
        return 0;
    };
    count_ahead(board, places, k, 2);
    places.clear(board, switch, k, board.decision(piece));
    lead_line(board, places, line, edge, k);
    edge
}

// Leads a line on along the edge that leaves the piece, which it tells.
#[inline(always)]
fn merge<const W: usize>(
    board: &OperationBoard<W>,
    places: &mut Places,
    k: u32,
    piece: u32,
    line: u32,
) -> u32
    requires node { k < node_total (operation_net_on board.now) }
    requires name { operation_node (operation_net_on board.now) k ≡ Merge piece line }
    requires ready { ready_as (operation_net_on board.now) (standing places.old) k (Merge piece line) ≡ true }
    requires places { ArePlaces (operation_net_on board.now) places.old }
    requires counted { IsCounted (operation_net_on board.now) places.old }
    ensures standing { standing places.new ≡ merged_on (operation_net_on board.now) (standing places.old) piece line }
    ensures counted { IsCounted (operation_net_on board.now) places.new }
    ensures kept { KeepsCounts places.old places.new }
    ensures places { ArePlaces (operation_net_on board.now) places.new }
    ensures edge { result ≡ out (graph_in (operation_net_on board.now).net) piece 0 }
    ensures exists { result < edge_count (graph_in (operation_net_on board.now).net) }
{
    let edge = board.out_edge(piece, 0);
    count_ahead(board, places, k, 1);
    lead_line(board, places, line, edge, k);
    edge
}
