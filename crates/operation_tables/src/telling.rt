//! What is told of the operations of a net.

ghost use Rattle.std.specs.Prelude.{◌≡◌, ◌<◌, ℕ, Some, get_or, length, map, slice_get};
ghost use Rattle.class_set.specs.ClassSet.{holds};
ghost use Rattle.operation_lists.specs.Seen.{operand_seen, work_seen};
ghost use Rattle.operation_tables.specs.Telling.{operation_name};

use crate::OpGraph;
use class_set::ClassSet;
use firing::NodeName;
use op_table::Op;
use operation_lists::{Operand, Operands, Work};

/// What an operation does.
#[derive(Clone, Copy, Debug, PartialEq, Eq)]
pub enum OpName {
    /// Gives a word.
    Load,
    /// Gives the value of an operator.
    Apply(Op),
    /// Writes a word.
    Store,
    /// Writes a line of output.
    Write,
    /// Begins a DO.
    Begin,
    /// Increments a DO.
    Advance,
    /// Tells the edge by which control leaves a branch or a hold.
    Decide,
    /// Gives the next word of the data.
    Take,
}

/// What is told of what an operation does.
pub fn work_name(work: &Work) -> OpName
    ensures { result ≡ operation_name (work_seen work.now) }
{
    match work {
        Work::Load(_) => OpName::Load,
        Work::Operate(op) => OpName::Apply(*op),
        Work::Store(_) => OpName::Store,
        Work::Take => OpName::Take,
        Work::Write(_) => OpName::Write,
        Work::Begin(_, _) => OpName::Begin,
        Work::Advance(_, _) => OpName::Advance,
        Work::DecideTruth
        | Work::DecideSign
        | Work::DecideNumber(_)
        | Work::DecideTrips(_)
        | Work::DecideFirst => OpName::Decide,
    }
}

impl<'a, const W: usize> OpGraph<'a, W> {
    ghost use Rattle.firing.specs.declared.system.NodeName.TheVariants.{Op as op_node};
    ghost use Rattle.net_board.specs.Nodes.{graph_in};
    ghost use Rattle.op_board.specs.OperationNets.{operation_at, operation_count, operation_node};
    ghost use Rattle.operation_tables.specs.GraphView.{operations_of};
    ghost use Rattle.operation_tables.specs.Telling.{IsOperation, node_operands, piece_of, number_of};
    ghost use Rattle.operation_tables.specs.Waits.{node_total};

    /// What an operation does.
    pub fn op_name(&self, k: u32) -> OpName
        requires node { k < node_total (operations_of self.now) }
        requires operation { IsOperation (operation_node (operations_of self.now) k) }
        ensures { result ≡ operation_name (operation_at (operations_of self.now) (piece_of (operation_node (operations_of self.now) k)) (number_of (operation_node (operations_of self.now) k))).work }
    {
        let (piece, i) = self.operation(k);
        self.name_of(piece, i)
    }

    // The piece of an operation, and its number there.
    fn operation(&self, k: u32) -> (u32, u32)
        requires node { k < node_total (operations_of self.now) }
        requires operation { IsOperation (operation_node (operations_of self.now) k) }
        ensures name { operation_node (operations_of self.now) k ≡ op_node result.0 result.1 }
        ensures exists { result.0 < (graph_in (operations_of self.now).net).nodes }
        ensures inside { result.1 < operation_count (operations_of self.now) result.0 }
    {
        match self.name(k) {
            NodeName::Op(piece, i) => (piece, i),
            NodeName::Switch(_, _) => (0, 0),
            NodeName::Merge(_, _) => (0, 0),
            NodeName::Act(_) => (0, 0),
        }
    }

    // What this operation of a piece does.
    fn name_of(&self, piece: u32, i: u32) -> OpName
        requires piece { piece < (graph_in (operations_of self.now).net).nodes }
        requires operation { i < operation_count (operations_of self.now) piece }
        ensures { result ≡ operation_name (operation_at (operations_of self.now) piece i).work }
    {
        let operations = &self.plan.pieces[piece as usize].operations;
        work_name(&operations[i as usize].work)
    }

    /// The lines that an operation needs.
    pub fn needs(&self, k: u32) -> ClassSet<W>
        requires node { k < node_total (operations_of self.now) }
        requires operation { IsOperation (operation_node (operations_of self.now) k) }
        ensures { (line : ℕ) → holds result line ≡ (operations_of self.now).needs (piece_of (operation_node (operations_of self.now) k)) (number_of (operation_node (operations_of self.now) k)) line }
    {
        let (piece, i) = self.operation(k);
        self.plan.pieces[piece as usize].needs.at(i as usize)
    }

    /// How many operands an operation has.
    pub fn operands(&self, k: u32) -> u32
        requires node { k < node_total (operations_of self.now) }
        requires operation { IsOperation (operation_node (operations_of self.now) k) }
        ensures { result ≡ length (operation_at (operations_of self.now) (piece_of (operation_node (operations_of self.now) k)) (number_of (operation_node (operations_of self.now) k))).operands }
    {
        let (piece, number) = self.operation(k);
        self.operands_of(piece, number).len() as u32
    }

    /// An operand of an operation, counted from 0: the node that gives it, or its known value.
    pub fn operand(&self, k: u32, i: u32) -> Operand
        requires node { k < node_total (operations_of self.now) }
        requires operation { IsOperation (operation_node (operations_of self.now) k) }
        requires inside { i < length (operation_at (operations_of self.now) (piece_of (operation_node (operations_of self.now) k)) (number_of (operation_node (operations_of self.now) k))).operands }
        ensures { Some result ≡ slice_get (node_operands (operations_of self.now) (piece_of (operation_node (operations_of self.now) k)) (number_of (operation_node (operations_of self.now) k))) i }
    {
        let (piece, number) = self.operation(k);
        let operand = operand_at(self.operands_of(piece, number), i as usize);
        match operand {
            Operand::Known(_) => operand,
            Operand::Node(giver) => Operand::Node(self.first(piece) + giver),
        }
    }

    // The operands of this operation of a piece.
    fn operands_of(&self, piece: u32, i: u32) -> &Operands
        requires piece { piece < (graph_in (operations_of self.now).net).nodes }
        requires operation { i < operation_count (operations_of self.now) piece }
        ensures { ∥ map operand_seen result.now.items ≡ (operation_at (operations_of self.now) piece i).operands ∥₁ }
    {
        let operations = &self.plan.pieces[piece as usize].operations;
        &operations[i as usize].operands
    }
}

/// One of these operands.
pub fn operand_at(operands: &Operands, i: usize) -> Operand
    requires { i < length operands.now.items }
    ensures { result ≡ get_or operands.now.items i result }
{
    operands.as_slice()[i]
}
