//! The nodes of a net of operations, in the order of their numbers.

ghost use Rattle.std.specs.Prelude.{◌≡◌, ◌<◌, ◌≤◌, ◌-◌, ◌^◌, ◌++◌, suc, true, length, map, IfOk, OnOk};
ghost use Rattle.std.specs.List.{range_with_len};
ghost use Rattle.net_board.specs.Nodes.{graph_in, kind_in, node_at, nodes_at, nodes_of};
ghost use Rattle.op_board.specs.OperationFacts.{is_parting};
ghost use Rattle.op_board.specs.OperationNets.{all_operation_nodes, first_operation, operation_nodes, operation_nodes_at};
ghost use Rattle.operation_tables.specs.PlanView.{operations_in};

use crate::plan::OperationPlan;
use crate::row_laws::plans_can_be_numbered;
use cfg_build::PieceKind;
use df_sequence::NoMemory;
use firing::NodeName;
use node_names::NameList;
use std::alloc::Global;

/// The nodes by pieces.
#[derive(Drop)]
pub(crate) struct NumberedNodes {
    pub(crate) names: NameList,
    pub(crate) firsts: Vec<u32>,
}

/// The nodes, and for each piece the number of its first one, and last the number of all.
pub(crate) fn numbered_nodes<const W: usize>(
    alloc: Global,
    plan: &OperationPlan<W>,
) -> Result<NumberedNodes, NoMemory>
    ensures names { IfOk result (λ n. n.names ≡ all_operation_nodes (operations_in plan.now)) }
    ensures few { IfOk result (λ n. length n.names < 2 ^ 32) }
    ensures firsts { IfOk result (λ n. n.firsts.items ≡ map (first_operation (operations_in plan.now)) (range_with_len 0 (suc (graph_in (operations_in plan.now).net).nodes))) }
{
    plans_can_be_numbered(plan);
    let mut names = NameList::new(alloc);
    let mut firsts = Vec::with_capacity(alloc, plan.board.plan.flow.pieces() as usize + 1)?;
    let mut count = 0;
    firsts.push(count)?;
    for piece in 0..plan.board.plan.flow.pieces() {
        push_nodes(&mut names, plan, piece)?;
        count = names.len() as u32;
        firsts.push(count)?;
    }
    Ok(NumberedNodes { names, firsts })
}

/// Appends the nodes of a piece: its operations, and its switches or merges.
fn push_nodes<const W: usize>(
    names: &mut NameList,
    plan: &OperationPlan<W>,
    piece: u32,
) -> Result<(), NoMemory>
    requires { piece < (graph_in (operations_in plan.now).net).nodes }
    ensures { OnOk result (names.new ≡ names.old ++ operation_nodes_at (operations_in plan.now) piece) }
{
    match plan.board.plan.flow.piece(piece).kind {
        PieceKind::Act => push_operations(names, plan, piece),
        PieceKind::Branch | PieceKind::Hold => push_parting(names, plan, piece),
        PieceKind::Join | PieceKind::End => push_merges(names, plan, piece),
        PieceKind::Start | PieceKind::Pass => Ok(()),
    }
}

/// Appends a node for each operation of the piece.
fn push_operations<const W: usize>(
    names: &mut NameList,
    plan: &OperationPlan<W>,
    piece: u32,
) -> Result<(), NoMemory>
    requires { piece < (graph_in (operations_in plan.now).net).nodes }
    ensures { OnOk result (names.new ≡ names.old ++ operation_nodes (operations_in plan.now) piece) }
{
    plans_can_be_numbered(plan);
    let count = plan.pieces[piece as usize].operations.len() as u32;
    for i in 0..count {
        names.push(NodeName::Op(piece, i))?;
    }
    Ok(())
}

/// Appends the nodes of a piece at which edges part: its operations, and its switches, which are those of the net of statements,
/// behind the first node of the piece there.
fn push_parting<const W: usize>(
    names: &mut NameList,
    plan: &OperationPlan<W>,
    piece: u32,
) -> Result<(), NoMemory>
    requires piece { piece < (graph_in (operations_in plan.now).net).nodes }
    requires parts { is_parting (kind_in (operations_in plan.now).net piece) ≡ true }
    ensures { OnOk result (names.new ≡ names.old ++ operation_nodes_at (operations_in plan.now) piece) }
{
    push_operations(names, plan, piece)?;
    let end = plan.board.end(piece);
    push_turns(names, plan, plan.board.first(piece) + 1, end)
}

/// Appends the nodes that a piece has in the net of statements.
fn push_merges<const W: usize>(
    names: &mut NameList,
    plan: &OperationPlan<W>,
    piece: u32,
) -> Result<(), NoMemory>
    requires { piece < (graph_in (operations_in plan.now).net).nodes }
    ensures { OnOk result (names.new ≡ names.old ++ nodes_at (operations_in plan.now).net piece) }
{
    push_turns(names, plan, plan.board.first(piece), plan.board.end(piece))
}

/// Appends the nodes of the net of statements from one number up to another one.
fn push_turns<const W: usize>(
    names: &mut NameList,
    plan: &OperationPlan<W>,
    from: u32,
    end: u32,
) -> Result<(), NoMemory>
    requires order { from ≤ end }
    requires within { end ≤ length (nodes_of (operations_in plan.now).net) }
    ensures { OnOk result (names.new ≡ names.old ++ map (node_at (operations_in plan.now).net) (range_with_len from (end - from))) }
{
    for n in from..end {
        names.push(plan.board.name(n))?;
    }
    Ok(())
}
