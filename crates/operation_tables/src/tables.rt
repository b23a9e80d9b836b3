//! The tables of a net of operations, made from its plan.

ghost use Rattle.std.specs.Prelude.{◌≡◌, ◌<◌, ◌≤◌, ◌+◌, ℕ, IfOk, Some, length, slice_get};
ghost use Rattle.firing.specs.declared.system.NodeName.{NodeName};
ghost use Rattle.operation_lists.specs.declared.operations.Operation.{Operation};
ghost use Rattle.op_board.specs.OperationNets.{operation_at, operation_count};
ghost use Rattle.operation_tables.specs.NodeTables.{AreNodeTables};
ghost use Rattle.operation_tables.specs.OperationTables.{AreOperationTables};
ghost use Rattle.operation_tables.specs.PieceTables.{AreAllRows, IsCounted, record_in};
ghost use Rattle.operation_tables.specs.PlanView.{operations_in};

use crate::hops::make_scratch;
use crate::names::numbered_nodes;
use crate::plan::OperationPlan;
use crate::row_laws::plans_can_be_numbered;
use crate::rows::{PieceRows, Row, make_rows};
use df_sequence::NoMemory;
use firing::NodeName;
use node_names::NameList;
use operation_lists::Operation;
use std::alloc::Global;

/// The nodes of a net of operations.
#[derive(Drop)]
pub(crate) struct NodeTables {
    /// The name of each node.
    pub(crate) names: NameList,
    /// For each piece the number of its first node, and last the number of all nodes.
    pub(crate) firsts: Vec<u32>,
    /// There are no more operations before one in its piece together with its operands than this, which can be numbered.
    pub(crate) most: usize,
}

/// The nodes of a net of operations, and what their firings look up.
#[derive(Drop)]
pub struct OperationTables<'a> {
    /// The name of each node.
    pub names: NameList,
    /// For each piece the number of its first node, and last the number of all nodes.
    pub firsts: Vec<u32>,
    /// The rows of all operations, piece by piece.
    pub rows: Vec<Row<'a>>,
    /// For each piece the number of its first row, and last the number of all rows.
    pub starts: Vec<u32>,
    /// For each node the number of its row, or a greater one than any row's where it is no operation.
    pub records: Vec<u32>,
    /// For each piece and each line that it touches the first operation that needs it.
    pub entries: Vec<Vec<u32>>,
    /// There are no more operations before one in its piece together with its operands than this, which can be numbered.
    pub most: usize,
}

/// The nodes of a net of operations.
pub(crate) fn make_node_tables<const W: usize>(
    alloc: Global,
    plan: &OperationPlan<W>,
) -> Result<NodeTables, NoMemory>
    ensures { IfOk result (λ t. AreNodeTables (operations_in plan.now) t) }
{
    let nodes = numbered_nodes(alloc, plan)?;
    Ok(NodeTables {
        names: nodes.names,
        firsts: nodes.firsts,
        most: most_values(plan),
    })
}

/// The tables of a net of operations with these nodes.
pub(crate) fn make_tables<'a, const W: usize>(
    alloc: Global,
    plan: &OperationPlan<'a, W>,
    nodes: NodeTables,
) -> Result<OperationTables<'a>, NoMemory>
    requires { AreNodeTables (operations_in plan.now) nodes }
    ensures { IfOk result (λ t. AreOperationTables (operations_in plan.now) t) }
{
    let AllRows {
        rows,
        starts,
        entries,
    } = all_rows(alloc, plan)?;
    let records = records_of(alloc, &nodes.names, &starts)?;
    Ok(OperationTables {
        names: nodes.names,
        firsts: nodes.firsts,
        rows,
        starts,
        records,
        entries,
        most: nodes.most,
    })
}

/// The rows of all operations.
#[derive(Drop)]
pub(crate) struct AllRows<'a> {
    /// They stand piece by piece.
    pub(crate) rows: Vec<Row<'a>>,
    /// For each piece the number of its first row, and last the number of all rows.
    pub(crate) starts: Vec<u32>,
    /// For each piece and each line that it touches the first operation that needs it.
    pub(crate) entries: Vec<Vec<u32>>,
}

/// The rows of all operations.
fn all_rows<'a, const W: usize>(
    alloc: Global,
    plan: &OperationPlan<'a, W>,
) -> Result<AllRows<'a>, NoMemory>
    ensures { IfOk result (λ t. AreAllRows (operations_in plan.now) t) }
{
    plans_can_be_numbered(plan);
    let mut scratch = make_scratch(alloc, plan.board.plan.routes.lines())?;
    let mut rows = Vec::new(alloc);
    let mut starts = Vec::with_capacity(alloc, plan.board.plan.flow.pieces() as usize + 1)?;
    let mut entries = Vec::with_capacity(alloc, plan.pieces.len())?;
    starts.push(0)?;
    for piece in 0..plan.board.plan.flow.pieces() {
        let PieceRows {
            rows: mut own,
            entries: firsts,
        } = make_rows(alloc, plan, piece, &mut scratch)?;
        rows.append(&mut own)?;
        let count = rows.len() as u32;
        starts.push(count)?;
        entries.push(firsts)?;
    }
    Ok(AllRows {
        rows,
        starts,
        entries,
    })
}

/// For each node the number of its row, or a greater one than any row's where it is no operation.
fn records_of(alloc: Global, names: &NameList, starts: &Vec<u32>) -> Result<Vec<u32>, NoMemory>
    requires { (k : ℕ) (name : NodeName) → slice_get names.now k ≡ Some name → IsCounted starts.now.items name }
    ensures count { IfOk result (λ records. length records.items ≡ length names.now) }
    ensures records { IfOk result (λ records. (k : ℕ) (name : NodeName) → slice_get names.now k ≡ Some name → slice_get records.items k ≡ Some (record_in starts.now.items name)) }
{
    let mut records = Vec::with_capacity(alloc, names.len())?;
    for k in 0..names.len() {
        records.push(record_of(names.at(k), starts))?;
    }
    Ok(records)
}

/// The number of the row of a node, or a greater one than any row's where it is no operation.
fn record_of(name: NodeName, starts: &Vec<u32>) -> u32
    requires { IsCounted starts.now.items name }
    ensures { result ≡ record_in starts.now.items name }
{
    match name {
        NodeName::Op(piece, i) => starts[piece as usize] + i,
        _ => u32::MAX,
    }
}

/// There are no more operations before one in its piece together with its operands than this.
fn most_values<const W: usize>(plan: &OperationPlan<W>) -> usize
    ensures most { (piece i : ℕ) → i < operation_count (operations_in plan.now) piece → i + length (operation_at (operations_in plan.now) piece i).operands ≤ result }
    ensures few { result ≤ 1000 }
{
    let mut most = 0;
    for operations in &plan.pieces {
        most = most.max(most_of(&operations.operations));
    }
    most
}

/// There are no more operations before one of these together with its operands than this.
fn most_of(operations: &Vec<Operation>) -> usize
    requires operations { length operations.now.items ≤ 500 }
    requires operands { (i : ℕ) (operation : Operation) → slice_get operations.now.items i ≡ Some operation → length operation.operands.items ≤ 500 }
    ensures most { (i : ℕ) (operation : Operation) → slice_get operations.now.items i ≡ Some operation → i + length operation.operands.items ≤ result }
    ensures few { result ≤ 1000 }
{
    let mut most = 0;
    for i in 0..operations.len() {
        most = most.max(i + operations[i].operands.as_slice().len());
    }
    most
}
