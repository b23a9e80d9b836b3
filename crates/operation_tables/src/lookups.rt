//! Looking up the nodes of a net of operations, and what their firings need.

ghost use Rattle.std.specs.Prelude.{◌≡◌, ◌+◌, ◌<◌, ◌≤◌, ◌-◌, ℕ, Some, IfOk, false, length, slice_get};
ghost use Rattle.std.specs.Option.{option_copied};
ghost use Rattle.class_set.specs.Members.{IsWidth};
ghost use Rattle.closed_walks.specs.Graph.{edge_count};
ghost use Rattle.f77_tree.specs.Operations.{HasFewOperations};
ghost use Rattle.cfg_build.specs.Flow.{flow as flow_graph};
ghost use Rattle.cfg_build.specs.Passes.{out};
ghost use Rattle.dep_routing.specs.Touch.{touches_in};
ghost use Rattle.firing.specs.declared.system.NodeName.TheVariants.{Switch};
ghost use Rattle.net_board.specs.NetParts.{net_with};
ghost use Rattle.net_board.specs.Nodes.{graph_in, nodes_of};
ghost use Rattle.net_board.specs.WokenNodes.{switch_number};
ghost use Rattle.op_board.specs.OperationNets.{first_operation, operation_count, operation_node, operation_node_count};
ghost use Rattle.op_board.specs.SoundOperationNets.{IsOperationNet};
ghost use Rattle.operation_tables.specs.OperationParts.{AreOperationParts};
ghost use Rattle.operation_tables.specs.OperationRows.{IsRow};
ghost use Rattle.operation_tables.specs.declared.rows.Row.{Row};
ghost use Rattle.operation_tables.specs.OperationTables.{AreOperationTables, RowOfNode};
ghost use Rattle.operation_tables.specs.PlanView.{operations_in};
ghost use Rattle.operation_tables.specs.Waits.{IsSwitchOf, node_total};

use crate::OpGraph;
use crate::plan::OperationPlan;
use crate::rows::Row;
use crate::tables::{OperationTables, make_tables};
use alias_classes::Classes;
use cfg_build::Flow;
use dep_routing::{Lines, TouchList};
use df_sequence::NoMemory;
use f77_tree::Program;
use firing::NodeName;
use net_tables::out_at;
use std::alloc::Global;

/// A plan with its tables.
#[derive(Drop)]
pub struct OperationBoard<'a, const W: usize> {
    pub plan: OperationPlan<'a, W>,
    pub tables: OperationTables<'a>,
    pub ghost own_tables: { AreOperationTables (operations_in plan) tables },
}

impl<'a, const W: usize> OperationBoard<'a, W> {
    ghost use Rattle.operation_tables.specs.BoardView.{operation_net_on};
    ghost use Rattle.operation_tables.specs.Telling.{IsOperation};

    /// The nodes of the net of a program over a copy of its data, and what their firings look up. Errors: memory runs out.
    pub fn new(
        alloc: Global,
        p: &'a Program,
        f: &'a Flow,
        c: &Classes<W>,
        touch: &'a TouchList<W>,
        l: &'a Lines<W>,
        input: &Vec<i32>,
    ) -> Result<OperationBoard<'a, W>, NoMemory>
        requires width { IsWidth W }
        requires parts { AreOperationParts p.now f.now c.now (touches_in touch.now) l.now }
        requires sets { length touch.now ≡ (flow_graph p.now.execs).graph.nodes }
        requires modest { HasFewOperations p.now }
        ensures net { IfOk result (λ b. (operation_net_on b).net ≡ net_with p.now input.now.items (touches_in touch.now) l.now) }
        ensures is_net { IfOk result (λ b. IsOperationNet (operation_net_on b)) }
        ensures outside_pieces { IfOk result (λ b. (piece i line : ℕ) → (graph_in (operation_net_on b).net).nodes ≤ piece → (operation_net_on b).needs piece i line ≡ false) }
        ensures outside_operations { IfOk result (λ b. (piece i line : ℕ) → operation_count (operation_net_on b) piece ≤ i → (operation_net_on b).needs piece i line ≡ false) }
    {
        let graph = OpGraph::new(alloc, p, f, c, touch, l, input)?;
        let OpGraph {
            plan,
            tables: nodes,
        } = graph;
        let tables = make_tables(alloc, &plan, nodes)?;
        Ok(OperationBoard { plan, tables })
    }

    /// How many nodes there are.
    pub fn nodes(&self) -> u32
        ensures { result ≡ node_total (operation_net_on self.now) }
    {
        self.tables.names.len() as u32
    }

    /// The name of a node.
    pub fn name(&self, k: u32) -> NodeName
        requires { k < node_total (operation_net_on self.now) }
        ensures { result ≡ operation_node (operation_net_on self.now) k }
    {
        self.tables.names.at(k as usize)
    }

    /// The number of the first node of a piece.
    pub fn first(&self, piece: u32) -> u32
        requires { piece < (graph_in (operation_net_on self.now).net).nodes }
        ensures { result ≡ first_operation (operation_net_on self.now) piece }
    {
        self.tables.firsts[piece as usize]
    }

    /// The number after the last node of a piece.
    pub fn end(&self, piece: u32) -> u32
        requires { piece < (graph_in (operation_net_on self.now).net).nodes }
        ensures end { result ≡ first_operation (operation_net_on self.now) piece + operation_node_count (operation_net_on self.now) piece }
        ensures within { result ≤ node_total (operation_net_on self.now) }
    {
        self.tables.firsts[piece as usize + 1]
    }

    /// How many nodes a piece has.
    pub fn count(&self, piece: u32) -> u32
        requires { piece < (graph_in (operation_net_on self.now).net).nodes }
        ensures { result ≡ operation_node_count (operation_net_on self.now) piece }
    {
        self.end(piece) - self.first(piece)
    }

    /// How many operations a piece has.
    pub fn operations(&self, piece: u32) -> u32
        requires { piece < (graph_in (operation_net_on self.now).net).nodes }
        ensures { result ≡ operation_count (operation_net_on self.now) piece }
    {
        self.tables.starts[piece as usize + 1] - self.tables.starts[piece as usize]
    }

    /// What the firing of an operation looks up.
    pub fn row(&self, piece: u32, i: u32) -> &Row<'a>
        requires piece { piece < (graph_in (operation_net_on self.now).net).nodes }
        requires operation { i < operation_count (operation_net_on self.now) piece }
        ensures { ∥ IsRow (operation_net_on self.now) piece i result.now ∥₁ }
    {
        &self.tables.rows[(self.tables.starts[piece as usize] + i) as usize]
    }

    /// What the firing of a node looks up, if it is an operation.
    #[inline(always)]
    pub fn row_at(&self, k: u32) -> Option<&Row<'a>>
        requires { k < node_total (operation_net_on self.now) }
        ensures { RowOfNode (operation_net_on self.now) (operation_node (operation_net_on self.now) k) (option_copied result) }
    {
        self.tables
            .rows
            .get(self.tables.records[k as usize] as usize)
    }

    /// What the firing of this node looks up, which is an operation. It is nearer by the node than by the piece.
    #[inline(always)]
    pub fn row_of(&self, k: u32) -> &Row<'a>
        requires node { k < node_total (operation_net_on self.now) }
        requires operation { IsOperation (operation_node (operation_net_on self.now) k) }
        ensures { RowOfNode (operation_net_on self.now) (operation_node (operation_net_on self.now) k) (Some result.now) }
    {
        &self.tables.rows[self.tables.records[k as usize] as usize]
    }

    /// What the firings of the operations of a piece look up.
    pub fn rows(&self, piece: u32) -> &[Row<'a>]
        requires { piece < (graph_in (operation_net_on self.now).net).nodes }
        ensures count { length result.now ≡ operation_count (operation_net_on self.now) piece }
        ensures rows { (i : ℕ) (row : Row) → slice_get result.now i ≡ Some row → ∥ IsRow (operation_net_on self.now) piece i row ∥₁ }
    {
        let from = self.tables.starts[piece as usize] as usize;
        let end = self.tables.starts[piece as usize + 1] as usize;
        &self.tables.rows[from..end]
    }

    /// The number of a switch in the net of statements.
    pub fn switch_number(&self, k: u32, piece: u32) -> u32
        requires node { k < node_total (operation_net_on self.now) }
        requires switch { IsSwitchOf (operation_node (operation_net_on self.now) k) piece }
        ensures within { result < length (nodes_of (operation_net_on self.now).net) }
        ensures number { (line : ℕ) → operation_node (operation_net_on self.now) k ≡ Switch piece line → result ≡ switch_number (operation_net_on self.now).net piece line }
    {
        let behind = self.end(piece) - k;
        self.plan.board.end(piece) - behind
    }

    /// The decision of a piece at which edges part, which is its last operation.
    pub fn decision(&self, piece: u32) -> u32
        requires piece { piece < (graph_in (operation_net_on self.now).net).nodes }
        requires some { 0 < operation_count (operation_net_on self.now) piece }
        ensures { result ≡ first_operation (operation_net_on self.now) piece + (operation_count (operation_net_on self.now) piece - 1) }
    {
        self.first(piece) + (self.operations(piece) - 1)
    }

    /// The edge that leaves a piece and has this number among those, or the first edge of the graph where none has it.
    pub fn out_edge(&self, piece: u32, choice: u32) -> u32
        requires { piece < (graph_in (operation_net_on self.now).net).nodes }
        ensures edge { result ≡ out (graph_in (operation_net_on self.now).net) piece choice }
        ensures exists { result < edge_count (graph_in (operation_net_on self.now).net) }
    {
        out_at(self.plan.board.outs(piece), choice)
    }
}
