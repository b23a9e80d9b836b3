//! The nodes of a program's net of operations, without a marking.

ghost use Rattle.std.specs.Prelude.{◌≡◌, ◌<◌, ◌≤◌, ℕ, false, length, IfOk};
ghost use Rattle.class_set.specs.Members.{IsWidth};
ghost use Rattle.f77_tree.specs.Operations.{HasFewOperations};
ghost use Rattle.cfg_build.specs.Flow.{flow as flow_graph};
ghost use Rattle.dep_routing.specs.Touch.{touches_in};
ghost use Rattle.net_board.specs.NetParts.{net_with};
ghost use Rattle.net_board.specs.Nodes.{graph_in};
ghost use Rattle.op_board.specs.OperationNets.{first_operation, operation_count, operation_node};
ghost use Rattle.op_board.specs.SoundOperationNets.{IsOperationNet};
ghost use Rattle.operation_tables.specs.NodeTables.{AreNodeTables};
ghost use Rattle.operation_tables.specs.OperationParts.{AreOperationParts};
ghost use Rattle.operation_tables.specs.PlanView.{operations_in};
ghost use Rattle.operation_tables.specs.Waits.{node_total};

use crate::plan::{OperationPlan, make_plan};
use crate::tables::{NodeTables, make_node_tables};
use alias_classes::Classes;
use cfg_build::Flow;
use dep_routing::{Lines, TouchList};
use df_sequence::NoMemory;
use f77_tree::Program;
use firing::NodeName;
use std::alloc::Global;

/// The nodes of a net of operations: their names, what operations do, the lines that they need and the values that they take. There is
/// no marking, and nothing by which a node could fire: that is made of it by `OpNet::new`.
#[derive(Drop)]
pub struct OpGraph<'a, const W: usize> {
    pub(crate) plan: OperationPlan<'a, W>,
    pub(crate) tables: NodeTables,
    ghost own_nodes: { AreNodeTables (operations_in plan) tables },
}

impl<'a, const W: usize> OpGraph<'a, W> {
    ghost use Rattle.operation_tables.specs.GraphView.{operations_of};

    /// The nodes of the net of a program over a copy of its data. Errors: memory runs out.
    pub fn new(
        alloc: Global,
        p: &'a Program,
        f: &'a Flow,
        c: &Classes<W>,
        touch: &'a TouchList<W>,
        l: &'a Lines<W>,
        input: &Vec<i32>,
    ) -> Result<OpGraph<'a, W>, NoMemory>
        requires width { IsWidth W }
        requires parts { AreOperationParts p.now f.now c.now (touches_in touch.now) l.now }
        requires sets { length touch.now ≡ (flow_graph p.now.execs).graph.nodes }
        requires modest { HasFewOperations p.now }
        ensures net { IfOk result (λ graph. (operations_of graph).net ≡ net_with p.now input.now.items (touches_in touch.now) l.now) }
        ensures is_net { IfOk result (λ graph. IsOperationNet (operations_of graph)) }
        ensures outside_pieces { IfOk result (λ graph. (piece i line : ℕ) → (graph_in (operations_of graph).net).nodes ≤ piece → (operations_of graph).needs piece i line ≡ false) }
        ensures outside_operations { IfOk result (λ graph. (piece i line : ℕ) → operation_count (operations_of graph) piece ≤ i → (operations_of graph).needs piece i line ≡ false) }
    {
        let plan = make_plan(alloc, p, f, c, touch, l, input)?;
        let tables = make_node_tables(alloc, &plan)?;
        Ok(OpGraph { plan, tables })
    }

    /// How many nodes there are.
    pub fn nodes(&self) -> u32
        ensures { result ≡ node_total (operations_of self.now) }
    {
        self.tables.names.len() as u32
    }

    /// The name of a node.
    pub fn name(&self, k: u32) -> NodeName
        requires { k < node_total (operations_of self.now) }
        ensures { result ≡ operation_node (operations_of self.now) k }
    {
        self.tables.names.at(k as usize)
    }

    // The number of the first node of a piece.
    pub(crate) fn first(&self, piece: u32) -> u32
        requires { piece < (graph_in (operations_of self.now).net).nodes }
        ensures { result ≡ first_operation (operations_of self.now) piece }
    {
        self.tables.firsts[piece as usize]
    }
}
