//! A new net of operations, before any firing.

ghost use Rattle.std.specs.Prelude.{◌≡◌, ◌≤◌, [], ℕ, Some, false, length, IfOk};
ghost use Rattle.class_set.specs.Members.{IsWidth};
ghost use Rattle.f77_tree.specs.Operations.{HasFewOperations};
ghost use Rattle.cfg_build.specs.Flow.{flow as flow_graph};
ghost use Rattle.dep_routing.specs.Touch.{touches_in};
ghost use Rattle.firing.specs.Control.{IsInStep};
ghost use Rattle.net_board.specs.ControlCourse.{first_control as first_control_of};
ghost use Rattle.net_board.specs.NetParts.{net_with};
ghost use Rattle.net_board.specs.Nodes.{graph_in};
ghost use Rattle.op_board.specs.OperationNets.{operation_count};
ghost use Rattle.op_board.specs.OperationTokens.{first_operation_tokens, operation_moves};
ghost use Rattle.op_board.specs.SoundOperationNets.{IsOperationNet, OperationsCanCome};
ghost use Rattle.op_net.specs.ApartLoads.{IsUncounted};
ghost use Rattle.op_net.specs.NetView.{marking_of, net_of};
ghost use Rattle.operation_tables.specs.OperationParts.{AreOperationParts};
ghost use Rattle.op_net.specs.StaysInStep.{StaysInStep};

use crate::OpNet;
use alias_classes::Classes;
use cfg_build::Flow;
use dep_routing::{Lines, TouchList};
use df_sequence::NoMemory;
use f77_meaning::{initial_storage, longest_line};
use f77_tree::Program;
use net_tables::first_control;
use op_board::{
    operation_nets_begin_soundly, operation_nets_pass_pieces_whole, operation_nets_stay_in_lockstep,
};
use operation_places::Places;
use operation_tables::OperationBoard;
use std::alloc::Global;

impl<'a, const W: usize> OpNet<'a, W> {
    /// The net of a program over a copy of its data, before any firing. All memory is taken here, room for the longest line too.
    pub fn new(
        alloc: Global,
        p: &'a Program,
        f: &'a Flow,
        c: &Classes<W>,
        touch: &'a TouchList<W>,
        l: &'a Lines<W>,
        input: &Vec<i32>,
    ) -> Result<OpNet<'a, W>, NoMemory>
        requires width { IsWidth W }
        requires parts { AreOperationParts p.now f.now c.now (touches_in touch.now) l.now }
        requires sets { length touch.now ≡ (flow_graph p.now.execs).graph.nodes }
        requires modest { HasFewOperations p.now }
        ensures net { IfOk result (λ n. (net_of n).net ≡ net_with p.now input.now.items (touches_in touch.now) l.now) }
        ensures is_net { IfOk result (λ n. IsOperationNet (net_of n)) }
        ensures outside_pieces { IfOk result (λ n. (piece i line : ℕ) → (graph_in (net_of n).net).nodes ≤ piece → (net_of n).needs piece i line ≡ false) }
        ensures outside_operations { IfOk result (λ n. (piece i line : ℕ) → operation_count (net_of n) piece ≤ i → (net_of n).needs piece i line ≡ false) }
        ensures marking { IfOk result (λ n. marking_of n ≡ first_operation_tokens (net_of n)) }
        ensures place { IfOk result (λ n. n.control ≡ Some (first_control_of (net_of n).net)) }
        ensures last { IfOk result (λ n. n.text.items ≡ []) }
        ensures uncounted { IfOk result (λ n. IsUncounted n) }
        ensures sound { IfOk result (λ n. OperationsCanCome (net_of n) (marking_of n)) }
        ensures in_step { IfOk result (λ n. IsInStep (operation_moves (net_of n)) (StaysInStep (net_of n)) (marking_of n) n.control) }
    {
        operation_nets_begin_soundly();
        operation_nets_stay_in_lockstep();
        operation_nets_pass_pieces_whole();
        let board = OperationBoard::new(alloc, p, f, c, touch, l, input)?;
        let room = longest_line(p.execs.as_slice());
        let control = first_control(&board.plan.board);
        let places = Places::new(alloc, &board)?;
        Ok(OpNet {
            places,
            storage: initial_storage(alloc, p)?,
            trapped: None,
            control: Some(control),
            text: Vec::with_capacity(alloc, room)?,
            draft: Vec::with_capacity(alloc, room)?,
            args: Vec::with_capacity(alloc, board.tables.most)?,
            values: vec![in alloc; 0; board.tables.most]?,
            board,
        })
    }
}
