//! A new net in which the loads of a group fire in any order, before any firing.

ghost use Rattle.std.specs.Prelude.{◌≡◌, ◌≤◌, [], ℕ, Some, false, length, IfOk};
ghost use Rattle.class_set.specs.Members.{IsWidth};
ghost use Rattle.f77_tree.specs.Operations.{HasFewOperations};
ghost use Rattle.cfg_build.specs.Flow.{flow as flow_graph};
ghost use Rattle.dep_routing.specs.Touch.{touches_in};
ghost use Rattle.firing.specs.Control.{IsInStep};
ghost use Rattle.net_board.specs.ControlCourse.{first_control as first_control_of};
ghost use Rattle.net_board.specs.NetParts.{net_with};
ghost use Rattle.net_board.specs.Nodes.{graph_in};
ghost use Rattle.op_board.specs.OperationNets.{operation_count};
ghost use Rattle.op_board.specs.SoundOperationNets.{IsOperationNet};
ghost use Rattle.op_net.specs.ApartLoads.{IsUncounted};
ghost use Rattle.op_net.specs.NetView.{marking_of as operations_on, net_of as net_in};
ghost use Rattle.operation_tables.specs.OperationParts.{AreOperationParts};
ghost use Rattle.fork_board.specs.ForkTokens.{first_fork_tokens, fork_moves};
ghost use Rattle.fork_board.specs.SoundForks.{ForksCanCome};
ghost use Rattle.read_forks.specs.KeptLoads.{AreKept, IsOpenForNone, opened_of};
ghost use Rattle.read_forks.specs.MarkedNets.{AreLoadsApart};
ghost use Rattle.read_forks.specs.ForkView.{marking_of, net_of, place_of};
ghost use Rattle.read_forks.specs.StaysInForkStep.{StaysInForkStep};

use crate::ForkNet;
use crate::new_marks::load_flags;
use crate::new_steps::new_waiting;
use crate::waiting::Waiting;
use alias_classes::Classes;
use cfg_build::Flow;
use dep_routing::{Lines, TouchList};
use df_sequence::NoMemory;
use f77_tree::Program;
use fork_board::{forks_begin_soundly, forks_stay_in_lockstep};
use op_net::OpNet;
use std::alloc::Global;

impl<'a, const W: usize> ForkNet<'a, W> {
    /// The net of a program over a copy of its data, before any firing. All memory is taken here, room for the longest line too.
    pub fn new(
        alloc: Global,
        p: &'a Program,
        f: &'a Flow,
        c: &Classes<W>,
        touch: &'a TouchList<W>,
        l: &'a Lines<W>,
        input: &Vec<i32>,
    ) -> Result<ForkNet<'a, W>, NoMemory>
        requires width { IsWidth W }
        requires parts { AreOperationParts p.now f.now c.now (touches_in touch.now) l.now }
        requires sets { length touch.now ≡ (flow_graph p.now.execs).graph.nodes }
        requires modest { HasFewOperations p.now }
        ensures net { IfOk result (λ n. (net_of n).net ≡ net_with p.now input.now.items (touches_in touch.now) l.now) }
        ensures is_net { IfOk result (λ n. IsOperationNet (net_of n)) }
        ensures outside_pieces { IfOk result (λ n. (piece i line : ℕ) → (graph_in (net_of n).net).nodes ≤ piece → (net_of n).needs piece i line ≡ false) }
        ensures outside_operations { IfOk result (λ n. (piece i line : ℕ) → operation_count (net_of n) piece ≤ i → (net_of n).needs piece i line ≡ false) }
        ensures marking { IfOk result (λ n. marking_of n ≡ first_fork_tokens (net_of n)) }
        ensures place { IfOk result (λ n. place_of n ≡ Some (first_control_of (net_of n).net)) }
        ensures last { IfOk result (λ n. n.net.text.items ≡ []) }
        ensures sound { IfOk result (λ n. ForksCanCome (net_of n) (marking_of n)) }
        ensures in_step { IfOk result (λ n. IsInStep (fork_moves (net_of n)) (StaysInForkStep (net_of n)) (marking_of n) (place_of n)) }
    {
        forks_begin_soundly();
        forks_stay_in_lockstep();
        let whole = OpNet::new(alloc, p, f, c, touch, l, input)?;
        let (net, waiting) = without_loads(alloc, whole)?;
        let mut net = net;
        let mut waiting = waiting;
        waiting.arrive_all(&mut net);
        Ok(ForkNet { net, waiting })
    }
}

// A net that leaves its loads to another game, and for what these wait while no line is open for any.
fn without_loads<'a, const W: usize>(
    alloc: Global,
    whole: OpNet<'a, W>,
) -> Result<(OpNet<'a, W>, Waiting), NoMemory>
    requires { IsUncounted whole }
    ensures net { IfOk result (λ n. net_in n.0 ≡ net_in whole.entry) }
    ensures marking { IfOk result (λ n. operations_on n.0 ≡ operations_on whole.entry) }
    ensures place { IfOk result (λ n. n.0.control ≡ whole.entry.control) }
    ensures last { IfOk result (λ n. n.0.text.items ≡ whole.entry.text.items) }
    ensures apart { IfOk result (λ n. AreLoadsApart n.0) }
    ensures kept { IfOk result (λ n. AreKept (net_in n.0) (operations_on n.0) n.1) }
    ensures none { IfOk result (λ n. (line : ℕ) → IsOpenForNone (opened_of (net_in n.0) n.1) line) }
{
    let mut net = whole;
    let loads = load_flags(alloc, &net)?;
    let waiting = new_waiting(alloc, &net, &loads)?;
    net.lead_apart(loads);
    Ok((net, waiting))
}
