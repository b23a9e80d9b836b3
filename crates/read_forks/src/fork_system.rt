//! The net in which the loads of a group fire in any order as a step system, with the program's own order.

use crate::ForkNet;
use firing::{Fired, NodeName, SourceOrder, StepSystem};
use op_table::Trap;

impl<const W: usize> StepSystem for ForkNet<'_, W> {
    ghost use Rattle.net_board.specs.declared.control.Control.{Control as Place_of};
    ghost use Rattle.op_board.specs.OperationNets.{OperationNet};
    ghost use Rattle.fork_board.specs.ForkTokens.{ForkTokens, fork_course, fork_moves};
    ghost use Rattle.fork_board.specs.SoundForks.{ForksCanCome};
    ghost use Rattle.fork_board.proofs.ForkLaws.{forks_lawful};
    ghost use Rattle.read_forks.specs.ForkView.{KeepsSet, marking_of, net_of, place_of};
    ghost use Rattle.read_forks.specs.StaysInForkStep.{StaysInForkStep, keeps_fork_step};

    ghost Net = { OperationNet };

    ghost Marking = { ForkTokens };

    ghost Place = { Place_of };

    ghost net = { net_of };

    ghost marking = { marking_of };

    ghost place = { place_of };

    ghost last = { λ s. s.net.text.items };

    ghost keeps = { KeepsSet };

    ghost sound = { ForksCanCome };

    ghost moves = { fork_moves };

    ghost course = { fork_course };

    ghost in_step = { StaysInForkStep };

    fn nodes(&self) -> u32 {
        self.net.nodes()
    }

    fn ready(&self, k: u32) -> bool {
        self.is_ready(k)
    }

    fn keep_ready(&mut self) {
        self.mark_all();
    }

    fn ready_count(&self) -> u32 {
        self.net.marked().len()
    }

    fn ready_at(&self, nth: u32) -> u32 {
        self.net.marked().at(nth)
    }

    fn fire(&mut self, k: u32) -> Fired {
        self.fire_node(k)
    }

    fn line(&self) -> &[u8] {
        self.net.line()
    }

    fn trap(&self) -> Option<(Trap, u32)> {
        self.net.trap()
    }

    fn name(&self, k: u32) -> NodeName {
        self.net.name(k)
    }

    ghost lawful = { forks_lawful };

    ghost steady = { keeps_fork_step };
}

impl<const W: usize> SourceOrder for ForkNet<'_, W> {
    ghost use Rattle.read_forks.specs.StaysInForkStep.{fork_source_order};

    fn has_control(&self) -> bool {
        self.net.has_control()
    }

    fn due(&self) -> Option<u32> {
        self.net.due_node()
    }

    // One firing at a time.
    fn fire_due(&mut self, _most: u64) -> (u64, Fired) {
        match self.net.due_node() {
            Some(k) => (1, self.fire(k)),
            None => (0, Fired::Moved),
        }
    }

    ghost ordered = { fork_source_order };
}
