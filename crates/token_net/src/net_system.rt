//! The net of a program as a step system, with the program's own order.

use crate::Net;
use crate::control_moves::due_at;
use firing::{Fired, NodeName, SourceOrder, StepSystem, mark_ready};
use op_table::Trap;

impl<const W: usize> StepSystem for Net<'_, W> {
    ghost use Rattle.net_board.specs.declared.control.Control.{Control as Place_of};
    ghost use Rattle.net_board.specs.SoundNets.{CanCome};
    ghost use Rattle.net_board.specs.ControlCourse.{net_course};
    ghost use Rattle.net_board.specs.NetLockstep.{IsInLockstep};
    ghost use Rattle.net_board.specs.Nodes.{NetOf};
    ghost use Rattle.net_board.specs.Tokens.{Tokens, net_moves};
    ghost use Rattle.net_board.proofs.FiringLaws.{net_laws};
    ghost use Rattle.net_board.proofs.LockstepLaws.{keeps_step};
    ghost use Rattle.token_net.specs.NetView.{KeepsSet, net_of, tokens_of};

    ghost Net = { NetOf };

    ghost Marking = { Tokens };

    ghost Place = { Place_of };

    ghost net = { net_of };

    ghost marking = { tokens_of };

    ghost place = { λ s. s.control };

    ghost last = { λ s. s.text.items };

    ghost keeps = { KeepsSet };

    ghost sound = { CanCome };

    ghost moves = { net_moves };

    ghost course = { net_course };

    ghost in_step = { IsInLockstep };

    fn nodes(&self) -> u32 {
        self.board.nodes()
    }

    fn ready(&self, k: u32) -> bool {
        self.is_ready(k)
    }

    fn keep_ready(&mut self) {
        self.kept = true;
        mark_ready(self);
    }

    fn ready_count(&self) -> u32 {
        self.set.len()
    }

    fn ready_at(&self, nth: u32) -> u32 {
        self.set.at(nth)
    }

    fn fire(&mut self, k: u32) -> Fired {
        let fired = self.fire_node(k);
        self.retest(k);
        fired
    }

    fn line(&self) -> &[u8] {
        self.text.as_slice()
    }

    fn trap(&self) -> Option<(Trap, u32)> {
        self.trapped
    }

    fn name(&self, k: u32) -> NodeName {
        self.board.name(k)
    }

    ghost lawful = { net_laws };

    ghost steady = { keeps_step };
}

impl<const W: usize> SourceOrder for Net<'_, W> {
    ghost use Rattle.net_board.proofs.RestLaws.{source_order};

    fn has_control(&self) -> bool {
        self.control.is_some()
    }

    fn due(&self) -> Option<u32> {
        match self.control {
            Some(c) => due_at(&self.board, c),
            None => None,
        }
    }

    // One firing at a time.
    fn fire_due(&mut self, _most: u64) -> (u64, Fired) {
        match self.due() {
            Some(k) => (1, self.fire(k)),
            None => (0, Fired::Moved),
        }
    }

    ghost ordered = { source_order };
}
