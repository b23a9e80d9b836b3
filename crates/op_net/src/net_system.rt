//! The net of a program with operations as nodes as a step system, with the program's own order.

use crate::OpNet;
use firing::{Fired, NodeName, SourceOrder, StepSystem};
use op_table::Trap;
use operation_places::{due_at, due_in, steered, visit_at, waits};

impl<const W: usize> StepSystem for OpNet<'_, W> {
    ghost use Rattle.net_board.specs.declared.control.Control.{Control as Place_of};
    ghost use Rattle.op_board.specs.OperationCourse.{operation_course};
    ghost use Rattle.op_board.specs.OperationNets.{OperationNet};
    ghost use Rattle.op_board.specs.OperationTokens.{OperationTokens, operation_moves};
    ghost use Rattle.op_board.specs.SoundOperationNets.{OperationsCanCome};
    ghost use Rattle.op_board.proofs.OperationLaws.{operations_lawful};
    ghost use Rattle.op_net.specs.NetView.{KeepsSet, marking_of, net_of};
    ghost use Rattle.op_net.specs.StaysInStep.{StaysInStep};
    ghost use Rattle.op_net.specs.StepLaws.{keeps_step};

    ghost Net = { OperationNet };

    ghost Marking = { OperationTokens };

    ghost Place = { Place_of };

    ghost net = { net_of };

    ghost marking = { marking_of };

    ghost place = { λ s. s.control };

    ghost last = { λ s. s.text.items };

    ghost keeps = { KeepsSet };

    ghost sound = { OperationsCanCome };

    ghost moves = { operation_moves };

    ghost course = { operation_course };

    ghost in_step = { StaysInStep };

    fn nodes(&self) -> u32 {
        self.board.nodes()
    }

    fn ready(&self, k: u32) -> bool {
        waits(&self.board, &self.places, k) == 0
    }

    fn keep_ready(&mut self) {
        self.places.keep_whole(&self.board);
    }

    fn ready_count(&self) -> u32 {
        self.places.set.len()
    }

    fn ready_at(&self, nth: u32) -> u32 {
        self.places.set.at(nth)
    }

    fn fire(&mut self, k: u32) -> Fired {
        let (fired, edge) = self.fire_node(k);
        // By picks control is mostly lost.
        if self.control.is_none() {
            return fired;
        }
        self.control = steered(&self.board, self.control, k, edge);
        fired
    }

    fn line(&self) -> &[u8] {
        self.text.as_slice()
    }

    fn trap(&self) -> Option<(Trap, u32)> {
        self.trapped
    }

    fn name(&self, k: u32) -> NodeName {
        self.board.name(k)
    }

    ghost lawful = { operations_lawful };

    ghost steady = { keeps_step };
}

impl<const W: usize> SourceOrder for OpNet<'_, W> {
    ghost use Rattle.op_net.specs.StepLaws.{source_order};

    fn has_control(&self) -> bool {
        self.control.is_some()
    }

    fn due(&self) -> Option<u32> {
        match self.control {
            Some(c) => due_at(&self.board, c),
            None => None,
        }
    }

    fn fire_due(&mut self, most: u64) -> (u64, Fired) {
        let Some(control) = self.control else {
            return (0, Fired::Moved);
        };
        let mut visit = visit_at(&self.board, control);
        let Some(first) = due_in(&self.board, visit) else {
            return (0, Fired::Moved);
        };
        let (mut made, mut fired) = self.go_on(&mut visit, first, most);
        'more: while made < most {
            let Fired::Moved = fired else {
                break;
            };
            let Some(k) = due_in(&self.board, visit) else {
                break;
            };
            let (more, last) = self.go_on(&mut visit, k, most - made);
            made += more;
            fired = last;
        }
        (made, fired)
    }

    ghost ordered = { source_order };
}
