//! Firings in the source's own order: all nodes of a piece as one step, or one node.

ghost use Rattle.std.specs.Prelude.{◌≡◌, ◌≢◌, ◌<◌, ◌≤◌, [], None, Some, false, true};
ghost use Rattle.cfg_build.specs.Joined.{is_end};
ghost use Rattle.cfg_build.specs.Passes.{out};
ghost use Rattle.f77_meaning.specs.Storage.{memory_of};
ghost use Rattle.firing.specs.Control.{IsInStep};
ghost use Rattle.firing.specs.Moves.{newest};
ghost use Rattle.net_board.specs.ControlCourse.{arrived};
ghost use Rattle.net_board.specs.Nodes.{graph_in, kind_in};
ghost use Rattle.net_board.specs.Tokens.{written};
ghost use Rattle.op_board.specs.OperationCourse.{due_operation};
ghost use Rattle.op_board.specs.OperationTokens.{operation_moves};
ghost use Rattle.op_board.specs.SoundOperationNets.{OperationsCanCome};
ghost use Rattle.op_board.specs.WholePieces.{answer_of};
ghost use Rattle.op_net.specs.NetFirings.{FiresWhole, HasFired};
ghost use Rattle.op_net.specs.NetView.{marking_of, net_of};
ghost use Rattle.op_net.specs.PieceEnds.{effect_told};
ghost use Rattle.operation_places.specs.StandingChanges.{lines_led};
ghost use Rattle.op_net.specs.StaysInStep.{StaysInStep};
ghost use Rattle.operation_places.specs.Visits.{IsVisit};

use crate::OpNet;
use crate::piece_performing::PieceEnd;
use firing::Fired;
use net_board::Control;
use net_tables::is_end;
use operation_places::{Visit, lead_piece, visit_at};
use std::mem::swap;

impl<const W: usize> OpNet<'_, W> {
    /// Fires the node that is due where control stands, and where that is the first of its piece all others of it, if so many may
    /// fire. It tells how many fired, and what the last one did.
    #[inline(always)]
    pub(crate) fn go_on(&mut self, visit: &mut Visit, k: u32, most: u64) -> (u64, Fired)
        requires some { 0 < most }
        requires visit { IsVisit (net_of self.old) visit.old }
        requires here { self.old.control ≡ Some visit.old.control }
        requires due { due_operation (net_of self.old) visit.old.control ≡ Some k }
        requires sound { OperationsCanCome (net_of self.old) (marking_of self.old) }
        requires in_step { IsInStep (operation_moves (net_of self.old)) (StaysInStep (net_of self.old)) (marking_of self.old) self.old.control }
        requires going { self.old.trapped ≡ None }
        ensures fired { HasFired self.old most result.0 result.1 self.new }
        ensures visit { IsVisit (net_of self.new) visit.new }
        ensures here { self.new.control ≡ Some visit.new.control }
    {
        if self.may_pass(*visit, most) {
            self.pass_or_fire(visit, k)
        } else {
            (1, self.fire_visited(visit, k))
        }
    }

    // Whether all nodes of the visited piece may fire as one step, if its operations allow it, where so many firings are left.
    fn may_pass(&self, visit: Visit, most: u64) -> bool
        requires visit { IsVisit (net_of self.now) visit }
        ensures counted { result ≡ true → self.now.places.counted ≡ false }
        ensures begins { result ≡ true → visit.control.fired ≡ 0 }
        ensures enough { result ≡ true → visit.count ≤ most }
        ensures inner { result ≡ true → is_end (kind_in (net_of self.now).net visit.control.piece) ≡ false }
    {
        visit.control.fired == 0
            && u64::from(visit.count) <= most
            && !self.places.counted
            && !is_end(
                self.board
                    .plan
                    .board
                    .plan
                    .flow
                    .piece(visit.control.piece)
                    .kind,
            )
    }

    // Fires all nodes of a piece, or where one of its operations doesn't allow it the first.
    fn pass_or_fire(&mut self, visit: &mut Visit, k: u32) -> (u64, Fired)
        requires visit { IsVisit (net_of self.old) visit.old }
        requires here { self.old.control ≡ Some visit.old.control }
        requires due { due_operation (net_of self.old) visit.old.control ≡ Some k }
        requires begins { visit.old.control.fired ≡ 0 }
        requires inner { is_end (kind_in (net_of self.old).net visit.old.control.piece) ≡ false }
        requires uncounted { self.old.places.counted ≡ false }
        requires sound { OperationsCanCome (net_of self.old) (marking_of self.old) }
        requires in_step { IsInStep (operation_moves (net_of self.old)) (StaysInStep (net_of self.old)) (marking_of self.old) self.old.control }
        requires going { self.old.trapped ≡ None }
        ensures fired { HasFired self.old visit.old.count result.0 result.1 self.new }
        ensures visit { IsVisit (net_of self.new) visit.new }
        ensures here { self.new.control ≡ Some visit.new.control }
    {
        let count = u64::from(visit.count);
        match self.fire_piece(visit) {
            Some(fired) => (count, fired),
            None => (1, self.fire_visited(visit, k)),
        }
    }

    // Fires all nodes of a piece as one step. There is no answer, and nothing but the draft of a line has changed, where one of its
    // operations takes data or traps.
    fn fire_piece(&mut self, visit: &mut Visit) -> Option<Fired>
        requires visit { IsVisit (net_of self.old) visit.old }
        requires here { self.old.control ≡ Some visit.old.control }
        requires begins { visit.old.control.fired ≡ 0 }
        requires inner { is_end (kind_in (net_of self.old).net visit.old.control.piece) ≡ false }
        requires uncounted { self.old.places.counted ≡ false }
        requires sound { OperationsCanCome (net_of self.old) (marking_of self.old) }
        requires in_step { StaysInStep (net_of self.old) (marking_of self.old) visit.old.control }
        ensures fires { FiresWhole self.old visit.old result self.new visit.new }
        ensures visit { IsVisit (net_of self.new) visit.new }
        ensures here { self.new.control ≡ Some visit.new.control }
    {
        let end = self.perform_operations(visit.control.piece)?;
        let (fired, choice) = self.tell_end(end);
        self.leave_piece(visit, choice);
        Some(fired)
    }

    // What the firings of a piece answer, and the number of the edge by which control leaves it. A line that was made becomes the
    // newest one.
    fn tell_end(&mut self, end: PieceEnd) -> (Fired, u32)
        requires line { end ≡ PieceEnd.Wrote → self.old.draft.items ≢ [] }
        ensures fired { result.0 ≡ answer_of (written (effect_told end (memory_of self.old.storage) self.old.draft.items).text) }
        ensures choice { result.1 ≡ (effect_told end (memory_of self.old.storage) self.old.draft.items).choice }
        ensures text { self.new.text.items ≡ newest (written (effect_told end (memory_of self.old.storage) self.old.draft.items).text) self.old.text.items }
        ensures net { net_of self.new ≡ net_of self.old }
        ensures marking { marking_of self.new ≡ marking_of self.old }
        ensures control { self.new.control ≡ self.old.control }
        ensures kept { self.new.places ≡ self.old.places }
    {
        match end {
            PieceEnd::Along(choice) => (Fired::Moved, choice),
            PieceEnd::Wrote => {
                swap(&mut self.text, &mut self.draft);
                (Fired::Line, 0)
            }
        }
    }

    // Control leaves the visited piece by the edge with this number, and with it the lines that the nodes of the piece move.
    fn leave_piece(&mut self, visit: &mut Visit, choice: u32)
        requires visit { IsVisit (net_of self.old) visit.old }
        requires uncounted { self.old.places.counted ≡ false }
        ensures net { net_of self.new ≡ net_of self.old }
        ensures marking { marking_of self.new ≡ lines_led (net_of self.old) (marking_of self.old) visit.old.control.piece (out (graph_in (net_of self.old).net) visit.old.control.piece choice) }
        ensures control { self.new.control ≡ Some (arrived (net_of self.old).net (out (graph_in (net_of self.old).net) visit.old.control.piece choice)) }
        ensures visit { IsVisit (net_of self.new) visit.new }
        ensures here { self.new.control ≡ Some visit.new.control }
        ensures text { self.new.text.items ≡ self.old.text.items }
    {
        let board = &self.board;
        let piece = visit.control.piece;
        let edge = board.out_edge(piece, choice);
        lead_piece(board, &mut self.places, piece, edge);
        let next = Control {
            piece: board.plan.board.arrival(edge),
            fired: 0,
            leaves: 0,
        };
        *visit = visit_at(board, next);
        self.control = Some(next);
    }
}
