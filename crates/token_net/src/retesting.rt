//! The set of a net's ready nodes, while it is kept.

ghost use Rattle.std.specs.Prelude.{◌≡◌, ◌<◌, ℕ, Bool, List, length, true};
ghost use Rattle.firing.specs.Marks.{AreMarks, DifferAt};
ghost use Rattle.net_board.specs.Nodes.{nodes_of, node_at};
ghost use Rattle.net_board.specs.TokenEdges.{IsReadable};
ghost use Rattle.net_board.specs.Tokens.{net_moves};
ghost use Rattle.net_board.specs.WokenNodes.{IsWoken};
ghost use Rattle.token_net.specs.NetView.{net_of, tokens_of};

use crate::Net;
use crate::waking::wake_fired;
use firing::{ReadyMarks, retest_fired};

impl<const W: usize> ReadyMarks for Net<'_, W> {
    ghost use Rattle.net_board.specs.Nodes.{nodes_of, node_at};
    ghost use Rattle.net_board.specs.TokenEdges.{IsReadable};
    ghost use Rattle.net_board.specs.Tokens.{ready_as};
    ghost use Rattle.token_net.specs.NetView.{Unmarked, rest_of};

    ghost Rest = { Unmarked };

    ghost rest = { rest_of };

    ghost marks = { λ s. s.set };

    ghost count = { λ rest. length (nodes_of rest.net) };

    ghost is_ready = { λ rest k. ready_as rest.net rest.tokens k (node_at rest.net k) };

    ghost testable = { λ rest. IsReadable rest.net rest.tokens };

    ghost woken = { λ rest. rest.woken };

    fn mark_count(&self) -> u32 {
        self.board.nodes()
    }

    fn test(&self, k: u32) -> bool {
        self.is_ready(k)
    }

    fn woken(&self) -> &[u32] {
        self.woken.as_slice()
    }

    fn mark(&mut self, k: u32, ready: bool) {
        self.set.put(k, ready);
    }
}

impl<const W: usize> Net<'_, W> {
    // Keeps the set after a node has fired: where it told the ready nodes before, and the firing made no others ready or unready
    // than those that it wakes, it tells them again.
    pub(crate) fn retest(&mut self, k: u32)
        requires node { k < length (nodes_of (net_of self.old)) }
        requires readable { IsReadable (net_of self.old) (tokens_of self.old) }
        ensures net { net_of self.new ≡ net_of self.old }
        ensures marking { tokens_of self.new ≡ tokens_of self.old }
        ensures place { self.new.control ≡ self.old.control }
        ensures last { self.new.text.items ≡ self.old.text.items }
        ensures kept { self.new.kept ≡ self.old.kept }
        ensures marks { self.old.kept ≡ true → (before : ℕ → Bool) → AreMarks (length (nodes_of (net_of self.old))) before self.old.set → ((woken : List ℕ) → IsWoken (net_of self.old) (tokens_of self.old) (node_at (net_of self.old) k) woken → DifferAt (length (nodes_of (net_of self.old))) k woken before ((net_moves (net_of self.old)).ready (tokens_of self.old))) → AreMarks (length (nodes_of (net_of self.old))) ((net_moves (net_of self.old)).ready (tokens_of self.old)) self.new.set }
    {
        if self.kept {
            wake_fired(&self.board, &self.lines, k, &mut self.woken);
            retest_fired(self, k);
        }
    }
}
