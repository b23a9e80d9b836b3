//! The firings of a net.

ghost use Rattle.std.specs.Prelude.{◌≡◌, ◌<◌, Some, None, is_some, length, true};
ghost use Rattle.closed_walks.specs.Graph.{edge_count};
ghost use Rattle.cfg_build.specs.Passes.{Traps, out};
ghost use Rattle.firing.specs.Control.{steered as steered_in};
ghost use Rattle.firing.specs.Moves.{FiredIs, newest};
ghost use Rattle.firing.specs.declared.system.NodeName.TheVariants.{Act, Merge, Switch};
ghost use Rattle.net_board.specs.ControlCourse.{net_course};
ghost use Rattle.net_board.specs.Nodes.{is_acting, graph_in, kind_in, nodes_of, node_at};
ghost use Rattle.net_board.specs.TokenEdges.{IsReadable};
ghost use Rattle.net_board.specs.ControlPlaces.{AnswersTrap, Leads};
ghost use Rattle.net_board.specs.Tokens.{Tokens, acted, gone, left_for, line_as, merged, net_moves, pass_at, ready_as, stopped, switched};
ghost use Rattle.token_net.specs.NetView.{net_of, tokens_of};

use crate::Net;
use crate::control_moves::steered;
use crate::leading::lead_away;
use crate::pieces_run::{Ran, run_on};
use firing::{Fired, NodeName};
use net_tables::{drop_lines, touches};
use op_table::Trap;
use std::mem::swap;

impl<const W: usize> Net<'_, W> {
    // Fires a ready node, and leaves the set as it is.
    pub(crate) fn fire_node(&mut self, k: u32) -> Fired
        requires node { k < length (nodes_of (net_of self.old)) }
        requires ready { ready_as (net_of self.old) (tokens_of self.old) k (node_at (net_of self.old) k) ≡ true }
        requires readable { IsReadable (net_of self.old) (tokens_of self.old) }
        requires going { self.old.trapped ≡ None }
        ensures net { net_of self.new ≡ net_of self.old }
        ensures marking { tokens_of self.new ≡ (net_moves (net_of self.old)).fired (tokens_of self.old) k }
        ensures place { self.new.control ≡ steered_in (net_course (net_of self.old)) (tokens_of self.old) self.old.control k }
        ensures marks { self.new.set ≡ self.old.set }
        ensures kept { self.new.kept ≡ self.old.kept }
        ensures fired { FiredIs (net_moves (net_of self.old)) (tokens_of self.old) k result }
        ensures last { self.new.text.items ≡ newest ((net_moves (net_of self.old)).line (tokens_of self.old) k) self.old.text.items }
    {
        match self.board.name(k) {
            NodeName::Act(piece) => self.act(k, piece),
            NodeName::Switch(piece, line) => {
                self.switch(k, piece, line);
                Fired::Moved
            }
            NodeName::Merge(piece, line) => {
                self.merge(k, piece, line);
                Fired::Moved
            }
            NodeName::Op(_, _) => Fired::Moved,
        }
    }

    // Runs a piece, and leads its lines on.
    fn act(&mut self, k: u32, piece: u32) -> Fired
        requires node { k < length (nodes_of (net_of self.old)) }
        requires name { node_at (net_of self.old) k ≡ Act piece }
        requires readable { IsReadable (net_of self.old) (tokens_of self.old) }
        requires going { self.old.trapped ≡ None }
        ensures net { net_of self.new ≡ net_of self.old }
        ensures marking { tokens_of self.new ≡ acted (net_of self.old) (tokens_of self.old) piece (pass_at (net_of self.old) piece (tokens_of self.old).memory) }
        ensures place { self.new.control ≡ steered_in (net_course (net_of self.old)) (tokens_of self.old) self.old.control k }
        ensures marks { self.new.set ≡ self.old.set }
        ensures kept { self.new.kept ≡ self.old.kept }
        ensures fired { FiredIs (net_moves (net_of self.old)) (tokens_of self.old) k result }
        ensures last { self.new.text.items ≡ newest (line_as (net_of self.old) (tokens_of self.old) (Act piece)) self.old.text.items }
    {
        let ran = run_on(&self.board, piece, &mut self.storage, &mut self.draft);
        match ran {
            Ran::Along(edge) => {
                self.go(k, piece, edge);
                Fired::Moved
            }
            Ran::Wrote(edge) => {
                swap(&mut self.text, &mut self.draft);
                self.go(k, piece, edge);
                Fired::Line
            }
            Ran::Trapped(trap) => self.stop_or_go(k, piece, trap),
        }
    }

    // A trap stops the net at a piece that touches the line of output. At another one it is passed over.
    fn stop_or_go(&mut self, k: u32, piece: u32, trap: Trap) -> Fired
        requires piece { piece < (graph_in (net_of self.old)).nodes }
        requires acts { is_acting (kind_in (net_of self.old) piece) ≡ true }
        requires readable { IsReadable (net_of self.old) (tokens_of self.old) }
        ensures net { net_of self.new ≡ net_of self.old }
        ensures marking { tokens_of self.new ≡ acted (net_of self.old) (tokens_of self.old) piece (Traps trap) }
        ensures place { (m : Tokens) → Leads (net_of self.old) m k (out (graph_in (net_of self.old)) piece 0) → self.new.control ≡ steered_in (net_course (net_of self.old)) m self.old.control k }
        ensures marks { self.new.set ≡ self.old.set }
        ensures kept { self.new.kept ≡ self.old.kept }
        ensures text { self.new.text.items ≡ self.old.text.items }
        ensures fired { AnswersTrap (net_of self.old) piece result }
    {
        let edge = self.board.first_out(piece);
        if !touches(&self.board.plan, piece, 0) {
            self.go(k, piece, edge);
            return Fired::Moved;
        }
        self.stop(k, piece, edge, trap);
        Fired::Trapped
    }

    // The lines of a piece vanish at a trap.
    fn stop(&mut self, k: u32, piece: u32, edge: u32, trap: Trap)
        requires piece { piece < (graph_in (net_of self.old)).nodes }
        requires edge { edge < edge_count (graph_in (net_of self.old)) }
        ensures net { net_of self.new ≡ net_of self.old }
        ensures marking { tokens_of self.new ≡ stopped (net_of self.old) (tokens_of self.old) piece trap }
        ensures place { (m : Tokens) → Leads (net_of self.old) m k edge → self.new.control ≡ steered_in (net_course (net_of self.old)) m self.old.control k }
        ensures marks { self.new.set ≡ self.old.set }
        ensures kept { self.new.kept ≡ self.old.kept }
        ensures text { self.new.text.items ≡ self.old.text.items }
    {
        let line = self.board.plan.flow.piece(piece).line;
        drop_lines(self.board.touched(piece), &mut self.lines);
        self.trapped = Some((trap, line));
        self.control = steered(&self.board, self.control, k, edge);
    }

    // Leads the lines of a piece along an edge, and leaves it for the switches.
    fn go(&mut self, k: u32, piece: u32, edge: u32)
        requires piece { piece < (graph_in (net_of self.old)).nodes }
        requires acts { is_acting (kind_in (net_of self.old) piece) ≡ true }
        requires edge { edge < edge_count (graph_in (net_of self.old)) }
        ensures net { net_of self.new ≡ net_of self.old }
        ensures marking { tokens_of self.new ≡ gone (net_of self.old) (tokens_of self.old) piece edge (tokens_of self.old).memory }
        ensures place { (m : Tokens) → Leads (net_of self.old) m k edge → self.new.control ≡ steered_in (net_course (net_of self.old)) m self.old.control k }
        ensures marks { self.new.set ≡ self.old.set }
        ensures kept { self.new.kept ≡ self.old.kept }
        ensures text { self.new.text.items ≡ self.old.text.items }
    {
        lead_away(&self.board, piece, edge, &mut self.lines, &mut self.edges);
        self.control = steered(&self.board, self.control, k, edge);
    }

    // Leads a line on along the edge that was left for it.
    fn switch(&mut self, k: u32, piece: u32, line: u32)
        requires node { k < length (nodes_of (net_of self.old)) }
        requires name { node_at (net_of self.old) k ≡ Switch piece line }
        requires readable { IsReadable (net_of self.old) (tokens_of self.old) }
        requires left { is_some (left_for (tokens_of self.old) k) ≡ true }
        ensures net { net_of self.new ≡ net_of self.old }
        ensures marking { tokens_of self.new ≡ switched (net_of self.old) (tokens_of self.old) k line (left_for (tokens_of self.old) k) }
        ensures place { self.new.control ≡ steered_in (net_course (net_of self.old)) (tokens_of self.old) self.old.control k }
        ensures marks { self.new.set ≡ self.old.set }
        ensures kept { self.new.kept ≡ self.old.kept }
        ensures text { self.new.text.items ≡ self.old.text.items }
    {
        if let Some(edge) = self.edges[k as usize] {
            self.edges[k as usize] = None;
            self.lines[line as usize] = Some(self.board.plan.routes.next_wire(line, edge));
            self.control = steered(&self.board, self.control, k, edge);
        }
    }

    // Leads a line on along the edge that leaves the piece.
    fn merge(&mut self, k: u32, piece: u32, line: u32)
        requires node { k < length (nodes_of (net_of self.old)) }
        requires name { node_at (net_of self.old) k ≡ Merge piece line }
        requires readable { IsReadable (net_of self.old) (tokens_of self.old) }
        ensures net { net_of self.new ≡ net_of self.old }
        ensures marking { tokens_of self.new ≡ merged (net_of self.old) (tokens_of self.old) piece line }
        ensures place { self.new.control ≡ steered_in (net_course (net_of self.old)) (tokens_of self.old) self.old.control k }
        ensures marks { self.new.set ≡ self.old.set }
        ensures kept { self.new.kept ≡ self.old.kept }
        ensures text { self.new.text.items ≡ self.old.text.items }
    {
        let edge = self.board.first_out(piece);
        self.lines[line as usize] = Some(self.board.plan.routes.next_wire(line, edge));
        self.control = steered(&self.board, self.control, k, edge);
    }
}
