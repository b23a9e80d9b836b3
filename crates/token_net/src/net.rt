//! The net of a program, and which of its nodes are ready.

ghost use Rattle.std.specs.Option.{ForSome};
ghost use Rattle.std.specs.Prelude.{◌≡◌, ◌≤◌, ◌+◌, ◌*◌, length, vec_capacity};
ghost use Rattle.f77_meaning.specs.Room.{most_room};
ghost use Rattle.net_board.specs.Nodes.{nodes_of};
ghost use Rattle.net_board.specs.ControlPlaces.{IsPlaced};
ghost use Rattle.net_tables.specs.LookupView.{net_on};

use f77_meaning::{Storage, word_in};
use firing::{NodeName, ReadySet};
use net_board::Control;
use net_tables::{Board, are_before, is_before, is_clear};
use op_table::Trap;

/// A dataflow net that does what a program does, whatever the order in which its nodes fire. Tokens stand for the classes of the
/// words that pieces of the program touch, and for the order of its output.
#[derive(Drop)]
pub struct Net<'a, const W: usize> {
    pub(crate) board: Board<'a, W>,
    // The edge on which each line stands, and the edge that is left for each node.
    pub(crate) lines: Vec<Option<u32>>,
    pub(crate) edges: Vec<Option<u32>>,
    pub(crate) storage: Storage,
    pub(crate) trapped: Option<(Trap, u32)>,
    pub(crate) control: Option<Control>,
    // The line that was made last, and the one that is being made.
    pub(crate) text: Vec<u8>,
    pub(crate) draft: Vec<u8>,
    // Whether the set of the ready nodes is kept, and the nodes that the last firing can have made ready, while it is.
    pub(crate) kept: bool,
    pub(crate) woken: Vec<u32>,
    pub(crate) set: ReadySet,
    ghost every_line: { length lines.items ≡ board.plan.routes.now.lines },
    ghost every_node: { length edges.items ≡ length (nodes_of (net_on board)) },
    ghost data: { storage.taken ≤ length board.plan.input.items },
    ghost text_room: { most_room board.plan.program.now.execs ≤ vec_capacity text },
    ghost draft_room: { most_room board.plan.program.now.execs ≤ vec_capacity draft },
    ghost woken_room: { 2 * board.plan.routes.now.lines + 2 ≤ vec_capacity woken },
    ghost placed: { ForSome control (IsPlaced (net_on board)) },
    ghost marks: { length set ≡ length (nodes_of (net_on board)) },
}

impl<'a, const W: usize> Net<'a, W> {
    ghost use Rattle.std.specs.Prelude.{◌≡◌, ◌<◌, ℕ, length, true};
    ghost use Rattle.f77_tree.specs.Value.{word_at};
    ghost use Rattle.firing.specs.declared.system.NodeName.TheVariants.{Act};
    ghost use Rattle.net_board.specs.Nodes.{is_acting, graph_in, kind_in, node_at};
    ghost use Rattle.net_board.specs.TokenEdges.{IsReadable};
    ghost use Rattle.net_board.specs.Tokens.{ready_as};
    ghost use Rattle.token_net.specs.NetView.{net_of, tokens_of};

    /// The word of the store with this number.
    pub fn word(&self, k: u32) -> i32
        requires { k < length (tokens_of self.now).memory.store }
        ensures { result ≡ word_at (tokens_of self.now).memory.store k }
    {
        word_in(&self.storage.store, k)
    }

    // Whether a node has all that it needs.
    pub(crate) fn is_ready(&self, k: u32) -> bool
        requires node { k < length (nodes_of (net_of self.now)) }
        requires readable { IsReadable (net_of self.now) (tokens_of self.now) }
        ensures { result ≡ ready_as (net_of self.now) (tokens_of self.now) k (node_at (net_of self.now) k) }
    {
        let plan = &self.board.plan;
        match self.board.name(k) {
            NodeName::Act(piece) => self.can_act(piece),
            NodeName::Switch(piece, line) => {
                is_before(plan, &self.lines, piece, line) && self.edges[k as usize].is_some()
            }
            NodeName::Merge(piece, line) => is_before(plan, &self.lines, piece, line),
            NodeName::Op(_, _) => false,
        }
    }

    // Whether the node of a piece that acts has all that it needs.
    fn can_act(&self, piece: u32) -> bool
        requires piece { piece < (graph_in (net_of self.now)).nodes }
        requires acts { is_acting (kind_in (net_of self.now) piece) ≡ true }
        requires readable { IsReadable (net_of self.now) (tokens_of self.now) }
        ensures { (k : ℕ) → result ≡ ready_as (net_of self.now) (tokens_of self.now) k (Act piece) }
    {
        let first = self.board.first(piece);
        let end = self.board.end(piece);
        let touched = self.board.touched(piece);
        are_before(&self.board.plan, &self.lines, piece, touched)
            && is_clear(&self.edges, first, end)
    }
}
