//! The net of a program with operations as nodes.

ghost use Rattle.std.specs.Option.{ForSome};
ghost use Rattle.std.specs.Prelude.{◌≡◌, ◌≤◌, length, vec_capacity};
ghost use Rattle.f77_meaning.specs.Room.{most_room};
ghost use Rattle.net_board.specs.ControlPlaces.{IsPlaced};
ghost use Rattle.operation_tables.specs.BoardView.{operation_net_on};
ghost use Rattle.operation_places.specs.PlacesView.{IsCounted};
ghost use Rattle.operation_places.specs.SoundPlaces.{ArePlaces};

use f77_meaning::{Storage, word_in};
use net_board::Control;
use op_table::Trap;
use operation_places::Places;
use operation_tables::OperationBoard;

/// A dataflow net that does what a program does, whatever the order in which its nodes fire. Its nodes are loads, stores, operators,
/// and what else the statements of the program come to. Tokens stand for the classes of the words that these load and store, and for
/// the order of output, and each value that one operation gives another one has a place of its own.
#[derive(Drop)]
pub struct OpNet<'a, const W: usize> {
    pub(crate) board: OperationBoard<'a, W>,
    pub(crate) places: Places,
    pub(crate) storage: Storage,
    pub(crate) trapped: Option<(Trap, u32)>,
    pub(crate) control: Option<Control>,
    // The line that was made last, and the one that is being made.
    pub(crate) text: Vec<u8>,
    pub(crate) draft: Vec<u8>,
    // The values of the operands of the operation that fires.
    pub(crate) args: Vec<i32>,
    // The values that the operations of a piece gave, where all of them are performed one after another.
    pub(crate) values: Vec<i32>,
    ghost own_places: { ArePlaces (operation_net_on board) places },
    ghost counted: { IsCounted (operation_net_on board) places },
    ghost data: { storage.taken ≤ length board.plan.board.plan.input.items },
    ghost text_room: { most_room board.plan.board.plan.program.now.execs ≤ vec_capacity text },
    ghost draft_room: { most_room board.plan.board.plan.program.now.execs ≤ vec_capacity draft },
    ghost args_room: { board.tables.most ≤ vec_capacity args },
    ghost values_room: { board.tables.most ≤ length values.items },
    ghost placed: { ForSome control (IsPlaced (operation_net_on board).net) },
}

impl<'a, const W: usize> OpNet<'a, W> {
    ghost use Rattle.std.specs.Prelude.{◌≡◌, ◌<◌, length};
    ghost use Rattle.f77_tree.specs.Value.{word_at};
    ghost use Rattle.op_net.specs.NetView.{marking_of};

    /// The word of the store with this number.
    pub fn word(&self, k: u32) -> i32
        requires { k < length (marking_of self.now).tokens.memory.store }
        ensures { result ≡ word_at (marking_of self.now).tokens.memory.store k }
    {
        word_in(&self.storage.store, k)
    }
}
