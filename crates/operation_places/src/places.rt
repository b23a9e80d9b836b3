//! Where token lines stand, which edges are left for switches, and which values are given.

ghost use Rattle.std.specs.Prelude.{IfOk};
ghost use Rattle.operation_tables.specs.BoardView.{operation_net_on};
ghost use Rattle.operation_places.specs.FirstPlaces.{AreFirstPlaces};

use crate::leads::{Lead, no_leads};
use df_sequence::NoMemory;
use firing::ReadySet;
use net_tables::{first_places, nothing_left};
use operation_tables::OperationBoard;
use std::alloc::Global;

/// Where each token line stands, which edge is left for each switch, and which values are given and not taken. While that is asked
/// for, it is counted for how much each node still waits.
#[derive(Drop)]
pub struct Places {
    /// The edge on which each line stands, and how many operations it has passed at the piece to which that leads.
    pub lines: Vec<Option<u32>>,
    pub passed: Vec<u32>,
    /// The edge that is left for each switch, by its number in the net of statements.
    pub edges: Vec<Option<u32>>,
    /// For each node the value that it has given and that isn't taken.
    pub values: Vec<Option<i32>>,
    /// Whether it is counted for how much each node waits, and then that, and the nodes that wait for nothing.
    pub counted: bool,
    pub counts: Vec<u64>,
    pub set: ReadySet,
    /// The nodes that another game leads, if there is one. Their marks in the set are its own.
    pub apart: Vec<bool>,
    /// Where lines came to stand that were led along edges.
    pub leads: Vec<Lead>,
}

impl Places {
    /// The places before any firing: each line stands where it is led from the edge that leaves the start, nothing is left for any
    /// switch, and no value is given. Errors: memory runs out.
    pub fn new<const W: usize>(alloc: Global, board: &OperationBoard<W>) -> Result<Places, NoMemory>
        ensures { IfOk result (λ s. AreFirstPlaces (operation_net_on board.now) s) }
    {
        let lines = board.plan.board.plan.routes.lines() as usize;
        let nodes = board.nodes();
        Ok(Places {
            lines: first_places(alloc, &board.plan.board.plan)?,
            passed: vec![in alloc; 0; lines]?,
            edges: nothing_left(alloc, board.plan.board.nodes())?,
            values: vec![in alloc; None; nodes as usize]?,
            counted: false,
            counts: Vec::with_capacity(alloc, nodes as usize)?,
            set: ReadySet::with_room(alloc, nodes)?,
            apart: Vec::with_capacity(alloc, 0)?,
            leads: no_leads(alloc)?,
        })
    }
}
