//! A new net, before any firing.

ghost use Rattle.std.specs.Prelude.{◌≡◌, ◌≤◌, [], Some, length, IfOk};
ghost use Rattle.class_set.specs.Members.{IsWidth};
ghost use Rattle.cfg_build.specs.Flow.{flow as flow_graph};
ghost use Rattle.dep_routing.specs.Touch.{touches_in};
ghost use Rattle.firing.specs.Control.{IsInStep};
ghost use Rattle.net_board.specs.SoundNets.{CanCome};
ghost use Rattle.net_board.specs.ControlCourse.{first_control as first_control_of};
ghost use Rattle.net_board.specs.NetLockstep.{IsInLockstep};
ghost use Rattle.net_board.specs.NetParts.{AreParts, net_with};
ghost use Rattle.net_board.specs.Tokens.{first_tokens, net_moves};
ghost use Rattle.token_net.specs.NetView.{net_of, tokens_of};

use crate::Net;
use cfg_build::Flow;
use dep_routing::{Lines, TouchList};
use df_sequence::NoMemory;
use f77_meaning::{initial_storage, longest_line};
use f77_tree::Program;
use firing::ReadySet;
use net_tables::{
    first_control, first_places, make_board, nothing_left, program_nets_begin, words_are_words,
};
use std::alloc::Global;

impl<'a, const W: usize> Net<'a, W> {
    /// The net of a program over a copy of its data, before any firing. All memory is taken here, room for the longest line too.
    pub fn new(
        alloc: Global,
        p: &'a Program,
        f: &'a Flow,
        touch: &'a TouchList<W>,
        l: &'a Lines<W>,
        input: &Vec<i32>,
    ) -> Result<Net<'a, W>, NoMemory>
        requires width { IsWidth W }
        requires parts { AreParts p.now f.now (touches_in touch.now) l.now }
        requires sets { length touch.now ≡ (flow_graph p.now.execs).graph.nodes }
        requires few { l.now.lines ≤ 1024 }
        ensures net { IfOk result (λ n. net_of n ≡ net_with p.now input.now.items (touches_in touch.now) l.now) }
        ensures marking { IfOk result (λ n. tokens_of n ≡ first_tokens (net_of n)) }
        ensures place { IfOk result (λ n. n.control ≡ Some (first_control_of (net_of n))) }
        ensures last { IfOk result (λ n. n.text.items ≡ []) }
        ensures sound { IfOk result (λ n. CanCome (net_of n) (tokens_of n)) }
        ensures in_step { IfOk result (λ n. IsInStep (net_moves (net_of n)) (IsInLockstep (net_of n)) (tokens_of n) n.control) }
    {
        program_nets_begin();
        words_are_words(input);
        let board = make_board(alloc, p, f, touch, l, input)?;
        let room = longest_line(p.execs.as_slice());
        let control = first_control(&board);
        Ok(Net {
            lines: first_places(alloc, &board.plan)?,
            edges: nothing_left(alloc, board.nodes())?,
            storage: initial_storage(alloc, p)?,
            trapped: None,
            control: Some(control),
            text: Vec::with_capacity(alloc, room)?,
            draft: Vec::with_capacity(alloc, room)?,
            kept: false,
            woken: Vec::with_capacity(alloc, 2 * l.lines() as usize + 2)?,
            set: ReadySet::with_room(alloc, board.nodes())?,
            board,
        })
    }
}
