//! A new board, and what stands on it before any firing.

ghost use Rattle.std.specs.Prelude.{◌≡◌, ◌≤◌, ℕ, ℤ, Bool, List, None, All, length, map, replicate, IfOk};
ghost use Rattle.op_table.specs.Words.{IsWord};
ghost use Rattle.class_set.specs.Members.{IsWidth};
ghost use Rattle.f77_tree.specs.declared.programs.Program.{Program};
ghost use Rattle.cfg_build.specs.Flow.{flow as flow_graph};
ghost use Rattle.cfg_build.specs.Joined.{FlowGraph};
ghost use Rattle.dep_routing.specs.Routing.{Routing};
ghost use Rattle.dep_routing.specs.Touch.{touches_in};
ghost use Rattle.net_board.specs.SoundNets.{CanCome, IsNet};
ghost use Rattle.net_board.specs.ControlCourse.{first_control as first_control_of};
ghost use Rattle.net_board.specs.NetLockstep.{IsInLockstep};
ghost use Rattle.net_board.specs.Nodes.{all_lines};
ghost use Rattle.net_board.specs.NetParts.{AreParts, net_with};
ghost use Rattle.net_board.specs.ControlPlaces.{IsPlaced};
ghost use Rattle.net_board.specs.Tokens.{first_tokens, led_from};
ghost use Rattle.net_tables.specs.LookupView.{net_on};
ghost use Rattle.net_tables.specs.PartsView.{net_in};

use crate::lookups::Board;
use crate::program_parts::Plan;
use crate::tables::make_tables;
use cfg_build::{Flow, flow_graph_has_shape};
use dep_routing::{Lines, TouchList};
use df_sequence::NoMemory;
use f77_tree::Program;
use net_board::{
    Control, nets_begin_soundly, nets_simulate_programs, parts_lead_lines, parts_make_nets,
};
use std::alloc::Global;

/// The parts that are a program's own make its net over data of words. Before any firing that net has a marking that can come, and
/// its control is in lockstep with the program.
pub fn program_nets_begin()
    ensures is_net { (p : Program) (f : FlowGraph) (touches : (piece line : ℕ) → Bool) (routing : Routing) (input : List ℤ) → AreParts p f touches routing → All IsWord input → IsNet (net_with p input touches routing) }
    ensures sound { (p : Program) (f : FlowGraph) (touches : (piece line : ℕ) → Bool) (routing : Routing) (input : List ℤ) → AreParts p f touches routing → All IsWord input → CanCome (net_with p input touches routing) (first_tokens (net_with p input touches routing)) }
    ensures in_lockstep { (p : Program) (f : FlowGraph) (touches : (piece line : ℕ) → Bool) (routing : Routing) (input : List ℤ) → AreParts p f touches routing → All IsWord input → IsInLockstep (net_with p input touches routing) (first_tokens (net_with p input touches routing)) (first_control_of (net_with p input touches routing)) }
{
    parts_make_nets();
    nets_begin_soundly();
    nets_simulate_programs();
}

/// What the type of words says of each of them: it is a word, a whole number from -2^31 up to 2^31 - 1.
pub fn words_are_words(words: &Vec<i32>)
    ensures { All IsWord words.now.items }
{
    for word in words {
        is_word(*word);
    }
}

/// What the type of a word says of it.
fn is_word(word: i32)
    ensures { IsWord word }
{}

/// What firings never change. Errors: memory runs out while the data are copied.
fn make_plan<'a, const W: usize>(
    alloc: Global,
    p: &'a Program,
    f: &'a Flow,
    touch: &'a TouchList<W>,
    l: &'a Lines<W>,
    input: &Vec<i32>,
) -> Result<Plan<'a, W>, NoMemory>
    requires width { IsWidth W }
    requires parts { AreParts p.now f.now (touches_in touch.now) l.now }
    requires sets { length touch.now ≡ (flow_graph p.now.execs).graph.nodes }
    requires few { l.now.lines ≤ 1024 }
    ensures { IfOk result (λ plan. net_in plan ≡ net_with p.now input.now.items (touches_in touch.now) l.now) }
{
    flow_graph_has_shape();
    parts_lead_lines();
    let input = Vec::from_slice(alloc, input)?;
    Ok(Plan {
        program: p,
        flow: f,
        touch,
        routes: l,
        input,
    })
}

/// What firings never change, with the tables in which they look it up, for a program, its own parts and a copy of its data. Errors:
/// memory runs out.
pub fn make_board<'a, const W: usize>(
    alloc: Global,
    p: &'a Program,
    f: &'a Flow,
    touch: &'a TouchList<W>,
    l: &'a Lines<W>,
    input: &Vec<i32>,
) -> Result<Board<'a, W>, NoMemory>
    requires width { IsWidth W }
    requires parts { AreParts p.now f.now (touches_in touch.now) l.now }
    requires sets { length touch.now ≡ (flow_graph p.now.execs).graph.nodes }
    requires few { l.now.lines ≤ 1024 }
    ensures { IfOk result (λ board. net_on board ≡ net_with p.now input.now.items (touches_in touch.now) l.now) }
{
    let plan = make_plan(alloc, p, f, touch, l, input)?;
    let tables = make_tables(alloc, &plan)?;
    Ok(Board { plan, tables })
}

/// Where control is before any firing: it comes along edge 1, which leaves the start.
pub fn first_control<const W: usize>(board: &Board<W>) -> Control
    ensures control { result ≡ first_control_of (net_on board.now) }
    ensures placed { IsPlaced (net_on board.now) result }
{
    Control {
        piece: board.arrival(1),
        fired: 0,
        leaves: 0,
    }
}

/// For each line the edge on which it stands before any firing: where it is led from edge 1, which leaves the start. Errors: memory
/// runs out.
pub fn first_places<const W: usize>(
    alloc: Global,
    plan: &Plan<W>,
) -> Result<Vec<Option<u32>>, NoMemory>
    ensures { IfOk result (λ places. places.items ≡ map (led_from (net_in plan.now) 1) (all_lines (net_in plan.now))) }
{
    let mut places = Vec::with_capacity(alloc, plan.routes.lines() as usize)?;
    for line in 0..plan.routes.lines() {
        places.push(Some(plan.routes.next_wire(line, 1)))?;
    }
    Ok(places)
}

/// No edge is left for any of so many nodes. Errors: memory runs out.
pub fn nothing_left(alloc: Global, nodes: u32) -> Result<Vec<Option<u32>>, NoMemory>
    ensures { IfOk result (λ edges. edges.items ≡ replicate nodes None) }
{
    let mut edges = Vec::new(alloc);
    edges.resize(nodes as usize, None)?;
    Ok(edges)
}
