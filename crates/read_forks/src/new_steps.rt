//! The tables of a net in which the loads of a group fire in any order.

ghost use Rattle.std.specs.Prelude.{◌≡◌, ◌<◌, ◌+◌, ◌++◌, [], ◌∷◌, filter, length, map, true, ℕ, Some, IfOk, OnOk, slice_get};
ghost use Rattle.firing.specs.declared.system.NodeName.TheVariants.{Op};
ghost use Rattle.firing.specs.ReadySet.{has};
ghost use Rattle.net_board.specs.Nodes.{graph_in};
ghost use Rattle.op_board.specs.OperationNets.{is_last_at, needed, operation_at, operation_count, operation_node};
ghost use Rattle.op_board.specs.OperationTokens.{OperationTokens};
ghost use Rattle.op_net.specs.NetView.{net_of};
ghost use Rattle.operation_tables.specs.Waits.{node_total};
ghost use Rattle.fork_board.specs.ForkTokens.{is_load_node};
ghost use Rattle.read_forks.specs.KeptLoads.{AreKept, IsOpenForNone, opened_of};
ghost use Rattle.read_forks.specs.LoadFlags.{AreLoadFlags};
ghost use Rattle.read_forks.specs.MadeSteps.{AppendsGiver, AreShut, AreTablesBelow, IsWayAt, load_givers, new_link_of};
ghost use Rattle.read_forks.specs.NodeLinks.{AreSteps, IsLoadTaker, is_turn};
ghost use Rattle.read_forks.specs.Ways.{AreWays, IsWay};

use crate::steps::{Group, Link, Step, Steps, link_near, no_group};
use crate::waiting::Waiting;
use crate::ways::Way;
use df_sequence::NoMemory;
use firing::{NodeName, StepSystem};
use op_net::OpNet;
use std::alloc::Global;

/// For what the loads of a net wait while no line is open for any, made from flags that tell which nodes are loads.
pub(crate) fn new_waiting<const W: usize>(
    alloc: Global,
    net: &OpNet<W>,
    loads: &Vec<bool>,
) -> Result<Waiting, NoMemory>
    requires flags { AreLoadFlags (net_of net.now) loads.now.items }
    requires room { length loads.now.items ≡ node_total (net_of net.now) }
    ensures kept { IfOk result (λ w. (m : OperationTokens) → AreKept (net_of net.now) m w) }
    ensures none { IfOk result (λ w. (line : ℕ) → IsOpenForNone (opened_of (net_of net.now) w) line) }
{
    let mut tables = new_tables(alloc, net, loads)?;
    find_ways(net, &tables.steps, &mut tables.links);
    let closed = closed_lines(alloc, &tables.steps)?;
    let groups = no_groups(alloc, net)?;
    let Tables {
        steps,
        links,
        givers,
    } = tables;
    Ok(Waiting {
        steps,
        links,
        givers,
        closed,
        groups,
    })
}

// ---- nodes, one after another

// The tables of nodes, as they are made.
#[derive(Drop)]
struct Tables {
    steps: Steps,
    links: Vec<Link>,
    givers: Vec<u32>,
}

// The tables of all nodes, before it is known where lines go on.
fn new_tables<const W: usize>(
    alloc: Global,
    net: &OpNet<W>,
    loads: &Vec<bool>,
) -> Result<Tables, NoMemory>
    requires flags { AreLoadFlags (net_of net.now) loads.now.items }
    requires room { length loads.now.items ≡ node_total (net_of net.now) }
    ensures { IfOk result (λ t. AreTablesBelow (net_of net.now) (node_total (net_of net.now)) t.steps t.links.items t.givers.items) }
{
    let mut tables = Tables {
        steps: Steps::with_room(alloc, net.nodes() as usize)?,
        links: Vec::new(alloc),
        givers: Vec::new(alloc),
    };
    for k in 0..net.nodes() {
        push_step(net, loads, &mut tables, k)?;
    }
    Ok(tables)
}

// Appends a node.
fn push_step<const W: usize>(
    net: &OpNet<W>,
    loads: &Vec<bool>,
    tables: &mut Tables,
    k: u32,
) -> Result<(), NoMemory>
    requires node { k < node_total (net_of net.now) }
    requires flags { AreLoadFlags (net_of net.now) loads.now.items }
    requires room { length loads.now.items ≡ node_total (net_of net.now) }
    requires made { AreTablesBelow (net_of net.now) k tables.old.steps tables.old.links.items tables.old.givers.items }
    ensures { OnOk result (AreTablesBelow (net_of net.now) (k + 1) tables.new.steps tables.new.links.items tables.new.givers.items) }
{
    match net.name(k) {
        NodeName::Op(piece, i) => push_operation(net, loads, tables, k, piece, i),
        NodeName::Switch(_, _) => push_turn(net, tables, k),
        NodeName::Merge(_, _) => push_turn(net, tables, k),
        NodeName::Act(_) => push_turn(net, tables, k),
    }
}

// Appends a node that is no operation.
fn push_turn<const W: usize>(net: &OpNet<W>, tables: &mut Tables, k: u32) -> Result<(), NoMemory>
    requires node { k < node_total (net_of net.now) }
    requires turns { is_turn (operation_node (net_of net.now) k) ≡ true }
    requires made { AreTablesBelow (net_of net.now) k tables.old.steps tables.old.links.items tables.old.givers.items }
    ensures { OnOk result (AreTablesBelow (net_of net.now) (k + 1) tables.new.steps tables.new.links.items tables.new.givers.items) }
{
    // All nodes have numbers below the greatest one.
    let _nodes = net.nodes();
    tables.steps.push_turn()?;
    Ok(())
}

// Appends an operation.
fn push_operation<const W: usize>(
    net: &OpNet<W>,
    loads: &Vec<bool>,
    tables: &mut Tables,
    k: u32,
    piece: u32,
    i: u32,
) -> Result<(), NoMemory>
    requires node { k < node_total (net_of net.now) }
    requires flags { AreLoadFlags (net_of net.now) loads.now.items }
    requires room { length loads.now.items ≡ node_total (net_of net.now) }
    requires name { operation_node (net_of net.now) k ≡ Op piece i }
    requires made { AreTablesBelow (net_of net.now) k tables.old.steps tables.old.links.items tables.old.givers.items }
    ensures { OnOk result (AreTablesBelow (net_of net.now) (k + 1) tables.new.steps tables.new.links.items tables.new.givers.items) }
{
    // All nodes have numbers below the greatest one.
    let _nodes = net.nodes();
    // No more loads than there are operands give them.
    let _operands = net.operand_count(piece, i);
    let first = tables.links.len();
    push_links(net, &mut tables.links, k, piece, i)?;
    let giver = tables.givers.len();
    push_givers(net, loads, &mut tables.givers, piece, i)?;
    let end = tables.givers.len();
    let givers = (end - giver) as u32;
    tables.steps.push(Step {
        piece,
        number: i,
        first,
        count: net.needed_count(piece, i),
        giver,
        givers,
        taker: load_taker(net, loads, k, piece, i),
        loads: loads[k as usize],
        turns: false,
    })?;
    Ok(())
}

// A link that leads out.
fn new_link(line: u32, node: u32) -> Link
    ensures { result ≡ new_link_of node line }
{
    Link {
        line,
        node,
        way: Way::Out,
        open: false,
    }
}

// Appends the links of an operation.
fn push_links<const W: usize>(
    net: &OpNet<W>,
    links: &mut Vec<Link>,
    k: u32,
    piece: u32,
    i: u32,
) -> Result<(), NoMemory>
    requires piece { piece < (graph_in (net_of net.now).net).nodes }
    requires operation { i < operation_count (net_of net.now) piece }
    ensures { OnOk result (links.new.items ≡ links.old.items ++ map (new_link_of k) (needed (net_of net.now) piece i)) }
{
    for j in 0..net.needed_count(piece, i) {
        links.push(new_link(net.needed_line(piece, i, j), k))?;
    }
    Ok(())
}

// Appends the loads whose values an operation takes.
fn push_givers<const W: usize>(
    net: &OpNet<W>,
    loads: &Vec<bool>,
    givers: &mut Vec<u32>,
    piece: u32,
    i: u32,
) -> Result<(), NoMemory>
    requires flags { AreLoadFlags (net_of net.now) loads.now.items }
    requires room { length loads.now.items ≡ node_total (net_of net.now) }
    requires piece { piece < (graph_in (net_of net.now).net).nodes }
    requires operation { i < operation_count (net_of net.now) piece }
    ensures { OnOk result (givers.new.items ≡ givers.old.items ++ load_givers (net_of net.now) piece (operation_at (net_of net.now) piece i).operands) }
{
    for j in 0..net.operand_count(piece, i) {
        push_giver(net, loads, givers, piece, i, j)?;
    }
    Ok(())
}

// Appends the load whose value is an operand, if there is one.
fn push_giver<const W: usize>(
    net: &OpNet<W>,
    loads: &Vec<bool>,
    givers: &mut Vec<u32>,
    piece: u32,
    i: u32,
    j: u32,
) -> Result<(), NoMemory>
    requires flags { AreLoadFlags (net_of net.now) loads.now.items }
    requires room { length loads.now.items ≡ node_total (net_of net.now) }
    requires piece { piece < (graph_in (net_of net.now).net).nodes }
    requires operation { i < operation_count (net_of net.now) piece }
    requires inside { j < length (operation_at (net_of net.now) piece i).operands }
    ensures { OnOk result (AppendsGiver (net_of net.now) piece (operation_at (net_of net.now) piece i).operands j givers.old.items givers.new.items) }
{
    match net.operand_giver(piece, i, j) {
        Some(number) => {
            push_load(loads, givers, net.operation_node(piece, number))?;
            Ok(())
        }
        None => Ok(()),
    }
}

// Appends a node if it is a load.
fn push_load(loads: &Vec<bool>, givers: &mut Vec<u32>, k: u32) -> Result<(), NoMemory>
    requires { k < length loads.now.items }
    ensures { OnOk result (givers.new.items ≡ givers.old.items ++ filter (has loads.now.items) (k ∷ [])) }
{
    if loads[k as usize] {
        givers.push(k)?;
        Ok(())
    } else {
        Ok(())
    }
}

// The load that takes the value of an operation, or the number of all nodes.
fn load_taker<const W: usize>(net: &OpNet<W>, loads: &Vec<bool>, k: u32, piece: u32, i: u32) -> u32
    requires node { k < node_total (net_of net.now) }
    requires flags { AreLoadFlags (net_of net.now) loads.now.items }
    requires room { length loads.now.items ≡ node_total (net_of net.now) }
    requires name { operation_node (net_of net.now) k ≡ Op piece i }
    ensures takes { IsLoadTaker (net_of net.now) k result }
    ensures loads { result < node_total (net_of net.now) → is_load_node (net_of net.now) (operation_node (net_of net.now) result) ≡ true }
{
    let none = net.nodes();
    if net.gives(piece, i) {
        let taker = net.taker(k, piece, i);
        if loads[taker as usize] { taker } else { none }
    } else {
        none
    }
}

// ---- where lines go on

// Finds where lines go on from their nodes.
fn find_ways<const W: usize>(net: &OpNet<W>, steps: &Steps, links: &mut Vec<Link>)
    requires steps { AreSteps (net_of net.now) steps.now links.old.items }
    requires shut { AreShut links.old.items }
    ensures steps { AreSteps (net_of net.now) steps.now links.new.items }
    ensures shut { AreShut links.new.items }
    ensures ways { ∥ AreWays (net_of net.now) links.new.items ∥₁ }
{
    for at in 0..links.len() {
        let way = way_of(net, steps, links, at);
        links[at].way = way;
    }
}

// Where a line goes on from a node, by their link.
fn way_of<const W: usize>(net: &OpNet<W>, steps: &Steps, links: &Vec<Link>, at: usize) -> Way
    requires steps { AreSteps (net_of net.now) steps.now links.now.items }
    requires inside { at < length links.now.items }
    ensures { IsWayAt (net_of net.now) links.now.items at result }
{
    let link = links[at];
    match net.name(link.node) {
        NodeName::Op(_, _) => {
            let step = steps.at(link.node as usize);
            let j = (at - step.first) as u32;
            way_from(net, steps, links, link, step, j)
        }
        NodeName::Switch(_, _) => Way::Out,
        NodeName::Merge(_, _) => Way::Out,
        NodeName::Act(_) => Way::Out,
    }
}

// Where a line goes on from an operation, by the number of their link among those of the operation.
fn way_from<const W: usize>(
    net: &OpNet<W>,
    steps: &Steps,
    links: &Vec<Link>,
    link: Link,
    step: Step,
    j: u32,
) -> Way
    requires steps { AreSteps (net_of net.now) steps.now links.now.items }
    requires node { link.node < node_total (net_of net.now) }
    requires name { operation_node (net_of net.now) link.node ≡ Op step.piece step.number }
    requires loads { step.loads ≡ is_load_node (net_of net.now) (operation_node (net_of net.now) link.node) }
    requires line { slice_get (needed (net_of net.now) step.piece step.number) j ≡ Some link.line }
    ensures { ∥ IsWay (net_of net.now) links.now.items step.piece step.number link.line result ∥₁ }
{
    match net.needed_next(step.piece, step.number, j) {
        Some(n) => {
            let to = net.operation_node(step.piece, n);
            let next = steps.at(to as usize);
            if next.loads {
                Way::Here(link_near(links, next, link.line, j))
            } else {
                Way::Before(to)
            }
        }
        None => {
            if step.loads {
                way_over(net, steps, links, link, step, j)
            } else {
                Way::Out
            }
        }
    }
}

// The same where the line leaves the piece of a load.
fn way_over<const W: usize>(
    net: &OpNet<W>,
    steps: &Steps,
    links: &Vec<Link>,
    link: Link,
    step: Step,
    j: u32,
) -> Way
    requires steps { AreSteps (net_of net.now) steps.now links.now.items }
    requires piece { step.piece < (graph_in (net_of net.now).net).nodes }
    requires line { link.line < (net_of net.now).net.routing.lines }
    requires last { is_last_at (net_of net.now) step.piece step.number link.line ≡ true }
    ensures { ∥ IsWay (net_of net.now) links.now.items step.piece step.number link.line result ∥₁ }
{
    let edge = net.led_out(link.line, step.piece);
    // It leads to a piece.
    let _piece = net.head(edge);
    let to = net.node_at(link.line, edge, 0);
    if to >= net.nodes() {
        return Way::Behind(edge, to);
    }
    let next = steps.at(to as usize);
    if next.loads {
        Way::Over(link_near(links, next, link.line, j), edge)
    } else {
        Way::Behind(edge, to)
    }
}

// ---- before any line is open

// For how many lines each node waits while none is open.
fn closed_lines(alloc: Global, steps: &Steps) -> Result<Vec<u32>, NoMemory>
    ensures { IfOk result (λ closed. closed.items ≡ map (λ (step : Step). step.count) steps.now) }
{
    let mut closed = Vec::with_capacity(alloc, steps.len())?;
    for k in 0..steps.len() {
        closed.push(steps.at(k).count)?;
    }
    Ok(closed)
}

// No line stands before a group.
fn no_groups<const W: usize>(alloc: Global, net: &OpNet<W>) -> Result<Vec<Group>, NoMemory>
    ensures { IfOk result (λ groups. length groups.items ≡ (net_of net.now).net.routing.lines) }
{
    let groups = vec![in alloc; no_group(); net.lines() as usize]?;
    Ok(groups)
}
