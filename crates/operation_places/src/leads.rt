//! Where lines are led, remembered from one firing to the next.

ghost use Rattle.std.specs.Prelude.{◌≡◌, ◌-◌, ◌<◌, ◌^◌, All, IfOk, Some, true};
ghost use Rattle.closed_walks.specs.Graph.{edge_count};
ghost use Rattle.dep_routing.specs.Routing.{next_at};
ghost use Rattle.net_board.specs.Nodes.{graph_in};
ghost use Rattle.operation_tables.specs.BoardView.{operation_net_on};
ghost use Rattle.operation_places.specs.Leads.{IsLead};
ghost use Rattle.operation_tables.specs.Waits.{IsNodeBefore};

use crate::standing::node_before;
use df_sequence::NoMemory;
use operation_tables::OperationBoard;
use std::alloc::Global;

// How many are remembered: a power of two, few enough to stay in a near cache.
const LEADS: usize = 4096;

/// Where a line comes to stand that is led along an edge.
#[derive(Clone, Copy, Debug, PartialEq, Eq)]
pub struct Lead {
    pub line: u32,
    pub edge: u32,
    /// The edge on which it comes to stand.
    pub wire: u32,
    /// The node before which it stands there, or the number of all nodes.
    pub node: u32,
}

/// The room for what is remembered, while nothing is.
pub(crate) fn no_leads(alloc: Global) -> Result<Vec<Lead>, NoMemory>
    ensures { IfOk result (λ leads. All (λ (lead : Lead). lead.line ≡ 2 ^ 32 - 1) leads.items) }
{
    empty_leads(alloc, LEADS)
}

// So many that tell of no line.
fn empty_leads(alloc: Global, count: usize) -> Result<Vec<Lead>, NoMemory>
    ensures { IfOk result (λ leads. All (λ (lead : Lead). lead.line ≡ 2 ^ 32 - 1) leads.items) }
{
    let none = Lead {
        line: u32::MAX,
        edge: 0,
        wire: 0,
        node: 0,
    };
    Ok(vec![in alloc; none; count]?)
}

/// Where a line comes to stand that is led along an edge. The node is told only where that is asked for.
#[inline(always)]
pub fn lead_of<const W: usize>(
    board: &OperationBoard<W>,
    asked: bool,
    leads: &mut Vec<Lead>,
    line: u32,
    edge: u32,
) -> Lead
    requires line { line < (operation_net_on board.now).net.routing.lines }
    requires edge { edge < edge_count (graph_in (operation_net_on board.now).net) }
    requires leads { All (IsLead (operation_net_on board.now)) leads.old.items }
    ensures wire { result.wire ≡ next_at (operation_net_on board.now).net.routing line edge }
    ensures node { asked ≡ true → IsNodeBefore (operation_net_on board.now) line (Some result.wire) 0 result.node }
    ensures leads { All (IsLead (operation_net_on board.now)) leads.new.items }
{
    if asked {
        return known_lead(board, leads, line, edge);
    }
    let wire = board.plan.board.plan.routes.next_wire(line, edge);
    Lead {
        line,
        edge,
        wire,
        node: 0,
    }
}

// What is remembered of the line and the edge, or else what is found, which is remembered then.
#[inline(always)]
fn known_lead<const W: usize>(
    board: &OperationBoard<W>,
    leads: &mut Vec<Lead>,
    line: u32,
    edge: u32,
) -> Lead
    requires line { line < (operation_net_on board.now).net.routing.lines }
    requires edge { edge < edge_count (graph_in (operation_net_on board.now).net) }
    requires leads { All (IsLead (operation_net_on board.now)) leads.old.items }
    ensures wire { result.wire ≡ next_at (operation_net_on board.now).net.routing line edge }
    ensures node { IsNodeBefore (operation_net_on board.now) line (Some result.wire) 0 result.node }
    ensures leads { All (IsLead (operation_net_on board.now)) leads.new.items }
{
    let place = place_of(line, edge);
    if place < leads.len() {
        let lead = leads[place];
        if lead.line == line && lead.edge == edge {
            return lead;
        }
    }
    found_lead(board, leads, place, line, edge)
}

// What is found of the line and the edge. It is remembered at the place.
#[inline(never)]
fn found_lead<const W: usize>(
    board: &OperationBoard<W>,
    leads: &mut Vec<Lead>,
    place: usize,
    line: u32,
    edge: u32,
) -> Lead
    requires line { line < (operation_net_on board.now).net.routing.lines }
    requires edge { edge < edge_count (graph_in (operation_net_on board.now).net) }
    requires leads { All (IsLead (operation_net_on board.now)) leads.old.items }
    ensures wire { result.wire ≡ next_at (operation_net_on board.now).net.routing line edge }
    ensures node { IsNodeBefore (operation_net_on board.now) line (Some result.wire) 0 result.node }
    ensures leads { All (IsLead (operation_net_on board.now)) leads.new.items }
{
    let wire = board.plan.board.plan.routes.next_wire(line, edge);
    let node = node_before(board, line, wire);
    let lead = Lead {
        line,
        edge,
        wire,
        node,
    };
    if place < leads.len() {
        leads[place] = lead;
    }
    lead
}

// Where the line and the edge are looked for. Lines that are led along the same edge lie side by side.
fn place_of(line: u32, edge: u32) -> usize {
    edge.wrapping_mul(61).wrapping_add(line) as usize & (LEADS - 1)
}
