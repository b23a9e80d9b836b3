//! How the firing of the node that is due moves control on.

ghost use Rattle.std.specs.Option.{ForSome};
ghost use Rattle.std.specs.Prelude.{◌≡◌, ◌<◌, ◌==◌, ◌||◌, suc, nat_lt, if◌then◌else◌};
ghost use Rattle.closed_walks.specs.Graph.{edge_count};
ghost use Rattle.cfg_build.specs.Joined.{is_end};
ghost use Rattle.firing.specs.Control.{steered as steered_in};
ghost use Rattle.net_board.specs.ControlCourse.{due_node, moved_on as moved_in, net_course, taken};
ghost use Rattle.net_board.specs.Nodes.{graph_in, kind_in, node_count};
ghost use Rattle.net_board.specs.ControlPlaces.{IsPlaced, Leads};
ghost use Rattle.net_board.specs.Tokens.{Tokens};
ghost use Rattle.net_tables.specs.LookupView.{net_on};

use net_board::Control;
use net_tables::{Board, is_end};

/// The node that is due at a place.
pub(crate) fn due_at<const W: usize>(board: &Board<W>, c: Control) -> Option<u32>
    requires placed { IsPlaced (net_on board.now) c }
    ensures { result ≡ due_node (net_on board.now) c }
{
    if c.fired < board.count(c.piece) {
        Some(board.first(c.piece) + c.fired)
    } else {
        None
    }
}

/// The place to which the node that is due leads, where it takes this edge if it is the first of its piece.
fn moved_on<const W: usize>(board: &Board<W>, c: Control, edge: u32) -> Control
    requires placed { IsPlaced (net_on board.now) c }
    requires due { c.fired < node_count (net_on board.now) c.piece }
    requires edge { edge < edge_count (graph_in (net_on board.now)) }
    ensures moved { (m : Tokens) → (c.fired ≡ 0 → taken (net_on board.now) m c ≡ edge) → result ≡ moved_in (net_on board.now) m c }
    ensures placed { IsPlaced (net_on board.now) result }
{
    let leaves = leaves_by(c, edge);
    if stays(board, c) {
        Control {
            piece: c.piece,
            fired: c.fired + 1,
            leaves,
        }
    } else {
        Control {
            piece: board.arrival(leaves),
            fired: 0,
            leaves: 0,
        }
    }
}

/// The edge by which control leaves a piece, whose first node takes this edge.
fn leaves_by(c: Control, edge: u32) -> u32
    ensures { result ≡ (if c.fired == 0 then edge else c.leaves) }
{
    if c.fired == 0 { edge } else { c.leaves }
}

/// Whether control is at the same piece once the node that is due has fired.
fn stays<const W: usize>(board: &Board<W>, c: Control) -> bool
    requires placed { IsPlaced (net_on board.now) c }
    requires due { c.fired < node_count (net_on board.now) c.piece }
    ensures { result ≡ (nat_lt (suc c.fired) (node_count (net_on board.now) c.piece) || is_end (kind_in (net_on board.now) c.piece)) }
{
    c.fired + 1 < board.count(c.piece) || is_end(board.plan.flow.piece(c.piece).kind)
}

/// The place of control after a node fires. It is lost where another one was due.
pub(crate) fn steered<const W: usize>(
    board: &Board<W>,
    control: Option<Control>,
    k: u32,
    edge: u32,
) -> Option<Control>
    requires placed { ForSome control (IsPlaced (net_on board.now)) }
    requires edge { edge < edge_count (graph_in (net_on board.now)) }
    ensures steered { (m : Tokens) → Leads (net_on board.now) m k edge → result ≡ steered_in (net_course (net_on board.now)) m control k }
    ensures placed { ForSome result (IsPlaced (net_on board.now)) }
{
    match control {
        Some(c) if due_at(board, c) == Some(k) => Some(moved_on(board, c, edge)),
        _ => None,
    }
}
