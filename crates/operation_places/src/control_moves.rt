//! How the firing of the node that is due moves control on.

ghost use Rattle.std.specs.Option.{ForSome};
ghost use Rattle.std.specs.Prelude.{◌≡◌, ◌<◌, ◌==◌, ◌-◌, ◌||◌, suc, nat_lt, if◌then◌else◌};
ghost use Rattle.closed_walks.specs.Graph.{edge_count};
ghost use Rattle.cfg_build.specs.Joined.{is_end};
ghost use Rattle.firing.specs.Control.{steered as steered_in};
ghost use Rattle.net_board.specs.ControlPlaces.{IsPlaced};
ghost use Rattle.net_board.specs.Nodes.{graph_in, kind_in};
ghost use Rattle.op_board.specs.OperationCourse.{control_after, decided, due_operation, operation_course};
ghost use Rattle.op_board.specs.OperationNets.{operation_count, operation_node_count};
ghost use Rattle.op_board.specs.OperationTokens.{OperationTokens};
ghost use Rattle.operation_tables.specs.BoardView.{operation_net_on};
ghost use Rattle.operation_places.specs.Steering.{LeadsBy};
ghost use Rattle.operation_places.specs.Visits.{IsVisit};

use net_board::Control;
use net_tables::is_end;
use operation_tables::OperationBoard;

/// The node that is due at a place.
pub fn due_at<const W: usize>(board: &OperationBoard<W>, c: Control) -> Option<u32>
    requires placed { IsPlaced (operation_net_on board.now).net c }
    ensures { result ≡ due_operation (operation_net_on board.now) c }
{
    if c.fired < board.count(c.piece) {
        Some(board.first(c.piece) + c.fired)
    } else {
        None
    }
}

/// The place of control after a node fires, which takes this edge if it is the last operation of its piece, or the first node where the
/// piece has none. Control is lost where another node was due.
pub fn steered<const W: usize>(
    board: &OperationBoard<W>,
    control: Option<Control>,
    k: u32,
    edge: u32,
) -> Option<Control>
    requires placed { ForSome control (IsPlaced (operation_net_on board.now).net) }
    requires edge { edge < edge_count (graph_in (operation_net_on board.now).net) }
    ensures steered { (m : OperationTokens) → LeadsBy (operation_net_on board.now) m k edge → result ≡ steered_in (operation_course (operation_net_on board.now)) m control k }
    ensures placed { ForSome result (IsPlaced (operation_net_on board.now).net) }
{
    match control {
        Some(c) if due_at(board, c) == Some(k) => Some(moved_on(board, c, edge)),
        _ => None,
    }
}

// The place to which the node that is due leads, where it takes this edge if it is the last operation of its piece, or the first node
// where the piece has none.
fn moved_on<const W: usize>(board: &OperationBoard<W>, c: Control, edge: u32) -> Control
    requires placed { IsPlaced (operation_net_on board.now).net c }
    requires due { c.fired < operation_node_count (operation_net_on board.now) c.piece }
    requires edge { edge < edge_count (graph_in (operation_net_on board.now).net) }
    ensures moved { (m : OperationTokens) → (c.fired ≡ operation_count (operation_net_on board.now) c.piece - 1 → decided (operation_net_on board.now) m c.piece c.fired ≡ edge) → result ≡ control_after (operation_net_on board.now) m c }
    ensures placed { IsPlaced (operation_net_on board.now).net result }
{
    let visit = visit_at(board, c);
    passed_on(board, visit, edge).control
}

// ---- visits

/// A place of control, with what is looked up of the nodes of its piece.
#[derive(Clone, Copy)]
pub struct Visit {
    pub control: Control,
    /// The number of the first node of the piece.
    pub first: u32,
    /// How many nodes the piece has.
    pub count: u32,
    /// How many of these are operations.
    pub operations: u32,
}

/// A place, with the nodes of its piece.
pub fn visit_at<const W: usize>(board: &OperationBoard<W>, c: Control) -> Visit
    requires placed { IsPlaced (operation_net_on board.now).net c }
    ensures visit { IsVisit (operation_net_on board.now) result }
    ensures place { result.control ≡ c }
{
    Visit {
        control: c,
        first: board.first(c.piece),
        count: board.count(c.piece),
        operations: board.operations(c.piece),
    }
}

/// The node that is due.
pub fn due_in<const W: usize>(board: &OperationBoard<W>, visit: Visit) -> Option<u32>
    requires visit { IsVisit (operation_net_on board.now) visit }
    ensures { result ≡ due_operation (operation_net_on board.now) visit.control }
{
    if visit.control.fired < visit.count {
        Some(visit.first + visit.control.fired)
    } else {
        None
    }
}

/// The visit to which the node that is due leads, where it takes this edge if it is the last operation of its piece, or the first node
/// where the piece has none.
pub fn passed_on<const W: usize>(board: &OperationBoard<W>, visit: Visit, edge: u32) -> Visit
    requires visit { IsVisit (operation_net_on board.now) visit }
    requires due { visit.control.fired < operation_node_count (operation_net_on board.now) visit.control.piece }
    requires edge { edge < edge_count (graph_in (operation_net_on board.now).net) }
    ensures moved { (m : OperationTokens) → (visit.control.fired ≡ operation_count (operation_net_on board.now) visit.control.piece - 1 → decided (operation_net_on board.now) m visit.control.piece visit.control.fired ≡ edge) → result.control ≡ control_after (operation_net_on board.now) m visit.control }
    ensures visit { IsVisit (operation_net_on board.now) result }
{
    let leaves = leaves_by(board, visit, edge);
    if stays(board, visit) {
        Visit {
            control: Control {
                piece: visit.control.piece,
                fired: visit.control.fired + 1,
                leaves,
            },
            first: visit.first,
            count: visit.count,
            operations: visit.operations,
        }
    } else {
        let piece = board.plan.board.arrival(leaves);
        visit_at(
            board,
            Control {
                piece,
                fired: 0,
                leaves: 0,
            },
        )
    }
}

// The edge by which control leaves a piece, whose last operation takes this edge.
fn leaves_by<const W: usize>(board: &OperationBoard<W>, visit: Visit, edge: u32) -> u32
    requires visit { IsVisit (operation_net_on board.now) visit }
    ensures { result ≡ (if visit.control.fired == operation_count (operation_net_on board.now) visit.control.piece - 1 then edge else visit.control.leaves) }
{
    let last = visit.operations.saturating_sub(1);
    if visit.control.fired == last {
        edge
    } else {
        visit.control.leaves
    }
}

// Whether control is at the same piece once the node that is due has fired.
fn stays<const W: usize>(board: &OperationBoard<W>, visit: Visit) -> bool
    requires visit { IsVisit (operation_net_on board.now) visit }
    requires due { visit.control.fired < operation_node_count (operation_net_on board.now) visit.control.piece }
    ensures { result ≡ (nat_lt (suc visit.control.fired) (operation_node_count (operation_net_on board.now) visit.control.piece) || is_end (kind_in (operation_net_on board.now).net visit.control.piece)) }
{
    let piece = visit.control.piece;
    visit.control.fired + 1 < visit.count || is_end(board.plan.board.plan.flow.piece(piece).kind)
}
