ghost use Rattle.std.specs.Prelude.{◌≡◌, ◌<◌, ℕ, List, Option, None, true, length, slice_index};
ghost use Rattle.firing.specs.Choice.{ready_nodes};
ghost use Rattle.firing.specs.Control.{Course, IsInStep, KeepsStep, steered};
ghost use Rattle.firing.specs.Laws.{IsLawful};
ghost use Rattle.firing.specs.Moves.{Moves, FiredIs, newest};

use op_table::Trap;

/// What a firing did.
#[derive(Clone, Copy, Debug, PartialEq, Eq)]
pub enum Fired {
    /// The marking changed, and nothing was written.
    Moved,
    /// A line of output was written too.
    Line,
    /// It trapped.
    Trapped,
}

/// The name of a node of a dataflow graph.
#[derive(Clone, Copy, Debug, PartialEq, Eq)]
pub enum NodeName {
    /// The action of the piece with this number: an executable, or a branch on its outcome.
    Act(u32),
    /// The merge at the piece with this number, of the line with this number.
    Merge(u32, u32),
    /// The switch at the piece with this number, of the line with this number.
    Switch(u32, u32),
    /// The operation with the second number in the action of the piece with the first.
    Op(u32, u32),
}

/// Nodes that fire while they are ready, in any order. Implementations prove the laws that make the order indifferent
/// (R. M. Karp and R. E. Miller, "Properties of a model for parallel computations: determinacy, termination, queueing",
/// 1966).
pub trait StepSystem {
    /// What firings never change.
    ghost Net: { Type 0 };

    /// What the nodes have to work on, at one moment.
    ghost Marking: { Type 0 };

    /// A place in the source's own order. A system without an order of its own takes the unit type.
    ghost Place: { Type 0 };

    ghost net: { Self → Self.Net };

    /// The moment's marking.
    ghost marking: { Self → Self.Marking };

    /// The place of control. It is lost once another node fires than the one that is due there, and then it stays lost;
    /// without an order of its own a system never has one.
    ghost place: { Self → Option Self.Place };

    /// The line of the last firing that wrote one, empty before one did.
    ghost last: { Self → List ℕ };

    /// Holds while the system keeps the set of its ready nodes. What a trap leaves ready needn't be in it.
    ghost keeps: { Self → Type 0 };

    /// Holds of the markings that can come.
    ghost sound: { Self.Net → Self.Marking → Type 0 };

    /// What markings mean.
    ghost moves: { Self.Net → Moves Self.Marking };

    /// The node that is due at a place, and the place to which its firing leads.
    ghost course: { Self.Net → Course Self.Marking Self.Place };

    /// Holds of a marking and a place that can stand beside it.
    ghost in_step: { Self.Net → Self.Marking → Self.Place → Type 0 };

    /// How many nodes there are.
    fn nodes(&self) -> u32
        ensures { result ≡ (Self.moves (Self.net self.now)).nodes };

    /// Whether a node has all that it needs.
    fn ready(&self, k: u32) -> bool
        requires node { k < (Self.moves (Self.net self.now)).nodes }
        requires sound { Self.sound (Self.net self.now) (Self.marking self.now) }
        ensures { result ≡ (Self.moves (Self.net self.now)).ready (Self.marking self.now) k };

    /// Keeps the set of the ready nodes from now on.
    fn keep_ready(&mut self)
        requires sound { Self.sound (Self.net self.old) (Self.marking self.old) }
        ensures keeps { Self.keeps self.new }
        ensures net { Self.net self.new ≡ Self.net self.old }
        ensures marking { Self.marking self.new ≡ Self.marking self.old }
        ensures place { Self.place self.new ≡ Self.place self.old }
        ensures last { Self.last self.new ≡ Self.last self.old };

    /// How many nodes are ready, where the system keeps their set.
    fn ready_count(&self) -> u32
        requires keeps { Self.keeps self.now }
        requires sound { Self.sound (Self.net self.now) (Self.marking self.now) }
        requires going { (Self.moves (Self.net self.now)).trap (Self.marking self.now) ≡ None }
        ensures { result ≡ length (ready_nodes (Self.moves (Self.net self.now)) (Self.marking self.now)) };

    /// The ready node at this place, counted from 0 in number order, where the system keeps their set.
    fn ready_at(&self, nth: u32) -> u32
        requires keeps { Self.keeps self.now }
        requires sound { Self.sound (Self.net self.now) (Self.marking self.now) }
        requires going { (Self.moves (Self.net self.now)).trap (Self.marking self.now) ≡ None }
        requires some { nth < length (ready_nodes (Self.moves (Self.net self.now)) (Self.marking self.now)) }
        ensures { result ≡ slice_index (ready_nodes (Self.moves (Self.net self.now)) (Self.marking self.now)) nth };

    /// Fires a node that is ready, where nothing has trapped. If the system keeps the set of its ready nodes, it goes on doing so.
    fn fire(&mut self, k: u32) -> Fired
        requires node { k < (Self.moves (Self.net self.old)).nodes }
        requires ready { (Self.moves (Self.net self.old)).ready (Self.marking self.old) k ≡ true }
        requires going { (Self.moves (Self.net self.old)).trap (Self.marking self.old) ≡ None }
        requires sound { Self.sound (Self.net self.old) (Self.marking self.old) }
        requires in_step { IsInStep (Self.moves (Self.net self.old)) (Self.in_step (Self.net self.old)) (Self.marking self.old) (Self.place self.old) }
        ensures net { Self.net self.new ≡ Self.net self.old }
        ensures marking { Self.marking self.new ≡ (Self.moves (Self.net self.old)).fired (Self.marking self.old) k }
        ensures place { Self.place self.new ≡ steered (Self.course (Self.net self.old)) (Self.marking self.old) (Self.place self.old) k }
        ensures keeps { Self.keeps self.old → Self.keeps self.new }
        ensures fired { FiredIs (Self.moves (Self.net self.old)) (Self.marking self.old) k result }
        ensures last { Self.last self.new ≡ newest ((Self.moves (Self.net self.old)).line (Self.marking self.old) k) (Self.last self.old) };

    /// The line of the last firing that wrote one, empty before one did.
    fn line(&self) -> &[u8]
        ensures { result.now ≡ Self.last self.now };

    /// The trap, and the line of the source at which it came.
    fn trap(&self) -> Option<(Trap, u32)>
        ensures { result ≡ (Self.moves (Self.net self.now)).trap (Self.marking self.now) };

    /// The name of a node.
    fn name(&self, k: u32) -> NodeName
        requires { k < (Self.moves (Self.net self.now)).nodes }
        ensures { result ≡ (Self.moves (Self.net self.now)).name k };

    /// Of two nodes that may both fire, the firings commute (the diamond property).
    ghost lawful: { (net : Self.Net) → IsLawful (Self.sound net) (Self.moves net) };

    /// Where the node that is due fires, the place of control stays in step with the marking.
    ghost steady: { (net : Self.Net) → KeepsStep (Self.sound net) (Self.moves net) (Self.course net) (Self.in_step net) };
}
