ghost use Rattle.std.specs.Prelude.{◌≡◌, ◌≢◌, ◌<◌, ◌≤◌, ℕ, List, length, Some, None, is_some};
ghost use Rattle.df_io.specs.Faults.{Rose};
ghost use Rattle.op_table.specs.declared.Trap.{Trap};
ghost use Rattle.firing.specs.Control.{IsInStep, due_at};
ghost use Rattle.firing.specs.Orders.{IsOver, Settles, Traps, after};
ghost use Rattle.firing.specs.Play.{MakesOrder, Plays, by_order, moment};
ghost use Rattle.firing.specs.SourceOrder.{FiresTo, IsDueOrder, IsSourceOrder, newest_after};

use crate::step::{show_fired, trap_after};
use crate::{Fired, PlayEnd, Show, StepSystem, play};
use df_io::{Sink, WriteFault};

/// A step system with the order in which the source itself fires its nodes.
pub trait SourceOrder: StepSystem {
    /// Whether control has a place, since no other nodes fired than those that were due.
    fn has_control(&self) -> bool
        ensures { result ≡ is_some (Self.place self.now) };

    /// The node that is due at the place of control. There is none without control; with it, where nothing has trapped,
    /// exactly where no node is ready.
    fn due(&self) -> Option<u32>
        requires sound { Self.sound (Self.net self.now) (Self.marking self.now) }
        requires in_step { IsInStep (Self.moves (Self.net self.now)) (Self.in_step (Self.net self.now)) (Self.marking self.now) (Self.place self.now) }
        requires going { (Self.moves (Self.net self.now)).trap (Self.marking self.now) ≡ None }
        ensures { result ≡ due_at (Self.course (Self.net self.now)) (Self.marking self.now) (Self.place self.now) };

    /// Fires the node that is due, and then those that are due after it, at least one and at most so many. It stops after the
    /// first that writes a line or traps, and may stop anywhere before. It tells how many fired and what the last one did. It
    /// needn't keep the set of the ready nodes.
    fn fire_due(&mut self, most: u64) -> (u64, Fired)
        requires some { 0 < most }
        requires due { due_at (Self.course (Self.net self.old)) (Self.marking self.old) (Self.place self.old) ≢ None }
        requires sound { Self.sound (Self.net self.old) (Self.marking self.old) }
        requires in_step { IsInStep (Self.moves (Self.net self.old)) (Self.in_step (Self.net self.old)) (Self.marking self.old) (Self.place self.old) }
        requires going { (Self.moves (Self.net self.old)).trap (Self.marking self.old) ≡ None }
        ensures net { Self.net self.new ≡ Self.net self.old }
        ensures fires { FiresTo (by_order (Self.moves (Self.net self.old)) (Self.course (Self.net self.old))) (moment (Self.marking self.old) (Self.place self.old)) most result.0 result.1 (moment (Self.marking self.new) (Self.place self.new)) }
        ensures last { Self.last self.new ≡ newest_after (by_order (Self.moves (Self.net self.old)) (Self.course (Self.net self.old))) (moment (Self.marking self.old) (Self.place self.old)) result.0 (Self.last self.old) };

    /// A node that is due can fire, and where none is due none can.
    ghost ordered: { (net : Self.Net) → IsSourceOrder (Self.sound net) (Self.moves net) (Self.course net) (Self.in_step net) };
}

/// Fires the node that is due, again and again, up to a stop or `limit` firings. Without control the lowest ready node is
/// due; with it, control isn't lost.
///
/// A trap, a rest and the limit are looked for in this order before each firing. It takes no memory.
pub fn follow<S: SourceOrder, K: Sink>(sys: &mut S, limit: u64, show: Show, sink: &mut K) -> PlayEnd
    requires sound { S.sound (S.net sys.old) (S.marking sys.old) }
    requires in_step { IsInStep (S.moves (S.net sys.old)) (S.in_step (S.net sys.old)) (S.marking sys.old) (S.place sys.old) }

    // The run of the nodes that are due, and what was written of it.
    ensures plays { Plays (by_order (S.moves (S.net sys.old)) (S.course (S.net sys.old))) (moment (S.marking sys.old) (S.place sys.old)) limit show (moment (S.marking sys.new) (S.place sys.new)) (K.got sink.old) (K.got sink.new) result }
    ensures net { S.net sys.new ≡ S.net sys.old }
    ensures sound { S.sound (S.net sys.old) (S.marking sys.new) }
    ensures in_step { IsInStep (S.moves (S.net sys.old)) (S.in_step (S.net sys.old)) (S.marking sys.new) (S.place sys.new) }
    ensures control { S.place sys.old ≢ None → S.place sys.new ≢ None }

    // The sink is blamed only where it failed.
    ensures later { K.faults sink.old ≤ K.faults sink.new }
    ensures fault { (n : ℕ) → result ≡ PlayEnd.WriteFault n → Rose (K.faults sink.old) (K.faults sink.new) }

    // The firings are an order, and its output is what was written as such.
    ensures order { MakesOrder (S.moves (S.net sys.old)) (S.marking sys.old) limit show (S.marking sys.new) (K.got sink.old) (K.got sink.new) result }

    // Where the nodes that are due come to an end within the limit, the run does.
    ensures enough { (p : S.Place) (ks : List ℕ) → S.place sys.old ≡ Some p → IsDueOrder (S.moves (S.net sys.old)) (S.course (S.net sys.old)) (S.marking sys.old) p ks → IsOver (S.moves (S.net sys.old)) (after (S.moves (S.net sys.old)) (S.marking sys.old) ks) → length ks ≤ limit → result ≢ PlayEnd.Limit }

    // No other order of firing comes to another end.
    ensures settles { (n : ℕ) → result ≡ PlayEnd.Rest n → Settles (S.moves (S.net sys.old)) (S.marking sys.old) n (S.marking sys.new) }
    ensures traps { (trap : Trap) (line : ℕ) → result ≡ PlayEnd.Trapped trap line → Traps (S.moves (S.net sys.old)) (S.marking sys.old) (trap, line) }
{
    if sys.has_control() {
        fire_in_order(sys, limit, show, sink)
    } else {
        play(sys, &[0], limit, show, sink)
    }
}

// Fires the nodes that are due at the places of control. What follows of such a run by the laws is a matter of `follow`.
fn fire_in_order<S: SourceOrder, K: Sink>(
    sys: &mut S,
    limit: u64,
    show: Show,
    sink: &mut K,
) -> PlayEnd
    requires control { S.place sys.old ≢ None }
    requires sound { S.sound (S.net sys.old) (S.marking sys.old) }
    requires in_step { IsInStep (S.moves (S.net sys.old)) (S.in_step (S.net sys.old)) (S.marking sys.old) (S.place sys.old) }
    ensures plays { Plays (by_order (S.moves (S.net sys.old)) (S.course (S.net sys.old))) (moment (S.marking sys.old) (S.place sys.old)) limit show (moment (S.marking sys.new) (S.place sys.new)) (K.got sink.old) (K.got sink.new) result }
    ensures net { S.net sys.new ≡ S.net sys.old }
    ensures sound { S.sound (S.net sys.old) (S.marking sys.new) }
    ensures in_step { IsInStep (S.moves (S.net sys.old)) (S.in_step (S.net sys.old)) (S.marking sys.new) (S.place sys.new) }
    ensures control { S.place sys.new ≢ None }
    ensures later { K.faults sink.old ≤ K.faults sink.new }
    ensures fault { (n : ℕ) → result ≡ PlayEnd.WriteFault n → Rose (K.faults sink.old) (K.faults sink.new) }
{
    let mut trapped = sys.trap();
    let mut made: u64 = 0;
    'firing: loop {
        if let Some((trap, line)) = trapped {
            return PlayEnd::Trapped(trap, line);
        }
        let Some(k) = sys.due() else {
            return PlayEnd::Rest(made);
        };
        if made == limit {
            return PlayEnd::Limit;
        }
        let (count, fired) = sys.fire_due(at_once(show, limit - made));
        made += count;
        trapped = match show_fired(sys, k, fired, show, sink) {
            Ok(()) => trap_after(sys, fired),
            Err(WriteFault) => return PlayEnd::WriteFault(made),
        };
    }
}

// How many firings may be made at once, where so many are left. Where each is shown, it is one.
fn at_once(show: Show, left: u64) -> u64
    requires { 0 < left }
    ensures some { 0 < result }
    ensures bounded { result ≤ left }
    ensures one { show ≡ Show.Nodes → result ≡ 1 }
{
    match show {
        Show::Nodes => 1,
        Show::Output | Show::Nothing => left,
    }
}
