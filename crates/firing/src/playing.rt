ghost use Rattle.std.specs.Prelude.{◌≡◌, ◌+◌, ◌%◌, ◌<◌, ◌≤◌, ℕ, length};
ghost use Rattle.df_io.specs.Faults.{Rose};
ghost use Rattle.op_table.specs.declared.Trap.{Trap};
ghost use Rattle.firing.specs.Control.{IsInStep};
ghost use Rattle.firing.specs.Orders.{Settles, Traps};
ghost use Rattle.firing.specs.Play.{MakesOrder, Plays, by_picks, moment};

use crate::StepSystem;
use crate::step::{step, trap_after};
use df_io::{Sink, WriteFault};
use op_table::Trap;

/// What is shown of a run.
#[derive(Clone, Copy, Debug, PartialEq, Eq)]
pub enum Show {
    /// The lines of output.
    Output,
    /// The nodes as they fire: a line for each, of its number and its name.
    Nodes,
    /// Nothing.
    Nothing,
}

/// How a run ended.
#[derive(Clone, Copy, Debug, PartialEq, Eq)]
pub enum PlayEnd {
    /// No node is ready, after so many firings.
    Rest(u64),
    /// This trap came, at this line of the source.
    Trapped(Trap, u32),
    /// As many firings were made as are allowed, and more are possible.
    Limit,
    /// The sink failed at what is shown of the last of so many firings.
    WriteFault(u64),
}

/// Fires ready nodes, one by one, up to a stop or `limit` firings. The firing number i, counted from 0, is of the node that
/// the pick number i chooses: of the r ready nodes, in number order, the one at the place pick mod r. The picks are used
/// over and over.
///
/// A trap, a rest and the limit are looked for in this order before each firing. It takes no memory, and has the system keep
/// the set of its ready nodes from then on. Control is lost once a pick chooses another node than the one that is due.
pub fn play<S: StepSystem, K: Sink>(
    sys: &mut S,
    picks: &[u32],
    limit: u64,
    show: Show,
    sink: &mut K,
) -> PlayEnd
    requires picks { 0 < length picks.now }
    requires sound { S.sound (S.net sys.old) (S.marking sys.old) }
    requires in_step { IsInStep (S.moves (S.net sys.old)) (S.in_step (S.net sys.old)) (S.marking sys.old) (S.place sys.old) }

    // The run that the picks choose, and what was written of it.
    ensures plays { Plays (by_picks (S.moves (S.net sys.old)) (S.course (S.net sys.old)) picks.now) (moment (S.marking sys.old) (S.place sys.old)) limit show (moment (S.marking sys.new) (S.place sys.new)) (K.got sink.old) (K.got sink.new) result }
    ensures net { S.net sys.new ≡ S.net sys.old }
    ensures sound { S.sound (S.net sys.old) (S.marking sys.new) }
    ensures in_step { IsInStep (S.moves (S.net sys.old)) (S.in_step (S.net sys.old)) (S.marking sys.new) (S.place sys.new) }

    // The sink is blamed only where it failed.
    ensures later { K.faults sink.old ≤ K.faults sink.new }
    ensures fault { (n : ℕ) → result ≡ PlayEnd.WriteFault n → Rose (K.faults sink.old) (K.faults sink.new) }

    // The firings are an order, and its output is what was written as such.
    ensures order { MakesOrder (S.moves (S.net sys.old)) (S.marking sys.old) limit show (S.marking sys.new) (K.got sink.old) (K.got sink.new) result }

    // No other order of firing comes to another end.
    ensures settles { (n : ℕ) → result ≡ PlayEnd.Rest n → Settles (S.moves (S.net sys.old)) (S.marking sys.old) n (S.marking sys.new) }
    ensures traps { (trap : Trap) (line : ℕ) → result ≡ PlayEnd.Trapped trap line → Traps (S.moves (S.net sys.old)) (S.marking sys.old) (trap, line) }
{
    fire_chosen(sys, picks, limit, show, sink)
}

// Fires the nodes that the picks choose. What follows of such a run by the laws is a matter of `play`.
fn fire_chosen<S: StepSystem, K: Sink>(
    sys: &mut S,
    picks: &[u32],
    limit: u64,
    show: Show,
    sink: &mut K,
) -> PlayEnd
    requires picks { 0 < length picks.now }
    requires sound { S.sound (S.net sys.old) (S.marking sys.old) }
    requires in_step { IsInStep (S.moves (S.net sys.old)) (S.in_step (S.net sys.old)) (S.marking sys.old) (S.place sys.old) }
    ensures plays { Plays (by_picks (S.moves (S.net sys.old)) (S.course (S.net sys.old)) picks.now) (moment (S.marking sys.old) (S.place sys.old)) limit show (moment (S.marking sys.new) (S.place sys.new)) (K.got sink.old) (K.got sink.new) result }
    ensures net { S.net sys.new ≡ S.net sys.old }
    ensures sound { S.sound (S.net sys.old) (S.marking sys.new) }
    ensures in_step { IsInStep (S.moves (S.net sys.old)) (S.in_step (S.net sys.old)) (S.marking sys.new) (S.place sys.new) }
    ensures later { K.faults sink.old ≤ K.faults sink.new }
    ensures fault { (n : ℕ) → result ≡ PlayEnd.WriteFault n → Rose (K.faults sink.old) (K.faults sink.new) }
{
    sys.keep_ready();
    let mut trapped = sys.trap();
    let mut made: u64 = 0;
    let mut turn = 0;
    'firing: loop {
        if let Some((trap, line)) = trapped {
            return PlayEnd::Trapped(trap, line);
        }
        let count = sys.ready_count();
        if count == 0 {
            return PlayEnd::Rest(made);
        }
        let k = sys.ready_at(place_in(picks[turn], count));
        if made == limit {
            return PlayEnd::Limit;
        }
        made += 1;
        turn = next_turn(turn, picks.len());
        trapped = match step(sys, k, show, sink) {
            Ok(fired) => trap_after(sys, fired),
            Err(WriteFault) => return PlayEnd::WriteFault(made),
        };
    }
}

// The place that a pick chooses among so many. Most picks are less than four times the count, and a division takes long, where each
// firing waits for the one before.
#[inline(always)]
fn place_in(pick: u32, count: u32) -> u32
    requires { 0 < count }
    ensures { result ≡ pick % count }
{
    if pick / 4 < count {
        once_less(once_less(once_less(pick, count), count), count)
    } else {
        pick % count
    }
}

// Takes the count off a place that isn't below it.
#[inline(always)]
fn once_less(place: u32, count: u32) -> u32
    requires { 0 < count }
    ensures rest { result % count ≡ place % count }
    ensures less { (k : ℕ) → count ≤ k → place < k + count → result < k }
{
    if place < count { place } else { place - count }
}

// The place after this one in a list of so many, which is gone through over and over.
fn next_turn(turn: usize, count: usize) -> usize
    requires { turn < count }
    ensures { result ≡ (turn + 1) % count }
{
    if turn + 1 == count { 0 } else { turn + 1 }
}
