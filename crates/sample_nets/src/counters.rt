ghost use Rattle.std.specs.Prelude.{◌≡◌, ◌≤◌, ◌+◌, ◌%◌, length};

use crate::{Counts, Turn};
use df_io::NoMemory;
use firing::{
    Fired, NodeName, ReadyMarks, ReadySet, SourceOrder, StepSystem, mark_ready, retest_fired,
};
use op_table::Trap;
use std::alloc::Global;

/// A feeder that gives to a counter and to a writer, and a node that traps where too many lines would be written.
#[derive(Drop)]
pub struct Counters {
    counts: Counts,
    turn: Option<Turn>,
    last_fired: u32,
    text: [u8; 2],
    len: usize,
    set: ReadySet,
    // Whether the set is kept.
    kept: bool,
    ghost room: { length set ≡ 4 },
    ghost short: { len ≤ 2 },
    ghost text_room: { length text ≡ 2 },
}

impl Counters {
    ghost use Rattle.std.specs.Prelude.{◌≡◌, ◌<◌, ℕ, Bool, [], IfOk, Some, false, true, take};
    ghost use Rattle.firing.specs.Control.{steered};
    ghost use Rattle.firing.specs.Marks.{AreMarks, DifferAt};
    ghost use Rattle.firing.specs.Moves.{newest};
    ghost use Rattle.sample_nets.specs.Counting.{is_ready, line_of, woken_by};
    ghost use Rattle.sample_nets.specs.CountersView.{rest_of};
    ghost use Rattle.sample_nets.specs.Turns.{counter_course};

    /// The counters before any firing: the feeder fires at most `supply` times, the writer at most `lines` times.
    pub fn new(alloc: Global, supply: u32, lines: u32) -> Result<Counters, NoMemory>
        ensures counts { IfOk result (λ c. c.counts ≡ record { supply = supply; left = 0; right = 0; lines = lines; counted = 0; written = 0; trapped = false }) }
        ensures turn { IfOk result (λ c. c.turn ≡ Some Turn.Feed) }
        ensures last { IfOk result (λ c. take c.len c.text ≡ []) }
    {
        let set = ReadySet::with_room(alloc, 4)?;
        let counts = Counts {
            supply,
            left: 0,
            right: 0,
            lines,
            counted: 0,
            written: 0,
            trapped: false,
        };
        Ok(Counters {
            counts,
            turn: Some(Turn::Feed),
            last_fired: 1,
            text: [0, 0],
            len: 0,
            set,
            kept: false,
        })
    }

    // Makes the line that a node writes.
    fn spell(&mut self, k: u32)
        ensures counts { self.new.counts ≡ self.old.counts }
        ensures turn { self.new.turn ≡ self.old.turn }
        ensures fired { self.new.last_fired ≡ self.old.last_fired }
        ensures line { take self.new.len self.new.text ≡ newest (line_of self.old.counts k) (take self.old.len self.old.text) }
        ensures set { self.new.set ≡ self.old.set }
        ensures kept { self.new.kept ≡ self.old.kept }
    {
        if k == 2 {
            self.text = [letter(self.counts.written), b'\n'];
            self.len = 2;
        }
    }

    // Keeps the set after a node has fired.
    fn retest(&mut self, k: u32)
        requires node { k < 4 }
        requires fired { self.old.last_fired ≡ k }
        ensures rest { rest_of self.new ≡ rest_of self.old }
        ensures marks { self.old.kept ≡ true → (before : ℕ → Bool) → AreMarks 4 before self.old.set → DifferAt 4 k (woken_by k) before (is_ready self.old.counts) → AreMarks 4 (is_ready self.old.counts) self.new.set }
    {
        if self.kept {
            retest_fired(self, k);
        }
    }

    // The turn after a node fires.
    fn turn_after(&self, k: u32) -> Option<Turn>
        ensures { result ≡ steered counter_course self.now.counts self.now.turn k }
    {
        match self.turn {
            Some(turn) if self.counts.due(turn) == Some(k) => Some(turn.next()),
            _ => None,
        }
    }
}

// The letter of the line with this number.
fn letter(number: u32) -> u8
    ensures { result ≡ 65 + number % 26 }
{
    b'A' + (number % 26) as u8
}

impl ReadyMarks for Counters {
    ghost use Rattle.std.specs.Prelude.{⊤};
    ghost use Rattle.sample_nets.specs.Counting.{is_ready, woken_by};
    ghost use Rattle.sample_nets.specs.CountersView.{Unmarked, rest_of};

    ghost Rest = { Unmarked };

    ghost rest = { rest_of };

    ghost marks = { λ s. s.set };

    ghost count = { λ _. 4 };

    ghost is_ready = { λ rest. is_ready rest.counts };

    ghost testable = { λ _. ⊤ };

    ghost woken = { λ rest. woken_by rest.last_fired };

    fn mark_count(&self) -> u32 {
        4
    }

    fn test(&self, k: u32) -> bool {
        self.counts.is_ready(k)
    }

    fn woken(&self) -> &[u32] {
        match self.last_fired {
            0 => &[1, 2, 3],
            2 => &[3],
            _ => &[],
        }
    }

    fn mark(&mut self, k: u32, ready: bool) {
        self.set.put(k, ready);
    }
}

impl StepSystem for Counters {
    ghost use Rattle.std.specs.Prelude.{◌≡◌, ◌<◌, ⊤, true, None, length, take};
    ghost use Rattle.firing.specs.Control.{steered};
    ghost use Rattle.firing.specs.Marks.{AreMarks};
    ghost use Rattle.firing.specs.Moves.{newest};
    ghost use Rattle.sample_nets.specs.declared.counts.Counts.{Counts as Marking_of};
    ghost use Rattle.sample_nets.specs.declared.turn.Turn.{Turn as Place_of};
    ghost use Rattle.sample_nets.specs.Counting.{AreSmall, counter_moves};
    ghost use Rattle.sample_nets.specs.CountersView.{KeepsSet};
    ghost use Rattle.sample_nets.specs.Turns.{counter_course, in_turn};
    ghost use Rattle.sample_nets.specs.CounterOrder.{counter_control};
    ghost use Rattle.sample_nets.specs.CounterLaws.{counter_laws};

    ghost Net = { ⊤ };

    ghost Marking = { Marking_of };

    ghost Place = { Place_of };

    ghost net = { λ _. tt };

    ghost marking = { λ s. s.counts };

    ghost place = { λ s. s.turn };

    ghost last = { λ s. take s.len s.text };

    ghost keeps = { KeepsSet };

    ghost sound = { λ _. AreSmall };

    ghost moves = { λ _. counter_moves };

    ghost course = { λ _. counter_course };

    ghost in_step = { λ _. in_turn };

    fn nodes(&self) -> u32 {
        4
    }

    fn ready(&self, k: u32) -> bool {
        self.counts.is_ready(k)
    }

    fn keep_ready(&mut self) {
        self.kept = true;
        mark_ready(self);
    }

    fn ready_count(&self) -> u32 {
        self.set.len()
    }

    fn ready_at(&self, nth: u32) -> u32 {
        self.set.at(nth)
    }

    fn fire(&mut self, k: u32) -> Fired {
        self.turn = self.turn_after(k);
        self.last_fired = k;
        self.spell(k);
        let fired = self.counts.fire(k);
        self.retest(k);
        fired
    }

    fn line(&self) -> &[u8] {
        &self.text[..self.len]
    }

    fn trap(&self) -> Option<(Trap, u32)> {
        if self.counts.trapped {
            Some((Trap::Overflow, 12))
        } else {
            None
        }
    }

    fn name(&self, k: u32) -> NodeName {
        match k {
            0 => NodeName::Act(5),
            1 => NodeName::Op(5, 1),
            2 => NodeName::Merge(6, 2),
            _ => NodeName::Switch(7, 3),
        }
    }

    ghost lawful = { λ _. counter_laws };

    ghost steady = { λ _. counter_control };
}

impl SourceOrder for Counters {
    ghost use Rattle.sample_nets.specs.CounterOrder.{counter_order};

    fn has_control(&self) -> bool {
        self.turn.is_some()
    }

    fn due(&self) -> Option<u32> {
        match self.turn {
            Some(turn) => self.counts.due(turn),
            None => None,
        }
    }

    fn fire_due(&mut self, most: u64) -> (u64, Fired) {
        let Some(first) = self.due() else {
            return (0, Fired::Moved);
        };
        let mut fired = self.fire(first);
        let mut made: u64 = 1;
        'more: while made < most {
            let Fired::Moved = fired else {
                break;
            };
            let Some(k) = self.due() else {
                break;
            };
            fired = self.fire(k);
            made += 1;
        }
        (made, fired)
    }

    ghost ordered = { λ _. counter_order };
}
