use crate::Turn;
use firing::Fired;

/// What the nodes of the counters have to work on.
#[derive(Clone, Copy, Debug, PartialEq, Eq)]
pub struct Counts {
    /// How often the feeder can still fire.
    pub supply: u32,
    /// What the feeder gave to the counter, and it hasn't taken.
    pub left: u32,
    /// What the feeder gave to the writer, and it hasn't taken.
    pub right: u32,
    /// How many lines the writer may still write.
    pub lines: u32,
    /// How much was counted.
    pub counted: u32,
    /// How many lines were written.
    pub written: u32,
    /// Whether the net has trapped.
    pub trapped: bool,
}

impl Counts {
    ghost use Rattle.std.specs.Prelude.{◌≡◌, ◌<◌, false, true};
    ghost use Rattle.firing.specs.Moves.{FiredIs};
    ghost use Rattle.sample_nets.specs.Counting.{AreSmall, after_node, counter_moves, is_ready};
    ghost use Rattle.sample_nets.specs.Turns.{due_in};

    // Whether a node has all that it needs.
    pub(crate) fn is_ready(&self, k: u32) -> bool
        ensures { result ≡ is_ready self.now k }
    {
        match k {
            0 => 0 < self.supply,
            1 => 0 < self.left,
            2 => 0 < self.right && 0 < self.lines,
            _ => 0 < self.right && self.lines == 0,
        }
    }

    // The node that is due at a turn.
    pub(crate) fn due(&self, turn: Turn) -> Option<u32>
        ensures { result ≡ due_in self.now turn }
    {
        match turn {
            Turn::Feed => { if 0 < self.supply { Some(0) } else { None } }
            Turn::Write => Some(if 0 < self.lines { 2 } else { 3 }),
            Turn::Count => Some(1),
        }
    }

    // Fires a ready node.
    pub(crate) fn fire(&mut self, k: u32) -> Fired
        requires node { k < 4 }
        requires ready { is_ready self.old k ≡ true }
        requires going { self.old.trapped ≡ false }
        requires small { AreSmall self.old }
        ensures after { self.new ≡ after_node self.old k }
        ensures fired { FiredIs counter_moves self.old k result }
    {
        match k {
            0 => {
                self.supply -= 1;
                self.left += 1;
                self.right += 1;
                Fired::Moved
            }
            1 => {
                self.left -= 1;
                self.counted += 1;
                Fired::Moved
            }
            2 => {
                self.right -= 1;
                self.lines -= 1;
                self.written += 1;
                Fired::Line
            }
            _ => {
                self.trapped = true;
                Fired::Trapped
            }
        }
    }
}
