//! What the firing of a node changes for the loads of a net, looked up by its number.

ghost use Rattle.std.specs.Prelude.{◌≡◌, ◌<◌, ◌≤◌, ◌+◌, ◌-◌, ◌^◌, [], ◌∷◌, ◌++◌, Some, length, slice_get, IfOk, OnOk};
ghost use Rattle.read_forks.specs.NodeLinks.{turn_step};
ghost use Rattle.read_forks.specs.RisingLinks.{AreRising, HasLine, line_at};

use crate::ways::Way;
use df_sequence::NoMemory;
use std::alloc::Global;
use std::marker::Model;

/// A node. Loads wait for values and for lines; the firing of a node ends the waiting of some of them.
#[derive(Clone, Copy, Debug, PartialEq, Eq)]
pub(crate) struct Step {
    /// Its piece, and its number there, if it is an operation.
    pub(crate) piece: u32,
    pub(crate) number: u32,
    /// Its links: the first one, and how many there are. A node that is no operation has none.
    pub(crate) first: usize,
    pub(crate) count: u32,
    /// The loads whose values it takes: the place of the first one in the list of all, and how many there are.
    pub(crate) giver: usize,
    pub(crate) givers: u32,
    /// The load that takes its value, or a number that no node has.
    pub(crate) taker: u32,
    /// Whether it is a load.
    pub(crate) loads: bool,
    /// Whether it is no operation.
    pub(crate) turns: bool,
}

/// The steps of nodes, in the order of these. All nodes that are no operations share one. Contracts see them as a list.
#[derive(Drop)]
pub(crate) struct Steps {
    /// For each node the number of its row.
    numbers: Vec<u32>,
    /// The first one is that of the nodes which are no operations.
    rows: Vec<Step>,
}

impl Model for Steps {
    ghost use Rattle.std.specs.Prelude.{List};
    ghost use Rattle.read_forks.specs.StepRows.{AreRows, steps_of};
    ghost use Rattle.read_forks.specs.declared.steps.Step.{Step as Looked};

    ghost Value = { List Looked };

    ghost view = { steps_of };

    ghost invariant = { AreRows };
}

impl Steps {
    /// The steps of no node, with room for those of so many nodes that are no operations.
    pub(crate) fn with_room(alloc: Global, room: usize) -> Result<Self, NoMemory>
        ensures { IfOk result (λ steps. steps ≡ []) }
    {
        let mut rows = Vec::new(alloc);
        rows.push(turn_step())?;
        Ok(Steps {
            numbers: Vec::with_capacity(alloc, room)?,
            rows,
        })
    }

    /// Of how many nodes there are steps.
    pub(crate) fn len(&self) -> usize
        ensures { result ≡ length self.now }
    {
        self.numbers.len()
    }

    /// The step of a node.
    #[inline(always)]
    pub(crate) fn at(&self, k: usize) -> Step
        requires { k < length self.now }
        ensures { slice_get self.now k ≡ Some result }
    {
        self.rows[self.numbers[k] as usize]
    }

    /// Puts the step of an operation after the others.
    pub(crate) fn push(&mut self, step: Step) -> Result<(), NoMemory>
        requires { length self.old < 2 ^ 32 - 1 }
        ensures { OnOk result (self.new ≡ self.old ++ step ∷ []) }
    {
        let number = self.rows.len() as u32;
        self.rows.push(step)?;
        match self.numbers.push(number) {
            Ok(()) => Ok(()),
            Err(refused) => {
                self.rows.pop();
                Err(refused.into())
            }
        }
    }

    /// Puts the step of a node that is no operation after the others.
    pub(crate) fn push_turn(&mut self) -> Result<(), NoMemory>
        ensures { OnOk result (self.new ≡ self.old ++ turn_step ∷ []) }
    {
        self.numbers.push(0)?;
        Ok(())
    }
}

// The step of a node that is no operation.
fn turn_step() -> Step
    ensures { result ≡ turn_step }
{
    Step {
        piece: 0,
        number: 0,
        first: 0,
        count: 0,
        giver: 0,
        givers: 0,
        taker: u32::MAX,
        loads: false,
        turns: true,
    }
}

/// A token line that an operation needs.
#[derive(Clone, Copy, Debug, PartialEq, Eq)]
pub(crate) struct Link {
    pub(crate) line: u32,
    pub(crate) node: u32,
    /// Where the line goes from the node.
    pub(crate) way: Way,
    /// Whether the node is a load of the group before which the line stands, and hasn't fired since the line came there.
    pub(crate) open: bool,
}

/// The group of loads before which a line stands.
#[derive(Clone, Copy, Debug, PartialEq, Eq)]
pub(crate) struct Group {
    /// How many loads of it haven't fired.
    pub(crate) left: u32,
    /// Where the line stands behind it.
    pub(crate) edge: u32,
    pub(crate) passed: u32,
    /// Its first load, and the node before which the line stands behind it, or the number of all nodes.
    pub(crate) from: u32,
    pub(crate) to: u32,
}

/// No group.
pub(crate) fn no_group() -> Group {
    Group {
        left: 0,
        edge: 0,
        passed: 0,
        from: 0,
        to: 0,
    }
}

/// The link of a node that needs a line, which may be the one with this number of those of the node. The lines of its links rise.
#[inline(always)]
pub(crate) fn link_near(links: &Vec<Link>, step: Step, line: u32, guess: u32) -> usize
    requires exist { step.first + step.count ≤ length links.now.items }
    requires rise { AreRising links.now.items step }
    requires there { HasLine links.now.items line step.first (step.first + step.count) }
    ensures line { line_at links.now.items result ≡ line }
    ensures from { step.first ≤ result }
    ensures below { result < step.first + step.count }
{
    if guess < step.count {
        let at = step.first + guess as usize;
        if links[at].line == line {
            return at;
        }
    }
    later_link(links, step, line)
}

// The same, looked for by halves.
#[inline(never)]
fn later_link(links: &Vec<Link>, step: Step, line: u32) -> usize
    requires exist { step.first + step.count ≤ length links.now.items }
    requires rise { AreRising links.now.items step }
    requires there { HasLine links.now.items line step.first (step.first + step.count) }
    ensures line { line_at links.now.items result ≡ line }
    ensures from { step.first ≤ result }
    ensures below { result < step.first + step.count }
{
    let mut low = step.first;
    let mut high = step.first + step.count as usize;
    'halves: while high - low > 1 {
        let middle = low + (high - low) / 2;
        if links[middle].line <= line {
            low = middle;
        } else {
            high = middle;
        }
    }
    low
}
