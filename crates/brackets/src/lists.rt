ghost use Rattle.std.specs.Prelude.{◌≡◌, ◌≢◌, ◌+◌, ◌*◌, ◌<◌, ◌^◌, [], ◌∷◌, ◌++◌, length, replicate, set, slice_get, IfOk};
ghost use Rattle.brackets.specs.Kept.{HasCell, end_after, with_above, with_below};
ghost use Rattle.brackets.specs.Brackets.{AreApart, IsFree, Stands, list_at, without};

use df_sequence::NoMemory;
use slab::Slab;
use std::alloc::Global;
use std::marker::Model;
use std::sync::ledger::Ledger;
use step_count::Steps;

// The neighbours of a bracket in its list.
#[derive(Clone, Copy, Drop)]
struct Cell {
    above: Option<u32>,
    below: Option<u32>,
}

// The ends of a list, and how many brackets it has.
#[derive(Clone, Copy, Drop)]
struct Ends {
    top: Option<u32>,
    bottom: Option<u32>,
    size: u32,
}

const LOOSE: Cell = Cell {
    above: None,
    below: None,
};

const EMPTY: Ends = Ends {
    top: None,
    bottom: None,
    size: 0,
};

/// Lists of brackets, each bracket in one of them at most. Contracts see them as the sequence of each list, the top first.
#[derive(Drop)]
pub struct BracketLists {
    cells: Slab<Cell>,
    lists: Vec<Ends>,
}

impl Model for BracketLists {
    ghost use Rattle.std.specs.Prelude.{ℕ, List};
    ghost use Rattle.brackets.specs.Kept.{AreKept, lists_of};

    ghost Value = { List (List ℕ) };

    ghost view = { λ s. lists_of s.cells.slots s.lists.items };

    ghost invariant = { λ s. AreKept s.cells.slots s.lists.items };
}

impl BracketLists {
    /// So many empty lists, and room for twice as many brackets: an ordinary and a capping one for each edge. No other call
    /// takes memory.
    pub fn with_room(alloc: Global, edges: u32) -> Result<BracketLists, NoMemory>
        requires { edges < 2 ^ 31 }
        ensures { IfOk result (λ lists. lists ≡ replicate edges []) }
    {
        let mut cells = Slab::with_capacity(alloc, 2 * edges as usize)?;
        // A slab that is filled up to its capacity has a cell under each key below that.
        let capacity = cells.capacity();
        'cells: for _made in 0..capacity {
            cells.insert_reserved(LOOSE);
        }
        let lists = vec![in alloc; EMPTY; edges as usize]?;
        Ok(BracketLists { cells, lists })
    }

    /// Puts a bracket that is in no list on top of a list. It takes one step.
    pub fn push<L: Ledger>(&mut self, list: u32, bracket: u32, steps: &mut Steps<L>)
        requires list { list < length self.old }
        requires bracket { bracket < 2 * length self.old }
        requires free { IsFree self.old bracket }
        ensures lists { self.new ≡ set self.old list (bracket ∷ list_at self.old list) }
        ensures step { steps.new ≡ steps.old + 1 }
    {
        steps.tick();
        let Ends { top, bottom, size } = self.lists[list as usize];
        link_above(&mut self.cells, top, Some(bracket));
        self.cells[bracket as usize] = Cell {
            above: None,
            below: top,
        };
        self.lists[list as usize] = Ends {
            top: Some(bracket),
            bottom: bottom.or(Some(bracket)),
            size: size + 1,
        };
    }

    /// Takes a bracket out of its list, wherever it stands there. It takes one step.
    pub fn delete<L: Ledger>(&mut self, list: u32, bracket: u32, steps: &mut Steps<L>)
        requires { Stands (list_at self.old list) bracket }
        ensures lists { self.new ≡ set self.old list (without (list_at self.old list) bracket) }
        ensures step { steps.new ≡ steps.old + 1 }
    {
        steps.tick();
        let Cell { above, below } = self.cells[bracket as usize];
        link_below(&mut self.cells, above, below);
        link_above(&mut self.cells, below, above);
        let Ends { top, bottom, size } = self.lists[list as usize];
        self.lists[list as usize] = Ends {
            top: end_after(above, top, below),
            bottom: end_after(below, bottom, above),
            size: size - 1,
        };
    }

    /// Puts the brackets of the lower list under those of the upper one, and leaves the lower one empty. It takes one step.
    pub fn concat<L: Ledger>(&mut self, upper: u32, lower: u32, steps: &mut Steps<L>)
        requires differ { upper ≢ lower }
        requires upper { upper < length self.old }
        requires lower { lower < length self.old }
        ensures lists { self.new ≡ set (set self.old upper (list_at self.old upper ++ list_at self.old lower)) lower [] }
        ensures step { steps.new ≡ steps.old + 1 }
    {
        steps.tick();
        let Ends { top, bottom, size } = self.lists[upper as usize];
        let under = self.lists[lower as usize];
        link_below(&mut self.cells, bottom, under.top);
        link_above(&mut self.cells, under.top, bottom);
        self.lists[upper as usize] = Ends {
            top: top.or(under.top),
            bottom: under.bottom.or(bottom),
            size: size + under.size,
        };
        self.lists[lower as usize] = EMPTY;
    }

    /// The top of a list, or none exactly where it is empty. It takes one step.
    pub fn top<L: Ledger>(&self, list: u32, steps: &mut Steps<L>) -> Option<u32>
        requires { list < length self.now }
        ensures top { result ≡ slice_get (list_at self.now list) 0 }
        ensures step { steps.new ≡ steps.old + 1 }
    {
        steps.tick();
        self.lists[list as usize].top
    }

    /// How many brackets a list has. No bracket stands twice, in this list or in two. It takes one step.
    pub fn size<L: Ledger>(&self, list: u32, steps: &mut Steps<L>) -> u32
        requires { list < length self.now }
        ensures size { result ≡ length (list_at self.now list) }
        ensures apart { AreApart self.now }
        ensures step { steps.new ≡ steps.old + 1 }
    {
        steps.tick();
        self.lists[list as usize].size
    }
}

// Tells a cell, if there is one, what is above it.
fn link_above(cells: &mut Slab<Cell>, cell: Option<u32>, above: Option<u32>)
    requires { HasCell cells.old.slots cell }
    ensures { cells.new.slots ≡ with_above cells.old.slots cell above }
{
    if let Some(x) = cell {
        cells[x as usize].above = above;
    }
}

// Tells a cell, if there is one, what is below it.
fn link_below(cells: &mut Slab<Cell>, cell: Option<u32>, below: Option<u32>)
    requires { HasCell cells.old.slots cell }
    ensures { cells.new.slots ≡ with_below cells.old.slots cell below }
{
    if let Some(x) = cell {
        cells[x as usize].below = below;
    }
}

// An end of a list after a bracket went that had this neighbour towards the end, and another one away from it.
fn end_after(towards: Option<u32>, end: Option<u32>, away: Option<u32>) -> Option<u32>
    ensures { result ≡ end_after towards end away }
{
    match towards {
        Some(_) => end,
        None => away,
    }
}
