//! The DOs of a program, by the labels at which their ranges end.
ghost use Rattle.std.specs.Prelude.{◌≡◌, ℕ, ◌+◌, ◌<◌, ◌≤◌, ◌^◌, ◌++◌, ◌==◌, [], ◌∷◌, length, if◌then◌else◌, slice_index, IfOk, OnOk};
ghost use Rattle.layout_rules.specs.Executables.{is_do as is_do_of, loop_number};
ghost use Rattle.executable_lists.specs.Listed.{listed};
ghost use Rattle.layout_rules.specs.Tables.{IsTable, AreLoops, rank};

use df_sequence::{LabelList, NoMemory, Sequence};
use f77_tree::{Labelled, Stmt};
use indexmap::IndexMap;
use std::alloc::Global;
use std::marker::Model;

/// Lists of places by labels. Most programs use few of all labels, so there is a list for those alone at which DOs end.
/// Contracts see the labels that have lists, with these.
#[derive(Drop)]
pub(crate) struct LoopLists {
    lists: IndexMap<u32, LabelList>,
    /// The list of every other label, which is empty.
    none: LabelList,
}

impl Model for LoopLists {
    ghost use Rattle.std.specs.Prelude.{◌≡◌, ℕ, [], List};

    ghost Value = { List (ℕ × List ℕ) };

    ghost view = { λ l. l.lists.entries };

    ghost invariant = { λ l. l.none ≡ [] };
}

impl LoopLists {
    /// Each list is empty. It takes no memory.
    fn new(alloc: Global) -> LoopLists
        ensures { (label : ℕ) → listed result label ≡ [] }
    {
        LoopLists {
            lists: IndexMap::new(alloc),
            none: Sequence::new(alloc),
        }
    }

    /// The list of a label.
    pub(crate) fn to(&self, label: u32) -> &LabelList
        ensures { result.now ≡ listed self.now label }
    {
        match self.lists.get(&label) {
            Some(list) => list,
            None => &self.none,
        }
    }

    /// Puts a place after the others of its label, and tells how many these are.
    fn enter(&mut self, alloc: Global, label: u32, place: u32) -> Result<u32, NoMemory>
        requires { length (listed self.old label) + 1 < 2 ^ 32 }
        ensures rank { IfOk result (λ rank. rank ≡ length (listed self.old label)) }
        ensures lists { OnOk result ((other : ℕ) → listed self.new other ≡ listed self.old other ++ (if label == other then place ∷ [] else [])) }
    {
        match self.lists.get_mut(&label) {
            Some(list) => {
                let rank = list.len();
                list.push(place)?;
                Ok(rank)
            }
            None => {
                let mut list = Sequence::new(alloc);
                list.push(place)?;
                self.lists.insert(label, list)?;
                Ok(0)
            }
        }
    }
}

/// The DOs of a program.
#[derive(Drop)]
pub(crate) struct Loops {
    /// The places of the DOs that end at each label, in the order of the text.
    by_label: LoopLists,
    /// For the place of each DO, how many DOs above it end at the same label.
    ranks: Vec<u32>,
}

impl Loops {
    /// The places of the DOs that end at a label, in the order of the text.
    pub(crate) fn to(&self, label: u32) -> &LabelList
        ensures { result.now ≡ listed self.now.by_label label }
    {
        self.by_label.to(label)
    }

    /// For the place of a DO, how many DOs above it end at the same label.
    pub(crate) fn rank(&self, place: usize) -> u32
        requires { place < length self.now.ranks.items }
        ensures { result ≡ slice_index self.now.ranks.items place }
    {
        self.ranks[place]
    }
}

/// The DOs of these statements.
pub(crate) fn loops_of(alloc: Global, stmts: &[Labelled]) -> Result<Loops, NoMemory>
    requires { length stmts.now ≤ 4000 }
    ensures by_label { IfOk result (λ loops. AreLoops stmts.now (length stmts.now) (listed loops.by_label)) }
    ensures ranks { IfOk result (λ loops. IsTable (rank stmts.now) (length stmts.now) loops.ranks.items) }
{
    let mut by_label = LoopLists::new(alloc);
    let mut ranks = Vec::new(alloc);
    for (place, s) in stmts.iter().enumerate() {
        let mut rank = 0;
        if let Stmt::Do(label, _, _, _, _) = &s.stmt {
            rank = by_label.enter(alloc, *label, place as u32)?;
        }
        ranks.push(rank)?;
    }
    Ok(Loops { by_label, ranks })
}

/// For each place, how many DOs stand above it: for that of a DO, its number.
pub(crate) fn loop_numbers(alloc: Global, stmts: &[Labelled]) -> Result<Vec<u32>, NoMemory>
    requires { length stmts.now < 2 ^ 32 }
    ensures { IfOk result (λ numbers. IsTable (loop_number stmts.now) (length stmts.now) numbers.items) }
{
    let mut numbers = Vec::new(alloc);
    let mut count = 0;
    for s in stmts {
        numbers.push(count)?;
        if is_do(&s.stmt) {
            count += 1;
        }
    }
    Ok(numbers)
}

/// Whether a statement is a DO.
pub fn is_do(stmt: &Stmt) -> bool
    ensures { result ≡ is_do_of stmt.now }
{
    matches!(stmt, Stmt::Do(_, _, _, _, _))
}
