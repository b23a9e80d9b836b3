//! Tables over the statements, from which each executable's successors are read at once.
ghost use Rattle.std.specs.Prelude.{◌≡◌, ◌+◌, ◌-◌, ◌<◌, ◌≤◌, ◌^◌, length, IfOk};
ghost use Rattle.std.specs.Prelude.{All, Some, slice_get, sum_by};
ghost use Rattle.layout_rules.specs.Executables.{own_executables as own_executables_of, executables_with_ends, first_of, loop_number, loops_above, met as met_of, labelled as labelled_in, beyond as after_of, when_false as when_false_in, exit_of, is_do_in, is_else_at as is_else_in};
ghost use Rattle.layout_rules.specs.Labels.{statement_of, is_executable as is_executable_of, is_arm as is_arm_of};
ghost use Rattle.std.specs.Prelude.{true};
ghost use Rattle.std.specs.List.{HoldsAt};
ghost use Rattle.control_structure.specs.BlockEnds.{AreBlocksOf};
ghost use Rattle.control_structure.specs.LabelTable.{ArePlacesOf};
ghost use Rattle.executable_lists.specs.Listed.{listed};
ghost use Rattle.layout_rules.specs.Tables.{IsTable, AreLoops};
ghost use Rattle.executable_lists.specs.Flows.{IsFlow};

use crate::loops::{Loops, loop_numbers, loops_of};
use control_structure::{Blocks, Labels};
use df_sequence::{LabelList, NoMemory};
use f77_tree::{Labelled, Stmt};
use std::alloc::Global;

/// What is looked up of the statements of a program.
#[derive(Drop)]
pub(crate) struct Flow {
    loops: Loops,
    /// For the place of each DO, its number.
    numbers: Vec<u32>,
    /// For each place, the index of the first executable of its statement, and after them how many executables there are.
    first: Vec<u32>,
    /// For each place, the executable that control comes to where it falls to its statement.
    met: Vec<u32>,
    labels: Labels,
    blocks: Blocks,
}

impl Flow {
    /// The first executable of the statement with a label.
    pub(crate) fn labelled(&self, stmts: &[Labelled], label: u32) -> u32
        requires { IsFlow stmts.now self.now }
        ensures { result ≡ labelled_in stmts.now label }
    {
        let _whole = stmts;
        self.first[self.labels.place(label) as usize]
    }

    /// The first executable of the last statement.
    pub(crate) fn last(&self, stmts: &[Labelled]) -> u32
        requires flow { IsFlow stmts.now self.now }
        ensures { result ≡ first_of stmts.now (length stmts.now - 1) }
    {
        self.first[stmts.len() - 1]
    }

    /// The executable that control comes to where it falls to what stands after a place.
    pub(crate) fn next(&self, stmts: &[Labelled], place: usize) -> u32
        requires flow { IsFlow stmts.now self.now }
        requires place { place < length stmts.now }
        ensures { result ≡ met_of stmts.now (place + 1) }
    {
        let _whole = stmts;
        self.met[place + 1]
    }

    /// The index of the first executable of the statement at a place.
    pub(crate) fn first(&self, stmts: &[Labelled], place: usize) -> u32
        requires flow { IsFlow stmts.now self.now }
        requires place { place < length stmts.now }
        ensures { result ≡ first_of stmts.now place }
    {
        let _whole = stmts;
        self.first[place]
    }

    /// The places of the DOs that end at a label, in the order of the text.
    pub(crate) fn loops_to(&self, stmts: &[Labelled], label: u32) -> &LabelList
        requires flow { IsFlow stmts.now self.now }
        requires label { label < 100000 }
        ensures { result.now ≡ loops_above stmts.now label (length stmts.now) }
    {
        let _whole = stmts;
        self.loops.to(label)
    }

    /// The number of the DO at a place.
    pub(crate) fn number(&self, stmts: &[Labelled], place: usize) -> u32
        requires flow { IsFlow stmts.now self.now }
        requires place { place < length stmts.now }
        ensures { result ≡ loop_number stmts.now place }
    {
        let _whole = stmts;
        self.numbers[place]
    }

    /// Where control goes after the statement at a place.
    pub(crate) fn beyond(&self, stmts: &[Labelled], place: usize) -> u32
        requires flow { IsFlow stmts.now self.now }
        requires place { place < length stmts.now }
        requires label { All (λ s. s.label < 100000) stmts.now }
        ensures { HoldsAt (λ s. result ≡ after_of stmts.now place s) stmts.now place }
    {
        let s = &stmts[place];
        if self.loops.to(s.label).is_empty() {
            return self.met[place + 1];
        }
        self.first[place] + own_executables(&s.stmt)
    }

    /// Where a false condition of the IF or ELSE IF at a place leads.
    pub(crate) fn when_false(&self, stmts: &[Labelled], place: usize) -> u32
        requires flow { IsFlow stmts.now self.now }
        requires place { place < length stmts.now }
        ensures { result ≡ when_false_in stmts.now place }
    {
        let end = self.blocks.end_of_arm(stmts, place as u32) as usize;
        if is_else_at(stmts, end) {
            return self.met[end + 1];
        }
        self.first[end]
    }

    /// Where control goes after the DO at a place, whose range ends at the statement with the label.
    pub(crate) fn exit(&self, stmts: &[Labelled], place: usize, label: u32) -> u32
        requires flow { IsFlow stmts.now self.now }
        requires place { place < length stmts.now }
        requires begins { is_do_in label (slice_get stmts.now place) ≡ true }
        requires label { label < 100000 }
        requires stands { statement_of stmts.now label < length stmts.now }
        ensures { result ≡ exit_of stmts.now label place }
    {
        let terminal = self.labels.place(label) as usize;
        let outer = self.loops.rank(place);
        if outer == 0 {
            return self.met[terminal + 1];
        }
        let increments = self.first[terminal] + own_executables(&stmts[terminal].stmt);
        increments + (self.loops.to(label).len() - outer)
    }
}

/// What is looked up of these statements, where it is known where labels stand and blocks of IF end.
pub(crate) fn flow_of(
    alloc: Global,
    stmts: &[Labelled],
    labels: Labels,
    blocks: Blocks,
) -> Result<Flow, NoMemory>
    requires some { 0 < length stmts.now }
    requires short { length stmts.now ≤ 4000 }
    requires labels { All (λ s. s.label < 100000) stmts.now }
    requires few { sum_by (executables_with_ends stmts.now) stmts.now < 2 ^ 32 }
    requires places { ArePlacesOf stmts.now labels }
    requires blocks { AreBlocksOf stmts.now blocks }
    ensures { IfOk result (λ flow. IsFlow stmts.now flow) }
{
    let loops = loops_of(alloc, stmts)?;
    let numbers = loop_numbers(alloc, stmts)?;
    let first = first_executables(alloc, stmts, &loops)?;
    let met = met_executables(alloc, stmts, &first, &blocks)?;
    Ok(Flow {
        loops,
        numbers,
        first,
        met,
        labels,
        blocks,
    })
}

/// Whether there is an ELSE at a place.
fn is_else_at(stmts: &[Labelled], place: usize) -> bool
    ensures { result ≡ is_else_in (slice_get stmts.now place) }
{
    match stmts.get(place) {
        Some(s) => matches!(s.stmt, Stmt::Else),
        None => false,
    }
}

/// Whether a statement does something when the program runs; declarations don't.
pub(crate) fn is_executable(stmt: &Stmt) -> bool
    ensures { result ≡ is_executable_of stmt.now }
{
    !matches!(
        stmt,
        Stmt::Program
            | Stmt::Implicit(_)
            | Stmt::ImplicitNone
            | Stmt::TypeOf(_, _)
            | Stmt::Dimension(_)
            | Stmt::Common(_)
            | Stmt::Equivalence(_)
            | Stmt::Init(_)
            | Stmt::Sub(_, _)
    )
}

/// Whether a statement is ELSE IF or ELSE.
pub(crate) fn is_arm(stmt: &Stmt) -> bool
    ensures { result ≡ is_arm_of stmt.now }
{
    matches!(stmt, Stmt::ElseIf(_) | Stmt::Else)
}

/// How many executables a statement has of its own.
pub(crate) fn own_executables(stmt: &Stmt) -> u32
    requires { own_executables_of stmt.now < 2 ^ 32 }
    ensures { result ≡ own_executables_of stmt.now }
{
    match stmt {
        Stmt::ThenIf(_, inner) => 1 + own_executables(inner.get()),
        Stmt::Take(targets) => targets.len(),
        Stmt::Else => 0,
        _ => u32::from(is_executable(stmt)),
    }
}

/// For each place, the index of the first executable of its statement. After them stands how many executables there are.
fn first_executables(alloc: Global, stmts: &[Labelled], loops: &Loops) -> Result<Vec<u32>, NoMemory>
    requires loops { AreLoops stmts.now (length stmts.now) (listed loops.now.by_label) }
    requires labels { All (λ s. s.label < 100000) stmts.now }
    requires few { sum_by (executables_with_ends stmts.now) stmts.now < 2 ^ 32 }
    ensures { IfOk result (λ first. IsTable (first_of stmts.now) (length stmts.now + 1) first.items) }
{
    let mut first = Vec::new(alloc);
    let mut count = 0;
    for s in stmts {
        first.push(count)?;
        count += executables_of(stmts, s, loops);
    }
    first.push(count)?;
    Ok(first)
}

/// How many executables a statement has, with the increments of the DOs that end at it.
fn executables_of(stmts: &[Labelled], s: &Labelled, loops: &Loops) -> u32
    requires loops { AreLoops stmts.now (length stmts.now) (listed loops.now.by_label) }
    requires label { s.now.label < 100000 }
    requires few { executables_with_ends stmts.now s.now < 2 ^ 32 }
    ensures { result ≡ executables_with_ends stmts.now s.now }
{
    own_executables(&s.stmt) + loops.to(s.label).len()
}

/// For each place, the executable that control comes to where it falls to its statement. After them stands how many
/// executables there are.
fn met_executables(
    alloc: Global,
    stmts: &[Labelled],
    first: &[u32],
    blocks: &Blocks,
) -> Result<Vec<u32>, NoMemory>
    requires first { IsTable (first_of stmts.now) (length stmts.now + 1) first.now }
    requires blocks { AreBlocksOf stmts.now blocks.now }
    requires short { length stmts.now ≤ 4000 }
    ensures { IfOk result (λ met. IsTable (met_of stmts.now) (length stmts.now + 1) met.items) }
{
    let mut met = vec![in alloc; 0; first.len()]?;
    met[stmts.len()] = first[stmts.len()];
    for place in (0..stmts.len()).rev() {
        let stmt = &stmts[place].stmt;
        let executable = if is_arm(stmt) {
            first[blocks.end_of_block(stmts, place as u32) as usize]
        } else if is_executable(stmt) {
            first[place]
        } else {
            met[place + 1]
        };
        met[place] = executable;
    }
    Ok(met)
}
