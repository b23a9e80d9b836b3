//! What is looked up of the statements of a flat program.
ghost use Rattle.std.specs.Prelude.{◌≡◌, ◌+◌, ◌<◌, ◌≤◌, ◌^◌, length, IfOk};
ghost use Rattle.flat_programs.specs.Marks.{is_end, is_mark as is_mark_of, is_loop as is_loop_of, mark_at, mark_count, mark_places as places_of_marks, place_of, loop_at, loop_to as place_of_loop};
ghost use Rattle.flat_programs.specs.Executables.{first_of, width_by, marked as executable_of_mark, beyond as executable_beyond};
ghost use Rattle.flat_programs.specs.Flow.{IsTable, IsFlow};

use crate::{Flat, FlatList};
use df_sequence::NoMemory;
use std::alloc::Global;

/// What is looked up of the statements of a flat program.
#[derive(Drop)]
pub(crate) struct Flow {
    /// The places of the marks, in order.
    pub(crate) marks: Vec<u32>,
    /// For each place, the number that a mark there has; after them one more than there are marks.
    pub(crate) numbers: Vec<u32>,
    /// For each place, the number that a DO there has; after them how many DOs there are.
    pub(crate) loops: Vec<u32>,
    /// For the number of each mark, the place of the DO whose range ends there, or how many statements there are where no range does.
    pub(crate) ends: Vec<u32>,
    /// For each place, the index of the first executable of its statement; after them how many executables there are.
    pub(crate) first: Vec<u32>,
}

impl Flow {
    /// What is looked up of these statements.
    pub(crate) fn of(alloc: Global, flat: &FlatList) -> Result<Flow, NoMemory>
        requires short { length flat.now < 2 ^ 31 }
        ensures { IfOk result (λ flow. IsFlow flat.now flow) }
    {
        let marks = mark_places(alloc, flat)?;
        let numbers = mark_numbers(alloc, flat)?;
        let loops = loop_numbers(alloc, flat)?;
        let ends = range_ends(alloc, flat, marks.len())?;
        let first = first_executables(alloc, flat, &numbers, &ends)?;
        Ok(Flow {
            marks,
            numbers,
            loops,
            ends,
            first,
        })
    }

    /// The executable of the mark with a number.
    pub(crate) fn marked(&self, flat: &FlatList, number: u32) -> u32
        requires { IsFlow flat.now self.now }
        ensures { result ≡ executable_of_mark flat.now number }
    {
        self.first[self.place(flat, number) as usize]
    }

    /// The executable after the mark with a number, and after the increment that may stand there.
    pub(crate) fn beyond(&self, flat: &FlatList, number: u32) -> u32
        requires flow { IsFlow flat.now self.now }
        requires some { 0 < length flat.now }
        ensures { result ≡ executable_beyond flat.now number }
    {
        self.first[self.place(flat, number) as usize + 1]
    }

    /// The place of the mark with a number, or the first place where there is none.
    fn place(&self, flat: &FlatList, number: u32) -> u32
        requires { IsFlow flat.now self.now }
        ensures place { result ≡ place_of flat.now number }
        ensures within { result ≤ length flat.now }
        ensures exists { 0 < length flat.now → result < length flat.now }
    {
        let _whole = flat;
        let index = number.saturating_sub(1) as usize;
        if index < self.marks.len() {
            self.marks[index]
        } else {
            0
        }
    }
}

/// The places of the marks, in order.
fn mark_places(alloc: Global, flat: &FlatList) -> Result<Vec<u32>, NoMemory>
    ensures items { IfOk result (λ marks. marks.items ≡ places_of_marks flat.now) }
    ensures len { IfOk result (λ marks. length marks.items ≡ mark_count flat.now) }
{
    let mut marks = Vec::new(alloc);
    for place in 0..flat.len() {
        if is_mark(&flat.at(place).stmt) {
            marks.push(place)?;
        }
    }
    Ok(marks)
}

/// For each place, one more than the number of marks above it.
fn mark_numbers(alloc: Global, flat: &FlatList) -> Result<Vec<u32>, NoMemory>
    requires short { length flat.now < 2 ^ 31 }
    ensures { IfOk result (λ numbers. IsTable (mark_at flat.now) (length flat.now + 1) numbers.items) }
{
    let mut numbers = Vec::new(alloc);
    let mut number = 1;
    for l in flat.as_slice() {
        numbers.push(number)?;
        number += u32::from(is_mark(&l.stmt));
    }
    numbers.push(number)?;
    Ok(numbers)
}

/// For each place, how many DOs stand above it.
fn loop_numbers(alloc: Global, flat: &FlatList) -> Result<Vec<u32>, NoMemory>
    requires short { length flat.now < 2 ^ 31 }
    ensures { IfOk result (λ loops. IsTable (loop_at flat.now) (length flat.now + 1) loops.items) }
{
    let mut loops = Vec::new(alloc);
    let mut number = 0;
    for l in flat.as_slice() {
        loops.push(number)?;
        number += u32::from(is_loop(&l.stmt));
    }
    loops.push(number)?;
    Ok(loops)
}

/// For the number of each mark, the place of the first DO whose range ends there.
fn range_ends(alloc: Global, flat: &FlatList, count: usize) -> Result<Vec<u32>, NoMemory>
    requires count { count ≡ mark_count flat.now }
    requires short { length flat.now < 2 ^ 31 }
    ensures { IfOk result (λ ends. IsTable (place_of_loop flat.now) (mark_count flat.now + 2) ends.items) }
{
    let mut ends = vec![in alloc; flat.len(); count + 2]?;
    for place in (0..flat.len()).rev() {
        if let Flat::DoLoop { end, .. } = &flat.at(place).stmt {
            if (*end as usize) < ends.len() {
                ends[*end as usize] = place;
            }
        }
    }
    Ok(ends)
}

/// For each place, the index of the first executable of its statement.
fn first_executables(
    alloc: Global,
    flat: &FlatList,
    numbers: &[u32],
    ends: &[u32],
) -> Result<Vec<u32>, NoMemory>
    requires numbers { IsTable (mark_at flat.now) (length flat.now + 1) numbers.now }
    requires ends { IsTable (place_of_loop flat.now) (mark_count flat.now + 2) ends.now }
    requires short { length flat.now < 2 ^ 31 }
    ensures { IfOk result (λ first. IsTable (first_of flat.now) (length flat.now + 1) first.items) }
{
    let mut first = Vec::new(alloc);
    let mut index = 0;
    for place in 0..flat.len() {
        first.push(index)?;
        let is_end = ends_there(flat, place, numbers, ends);
        index += width(&flat.at(place).stmt, is_end);
    }
    first.push(index)?;
    Ok(first)
}

/// Whether the range of a DO ends at the mark at a place, if there is one.
fn ends_there(flat: &FlatList, place: u32, numbers: &[u32], ends: &[u32]) -> bool
    requires place { place < length flat.now }
    requires numbers { IsTable (mark_at flat.now) (length flat.now + 1) numbers.now }
    requires ends { IsTable (place_of_loop flat.now) (mark_count flat.now + 2) ends.now }
    ensures { result ≡ is_end flat.now (mark_at flat.now place) }
{
    let number = numbers[place as usize];
    ends[number as usize] < flat.len()
}

/// How many executables a statement has, where it is told whether the range of a DO ends there, if it is a mark.
fn width(stmt: &Flat, is_end: bool) -> u32
    ensures { result ≡ width_by is_end stmt.now }
{
    match stmt {
        Flat::Mark => 1 + u32::from(is_end),
        Flat::LogicalIf { .. } => 2,
        _ => 1,
    }
}

/// Whether a statement is a mark.
pub(crate) fn is_mark(stmt: &Flat) -> bool
    ensures { result ≡ is_mark_of stmt.now }
{
    matches!(stmt, Flat::Mark)
}

/// Whether a statement is a DO.
fn is_loop(stmt: &Flat) -> bool
    ensures { result ≡ is_loop_of stmt.now }
{
    matches!(stmt, Flat::DoLoop { .. })
}
