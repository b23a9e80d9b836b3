//! The places of numbers in a list.

ghost use Rattle.std.specs.Prelude.{◌≡◌, ◌≤◌, IfOk, OnOk};
ghost use Rattle.graph_pictures.specs.Groups.{AddsPlace, AreGroups, members_in};

use std::alloc::{AllocError, Global};

/// The places at which each number stands in a list.
#[derive(Drop)]
pub struct Groups {
    lists: Vec<Vec<usize>>,
}

impl Groups {
    /// The places of the numbers below `count`, counted from `first`, which is 0 or 1.
    #[tactic(auto, using(crate::proofs::Places::next_place, crate::proofs::Places::no_place))]
    pub fn of(
        alloc: Global,
        count: usize,
        first: usize,
        numbers: &[usize],
    ) -> Result<Groups, AllocError>
        requires { first ≤ 1 }
        ensures { IfOk result (AreGroups count first numbers.now) }
    {
        let mut lists: Vec<Vec<usize>> = Vec::with_capacity(alloc, count)?;
        for _ in 0..count {
            lists.push(Vec::new(alloc))?;
        }
        let mut place = first;
        for number in numbers {
            add(&mut lists, *number, place)?;
            place += 1;
        }
        Ok(Groups { lists })
    }

    /// The places of a number.
    pub fn places(&self, number: usize) -> &[usize]
        ensures { result.now ≡ members_in self.now number }
    {
        match self.lists.get(number) {
            Some(places) => places.as_slice(),
            None => &[],
        }
    }
}

// Adds a place of a number.
#[tactic(auto, using(crate::proofs::Places::list_at_set))]
fn add(lists: &mut Vec<Vec<usize>>, number: usize, place: usize) -> Result<(), AllocError>
    ensures { OnOk result (AddsPlace lists.old.items lists.new.items number place) }
{
    if let Some(places) = lists.get_mut(number) {
        places.push(place)?;
    }
    Ok(())
}
