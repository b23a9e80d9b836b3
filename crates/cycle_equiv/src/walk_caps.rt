//! The capping brackets that lead to a place.

ghost use Rattle.std.specs.Prelude.{◌≡◌, ◌+◌, ◌<◌, ◌≤◌, ◌^◌, ℕ, List, [], ◌∷◌, ◌++◌, length, nat_lt, set, if◌then◌else◌, OnOk};
ghost use Rattle.brackets.specs.Brackets.{IsFree, list_at};
ghost use Rattle.cycle_equiv.specs.CapLists.{HaveCaps, caps_at, caps_total, ended, ended_caps, ended_list};

use brackets::BracketLists;
use df_sequence::NoMemory;
use std::alloc::Global;
use std::marker::Model;
use std::sync::ledger::Ledger;
use step_count::Steps;

/// The edges of nodes whose capping brackets lead to one place. Contracts see the list of them.
#[derive(Drop)]
pub(crate) struct Caps {
    edges: Vec<u32>,
}

impl Model for Caps {
    ghost use Rattle.std.specs.Prelude.{List, ℕ};

    ghost Value = { List ℕ };

    ghost view = { λ caps. caps.edges.items };
}

impl Caps {
    /// None. It takes no memory.
    pub(crate) fn new(alloc: Global) -> Self
        ensures { result ≡ [] }
    {
        Caps {
            edges: Vec::new(alloc),
        }
    }

    /// One more.
    pub(crate) fn push(&mut self, f: u32) -> Result<(), NoMemory>
        ensures { OnOk result (self.new ≡ self.old ++ f ∷ []) }
    {
        self.edges.push(f)?;
        Ok(())
    }

    /// Takes all of them off, and their brackets out of the list. It takes a step for each.
    pub(crate) fn end<L: Ledger>(
        &mut self,
        lists: &mut BracketLists,
        list: u32,
        edges: u32,
        steps: &mut Steps<L>,
    )
        requires { HaveCaps edges (list_at lists.old list) self.old }
        ensures none { self.new ≡ [] }
        ensures lists { lists.new ≡ set lists.old list (ended edges (list_at lists.old list) self.old) }
        ensures steps { steps.new ≡ steps.old + length self.old }
    {
        'caps: while let Some(f) = self.edges.pop() {
            lists.delete(list, edges + f, steps);
        }
    }
}

/// Ends the list of a node that was found by the edge f: the capping brackets that lead to its place go out, and where its
/// second reach is above it, its own goes on top.
pub(crate) fn end_list<L: Ledger>(
    lists: &mut BracketLists,
    caps: &mut Vec<Caps>,
    f: u32,
    place: u32,
    second: u32,
    edges: u32,
    steps: &mut Steps<L>,
) -> Result<(), NoMemory>
    requires place { place < length caps.old.items }
    requires second { second ≤ place }
    requires size { length lists.old ≡ edges }
    requires few { edges < 2 ^ 31 }
    requires edge { f < edges }
    requires have { HaveCaps edges (list_at lists.old f) (caps_at caps.old.items place) }
    requires free { second < place → IsFree lists.old (edges + f) }
    ensures lists { OnOk result (lists.new ≡ set lists.old f (ended_list edges lists.old caps.old.items f place second)) }
    ensures caps { OnOk result (caps.new.items ≡ ended_caps caps.old.items f place second) }
    ensures steps { OnOk result (steps.new + caps_total caps.new.items ≡ steps.old + caps_total caps.old.items + (if nat_lt second place then 2 else 0)) }
{
    caps[place as usize].end(lists, f, edges, steps);
    if second < place {
        caps[second as usize].push(f)?;
        lists.push(f, edges + f, steps);
    }
    Ok(())
}
