ghost use Rattle.std.specs.Prelude.{◌≡◌, ◌<◌, [], length, IfOk, FitsSigned, ◌+ℤ◌};
ghost use Rattle.std.specs.Int.{w64};
ghost use Rattle.std.specs.Option.{ForSome};
ghost use Rattle.layout_rules.specs.Spots.{IsReach};
ghost use Rattle.storage_association.specs.Storages.{AreSome, AreStorages, joined_part, moved_part, part_if_right, TellsRight, BeginsBlock, AddsEquation};

use crate::forest::{Forest, Joined, Rooted};
use df_sequence::NoMemory;
use std::alloc::Global;

/// What a storage holds: how far after its root its first word lies, and the first word of its block, if it has one.
#[derive(Clone, Copy, Drop)]
pub(crate) struct Part {
    low: i64,
    start: Option<i64>,
}

/// The storages that the blocks of COMMON and the equations so far give, and whether the places are right.
#[derive(Drop)]
pub struct Storages {
    forest: Forest,
    parts: Vec<Part>,
    right: bool,
}

impl Storages {
    /// So many names, each in a storage of its own.
    pub(crate) fn new(alloc: Global, count: u32) -> Result<Storages, NoMemory>
        ensures { IfOk result (λ s. AreStorages count [] [] s) }
    {
        let forest = Forest::new(alloc, count)?;
        let alone = Part {
            low: 0,
            start: None,
        };
        let parts = vec![in alloc; alone; count as usize]?;
        Ok(Storages {
            forest,
            parts,
            right: true,
        })
    }

    /// Whether the places are right so far.
    pub(crate) fn are_right(&self) -> bool
        ensures { TellsRight self.now result }
    {
        self.right
    }

    /// The trees of the names.
    pub(crate) fn forest(&self) -> &Forest
        ensures { result.now ≡ self.now.forest }
    {
        &self.forest
    }

    /// A block of COMMON begins with this name, which begins no other.
    pub(crate) fn begin_block(&mut self, name: u32)
        requires some { AreSome self.old }
        requires known { name < length self.old.parts.items }
        ensures { BeginsBlock name self.old self.new }
    {
        let Rooted { root, distance } = self.forest.find(name);
        let own = Part {
            low: distance,
            start: Some(distance),
        };
        if self.right {
            match self.parts[root as usize].joined(own) {
                Some(part) => self.parts[root as usize] = part,
                None => self.right = false,
            }
        }
    }

    /// Links two names, of which the second begins so many words after the first.
    pub(crate) fn join(&mut self, from: u32, to: u32, distance: i64)
        requires some { AreSome self.old }
        requires first { from < length self.old.parts.items }
        requires second { to < length self.old.parts.items }
        requires reach { IsReach distance }
        ensures { AddsEquation (record { from = from; to = to; distance = distance }) self.old self.new }
    {
        match self.forest.join(from, to, distance) {
            Joined::Same { distance: there } => {
                if there != distance {
                    self.right = false;
                }
            }
            Joined::Hung {
                child,
                root,
                offset,
            } => {
                if self.right {
                    let under = self.parts[child as usize].moved(offset);
                    match self.parts[root as usize].joined(under) {
                        Some(part) => self.parts[root as usize] = part,
                        None => self.right = false,
                    }
                }
            }
        }
    }
}

impl Part {
    // The part, as seen from a name that lies so far before its root.
    fn moved(self, offset: i64) -> Part
        requires low { FitsSigned w64 (self.low +ℤ offset) }
        requires start { ForSome self.start (λ start. FitsSigned w64 (start +ℤ offset)) }
        ensures { result ≡ moved_part self offset }
    {
        let start = match self.start {
            Some(start) => Some(start + offset),
            None => None,
        };
        Part {
            low: self.low + offset,
            start,
        }
    }

    // Both parts together, unless they hold two blocks, or a word before a block's first.
    fn joined(self, other: Part) -> Option<Part>
        ensures { result ≡ joined_part self other }
    {
        let low = self.low.min(other.low);
        let start = match (self.start, other.start) {
            (Some(_), Some(_)) => return None,
            (Some(start), None) => Some(start),
            (None, start) => start,
        };
        Part { low, start }.if_right()
    }

    // The part, unless a word lies before its block's first.
    fn if_right(self) -> Option<Part>
        ensures { result ≡ part_if_right self }
    {
        match self.start {
            Some(start) if self.low < start => None,
            _ => Some(self),
        }
    }
}
