//! The DO loops and blocks that are open at a place of the text.

ghost use Rattle.std.specs.Prelude.{◌≡◌, [], ◌∷◌, ◌++◌, slice_get, option_to_list, IfNone, OnOk};
ghost use Rattle.std.specs.List.{list_any};
ghost use Rattle.control_structure.specs.OpenStack.{ends_at, head_of, opened_of};

use crate::room::make_room;
use df_sequence::NoMemory;
use layout_rules::Opened;
use std::alloc::Global;
use std::marker::Model;

/// What is open, and the place of the statement that begins it.
#[derive(Clone, Copy, Drop)]
pub struct Entry {
    /// The place of the statement that begins it.
    pub begin: u32,
    /// What it is.
    pub opened: Opened,
}

/// What is open. Contracts see it as the list of its entries, the innermost first.
#[derive(Drop)]
pub(crate) struct OpenStack {
    entries: Vec<Entry>,
    /// For each label how many loops that end there are open. It reaches as far as the labels of loops that were opened.
    loops: Vec<usize>,
}

impl Model for OpenStack {
    ghost use Rattle.std.specs.Prelude.{List, reverse};
    ghost use Rattle.control_structure.specs.declared.open_stack.Entry.{Entry};
    ghost use Rattle.control_structure.specs.OpenStack.{AreCounted};

    ghost Value = { List Entry };

    ghost view = { λ s. reverse s.entries.items };

    ghost invariant = { λ s. AreCounted (reverse s.entries.items) s.loops.items };
}

impl OpenStack {
    /// Nothing is open. It takes no memory.
    pub(crate) fn new(alloc: Global) -> OpenStack
        ensures { result ≡ [] }
    {
        OpenStack {
            entries: Vec::new(alloc),
            loops: Vec::new(alloc),
        }
    }

    /// Puts an entry on top.
    pub(crate) fn push(&mut self, entry: Entry) -> Result<(), NoMemory>
        ensures { OnOk result (self.new ≡ entry ∷ self.old) }
    {
        match entry.opened {
            Opened::Loop(label) => {
                make_room(&mut self.loops, label, 0)?;
                self.entries.push(entry)?;
                self.loops[label as usize] += 1;
            }
            Opened::Block(_) => self.entries.push(entry)?,
        }
        Ok(())
    }

    /// Takes the top away, if there is one.
    pub(crate) fn pop(&mut self) -> Option<Entry>
        ensures items { self.old ≡ option_to_list result ++ self.new }
        ensures none { IfNone result (self.old ≡ []) }
    {
        let entry = self.entries.pop()?;
        if let Opened::Loop(label) = entry.opened {
            self.loops[label as usize] -= 1;
        }
        Some(entry)
    }

    /// The innermost entry.
    pub(crate) fn top(&self) -> Option<Entry>
        ensures { result ≡ slice_get self.now 0 }
    {
        self.entries.last().copied()
    }

    /// Where the innermost entry begins.
    pub(crate) fn head(&self) -> Option<u32>
        ensures { result ≡ head_of self.now }
    {
        match self.top() {
            Some(entry) => Some(entry.begin),
            None => None,
        }
    }

    /// What the innermost entry is.
    pub(crate) fn opened(&self) -> Option<Opened>
        ensures { result ≡ opened_of self.now }
    {
        match self.top() {
            Some(entry) => Some(entry.opened),
            None => None,
        }
    }

    /// Whether a loop is open that ends at the label.
    pub(crate) fn has_loop_to(&self, label: u32) -> bool
        ensures { result ≡ list_any (ends_at label) self.now }
    {
        match self.loops.get(label as usize) {
            Some(count) => *count > 0,
            None => false,
        }
    }
}
