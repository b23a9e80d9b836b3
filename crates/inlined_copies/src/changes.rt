//! What changes in a copy: names, calls of intrinsic functions, jumps and ends of DOs.
ghost use Rattle.std.specs.Prelude.{◌≡◌, ◌&&◌, not, map, option_map, slice_get, IfOk};
ghost use Rattle.declared_names.specs.Functions.{intrinsic_named};
ghost use Rattle.inlined_copies.specs.Changes.{changes_of, or_itself};

use crate::unit_table::CopyOf;
use df_sequence::{Copied, NoMemory};
use f77_tree::{Name, NameList};
use op_table::Op;
use program_units::NewName;
use std::alloc::Global;

impl<'a> CopyOf<'a> {
    /// What a name becomes. One that isn't in the table stays, and so does a dummy without an argument.
    pub(crate) fn name(&self, alloc: Global, name: &Name) -> Result<Name, NoMemory>
        ensures { IfOk result (λ new. new ≡ (changes_of self.now).name name.now) }
    {
        match self.table.names.get(name) {
            Some(NewName::Fixed(new)) => new.copy(alloc),
            Some(NewName::Argument(place)) => self.argument(alloc, *place, name),
            None => name.copy(alloc),
        }
    }

    /// What names become, one after another.
    pub(crate) fn all(&self, alloc: Global, names: &NameList) -> Result<Vec<Name>, NoMemory>
        ensures { IfOk result (λ new. new.items ≡ map (changes_of self.now).name names.now) }
    {
        let mut new = Vec::new(alloc);
        for name in names.as_slice() {
            new.push(self.name(alloc, name)?)?;
        }
        Ok(new)
    }

    // The argument at a place, or this name where there is none.
    fn argument(&self, alloc: Global, place: usize, name: &Name) -> Result<Name, NoMemory>
        ensures { IfOk result (λ new. new ≡ or_itself name.now (slice_get self.now.arguments.now place)) }
    {
        match self.arguments.get(place) {
            Some(new) => new.copy(alloc),
            None => name.copy(alloc),
        }
    }

    /// What the label of a jump becomes. One that no statement has leads behind the copy.
    pub(crate) fn jump(&self, label: u32) -> u32
        ensures { result ≡ (changes_of self.now).jump label }
    {
        match self.table.labels.get(&label) {
            Some(new) => self.base + new.first,
            None => self.base + self.table.behind,
        }
    }

    /// What the label at which a DO ends becomes.
    pub(crate) fn end(&self, label: u32) -> u32
        ensures { result ≡ (changes_of self.now).end label }
    {
        match self.table.labels.get(&label) {
            Some(new) => self.base + new.last,
            None => self.base + self.table.behind,
        }
    }

    /// The label to which RETURN leads.
    pub(crate) fn back(&self) -> u32
        ensures { result ≡ (changes_of self.now).back }
    {
        self.base + self.table.behind
    }

    /// Whether a call of this name is one of an intrinsic function, if there is one of this name.
    pub(crate) fn is_free(&self, name: &Name) -> bool
        ensures { result ≡ ((changes_of self.now).copied && not ((changes_of self.now).arrays name.now)) }
    {
        self.table.copied && !self.table.declared.is_array(name)
    }
}

/// The operator of the intrinsic function of this name, if it is one's.
pub(crate) fn intrinsic(name: &[u8]) -> Option<Op>
    ensures { result ≡ option_map (λ f. f.op) (intrinsic_named name.now) }
{
    match name {
        b"MOD" => Some(Op::Mod),
        b"ABS" | b"IABS" => Some(Op::Abs),
        b"SIGN" | b"ISIGN" => Some(Op::Sign),
        b"MAX" | b"MAX0" => Some(Op::Max),
        b"MIN" | b"MIN0" => Some(Op::Min),
        _ => None,
    }
}
