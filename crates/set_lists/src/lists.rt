//! The sets, in 16 bytes each where they have one member at most, or are the same as the one before them with more.

ghost use Rattle.std.specs.Prelude.{◌≡◌, ◌<◌, ◌+◌, ◌*◌, ℕ, true, Some, length, slice_get, IfOk, IfSome, OnOk};
ghost use Rattle.set_lists.specs.declared.lists.Members.TheVariants.{One, Shared};
ghost use Rattle.class_set.specs.ClassSet.{holds};
ghost use Rattle.class_set.specs.Members.{IsWidth};
ghost use Rattle.set_lists.specs.Kept.{AreMore, IsSmall, IsThere, test_of};

use class_set::ClassSet;
use df_sequence::NoMemory;
use std::alloc::Global;

/// The members of a set.
#[derive(Clone, Copy, Debug, PartialEq, Eq)]
enum Members {
    Nothing,
    One(u32),
    /// Those of the shared set with this number.
    Shared(usize),
}

/// Sets of numbers, in order.
#[derive(Drop)]
pub struct SetList<const W: usize> {
    items: Vec<Members>,
    /// Sets with more than one member.
    shared: Vec<ClassSet<W>>,
    ghost width: { IsWidth W },
    ghost ones: { (i n : ℕ) → slice_get items.items i ≡ Some (One n) → n < 64 * W },
    ghost exist: { (i n : ℕ) → slice_get items.items i ≡ Some (Shared n) → n < length shared.items },
}

impl<const W: usize> SetList<W> {
    ghost use Rattle.set_lists.specs.Sets.{set_count, test_at};

    /// No set, with room for so many that have one member at most.
    pub fn with_room(alloc: Global, room: usize) -> Result<Self, NoMemory>
        requires { IsWidth W }
        ensures { IfOk result (λ sets. set_count sets ≡ 0) }
    {
        Ok(SetList {
            items: Vec::with_capacity(alloc, room)?,
            shared: Vec::new(alloc),
        })
    }

    /// How many sets there are.
    pub fn len(&self) -> usize
        ensures { result ≡ set_count self.now }
    {
        self.items.len()
    }

    /// The set at a place, counted from 0.
    pub fn at(&self, i: usize) -> ClassSet<W>
        requires { i < set_count self.now }
        ensures { (k : ℕ) → holds result k ≡ test_at self.now i k }
    {
        set_of(&self.shared, self.items[i])
    }

    /// Puts a set after the others.
    pub fn push(&mut self, set: &ClassSet<W>) -> Result<(), NoMemory>
        ensures count { OnOk result (set_count self.new ≡ set_count self.old + 1) }
        ensures last { OnOk result ((k : ℕ) → test_at self.new (set_count self.old) k ≡ holds set.now k) }
        ensures others { OnOk result ((i k : ℕ) → i < set_count self.old → test_at self.new i k ≡ test_at self.old i k) }
    {
        let item = members_of(&mut self.shared, set)?;
        self.items.push(item)?;
        Ok(())
    }
}

/// The set with these members.
fn set_of<const W: usize>(shared: &Vec<ClassSet<W>>, members: Members) -> ClassSet<W>
    requires width { IsWidth W }
    requires there { IsThere W (length shared.now.items) members }
    ensures { (k : ℕ) → holds result k ≡ test_of shared.now.items members k }
{
    match members {
        Members::Nothing => ClassSet::empty(),
        Members::One(n) => ClassSet::empty().with(n),
        Members::Shared(i) => shared[i],
    }
}

/// The members of a set, which is shared where it has more than one.
fn members_of<const W: usize>(
    shared: &mut Vec<ClassSet<W>>,
    set: &ClassSet<W>,
) -> Result<Members, NoMemory>
    requires { IsWidth W }
    ensures more { AreMore shared.old.items shared.new.items }
    ensures there { IfOk result (IsThere W (length shared.new.items)) }
    ensures members { IfOk result (λ members. (k : ℕ) → test_of shared.new.items members k ≡ holds set.now k) }
{
    match small(set) {
        Some(members) => Ok(members),
        None => share(shared, set),
    }
}

/// The members of a set, if it has one at most.
fn small<const W: usize>(set: &ClassSet<W>) -> Option<Members>
    requires { IsWidth W }
    ensures { IfSome result (IsSmall W (holds set.now)) }
{
    match set.next_after(None) {
        None => Some(Members::Nothing),
        Some(n) => match set.next_after(Some(n)) {
            None => Some(Members::One(n)),
            Some(_) => None,
        },
    }
}

/// The members of a set that is shared: the last one, if that is the same, or else a copy of it after the others.
fn share<const W: usize>(
    shared: &mut Vec<ClassSet<W>>,
    set: &ClassSet<W>,
) -> Result<Members, NoMemory>
    requires { IsWidth W }
    ensures more { AreMore shared.old.items shared.new.items }
    ensures there { IfOk result (IsThere W (length shared.new.items)) }
    ensures members { IfOk result (λ members. (k : ℕ) → test_of shared.new.items members k ≡ holds set.now k) }
{
    let count = shared.len();
    if count > 0 && is_same(&shared[count - 1], set) {
        Ok(Members::Shared(count - 1))
    } else {
        shared.push(*set)?;
        Ok(Members::Shared(count))
    }
}

/// Whether two sets are known to have the same members.
fn is_same<const W: usize>(a: &ClassSet<W>, b: &ClassSet<W>) -> bool
    requires { IsWidth W }
    ensures { result ≡ true → (k : ℕ) → holds a.now k ≡ holds b.now k }
{
    is_within(a, b) && is_within(b, a)
}

/// Whether each member of a set is one of the other.
fn is_within<const W: usize>(a: &ClassSet<W>, b: &ClassSet<W>) -> bool
    requires { IsWidth W }
    ensures { result ≡ true → (k : ℕ) → holds a.now k ≡ true → holds b.now k ≡ true }
{
    a.difference(b).next_after(None).is_none()
}
