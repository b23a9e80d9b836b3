//! Laws on lists, as contracts of functions that do nothing.

ghost use Rattle.std.specs.Prelude.{ℕ, List, Contains};
ghost use Rattle.list_laws.specs.Member.{Member};

/// A member of a list of numbers stands at some place in it, and what stands at a place is a member.
pub fn members_are_contained()
    ensures at_a_place { (xs : List ℕ) (x : ℕ) → Member xs x → Contains xs x }
    ensures members { (xs : List ℕ) (x : ℕ) → Contains xs x → Member xs x }
{}
