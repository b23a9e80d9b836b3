//! Laws on lists of any type that several crates cite: members and where they stand, counts and sums, numbers in a row, and
//! the place of a key among keys. The lemmas stand in `proofs/`; no code of the compiler is here.
#![tactic(auto)]

mod laws;

pub use laws::members_are_contained;
