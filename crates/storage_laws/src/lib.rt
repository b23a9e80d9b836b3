//! Laws on declarations and places, with no code: the declarations of statements without a fault of storage are well formed,
//! and the places of their names meet the rules of storage association.
#![tactic(auto)]

mod laws;

pub use laws::declared_storage_is_well_formed;
