//! The nets of a program and the games that are played on them, as definitions, with one law: what was found of a program makes its net.
#![tactic(auto)]

mod net_parts;

pub use net_parts::are_net_parts;
