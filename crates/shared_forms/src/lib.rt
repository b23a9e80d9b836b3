//! The shared form of a program, as definitions and facts: repeated expressions are done once, and temporaries hold their values.
#![tactic(auto)]

mod ends;

pub use ends::RewriteEnd;
