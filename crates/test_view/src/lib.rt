//! Tests of `printed_graphs`: texts that can't be read, with the line that is told of each. They go over public calls alone, and stand apart because a crate
//! that has tests is proved a second time with them.
#![tactic(auto)]

#[cfg(test)]
mod refused;
