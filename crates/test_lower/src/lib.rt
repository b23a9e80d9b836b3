//! A test of `fortran_tree`: what is printed of statements that were read. It stands apart because a crate that has tests is proved a
//! second time with them.
#![tactic(auto)]

#[cfg(test)]
mod printed;
