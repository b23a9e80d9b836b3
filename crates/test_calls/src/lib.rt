//! Tests of calls that no job of the driver makes, or whose answers no bytes of a job show by themselves: operators, sets, graphs, a
//! net that is no program's, an expression within a text, subscripts in range, and a writer whose flush fails. They stand apart because
//! a crate that has tests is proved a second time with them.
#![tactic(auto)]

#[cfg(test)]
mod expressions;
#[cfg(test)]
mod graphs;
#[cfg(test)]
mod nets;
#[cfg(test)]
mod operators;
#[cfg(test)]
mod ranges;
#[cfg(test)]
mod sets;
#[cfg(test)]
mod writers;
