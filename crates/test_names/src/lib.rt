//! Tests of `copied_names`: what is told of a text against what `dfc store` printed of it. They stand apart because a crate that has
//! tests is proved a second time with them.
#![tactic(auto)]

#[cfg(test)]
mod told;
