//! Tests of `dfc_driver` where its source or its sink fails, or gives and takes single bytes; and where neither can ever fail. What is
//! due for words and texts is shown by the stored cases, which are run on the program.
#![tactic(auto)]

#[cfg(test)]
mod faults;
#[cfg(test)]
mod never;
