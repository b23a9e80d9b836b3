//! The places in storage of names that COMMON and EQUIVALENCE link (ANSI X3.9-1978, sections 8.2, 8.3 and 17.1).
#![tactic(auto)]

mod equations;
mod forest;
mod sizes;
mod storages;
mod word_numbers;

pub use equations::{Placing, place_names};
pub use storages::Storages;
pub use word_numbers::{WordNumbers, numbers_of};
