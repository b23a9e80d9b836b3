//! Three small nets: one that keeps the laws of firing and is played, one whose footprints give the laws, and one of two
//! rivals that can't keep them.
#![tactic(auto)]

mod counters;
mod counts;
mod forks;
mod rivals;
mod turn;

pub use counters::Counters;
pub use counts::Counts;
pub use forks::readers_keep_the_laws;
pub use rivals::{OnTokens, Token, rivals_break_the_laws};
pub use turn::Turn;
