//! The jobs that play games: on the net of a program, with its output, its nodes or its store told, and on the net in which the loads of
//! a group fire in any order.
#![tactic(auto)]

mod forks;
mod game;
mod playing;
mod store;

pub use forks::play_forks;
pub use game::tell_game;
pub use playing::play;
