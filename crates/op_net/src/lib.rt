//! The net of a program with operations as nodes.
#![tactic(auto)]

mod apart;
mod net;
mod net_firing;
mod net_system;
mod new_net;
mod operating;
mod piece_firing;
mod piece_performing;

pub use net::OpNet;
