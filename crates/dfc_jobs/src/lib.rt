//! What is done with the program of a text, by typed arguments: its regions or its net are told, its game is played, its rewritten form
//! is written or run. The job writes to a sink and answers a status; what is due is defined in `specs/`. Programs call it with sources
//! and sinks of their own.
#![tactic(auto)]

mod job;

pub use job::do_task;
