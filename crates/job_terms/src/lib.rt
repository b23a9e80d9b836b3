//! The terms in which jobs are spoken of: what is asked of one (`Task`), how a text is read or refused, how a job ends (`Status`), and the
//! lines that tell its end. What is due of a job, and what it answers for that, is defined in `specs/`.
#![tactic(auto)]

mod lines;
mod reading;
mod status;
mod task;

pub use lines::{tell_limit, tell_refusal, tell_trap, tell_trap_alone, tell_usage};
pub use reading::{Code, NoProgram, read_bytes, read_program};
pub use status::Status;
pub use task::{Asked, Task, Told};
