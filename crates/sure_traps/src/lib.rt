//! Traps that are sure: each run that comes to the statement traps there, whatever the words of the store and the data. A divisor
//! is a constant 0 (ANSI X3.9-1978, section 6.1.5), a subscript a constant outside its bounds (section 5.4), the step of a DO a
//! constant 0 (section 11.10), or a constant expression overflows.
#![tactic(auto)]

mod causes;
mod executables;
mod expressions;
mod laws;
mod programs;

pub use causes::{Cause, Sight, SureTrap};
pub use executables::cause_of;
pub use expressions::see;
pub use laws::{constants_show_their_traps, sure_traps_stop_runs};
pub use programs::sure_traps;
