//! Nodes that fire in any order: the laws of a step system, and what they say of every order.
#![tactic(auto)]

mod footprints;
mod laws;
mod marks;
mod name_line;
mod playing;
mod ready_set;
mod source_order;
mod step;
mod system;

pub use footprints::{InParts, footprints_commute};
pub use laws::{due_orders_end, every_order, every_order_follows, runs_end, runs_go_on};
pub use marks::{ReadyMarks, mark_ready, retest_fired};
pub use playing::{PlayEnd, Show, play};
pub use ready_set::ReadySet;
pub use source_order::{SourceOrder, follow};
pub use system::{Fired, NodeName, StepSystem};
