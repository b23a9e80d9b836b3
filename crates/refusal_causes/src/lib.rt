//! What is wrong with a text that is no program, in a sentence, and what to write instead, in another one.
#![tactic(auto)]

mod call_cause;
mod calls;
mod cause;
mod label_cause;
mod labels;
mod places;

pub use call_cause::{BlockCause, CallCause, NameCause};
pub use calls::{cause_of_block, cause_of_call, cause_of_name};
pub use cause::Cause;
pub use label_cause::LabelCause;
pub use labels::{cause_of_label, label_above};
pub use places::{advice_on_layout, advice_on_nesting, advice_on_order};
