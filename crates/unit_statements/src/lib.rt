//! The statements of a text by their lines, and the units in which they stand (ANSI X3.9-1978, sections 2.4 and 3.5).
#![tactic(auto)]

mod spelling;
mod units;

pub use spelling::spelt;
pub use units::{dummies, first_line, inner, statement_at, unit_named, unit_with};
