//! What is wrong with a statement that has no form of the language, in a sentence, and what to write instead, in another one.
#![tactic(auto)]

mod advice;
mod forms;
mod shapes;

pub use advice::Advice;
pub use forms::{TABLES, Tables, advice_on_form};
