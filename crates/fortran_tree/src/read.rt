//! The statements of a text.

use crate::cards::cards;
use crate::classify::statement_of;
use crate::{LowerError, Names, Statement};
use std::alloc::Global;

/// The statements of a text in fixed form (ANSI X3.9-1978, 3.2). Tabs may stand for blanks and `!` begins a comment.
pub fn read_statements(
    alloc: Global,
    names: &mut Names,
    text: &[u8],
) -> Result<Vec<Statement>, LowerError> {
    let mut statements = Vec::new(alloc);
    for card in &cards(alloc, text)? {
        statements.push(statement_of(alloc, names, card)?)?;
    }
    Ok(statements)
}
