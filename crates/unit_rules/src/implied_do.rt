//! The parts of an implied DO.

use fortran_tree::{LowerError, Node, Place, Sign, is_sign};
use std::alloc::Global;
use unit_tables::{pieces_of, word};

/// What stands between the brackets of an implied DO: the items, and the control, which is the variable with the first value, then the last
/// value, and the step where there is one.
#[derive(Drop)]
pub struct ImpliedDo {
    pub items: Vec<Vec<Node>>,
    pub control: Vec<Vec<Node>>,
}

/// The implied DO that stands between two brackets.
pub fn implied_do(alloc: Global, inside: &[Node]) -> Result<Option<ImpliedDo>, LowerError> {
    let mut found = ImpliedDo {
        items: Vec::new(alloc),
        control: Vec::new(alloc),
    };
    for part in pieces_of(alloc, inside)? {
        let begins_control = part.get(1).is_some_and(|node| is_sign(node, Sign::Equals));
        if begins_control || !found.control.is_empty() {
            found.control.push(part)?;
        } else {
            found.items.push(part)?;
        }
    }
    Ok(if found.control.is_empty() {
        None
    } else {
        Some(found)
    })
}

impl ImpliedDo {
    /// Whether a parameter is not a constant.
    pub fn is_open(&self, alloc: Global, place: Place) -> Result<bool, LowerError> {
        let mut is_first = true;
        for part in &self.control {
            let parameter = if is_first {
                part.get(2..).unwrap_or(&[])
            } else {
                part.as_slice()
            };
            is_first = false;
            if word(alloc, parameter, place)?.is_none() {
                return Ok(true);
            }
        }
        Ok(false)
    }
}
