//! What is known of the names of a copy of a unit.

ghost use Rattle.std.specs.Prelude.{◌≡◌};
ghost use Rattle.indexmap.specs.IndexMap.{get};
ghost use Rattle.fortran_tree.specs.Spellings.{same_name};
ghost use Rattle.call_rules.specs.Known.{only_name as alone, first_of};

use crate::program::Program;
use fortran_tree::{Head, LowerError, Name, Node, Sign, Statement, is_sign};
use indexmap::IndexMap;
use std::alloc::Global;
use unit_tables::{Bound, pieces_of};

/// What is known of the names of a copy.
#[derive(Drop)]
pub(crate) struct Known {
    /// The bounds of arrays.
    pub(crate) bounds: IndexMap<Name, Vec<Bound>>,
    /// The values of dummies to which constants are passed.
    pub(crate) values: IndexMap<Name, i32>,
}

impl Known {
    /// Nothing.
    pub(crate) fn new(alloc: Global) -> Known {
        Known {
            bounds: IndexMap::new(alloc),
            values: IndexMap::new(alloc),
        }
    }

    /// The value of a name that stands for a constant, or is a dummy to which one is passed.
    pub(crate) fn constant(&self, program: &Program, name: Name) -> Option<i32>
        ensures { result ≡ first_of (get same_name program.now.constants name) (get same_name self.now.values name) }
    {
        match program.constants.get(&name) {
            Some(value) => Some(*value),
            None => self.values.get(&name).copied(),
        }
    }
}

/// The name that is all that there is.
fn only_name(nodes: &[Node]) -> Option<Name>
    ensures { result ≡ alone nodes.now }
{
    if nodes.len() == 1 {
        nodes.first()?.name()
    } else {
        None
    }
}

/// The lower and the upper bound of a dimension, where they are names.
fn names_of(piece: &[Node]) -> (Option<Name>, Option<Name>) {
    let mut parts = piece.split(|node| is_sign(node, Sign::Colon));
    match (parts.next(), parts.next()) {
        (Some(low), Some(high)) => (only_name(low), only_name(high)),
        (Some(high), None) => (None, only_name(high)),
        _ => (None, None),
    }
}

/// The names that are bounds in a declaration, each with its value where the array has these bounds. The last upper bound tells nothing,
/// since the array that is passed may have another one.
pub(crate) fn told_values(
    alloc: Global,
    declared: &[Node],
    bounds: &[Bound],
) -> Result<Vec<(Name, i32)>, LowerError> {
    let pieces = pieces_of(alloc, declared)?;
    let mut told = Vec::new(alloc);
    let mut left = bounds.len();
    for (piece, bound) in pieces.iter().zip(bounds) {
        left = left.saturating_sub(1);
        let (low, high) = names_of(piece);
        if let Some(name) = low {
            told.push((name, bound.low))?;
        }
        if let (Some(name), true) = (high, left > 0) {
            told.push((name, bound.high))?;
        }
    }
    Ok(told)
}

/// Whether one of these statements gives a variable a value by itself, which CALL does not.
pub(crate) fn gives(statements: &[Statement], name: Name) -> bool {
    statements.iter().any(|statement| match statement.head {
        Head::Assign => statement.first_name() == Some(name),
        Head::Do => statement.body.get(1).and_then(|node| node.name()) == Some(name),
        Head::Read => statement.body.iter().any(|node| node.name() == Some(name)),
        _ => false,
    })
}
