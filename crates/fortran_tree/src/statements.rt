//! Statements.

ghost use Rattle.std.specs.Prelude.{◌≡◌, [], None, IfOk, slice_get};
ghost use Rattle.fortran_tree.specs.Statements.{IsCopy, condition_marks, name_at, number_at};

use crate::{Head, LowerError, Name, Node, Place, copied};
use std::alloc::Global;

/// A second condition like this one, if there is one.
fn copied_condition(
    alloc: Global,
    guard: &Option<Vec<Node>>,
) -> Result<Option<Vec<Node>>, LowerError>
    ensures { IfOk result (λ copy. condition_marks guard.now ≡ condition_marks copy) }
{
    match guard {
        None => Ok(None),
        Some(condition) => Ok(Some(copied(alloc, condition.as_slice())?)),
    }
}

/// A statement.
#[derive(Drop)]
pub struct Statement {
    /// Its label, 0 where it has none.
    pub label: u32,
    /// Where its first character stands in the source.
    pub place: Place,
    /// The condition of a logical IF, of which the rest is the statement that depends on it.
    pub guard: Option<Vec<Node>>,
    pub head: Head,
    pub body: Vec<Node>,
}

impl Statement {
    /// A statement without a label and a condition.
    pub fn plain(head: Head, body: Vec<Node>, place: Place) -> Statement
        ensures { result ≡ record { label = 0; place = place; guard = None; head = head; body = body } }
    {
        Statement {
            label: 0,
            place,
            guard: None,
            head,
            body,
        }
    }

    /// A statement without a body.
    pub fn bare(alloc: Global, head: Head, place: Place) -> Statement
        ensures whole { result ≡ record { label = 0; place = place; guard = None; head = head; body = result.body } }
        ensures body { result.body.items ≡ [] }
    {
        Statement::plain(head, Vec::new(alloc), place)
    }

    /// The same statement with a label.
    pub fn labelled(self, label: u32) -> Statement
        ensures { result ≡ record self { label = label } }
    {
        let Statement {
            label: _,
            place,
            guard,
            head,
            body,
        } = self;
        Statement {
            label,
            place,
            guard,
            head,
            body,
        }
    }

    /// A second statement like this one.
    pub fn copy(&self, alloc: Global) -> Result<Statement, LowerError>
        ensures { IfOk result (λ copy. IsCopy self.now copy) }
    {
        Ok(Statement {
            label: self.label,
            place: self.place,
            guard: copied_condition(alloc, &self.guard)?,
            head: self.head,
            body: copied(alloc, self.body.as_slice())?,
        })
    }

    /// The name with which the body begins: that of a unit, of a CALL, of an assignment's target.
    pub fn first_name(&self) -> Option<Name>
        ensures { result ≡ name_at (slice_get self.now.body.items 0) }
    {
        self.body.first()?.name()
    }

    /// The number with which the body begins: the label of a DO.
    pub fn first_number(&self) -> Option<u32>
        ensures { result ≡ number_at (slice_get self.now.body.items 0) }
    {
        self.body.first()?.number()
    }
}
