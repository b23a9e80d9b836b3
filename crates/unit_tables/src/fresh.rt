//! Labels and names that a text doesn't have.

ghost use Rattle.std.specs.Prelude.{◌≡◌, ◌<◌, false, nat_eq, IfOk};
ghost use Rattle.indexmap.specs.IndexSet.{contains};

use fortran_tree::{Head, LowerError, Name, Names, Node, Place, Reason, Statement, Token};
use indexmap::IndexSet;
use std::alloc::Global;

/// The labels of a unit.
#[derive(Drop)]
pub struct Labels {
    used: IndexSet<u32>,
    /// Labels from this one on are used.
    next: u32,
}

impl Labels {
    /// The labels that these statements have or name.
    pub fn of(alloc: Global, statements: &[Statement]) -> Result<Labels, LowerError> {
        let mut used = IndexSet::new(alloc);
        for statement in statements {
            used.insert(statement.label)?;
            if matches!(
                statement.head,
                Head::GoTo | Head::ArithmeticIf | Head::Do | Head::DoWhile
            ) {
                use_numbers(&mut used, &statement.body)?;
            }
        }
        Ok(Labels { used, next: 100000 })
    }

    /// A label that the unit doesn't have yet.
    pub fn fresh(&mut self, place: Place) -> Result<u32, LowerError>
        ensures low { IfOk result (λ label. 0 < label) }
        ensures below { IfOk result (λ label. label < self.old.next) }
        ensures new { IfOk result (λ label. contains nat_eq self.old.used label ≡ false) }
        ensures taken { IfOk result (λ label. self.new ≡ record self.old { next = label }) }
    {
        for label in (1..self.next).rev() {
            if !self.used.contains(&label) {
                self.next = label;
                return Ok(label);
            }
        }
        Err(place.refused(Reason::Labels))
    }
}

/// Adds the numbers of a statement that may name labels, so that no new label is one that a faulty text jumps to.
fn use_numbers(used: &mut IndexSet<u32>, nodes: &[Node]) -> Result<(), LowerError> {
    for node in nodes {
        match node {
            Node::Leaf(Token::Number(number), _) => {
                used.insert(*number)?;
            }
            Node::Leaf(_, _) => {}
            Node::Group(inside, _) => use_numbers(used, inside.as_slice())?,
        }
    }
    Ok(())
}

/// A name that the text doesn't have yet.
pub fn fresh_name(
    alloc: Global,
    names: &mut Names,
    next: &mut u32,
    place: Place,
) -> Result<Name, LowerError> {
    for number in *next..100000 {
        let spelling = format!(in alloc; "Z{number:05}")?;
        if names.known(spelling.as_str()).is_none() {
            *next = number.saturating_add(1);
            return names.named(spelling);
        }
    }
    Err(place.refused(Reason::Names))
}
