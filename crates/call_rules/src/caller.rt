//! A unit whose calls are lowered, in its program.

use crate::program::Program;
use fortran_tree::{Head, LowerError, Name, Node, Place, Statement, Token};
use function_rules::StatementFunction;
use indexmap::{IndexMap, IndexSet};
use std::alloc::Global;
use unit_tables::{Labels, Symbols};

/// A unit whose calls are lowered, in its program.
#[derive(Drop)]
pub(crate) struct Caller {
    pub(crate) program: Program,
    pub(crate) symbols: Symbols,
    pub(crate) dummies: Vec<Name>,
    pub(crate) functions: IndexMap<Name, StatementFunction>,
    /// Whether an executable statement was lowered. No statement function stands below it.
    pub(crate) is_begun: bool,
    pub(crate) labels: Labels,
    /// The labels at which DO loops end.
    ends: IndexSet<u32>,
    /// New labels of loops' ends, for those whose statement had to be made several ones.
    moved: IndexMap<u32, u32>,
    /// For each block IF that is open, how many more END IFs it needs.
    pub(crate) blocks: Vec<u32>,
    /// What has to be done before the statement that is being lowered, and after it.
    pub(crate) before: Vec<Statement>,
    pub(crate) after: Vec<Statement>,
    pub(crate) written: Vec<Statement>,
}

/// The labels at which DO loops end.
fn ends_of(alloc: Global, statements: &[Statement]) -> Result<IndexSet<u32>, LowerError> {
    let mut ends = IndexSet::new(alloc);
    for statement in statements {
        if let (Head::Do, Some(end)) = (statement.head, statement.first_number()) {
            ends.insert(end)?;
        }
    }
    Ok(ends)
}

/// Lets a DO end at its new label, where it has one.
fn move_end(statement: &mut Statement, moved: &IndexMap<u32, u32>) {
    if !matches!(statement.head, Head::Do) {
        return;
    }
    if let Some(Node::Leaf(token, _)) = statement.body.first_mut() {
        if let Token::Number(end) = token {
            let number = *end;
            if let Some(new) = moved.get(&number) {
                *token = Token::Number(*new);
            }
        }
    }
}

impl Caller {
    /// A unit of which nothing is lowered.
    pub(crate) fn of(
        program: Program,
        symbols: Symbols,
        dummies: Vec<Name>,
        statements: &[Statement],
    ) -> Result<Caller, LowerError> {
        let alloc = program.alloc;
        let labels = Labels::of(alloc, statements)?;
        let ends = ends_of(alloc, statements)?;
        Ok(Caller {
            program,
            symbols,
            dummies,
            functions: IndexMap::new(alloc),
            is_begun: false,
            labels,
            ends,
            moved: IndexMap::new(alloc),
            blocks: Vec::new(alloc),
            before: Vec::new(alloc),
            after: Vec::new(alloc),
            written: Vec::new(alloc),
        })
    }

    /// Writes the statements that the one with this label became. The first of them has the label. Where a loop ends there, it ends at one more.
    pub(crate) fn write(
        &mut self,
        statements: Vec<Statement>,
        label: u32,
        place: Place,
    ) -> Result<(), LowerError> {
        let is_end = statements.len() > 1 && label != 0 && self.ends.contains(&label);
        for (number, statement) in statements.into_iter().enumerate() {
            let own = match statement.label {
                _ if number == 0 => label,
                own if own == label => 0,
                own => own,
            };
            self.written.push(statement.labelled(own))?;
        }
        if is_end {
            return self.end_moved(label, place);
        }
        Ok(())
    }

    /// Writes a new end of the loops that end at a label.
    fn end_moved(&mut self, label: u32, place: Place) -> Result<(), LowerError> {
        let end = self.labels.fresh(place)?;
        self.moved.insert(label, end)?;
        let last = Statement::bare(self.program.alloc, Head::Continue, place);
        self.written.push(last.labelled(end))?;
        Ok(())
    }

    /// The program, and the statements that were written, where loops end at their new labels.
    pub(crate) fn finish(self) -> (Program, Vec<Statement>) {
        let Caller {
            program,
            mut written,
            moved,
            ..
        } = self;
        for statement in written.iter_mut() {
            move_end(statement, &moved);
        }
        (program, written)
    }
}
