//! DO with END DO, and DO WHILE.

use fortran_tree::{Head, LowerError, Node, Place, Reason, Sign, Statement, Token, copied, leaf};
use std::alloc::Global;
use unit_tables::{Labels, number_alone};

/// A loop whose end is still to come.
#[derive(Clone, Copy)]
struct OpenLoop {
    /// The number of its DO among the statements that are written.
    number: usize,
    /// The label of its end, 0 for an END DO that says it.
    end: u32,
    /// Of a DO WHILE the label of its test and the one after its end.
    around: Option<(u32, u32)>,
    place: Place,
}

/// The statements that are written.
#[derive(Drop)]
struct Writer {
    alloc: Global,
    labels: Labels,
    open: Vec<OpenLoop>,
    written: Vec<Statement>,
}

impl Writer {
    /// Writes a statement without a body.
    fn write(&mut self, head: Head, label: u32, place: Place) -> Result<(), LowerError> {
        self.written
            .push(Statement::bare(self.alloc, head, place).labelled(label))?;
        Ok(())
    }

    /// Writes GO TO.
    fn jump(&mut self, label: u32, target: u32, place: Place) -> Result<(), LowerError> {
        let body = number_alone(self.alloc, target, place)?;
        self.written
            .push(Statement::plain(Head::GoTo, body, place).labelled(label))?;
        Ok(())
    }

    /// Writes the end of a DO WHILE, whose own label may be here.
    fn close(&mut self, label: u32, around: (u32, u32), place: Place) -> Result<(), LowerError> {
        self.jump(label, around.0, place)?;
        self.write(Head::Continue, around.1, place)
    }

    /// DO: a loop is open.
    fn begin(&mut self, statement: Statement) -> Result<(), LowerError> {
        self.open.push(OpenLoop {
            number: self.written.len(),
            end: statement.first_number().unwrap_or(0),
            around: None,
            place: statement.place,
        })?;
        self.written.push(statement)?;
        Ok(())
    }

    /// DO WHILE: the test, with a label of its own.
    fn test(&mut self, statement: Statement) -> Result<(), LowerError> {
        let place = statement.place;
        let again = match statement.label {
            0 => self.labels.fresh(place)?,
            label => label,
        };
        let past = self.labels.fresh(place)?;
        self.open.push(OpenLoop {
            number: self.written.len(),
            end: statement.first_number().unwrap_or(0),
            around: Some((again, past)),
            place,
        })?;
        let mut condition = Vec::new(self.alloc);
        condition.push(leaf(Token::Sign(Sign::Not), place))?;
        for node in &statement.body {
            if let Some(inside) = node.inside() {
                condition.push(Node::Group(copied(self.alloc, inside)?, place))?;
            }
        }
        let mut jump = Statement::plain(Head::GoTo, number_alone(self.alloc, past, place)?, place);
        jump.guard = Some(condition);
        self.written.push(jump.labelled(again))?;
        Ok(())
    }

    /// END DO: the end of the loop that was opened last.
    fn end(&mut self, label: u32, place: Place) -> Result<(), LowerError> {
        let Some(innermost) = self.open.pop() else {
            return Err(place.refused(Reason::StrayEndDo));
        };
        if innermost.end != 0 && innermost.end != label {
            return Err(place.refused(Reason::OtherEnd));
        }
        if let Some(around) = innermost.around {
            self.close(label, around, place)?;
            return self.refuse_shared(label, place);
        }
        if innermost.end != 0 {
            self.write(Head::Continue, innermost.end, place)?;
            return self.after_label(label, place);
        }
        let end = match label {
            0 => self.labels.fresh(place)?,
            label => label,
        };
        if let Some(opened) = self.written.get_mut(innermost.number) {
            opened
                .body
                .insert(0, leaf(Token::Number(end), innermost.place))?;
        }
        self.write(Head::Continue, end, place)
    }

    /// Refuses a loop that ends where a DO WHILE inside of it did: its end would stand inside of the DO WHILE.
    fn refuse_shared(&self, label: u32, place: Place) -> Result<(), LowerError> {
        match self.open.last() {
            Some(around) if label != 0 && around.end == label => {
                Err(place.refused(Reason::SharedEnd))
            }
            _ => Ok(()),
        }
    }

    /// Closes the loops that end at a statement with this label.
    fn after_label(&mut self, label: u32, place: Place) -> Result<(), LowerError> {
        for _ in 0..self.open.len() {
            match self.open.last() {
                Some(innermost) if label != 0 && innermost.end == label => {
                    let around = innermost.around;
                    self.open.pop();
                    if let Some(around) = around {
                        self.close(0, around, place)?;
                        self.refuse_shared(label, place)?;
                    }
                }
                _ => return Ok(()),
            }
        }
        Ok(())
    }

    /// Writes the next statement.
    fn take(&mut self, statement: Statement) -> Result<(), LowerError> {
        match statement.head {
            Head::Do => self.begin(statement),
            Head::DoWhile => self.test(statement),
            Head::EndDo => self.end(statement.label, statement.place),
            _ => {
                let label = statement.label;
                let place = statement.place;
                self.written.push(statement)?;
                self.after_label(label, place)
            }
        }
    }
}

/// The same statements, where each DO ends at a label and no DO is a DO WHILE.
pub fn with_labelled_loops(
    alloc: Global,
    statements: Vec<Statement>,
) -> Result<Vec<Statement>, LowerError> {
    let labels = Labels::of(alloc, statements.as_slice())?;
    let mut writer = Writer {
        alloc,
        labels,
        open: Vec::new(alloc),
        written: Vec::new(alloc),
    };
    for statement in statements {
        writer.take(statement)?;
    }
    for open in &writer.open {
        if open.end == 0 || open.around.is_some() {
            return Err(open.place.refused(Reason::OpenDo));
        }
    }
    let Writer { written, .. } = writer;
    Ok(written)
}
