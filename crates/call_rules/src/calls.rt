//! Statements, with the calls that are made before and after them.

ghost use Rattle.std.specs.Prelude.{◌≡◌, IfOk};
ghost use Rattle.call_rules.specs.Calls.{block_heads, heads, may_call as calls};

use crate::caller::Caller;
use crate::program::Program;
use fortran_tree::{Head, LowerError, Name, Node, Place, Reason, Rule, Statement};
use function_rules::{StatementFunction, element_of_no_array, statement_function};
use std::alloc::Global;
use unit_rules::{is_open_read, read_in_loops, write_items};
use unit_tables::pieces_of;

/// A block IF with a condition around statements.
fn as_block(
    alloc: Global,
    condition: Vec<Node>,
    mut guarded: Vec<Statement>,
    place: Place,
) -> Result<Vec<Statement>, LowerError>
    ensures { IfOk result (λ block. heads block.items ≡ block_heads (heads guarded.items)) }
{
    let mut tested = Vec::new(alloc);
    tested.push(Node::Group(condition, place))?;
    let mut block = Vec::new(alloc);
    block.push(Statement::plain(Head::Then, tested, place))?;
    block.append(&mut guarded)?;
    block.push(Statement::bare(alloc, Head::EndIf, place))?;
    Ok(block)
}

/// Statements that depend on a condition: a logical IF where it is one, and else a block IF.
fn depending(
    alloc: Global,
    condition: Vec<Node>,
    mut guarded: Vec<Statement>,
    place: Place,
) -> Result<Vec<Statement>, LowerError> {
    if guarded.len() != 1 {
        return as_block(alloc, condition, guarded, place);
    }
    if let Some(only) = guarded.first_mut() {
        only.guard = Some(condition);
    }
    Ok(guarded)
}

/// Whether a statement has expressions, which may call functions.
fn may_call(statement: &Statement) -> bool
    ensures { result ≡ calls statement.now }
{
    statement.guard.is_some()
        || matches!(
            statement.head,
            Head::Assign
                | Head::Then
                | Head::ElseIf
                | Head::ArithmeticIf
                | Head::Do
                | Head::GoTo
                | Head::Call
                | Head::Print
                | Head::Read
        )
}

impl Caller {
    /// The body of a CALL, with names as its arguments.
    fn call_body(
        &mut self,
        callee: Name,
        body: &[Node],
        place: Place,
    ) -> Result<Vec<Node>, LowerError> {
        let inside = match body.get(1).and_then(|node| node.inside()) {
            Some(inside) => self.expression(inside)?,
            None => Vec::new(self.program.alloc),
        };
        let arguments = pieces_of(self.program.alloc, &inside)?;
        let actuals = self.actuals(callee, arguments, place)?;
        let Statement { body, .. } = self.program.call(callee, actuals, place)?;
        Ok(body)
    }

    /// The body of a statement, lowered: what comes before it goes to `before`, and what comes after it to `after`.
    fn body(&mut self, head: Head, body: &[Node], place: Place) -> Result<Vec<Node>, LowerError> {
        let name = body.first().and_then(|first| first.name());
        let lowered = match (head, name) {
            (Head::Call, Some(callee)) => self.call_body(callee, body, place)?,
            (Head::Assign, _) if element_of_no_array(&self.symbols, body).is_some() => {
                return Err(place.refused(Reason::NoArray));
            }
            _ => self.expression(body)?,
        };
        if matches!(head, Head::Read) && !self.before.is_empty() {
            return Err(place.refused(Reason::FunctionInRead));
        }
        Ok(lowered)
    }

    /// Appends a statement without a condition, with what has to be done before and after it.
    fn line(
        &mut self,
        mut statement: Statement,
        lines: &mut Vec<Statement>,
    ) -> Result<(), LowerError> {
        statement.body = self.body(statement.head, &statement.body, statement.place)?;
        lines.append(&mut self.before)?;
        lines.push(statement)?;
        lines.append(&mut self.after)?;
        Ok(())
    }

    /// A statement whose items are written out, as several where READ has to be in loops.
    fn parts(&mut self, statement: Statement) -> Result<Vec<Statement>, LowerError> {
        let alloc = self.program.alloc;
        let place = statement.place;
        let mut parts = Vec::new(alloc);
        if is_open_read(alloc, &statement)? {
            parts = read_in_loops(alloc, &self.symbols, &mut self.labels, &statement)?;
        } else {
            write_items(alloc, &self.symbols, statement, &mut parts)?;
        }
        let more = parts.len().saturating_sub(1);
        self.program.growth.add(Rule::Lists, more, place)?;
        Ok(parts)
    }

    /// A statement without a condition, with what has to be done before and after it.
    fn lines(&mut self, statement: Statement) -> Result<Vec<Statement>, LowerError> {
        let mut lines = Vec::new(self.program.alloc);
        for part in self.parts(statement)? {
            self.line(part, &mut lines)?;
        }
        Ok(lines)
    }

    /// A statement with a condition, as a block IF where more than it depends on the condition.
    fn guarded(
        &mut self,
        statement: Statement,
        condition: &[Node],
    ) -> Result<Vec<Statement>, LowerError> {
        let place = statement.place;
        let condition = self.expression(condition)?;
        let mut lines = Vec::new(self.program.alloc);
        lines.append(&mut self.before)?;
        let guarded = self.lines(statement)?;
        let mut depending = depending(self.program.alloc, condition, guarded, place)?;
        lines.append(&mut depending)?;
        Ok(lines)
    }

    /// ELSE IF, as an IF in the ELSE where its condition calls.
    fn else_if(&mut self, mut statement: Statement) -> Result<Vec<Statement>, LowerError> {
        statement.body = self.expression(&statement.body)?;
        let alloc = self.program.alloc;
        let mut lines = Vec::new(alloc);
        if !self.before.is_empty() {
            if let Some(more) = self.blocks.last_mut() {
                *more = more.saturating_add(1);
            }
            self.program
                .growth
                .add(Rule::Functions, 2, statement.place)?;
            lines.push(Statement::bare(alloc, Head::Else, statement.place))?;
            lines.append(&mut self.before)?;
            statement.head = Head::Then;
        }
        lines.push(statement)?;
        Ok(lines)
    }

    /// END IF, with those of the IFs that ELSE IFs became.
    fn end_if(&mut self, statement: Statement) -> Result<(), LowerError> {
        let alloc = self.program.alloc;
        let more = self.blocks.pop().unwrap_or(0);
        for _ in 0..more {
            self.written
                .push(Statement::bare(alloc, Head::EndIf, statement.place))?;
        }
        self.written.push(statement)?;
        Ok(())
    }

    /// Refuses a statement function of which a name is real, or whose value is of another kind.
    fn refuse_kinds(
        &self,
        name: Name,
        dummies: &[Name],
        value: &[Node],
        place: Place,
    ) -> Result<(), LowerError> {
        let kind = self.kind(name);
        if kind.is_none() || dummies.iter().any(|dummy| self.kind(*dummy).is_none()) {
            return Err(place.refused(Reason::RealName));
        }
        if kind != self.kind_of(value) {
            return Err(place.refused(Reason::FunctionKind));
        }
        Ok(())
    }

    /// Keeps a statement function. Those above it that its expression uses are written out in it.
    fn define(
        &mut self,
        name: Name,
        function: StatementFunction,
        place: Place,
    ) -> Result<(), LowerError> {
        let StatementFunction { dummies, value } = function;
        let value = self.expression(&value)?;
        if !self.before.is_empty() {
            return Err(place.refused(Reason::FunctionInside));
        }
        self.refuse_kinds(name, &dummies, &value, place)?;
        let function = StatementFunction { dummies, value };
        self.functions.insert(name, function)?;
        Ok(())
    }

    /// What a statement becomes that may call functions.
    fn executed(&mut self, mut statement: Statement) -> Result<Vec<Statement>, LowerError> {
        if let Some(condition) = statement.guard.take() {
            return self.guarded(statement, &condition);
        }
        match statement.head {
            Head::ElseIf => return self.else_if(statement),
            Head::Then => self.blocks.push(0)?,
            _ => {}
        }
        self.lines(statement)
    }

    /// Lowers the next statement that is no statement function.
    fn take(&mut self, statement: Statement) -> Result<(), LowerError> {
        if matches!(statement.head, Head::EndIf) {
            return self.end_if(statement);
        }
        if !may_call(&statement) {
            self.written.push(statement)?;
            return Ok(());
        }
        let label = statement.label;
        let place = statement.place;
        let lines = self.executed(statement)?;
        self.write(lines, label, place)
    }

    /// Lowers the next statement.
    fn statement(&mut self, statement: Statement) -> Result<(), LowerError> {
        if !self.is_begun {
            let function = statement_function(self.program.alloc, &self.symbols, &statement)?;
            if let Some((name, function)) = function {
                return self.define(name, function, statement.place);
            }
            self.is_begun = statement.head.is_executable();
        }
        self.take(statement)
    }

    /// The program, and these statements of the unit, where each call is a CALL with names as its arguments.
    pub(crate) fn with_calls(
        self,
        statements: Vec<Statement>,
    ) -> Result<(Program, Vec<Statement>), LowerError> {
        let mut caller = self;
        for statement in statements {
            caller.statement(statement)?;
        }
        Ok(caller.finish())
    }
}
