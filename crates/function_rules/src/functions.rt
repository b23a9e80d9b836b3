//! FUNCTION as SUBROUTINE.

ghost use Rattle.std.specs.Prelude.{◌≡◌, false, IfOk, OnOk};
ghost use Rattle.fortran_tree.specs.declared.heads.Head.TheVariants.{Subroutine};
ghost use Rattle.function_rules.specs.Functions.{HasNoFunction, is_type as declares};

use crate::signatures::Signatures;
use fortran_tree::{
    Head, Kind, LowerError, Name, Names, Node, Reason, Sign, Statement, Token, leaf,
};
use indexmap::{IndexMap, IndexSet};
use std::alloc::Global;
use unit_tables::{Replacements, Symbols, Unit, joined, name_alone, pieces_of, substituted};

/// A statement with other nodes in place of names. The names of IMPLICIT are letters.
fn renamed(
    alloc: Global,
    statement: Statement,
    others: &Replacements,
) -> Result<Statement, LowerError>
    ensures { IfOk result (λ renamed. renamed.head ≡ statement.head) }
{
    if matches!(statement.head, Head::Implicit) {
        return Ok(statement);
    }
    let Statement {
        label,
        place,
        guard,
        head,
        body,
    } = statement;
    let guard = match guard {
        Some(condition) => Some(substituted(alloc, &condition, others)?),
        None => None,
    };
    Ok(Statement {
        label,
        place,
        guard,
        head,
        body: substituted(alloc, &body, others)?,
    })
}

/// Adds the names that stand before brackets.
fn add_called(nodes: &[Node], called: &mut IndexSet<Name>) -> Result<(), LowerError> {
    let mut last = None;
    for node in nodes {
        if let Node::Group(inside, _) = node {
            if let Some(name) = last {
                called.insert(name)?;
            }
            add_called(inside, called)?;
        }
        last = node.name();
    }
    Ok(())
}

/// Adds the names that stand before brackets in an executable statement: those of arrays and of functions.
fn note_called(statement: &Statement, called: &mut IndexSet<Name>) -> Result<(), LowerError> {
    if !statement.head.is_executable() {
        return Ok(());
    }
    if let Some(condition) = &statement.guard {
        add_called(condition, called)?;
    }
    add_called(&statement.body, called)
}

/// The names that stand before brackets in executable statements.
pub fn called_names(alloc: Global, statements: &[Statement]) -> Result<IndexSet<Name>, LowerError> {
    let mut called = IndexSet::new(alloc);
    for statement in statements {
        note_called(statement, &mut called)?;
    }
    Ok(called)
}

/// Refuses a statement that calls the function in which it stands.
fn refuse_own_call(
    alloc: Global,
    statement: &Statement,
    own: Option<Name>,
) -> Result<(), LowerError> {
    let mut called = IndexSet::new(alloc);
    note_called(statement, &mut called)?;
    match own {
        Some(name) if called.contains(&name) => Err(statement.place.refused(Reason::CallsItself)),
        _ => Ok(()),
    }
}

/// SUBROUTINE in place of FUNCTION, with one dummy more for the value.
fn subroutine_head(alloc: Global, first: Statement, value: Name) -> Result<Statement, LowerError>
    ensures { IfOk result (λ renewed. renewed.head ≡ Subroutine) }
{
    let place = first.place;
    let Statement { body, .. } = first;
    let mut renewed = Vec::new(alloc);
    let mut dummies = Vec::new(alloc);
    for node in body {
        match node {
            Node::Group(inside, _) => dummies = inside,
            Node::Leaf(token, place) => renewed.push(leaf(token, place))?,
        }
    }
    if !dummies.is_empty() {
        dummies.push(leaf(Token::Sign(Sign::Comma), place))?;
    }
    dummies.push(leaf(Token::Name(value), place))?;
    renewed.push(Node::Group(dummies, place))?;
    Ok(Statement::plain(Head::Subroutine, renewed, place))
}

/// A function that becomes a subroutine.
#[derive(Drop)]
struct FunctionUnit {
    name: Option<Name>,
    /// The dummy that takes the value.
    value: Name,
    /// The kind of the value, where no type statement gives it.
    kind: Option<Kind>,
    /// The dummy in place of the function's name.
    others: Replacements,
    written: Vec<Statement>,
}

impl FunctionUnit {
    /// Writes the first statement, and what declares the value.
    fn begin(&mut self, alloc: Global, first: Statement) -> Result<(), LowerError>
        requires { HasNoFunction self.old.written.items }
        ensures { OnOk result (HasNoFunction self.new.written.items) }
    {
        let place = first.place;
        self.written
            .push(subroutine_head(alloc, first, self.value)?)?;
        let Some(name) = self.name else {
            return Ok(());
        };
        self.others
            .insert(name, name_alone(alloc, self.value, place)?)?;
        if let Some(kind) = self.kind {
            let value = name_alone(alloc, self.value, place)?;
            self.written
                .push(Statement::plain(Head::Declare(kind), value, place))?;
        }
        Ok(())
    }

    /// Writes the next statement.
    fn take(&mut self, alloc: Global, statement: Statement) -> Result<(), LowerError>
        requires { HasNoFunction self.old.written.items }
        ensures { OnOk result (HasNoFunction self.new.written.items) }
    {
        if matches!(statement.head, Head::Function(_)) {
            return self.begin(alloc, statement);
        }
        refuse_own_call(alloc, &statement, self.name)?;
        self.written.push(renamed(alloc, statement, &self.others)?)?;
        Ok(())
    }
}

/// The kind of a function that has to be said in a type statement of its own: none where one of these statements gives it.
fn undeclared_kind(
    alloc: Global,
    names: &Names,
    statements: &[Statement],
    name: Option<Name>,
    kind: Kind,
) -> Result<Option<Kind>, LowerError> {
    let symbols = Symbols::of(alloc, names, statements)?;
    match name {
        Some(name) if symbols.is_declared(name) => Ok(None),
        _ => Ok(Some(kind)),
    }
}

/// A function as a subroutine that gives its value to the last dummy, `value`.
pub fn as_subroutine(
    alloc: Global,
    names: &Names,
    unit: Unit,
    value: Name,
    kind: Kind,
) -> Result<Unit, LowerError>
    ensures { IfOk result (λ subroutine. HasNoFunction subroutine.statements.items) }
{
    let Unit { statements } = unit;
    let name = statements.first().and_then(|first| first.first_name());
    let mut function = FunctionUnit {
        name,
        value,
        kind: undeclared_kind(alloc, names, &statements, name, kind)?,
        others: IndexMap::new(alloc),
        written: Vec::new(alloc),
    };
    for statement in statements {
        function.take(alloc, statement)?;
    }
    let FunctionUnit { written, .. } = function;
    Ok(Unit {
        statements: written,
    })
}

/// Whether a name of a type statement stands there alone and is that of a function, which the unit calls. `called` has the names that stand
/// before brackets in the unit.
fn is_typed_function(
    signatures: &Signatures,
    symbols: &Symbols,
    called: &IndexSet<Name>,
    piece: &[Node],
) -> bool {
    match piece.first().and_then(|first| first.name()) {
        Some(name) if piece.len() == 1 => {
            called.contains(&name)
                && !symbols.is_array(name)
                && signatures
                    .get(&name)
                    .is_some_and(|signature| signature.kind.is_some())
        }
        _ => false,
    }
}

/// A type statement without the functions that it gives their kinds. `called` has the names that stand before brackets in the unit.
pub fn without_functions(
    alloc: Global,
    statement: Statement,
    signatures: &Signatures,
    symbols: &Symbols,
    called: &IndexSet<Name>,
) -> Result<Statement, LowerError>
    ensures head { IfOk result (λ kept. kept.head ≡ statement.head) }
    ensures other { IfOk result (λ kept. declares statement.head ≡ false → kept ≡ statement) }
{
    if !matches!(statement.head, Head::Declare(_)) {
        return Ok(statement);
    }
    let place = statement.place;
    let head = statement.head;
    let mut kept = Vec::new(alloc);
    for piece in pieces_of(alloc, &statement.body)? {
        if !is_typed_function(signatures, symbols, called, &piece) {
            kept.push(piece)?;
        }
    }
    Ok(Statement::plain(head, joined(alloc, kept, place)?, place))
}
