//! The order of the statements of a unit, and the statements that say what is so here anyway.

ghost use Rattle.std.specs.Prelude.{◌≡◌, IfOk};
ghost use Rattle.unit_rules.specs.Kinds.{HasNo, is_needless as says_nothing};

use fortran_tree::{Head, LowerError, Node, Reason, Sign, Statement, is_sign};
use std::alloc::Global;

/// Where statements stand in a unit, from its head down (ANSI X3.9-1978, 3.5).
#[derive(Clone, Copy, PartialEq, Eq)]
enum Rank {
    Head,
    Implicit,
    Declaration,
    Data,
    Action,
}

/// Where statements of a kind stand.
fn rank_of(head: Head) -> Rank {
    match head {
        _ if head.begins_unit() => Rank::Head,
        Head::ImplicitNone | Head::Implicit => Rank::Implicit,
        Head::Data => Rank::Data,
        _ if head.is_declaration() => Rank::Declaration,
        _ => Rank::Action,
    }
}

/// Whether the language of `dfc` has no need of the statement: all variables are kept, and a name that is called is a unit's.
fn is_needless(head: Head) -> bool
    ensures { result ≡ says_nothing head }
{
    matches!(head, Head::Save | Head::External | Head::Intrinsic)
}

/// IMPLICIT without the lengths of its types, which are all 4.
fn without_lengths(alloc: Global, statement: Statement) -> Result<Statement, LowerError>
    ensures { IfOk result (λ implicit. implicit.head ≡ statement.head) }
{
    let mut body = Vec::new(alloc);
    let mut is_length = false;
    let place = statement.place;
    let Statement {
        body: nodes,
        label: _,
        place: _,
        guard: _,
        head,
    } = statement;
    for node in nodes {
        if is_sign(&node, Sign::Times) {
            is_length = true;
        } else if !is_length {
            body.push(node)?;
        } else if node.number() == Some(4) {
            is_length = false;
        } else {
            return Err(node.place().refused(Reason::Length));
        }
    }
    Ok(Statement::plain(head, body, place))
}

/// Refuses a declaration below an executable statement or a statement function, and IMPLICIT below other declarations than PARAMETER
/// (ANSI X3.9-1978, 3.5).
pub fn refuse_late_declarations(statements: &[Statement]) -> Result<(), LowerError> {
    let mut is_declared = false;
    let mut is_begun = false;
    for statement in statements {
        let rank = rank_of(statement.head);
        let is_late = match rank {
            Rank::Implicit => is_declared || is_begun,
            Rank::Declaration => is_begun,
            _ => false,
        };
        if is_late {
            return Err(statement.place.refused(Reason::LateDeclaration));
        }
        is_begun = is_begun || rank == Rank::Action;
        is_declared = is_declared
            || rank == Rank::Declaration && !matches!(statement.head, Head::Parameter);
    }
    Ok(())
}

/// A SUBROUTINE without the brackets that hold no dummy.
fn without_empty_brackets(body: &mut Vec<Node>) {
    let is_empty = body
        .last()
        .and_then(|last| last.inside())
        .is_some_and(|inside| inside.is_empty());
    if is_empty {
        body.pop();
    }
}

/// IMPLICIT without lengths, STOP without its text, and SUBROUTINE without the brackets that hold no dummy.
fn shortened(alloc: Global, statement: Statement) -> Result<Statement, LowerError>
    ensures { IfOk result (λ shorter. shorter.head ≡ statement.head) }
{
    if matches!(statement.head, Head::Implicit) {
        return without_lengths(alloc, statement);
    }
    let mut statement = statement;
    match statement.head {
        Head::Stop if statement.first_number().is_none() => statement.body.clear(),
        Head::Subroutine => without_empty_brackets(&mut statement.body),
        _ => {}
    }
    Ok(statement)
}

/// The statements of a unit in the order of the standard, without those that have no need to be said, and STOP without its text.
pub fn in_order(alloc: Global, statements: Vec<Statement>) -> Result<Vec<Statement>, LowerError>
    ensures { IfOk result (λ ordered. HasNo says_nothing ordered.items) }
{
    let mut ordered: Vec<Statement> = Vec::new(alloc);
    for statement in statements {
        if is_needless(statement.head) {
            continue;
        }
        let statement = shortened(alloc, statement)?;
        ordered.push(statement)?;
    }
    ordered.sort_by_key(|statement| rank_of(statement.head) as u8)?;
    Ok(ordered)
}
