//! PARAMETER: names of constants.

ghost use Rattle.std.specs.Prelude.{◌≡◌, IfOk};
ghost use Rattle.unit_rules.specs.Kinds.{HasNo, is_parameter as names_constants};

use fortran_tree::{
    Head, Kind, LowerError, Names, Node, Place, Reason, Sign, Statement, Token, copied, is_sign,
    leaf,
};
use indexmap::IndexMap;
use std::alloc::Global;
use unit_tables::{Replacements, Symbols, joined, pieces_of, signed, substituted, word};

/// Nodes in which each constant expression between commas, colons or the ends is written as its value.
fn evaluated_pieces(alloc: Global, nodes: &[Node]) -> Result<Vec<Node>, LowerError> {
    let mut out = Vec::new(alloc);
    let mut piece: Vec<Node> = Vec::new(alloc);
    for node in nodes {
        if is_sign(node, Sign::Comma) || is_sign(node, Sign::Colon) {
            evaluate_into(alloc, &mut out, &piece)?;
            piece.clear();
            out.push(node.copy(alloc)?)?;
        } else {
            piece.push(node.copy(alloc)?)?;
        }
    }
    evaluate_into(alloc, &mut out, &piece)?;
    Ok(out)
}

/// Appends a piece, as its value where it has one.
fn evaluate_into(alloc: Global, out: &mut Vec<Node>, piece: &Vec<Node>) -> Result<(), LowerError> {
    let Some(first) = piece.first() else {
        return Ok(());
    };
    let mut nodes = match word(alloc, piece.as_slice(), first.place())? {
        Some(value) => signed(alloc, value, first.place())?,
        None => copied(alloc, piece.as_slice())?,
    };
    out.append(&mut nodes)?;
    Ok(())
}

/// Nodes in which the constant expressions between brackets are written as their values.
pub(crate) fn with_values(alloc: Global, nodes: &[Node]) -> Result<Vec<Node>, LowerError> {
    let mut out = Vec::new(alloc);
    for node in nodes {
        match node {
            Node::Leaf(token, place) => out.push(leaf(*token, *place))?,
            Node::Group(inside, place) => {
                let inside = with_values(alloc, inside.as_slice())?;
                out.push(Node::Group(evaluated_pieces(alloc, &inside)?, *place))?;
            }
        }
    }
    Ok(out)
}

/// The values of DATA, where a negative one that had a name stands without brackets.
fn without_brackets(alloc: Global, nodes: Vec<Node>) -> Result<Vec<Node>, LowerError> {
    let mut out: Vec<Node> = Vec::new(alloc);
    for node in nodes {
        let is_after_name = match out.last() {
            Some(last) => last.name().is_some(),
            None => true,
        };
        match node {
            Node::Group(mut inside, place) => {
                let is_value = inside.len() == 2
                    && inside
                        .first()
                        .is_some_and(|first| is_sign(first, Sign::Minus));
                if is_value && !is_after_name {
                    out.append(&mut inside)?;
                } else {
                    out.push(Node::Group(inside, place))?;
                }
            }
            Node::Leaf(token, place) => out.push(Node::Leaf(token, place))?,
        }
    }
    Ok(out)
}

/// The constant that an expression is for a name of this kind.
fn constant_of(
    alloc: Global,
    kind: Option<Kind>,
    value: Vec<Node>,
    place: Place,
) -> Result<Vec<Node>, LowerError> {
    let is_truth = value.len() == 1
        && matches!(value.first(), Some(Node::Leaf(Token::Truth(_), _)));
    match kind {
        None => Err(place.refused(Reason::RealName)),
        Some(Kind::Logical) if is_truth => Ok(value),
        Some(Kind::Integer) if !is_truth => match word(alloc, &value, place)? {
            Some(value) => signed(alloc, value, place),
            None => Err(place.refused(Reason::NotConstant)),
        },
        Some(_) => Err(place.refused(Reason::ConstantKind)),
    }
}

/// Keeps the constants that a PARAMETER names (ANSI X3.9-1978, 8.6).
fn define(
    alloc: Global,
    names: &Names,
    symbols: &Symbols,
    constants: &mut Replacements,
    statement: &Statement,
) -> Result<(), LowerError> {
    let not_understood = statement.place.refused(Reason::NotUnderstood);
    let (Some(inside), 1) = (
        statement.body.first().and_then(|first| first.inside()),
        statement.body.len(),
    ) else {
        return Err(not_understood);
    };
    for piece in pieces_of(alloc, inside)? {
        let (Some(first), Some(equals), Some(value)) = (piece.first(), piece.get(1), piece.get(2..))
        else {
            return Err(not_understood);
        };
        let (Some(name), true) = (first.name(), is_sign(equals, Sign::Equals)) else {
            return Err(not_understood);
        };
        let value = substituted(alloc, value, constants)?;
        let constant = constant_of(alloc, symbols.kind(names, name), value, first.place())?;
        if constants.insert(name, constant)?.is_some() {
            return Err(first.place().refused(Reason::ConstantTwice));
        }
    }
    Ok(())
}

/// The names of a type statement that are no constants.
fn without_constants(
    alloc: Global,
    body: &[Node],
    constants: &Replacements,
    place: Place,
) -> Result<Vec<Node>, LowerError> {
    let mut kept = Vec::new(alloc);
    for piece in pieces_of(alloc, body)? {
        let is_constant = match piece.first().and_then(|first| first.name()) {
            Some(name) if piece.len() == 1 => constants.get(&name).is_some(),
            _ => false,
        };
        if !is_constant {
            kept.push(piece)?;
        }
    }
    joined(alloc, kept, place)
}

/// Where a constant stands before an equals sign.
fn given_constant(nodes: &[Node], constants: &Replacements) -> Option<Place> {
    let mut last = None;
    for node in nodes {
        if is_sign(node, Sign::Equals) && last.is_some() {
            return last;
        }
        last = match node.name() {
            Some(name) if constants.get(&name).is_some() => Some(node.place()),
            _ => None,
        };
        if let Node::Group(inside, _) = node {
            let given = given_constant(inside, constants);
            if given.is_some() {
                return given;
            }
        }
    }
    None
}

/// Refuses a statement that would give a constant a value.
fn refuse_given(head: Head, body: &[Node], constants: &Replacements) -> Result<(), LowerError> {
    if let Some(place) = given_constant(body, constants) {
        return Err(place.refused(Reason::ConstantGiven));
    }
    if matches!(head, Head::Read) {
        for node in body {
            match node.name() {
                Some(name) if constants.get(&name).is_some() => {
                    return Err(node.place().refused(Reason::ConstantGiven));
                }
                _ => {}
            }
        }
    }
    Ok(())
}

/// The body of a statement with constants in place of their names, and constant expressions of declarations and DATA as their values.
fn rewritten_body(
    alloc: Global,
    head: Head,
    body: &[Node],
    constants: &Replacements,
) -> Result<Vec<Node>, LowerError> {
    let body = substituted(alloc, body, constants)?;
    match head {
        Head::Declare(_) | Head::Dimension | Head::Common | Head::Equivalence => with_values(
            alloc, &body,
        ),
        Head::Data => without_brackets(alloc, with_values(alloc, &body)?),
        _ => Ok(body),
    }
}

/// A statement with constants in place of their names. The names of IMPLICIT are letters.
fn rewritten(
    alloc: Global,
    statement: Statement,
    constants: &Replacements,
) -> Result<Statement, LowerError>
    ensures { IfOk result (λ rewritten. rewritten.head ≡ statement.head) }
{
    if matches!(statement.head, Head::Implicit) {
        return Ok(statement);
    }
    refuse_given(statement.head, &statement.body, constants)?;
    let Statement {
        label,
        place,
        guard,
        head,
        body,
    } = statement;
    let body = match head {
        Head::Declare(_) => without_constants(alloc, &body, constants, place)?,
        _ => body,
    };
    let body = rewritten_body(alloc, head, &body, constants)?;
    let guard = match guard {
        Some(condition) => Some(substituted(alloc, &condition, constants)?),
        None => None,
    };
    Ok(Statement {
        label,
        place,
        guard,
        head,
        body,
    })
}

/// Whether it names constants.
fn is_parameter(head: Head) -> bool
    ensures { result ≡ names_constants head }
{
    matches!(head, Head::Parameter)
}

/// The constants that the PARAMETERs among these statements name.
fn constants_of(
    alloc: Global,
    names: &Names,
    statements: &[Statement],
) -> Result<Replacements, LowerError> {
    let symbols = Symbols::of(alloc, names, statements)?;
    let mut constants: Replacements = IndexMap::new(alloc);
    for statement in statements {
        if is_parameter(statement.head) {
            define(alloc, names, &symbols, &mut constants, statement)?;
        }
    }
    Ok(constants)
}

/// The same statements without PARAMETER, and with constants in place of their names.
pub fn with_constants(
    alloc: Global,
    names: &Names,
    statements: Vec<Statement>,
) -> Result<Vec<Statement>, LowerError>
    ensures { IfOk result (λ kept. HasNo names_constants kept.items) }
{
    let constants = constants_of(alloc, names, &statements)?;
    let mut kept = Vec::new(alloc);
    for statement in statements {
        if is_parameter(statement.head) {
            continue;
        }
        let is_type = matches!(statement.head, Head::Declare(_));
        let statement = rewritten(alloc, statement, &constants)?;
        if !is_type || !statement.body.is_empty() {
            kept.push(statement)?;
        }
    }
    Ok(kept)
}
