//! Statement functions (ANSI X3.9-1978, 15.4).

ghost use Rattle.std.specs.Prelude.{◌≡◌, true, false, IfOk, IfSome, is_some, vec_len};
ghost use Rattle.indexmap.specs.IndexMap.{get};
ghost use Rattle.fortran_tree.specs.Nodes.{place_of};
ghost use Rattle.fortran_tree.specs.Spellings.{same_name};
ghost use Rattle.fortran_tree.specs.declared.heads.Head.TheVariants.{Assign};

use fortran_tree::{Head, LowerError, Name, Node, Place, Reason, Sign, Statement, copied, is_sign};
use indexmap::IndexMap;
use std::alloc::Global;
use unit_tables::{Replacements, Symbols, pieces_of, substituted};

/// A statement function: its dummies, and the expression that it stands for.
#[derive(Drop)]
pub struct StatementFunction {
    pub dummies: Vec<Name>,
    pub value: Vec<Node>,
}

/// How many tokens a statement has at most: each takes one of the 66 columns of 20 lines.
const MOST_TOKENS: usize = 1320;

/// How many tokens and pairs of brackets there are.
fn size_of(nodes: &[Node]) -> usize {
    let mut size = nodes.len();
    for node in nodes {
        if let Node::Group(inside, _) = node {
            size = size.saturating_add(size_of(inside));
        }
    }
    size
}

impl StatementFunction {
    /// The expression with arguments in place of the dummies.
    pub fn applied(
        &self,
        alloc: Global,
        arguments: Vec<Vec<Node>>,
        place: Place,
    ) -> Result<Node, LowerError>
        ensures place { IfOk result (λ node. place_of node ≡ place) }
        ensures count { IfOk result (λ _. vec_len arguments ≡ vec_len self.now.dummies) }
    {
        if arguments.len() != self.dummies.len() {
            return Err(place.refused(Reason::ArgumentCount));
        }
        let mut others: Replacements = IndexMap::new(alloc);
        let mut dummies = self.dummies.iter();
        for argument in arguments {
            if let Some(dummy) = dummies.next() {
                others.insert(*dummy, argument)?;
            }
        }
        let value = substituted(alloc, &self.value, &others)?;
        if size_of(&value) > MOST_TOKENS {
            return Err(place.refused(Reason::LongFunction));
        }
        Ok(Node::Group(value, place))
    }
}

/// The name and the arguments with which an assignment begins, where the name is no array.
pub fn element_of_no_array<'a>(symbols: &Symbols, body: &'a [Node]) -> Option<(Name, &'a [Node])>
    ensures { IfSome result (λ found. is_some (get same_name symbols.now.arrays found.0) ≡ false) }
{
    let name = body.first()?.name()?;
    let inside = body.get(1)?.inside()?;
    if symbols.is_array(name) {
        None
    } else {
        Some((name, inside))
    }
}

/// The name, the dummies and the value of a statement function, where an assignment is one: its target has arguments and is no array.
pub fn statement_function(
    alloc: Global,
    symbols: &Symbols,
    statement: &Statement,
) -> Result<Option<(Name, StatementFunction)>, LowerError>
    ensures { IfOk result (λ found. is_some found ≡ true → statement.now.head ≡ Assign) }
{
    if !matches!(statement.head, Head::Assign) || statement.guard.is_some() {
        return Ok(None);
    }
    let Some((name, inside)) = element_of_no_array(symbols, &statement.body) else {
        return Ok(None);
    };
    let mut dummies = Vec::new(alloc);
    for piece in pieces_of(alloc, inside)? {
        match piece.first().and_then(|first| first.name()) {
            Some(dummy) if piece.len() == 1 => dummies.push(dummy)?,
            _ => return Ok(None),
        }
    }
    match (statement.body.get(2), statement.body.get(3..)) {
        (Some(equals), Some(value)) if is_sign(equals, Sign::Equals) => {
            let value = copied(alloc, value)?;
            Ok(Some((name, StatementFunction { dummies, value })))
        }
        _ => Ok(None),
    }
}
