//! Lists of nodes, cut at signs and put together.

ghost use Rattle.std.specs.Prelude.{◌≡◌, [], ◌∷◌, ◌++◌, map, None, IfOk};
ghost use Rattle.fortran_tree.specs.Nodes.{marks, Mark};
ghost use Rattle.fortran_tree.specs.declared.heads.Head.TheVariants.{Assign};
ghost use Rattle.fortran_tree.specs.declared.signs.Sign.TheVariants.{Equals};
ghost use Rattle.fortran_tree.specs.declared.tokens.Node.TheVariants.{Leaf};
ghost use Rattle.fortran_tree.specs.declared.tokens.Token.TheVariants.{Name as NameToken, Number as NumberToken, Sign as SignToken};
ghost use Rattle.unit_tables.specs.Pieces.{with_commas};

use fortran_tree::{
    Head, LowerError, Name, Node, Place, Sign, Statement, Token, copied, is_sign, leaf,
};
use std::alloc::Global;

/// What stands between commas. Nothing is no piece.
pub fn pieces_of(alloc: Global, nodes: &[Node]) -> Result<Vec<Vec<Node>>, LowerError> {
    let mut pieces = Vec::new(alloc);
    if nodes.is_empty() {
        return Ok(pieces);
    }
    for piece in nodes.split(|node| is_sign(node, Sign::Comma)) {
        pieces.push(copied(alloc, piece)?)?;
    }
    Ok(pieces)
}

/// Pieces with commas between them.
pub fn joined(alloc: Global, pieces: Vec<Vec<Node>>, place: Place) -> Result<Vec<Node>, LowerError>
    ensures { IfOk result (λ nodes. nodes.items ≡ with_commas place (map (λ piece. piece.items) pieces.items)) }
{
    let mut pieces = pieces.into_iter();
    let mut nodes = pieces.next().unwrap_or(Vec::new(alloc));
    for mut piece in pieces {
        nodes.push(leaf(Token::Sign(Sign::Comma), place))?;
        nodes.append(&mut piece)?;
    }
    Ok(nodes)
}

/// A list of one name.
pub fn name_alone(alloc: Global, name: Name, place: Place) -> Result<Vec<Node>, LowerError>
    ensures { IfOk result (λ nodes. nodes.items ≡ Leaf (NameToken name) place ∷ []) }
{
    let mut nodes = Vec::new(alloc);
    nodes.push(leaf(Token::Name(name), place))?;
    Ok(nodes)
}

/// A list of one number.
pub fn number_alone(alloc: Global, number: u32, place: Place) -> Result<Vec<Node>, LowerError>
    ensures { IfOk result (λ nodes. nodes.items ≡ Leaf (NumberToken number) place ∷ []) }
{
    let mut nodes = Vec::new(alloc);
    nodes.push(leaf(Token::Number(number), place))?;
    Ok(nodes)
}

/// The statement `target = value`.
pub fn assignment(
    alloc: Global,
    target: &[Node],
    value: &[Node],
    place: Place,
) -> Result<Statement, LowerError>
    ensures body { IfOk result (λ s. map marks s.body.items ≡ map marks target.now ++ (Mark.of_token (SignToken Equals) place ∷ []) ∷ map marks value.now) }
    ensures whole { IfOk result (λ s. s ≡ record { label = 0; place = place; guard = None; head = Assign; body = s.body }) }
{
    let mut body = copied(alloc, target)?;
    body.push(leaf(Token::Sign(Sign::Equals), place))?;
    body.append(&mut copied(alloc, value)?)?;
    Ok(Statement::plain(Head::Assign, body, place))
}
