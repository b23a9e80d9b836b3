//! Tokens with their brackets.

ghost use Rattle.std.specs.Prelude.{◌≡◌, ◌↔◌, ◌∷◌, ◌++◌, [], map, Some, IfOk, IfSome, IsSome, IsTrue};
ghost use Rattle.fortran_tree.specs.declared.tokens.Node.TheVariants.{Leaf};
ghost use Rattle.fortran_tree.specs.Nodes.{AreCopies, Mark, is_group, joined, marks, name_of, number_of, place_of, sign_of};

use crate::{LowerError, Name, Place, Sign};
use std::alloc::Global;

/// A token that is no bracket.
#[derive(Clone, Copy)]
pub enum Token {
    Name(Name),
    /// A constant, from 0 to 2147483647.
    Number(u32),
    /// A character constant, by the number under which `Names` keeps it.
    Text(usize),
    /// `.TRUE.` or `.FALSE.`
    Truth(bool),
    Sign(Sign),
}

/// A token, or what stands between two brackets, with the place of the token or of the opening bracket.
#[derive(Drop)]
pub enum Node {
    Leaf(Token, Place),
    Group(Vec<Node>, Place),
}

impl Node {
    /// Where it begins.
    pub fn place(&self) -> Place
        ensures { result ≡ place_of self.now }
    {
        match self {
            Node::Leaf(_, place) => *place,
            Node::Group(_, place) => *place,
        }
    }

    /// The name that it is.
    pub fn name(&self) -> Option<Name>
        ensures { result ≡ name_of self.now }
    {
        match self {
            Node::Leaf(Token::Name(name), _) => Some(*name),
            _ => None,
        }
    }

    /// The number that it is.
    pub fn number(&self) -> Option<u32>
        ensures { result ≡ number_of self.now }
    {
        match self {
            Node::Leaf(Token::Number(number), _) => Some(*number),
            _ => None,
        }
    }

    /// A second node like this one.
    #[cycle(copies)]
    pub fn copy(&self, alloc: Global) -> Result<Node, LowerError>
        ensures { IfOk result (λ copy. marks self.now ≡ marks copy) }
    {
        match self {
            Node::Leaf(token, place) => Ok(Node::Leaf(*token, *place)),
            Node::Group(inside, place) => {
                let inside = copied(alloc, inside.as_slice())?;
                Ok(Node::Group(inside, *place))
            }
        }
    }

    /// What stands between the brackets that it is.
    pub fn inside(&self) -> Option<&[Node]>
        ensures some { IsSome result ↔ IsTrue (is_group self.now) }
        ensures inside { IfSome result (λ inside. marks self.now ≡ Mark.opening (place_of self.now) ∷ (joined (map marks inside.now) ++ Mark.closing ∷ [])) }
    {
        match self {
            Node::Group(inside, _) => Some(inside.as_slice()),
            _ => None,
        }
    }
}

/// A token as a node.
pub fn leaf(token: Token, place: Place) -> Node
    ensures { result ≡ Leaf token place }
{
    Node::Leaf(token, place)
}

/// Whether a node is this sign.
pub fn is_sign(node: &Node, sign: Sign) -> bool
    ensures { IsTrue result ↔ (sign_of node.now ≡ Some sign) }
{
    match node {
        Node::Leaf(Token::Sign(found), _) => *found == sign,
        _ => false,
    }
}

/// A second list of the same nodes.
#[cycle(copies)]
pub fn copied(alloc: Global, nodes: &[Node]) -> Result<Vec<Node>, LowerError>
    ensures { IfOk result (λ copies. AreCopies nodes.now copies.items) }
{
    let mut copies = Vec::new(alloc);
    for node in nodes {
        copies.push(node.copy(alloc)?)?;
    }
    Ok(copies)
}
