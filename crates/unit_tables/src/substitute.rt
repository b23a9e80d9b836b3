//! Other nodes in place of names.

use fortran_tree::{LowerError, Name, Node, Token, copied, leaf};
use indexmap::IndexMap;
use std::alloc::Global;

/// For names the nodes that stand in their place. Several nodes, or none, stand there between brackets.
pub type Replacements = IndexMap<Name, Vec<Node>>;

/// Nodes with others in place of names.
pub fn substituted(
    alloc: Global,
    nodes: &[Node],
    others: &Replacements,
) -> Result<Vec<Node>, LowerError> {
    let mut out = Vec::new(alloc);
    for node in nodes {
        match node {
            Node::Leaf(token, place) => {
                let other = match token {
                    Token::Name(name) => others.get(name),
                    _ => None,
                };
                match other {
                    Some(other) => append(alloc, &mut out, other, node)?,
                    None => out.push(leaf(*token, *place))?,
                }
            }
            Node::Group(inside, place) => out.push(Node::Group(
                substituted(alloc, inside.as_slice(), others)?,
                *place,
            ))?,
        }
    }
    Ok(out)
}

/// Appends what stands in the place of a name.
fn append(
    alloc: Global,
    out: &mut Vec<Node>,
    other: &Vec<Node>,
    name: &Node,
) -> Result<(), LowerError> {
    let mut other = copied(alloc, other)?;
    match other.pop() {
        Some(last) if other.is_empty() => out.push(last)?,
        Some(last) => {
            other.push(last)?;
            out.push(Node::Group(other, name.place()))?;
        }
        None => out.push(Node::Group(other, name.place()))?,
    }
    Ok(())
}
