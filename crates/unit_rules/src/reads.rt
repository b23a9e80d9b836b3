//! READ with an implied DO whose parameters are not constants: a DO loop.

ghost use Rattle.std.specs.Prelude.{◌≡◌, IfOk, IsTrue};
ghost use Rattle.fortran_tree.specs.declared.heads.Head.TheVariants.{Read};

use crate::implied_do::{ImpliedDo, implied_do};
use crate::lists::write_items;
use fortran_tree::{Head, LowerError, Node, Place, Reason, Sign, Statement, copied, is_sign};
use std::alloc::Global;
use std::slice::from_ref;
use unit_tables::{Labels, Symbols, joined, number_alone};

/// Whether an implied DO of a list, or one inside of it, has a parameter that is not a constant.
fn is_open(alloc: Global, nodes: &[Node], place: Place) -> Result<bool, LowerError> {
    for node in nodes {
        if let Node::Group(inside, _) = node {
            if let Some(found) = implied_do(alloc, inside)? {
                if found.is_open(alloc, place)? || is_open(alloc, inside, place)? {
                    return Ok(true);
                }
            }
        }
    }
    Ok(false)
}

/// Whether a READ has an implied DO with a parameter that is not a constant.
pub fn is_open_read(alloc: Global, statement: &Statement) -> Result<bool, LowerError>
    ensures { IfOk result (λ is_open. IsTrue is_open → statement.now.head ≡ Read) }
{
    Ok(matches!(statement.head, Head::Read) && is_open(alloc, &statement.body, statement.place)?)
}

/// The items of a list, without the control of the implied DO that it stands in.
fn items_of(nodes: &[Node]) -> &[Node] {
    match nodes.iter().position(|node| is_sign(node, Sign::Equals)) {
        Some(equals) => nodes.get(..equals.saturating_sub(2)).unwrap_or(nodes),
        None => nodes,
    }
}

/// The lines that a READ becomes.
#[derive(Drop)]
struct Reader<'a> {
    alloc: Global,
    symbols: &'a Symbols,
    place: Place,
    lines: Vec<Statement>,
}

impl<'a> Reader<'a> {
    /// READ of items of which no implied DO is open, if there are any.
    fn read(&mut self, items: &[Node]) -> Result<(), LowerError> {
        if items.is_empty() {
            return Ok(());
        }
        let body = copied(self.alloc, items)?;
        let read = Statement::plain(Head::Read, body, self.place);
        write_items(self.alloc, self.symbols, read, &mut self.lines)
    }

    /// DO, with the control of an implied DO.
    fn begin_loop(&mut self, label: u32, inside: &[Node]) -> Result<(), LowerError> {
        let Some(found) = implied_do(self.alloc, inside)? else {
            return Err(self.place.refused(Reason::NotUnderstood));
        };
        let ImpliedDo { items: _, control } = found;
        let mut body = number_alone(self.alloc, label, self.place)?;
        body.append(&mut joined(self.alloc, control, self.place)?)?;
        self.lines
            .push(Statement::plain(Head::Do, body, self.place))?;
        Ok(())
    }

    /// The end of a DO.
    fn end_loop(&mut self, label: u32) -> Result<(), LowerError> {
        let end = Statement::bare(self.alloc, Head::Continue, self.place);
        self.lines.push(end.labelled(label))?;
        Ok(())
    }

    /// READ of the items of a list, of each by itself where an implied DO is open. Such an implied DO becomes a DO loop.
    fn list(&mut self, labels: &mut Labels, nodes: &[Node]) -> Result<(), LowerError> {
        if !is_open(self.alloc, nodes, self.place)? {
            return self.read(items_of(nodes));
        }
        let mut piece: Vec<Node> = Vec::new(self.alloc);
        for node in nodes {
            if is_sign(node, Sign::Equals) {
                return Ok(());
            }
            if is_sign(node, Sign::Comma) {
                let whole = std::mem::replace(&mut piece, Vec::new(self.alloc));
                self.read(&whole)?;
                continue;
            }
            let opens = piece.is_empty() && is_open(self.alloc, from_ref(node), self.place)?;
            match node {
                Node::Group(inside, _) if opens => {
                    let label = labels.fresh(self.place)?;
                    self.begin_loop(label, inside)?;
                    self.list(labels, inside)?;
                    self.end_loop(label)?;
                }
                _ => piece.push(node.copy(self.alloc)?)?,
            }
        }
        self.read(&piece)
    }
}

/// A READ as one READ for each of its items, in a DO loop where the item is an implied DO. The next numbers of the input are taken in the
/// same order.
pub fn read_in_loops(
    alloc: Global,
    symbols: &Symbols,
    labels: &mut Labels,
    statement: &Statement,
) -> Result<Vec<Statement>, LowerError> {
    let mut reader = Reader {
        alloc,
        symbols,
        place: statement.place,
        lines: Vec::new(alloc),
    };
    reader.list(labels, &statement.body)?;
    let Reader { lines, .. } = reader;
    Ok(lines)
}
