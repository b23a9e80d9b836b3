//! Implied DO and whole arrays, in input, in output and in DATA.

ghost use Rattle.std.specs.Prelude.{◌≡◌, false, IfOk};
ghost use Rattle.fortran_tree.specs.Heads.{is_data};

use crate::constants::with_values;
use crate::implied_do::implied_do;
use fortran_tree::{
    Head, LowerError, Name, Node, Place, Reason, Sign, Statement, Token, copied, is_sign, leaf,
};
use indexmap::IndexMap;
use std::alloc::Global;
use std::slice::from_ref;
use unit_tables::{
    Bound, Replacements, Symbols, assignment, bounds_of, joined, name_alone, number_of_elements,
    signed, substituted, word,
};

/// How many items a list has at most when it is written out: each and its comma take two of the 66 columns of 20 lines.
const MOST_ITEMS: i64 = 660;

/// How many rounds the loops of a list make at most. Loops without items count.
const MOST_ROUNDS: i64 = 4000;

/// A list whose items are being written out.
#[derive(Drop)]
struct Writer<'a> {
    alloc: Global,
    symbols: &'a Symbols,
    /// DATA, PRINT or READ.
    head: Head,
    /// The values of the variables of the loops that are open. In input and output a variable keeps its value after its loop
    /// (ANSI X3.9-1978, 12.8.2), until it is read; in DATA it is known in the loop alone (9.3).
    values: Replacements,
    items: Vec<Vec<Node>>,
    /// How many rounds its loops have made.
    rounds: i64,
}

/// The variable of an implied DO, and the values that it takes.
#[derive(Clone, Copy)]
struct Range {
    variable: Name,
    first: i64,
    step: i64,
    count: i64,
    place: Place,
}

impl Range {
    /// The value after so many rounds.
    fn value(&self, alloc: Global, rounds: i64) -> Result<Vec<Node>, LowerError> {
        let value = rounds.saturating_mul(self.step).saturating_add(self.first);
        match i32::try_from(value) {
            Ok(value) => signed(alloc, value, self.place),
            Err(_) => Err(self.place.refused(Reason::Overflow)),
        }
    }
}

/// Whether an equals sign stands among the nodes, as in the control of an implied DO.
fn has_control(nodes: &[Node]) -> bool {
    nodes.iter().any(|node| is_sign(node, Sign::Equals))
}

/// Whether a list has an implied DO.
fn has_loop(nodes: &[Node]) -> bool {
    nodes.iter().any(|node| node.inside().is_some_and(|inside| has_control(inside)))
}

impl<'a> Writer<'a> {
    /// The value of a parameter of a loop.
    fn parameter(&self, nodes: &[Node], place: Place) -> Result<i64, LowerError> {
        let nodes = substituted(self.alloc, nodes, &self.values)?;
        match word(self.alloc, &nodes, place)? {
            Some(value) => Ok(i64::from(value)),
            None if matches!(self.head, Head::Data) => Err(place.refused(Reason::NotConstant)),
            None => Err(place.refused(Reason::OpenItems)),
        }
    }

    /// The variable and the values of the implied DO between two brackets (ANSI X3.9-1978, 11.10.3).
    fn range(&self, inside: &[Node], place: Place) -> Result<Range, LowerError> {
        let not_understood = place.refused(Reason::NotUnderstood);
        let Some(found) = implied_do(self.alloc, inside)? else {
            return Err(not_understood);
        };
        let (Some(begun), Some(last)) = (found.control.first(), found.control.get(1)) else {
            return Err(not_understood);
        };
        let Some(variable) = begun.first().and_then(|first| first.name()) else {
            return Err(not_understood);
        };
        if !matches!(self.head, Head::Data) && self.symbols.is_shared(variable) {
            return Err(place.refused(Reason::SharedVariable));
        }
        let first = self.parameter(begun.get(2..).unwrap_or(&[]), place)?;
        let last = self.parameter(last, place)?;
        let step = match found.control.get(2) {
            Some(step) => self.parameter(step, place)?,
            None => 1,
        };
        let span = last.saturating_sub(first).saturating_add(step);
        let Some(count) = span.checked_div(step) else {
            return Err(not_understood);
        };
        if found.control.len() > 3 {
            return Err(not_understood);
        }
        if count > MOST_ROUNDS {
            return Err(place.refused(Reason::LongList));
        }
        Ok(Range {
            variable,
            first,
            step,
            count: count.max(0),
            place,
        })
    }

    /// Begins a round of an implied DO.
    fn begin_round(&mut self, range: &Range, rounds: i64) -> Result<(), LowerError> {
        self.rounds = self.rounds.saturating_add(1);
        if self.rounds > MOST_ROUNDS {
            return Err(range.place.refused(Reason::LongList));
        }
        let value = range.value(self.alloc, rounds)?;
        self.values.insert(range.variable, value)?;
        Ok(())
    }

    /// Ends an implied DO.
    fn end_loop(&mut self, range: &Range) -> Result<(), LowerError> {
        if matches!(self.head, Head::Data) {
            self.values.shift_remove(&range.variable);
        } else {
            let value = range.value(self.alloc, range.count)?;
            self.values.insert(range.variable, value)?;
        }
        Ok(())
    }

    /// One item more. An array alone stands for all of its elements, but in DATA.
    fn item(&mut self, piece: Vec<Node>) -> Result<(), LowerError> {
        let Some(first) = piece.first() else {
            return Ok(());
        };
        let place = first.place();
        if let (Some(name), 1) = (first.name(), piece.len()) {
            if matches!(self.head, Head::Read) {
                self.values.shift_remove(&name);
            }
            if let (Some(bounds), Head::Print | Head::Read) = (
                self.symbols.arrays.get(&name),
                self.head,
            ) {
                let bounds = bounds_of(self.alloc, bounds, place)?;
                return self.elements(name, &bounds, place);
            }
        }
        self.add(piece, place)
    }

    /// Adds an item.
    fn add(&mut self, item: Vec<Node>, place: Place) -> Result<(), LowerError> {
        if self.items.len() >= MOST_ITEMS as usize {
            return Err(place.refused(Reason::LongList));
        }
        self.items.push(item)?;
        Ok(())
    }

    /// All elements of an array, the first subscript running fastest.
    fn elements(&mut self, name: Name, bounds: &[Bound], place: Place) -> Result<(), LowerError> {
        let count = number_of_elements(bounds);
        if count > MOST_ITEMS {
            return Err(place.refused(Reason::LongList));
        }
        for number in 0..count {
            let mut rest = number;
            let mut subscripts = Vec::new(self.alloc);
            for bound in bounds {
                let extent = bound.extent();
                let offset = rest.checked_rem(extent).unwrap_or(0);
                rest = rest.checked_div(extent).unwrap_or(0);
                let subscript = i32::try_from(i64::from(bound.low).saturating_add(
                    offset,
                )).unwrap_or(0);
                subscripts.push(signed(self.alloc, subscript, place)?)?;
            }
            let mut element = name_alone(self.alloc, name, place)?;
            element.push(Node::Group(joined(self.alloc, subscripts, place)?, place))?;
            self.add(element, place)?;
        }
        Ok(())
    }

    /// The items of a list, up to the control of the loop that it is in.
    fn list(&mut self, nodes: &[Node]) -> Result<(), LowerError> {
        let mut piece: Vec<Node> = Vec::new(self.alloc);
        for node in nodes {
            if is_sign(node, Sign::Equals) {
                return Ok(());
            }
            if is_sign(node, Sign::Comma) {
                let whole = std::mem::replace(&mut piece, Vec::new(self.alloc));
                self.item(whole)?;
                continue;
            }
            match node {
                Node::Group(inside, place) if piece.is_empty() && has_control(inside) => {
                    let range = self.range(inside, *place)?;
                    for rounds in 0..range.count {
                        self.begin_round(&range, rounds)?;
                        self.list(inside)?;
                    }
                    self.end_loop(&range)?;
                }
                Node::Leaf(token, place) if piece.is_empty() && matches!(self.head, Head::Read) => {
                    piece.push(leaf(*token, *place))?;
                }
                _ => {
                    piece.append(&mut substituted(self.alloc, from_ref(node), &self.values)?)?;
                }
            }
        }
        self.item(piece)
    }
}

/// The items of a list in DATA, written out.
fn written_out(
    alloc: Global,
    symbols: &Symbols,
    nodes: &[Node],
    place: Place,
) -> Result<Vec<Node>, LowerError> {
    let mut writer = Writer {
        alloc,
        symbols,
        head: Head::Data,
        values: IndexMap::new(alloc),
        items: Vec::new(alloc),
        rounds: 0,
    };
    writer.list(nodes)?;
    let Writer { items, .. } = writer;
    joined(alloc, items, place)
}

/// DATA with its loops written out.
fn data(
    alloc: Global,
    symbols: &Symbols,
    body: &[Node],
    place: Place,
) -> Result<Vec<Node>, LowerError> {
    let mut out = Vec::new(alloc);
    let mut is_list = true;
    for part in body.split(|node| is_sign(node, Sign::Divide)) {
        if !is_list {
            out.push(leaf(Token::Sign(Sign::Divide), place))?;
        } else if !part.is_empty() && !out.is_empty() {
            out.push(leaf(Token::Sign(Sign::Comma), place))?;
        }
        let mut nodes = if is_list {
            written_out(alloc, symbols, part, place)?
        } else {
            copied(alloc, part)?
        };
        out.append(&mut nodes)?;
        if !is_list {
            out.push(leaf(Token::Sign(Sign::Divide), place))?;
        }
        is_list = !is_list;
    }
    Ok(out)
}

/// Whether an item of a list is an array alone.
fn has_array(symbols: &Symbols, nodes: &[Node]) -> bool {
    nodes.split(|node| is_sign(node, Sign::Comma)).any(|piece| {
        piece.len() == 1
            && piece
                .first()
                .and_then(|first| first.name())
                .is_some_and(|name| symbols.is_array(name))
    })
}

/// The same statement, where a DATA has its loops written out.
pub fn with_data(
    alloc: Global,
    symbols: &Symbols,
    mut statement: Statement,
) -> Result<Statement, LowerError>
    ensures rest { IfOk result (λ written. written ≡ record statement { body = written.body }) }
    ensures other { IfOk result (λ written. is_data statement.head ≡ false → written ≡ statement) }
{
    if matches!(statement.head, Head::Data) && has_loop(&statement.body) {
        let body = data(alloc, symbols, &statement.body, statement.place)?;
        statement.body = with_values(alloc, &body)?;
    }
    Ok(statement)
}

/// Writes a statement. A PRINT or READ has its loops and arrays written out, and the variables of the loops get their last values after it.
pub fn write_items(
    alloc: Global,
    symbols: &Symbols,
    mut statement: Statement,
    lines: &mut Vec<Statement>,
) -> Result<(), LowerError> {
    let place = statement.place;
    let is_transfer = matches!(statement.head, Head::Print | Head::Read);
    if !is_transfer || !has_loop(&statement.body) && !has_array(symbols, &statement.body) {
        lines.push(statement)?;
        return Ok(());
    }
    let mut writer = Writer {
        alloc,
        symbols,
        head: statement.head,
        values: IndexMap::new(alloc),
        items: Vec::new(alloc),
        rounds: 0,
    };
    writer.list(&statement.body)?;
    let Writer { items, values, .. } = writer;
    statement.body = joined(alloc, items, place)?;
    lines.push(statement)?;
    for (variable, value) in values {
        let variable = name_alone(alloc, variable, place)?;
        lines.push(assignment(alloc, &variable, &value, place)?)?;
    }
    Ok(())
}
