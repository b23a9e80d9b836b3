//! Statements as lines in fixed form.

ghost use Rattle.std.specs.Prelude.{◌≡◌, [], OnOk, string_bytes};
ghost use Rattle.fortran_tree.specs.Lines.{AreMore};

use crate::{Head, LowerError, Name, Names, Node, Place, Reason, Sign, Statement, Token};
use indexmap::IndexMap;
use std::alloc::Global;

/// How many characters of a statement stand on a line.
const WIDTH: usize = 66;

/// How many lines a statement has at most.
const MOST_LINES: usize = 20;

/// The text of statements, and for each of its lines where the statement stands in the source.
#[derive(Drop)]
pub struct Printer {
    text: String,
    places: Vec<Place>,
}

impl Printer {
    /// No lines.
    pub fn new(alloc: Global) -> Printer
        ensures text { string_bytes result.text ≡ [] }
        ensures places { result.places.items ≡ [] }
    {
        Printer {
            text: String::new(alloc),
            places: Vec::new(alloc),
        }
    }

    /// The text, and for each of its lines the place of its statement in the source.
    pub fn finish(self) -> (String, Vec<Place>)
        ensures text { result.0 ≡ self.text }
        ensures places { result.1 ≡ self.places }
    {
        let Printer { text, places } = self;
        (text, places)
    }

    /// Prints a statement, with other spellings for some names. Each of its lines has its place.
    ///
    /// # Errors
    ///
    /// Refused where it needs more than 19 continuation lines (ANSI X3.9-1978, 3.2.3).
    pub fn print(
        &mut self,
        alloc: Global,
        names: &Names,
        spellings: &IndexMap<Name, String>,
        statement: &Statement,
    ) -> Result<(), LowerError>
        ensures { OnOk result (AreMore statement.now.place self.old.places.items self.new.places.items) }
    {
        let mut body = String::new(alloc);
        if let Some(condition) = &statement.guard {
            body.push_str("IF (")?;
            append(&mut body, names, spellings, condition.as_slice())?;
            body.push_str(") ")?;
        }
        body.push_str(statement.head.before())?;
        if !statement.body.is_empty() {
            match statement.head {
                Head::Print | Head::Read => body.push(',')?,
                Head::Stop => body.push(' ')?,
                _ => {}
            }
        }
        append(&mut body, names, spellings, statement.body.as_slice())?;
        body.push_str(statement.head.after())?;
        self.lay_out(statement, body.as_str())
    }

    /// Lays out the characters of a statement on lines.
    fn lay_out(&mut self, statement: &Statement, body: &str) -> Result<(), LowerError>
        ensures { OnOk result (AreMore statement.now.place self.old.places.items self.new.places.items) }
    {
        let mut count = 0usize;
        for part in body.as_bytes().chunks(WIDTH) {
            if count == MOST_LINES {
                return Err(statement.place.refused(Reason::LongLowered));
            }
            if count == 0 {
                label(&mut self.text, statement.label)?;
            } else {
                self.text.push_str("     &")?;
            }
            for byte in part {
                self.text.push(char::from(*byte))?;
            }
            self.text.push('\n')?;
            self.places.push(statement.place)?;
            count = count.saturating_add(1);
        }
        Ok(())
    }
}

/// Columns 1 to 6 of a statement with this label.
fn label(text: &mut String, label: u32) -> Result<(), LowerError> {
    if label == 0 {
        text.push_str("      ")?;
    } else {
        write!(text, "{label:>5} ")?;
    }
    Ok(())
}

/// Appends a character constant.
fn append_text(out: &mut String, text: &str) -> Result<(), LowerError> {
    out.push('\'')?;
    for byte in text.as_bytes() {
        if *byte == b'\'' {
            out.push('\'')?;
        }
        out.push(char::from(*byte))?;
    }
    out.push('\'')?;
    Ok(())
}

/// Appends a name, by its other spelling where it has one.
fn append_name(
    out: &mut String,
    names: &Names,
    spellings: &IndexMap<Name, String>,
    name: Name,
) -> Result<(), LowerError> {
    match spellings.get(&name) {
        Some(spelling) => out.push_str(spelling.as_str())?,
        None => out.push_str(names.spelling(name))?,
    }
    Ok(())
}

/// Appends nodes.
fn append(
    out: &mut String,
    names: &Names,
    spellings: &IndexMap<Name, String>,
    nodes: &[Node],
) -> Result<(), LowerError> {
    let mut was_number = false;
    for node in nodes {
        match node {
            Node::Leaf(Token::Name(name), _) => {
                if was_number {
                    out.push(' ')?;
                }
                append_name(out, names, spellings, *name)?;
            }
            Node::Leaf(Token::Number(number), _) => write!(out, "{number}")?,
            Node::Leaf(Token::Text(number), _) => append_text(out, names.text(*number))?,
            Node::Leaf(Token::Truth(true), _) => out.push_str(".TRUE.")?,
            Node::Leaf(Token::Truth(false), _) => out.push_str(".FALSE.")?,
            Node::Leaf(Token::Sign(sign), _) => out.push_str(sign.spelling())?,
            Node::Group(inside, _) => {
                out.push('(')?;
                append(out, names, spellings, inside.as_slice())?;
                out.push(')')?;
            }
        }
        was_number = node.number().is_some();
    }
    Ok(())
}
