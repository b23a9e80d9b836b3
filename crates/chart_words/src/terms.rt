//! What operations do, in the words of the program.

use crate::labels::{put_line, sign};
use crate::nodes::{Nodes, lines_of};
use op_table::Op;
use printed_graphs::{Node, Operand, PrintedGraph, Work, work_name};
use std::alloc::Global;
use svg_text::ChartFault;

// The most names of a token line that are shown.
const NAMES: usize = 3;

// The most steps in which a text is written: a longer one is cut off.
const STEPS: u32 = 120;

// The most subscripts of an array (ANSI X3.9-1978, section 5.1).
const SUBSCRIPTS: u32 = 7;

// A part of a text that is still to be written.
#[derive(Clone, Copy)]
enum Part {
    Words(&'static str),
    Line(u32),
    Value(Operand),
}

/// A text of what operations do, of which the last part that is to be written comes first.
#[derive(Drop)]
pub struct Terms<'a, 'b> {
    nodes: &'b Nodes<'a>,
    parts: Vec<Part>,
}

impl<'a, 'b> Terms<'a, 'b> {
    /// No text.
    pub fn new(alloc: Global, nodes: &'b Nodes<'a>) -> Terms<'a, 'b> {
        Terms {
            nodes,
            parts: Vec::new(alloc),
        }
    }

    /// Appends what a node does: `N ← N + I`, `print A(2)`, `DO I = 1, 4, 1`.
    pub fn put(&mut self, text: &mut String, number: u32) -> Result<(), ChartFault> {
        self.parts.clear();
        match self.nodes.node(number) {
            Some(Node::Operation { work, lines, .. }) => self.operation(number, *work, lines)?,
            Some(Node::Switch { line, .. }) => self.words_and_line("lead on ", *line)?,
            Some(Node::Merge { line, .. }) => self.words_and_line("take in ", *line)?,
            None => {}
        }
        self.write(text)
    }

    // Writes the parts.
    fn write(&mut self, text: &mut String) -> Result<(), ChartFault> {
        for _ in 0..STEPS {
            match self.parts.pop() {
                Some(Part::Words(words)) => text.push_str(words)?,
                Some(Part::Line(line)) => put_line(text, self.nodes.graph, line, NAMES)?,
                Some(Part::Value(Operand::Known(value))) => write!(text, "{value}")?,
                Some(Part::Value(Operand::From(giver))) => self.value(giver)?,
                None => return Ok(()),
            }
        }
        text.push_str(" ..")?;
        Ok(())
    }

    // Words, and the names of a token line after them.
    fn words_and_line(&mut self, words: &'static str, line: u32) -> Result<(), ChartFault> {
        self.parts.push(Part::Line(line))?;
        self.parts.push(Part::Words(words))?;
        Ok(())
    }

    // What an operation does.
    fn operation(&mut self, number: u32, work: Work, lines: &[u32]) -> Result<(), ChartFault> {
        let operands = self.nodes.operands_of(number);
        match work {
            Work::Store => self.store(operands, lines),
            Work::Write => self.call("print ", operands, ""),
            Work::Begin => self.begin(operands, lines),
            Work::Advance => self.about_first("next ", lines),
            Work::Decide if operands.is_empty() => self.about_first("another round of ", lines),
            Work::Decide => self.choice(operands),
            Work::Load | Work::Take | Work::Apply(_) => self.value(number),
        }
    }

    // A decision by a value: by its sign, as a case, or by its truth.
    fn choice(&mut self, operands: &[Operand]) -> Result<(), ChartFault> {
        let [Operand::From(giver)] = operands else {
            return self.call("by ", operands, "");
        };
        let inner = self.nodes.operands_of(*giver);
        match self.nodes.work_of(*giver) {
            Some(Work::Apply(Op::Three)) => self.call("by the sign of ", inner, ""),
            Some(Work::Apply(Op::Pick)) => self.call("by ", firsts(inner), ""),
            Some(Work::Apply(op)) if is_logical(op) => self.call("if ", operands, ""),
            _ => self.call("by ", operands, ""),
        }
    }

    // Words about the first token line of an operation.
    fn about_first(&mut self, words: &'static str, lines: &[u32]) -> Result<(), ChartFault> {
        match lines.first() {
            Some(line) => self.words_and_line(words, *line),
            None => Ok(()),
        }
    }

    // A store: the last operand is the value, and one before it the place.
    fn store(&mut self, operands: &[Operand], lines: &[u32]) -> Result<(), ChartFault> {
        if let Some((value, places)) = operands.split_last() {
            self.parts.push(Part::Value(*value))?;
            self.parts.push(Part::Words(" \u{2190} "))?;
            self.word(lines, places)?;
        }
        Ok(())
    }

    // The beginning of a DO.
    fn begin(&mut self, operands: &[Operand], lines: &[u32]) -> Result<(), ChartFault> {
        self.list(operands, ", ")?;
        self.parts.push(Part::Words(" = "))?;
        self.about_first("DO ", lines)
    }

    // Operands with words between them.
    fn list(&mut self, operands: &[Operand], between: &'static str) -> Result<(), ChartFault> {
        for (k, operand) in operands.iter().rev().enumerate() {
            if k > 0 {
                self.parts.push(Part::Words(between))?;
            }
            self.parts.push(Part::Value(*operand))?;
        }
        Ok(())
    }

    // Operands between words.
    fn call(
        &mut self,
        before: &'static str,
        operands: &[Operand],
        after: &'static str,
    ) -> Result<(), ChartFault> {
        self.parts.push(Part::Words(after))?;
        self.list(operands, ", ")?;
        self.parts.push(Part::Words(before))?;
        Ok(())
    }

    // The value of a node.
    fn value(&mut self, number: u32) -> Result<(), ChartFault> {
        let operands = self.nodes.operands_of(number);
        match self.nodes.node(number) {
            Some(Node::Operation { work, lines, .. }) => match *work {
                Work::Load => self.word(lines, operands),
                Work::Apply(op) => self.applied(op, operands),
                Work::Take => self.call("READ", &[], ""),
                other => self.call(work_name(other), operands, ""),
            },
            _ => self.call("?", &[], ""),
        }
    }

    // An operator and its operands.
    fn applied(&mut self, op: Op, operands: &[Operand]) -> Result<(), ChartFault> {
        match (sign(op), operands) {
            (Some(words), [left, right]) => self.between(op, words, *left, *right),
            _ => {
                self.call("(", operands, ")")?;
                self.parts.push(Part::Words(work_name(Work::Apply(op))))?;
                Ok(())
            }
        }
    }

    // An operator between its operands, which stand in brackets where they bind less.
    fn between(
        &mut self,
        op: Op,
        words: &'static str,
        left: Operand,
        right: Operand,
    ) -> Result<(), ChartFault> {
        let binds = binding(op);
        self.operand(right, self.binding_of(right) <= binds)?;
        self.parts.push(Part::Words(" "))?;
        self.parts.push(Part::Words(words))?;
        self.parts.push(Part::Words(" "))?;
        self.operand(left, self.binding_of(left) < binds)
    }

    // An operand, in brackets or without.
    fn operand(&mut self, operand: Operand, in_brackets: bool) -> Result<(), ChartFault> {
        if in_brackets {
            self.parts.push(Part::Words(")"))?;
            self.parts.push(Part::Value(operand))?;
            self.parts.push(Part::Words("("))?;
        } else {
            self.parts.push(Part::Value(operand))?;
        }
        Ok(())
    }

    // How an operand binds.
    fn binding_of(&self, operand: Operand) -> u8 {
        match operand {
            Operand::From(giver) => match self.nodes.work_of(giver) {
                Some(Work::Apply(op)) => binding(op),
                _ => TIGHTEST,
            },
            Operand::Known(_) => TIGHTEST,
        }
    }

    // A word of storage: the names of its token line, and its place where it has one.
    fn word(&mut self, lines: &[u32], places: &[Operand]) -> Result<(), ChartFault> {
        if let Some(place) = places.first() {
            self.place(*place)?;
        }
        match lines.last() {
            Some(line) => self.parts.push(Part::Line(*line))?,
            None => {}
        }
        Ok(())
    }

    // The place of a word: its subscripts, or its number among the words of the token line.
    fn place(&mut self, place: Operand) -> Result<(), ChartFault> {
        match place {
            Operand::Known(value) => {
                self.parts.push(Part::Words(")"))?;
                self.counted(value)?;
                self.parts.push(Part::Words("("))?;
            }
            Operand::From(_) => self.subscripts(place)?,
        }
        Ok(())
    }

    // A place that is known, counted from 1.
    fn counted(&mut self, place: i32) -> Result<(), ChartFault> {
        let number = Operand::Known(place.saturating_add(1));
        self.parts.push(Part::Value(number))?;
        self.parts.push(Part::Words("#"))?;
        Ok(())
    }

    // The subscripts, of which the place adds up one after another; the last one comes first. Where subscripts are known
    // before the program runs, their sum is a number.
    fn subscripts(&mut self, place: Operand) -> Result<(), ChartFault> {
        self.parts.push(Part::Words(")"))?;
        let mut rest = place;
        let mut between = "";
        for _ in 0..SUBSCRIPTS {
            let (before, subscript) = match self.split(rest) {
                Some(found) => found,
                None => break,
            };
            self.parts.push(Part::Words(between))?;
            match subscript {
                Operand::Known(value) => self.counted(value)?,
                Operand::From(_) => self.parts.push(Part::Value(subscript))?,
            }
            between = ",";
            rest = before;
        }
        if rest != Operand::Known(0) {
            self.parts.push(Part::Words(between))?;
            self.parts.push(Part::Words(".."))?;
        }
        self.parts.push(Part::Words("("))?;
        Ok(())
    }

    // The place before the last subscript is added, and that subscript as the program writes it.
    fn split(&self, place: Operand) -> Option<(Operand, Operand)> {
        let Operand::From(giver) = place else {
            return None;
        };
        if self.nodes.work_of(giver) != Some(Work::Apply(Op::Place)) {
            return None;
        }
        match self.nodes.operands_of(giver) {
            [before, subscript, ..] => Some((*before, self.unchecked(*subscript))),
            _ => None,
        }
    }

    // A subscript before its bounds are checked.
    fn unchecked(&self, subscript: Operand) -> Operand {
        let Operand::From(giver) = subscript else {
            return subscript;
        };
        if self.nodes.work_of(giver) != Some(Work::Apply(Op::Bound)) {
            return subscript;
        }
        self.nodes
            .operands_of(giver)
            .first()
            .copied()
            .unwrap_or(subscript)
    }
}

// The first operand alone.
fn firsts(operands: &[Operand]) -> &[Operand] {
    operands.get(..1).unwrap_or(operands)
}

// Whether an operator gives a truth.
fn is_logical(op: Op) -> bool {
    matches!(op, Op::Not | Op::Truth) || binding(op) <= 4
}

// What binds like a name or a number.
const TIGHTEST: u8 = 8;

// How an operator between operands binds (ANSI X3.9-1978, sections 6.1 and 6.6); others bind like names.
fn binding(op: Op) -> u8 {
    match op {
        Op::Eqv | Op::Neqv => 1,
        Op::Or => 2,
        Op::And => 3,
        Op::Lt | Op::Le | Op::Eq | Op::Ne | Op::Ge | Op::Gt => 4,
        Op::Add | Op::Sub | Op::AddChecked | Op::SubChecked => 5,
        Op::Mul | Op::Div | Op::MulChecked => 6,
        Op::Pow | Op::PowChecked => 7,
        _ => TIGHTEST,
    }
}

/// What a node is, for who points at it: its number, what it does, its token lines and the line of the source.
///
/// # Errors
///
/// `NoMemory`.
pub fn title_of(alloc: Global, terms: &mut Terms<'_, '_>, node: u32) -> Result<String, ChartFault> {
    let nodes = terms.nodes;
    let mut title = format!(in alloc; "node {node}: ")?;
    terms.put(&mut title, node)?;
    if let Some(found) = nodes.node(node) {
        let mut before = "\nlines: ";
        for line in lines_of(found) {
            title.push_str(before)?;
            put_line(&mut title, nodes.graph, *line, usize::MAX)?;
            before = ", ";
        }
    }
    let line = nodes.line_of(node);
    write!(title, "\nline {line}")?;
    Ok(title)
}

/// What a node does, alone.
///
/// # Errors
///
/// `NoMemory`.
pub fn note_of(alloc: Global, terms: &mut Terms<'_, '_>, node: u32) -> Result<String, ChartFault> {
    let mut note = String::new(alloc);
    terms.put(&mut note, node)?;
    Ok(note)
}

/// The names of a token line, of which at most `most` are told.
///
/// # Errors
///
/// `NoMemory`.
pub fn name_of(
    alloc: Global,
    graph: &PrintedGraph,
    line: u32,
    most: usize,
) -> Result<String, ChartFault> {
    let mut name = String::new(alloc);
    put_line(&mut name, graph, line, most)?;
    Ok(name)
}
