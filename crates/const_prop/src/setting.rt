//! What the rules of constants read: a program with its flow graph, its classes and its wires.

ghost use Rattle.std.specs.Prelude.{◌≡◌, ◌<◌, ◌==◌, ℕ, Some, [], length, slice_get, slice_index, slice_index_or, count_by, All, IfOk};
ghost use Rattle.class_set.specs.Members.{IsWidth};
ghost use Rattle.closed_walks.specs.Graph.{edge_count, to};
ghost use Rattle.cfg_build.specs.Flow.{piece_at, flow};
ghost use Rattle.cfg_build.specs.Passes.{outs, kind_in};
ghost use Rattle.cfg_build.specs.Shape.{kind_at};
ghost use Rattle.dep_routing.specs.Touch.{touches_in};
ghost use Rattle.const_prop.specs.Setting.{IsProgram, AreLines, TellOneWord, AreTouched, IsSetting, IsTouchedRow};

use crate::row::Row;
use alias_classes::Classes;
use cfg_build::{Flow, PieceKind};
use closed_walks::{Digraph, edges_of_nodes};
use dep_routing::{Lines, TouchList, least_above};
use df_sequence::NoMemory;
use f77_tree::{ExecKind, Program};
use std::alloc::Global;

/// A program with its flow graph, its classes and its wires, and what is often asked of them.
#[derive(Drop)]
pub(crate) struct Setting<'a, const W: usize> {
    pub(crate) program: &'a Program,
    pub(crate) flow: &'a Flow,
    pub(crate) classes: &'a Classes<'a, W>,
    pub(crate) touch: &'a TouchList<W>,
    pub(crate) lines: &'a Lines<W>,
    /// For each line whether it is a class of words with one word.
    pub(crate) one_word: Vec<bool>,
    /// For each piece its out-edges, in order.
    pub(crate) outs: Vec<Row>,
    /// For each piece the lines that it touches.
    pub(crate) touched: Vec<Row>,
}

impl<'a, const W: usize> Setting<'a, W> {
    pub(crate) fn new(
        alloc: Global,
        program: &'a Program,
        flow: &'a Flow,
        classes: &'a Classes<'a, W>,
        touch: &'a TouchList<W>,
        lines: &'a Lines<W>,
    ) -> Result<Self, NoMemory>
        requires program { IsProgram program.now flow.now }
        requires lines { AreLines program.now flow.now classes.now touch.now lines.now }
        ensures setting { IfOk result (λ s. IsSetting s.program.now s.flow.now s.classes.now s.touch.now s.lines.now s.one_word.items s.outs.items s.touched.items) }
        ensures program { IfOk result (λ s. s.program.now ≡ program.now) }
        ensures flow { IfOk result (λ s. s.flow.now ≡ flow.now) }
        ensures classes { IfOk result (λ s. s.classes.now ≡ classes.now) }
        ensures touch { IfOk result (λ s. s.touch.now ≡ touch.now) }
        ensures lines { IfOk result (λ s. s.lines.now ≡ lines.now) }
    {
        Ok(Setting {
            program,
            flow,
            classes,
            touch,
            lines,
            one_word: one_word_classes(alloc, classes, program.words, lines.lines())?,
            outs: out_rows(alloc, flow.graph())?,
            touched: touched_rows(alloc, touch, flow.pieces(), lines.lines())?,
        })
    }

    /// The piece at which the edge ends.
    pub(crate) fn head(&self, edge: u32) -> u32
        requires { edge < edge_count self.now.flow.now.graph }
        ensures node { result ≡ to self.now.flow.now.graph edge }
        ensures exists { result < self.now.flow.now.graph.nodes }
    {
        self.flow.graph().to(edge)
    }

    /// What stands at a node.
    pub(crate) fn kind(&self, node: u32) -> PieceKind
        requires setting { IsSetting self.now.program.now self.now.flow.now self.now.classes.now self.now.touch.now self.now.lines.now self.now.one_word.items self.now.outs.items self.now.touched.items }
        requires node { node < self.now.flow.now.graph.nodes }
        ensures { result ≡ kind_at self.now.flow.now node }
    {
        self.flow.piece(node).kind
    }

    /// The executable of an act or a branch.
    pub(crate) fn exec(&self, node: u32) -> &ExecKind
        requires setting { IsSetting self.now.program.now self.now.flow.now self.now.classes.now self.now.touch.now self.now.lines.now self.now.one_word.items self.now.outs.items self.now.touched.items }
        requires node { node < self.now.flow.now.graph.nodes }
        requires exists { (piece_at self.now.flow.now.pieces node).exec < length self.now.program.now.execs }
        ensures { result.now ≡ kind_in (slice_get self.now.program.now.execs (piece_at self.now.flow.now.pieces node).exec) }
    {
        &self.program.execs.at(self.flow.piece(node).exec).kind
    }
}

/// For each line whether it is a class of words with one word.
fn one_word_classes<const W: usize>(
    alloc: Global,
    c: &Classes<W>,
    words: u32,
    lines: u32,
) -> Result<Vec<bool>, NoMemory>
    requires words { words ≡ length c.now.numbers }
    requires lines { All (λ n. n < lines) c.now.numbers }
    ensures { IfOk result (λ one_word. TellOneWord c.now lines one_word.items) }
{
    let counts = words_of_classes(alloc, c, words, lines)?;
    let mut one_word = Vec::new(alloc);
    for line in 0..lines {
        one_word.push(line != 0 && counts[line as usize] == 1)?;
    }
    Ok(one_word)
}

/// How many words the class has that a line is.
fn words_of_classes<const W: usize>(
    alloc: Global,
    c: &Classes<W>,
    words: u32,
    lines: u32,
) -> Result<Vec<u32>, NoMemory>
    requires words { words ≡ length c.now.numbers }
    requires lines { All (λ n. n < lines) c.now.numbers }
    ensures size { IfOk result (λ counts. length counts.items ≡ lines) }
    ensures counts { IfOk result (λ counts. (line : ℕ) → line < lines → slice_index counts.items line ≡ count_by (λ n. n == line) c.now.numbers) }
{
    let mut counts = vec![in alloc; 0; lines as usize]?;
    for word in 0..words {
        counts[c.of_word(word) as usize] += 1;
    }
    Ok(counts)
}

/// The out-edges of each piece.
pub(crate) fn out_rows(alloc: Global, g: &Digraph) -> Result<Vec<Row>, NoMemory>
    ensures size { IfOk result (λ rows. length rows.items ≡ g.now.nodes) }
    ensures rows { IfOk result (λ rows. (node : ℕ) → node < g.now.nodes → slice_index_or rows.items node [] ≡ outs g.now node) }
{
    let mut rows = Vec::with_capacity(alloc, g.nodes() as usize)?;
    for node in 0..g.nodes() {
        rows.push(out_row(alloc, g, node)?)?;
    }
    Ok(rows)
}

fn out_row(alloc: Global, g: &Digraph, node: u32) -> Result<Row, NoMemory>
    requires { node < g.now.nodes }
    ensures { IfOk result (λ row. row ≡ outs g.now node) }
{
    edges_of_nodes();
    let mut row = Row::new(alloc);
    for e in g.edges_at(node) {
        if g.from(*e) == node {
            row.push(*e)?;
        }
    }
    Ok(row)
}

/// The lines that each piece touches.
fn touched_rows<const W: usize>(
    alloc: Global,
    touch: &TouchList<W>,
    nodes: u32,
    lines: u32,
) -> Result<Vec<Row>, NoMemory>
    requires width { IsWidth W }
    requires nodes { nodes ≡ length touch.now }
    ensures { IfOk result (λ rows. AreTouched nodes lines (touches_in touch.now) rows.items) }
{
    let mut rows = Vec::with_capacity(alloc, nodes as usize)?;
    for node in 0..nodes {
        rows.push(touched_row(alloc, touch, node, lines)?)?;
    }
    Ok(rows)
}

/// The lines that a piece touches, in rising order. It takes a few steps for each of them.
fn touched_row<const W: usize>(
    alloc: Global,
    touch: &TouchList<W>,
    node: u32,
    lines: u32,
) -> Result<Row, NoMemory>
    requires width { IsWidth W }
    requires node { node < length touch.now }
    ensures { IfOk result (IsTouchedRow (touches_in touch.now) lines node) }
{
    let set = touch.at(node);
    let mut row = Row::new(alloc);
    let mut line = least_above(set, None, lines);
    while line < lines {
        row.push(line)?;
        line = least_above(set, Some(line), lines);
    }
    Ok(row)
}
