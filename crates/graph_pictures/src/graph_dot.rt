//! A picture of a dataflow graph, for Graphviz: pieces as boxes with their operations, lines in colours, hops past quiet
//! regions dashed, values as thin edges.

ghost use Rattle.std.specs.Prelude.{◌≡◌, IfOk, OnOk, Some, flat_map, option_map, slice_get, string_bytes};
ghost use Rattle.std.specs.Fmt.{WritesOnOk};
ghost use Rattle.graph_pictures.specs.GraphDot.{begin_dot, body_dot, boxed_dot, close_dot, dataflow_dot, edges_dot, given_dot, graph_dot, is_of as spec_is_of, is_operation_on, node_before, node_dot, open_dot, opening_dot, operand_dot, passes_dot, passes_to, rest_dot, taken_before as spec_taken_before, value_dot, word_text};
ghost use Rattle.graph_pictures.specs.Wires.{wires_in};
ghost use Rattle.graph_pictures.specs.Numbers.{if_there};
ghost use Rattle.view_output.specs.Told.{Adds, told};

use crate::numbered::{Numbered, UpTo};
use crate::wires_dot::{Looks, Ways};
use df_io::Sink;
use printed_graphs::{Node, Operand, PrintedFlow, PrintedGraph, Value, work_name};
use std::alloc::Global;
use std::fmt;
use view_output::{Fault, Lines, Output, holds};

/// Writes the picture. The wires between pieces are in it where the flow graph is given.
pub fn write_graph<K: Sink + Drop>(
    alloc: Global,
    graph: &PrintedGraph,
    flow: Option<&PrintedFlow>,
    lines: &Lines,
    output: &mut Output<K>,
) -> Result<(), Fault>
    ensures { OnOk result (Adds (told K.got output.old) (told K.got output.new) (graph_dot graph.now (option_map (λ f. f.now) flow.entry) lines.now)) }
{
    let text = text_of(alloc, graph, flow, lines)?;
    output.text(text.as_str())
}

// The text of the picture.
fn text_of<'a>(
    alloc: Global,
    graph: &'a PrintedGraph,
    flow: Option<&'a PrintedFlow>,
    lines: &'a Lines,
) -> Result<String, Fault>
    ensures { IfOk result (λ text. string_bytes text ≡ graph_dot graph.now (option_map (λ f. f.now) flow.entry) lines.now) }
{
    let Some(flow) = flow else {
        let picture = Picture {
            graph,
            lines,
            wires: Wires(None),
        };
        let text = format!(in alloc; "{picture}")?;
        return Ok(text);
    };
    let wires = Ways::of(alloc, graph, flow, lines)?;
    let picture = Picture {
        graph,
        lines,
        wires: Wires(Some(&wires)),
    };
    let text = format!(in alloc; "{picture}")?;
    Ok(text)
}

// A dataflow graph.
#[derive(Clone, Copy)]
struct Picture<'a, 'b> {
    graph: &'a PrintedGraph,
    lines: &'a Lines,
    wires: Wires<'a, 'b>,
}

impl fmt::Display for Picture<'_, '_> {
    ghost output = { λ p. Some (dataflow_dot p.graph.now p.lines.now (if_there (λ w. wires_in w.now) p.wires.0)) };

    #[tactic(auto, unfolding(crate::specs::GraphDot::dataflow_dot))]
    fn fmt<W: fmt::Write>(&self, f: &mut fmt::Formatter<W>) -> fmt::Result {
        let opening = opening();
        let body = Body(self);
        writeln!(f, "{opening}{body}}}")
    }
}

// How the text begins.
#[tactic(auto, unfolding(crate::specs::GraphDot::opening_dot))]
fn opening() -> &'static str
    ensures { result.now ≡ opening_dot }
{
    "digraph dataflow {\n  newrank=true;\n  node [shape=box, fontname=\"sans-serif\", fontsize=11];\n"
}

// The nodes of a graph, and all that joins them.
#[derive(Clone, Copy)]
struct Body<'a, 'b, 'c>(&'c Picture<'a, 'b>);

impl fmt::Display for Body<'_, '_, '_> {
    ghost output = { λ b. Some (body_dot b.0.now.graph.now b.0.now.lines.now (if_there (λ w. wires_in w.now) b.0.now.wires.0)) };

    #[tactic(auto, unfolding(crate::specs::GraphDot::body_dot))]
    fn fmt<W: fmt::Write>(&self, f: &mut fmt::Formatter<W>) -> fmt::Result {
        let graph = self.0.graph;
        let nodes = Nodes(graph);
        let nodes = UpTo(&nodes, graph.nodes.len());
        let edges = Edges(self.0);
        write!(f, "{nodes}{edges}")
    }
}

// All that joins nodes.
#[derive(Clone, Copy)]
struct Edges<'a, 'b, 'c>(&'c Picture<'a, 'b>);

impl fmt::Display for Edges<'_, '_, '_> {
    ghost output = { λ e. Some (edges_dot e.0.now.graph.now e.0.now.lines.now (if_there (λ w. wires_in w.now) e.0.now.wires.0)) };

    #[tactic(auto, unfolding(crate::specs::GraphDot::edges_dot))]
    fn fmt<W: fmt::Write>(&self, f: &mut fmt::Formatter<W>) -> fmt::Result {
        let graph = self.0.graph;
        let values = Values(graph);
        let values = UpTo(&values, graph.values.len());
        let rest = Rest(self.0);
        write!(f, "{values}{rest}")
    }
}

// The token lines within pieces, and between them.
#[derive(Clone, Copy)]
struct Rest<'a, 'b, 'c>(&'c Picture<'a, 'b>);

impl fmt::Display for Rest<'_, '_, '_> {
    ghost output = { λ r. Some (rest_dot r.0.now.graph.now r.0.now.lines.now (if_there (λ w. wires_in w.now) r.0.now.wires.0)) };

    #[tactic(auto, unfolding(crate::specs::GraphDot::rest_dot))]
    fn fmt<W: fmt::Write>(&self, f: &mut fmt::Formatter<W>) -> fmt::Result {
        let Picture {
            graph,
            lines,
            wires,
        } = *self.0;
        let passes = Passes { graph, lines };
        let passes = UpTo(&passes, graph.nodes.len());
        write!(f, "{passes}{wires}")
    }
}

// The wires, if the flow graph is given.
#[derive(Clone, Copy)]
struct Wires<'a, 'b>(Option<&'b Ways<'a>>);

impl fmt::Display for Wires<'_, '_> {
    ghost output = { λ w. Some (if_there (λ w. wires_in w.now) w.0) };

    fn fmt<W: fmt::Write>(&self, f: &mut fmt::Formatter<W>) -> fmt::Result {
        match self.0 {
            Some(ways) => write!(f, "{ways}"),
            None => Ok(()),
        }
    }
}

// The nodes of a graph, those of each piece in a box.
#[derive(Clone, Copy)]
struct Nodes<'a>(&'a PrintedGraph);

impl Numbered for Nodes<'_> {
    ghost text = { λ n k. if_there (boxed_dot n.0.now.nodes.items k) (slice_get n.0.now.nodes.items k) };

    #[tactic(auto, unfolding(crate::specs::GraphDot::boxed_dot))]
    fn put<W: fmt::Write>(&self, number: usize, f: &mut fmt::Formatter<W>) -> fmt::Result {
        let nodes = self.0.nodes.as_slice();
        match nodes.get(number) {
            Some(node) => {
                let piece = node.piece();
                let open = Open(nodes, number, piece);
                let inner = Told(number, node);
                let close = Close(nodes, number, piece);
                write!(f, "{open}{inner}{close}")
            }
            None => Ok(()),
        }
    }
}

// The beginning of the box of a piece, if this is its first node.
#[derive(Clone, Copy)]
struct Open<'a>(&'a [Node], usize, u32);

impl fmt::Display for Open<'_> {
    ghost output = { λ o. Some (open_dot o.0.now o.1 o.2) };

    #[tactic(auto, unfolding(crate::specs::GraphDot::open_dot))]
    fn fmt<W: fmt::Write>(&self, f: &mut fmt::Formatter<W>) -> fmt::Result {
        let Open(nodes, number, piece) = *self;
        if is_of(piece, before(nodes, number)) {
            return Ok(());
        }
        let begin = Begin(piece);
        write!(f, "{begin}")
    }
}

// The beginning of the box of a piece.
#[derive(Clone, Copy)]
struct Begin(u32);

impl fmt::Display for Begin {
    ghost output = { λ b. Some (begin_dot b.0) };

    fn fmt<W: fmt::Write>(&self, f: &mut fmt::Formatter<W>) -> fmt::Result {
        let piece = self.0;
        write!(
            f,
            "  subgraph cluster_{piece} {{\n  label=\"piece {piece}\"; color=\"#808080\"; fontname=\"sans-serif\"; fontsize=9;\n"
        )
    }
}

// The end of the box of a piece, if this is its last node.
#[derive(Clone, Copy)]
struct Close<'a>(&'a [Node], usize, u32);

impl fmt::Display for Close<'_> {
    ghost output = { λ c. Some (close_dot c.0.now c.1 c.2) };

    #[tactic(auto, unfolding(crate::specs::GraphDot::close_dot))]
    fn fmt<W: fmt::Write>(&self, f: &mut fmt::Formatter<W>) -> fmt::Result {
        let Close(nodes, number, piece) = *self;
        if is_of(piece, nodes.get(number.saturating_add(1))) {
            return Ok(());
        }
        writeln!(f, "  }}")
    }
}

// Whether there is a node, and it is of this piece.
fn is_of(piece: u32, node: Option<&Node>) -> bool
    ensures { result ≡ spec_is_of piece (option_map (λ n. n.now) node.entry) }
{
    match node {
        Some(node) => node.piece() == piece,
        None => false,
    }
}

// The node before one.
fn before(nodes: &[Node], number: usize) -> Option<&Node>
    ensures { option_map (λ n. n.now) result ≡ node_before nodes.now number }
{
    nodes.get(number.checked_sub(1)?)
}

// A node with its number.
#[derive(Clone, Copy)]
struct Told<'a>(usize, &'a Node);

impl fmt::Display for Told<'_> {
    ghost output = { λ t. Some (node_dot t.0 t.1.now) };

    #[tactic(auto, unfolding(crate::specs::GraphDot::node_dot))]
    fn fmt<W: fmt::Write>(&self, f: &mut fmt::Formatter<W>) -> fmt::Result {
        let Told(number, node) = *self;
        let word = Word(node);
        writeln!(f, "  n{number} [label=\"{number} {word}];")
    }
}

// What a node is, in a word, and its shape.
#[derive(Clone, Copy)]
struct Word<'a>(&'a Node);

impl fmt::Display for Word<'_> {
    ghost output = { λ w. Some (word_text w.0.now) };

    #[tactic(auto, unfolding(crate::specs::GraphDot::word_text))]
    fn fmt<W: fmt::Write>(&self, f: &mut fmt::Formatter<W>) -> fmt::Result {
        match self.0 {
            Node::Operation { work, .. } => {
                let work = work_name(*work);
                write!(f, "{work}\"")
            }
            Node::Switch { line, .. } => write!(f, "SWITCH {line}\", shape=diamond"),
            Node::Merge { line, .. } => write!(f, "MERGE {line}\", shape=ellipse"),
        }
    }
}

// The operands of nodes that other nodes give.
#[derive(Clone, Copy)]
struct Values<'a>(&'a PrintedGraph);

impl Numbered for Values<'_> {
    ghost text = { λ v k. if_there value_dot (slice_get v.0.now.values.items k) };

    fn put<W: fmt::Write>(&self, number: usize, f: &mut fmt::Formatter<W>) -> fmt::Result {
        match self.0.values.get(number) {
            Some(value) => put_value(value, f),
            None => Ok(()),
        }
    }
}

// Writes the operands of a node that other nodes give.
fn put_value<W: fmt::Write>(value: &Value, f: &mut fmt::Formatter<W>) -> fmt::Result
    ensures { WritesOnOk W.write_str_gives f.old result (value_dot value.now) f.new }
{
    for operand in value.operands.iter() {
        put_operand(value.node, *operand, f)?;
    }
    Ok(())
}

// Writes an operand of a node, if another one gives it.
fn put_operand<W: fmt::Write>(node: u32, operand: Operand, f: &mut fmt::Formatter<W>) -> fmt::Result
    ensures { WritesOnOk W.write_str_gives f.old result (operand_dot node operand) f.new }
{
    match operand {
        Operand::From(giver) => {
            let given = Given(giver, node);
            write!(f, "{given}")
        }
        Operand::Known(_) => Ok(()),
    }
}

// The value that one node gives to another.
#[derive(Clone, Copy)]
struct Given(u32, u32);

impl fmt::Display for Given {
    ghost output = { λ g. Some (given_dot g.0 g.1) };

    #[tactic(auto, unfolding(crate::specs::GraphDot::given_dot))]
    fn fmt<W: fmt::Write>(&self, f: &mut fmt::Formatter<W>) -> fmt::Result {
        let Given(giver, node) = *self;
        writeln!(
            f,
            "  n{giver} -> n{node} [color=\"#404040\", penwidth=0.5, arrowsize=0.5];"
        )
    }
}

// The lines that go from one operation of a piece to the next one that needs them.
#[derive(Clone, Copy)]
struct Passes<'a> {
    graph: &'a PrintedGraph,
    lines: &'a Lines,
}

impl Numbered for Passes<'_> {
    ghost text = { λ p k. if_there (passes_dot p.graph.now.nodes.items p.lines.now k) (slice_get p.graph.now.nodes.items k) };

    fn put<W: fmt::Write>(&self, number: usize, f: &mut fmt::Formatter<W>) -> fmt::Result {
        match self.graph.nodes.get(number) {
            Some(Node::Operation { piece, lines, .. }) => {
                self.put_all(number, *piece, lines.as_slice(), f)
            }
            _ => Ok(()),
        }
    }
}

impl Passes<'_> {
    // Writes those of these lines that come to a node of a piece from within.
    fn put_all<W: fmt::Write>(
        &self,
        number: usize,
        piece: u32,
        needed: &[u32],
        f: &mut fmt::Formatter<W>,
    ) -> fmt::Result
        ensures { WritesOnOk W.write_str_gives f.old result (flat_map (passes_to self.now.graph.now.nodes.items self.now.lines.now number piece) needed.now) f.new }
    {
        for line in needed {
            self.put_one(number, piece, *line, f)?;
        }
        Ok(())
    }

    // Writes a line that comes to a node of a piece, if it is shown and comes from within.
    fn put_one<W: fmt::Write>(
        &self,
        number: usize,
        piece: u32,
        line: u32,
        f: &mut fmt::Formatter<W>,
    ) -> fmt::Result
        ensures { WritesOnOk W.write_str_gives f.old result (passes_to self.now.graph.now.nodes.items self.now.lines.now number piece line) f.new }
    {
        if !self.lines.shows(line as usize) {
            return Ok(());
        }
        match taken_before(self.graph.nodes.as_slice(), piece, line, number) {
            Some(from) => {
                let looks = Looks {
                    line: line as usize,
                    is_hop: false,
                };
                write!(f, "  n{from} -> n{number}{looks}")
            }
            None => Ok(()),
        }
    }
}

// The last operation before a node that takes the line, among those that stand beside it in the piece.
fn taken_before(nodes: &[Node], piece: u32, line: u32, number: usize) -> Option<usize>
    ensures { result ≡ spec_taken_before nodes.now piece line number }
{
    let mut place = number;
    while let Some(k) = place.checked_sub(1) {
        let node = nodes.get(k)?;
        if node.piece() != piece {
            return None;
        }
        if is_taking(node, line) {
            return Some(k);
        }
        place = k;
    }
    None
}

// Whether a node is an operation that takes the line.
fn is_taking(node: &Node, line: u32) -> bool
    ensures { result ≡ is_operation_on line node.now }
{
    match node {
        Node::Operation { lines, .. } => holds(lines.as_slice(), line as usize),
        _ => false,
    }
}
