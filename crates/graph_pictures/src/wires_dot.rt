//! The wires of a dataflow graph, and its hops past quiet regions, from piece to piece.

ghost use Rattle.std.specs.Prelude.{◌≡◌, IfOk, Some, option_map, slice_get};
ghost use Rattle.std.specs.Fmt.{WritesOnOk};
ghost use Rattle.graph_pictures.specs.Numbers.{if_there};
ghost use Rattle.graph_pictures.specs.Wires.{begin_text, net_in, wires_in};
ghost use Rattle.graph_pictures.specs.WiresDot.{dashes_dot, first_in, from_dot, is_begin, last_in, line_dot, looks_dot, net_of, paint_dot, takes as spec_takes, to_dot, way_dot, ways_dot, wires_dot};

use crate::flow_dot::colour;
use crate::groups::Groups;
use crate::numbered::{Numbered, UpTo};
use printed_graphs::{Node, PieceKind, PrintedFlow, PrintedGraph};
use std::alloc::{AllocError, Global};
use std::fmt;
use view_output::{Lines, holds};

/// How a token line looks, dashed where it hops past a region.
#[derive(Clone, Copy)]
pub struct Looks {
    /// The line.
    pub line: usize,
    /// Whether it hops past a region.
    pub is_hop: bool,
}

impl fmt::Display for Looks {
    ghost output = { λ l. Some (looks_dot l.line l.is_hop) };

    #[tactic(auto, unfolding(crate::specs::WiresDot::looks_dot))]
    fn fmt<W: fmt::Write>(&self, f: &mut fmt::Formatter<W>) -> fmt::Result {
        let paint = Paint(self.line);
        let dashes = dashes(self.is_hop);
        writeln!(f, "{paint}{dashes}];")
    }
}

// The colour of a token line, and its number.
#[derive(Clone, Copy)]
struct Paint(usize);

impl fmt::Display for Paint {
    ghost output = { λ p. Some (paint_dot p.0) };

    #[tactic(auto, unfolding(crate::specs::WiresDot::paint_dot))]
    fn fmt<W: fmt::Write>(&self, f: &mut fmt::Formatter<W>) -> fmt::Result {
        let line = self.0;
        let colour = colour(line);
        write!(f, " [color=\"{colour}\", label=\"{line}\", fontsize=8")
    }
}

// The dashes of a line that hops past a region.
fn dashes(is_hop: bool) -> &'static str
    ensures { result.now ≡ dashes_dot is_hop }
{
    if is_hop { ", style=dashed" } else { "" }
}

/// The wires and the hops of a graph that are shown.
#[derive(Drop)]
pub struct Ways<'a> {
    /// The graph.
    pub graph: &'a PrintedGraph,
    /// The flow graph with the pieces of its nodes.
    pub flow: &'a PrintedFlow,
    /// The lines that are shown.
    pub lines: &'a Lines,
    /// The nodes of each piece.
    pub nodes: Groups,
}

impl<'a> Ways<'a> {
    /// Those of these lines.
    #[tactic(auto, using(crate::proofs::Pictures::same_wires))]
    pub fn of(
        alloc: Global,
        graph: &'a PrintedGraph,
        flow: &'a PrintedFlow,
        lines: &'a Lines,
    ) -> Result<Ways<'a>, AllocError>
        ensures { IfOk result (λ ways. wires_in ways ≡ wires_dot (net_of graph.now flow.now) lines.now) }
    {
        let mut pieces = Vec::with_capacity(alloc, graph.nodes.len())?;
        for node in graph.nodes.iter() {
            pieces.push(node.piece() as usize)?;
        }
        let nodes = Groups::of(alloc, flow.pieces.len(), 0, pieces.as_slice())?;
        Ok(Ways {
            graph,
            flow,
            lines,
            nodes,
        })
    }

    // Writes the wires and the hops of a line.
    fn put_line<W: fmt::Write>(
        &self,
        line: usize,
        edges: &[u32],
        f: &mut fmt::Formatter<W>,
    ) -> fmt::Result
        ensures { WritesOnOk W.write_str_gives f.old result (ways_dot (net_in self.now) line edges.now) f.new }
    {
        for edge in edges {
            self.put_way(line, false, *edge, *edge, f)?;
        }
        for hop in self.graph.bypasses.iter() {
            if hop.line as usize == line {
                self.put_way(line, true, hop.edge, hop.next, f)?;
            }
        }
        Ok(())
    }

    // Writes the way from where one edge begins to where another one ends, if the line comes from a node there.
    // Edge 0 leads from END back to START.
    fn put_way<W: fmt::Write>(
        &self,
        line: usize,
        is_hop: bool,
        edge: u32,
        next: u32,
        f: &mut fmt::Formatter<W>,
    ) -> fmt::Result
        ensures { WritesOnOk W.write_str_gives f.old result (way_dot (net_in self.now) line is_hop edge next) f.new }
    {
        if edge == 0 {
            return Ok(());
        }
        let Some(leaving) = self.flow.edges.get(edge as usize) else {
            return Ok(());
        };
        let Some(coming) = self.flow.edges.get(next as usize) else {
            return Ok(());
        };
        let Some(from) = self.begin(line, leaving.from) else {
            return Ok(());
        };
        let to = End {
            edge: next,
            first: self.first(line, coming.to),
        };
        let looks = Looks { line, is_hop };
        write!(f, "{from}{to}{looks}")
    }

    // Where a line leaves a piece, if it comes from a node there.
    fn begin(&self, line: usize, piece: u32) -> Option<Begin>
        ensures { option_map begin_text result ≡ from_dot (is_begin (slice_get self.now.flow.now.pieces.items piece)) (last_in (net_in self.now) line piece) }
    {
        match self.flow.pieces.get(piece as usize) {
            Some(found) if found.kind == PieceKind::Start => Some(Begin::Start),
            _ => self.last(line, piece).map(Begin::Node),
        }
    }

    // The first node of a piece that takes the line.
    fn first(&self, line: usize, piece: u32) -> Option<usize>
        ensures { result ≡ first_in (net_in self.now) line piece }
    {
        for k in self.nodes.places(piece as usize) {
            if self.takes(line, *k) {
                return Some(*k);
            }
        }
        None
    }

    // The last one.
    fn last(&self, line: usize, piece: u32) -> Option<usize>
        ensures { result ≡ last_in (net_in self.now) line piece }
    {
        let mut last = None;
        for k in self.nodes.places(piece as usize) {
            if self.takes(line, *k) {
                last = Some(*k);
            }
        }
        last
    }

    // Whether a node takes the line.
    fn takes(&self, line: usize, node: usize) -> bool
        ensures { result ≡ spec_takes line (slice_get self.now.graph.now.nodes.items node) }
    {
        match self.graph.nodes.get(node) {
            Some(Node::Operation { lines, .. }) => holds(lines.as_slice(), line),
            Some(Node::Switch { line: own, .. }) => *own as usize == line,
            Some(Node::Merge { line: own, .. }) => *own as usize == line,
            None => false,
        }
    }
}

impl Numbered for Ways<'_> {
    ghost text = { λ w line. if_there (line_dot (net_in w) w.lines.now line) (slice_get w.graph.now.wires.items line) };

    fn put<W: fmt::Write>(&self, number: usize, f: &mut fmt::Formatter<W>) -> fmt::Result {
        match self.graph.wires.get(number) {
            Some(wires) if self.lines.shows(number) => {
                self.put_line(number, wires.edges.as_slice(), f)
            }
            _ => Ok(()),
        }
    }
}

impl fmt::Display for Ways<'_> {
    ghost output = { λ w. Some (wires_in w) };

    #[tactic(auto, unfolding(crate::specs::WiresDot::wires_dot))]
    fn fmt<W: fmt::Write>(&self, f: &mut fmt::Formatter<W>) -> fmt::Result {
        let lines = UpTo(self, self.graph.wires.len());
        write!(
            f,
            "  start [label=\"START\"]; end [label=\"END\"];\n{lines}"
        )
    }
}

// Where a line leaves a piece.
#[derive(Clone, Copy)]
enum Begin {
    // At START.
    Start,
    // At this node.
    Node(usize),
}

impl fmt::Display for Begin {
    ghost output = { λ b. Some (begin_text b) };

    fn fmt<W: fmt::Write>(&self, f: &mut fmt::Formatter<W>) -> fmt::Result {
        match *self {
            Begin::Start => write!(f, "  start"),
            Begin::Node(node) => write!(f, "  n{node}"),
        }
    }
}

// Where a line comes to over an edge: the first node there that takes it, if there is one.
#[derive(Clone, Copy)]
struct End {
    edge: u32,
    first: Option<usize>,
}

impl fmt::Display for End {
    ghost output = { λ e. Some (to_dot e.edge e.first) };

    #[tactic(auto, unfolding(crate::specs::WiresDot::to_dot))]
    fn fmt<W: fmt::Write>(&self, f: &mut fmt::Formatter<W>) -> fmt::Result {
        match self.first {
            Some(node) if self.edge != 0 => write!(f, " -> n{node}"),
            _ => write!(f, " -> end"),
        }
    }
}
