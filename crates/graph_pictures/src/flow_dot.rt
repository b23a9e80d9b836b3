//! A picture of a flow graph, for Graphviz. Edges have the numbers of their classes, and a colour for each.

ghost use Rattle.std.specs.Prelude.{◌≡◌, OnOk, Some, slice_get};
ghost use Rattle.std.specs.Fmt.{WritesOnOk};
ghost use Rattle.graph_pictures.specs.FlowDot.{body_dot, colour_text, edge_dot, ends_text, flow_dot, hue_text, label_text, name_text, opening_dot, piece_dot, picture_dot, rest_dot};
ghost use Rattle.graph_pictures.specs.Groups.{members_in};
ghost use Rattle.graph_pictures.specs.Numbers.{if_there};
ghost use Rattle.view_output.specs.Told.{Adds, told};

use crate::boxes::Boxes;
use crate::numbered::{Numbered, UpTo};
use df_io::Sink;
use printed_graphs::{Edge, Piece, PrintedFlow, kind_name};
use std::alloc::Global;
use std::fmt;
use view_output::{Fault, Output};

/// The colour of a class or of a line of tokens: twelve that can be told apart, used over and over, so the number stands beside each.
#[tactic(auto, unfolding(crate::specs::FlowDot::colour_text))]
pub fn colour(number: usize) -> &'static str
    ensures { result.now ≡ colour_text number }
{
    match number % 12 {
        0 => "#1f77b4",
        1 => "#d62728",
        2 => "#2ca02c",
        3 => "#9467bd",
        4 => "#ff7f0e",
        5 => "#17becf",
        6 => "#8c564b",
        7 => "#e377c2",
        8 => "#7f7f7f",
        9 => "#bcbd22",
        10 => "#0000a0",
        _ => "#a00060",
    }
}

/// Writes the picture, with the regions as nested boxes where that is asked for.
#[tactic(auto, using(crate::proofs::Pictures::same_picture))]
pub fn write_flow<K: Sink + Drop>(
    alloc: Global,
    flow: &PrintedFlow,
    with_regions: bool,
    output: &mut Output<K>,
) -> Result<(), Fault>
    ensures { OnOk result (Adds (told K.got output.old) (told K.got output.new) (flow_dot flow.now with_regions)) }
{
    let boxes = Boxes::of(alloc, flow, with_regions)?;
    let picture = Picture {
        flow,
        boxes: &boxes,
    };
    let text = format!(in alloc; "{picture}")?;
    output.text(text.as_str())
}

// A flow graph, and the boxes that are shown.
#[derive(Clone, Copy)]
struct Picture<'a, 'b> {
    flow: &'a PrintedFlow,
    boxes: &'b Boxes,
}

impl fmt::Display for Picture<'_, '_> {
    ghost output = { λ p. Some (picture_dot p.flow.now p.boxes.now.steps.items (members_in p.boxes.now.pieces)) };

    #[tactic(auto, unfolding(crate::specs::FlowDot::picture_dot))]
    fn fmt<W: fmt::Write>(&self, f: &mut fmt::Formatter<W>) -> fmt::Result {
        let opening = opening();
        let body = Body(self);
        writeln!(f, "{opening}{body}}}")
    }
}

// How the text begins.
#[tactic(auto, unfolding(crate::specs::FlowDot::opening_dot))]
fn opening() -> &'static str
    ensures { result.now ≡ opening_dot }
{
    "digraph flow {\n  newrank=true;\n  node [shape=box, fontname=\"sans-serif\", fontsize=11];\n  edge [fontname=\"sans-serif\", fontsize=9];\n"
}

// The pieces of a flow graph, and all else in it.
#[derive(Clone, Copy)]
struct Body<'a, 'b, 'c>(&'c Picture<'a, 'b>);

impl fmt::Display for Body<'_, '_, '_> {
    ghost output = { λ b. Some (body_dot b.0.now.flow.now b.0.now.boxes.now.steps.items (members_in b.0.now.boxes.now.pieces)) };

    #[tactic(auto, unfolding(crate::specs::FlowDot::body_dot))]
    fn fmt<W: fmt::Write>(&self, f: &mut fmt::Formatter<W>) -> fmt::Result {
        let flow = self.0.flow;
        let pieces = Pieces(flow);
        let pieces = UpTo(&pieces, flow.pieces.len());
        let rest = Rest(self.0);
        write!(f, "{pieces}{rest}")
    }
}

// The boxes and the edges of a flow graph.
#[derive(Clone, Copy)]
struct Rest<'a, 'b, 'c>(&'c Picture<'a, 'b>);

impl fmt::Display for Rest<'_, '_, '_> {
    ghost output = { λ r. Some (rest_dot r.0.now.flow.now r.0.now.boxes.now.steps.items (members_in r.0.now.boxes.now.pieces)) };

    #[tactic(auto, unfolding(crate::specs::FlowDot::rest_dot))]
    fn fmt<W: fmt::Write>(&self, f: &mut fmt::Formatter<W>) -> fmt::Result {
        let Picture { flow, boxes } = *self.0;
        let steps = UpTo(boxes, boxes.steps.len());
        let edges = Edges(flow);
        let edges = UpTo(&edges, flow.edges.len());
        write!(f, "{steps}{edges}")
    }
}

// The pieces of a flow graph, each with its number, its kind and its line.
#[derive(Clone, Copy)]
struct Pieces<'a>(&'a PrintedFlow);

impl Numbered for Pieces<'_> {
    ghost text = { λ p k. if_there (piece_dot k) (slice_get p.0.now.pieces.items k) };

    fn put<W: fmt::Write>(&self, number: usize, f: &mut fmt::Formatter<W>) -> fmt::Result {
        match self.0.pieces.get(number) {
            Some(piece) => put_piece(number, *piece, f),
            None => Ok(()),
        }
    }
}

// Writes a piece.
#[tactic(auto, unfolding(crate::specs::FlowDot::piece_dot))]
fn put_piece<W: fmt::Write>(number: usize, piece: Piece, f: &mut fmt::Formatter<W>) -> fmt::Result
    ensures { WritesOnOk W.write_str_gives f.old result (piece_dot number piece) f.new }
{
    let label = Label(number, piece);
    writeln!(f, "  p{number} [label=\"{label}\"];")
}

// The words in a piece with this number.
#[derive(Clone, Copy)]
struct Label(usize, Piece);

impl fmt::Display for Label {
    ghost output = { λ l. Some (label_text l.0 l.1) };

    #[tactic(auto, unfolding(crate::specs::FlowDot::label_text))]
    fn fmt<W: fmt::Write>(&self, f: &mut fmt::Formatter<W>) -> fmt::Result {
        let Label(number, piece) = *self;
        let kind = kind_name(piece.kind);
        let line = piece.line;
        write!(f, "{kind} {number}\\nline {line}")
    }
}

// The edges of a flow graph.
#[derive(Clone, Copy)]
struct Edges<'a>(&'a PrintedFlow);

impl Numbered for Edges<'_> {
    ghost text = { λ e k. if_there (edge_dot k) (slice_get e.0.now.edges.items k) };

    fn put<W: fmt::Write>(&self, number: usize, f: &mut fmt::Formatter<W>) -> fmt::Result {
        match self.0.edges.get(number) {
            Some(edge) => put_edge(number, *edge, f),
            None => Ok(()),
        }
    }
}

// Writes an edge.
#[tactic(auto, unfolding(crate::specs::FlowDot::edge_dot))]
fn put_edge<W: fmt::Write>(number: usize, edge: Edge, f: &mut fmt::Formatter<W>) -> fmt::Result
    ensures { WritesOnOk W.write_str_gives f.old result (edge_dot number edge) f.new }
{
    let ends = Ends(edge);
    let name = Name(number, edge.class);
    let hue = Hue(number, edge);
    writeln!(f, "{ends} [label=\"{name}\"{hue}];")
}

// The pieces that an edge joins.
#[derive(Clone, Copy)]
struct Ends(Edge);

impl fmt::Display for Ends {
    ghost output = { λ e. Some (ends_text e.0) };

    #[tactic(auto, unfolding(crate::specs::FlowDot::ends_text))]
    fn fmt<W: fmt::Write>(&self, f: &mut fmt::Formatter<W>) -> fmt::Result {
        let Edge { from, to, .. } = self.0;
        write!(f, "  p{from} -> p{to}")
    }
}

// The number of an edge, and that of its class.
#[derive(Clone, Copy)]
struct Name(usize, u32);

impl fmt::Display for Name {
    ghost output = { λ n. Some (name_text n.0 n.1) };

    #[tactic(auto, unfolding(crate::specs::FlowDot::name_text))]
    fn fmt<W: fmt::Write>(&self, f: &mut fmt::Formatter<W>) -> fmt::Result {
        let Name(number, class) = *self;
        write!(f, "{number}:c{class}")
    }
}

// The colour of an edge with this number, and whether it moves pieces.
#[derive(Clone, Copy)]
struct Hue(usize, Edge);

impl fmt::Display for Hue {
    ghost output = { λ h. Some (hue_text h.0 h.1) };

    #[tactic(auto, unfolding(crate::specs::FlowDot::hue_text))]
    fn fmt<W: fmt::Write>(&self, f: &mut fmt::Formatter<W>) -> fmt::Result {
        let Hue(number, edge) = *self;
        let colour = colour(edge.class as usize);
        if number == 0 || edge.to <= edge.from {
            write!(f, ", color=\"{colour}\", constraint=false")
        } else {
            write!(f, ", color=\"{colour}\"")
        }
    }
}
