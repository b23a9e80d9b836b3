//! What stands beside and behind the lanes.

ghost use Rattle.std.specs.Prelude.{Some};
ghost use Rattle.lane_parts.specs.Grounds.{frame_svg, name_svg, note_svg, statement_svg, tag_text};

use std::fmt;
use svg_text::{Part, Place, Rectangle, SourceLine};

/// A statement at its row.
#[derive(Clone, Copy)]
pub struct Statement<'a> {
    /// How far down the thin rule above it is, and where that ends.
    pub rule: u32,
    pub end: u32,
    /// Its line of the source.
    pub source: SourceLine<'a>,
}

impl Part for Statement<'_> {
    ghost text = { statement_svg };

    #[tactic(auto, unfolding(crate::specs::Grounds::statement_svg))]
    fn put<W: fmt::Write>(&self, f: &mut fmt::Formatter<W>) -> fmt::Result {
        let Statement { rule, end, source } = *self;
        writeln!(f, "<path class=\"rule\" d=\"M8 {rule}H{end}\"/>{source}")
    }
}

/// A region as a box.
#[derive(Clone, Copy)]
pub struct Frame {
    /// Its number, counted from 1.
    pub region: u32,
    /// Where it is.
    pub square: Rectangle,
}

impl Part for Frame {
    ghost text = { frame_svg };

    #[tactic(auto, unfolding(crate::specs::Grounds::frame_svg))]
    fn put<W: fmt::Write>(&self, f: &mut fmt::Formatter<W>) -> fmt::Result {
        let Frame { region, square } = *self;
        writeln!(
            f,
            "<rect class=\"box\" rx=\"8\"{square}><title>region {region}</title></rect>"
        )
    }
}

/// What a row says beside the lanes.
#[derive(Drop)]
pub struct Note {
    /// The node that it speaks of.
    pub node: u32,
    /// Where it begins.
    pub place: Place,
    /// What it says.
    pub text: String,
}

impl Part for Note {
    ghost text = { note_svg };

    #[tactic(auto, unfolding(crate::specs::Grounds::note_svg))]
    fn put<W: fmt::Write>(&self, f: &mut fmt::Formatter<W>) -> fmt::Result {
        let node = self.node;
        let place = self.place;
        let text = self.text.as_str();
        writeln!(
            f,
            "<text class=\"op\" data-node=\"{node}\"{place}>{text}</text>"
        )
    }
}

/// The name above a lane.
#[derive(Drop)]
pub struct Name {
    /// Its middle: how far right the lane is, and how far down it stands.
    pub place: Place,
    /// The number of its colour.
    pub colour: u32,
    /// The names of its words.
    pub text: String,
}

impl Part for Name {
    ghost text = { name_svg };

    #[tactic(auto, unfolding(crate::specs::Grounds::name_svg))]
    fn put<W: fmt::Write>(&self, f: &mut fmt::Formatter<W>) -> fmt::Result {
        let tag = Tag(self.colour);
        let place = self.place;
        let text = self.text.as_str();
        writeln!(f, "{tag}{place}>{text}</text>")
    }
}

// The beginning of the name of a lane of this colour.
#[derive(Clone, Copy)]
struct Tag(u32);

impl fmt::Display for Tag {
    ghost output = { λ t. Some (tag_text t.0) };

    #[tactic(auto, unfolding(crate::specs::Grounds::tag_text))]
    fn fmt<W: fmt::Write>(&self, f: &mut fmt::Formatter<W>) -> fmt::Result {
        let colour = self.0;
        write!(f, "<text class=\"head f{colour}\" text-anchor=\"middle\"")
    }
}
