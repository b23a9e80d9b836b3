//! A lane chart, laid out.

ghost use Rattle.std.specs.Prelude.{Some};
ghost use Rattle.lane_parts.specs.Chart.{chart_svg, grounds_svg, lanes_svg, legends_svg, named_svg};

use crate::{Frame, Mark, Name, Note, Statement, Way};
use std::fmt;
use svg_text::{Each, Legend, Opening, Place};

// What the marks, and what boxes and words mean.
const MARKS: &str =
    "\u{25cb} reads, \u{25cf} writes, prints, begins or decides, \u{25a0} may stop the run, \u{25c7} parts, \u{25bd} comes together";

const REGIONS: &str =
    "a box is a region; a lane without a mark in it bypasses it; A(#3) is word 3 of A";

/// A lane chart.
#[derive(Drop)]
pub struct Chart<'a> {
    /// The size of the page.
    pub width: u32,
    pub height: u32,
    /// The statements.
    pub statements: Vec<Statement<'a>>,
    /// The boxes, each after those around it.
    pub frames: Vec<Frame>,
    /// What the rows say.
    pub notes: Vec<Note>,
    /// The ways of tokens.
    pub ways: Vec<Way>,
    /// What stands above the lanes.
    pub names: Vec<Name>,
    /// The nodes on the lanes.
    pub marks: Vec<Mark>,
}

impl fmt::Display for Chart<'_> {
    ghost output = { λ c. Some (chart_svg c) };

    #[tactic(auto, unfolding(crate::specs::Chart::chart_svg))]
    fn fmt<W: fmt::Write>(&self, f: &mut fmt::Formatter<W>) -> fmt::Result {
        let opening = Opening {
            class: "lanes",
            width: self.width,
            height: self.height,
        };
        let grounds = Grounds(self);
        let lanes = Lanes(self);
        writeln!(f, "{opening}{grounds}{lanes}</svg>")
    }
}

// What stands behind and beside the lanes.
#[derive(Clone, Copy)]
struct Grounds<'a, 'b>(&'a Chart<'b>);

impl fmt::Display for Grounds<'_, '_> {
    ghost output = { λ g. Some (grounds_svg g.0.now) };

    #[tactic(auto, unfolding(crate::specs::Chart::grounds_svg))]
    fn fmt<W: fmt::Write>(&self, f: &mut fmt::Formatter<W>) -> fmt::Result {
        let statements = Each(self.0.statements.as_slice());
        let frames = Each(self.0.frames.as_slice());
        let notes = Each(self.0.notes.as_slice());
        write!(f, "{statements}{frames}{notes}")
    }
}

// The lanes with their marks, and what these mean.
#[derive(Clone, Copy)]
struct Lanes<'a, 'b>(&'a Chart<'b>);

impl fmt::Display for Lanes<'_, '_> {
    ghost output = { λ l. Some (lanes_svg l.0.now) };

    #[tactic(auto, unfolding(crate::specs::Chart::lanes_svg))]
    fn fmt<W: fmt::Write>(&self, f: &mut fmt::Formatter<W>) -> fmt::Result {
        let ways = Each(self.0.ways.as_slice());
        let named = Named(self.0);
        let legends = Legends(self.0.height);
        write!(f, "{ways}{named}{legends}")
    }
}

// The names above the lanes, and the marks on them.
#[derive(Clone, Copy)]
struct Named<'a, 'b>(&'a Chart<'b>);

impl fmt::Display for Named<'_, '_> {
    ghost output = { λ n. Some (named_svg n.0.now) };

    #[tactic(auto, unfolding(crate::specs::Chart::named_svg))]
    fn fmt<W: fmt::Write>(&self, f: &mut fmt::Formatter<W>) -> fmt::Result {
        let names = Each(self.0.names.as_slice());
        let marks = Each(self.0.marks.as_slice());
        write!(f, "{names}{marks}")
    }
}

// What the marks mean, above the end of a page so high.
#[derive(Clone, Copy)]
struct Legends(u32);

impl fmt::Display for Legends {
    ghost output = { λ l. Some (legends_svg l.0) };

    #[tactic(auto, unfolding(crate::specs::Chart::legends_svg))]
    fn fmt<W: fmt::Write>(&self, f: &mut fmt::Formatter<W>) -> fmt::Result {
        let marks = Legend {
            place: Place(8, self.0.saturating_sub(40)),
            words: MARKS,
        };
        let regions = Legend {
            place: Place(8, self.0.saturating_sub(20)),
            words: REGIONS,
        };
        write!(f, "{marks}{regions}")
    }
}
