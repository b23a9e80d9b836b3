//! The ways of tokens along the lanes, from mark to mark.

ghost use Rattle.std.specs.Prelude.{◌≡◌, ◌++◌, ◌+◌, ◌-◌, Some, codes};
ghost use Rattle.lane_parts.specs.Ways.{arrow_svg, bend_text, label_svg, leaving_x, leaving_y, line_svg, look_text, path_text, point_text, tip_svg, way_svg};

use std::fmt;
use svg_text::Part;

/// On which side of its lane a way runs.
#[derive(Clone, Copy, PartialEq, Eq)]
pub enum Side {
    /// Straight down the lane.
    Straight,
    /// At the right, back to a place above.
    Back,
    /// At the left, past other marks.
    Past,
    /// At the left, past other marks to the end of the chart.
    Out,
}

/// By which answer of a decision a way leaves.
#[derive(Clone, Copy, PartialEq, Eq, PartialOrd, Ord)]
pub enum Exit {
    /// No value decides.
    Only,
    /// The value is true.
    True,
    /// The value is false.
    False,
    /// The way with this number, counted from 1, of three or more.
    Case(u32),
}

/// How strong a way is drawn.
#[derive(Clone, Copy)]
pub enum Look {
    /// As others.
    Plain,
    /// Thin: the words of the lane are only read.
    Thin,
    /// Faint: nothing takes the token after it.
    Faint,
}

impl fmt::Display for Look {
    ghost output = { λ l. Some (look_text l) };

    #[tactic(auto, unfolding(crate::specs::Ways::look_text))]
    fn fmt<W: fmt::Write>(&self, f: &mut fmt::Formatter<W>) -> fmt::Result {
        match *self {
            Look::Plain => Ok(()),
            Look::Thin => write!(f, " thin"),
            Look::Faint => write!(f, " faint"),
        }
    }
}

/// A way of tokens along a lane.
#[derive(Clone, Copy)]
pub struct Way {
    /// The side on which it runs.
    pub side: Side,
    /// How far right its lane is.
    pub x: u32,
    /// How far from the lane it runs.
    pub reach: u32,
    /// How far down it begins and ends.
    pub from: u32,
    pub to: u32,
    /// By which answer of a decision it leaves, and how far from the lane that stands.
    pub exit: Exit,
    pub beside: u32,
    /// The number of its colour.
    pub colour: u32,
    /// How strong it is drawn.
    pub look: Look,
}

impl Part for Way {
    ghost text = { way_svg };

    #[tactic(auto, unfolding(crate::specs::Ways::way_svg))]
    fn put<W: fmt::Write>(&self, f: &mut fmt::Formatter<W>) -> fmt::Result {
        let line = Line(*self);
        let arrow = Arrow(*self);
        let label = Label(*self);
        write!(f, "{line}{arrow}{label}")
    }
}

// The line of a way.
#[derive(Clone, Copy)]
struct Line(Way);

impl fmt::Display for Line {
    ghost output = { λ l. Some (line_svg l.0) };

    #[tactic(auto, unfolding(crate::specs::Ways::line_svg))]
    fn fmt<W: fmt::Write>(&self, f: &mut fmt::Formatter<W>) -> fmt::Result {
        let Way { colour, look, .. } = self.0;
        let path = Path(self.0);
        writeln!(f, "<path class=\"way c{colour}{look}\" d=\"{path}\"/>")
    }
}

// A point of a path: how far right and how far down.
#[derive(Clone, Copy)]
struct Point(u64, u64);

impl fmt::Display for Point {
    ghost output = { λ p. Some (point_text p.0 p.1) };

    #[tactic(auto, unfolding(crate::specs::Ways::point_text))]
    fn fmt<W: fmt::Write>(&self, f: &mut fmt::Formatter<W>) -> fmt::Result {
        let Point(x, y) = *self;
        write!(f, "{x} {y}")
    }
}

// A piece of a path: straight to a point, and around a corner to another.
#[derive(Clone, Copy)]
struct Bend {
    near: Point,
    corner: Point,
    end: Point,
}

impl fmt::Display for Bend {
    ghost output = { λ b. Some (bend_text b.near.0 b.near.1 b.corner.0 b.corner.1 b.end.0 b.end.1) };

    #[tactic(auto, unfolding(crate::specs::Ways::bend_text))]
    fn fmt<W: fmt::Write>(&self, f: &mut fmt::Formatter<W>) -> fmt::Result {
        let Bend { near, corner, end } = *self;
        write!(f, "L{near}Q{corner} {end}")
    }
}

// The last piece of a path: a bend, and straight to a point.
#[derive(Clone, Copy)]
struct Home {
    bend: Bend,
    end: Point,
}

impl fmt::Display for Home {
    ghost output = { λ h. Some (bend_text h.bend.near.0 h.bend.near.1 h.bend.corner.0 h.bend.corner.1 h.bend.end.0 h.bend.end.1 ++ codes "L" ++ point_text h.end.0 h.end.1) };

    fn fmt<W: fmt::Write>(&self, f: &mut fmt::Formatter<W>) -> fmt::Result {
        let Home { bend, end } = *self;
        write!(f, "{bend}L{end}")
    }
}

// The path of a way: straight down, in a bow at the right, or in one at the left.
#[derive(Clone, Copy)]
struct Path(Way);

impl fmt::Display for Path {
    ghost output = { λ p. Some (path_text p.0) };

    #[tactic(auto, unfolding(crate::specs::Ways::path_text))]
    fn fmt<W: fmt::Write>(&self, f: &mut fmt::Formatter<W>) -> fmt::Result {
        let Way {
            side,
            x,
            reach,
            from,
            to,
            ..
        } = self.0;
        let x = u64::from(x);
        let from = u64::from(from);
        let to = u64::from(to);
        let begin = Point(x, from);
        let right = x + u64::from(reach);
        let left = x.saturating_sub(u64::from(reach));
        let out = Bend {
            near: Point(left + 6, from),
            corner: Point(left, from),
            end: Point(left, from + 6),
        };
        match side {
            Side::Straight => {
                let end = Point(x, to);
                write!(f, "M{begin}L{end}")
            }
            Side::Back => {
                let inner = right.saturating_sub(6);
                let out = Bend {
                    near: Point(inner, from),
                    corner: Point(right, from),
                    end: Point(right, from.saturating_sub(6)),
                };
                let bend = Bend {
                    near: Point(right, to + 6),
                    corner: Point(right, to),
                    end: Point(inner, to),
                };
                let end = Point(x + 12, to);
                let home = Home { bend, end };
                write!(f, "M{begin}{out}{home}")
            }
            Side::Past => {
                let bend = Bend {
                    near: Point(left, to.saturating_sub(6)),
                    corner: Point(left, to),
                    end: Point(left + 6, to),
                };
                let end = Point(x.saturating_sub(12), to);
                let home = Home { bend, end };
                write!(f, "M{begin}{out}{home}")
            }
            Side::Out => {
                let end = Point(left, to);
                write!(f, "M{begin}{out}L{end}")
            }
        }
    }
}

// The arrow at the end of a way that comes to a mark from a side.
#[derive(Clone, Copy)]
struct Arrow(Way);

impl fmt::Display for Arrow {
    ghost output = { λ a. Some (arrow_svg a.0) };

    #[tactic(auto, unfolding(crate::specs::Ways::arrow_svg))]
    fn fmt<W: fmt::Write>(&self, f: &mut fmt::Formatter<W>) -> fmt::Result {
        let colour = self.0.colour;
        let x = u64::from(self.0.x);
        let y = u64::from(self.0.to);
        match self.0.side {
            Side::Straight | Side::Out => Ok(()),
            Side::Back => {
                let tip = Tip(Point(x + 8, y), colour);
                writeln!(f, "{tip}l6 -4v8z\"/>")
            }
            Side::Past => {
                let tip = Tip(Point(x.saturating_sub(8), y), colour);
                writeln!(f, "{tip}l-6 -4v8z\"/>")
            }
        }
    }
}

// An arrow up to its tip, and the number of its colour.
#[derive(Clone, Copy)]
struct Tip(Point, u32);

impl fmt::Display for Tip {
    ghost output = { λ t. Some (tip_svg t.0.0 t.0.1 t.1) };

    #[tactic(auto, unfolding(crate::specs::Ways::tip_svg))]
    fn fmt<W: fmt::Write>(&self, f: &mut fmt::Formatter<W>) -> fmt::Result {
        let Tip(at, colour) = *self;
        write!(f, "<path class=\"f{colour}\" d=\"M{at}")
    }
}

// The answer of a decision by which a way leaves, if there is one, where it leaves.
#[derive(Clone, Copy)]
struct Label(Way);

impl fmt::Display for Label {
    ghost output = { λ l. Some (label_svg l.0) };

    #[tactic(auto, unfolding(crate::specs::Ways::label_svg))]
    fn fmt<W: fmt::Write>(&self, f: &mut fmt::Formatter<W>) -> fmt::Result {
        let Point(x, y) = leaving(self.0);
        match self.0.exit {
            Exit::Only => Ok(()),
            Exit::True => writeln!(f, "<text class=\"small\" x=\"{x}\" y=\"{y}\">T</text>"),
            Exit::False => writeln!(f, "<text class=\"small\" x=\"{x}\" y=\"{y}\">F</text>"),
            Exit::Case(number) => {
                writeln!(
                    f,
                    "<text class=\"small\" x=\"{x}\" y=\"{y}\">{number}</text>"
                )
            }
        }
    }
}

// Where the answer stands: below the place where a way leaves, or above it at the right or at the left.
fn leaving(way: Way) -> Point
    ensures x { result.0 ≡ leaving_x way.side (way.x + way.beside) (way.x - way.reach) }
    ensures y { result.1 ≡ leaving_y way.side way.from }
{
    let beside = u64::from(way.x) + u64::from(way.beside);
    let left = u64::from(way.x.saturating_sub(way.reach));
    let y = u64::from(way.from);
    match way.side {
        Side::Straight => Point(beside, y + 17),
        Side::Back => Point(beside, y.saturating_sub(3)),
        Side::Past | Side::Out => Point(left + 1, y.saturating_sub(4)),
    }
}
