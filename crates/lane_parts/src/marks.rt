//! The marks on the lanes.

ghost use Rattle.std.specs.Prelude.{Some};
ghost use Rattle.lane_parts.specs.Marks.{corner_text, diamond_svg, mark_svg, on_text, spot_svg, square_svg, triangle_svg};

use std::fmt;
use svg_text::Part;

/// How a mark looks.
#[derive(Clone, Copy)]
pub enum Shape {
    /// A ring: the token is only read.
    Ring,
    /// A disc: words change, or something is printed, read, begun or decided.
    Disc,
    /// A square: the run may stop here.
    Square,
    /// A diamond: it leads tokens on where ways part.
    Diamond,
    /// A triangle: it takes tokens in where ways come together.
    Triangle,
}

/// The place of a node on a lane, shown as its shape.
#[derive(Clone, Copy)]
pub struct Spot {
    /// The node.
    pub node: usize,
    /// The token line.
    pub line: u32,
    /// How far right and how far down its middle is.
    pub x: u32,
    pub y: u32,
    /// The number of its colour.
    pub colour: u32,
    /// How it looks.
    pub shape: Shape,
}

impl fmt::Display for Spot {
    ghost output = { λ s. Some (spot_svg s) };

    #[tactic(auto, unfolding(crate::specs::Marks::spot_svg))]
    fn fmt<W: fmt::Write>(&self, f: &mut fmt::Formatter<W>) -> fmt::Result {
        let Spot { x, y, colour, .. } = *self;
        match self.shape {
            Shape::Ring => write!(
                f,
                "<circle r=\"5\" class=\"mark way open c{colour}\" cx=\"{x}\" cy=\"{y}\"/>"
            ),
            Shape::Disc => write!(
                f,
                "<circle r=\"6\" class=\"mark f{colour}\" cx=\"{x}\" cy=\"{y}\"/>"
            ),
            Shape::Square => {
                let square = Square(Corner(x.saturating_sub(5), y.saturating_sub(5)), colour);
                write!(f, "{square}")
            }
            Shape::Diamond => {
                let diamond = Diamond(Corner(x, y.saturating_sub(7)), colour);
                write!(f, "{diamond}")
            }
            Shape::Triangle => {
                let triangle = Triangle(Corner(x.saturating_sub(7), y.saturating_sub(5)), colour);
                write!(f, "{triangle}")
            }
        }
    }
}

// A square, from a corner, and the number of its colour.
#[derive(Clone, Copy)]
struct Square(Corner, u32);

impl fmt::Display for Square {
    ghost output = { λ s. Some (square_svg s.0.0 s.0.1 s.1) };

    #[tactic(auto, unfolding(crate::specs::Marks::square_svg))]
    fn fmt<W: fmt::Write>(&self, f: &mut fmt::Formatter<W>) -> fmt::Result {
        let Square(corner, colour) = *self;
        write!(f, "<path class=\"mark f{colour}{corner}h10v10h-10z\"/>")
    }
}

// A diamond, from a corner, and the number of its colour.
#[derive(Clone, Copy)]
struct Diamond(Corner, u32);

impl fmt::Display for Diamond {
    ghost output = { λ s. Some (diamond_svg s.0.0 s.0.1 s.1) };

    #[tactic(auto, unfolding(crate::specs::Marks::diamond_svg))]
    fn fmt<W: fmt::Write>(&self, f: &mut fmt::Formatter<W>) -> fmt::Result {
        let Diamond(corner, colour) = *self;
        write!(
            f,
            "<path class=\"mark way open c{colour}{corner}l7 7l-7 7l-7 -7z\"/>"
        )
    }
}

// A triangle, from a corner, and the number of its colour.
#[derive(Clone, Copy)]
struct Triangle(Corner, u32);

impl fmt::Display for Triangle {
    ghost output = { λ s. Some (triangle_svg s.0.0 s.0.1 s.1) };

    #[tactic(auto, unfolding(crate::specs::Marks::triangle_svg))]
    fn fmt<W: fmt::Write>(&self, f: &mut fmt::Formatter<W>) -> fmt::Result {
        let Triangle(corner, colour) = *self;
        write!(
            f,
            "<path class=\"mark way open c{colour}{corner}h14l-7 11z\"/>"
        )
    }
}

// Where a path begins, behind its class.
#[derive(Clone, Copy)]
struct Corner(u32, u32);

impl fmt::Display for Corner {
    ghost output = { λ c. Some (corner_text c.0 c.1) };

    #[tactic(auto, unfolding(crate::specs::Marks::corner_text))]
    fn fmt<W: fmt::Write>(&self, f: &mut fmt::Formatter<W>) -> fmt::Result {
        let Corner(x, y) = *self;
        write!(f, "\" d=\"M{x} {y}")
    }
}

/// A node on a lane.
#[derive(Drop)]
pub struct Mark {
    /// Its place.
    pub spot: Spot,
    /// What it tells who points at it.
    pub title: String,
}

impl Part for Mark {
    ghost text = { mark_svg };

    #[tactic(auto, unfolding(crate::specs::Marks::mark_svg))]
    fn put<W: fmt::Write>(&self, f: &mut fmt::Formatter<W>) -> fmt::Result {
        let spot = self.spot;
        let on = On {
            node: spot.node,
            line: spot.line,
        };
        let title = self.title.as_str();
        writeln!(f, "<g{on}><title>{title}</title>{spot}</g>")
    }
}

// A node on a token line, as attributes.
#[derive(Clone, Copy)]
struct On {
    node: usize,
    line: u32,
}

impl fmt::Display for On {
    ghost output = { λ o. Some (on_text o.node o.line) };

    #[tactic(auto, unfolding(crate::specs::Marks::on_text))]
    fn fmt<W: fmt::Write>(&self, f: &mut fmt::Formatter<W>) -> fmt::Result {
        let On { node, line } = *self;
        write!(f, " data-node=\"{node}\" data-line=\"{line}\"")
    }
}
