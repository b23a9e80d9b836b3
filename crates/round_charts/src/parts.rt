//! The parts of a picture of rounds, at their places in pixels, and the text of each in SVG.

ghost use Rattle.std.specs.Prelude.{Some, string_bytes};
ghost use Rattle.round_charts.specs.Parts.{band_svg, cell_svg, face_svg, foot_svg, grid_svg, head_svg, heading_svg, key_svg, later_svg, letters_svg, of_text, over_svg, rounds_svg, ruler_svg, shade_svg, style_text};

use std::fmt;
use svg_text::{Each, Legend, Opening, Part, Place, Rectangle, SourceLine};

// What columns and bars mean.
const COLUMNS: &str =
    "a column is a round: all that fires in it could do so at once; the bar above it tells how much that is";

/// A picture of rounds.
#[derive(Drop)]
pub struct Rounds<'a> {
    /// Its size.
    pub width: u32,
    pub height: u32,
    /// How many rounds are shown, and how many firings there are with those that come later.
    pub rounds: u32,
    pub firings: usize,
    /// The bars and the numbers above the rounds.
    pub rulers: Vec<Ruler>,
    /// The lines of the source.
    pub bands: Vec<Band<'a>>,
    /// The firings.
    pub cells: Vec<DrawnCell>,
    /// What the colours mean.
    pub keys: Vec<Key>,
}

impl fmt::Display for Rounds<'_> {
    ghost output = { λ r. Some (rounds_svg r) };

    #[tactic(auto, unfolding(crate::specs::Parts::rounds_svg))]
    fn fmt<W: fmt::Write>(&self, f: &mut fmt::Formatter<W>) -> fmt::Result {
        let opening = Opening {
            class: "rounds",
            width: self.width,
            height: self.height,
        };
        let grid = Grid(self);
        let foot = Foot(self);
        writeln!(f, "{opening}{grid}{foot}</svg>")
    }
}

// What stands above the columns, with the bars.
#[derive(Clone, Copy)]
struct Head<'a, 'b>(&'a Rounds<'b>);

impl fmt::Display for Head<'_, '_> {
    ghost output = { λ h. Some (head_svg h.0.now) };

    #[tactic(auto, unfolding(crate::specs::Parts::head_svg))]
    fn fmt<W: fmt::Write>(&self, f: &mut fmt::Formatter<W>) -> fmt::Result {
        let firings = self.0.cells.len();
        let heading = Heading {
            firings,
            rounds: self.0.rounds,
            later: self.0.firings.saturating_sub(firings),
        };
        let rulers = Each(self.0.rulers.as_slice());
        write!(f, "{heading}{rulers}")
    }
}

// The head, the lines of the source, and the firings.
#[derive(Clone, Copy)]
struct Grid<'a, 'b>(&'a Rounds<'b>);

impl fmt::Display for Grid<'_, '_> {
    ghost output = { λ g. Some (grid_svg g.0.now) };

    #[tactic(auto, unfolding(crate::specs::Parts::grid_svg))]
    fn fmt<W: fmt::Write>(&self, f: &mut fmt::Formatter<W>) -> fmt::Result {
        let head = Head(self.0);
        let bands = Each(self.0.bands.as_slice());
        let cells = Each(self.0.cells.as_slice());
        write!(f, "{head}{bands}{cells}")
    }
}

// What the colours, the columns and the bars mean.
#[derive(Clone, Copy)]
struct Foot<'a, 'b>(&'a Rounds<'b>);

impl fmt::Display for Foot<'_, '_> {
    ghost output = { λ l. Some (foot_svg l.0.now) };

    #[tactic(auto, unfolding(crate::specs::Parts::foot_svg))]
    fn fmt<W: fmt::Write>(&self, f: &mut fmt::Formatter<W>) -> fmt::Result {
        let keys = Each(self.0.keys.as_slice());
        let legend = Legend {
            place: Place(8, self.0.height.saturating_sub(12)),
            words: COLUMNS,
        };
        write!(f, "{keys}{legend}")
    }
}

// How many firings there are in how many rounds, and how many come later.
#[derive(Clone, Copy)]
struct Heading {
    firings: usize,
    rounds: u32,
    later: usize,
}

impl fmt::Display for Heading {
    ghost output = { λ h. Some (heading_svg h.firings h.rounds h.later) };

    #[tactic(auto, unfolding(crate::specs::Parts::heading_svg))]
    fn fmt<W: fmt::Write>(&self, f: &mut fmt::Formatter<W>) -> fmt::Result {
        let Heading {
            firings,
            rounds,
            later,
        } = *self;
        let later = Later(later);
        write!(
            f,
            "<text class=\"head\" x=\"8\" y=\"20\">{firings} firings in {rounds} rounds</text>\n{later}"
        )
    }
}

// How many firings are left out, if any.
#[derive(Clone, Copy)]
struct Later(usize);

impl fmt::Display for Later {
    ghost output = { λ l. Some (later_svg l.0) };

    #[tactic(auto, unfolding(crate::specs::Parts::later_svg))]
    fn fmt<W: fmt::Write>(&self, f: &mut fmt::Formatter<W>) -> fmt::Result {
        let later = self.0;
        if later == 0 {
            return Ok(());
        }
        writeln!(
            f,
            "<text class=\"faint\" x=\"8\" y=\"38\">{later} later ones are left out</text>"
        )
    }
}

/// What stands above the rounds.
#[derive(Clone, Copy)]
pub enum Ruler {
    /// A bar: how many nodes fire in a round.
    Bar(Rectangle),
    /// A number, and its middle.
    Number { place: Place, number: u64 },
}

impl Part for Ruler {
    ghost text = { ruler_svg };

    #[tactic(auto, unfolding(crate::specs::Parts::ruler_svg))]
    fn put<W: fmt::Write>(&self, f: &mut fmt::Formatter<W>) -> fmt::Result {
        match *self {
            Ruler::Bar(bar) => writeln!(f, "<rect class=\"bar\"{bar}/>"),
            Ruler::Number { place, number } => {
                writeln!(f, "<text class=\"axis\"{place}>{number}</text>")
            }
        }
    }
}

/// The rows of a line of the source.
#[derive(Clone, Copy)]
pub struct Band<'a> {
    /// The line.
    pub source: SourceLine<'a>,
    /// The ground of its rows, which every other line has.
    pub shade: Option<Rectangle>,
}

impl Part for Band<'_> {
    ghost text = { band_svg };

    #[tactic(auto, unfolding(crate::specs::Parts::band_svg))]
    fn put<W: fmt::Write>(&self, f: &mut fmt::Formatter<W>) -> fmt::Result {
        let source = self.source;
        let shade = Shade(self.shade);
        writeln!(f, "{shade}{source}")
    }
}

// The ground of rows, if they have one.
#[derive(Clone, Copy)]
struct Shade(Option<Rectangle>);

impl fmt::Display for Shade {
    ghost output = { λ g. Some (shade_svg g.0) };

    #[tactic(auto, unfolding(crate::specs::Parts::shade_svg))]
    fn fmt<W: fmt::Write>(&self, f: &mut fmt::Formatter<W>) -> fmt::Result {
        match self.0 {
            Some(shade) => writeln!(f, "<rect class=\"band\"{shade}/>"),
            None => Ok(()),
        }
    }
}

/// What a node does, by which it has its colour.
#[derive(Clone, Copy)]
pub enum Style {
    /// It reads a word.
    Load,
    /// It writes a word.
    Store,
    /// It prints, or takes a number of the data.
    Print,
    /// It applies an operator.
    Apply,
    /// It begins a DO, goes on in one, or decides.
    Steer,
    /// It leads tokens on or takes them in.
    Route,
}

impl fmt::Display for Style {
    ghost output = { λ s. Some (style_text s) };

    #[tactic(auto, unfolding(crate::specs::Parts::style_text))]
    fn fmt<W: fmt::Write>(&self, f: &mut fmt::Formatter<W>) -> fmt::Result {
        match *self {
            Style::Load => write!(f, "load"),
            Style::Store => write!(f, "store"),
            Style::Print => write!(f, "print"),
            Style::Apply => write!(f, "apply"),
            Style::Steer => write!(f, "steer"),
            Style::Route => write!(f, "route"),
        }
    }
}

/// What a colour means.
#[derive(Clone, Copy)]
pub struct Key {
    /// The colour.
    pub style: Style,
    /// A square of that colour.
    pub square: Rectangle,
    /// What it means.
    pub legend: Legend<'static>,
}

impl Part for Key {
    ghost text = { key_svg };

    #[tactic(auto, unfolding(crate::specs::Parts::key_svg))]
    fn put<W: fmt::Write>(&self, f: &mut fmt::Formatter<W>) -> fmt::Result {
        let Key {
            style,
            square,
            legend,
        } = *self;
        write!(f, "<g class=\"key {style}\"><rect{square}/></g>{legend}")
    }
}

/// A firing.
#[derive(Drop)]
pub struct DrawnCell {
    /// Its place in the run, and its node.
    pub firing: usize,
    pub node: u32,
    /// Its round, counted from 1.
    pub round: u32,
    /// Its place and its size.
    pub square: Rectangle,
    /// Its colour.
    pub style: Style,
    /// What it tells who points at it.
    pub title: String,
    /// A few letters on it, if it has room for them.
    pub letters: Option<Letters>,
}

/// A few letters on a firing.
#[derive(Drop)]
pub struct Letters {
    /// Their middle.
    pub place: Place,
    /// The letters.
    pub text: String,
}

impl fmt::Display for Letters {
    ghost output = { λ l. Some (letters_svg l) };

    #[tactic(auto, unfolding(crate::specs::Parts::letters_svg))]
    fn fmt<W: fmt::Write>(&self, f: &mut fmt::Formatter<W>) -> fmt::Result {
        let place = self.place;
        let text = self.text.as_str();
        write!(f, "<text{place}>{text}</text>")
    }
}

impl Part for DrawnCell {
    ghost text = { cell_svg };

    #[tactic(auto, unfolding(crate::specs::Parts::cell_svg))]
    fn put<W: fmt::Write>(&self, f: &mut fmt::Formatter<W>) -> fmt::Result {
        let style = self.style;
        let of = Of {
            node: self.node,
            firing: self.firing,
        };
        let face = Face(self);
        writeln!(f, "<g class=\"cell {style}\"{of}>{face}</g>")
    }
}

// The node and the firing of a cell, as attributes.
#[derive(Clone, Copy)]
struct Of {
    node: u32,
    firing: usize,
}

impl fmt::Display for Of {
    ghost output = { λ o. Some (of_text o.node o.firing) };

    #[tactic(auto, unfolding(crate::specs::Parts::of_text))]
    fn fmt<W: fmt::Write>(&self, f: &mut fmt::Formatter<W>) -> fmt::Result {
        let Of { node, firing } = *self;
        write!(f, " data-node=\"{node}\" data-firing=\"{firing}\"")
    }
}

// What a firing tells, and its square with the letters on it.
#[derive(Clone, Copy)]
struct Face<'a>(&'a DrawnCell);

impl fmt::Display for Face<'_> {
    ghost output = { λ c. Some (face_svg (string_bytes c.0.now.title) c.0.now.square c.0.now.letters) };

    #[tactic(auto, unfolding(crate::specs::Parts::face_svg))]
    fn fmt<W: fmt::Write>(&self, f: &mut fmt::Formatter<W>) -> fmt::Result {
        let title = self.0.title.as_str();
        let square = self.0.square;
        let over = Over(&self.0.letters);
        write!(f, "<title>{title}</title><rect{square}/>{over}")
    }
}

// The letters on a firing, if there are any.
#[derive(Clone, Copy)]
struct Over<'a>(&'a Option<Letters>);

impl fmt::Display for Over<'_> {
    ghost output = { λ o. Some (over_svg o.0.now) };

    #[tactic(auto, unfolding(crate::specs::Parts::over_svg))]
    fn fmt<W: fmt::Write>(&self, f: &mut fmt::Formatter<W>) -> fmt::Result {
        match self.0 {
            Some(letters) => write!(f, "{letters}"),
            None => Ok(()),
        }
    }
}
