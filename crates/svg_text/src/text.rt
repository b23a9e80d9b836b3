//! What texts of pictures are made of.

ghost use Rattle.std.specs.Prelude.{List, ℕ, Some, flat_map};
ghost use Rattle.std.specs.Fmt.{WritesOnOk};
ghost use Rattle.svg_text.specs.Svg.{escape, extent_text, legend_svg, number_svg, opening_svg, place_text, rectangle_text, size_text, source_svg, view_text};

use crate::style::sheet;
use std::fmt;

/// The beginning of a picture, with its sheet of styles and its ground.
#[derive(Clone, Copy)]
pub struct Opening<'a> {
    /// The class of the picture.
    pub class: &'a str,
    /// Its width and its height in pixels.
    pub width: u32,
    pub height: u32,
}

impl fmt::Display for Opening<'_> {
    ghost output = { λ o. Some (opening_svg o.class.now o.width o.height) };

    #[tactic(auto, unfolding(crate::specs::Svg::opening_svg))]
    fn fmt<W: fmt::Write>(&self, f: &mut fmt::Formatter<W>) -> fmt::Result {
        let class = self.class;
        let size = Size(self.width, self.height);
        let sheet = sheet();
        writeln!(
            f,
            "<svg xmlns=\"http://www.w3.org/2000/svg\" class=\"{class}\"{size}>\n{sheet}\n<rect class=\"page\" width=\"100%\" height=\"100%\"/>"
        )
    }
}

// The width and the height of a picture, and the part of the plane that it shows.
#[derive(Clone, Copy)]
struct Size(u32, u32);

impl fmt::Display for Size {
    ghost output = { λ s. Some (size_text s.0 s.1) };

    #[tactic(auto, unfolding(crate::specs::Svg::size_text))]
    fn fmt<W: fmt::Write>(&self, f: &mut fmt::Formatter<W>) -> fmt::Result {
        let extent = Extent(self.0, self.1);
        let view = View(self.0, self.1);
        write!(f, "{extent}{view}")
    }
}

// A width and a height, as attributes.
#[derive(Clone, Copy)]
struct Extent(u32, u32);

impl fmt::Display for Extent {
    ghost output = { λ e. Some (extent_text e.0 e.1) };

    fn fmt<W: fmt::Write>(&self, f: &mut fmt::Formatter<W>) -> fmt::Result {
        let Extent(width, height) = *self;
        write!(f, " width=\"{width}\" height=\"{height}\"")
    }
}

// The part of the plane that a picture of this size shows.
#[derive(Clone, Copy)]
struct View(u32, u32);

impl fmt::Display for View {
    ghost output = { λ v. Some (view_text v.0 v.1) };

    fn fmt<W: fmt::Write>(&self, f: &mut fmt::Formatter<W>) -> fmt::Result {
        let View(width, height) = *self;
        write!(f, " viewBox=\"0 0 {width} {height}\"")
    }
}

/// A place, as attributes: how far right and how far down it is, in pixels.
#[derive(Clone, Copy)]
pub struct Place(pub u32, pub u32);

impl fmt::Display for Place {
    ghost output = { λ p. Some (place_text p.0 p.1) };

    #[tactic(auto, unfolding(crate::specs::Svg::place_text))]
    fn fmt<W: fmt::Write>(&self, f: &mut fmt::Formatter<W>) -> fmt::Result {
        let Place(x, y) = *self;
        write!(f, " x=\"{x}\" y=\"{y}\"")
    }
}

/// The place and the size of a rectangle, as attributes.
#[derive(Clone, Copy)]
pub struct Rectangle {
    /// Its left and its upper end, in pixels.
    pub x: u32,
    pub y: u32,
    /// Its size, in pixels.
    pub width: u32,
    pub height: u32,
}

impl fmt::Display for Rectangle {
    ghost output = { λ r. Some (rectangle_text r) };

    #[tactic(auto, unfolding(crate::specs::Svg::rectangle_text))]
    fn fmt<W: fmt::Write>(&self, f: &mut fmt::Formatter<W>) -> fmt::Result {
        let place = Place(self.x, self.y);
        let extent = Extent(self.width, self.height);
        write!(f, "{place}{extent}")
    }
}

/// A line of what the signs of a picture mean.
#[derive(Clone, Copy)]
pub struct Legend<'a> {
    /// Where it begins.
    pub place: Place,
    /// What it says.
    pub words: &'a str,
}

impl fmt::Display for Legend<'_> {
    ghost output = { λ l. Some (legend_svg l.place.0 l.place.1 l.words.now) };

    #[tactic(auto, unfolding(crate::specs::Svg::legend_svg))]
    fn fmt<W: fmt::Write>(&self, f: &mut fmt::Formatter<W>) -> fmt::Result {
        let Legend { place, words } = *self;
        writeln!(f, "<text class=\"faint\"{place}>{words}</text>")
    }
}

/// A line of the source: its number at the left, and its text.
#[derive(Clone, Copy)]
pub struct SourceLine<'a> {
    /// The number.
    pub line: u32,
    /// The text, and how far right it begins, in pixels.
    pub text: &'a [u8],
    pub x: u32,
    /// How far down both stand, in pixels.
    pub y: u32,
}

impl fmt::Display for SourceLine<'_> {
    ghost output = { λ s. Some (source_svg s) };

    #[tactic(auto, unfolding(crate::specs::Svg::source_svg))]
    fn fmt<W: fmt::Write>(&self, f: &mut fmt::Formatter<W>) -> fmt::Result {
        let SourceLine { line, text, x, y } = *self;
        let number = LineNumber { line, y };
        let place = Place(x, y);
        let text = Escaped(text);
        write!(
            f,
            "{number}<text class=\"src\" xml:space=\"preserve\"{place}>{text}</text>"
        )
    }
}

// The number of a line, at the left.
#[derive(Clone, Copy)]
struct LineNumber {
    line: u32,
    y: u32,
}

impl fmt::Display for LineNumber {
    ghost output = { λ n. Some (number_svg n.line n.y) };

    #[tactic(auto, unfolding(crate::specs::Svg::number_svg))]
    fn fmt<W: fmt::Write>(&self, f: &mut fmt::Formatter<W>) -> fmt::Result {
        let LineNumber { line, y } = *self;
        write!(f, "<text class=\"no\" x=\"8\" y=\"{y}\">{line}</text>")
    }
}

/// A text of others, in which entities stand for what has a meaning in XML. A byte that is no printable character of ASCII
/// is shown as a question mark, and a tab as a space.
#[derive(Clone, Copy)]
pub struct Escaped<'a>(pub &'a [u8]);

impl fmt::Display for Escaped<'_> {
    ghost output = { λ t. Some (flat_map escape t.0.now) };

    fn fmt<W: fmt::Write>(&self, f: &mut fmt::Formatter<W>) -> fmt::Result {
        for byte in self.0 {
            put_escaped(f, *byte)?;
        }
        Ok(())
    }
}

/// Writes a byte of a text of others.
pub fn put_escaped<W: fmt::Write>(f: &mut fmt::Formatter<W>, byte: u8) -> fmt::Result
    ensures { WritesOnOk W.write_str_gives f.old result (escape byte) f.new }
{
    match byte {
        b'&' => f.write_str("&amp;"),
        b'<' => f.write_str("&lt;"),
        b'>' => f.write_str("&gt;"),
        b'"' => f.write_str("&quot;"),
        b'\t' => f.write_str(" "),
        b' '..=b'~' => f.write_char(char::from(byte)),
        _ => f.write_str("?"),
    }
}

/// What stands as a part in a picture.
pub trait Part {
    /// Its text.
    ghost text: { Self → List ℕ };

    /// Writes its text.
    fn put<W: fmt::Write>(&self, f: &mut fmt::Formatter<W>) -> fmt::Result
        ensures { WritesOnOk W.write_str_gives f.old result (text self.now) f.new };
}

/// Parts, one after another.
#[derive(Clone, Copy)]
pub struct Each<'a, T>(pub &'a [T]);

impl<T: Part> fmt::Display for Each<'_, T> {
    ghost output = { λ parts. Some (flat_map T.text parts.0.now) };

    fn fmt<W: fmt::Write>(&self, f: &mut fmt::Formatter<W>) -> fmt::Result {
        for part in self.0 {
            part.put(f)?;
        }
        Ok(())
    }
}
