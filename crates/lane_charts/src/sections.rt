//! The sections of a page, one for each run.

ghost use Rattle.std.specs.Prelude.{◌≡◌, Some, flat_map};
ghost use Rattle.std.specs.Fmt.{WritesOnOk};
ghost use Rattle.lane_charts.specs.Sections.{bar_html, data_html, head_html, line_byte, listed, numbers_text, pictures_html, printed_html, section_html, without_end as spec_without_end};

use std::fmt;
use svg_text::{Escaped, Part, put_escaped};

/// A run with its pictures.
#[derive(Drop)]
pub struct Section<'a> {
    /// What stands above it.
    pub name: &'a str,
    /// The nodes that fire, one after another.
    pub nodes: Vec<u32>,
    /// How many lines have been printed after each firing.
    pub counts: Vec<u32>,
    /// What is printed.
    pub printed: &'a [u8],
    /// The lane chart, and the rounds of the run.
    pub chart: String,
    pub rounds: String,
}

impl Part for Section<'_> {
    ghost text = { section_html };

    #[tactic(auto, unfolding(crate::specs::Sections::section_html))]
    fn put<W: fmt::Write>(&self, f: &mut fmt::Formatter<W>) -> fmt::Result {
        let head = Head {
            name: self.name,
            firings: self.nodes.len(),
        };
        let pictures = Pictures {
            chart: self.chart.as_str(),
            printed: self.printed,
            rounds: self.rounds.as_str(),
        };
        let data = Data {
            nodes: self.nodes.as_slice(),
            counts: self.counts.as_slice(),
        };
        writeln!(f, "<section class=\"run\">{head}{pictures}{data}</section>")
    }
}

// What stands above the pictures of a run of so many firings.
#[derive(Clone, Copy)]
struct Head<'a> {
    name: &'a str,
    firings: usize,
}

impl fmt::Display for Head<'_> {
    ghost output = { λ h. Some (head_html h.name.now h.firings) };

    #[tactic(auto, unfolding(crate::specs::Sections::head_html))]
    fn fmt<W: fmt::Write>(&self, f: &mut fmt::Formatter<W>) -> fmt::Result {
        let name = Escaped(self.name.as_bytes());
        let bar = Bar(self.firings);
        write!(f, "<h2>{name}</h2>\n{bar}")
    }
}

// What the script steps through.
#[derive(Clone, Copy)]
struct Data<'a, 'b> {
    nodes: &'a [u32],
    counts: &'b [u32],
}

impl fmt::Display for Data<'_, '_> {
    ghost output = { λ d. Some (data_html d.nodes.now d.counts.now) };

    #[tactic(auto, unfolding(crate::specs::Sections::data_html))]
    fn fmt<W: fmt::Write>(&self, f: &mut fmt::Formatter<W>) -> fmt::Result {
        let nodes = Numbers(self.nodes);
        let counts = Numbers(self.counts);
        write!(
            f,
            "<script type=\"application/json\">{{\"nodes\":[{nodes}],\n\"printed\":[{counts}]}}</script>"
        )
    }
}

// The bar by which a run of so many firings is stepped through.
#[derive(Clone, Copy)]
struct Bar(usize);

impl fmt::Display for Bar {
    ghost output = { λ b. Some (bar_html b.0) };

    #[tactic(auto, unfolding(crate::specs::Sections::bar_html))]
    fn fmt<W: fmt::Write>(&self, f: &mut fmt::Formatter<W>) -> fmt::Result {
        let firings = self.0;
        writeln!(
            f,
            "<div class=\"bar-of-steps\"><button data-by=\"-1e9\">first</button> <button data-by=\"-1\">back</button> <input type=\"range\" min=\"0\" max=\"{firings}\" value=\"0\"> <button data-by=\"1\">on</button> <button data-by=\"1e9\">last</button> <span class=\"told\"></span></div>"
        )
    }
}

// The pictures of a run, with what it prints between them.
#[derive(Clone, Copy)]
struct Pictures<'a, 'b, 'c> {
    chart: &'a str,
    printed: &'b [u8],
    rounds: &'c str,
}

impl fmt::Display for Pictures<'_, '_, '_> {
    ghost output = { λ p. Some (pictures_html p.chart.now p.printed.now p.rounds.now) };

    #[tactic(auto, unfolding(crate::specs::Sections::pictures_html))]
    fn fmt<W: fmt::Write>(&self, f: &mut fmt::Formatter<W>) -> fmt::Result {
        let Pictures {
            chart,
            printed,
            rounds,
        } = *self;
        let printed = Printed(printed);
        writeln!(
            f,
            "<div class=\"scroll\">{chart}</div>\n<pre class=\"printed\">{printed}</pre>\n<div class=\"scroll\">{rounds}</div>"
        )
    }
}

// What is printed, each line hidden until the script shows it.
#[derive(Clone, Copy)]
struct Printed<'a>(&'a [u8]);

impl fmt::Display for Printed<'_> {
    ghost output = { λ p. Some (printed_html p.0.now) };

    #[tactic(auto, unfolding(crate::specs::Sections::printed_html))]
    fn fmt<W: fmt::Write>(&self, f: &mut fmt::Formatter<W>) -> fmt::Result {
        let text = without_end(self.0);
        if text.is_empty() {
            return Ok(());
        }
        let lines = Lines(text);
        write!(f, "<span hidden>{lines}\n</span>")
    }
}

// A text without the end of its last line.
fn without_end(text: &[u8]) -> &[u8]
    ensures { result.now ≡ spec_without_end text.now }
{
    match text {
        [before @ .., b'\n'] => before,
        _ => text,
    }
}

// Lines without the last end of a line.
#[derive(Clone, Copy)]
struct Lines<'a>(&'a [u8]);

impl fmt::Display for Lines<'_> {
    ghost output = { λ l. Some (flat_map line_byte l.0.now) };

    fn fmt<W: fmt::Write>(&self, f: &mut fmt::Formatter<W>) -> fmt::Result {
        for byte in self.0 {
            put_byte(f, *byte)?;
        }
        Ok(())
    }
}

// Writes a byte of lines.
fn put_byte<W: fmt::Write>(f: &mut fmt::Formatter<W>, byte: u8) -> fmt::Result
    ensures { WritesOnOk W.write_str_gives f.old result (line_byte byte) f.new }
{
    if byte == b'\n' {
        f.write_str("\n</span><span hidden>")
    } else {
        put_escaped(f, byte)
    }
}

// Numbers with commas between them.
#[derive(Clone, Copy)]
struct Numbers<'a>(&'a [u32]);

impl fmt::Display for Numbers<'_> {
    ghost output = { λ n. Some (numbers_text n.0.now) };

    #[tactic(auto, unfolding(crate::specs::Sections::numbers_text))]
    fn fmt<W: fmt::Write>(&self, f: &mut fmt::Formatter<W>) -> fmt::Result {
        match self.0 {
            [] => Ok(()),
            [first, rest @ ..] => {
                let rest = Rest(rest);
                write!(f, "{first}{rest}")
            }
        }
    }
}

// Numbers, each after a comma.
#[derive(Clone, Copy)]
struct Rest<'a>(&'a [u32]);

impl fmt::Display for Rest<'_> {
    ghost output = { λ r. Some (flat_map listed r.0.now) };

    fn fmt<W: fmt::Write>(&self, f: &mut fmt::Formatter<W>) -> fmt::Result {
        for number in self.0 {
            write!(f, ",{number}")?;
        }
        Ok(())
    }
}
