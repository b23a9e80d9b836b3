//! The parts of a lane chart on their page: none stands outside it.

ghost use Rattle.std.specs.Prelude.{◌≡◌, ◌≤◌, All, IfOk, map};
ghost use Rattle.lane_layout.specs.Page.{IsFrameOn, IsNameOn, IsNoteOn, IsPlaceOn, IsStatementOn, IsWayOn, line_in, room_at};
ghost use Rattle.lane_layout.specs.Rows.{line_of};

use crate::frames::Boxed;
use crate::layout::LETTERS;
use crate::rows::Begin;
use chart_words::SourceLines;
use lane_parts::{Frame, Name, Note, Side, Statement, Way};
use std::alloc::Global;
use svg_text::{ChartFault, Place, Rectangle, SourceLine};

// How far a box is from the rows in it, and how much those inside it are inset.
const MARGIN: u32 = 11;

const INSET: u32 = 3;

// The most insets of a box.
const INSETS: u32 = 6;

/// A page.
#[derive(Clone, Copy)]
pub struct Page {
    /// Its size, in pixels.
    pub width: u32,
    pub height: u32,
}

impl Page {
    /// Statements that begin so far down, each once, in their order.
    pub fn statements<'a>(
        self,
        alloc: Global,
        begins: &[Begin],
        source: &SourceLines<'a>,
    ) -> Result<Vec<Statement<'a>>, ChartFault>
        ensures each { IfOk result (λ statements. map line_in statements.items ≡ map line_of begins.now) }
        ensures inside { IfOk result (λ statements. All (IsStatementOn self) statements.items) }
    {
        let mut statements = Vec::with_capacity(alloc, begins.len())?;
        for begin in begins {
            let text = source.line(begin.line);
            statements.push(Statement {
                rule: begin.y.saturating_sub(16).min(self.height),
                end: self.width.saturating_sub(8),
                source: SourceLine {
                    line: begin.line,
                    text: text.get(..LETTERS).unwrap_or(text),
                    x: 40u32.min(self.width),
                    y: begin.y.saturating_add(4).min(self.height),
                },
            })?;
        }
        Ok(statements)
    }

    /// Boxes between these ends of the lanes.
    pub fn frames(
        self,
        alloc: Global,
        boxes: &[Boxed],
        left: u32,
        right: u32,
    ) -> Result<Vec<Frame>, ChartFault>
        ensures { IfOk result (λ frames. All (IsFrameOn self) frames.items) }
    {
        let mut frames = Vec::with_capacity(alloc, boxes.len())?;
        for boxed in boxes {
            frames.push(self.frame(*boxed, left, right))?;
        }
        Ok(frames)
    }

    // A box between these ends of the lanes.
    fn frame(self, boxed: Boxed, left: u32, right: u32) -> Frame
        ensures { IsFrameOn self result }
    {
        let inset = boxed.depth.min(INSETS) * INSET;
        let x = left.saturating_add(inset).min(self.width);
        let end = right.saturating_sub(inset).min(self.width);
        let top = boxed.top.saturating_sub(MARGIN).saturating_add(inset);
        let bottom = boxed.bottom.saturating_add(MARGIN).saturating_sub(inset);
        let y = top.min(self.height);
        Frame {
            region: boxed.region,
            square: Rectangle {
                x,
                y,
                width: end.saturating_sub(x),
                height: bottom.min(self.height).saturating_sub(y),
            },
        }
    }

    /// Where a note stands on the page.
    pub fn note(self, note: Note) -> Note
        ensures { IsNoteOn self result }
    {
        Note {
            node: note.node,
            place: self.place(note.place),
            text: note.text,
        }
    }

    /// Where a name stands on the page.
    pub fn name(self, name: Name) -> Name
        ensures { IsNameOn self result }
    {
        Name {
            place: self.place(name.place),
            colour: name.colour,
            text: name.text,
        }
    }

    // Where a place stands on the page.
    fn place(self, place: Place) -> Place
        ensures { IsPlaceOn self result.0 result.1 }
    {
        Place(place.0.min(self.width), place.1.min(self.height))
    }

    /// Ways of tokens on the page.
    pub fn ways(self, alloc: Global, ways: &[Way]) -> Result<Vec<Way>, ChartFault>
        ensures { IfOk result (λ ways. All (IsWayOn self) ways.items) }
    {
        let mut inside = Vec::with_capacity(alloc, ways.len())?;
        for way in ways {
            inside.push(self.way(*way))?;
        }
        Ok(inside)
    }

    // Where a way runs on the page.
    fn way(self, way: Way) -> Way
        ensures { IsWayOn self result }
    {
        let x = way.x.min(self.width);
        let room = self.room(way.side, x);
        Way {
            x,
            reach: way.reach.min(room),
            from: way.from.min(self.height),
            to: way.to.min(self.height),
            ..way
        }
    }

    // The room at the side of a lane on which a way runs.
    fn room(self, side: Side, x: u32) -> u32
        requires { x ≤ self.width }
        ensures { result ≡ room_at side x self.width }
    {
        match side {
            Side::Straight | Side::Back => self.width - x,
            Side::Past | Side::Out => x,
        }
    }
}
