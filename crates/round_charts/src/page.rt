//! The page of a picture of rounds: nothing stands outside it.

ghost use Rattle.std.specs.Prelude.{◌≡◌, min};
ghost use Rattle.round_charts.specs.Picture.{IsPlaceOn, IsRectangleOn, IsRulerOn};

use crate::parts::Ruler;
use svg_text::{Place, Rectangle};

/// A page.
#[derive(Clone, Copy)]
pub struct Page {
    /// Its size, in pixels.
    pub width: u32,
    pub height: u32,
}

impl Page {
    /// A rectangle, or what of it is on the page.
    pub fn rectangle(self, x: u32, y: u32, width: u32, height: u32) -> Rectangle
        ensures inside { IsRectangleOn self result }
        ensures left { result.x ≡ min x self.width }
    {
        let x = x.min(self.width);
        let y = y.min(self.height);
        Rectangle {
            x,
            y,
            width: width.min(self.width - x),
            height: height.min(self.height - y),
        }
    }

    /// A place, or the nearest one on the page.
    pub fn place(self, x: u32, y: u32) -> Place
        ensures { IsPlaceOn self result.0 result.1 }
    {
        Place(x.min(self.width), y.min(self.height))
    }

    /// A number above a column.
    pub fn number(self, x: u32, y: u32, number: u64) -> Ruler
        ensures { IsRulerOn self result }
    {
        Ruler::Number {
            place: self.place(x, y),
            number,
        }
    }
}
