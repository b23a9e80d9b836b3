//! What the colours of cells mean.

ghost use Rattle.std.specs.Prelude.{All, IfOk};
ghost use Rattle.round_charts.specs.Picture.{IsKeyOn};

use crate::page::Page;
use crate::parts::{Key, Style};
use std::alloc::Global;
use svg_text::{ChartFault, Legend};

// Each colour, how far right its square is, and what it means.
const KEYS: [(Style, u32, &'static str); 6] = [
    (Style::Load, 8, "reads a word"),
    (Style::Store, 128, "writes one"),
    (Style::Print, 236, "prints, or reads data"),
    (Style::Apply, 412, "computes"),
    (Style::Steer, 508, "begins or decides"),
    (Style::Route, 662, "leads tokens"),
];

// The size of a square, and how far right of it and how far below its upper end the words stand.
const SIDE: u32 = 12;

const BESIDE: u32 = 18;

const BELOW: u32 = 11;

/// What the colours mean, so far down on a page.
pub fn keys_on(alloc: Global, page: Page, y: u32) -> Result<Vec<Key>, ChartFault>
    ensures { IfOk result (λ keys. All (IsKeyOn page) keys.items) }
{
    let mut keys = Vec::with_capacity(alloc, KEYS.len())?;
    for key in KEYS {
        let (style, x, words) = key;
        keys.push(Key {
            style,
            square: page.rectangle(x, y, SIDE, SIDE),
            legend: Legend {
                place: page.place(x.saturating_add(BESIDE), y.saturating_add(BELOW)),
                words,
            },
        })?;
    }
    Ok(keys)
}
