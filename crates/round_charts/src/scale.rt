//! Where the columns and the rows of a picture of rounds stand, in pixels.

ghost use Rattle.std.specs.Prelude.{◌≡◌, ◌+◌, ◌*◌, ◌^◌, ◌-◌, min};

/// How high a row is, and where the first one begins.
pub const ROW: u32 = 17;

pub const TOP: u32 = 112;

// The widest column, the narrowest one, and about how wide all of them are where there are many.
const WIDEST: u32 = 36;

const NARROWEST: u32 = 6;

const ALL: u32 = 2400;

// The narrowest column with room for a label.
const LABELLED: u32 = 30;

// The width of a character, and the room for the numbers of lines.
const LETTER: u32 = 8;

const NUMBERS: u32 = 60;

/// Where the columns stand.
#[derive(Clone, Copy)]
pub struct Scale {
    /// Where the first one begins.
    pub left: u32,
    /// How wide each is.
    pub cell: u32,
}

impl Scale {
    /// That of so many columns, beside lines of the source with so many letters. Where there are many columns, they are
    /// narrower than a label.
    pub fn of(letters: u32, columns: u32) -> Scale {
        let fair = ALL / columns.max(1);
        Scale {
            left: letters.saturating_mul(LETTER).saturating_add(NUMBERS),
            cell: fair.max(NARROWEST).min(WIDEST),
        }
    }

    /// The left end of a column.
    pub fn x_of(self, column: u32) -> u32
        ensures { result ≡ min (self.left + column * self.cell) (2 ^ 32 - 1) }
    {
        self.left.saturating_add(column.saturating_mul(self.cell))
    }

    /// The middle of a column.
    pub fn middle_of(self, column: u32) -> u32 {
        self.x_of(column).saturating_add(self.cell / 2)
    }

    /// Whether a label has room in a column.
    pub fn is_labelled(self) -> bool {
        self.cell >= LABELLED
    }

    /// Whether the number of a column has room above it: all have, or every tenth.
    pub fn is_numbered(self, column: u32) -> bool {
        self.is_labelled() || column % 10 == 9
    }
}

/// The upper end of a row.
pub fn y_of(row: u32) -> u32 {
    row.saturating_mul(ROW).saturating_add(TOP)
}
