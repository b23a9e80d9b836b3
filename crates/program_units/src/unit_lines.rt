//! Lines by which units are told.
ghost use Rattle.std.specs.Prelude.{◌≡◌};
ghost use Rattle.layout_rules.specs.Layout.{last_line};
ghost use Rattle.program_units.specs.Units.{unit_at};

use crate::splitting::Units;
use f77_tree::Labelled;

/// The line of the main program's END, or 0 where there is none.
pub fn line_of_end(us: &Units) -> u32
    ensures { result ≡ last_line (unit_at us.now 0) }
{
    if us.len() == 0 {
        return 0;
    }
    line_of_last(us.at(0))
}

// The line of the last statement, or 0 where there is none.
fn line_of_last(unit: &[Labelled]) -> u32
    ensures { result ≡ last_line unit.now }
{
    match unit.last() {
        Some(s) => s.line,
        None => 0,
    }
}
