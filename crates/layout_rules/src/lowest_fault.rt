//! The lowest line with a fault.

ghost use Rattle.std.specs.Prelude.{◌≡◌, if◌then◌else◌, Some};
ghost use Rattle.layout_rules.specs.LowestLines.{lower_or, lower_line};

/// The lower of the two lines, where there is another one.
pub fn lower(line: u32, other: Option<u32>) -> u32
    ensures { result ≡ lower_or line other }
{
    match other {
        Some(other) => { if other < line { other } else { line } }
        None => line,
    }
}

/// The lowest line so far, with this one too if it has the fault.
pub fn with_line(lowest: Option<u32>, line: u32, faulty: bool) -> Option<u32>
    ensures { result ≡ (if faulty then lower_line lowest (Some line) else lowest) }
{
    if !faulty {
        return lowest;
    }
    match lowest {
        Some(other) => Some(lower(other, Some(line))),
        None => Some(line),
    }
}
