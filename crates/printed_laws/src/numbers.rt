//! What numbers in memory tell.

ghost use Rattle.std.specs.Prelude.{◌<◌, ◌^◌};

/// A number that is kept in 32 bits is below 2 to the 32nd.
pub fn stays_short(n: u32)
    ensures { n < 2 ^ 32 }
{}
