//! What names become in the copies of units.

use f77_tree::Name;

/// What a name of a unit becomes in a copy.
#[derive(Drop)]
pub enum NewName {
    /// The argument at this place, counted from 0: the name is a dummy argument (ANSI X3.9-1978, section 15.9.3).
    Argument(usize),
    /// This name, in each copy.
    Fixed(Name),
}
