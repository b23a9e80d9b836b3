ghost use Rattle.std.specs.Prelude.{◌≡◌};
ghost use Rattle.svg_text.specs.declared.fault.ChartFault.TheVariants as fault;

use std::alloc::{AllocError, AllocFailed};

/// Why a picture was not drawn.
#[derive(Clone, Copy, Debug, PartialEq, Eq)]
pub enum ChartFault {
    /// It would have 2^32 rows or more, or as many units of length.
    TooLarge,
    /// There was no memory.
    NoMemory,
}

impl From<AllocError> for ChartFault {
    ghost from_gives = { λ _ e. e ≡ fault.NoMemory };

    fn from(_error: AllocError) -> ChartFault {
        ChartFault::NoMemory
    }
}

impl<T: Drop> From<AllocFailed<T>> for ChartFault {
    ghost from_gives = { λ _ e. e ≡ fault.NoMemory };

    fn from(_refused: AllocFailed<T>) -> ChartFault {
        ChartFault::NoMemory
    }
}
