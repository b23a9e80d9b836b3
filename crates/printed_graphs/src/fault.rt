ghost use Rattle.std.specs.Prelude.{◌≡◌};
ghost use Rattle.printed_graphs.specs.declared.fault.Stop.TheVariants as stop;

use df_sequence::NoMemory;
use std::alloc::{AllocError, AllocFailed};

/// Why a text was not read.
#[derive(Clone, Copy, Debug, PartialEq, Eq)]
pub enum ReadFault {
    /// This line of the text, counted from 1, can't stand there.
    Line(u64),
    /// There was no memory.
    NoMemory,
}

/// Why a part of a text was not read.
#[derive(Clone, Copy, Debug, PartialEq, Eq)]
pub(crate) enum Stop {
    /// It is no such part.
    Unread,
    /// There was no memory.
    NoMemory,
}

impl From<NoMemory> for Stop {
    ghost from_gives = { λ _ e. e ≡ stop.NoMemory };

    fn from(_none: NoMemory) -> Stop {
        Stop::NoMemory
    }
}

impl From<AllocError> for Stop {
    ghost from_gives = { λ _ e. e ≡ stop.NoMemory };

    fn from(_error: AllocError) -> Stop {
        Stop::NoMemory
    }
}

impl<T: Drop> From<AllocFailed<T>> for Stop {
    ghost from_gives = { λ _ e. e ≡ stop.NoMemory };

    fn from(_refused: AllocFailed<T>) -> Stop {
        Stop::NoMemory
    }
}
