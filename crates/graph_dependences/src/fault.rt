ghost use Rattle.std.specs.Prelude.{◌≡◌};
ghost use Rattle.graph_dependences.specs.declared.fault.DependenceFault.TheVariants as fault;

use df_sequence::NoMemory;
use std::alloc::{AllocError, AllocFailed};

/// Why no dependences are told.
#[derive(Clone, Copy, Debug, PartialEq, Eq)]
pub enum DependenceFault {
    /// The graph has more than 2^28 nodes, or more ways than a graph of them can have.
    TooLarge,
    /// There was no memory.
    NoMemory,
}

impl From<NoMemory> for DependenceFault {
    ghost from_gives = { λ _ e. e ≡ fault.NoMemory };

    fn from(_none: NoMemory) -> DependenceFault {
        DependenceFault::NoMemory
    }
}

impl From<AllocError> for DependenceFault {
    ghost from_gives = { λ _ e. e ≡ fault.NoMemory };

    fn from(_error: AllocError) -> DependenceFault {
        DependenceFault::NoMemory
    }
}

impl<T: Drop> From<AllocFailed<T>> for DependenceFault {
    ghost from_gives = { λ _ e. e ≡ fault.NoMemory };

    fn from(_refused: AllocFailed<T>) -> DependenceFault {
        DependenceFault::NoMemory
    }
}
