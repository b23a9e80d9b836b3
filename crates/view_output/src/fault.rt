ghost use Rattle.std.specs.Prelude.{◌≡◌};
ghost use Rattle.view_output.specs.declared.fault.Fault.TheVariants as fault;
ghost use Rattle.view_output.specs.Statuses.{status_of};

use df_io::{NoMemory, ReadEnd, WriteFault};
use printed_graphs::ReadFault;
use std::alloc::{AllocError, AllocFailed};

/// Why nothing is shown.
#[derive(Clone, Copy, Debug, PartialEq, Eq)]
pub enum Fault {
    /// The words have no meaning.
    Usage,
    /// This line of the text can't stand there.
    Line(u64),
    /// This line of the text tells a firing of a node that the graph doesn't have.
    Firing(u64),
    /// The text is a refusal by `dfc`, which was passed on.
    Refused,
    /// No operation of the graph comes from this line of the program.
    NoStatement(u32),
    /// The graph doesn't have this line of tokens.
    NoLine(u32),
    /// The file can't be read.
    File,
    /// The text lacks what is to be shown.
    NoText,
    /// The text is too long.
    TooLong,
    /// The source failed.
    Read,
    /// The sink failed.
    Write,
    /// There was no memory.
    NoMemory,
    /// The words could not be had from the system.
    NoWords,
}

/// The status to end with, as `dfc` has it.
pub fn status(fault: Fault) -> u8
    ensures { result ≡ status_of fault }
{
    match fault {
        Fault::Usage => 1,
        Fault::Line(_) | Fault::Firing(_) | Fault::Refused => 2,
        Fault::NoStatement(_) | Fault::NoLine(_) | Fault::NoText | Fault::TooLong => 2,
        Fault::Read | Fault::File => 5,
        Fault::Write => 6,
        Fault::NoMemory => 7,
        Fault::NoWords => 8,
    }
}

impl From<ReadFault> for Fault {
    fn from(fault: ReadFault) -> Fault {
        match fault {
            ReadFault::Line(line) => Fault::Line(line),
            ReadFault::NoMemory => Fault::NoMemory,
        }
    }
}

impl From<ReadEnd> for Fault {
    fn from(end: ReadEnd) -> Fault {
        match end {
            ReadEnd::ReadFault => Fault::Read,
            ReadEnd::TooLong => Fault::TooLong,
            ReadEnd::NoMemory => Fault::NoMemory,
        }
    }
}

impl From<WriteFault> for Fault {
    fn from(_fault: WriteFault) -> Fault {
        Fault::Write
    }
}

impl From<NoMemory> for Fault {
    ghost from_gives = { λ _ e. e ≡ fault.NoMemory };

    fn from(_none: NoMemory) -> Fault {
        Fault::NoMemory
    }
}

impl From<AllocError> for Fault {
    ghost from_gives = { λ _ e. e ≡ fault.NoMemory };

    fn from(_error: AllocError) -> Fault {
        Fault::NoMemory
    }
}

impl<T: Drop> From<AllocFailed<T>> for Fault {
    ghost from_gives = { λ _ e. e ≡ fault.NoMemory };

    fn from(_refused: AllocFailed<T>) -> Fault {
        Fault::NoMemory
    }
}
