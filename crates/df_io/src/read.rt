ghost use Rattle.std.specs.Prelude.{◌≡◌, ◌+◌, ◌≤◌, IfSome, IfOk, IsErrOf, vec_len};
ghost use Rattle.df_io.specs.Faults.{Rose};
ghost use Rattle.df_io.specs.Read.{ReadAllTakes, ReadsAll};
ghost use Rattle.df_io.specs.declared.read.ReadEnd.TheVariants.{NoMemory};

use crate::{Failed, Source};
use std::alloc::{AllocError, Global};

/// Why not all bytes of a source were read.
#[derive(Clone, Copy, Debug, PartialEq, Eq)]
pub enum ReadEnd {
    /// The source failed.
    ReadFault,
    /// More bytes came than the limit allows.
    TooLong,
    /// There was no memory.
    NoMemory,
}

impl From<AllocError> for ReadEnd {
    ghost from_gives = { λ _ end. end ≡ NoMemory };

    fn from(_error: AllocError) -> ReadEnd {
        ReadEnd::NoMemory
    }
}

// How many bytes are asked for at once.
const CHUNK: usize = 4096;

/// All bytes of a source up to its end, of which there may be `limit`. It stops at the first byte past them.
///
/// `TooLong` comes exactly where more than `limit` bytes came, and `ReadFault` only where the source failed.
pub fn read_all<S: Source>(alloc: Global, source: &mut S, limit: u32) -> Result<Vec<u8>, ReadEnd>
    ensures due { IfSome (S.left source.old) (λ bytes. ReadsAll bytes limit result) }

    // Which bytes were taken.
    ensures taken { ReadAllTakes (S.left source.old) (S.left source.new) limit result }
    ensures within { IfOk result (λ v. vec_len v ≤ limit) }

    // The source is blamed only where it failed.
    ensures later { S.faults source.old ≤ S.faults source.new }
    ensures fault { IsErrOf result ReadEnd.ReadFault → Rose (S.faults source.old) (S.faults source.new) }
{
    let mut all = Vec::new(alloc);
    let mut chunk = [0u8; CHUNK];
    loop {
        // One byte past the limit tells that there are more.
        let room = limit as usize + 1 - all.len();
        let n = match source.read(&mut chunk[..room.min(CHUNK)]) {
            Ok(n) => n,
            Err(Failed) => return Err(ReadEnd::ReadFault),
        };
        if n == 0 {
            return Ok(all);
        }
        if n == room {
            return Err(ReadEnd::TooLong);
        }
        all.extend_from_slice(&chunk[..n])?;
    }
}
