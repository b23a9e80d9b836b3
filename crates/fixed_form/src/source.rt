ghost use Rattle.std.specs.Prelude.{◌≡◌, ◌≢◌, ◌+◌, ◌<◌, ◌^◌, length, IfOk, IfErr, Ok, Err};
ghost use Rattle.fixed_form.specs.Limits.{AreWithinForm};
ghost use Rattle.fixed_form.specs.Reading.{reading};

use crate::line::split_line;
use crate::reader::Reader;
use crate::{FormEnd, RawStmtList};
use std::alloc::Global;

/// The statements of a source text in fixed form, the last of which is `END`, or its first refusal.
///
/// The text is cut into lines at each LF, and a CR before an LF is dropped; what follows the last LF is a line unless
/// it is empty. Columns 1 to 72 of a line count. The lines are tested from the first one on, and each of them for
/// `BadByte`, `BadLabelField`, `StrayContinuation`, `TooManyContinuations` and `TooManyStatements` in this order. Where
/// no line has a fault, there is still `NoEnd`. So each text has one reading, and only memory may run out on the way to
/// it. (ANSI X3.9-1978, 3.1 to 3.4.)
///
/// There are fewer than 2^32 - 1 bytes, so that the number of each line, and of the one after the last, is a `u32`: a
/// text may have as many lines as bytes.
pub fn statements(alloc: Global, bytes: &[u8]) -> Result<RawStmtList, FormEnd>
    requires { length bytes.now + 1 < 2 ^ 32 }
    ensures limits { IfOk result AreWithinForm }
    ensures accepted { IfOk result (λ list. reading bytes.now ≡ Ok list) }
    ensures refused { IfErr result (λ end. end ≢ FormEnd.NoMemory → reading bytes.now ≡ Err end) }
{
    let mut reader = Reader::new(alloc);
    let mut rest = bytes;
    while !rest.is_empty() {
        let (line, after) = split_line(rest);
        reader.take_line(alloc, line)?;
        rest = after;
    }
    reader.finish()
}
