use crate::{NoMemory, Sink, WriteFault, write_all};
use itoa::Buffer;
use std::alloc::Global;
use std::marker::Model;

// How many bytes a buffer has room for.
const ROOM: usize = 65_536;

/// The end of a text that is on its way to a sink: what was appended and is not written out yet. It holds at most 64
/// KiB, whose memory is taken when it is made. So a text of any length is written without more memory, and none of it
/// is written before the buffer is there.
#[derive(Debug, Drop)]
pub struct TextBuffer {
    bytes: Vec<u8>,
}

impl Model for TextBuffer {
    ghost use Rattle.std.specs.Prelude.{ℕ, ◌≤◌, List, vec_len, vec_capacity};

    ghost Value = { List ℕ };

    ghost view = { λ t. t.bytes.items };

    ghost invariant = { λ t. (vec_len t.bytes ≤ 65536) × (65536 ≤ vec_capacity t.bytes) };
}

impl TextBuffer {
    ghost use Rattle.std.specs.Fmt.{decimal, signed_decimal};
    ghost use Rattle.std.specs.Io.KnownBytes.{Appends};
    ghost use Rattle.std.specs.Prelude.{◌≡◌, ◌+◌, ◌≤◌, ◌++◌, [], length, IfOk, OnOk, OnErr};
    ghost use Rattle.df_io.specs.Faults.{Rose};
    ghost use Rattle.df_io.specs.TextBuffer.{IsWrittenBut};
    ghost use Rattle.df_io.specs.Write.{AppendsPrefix};

    /// An empty buffer.
    pub fn new(alloc: Global) -> Result<TextBuffer, NoMemory>
        ensures { IfOk result (λ buffer. buffer ≡ []) }
    {
        Ok(TextBuffer {
            bytes: Vec::with_capacity(alloc, ROOM)?,
        })
    }

    /// Appends bytes to the text. What the buffer holds is written out first where they don't fit after it. After a
    /// fault a prefix of the text was written, and the buffer is empty.
    pub fn append<K: Sink>(&mut self, bytes: &[u8], sink: &mut K) -> Result<(), WriteFault>
        ensures text { OnOk result (IsWrittenBut self.new (K.got sink.old) (K.got sink.new) (self.old ++ bytes.now)) }
        ensures prefix { OnErr result (AppendsPrefix (K.got sink.old) (K.got sink.new) (self.old ++ bytes.now)) }
        ensures empty { OnErr result (self.new ≡ []) }
        ensures later { K.faults sink.old ≤ K.faults sink.new }
        ensures fault { OnErr result (Rose (K.faults sink.old) (K.faults sink.new)) }
    {
        if bytes.len() <= ROOM - self.bytes.len() {
            self.hold(bytes);
            return Ok(());
        }
        self.write_out(sink)?;
        if bytes.len() <= ROOM {
            self.hold(bytes);
            return Ok(());
        }
        write_all(sink, bytes)
    }

    /// Appends a number in decimal.
    pub fn append_number<K: Sink>(&mut self, n: u32, sink: &mut K) -> Result<(), WriteFault>
        ensures text { OnOk result (IsWrittenBut self.new (K.got sink.old) (K.got sink.new) (self.old ++ decimal n)) }
        ensures prefix { OnErr result (AppendsPrefix (K.got sink.old) (K.got sink.new) (self.old ++ decimal n)) }
        ensures empty { OnErr result (self.new ≡ []) }
        ensures later { K.faults sink.old ≤ K.faults sink.new }
        ensures fault { OnErr result (Rose (K.faults sink.old) (K.faults sink.new)) }
    {
        let mut digits = Buffer::new();
        self.append(digits.format(n).as_bytes(), sink)
    }

    /// Appends a number with its sign, in decimal.
    pub fn append_signed<K: Sink>(&mut self, z: i32, sink: &mut K) -> Result<(), WriteFault>
        ensures text { OnOk result (IsWrittenBut self.new (K.got sink.old) (K.got sink.new) (self.old ++ signed_decimal z)) }
        ensures prefix { OnErr result (AppendsPrefix (K.got sink.old) (K.got sink.new) (self.old ++ signed_decimal z)) }
        ensures empty { OnErr result (self.new ≡ []) }
        ensures later { K.faults sink.old ≤ K.faults sink.new }
        ensures fault { OnErr result (Rose (K.faults sink.old) (K.faults sink.new)) }
    {
        let mut digits = Buffer::new();
        self.append(digits.format(z).as_bytes(), sink)
    }

    /// Writes out what the buffer holds, as at the end of a text. It is empty then, after a fault too.
    pub fn write_out<K: Sink>(&mut self, sink: &mut K) -> Result<(), WriteFault>
        ensures all { OnOk result (Appends (K.got sink.old) (K.got sink.new) self.old) }
        ensures prefix { OnErr result (AppendsPrefix (K.got sink.old) (K.got sink.new) self.old) }
        ensures empty { self.new ≡ [] }
        ensures later { K.faults sink.old ≤ K.faults sink.new }
        ensures fault { OnErr result (Rose (K.faults sink.old) (K.faults sink.new)) }
    {
        let written = write_all(sink, &self.bytes);
        self.bytes.clear();
        written
    }

    // Puts bytes after what the buffer holds, where they fit.
    fn hold(&mut self, bytes: &[u8])
        requires { length self.old + length bytes.now ≤ 65536 }
        ensures { self.new ≡ self.old ++ bytes.now }
    {
        let _held = self.bytes.extend_from_slice(bytes);
    }
}
