ghost use Rattle.std.specs.Prelude.{◌++◌, [], OnOk, IfOk};
ghost use Rattle.std.specs.Fmt.{decimal, signed_decimal};
ghost use Rattle.std.specs.Io.KnownBytes.{Keeps};
ghost use Rattle.view_output.specs.Told.{Adds, told};

use crate::fault::Fault;
use df_io::{Sink, TextBuffer};
use itoa::Buffer;
use std::alloc::Global;

/// A text on its way to a sink.
#[derive(Drop)]
pub struct Output<K> {
    buffer: TextBuffer,
    sink: K,
}

impl<K: Sink + Drop> Output<K> {
    /// An empty text.
    pub fn new(alloc: Global, sink: K) -> Result<Output<K>, Fault>
        ensures { IfOk result (λ output. Keeps (K.got sink) (told K.got output)) }
    {
        Ok(Output {
            buffer: TextBuffer::new(alloc)?,
            sink,
        })
    }

    /// Appends words.
    pub fn text(&mut self, words: &str) -> Result<(), Fault>
        ensures { OnOk result (Adds (told K.got self.old) (told K.got self.new) words.now) }
    {
        self.bytes(words.as_bytes())
    }

    /// Appends bytes.
    pub fn bytes(&mut self, bytes: &[u8]) -> Result<(), Fault>
        ensures { OnOk result (Adds (told K.got self.old) (told K.got self.new) bytes.now) }
    {
        self.buffer.append(bytes, &mut self.sink)?;
        Ok(())
    }

    /// Appends a number in decimal.
    pub fn number(&mut self, n: u64) -> Result<(), Fault>
        ensures { OnOk result (Adds (told K.got self.old) (told K.got self.new) (decimal n)) }
    {
        let mut digits = Buffer::new();
        self.bytes(digits.format(n).as_bytes())
    }

    /// Appends a number with its sign, in decimal.
    pub fn signed(&mut self, z: i32) -> Result<(), Fault>
        ensures { OnOk result (Adds (told K.got self.old) (told K.got self.new) (signed_decimal z)) }
    {
        let mut digits = Buffer::new();
        self.bytes(digits.format(z).as_bytes())
    }

    /// Appends words, and a number after them.
    pub fn item(&mut self, words: &str, n: u32) -> Result<(), Fault>
        ensures { OnOk result (Adds (told K.got self.old) (told K.got self.new) (words.now ++ decimal n)) }
    {
        self.text(words)?;
        self.number(u64::from(n))
    }

    /// Writes out what is left of the text.
    pub fn finish(&mut self) -> Result<(), Fault>
        ensures { OnOk result (Keeps (told K.got self.old) (K.got self.new.sink)) }
    {
        self.buffer.write_out(&mut self.sink)?;
        Ok(())
    }
}
