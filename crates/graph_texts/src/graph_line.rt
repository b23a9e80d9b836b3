// Short parts of a text that tells a net. Each is made in a small array, without memory.

ghost use Rattle.std.specs.Prelude.{◌≡◌, ◌≤◌, [], ◌∷◌, ◌++◌, codes, drop, length};
ghost use Rattle.std.specs.Fmt.{decimal};

use arrayvec::ArrayString;
use itoa::{Buffer, write_digits};

/// A number after a short word. The text stands at the end of the array.
#[derive(Clone, Copy, Debug)]
pub struct ShortText {
    bytes: [u8; 24],
    start: usize,
    ghost within: { start ≤ 24 },
}

impl ShortText {
    /// The text.
    pub fn as_bytes(&self) -> &[u8]
        ensures { result.now ≡ drop self.now.start self.now.bytes }
    {
        &self.bytes[self.start..]
    }
}

/// A number after a word of at most eight characters. A net has millions of numbers, so the digits are written where they stay.
#[inline(always)]
pub fn numbered(word: &[u8], n: u32) -> ShortText
    requires { length word.now ≤ 8 }
    ensures { drop result.start result.bytes ≡ word.now ++ decimal n }
{
    let mut bytes = [0; 24];
    let digits = write_digits(u64::from(n), &mut bytes, 24);
    let start = digits - word.len();
    bytes[start..digits].copy_from_slice(word);
    ShortText { bytes, start }
}

/// The line of the class of a DO, with the line of its statement.
pub fn loop_line(class: u32, line: u32) -> ArrayString<32>
    ensures { result.bytes ≡ codes "L " ++ decimal class ++ codes " *DO" ++ decimal line ++ 10 ∷ [] }
{
    let mut buffer = Buffer::new();
    let mut text = ArrayString::new();
    text.push_str("L ");
    text.push_str(buffer.format(class));
    text.push_str(" *DO");
    text.push_str(buffer.format(line));
    text.push_str("\n");
    text
}

/// Where a line of tokens is led from an edge.
pub fn hop_line(line: u32, edge: u32, next: u32) -> ArrayString<40>
    ensures { result.bytes ≡ codes "H " ++ decimal line ++ 32 ∷ decimal edge ++ 32 ∷ decimal next ++ 10 ∷ [] }
{
    let mut buffer = Buffer::new();
    let mut text = ArrayString::new();
    text.push_str("H ");
    text.push_str(buffer.format(line));
    text.push_str(" ");
    text.push_str(buffer.format(edge));
    text.push_str(" ");
    text.push_str(buffer.format(next));
    text.push_str("\n");
    text
}
