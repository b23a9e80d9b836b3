// The line that names a node, in a buffer without memory.

ghost use Rattle.std.specs.Prelude.{◌≡◌, ◌+◌, ◌≤◌, ◌++◌, codes, decimal, drop, length, OnOk, OnErr};
ghost use Rattle.std.specs.Io.KnownBytes.{Appends};
ghost use Rattle.df_io.specs.Faults.{Rose};
ghost use Rattle.df_io.specs.Write.{AppendsPrefix};
ghost use Rattle.firing.specs.NameLine.{name_line};

use crate::NodeName;
use df_io::{Sink, WriteFault, write_all};
use itoa::write_digits;

// The longest line: three numbers of ten digits, the longest kind with its blanks, a blank and the line feed.
const LENGTH: usize = 40;

// Writes the line that names the node, at once.
pub fn write_name<K: Sink>(sink: &mut K, k: u32, name: NodeName) -> Result<(), WriteFault>
    ensures all { OnOk result (Appends (K.got sink.old) (K.got sink.new) (name_line k name)) }
    ensures prefix { OnErr result (AppendsPrefix (K.got sink.old) (K.got sink.new) (name_line k name)) }
    ensures later { K.faults sink.old ≤ K.faults sink.new }
    ensures fault { OnErr result (Rose (K.faults sink.old) (K.faults sink.new)) }
{
    let mut line = [0; LENGTH];
    let start = put_line(&mut line, k, name);
    write_all(sink, &line[start..])
}

// Puts the line at the end of the buffer, from its last byte to its first, and answers where it starts.
fn put_line(line: &mut [u8], k: u32, name: NodeName) -> usize
    requires { length line.old ≡ LENGTH }
    ensures bytes { drop result line.new ≡ name_line k name }
    ensures within { result ≤ length line.new }
{
    match name {
        NodeName::Act(piece) => put_one(line, k, " ACT ", piece),
        NodeName::Merge(piece, turn) => put_two(line, k, " MERGE ", piece, turn),
        NodeName::Switch(piece, turn) => put_two(line, k, " SWITCH ", piece, turn),
        NodeName::Op(piece, i) => put_two(line, k, " OP ", piece, i),
    }
}

#[inline(always)]
fn put_one(line: &mut [u8], k: u32, kind: &str, first: u32) -> usize
    requires room { length line.old ≡ LENGTH }
    requires short { length kind.now ≤ 8 }
    ensures bytes { drop result line.new ≡ decimal k ++ kind.now ++ decimal first ++ codes "\n" }
    ensures within { result ≤ length line.new }
{
    line[LENGTH - 1] = b'\n';
    let at = write_digits(u64::from(first), line, LENGTH - 1);
    put_start(line, at, k, kind)
}

#[inline(always)]
fn put_two(line: &mut [u8], k: u32, kind: &str, first: u32, second: u32) -> usize
    requires room { length line.old ≡ LENGTH }
    requires short { length kind.now ≤ 8 }
    ensures bytes { drop result line.new ≡ decimal k ++ kind.now ++ decimal first ++ codes " " ++ decimal second ++ codes "\n" }
    ensures within { result ≤ length line.new }
{
    line[LENGTH - 1] = b'\n';
    let at = write_digits(u64::from(second), line, LENGTH - 1) - 1;
    line[at] = b' ';
    let at = write_digits(u64::from(first), line, at);
    put_start(line, at, k, kind)
}

// Puts the node's number and the kind of its name before what stands from a place on.
#[inline(always)]
fn put_start(line: &mut [u8], end: usize, k: u32, kind: &str) -> usize
    requires room { 10 + length kind.now ≤ end }
    requires within { end ≤ length line.old }
    ensures bytes { drop result line.new ≡ decimal k ++ kind.now ++ drop end line.old }
    ensures within { result ≤ length line.new }
{
    let at = end - kind.len();
    line[at..end].copy_from_slice(kind.as_bytes());
    write_digits(u64::from(k), line, at)
}
