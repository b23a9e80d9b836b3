// The lines that tell how the program ended. They are made in a small array, without memory.

ghost use Rattle.std.specs.Prelude.{◌≡◌, ◌≤◌, [], length};
ghost use Rattle.df_io.specs.Faults.{Rose};
ghost use Rattle.job_terms.specs.Answers.{Tells};
ghost use Rattle.job_terms.specs.Due.{refusal, stopped, trapped, trapped_alone, trap_name as spec_trap_name, usage};

use crate::reading::Code;
use crate::status::Status;
use arrayvec::ArrayString;
use df_io::{Sink, write_all};
use itoa::Buffer;
use op_table::Trap;

// The longest line: the longest words with their blanks, a number of twenty digits or one of ten digits with the longest code or
// kind of trap, and the line feed.
const LENGTH: usize = 40;

type Line = ArrayString<LENGTH>;

/// Writes that the words have no meaning.
pub fn tell_usage<K: Sink>(sink: &mut K) -> Status
    ensures tells { Tells usage (K.got sink.old) (K.got sink.new) result }
    ensures later { K.faults sink.old ≤ K.faults sink.new }
    ensures fault { result ≡ Status.WriteFault → Rose (K.faults sink.old) (K.faults sink.new) }
{
    match write_all(sink, b"USAGE\n") {
        Ok(()) => Status::Usage,
        Err(_) => Status::WriteFault,
    }
}

/// Writes that the text is refused, by a code and the line that it is told at.
pub fn tell_refusal<K: Sink>(line: u32, code: Code, sink: &mut K) -> Status
    ensures tells { Tells (refusal line code) (K.got sink.old) (K.got sink.new) result }
    ensures later { K.faults sink.old ≤ K.faults sink.new }
    ensures fault { result ≡ Status.WriteFault → Rose (K.faults sink.old) (K.faults sink.new) }
{
    let text = refusal_line(line, code);
    match write_all(sink, text.as_str().as_bytes()) {
        Ok(()) => Status::Refused,
        Err(_) => Status::WriteFault,
    }
}

/// Writes that a trap came, at a line of the source.
pub fn tell_trap<K: Sink>(trap: Trap, line: u32, sink: &mut K) -> Status
    ensures tells { Tells (trapped [] trap line) (K.got sink.old) (K.got sink.new) result }
    ensures later { K.faults sink.old ≤ K.faults sink.new }
    ensures fault { result ≡ Status.WriteFault → Rose (K.faults sink.old) (K.faults sink.new) }
{
    let text = trap_line(trap, line);
    match write_all(sink, text.as_str().as_bytes()) {
        Ok(()) => Status::Trapped,
        Err(_) => Status::WriteFault,
    }
}

/// Writes that a trap came, without the line of the source: a rewritten program has lines of its own.
pub fn tell_trap_alone<K: Sink>(trap: Trap, sink: &mut K) -> Status
    ensures tells { Tells (trapped_alone [] trap) (K.got sink.old) (K.got sink.new) result }
    ensures later { K.faults sink.old ≤ K.faults sink.new }
    ensures fault { result ≡ Status.WriteFault → Rose (K.faults sink.old) (K.faults sink.new) }
{
    let text = trap_alone(trap);
    match write_all(sink, text.as_str().as_bytes()) {
        Ok(()) => Status::Trapped,
        Err(_) => Status::WriteFault,
    }
}

/// Writes that so many firings or steps were made, and more are possible.
pub fn tell_limit<K: Sink>(limit: u64, sink: &mut K) -> Status
    ensures tells { Tells (stopped [] limit) (K.got sink.old) (K.got sink.new) result }
    ensures later { K.faults sink.old ≤ K.faults sink.new }
    ensures fault { result ≡ Status.WriteFault → Rose (K.faults sink.old) (K.faults sink.new) }
{
    let text = limit_line(limit);
    match write_all(sink, text.as_str().as_bytes()) {
        Ok(()) => Status::Limit,
        Err(_) => Status::WriteFault,
    }
}

// The line of a trap.
fn trap_line(trap: Trap, line: u32) -> Line
    ensures { result.bytes ≡ (trapped [] trap line).last }
{
    let mut buffer = Buffer::new();
    let mut text = ArrayString::new();
    text.push_str("TRAP ");
    text.push_str(trap_name(trap));
    text.push_str(" LINE ");
    text.push_str(buffer.format(line));
    text.push_str("\n");
    text
}

// The line of a trap alone.
fn trap_alone(trap: Trap) -> Line
    ensures { result.bytes ≡ (trapped_alone [] trap).last }
{
    let mut text = ArrayString::new();
    text.push_str("TRAP ");
    text.push_str(trap_name(trap));
    text.push_str("\n");
    text
}

// The line of a limit.
fn limit_line(limit: u64) -> Line
    ensures { result.bytes ≡ (stopped [] limit).last }
{
    let mut buffer = Buffer::new();
    let mut text = ArrayString::new();
    text.push_str("LIMIT ");
    text.push_str(buffer.format(limit));
    text.push_str("\n");
    text
}

// The kind of a trap as it is written.
fn trap_name(trap: Trap) -> &'static str
    ensures name { result.now ≡ spec_trap_name trap }
    ensures short { length result.now ≤ 9 }
{
    match trap {
        Trap::Divide => "DIVIDE",
        Trap::Subscript => "SUBSCRIPT",
        Trap::Step => "STEP",
        Trap::Input => "INPUT",
        Trap::Overflow => "OVERFLOW",
    }
}

// The line of a refusal.
fn refusal_line(line: u32, code: Code) -> Line
    ensures { result.bytes ≡ (refusal line code).last }
{
    let mut buffer = Buffer::new();
    let mut text = ArrayString::new();
    text.push_str("REFUSED ");
    text.push_str(buffer.format(line));
    text.push_str(" ");
    text.push_str(code.name());
    text.push_str("\n");
    text
}
