//! Writers of std that take a part at a time and in the end nothing, or whose flush fails; a number in a buffer; and a value that is taken out
//! of its box.
use df_io::{Failed, MemSink, Sink, StdSink, TextBuffer};
use df_sequence::{Boxed, Copied};
use std::io;
use std::io::{BufWriter, ErrorKind, Write};
use std::test::Fail;

/// A writer that takes so many bytes at once and so many in all, and whose flush may fail.
#[derive(Drop)]
struct Slow {
    piece: usize,
    room: usize,
    flushes: bool,
}

impl Write for Slow {
    fn write(&mut self, from: &[u8]) -> io::Result<usize> {
        let n = from.len().min(self.piece).min(self.room);
        self.room -= n;
        Ok(n)
    }

    fn flush(&mut self) -> io::Result<()> {
        if self.flushes {
            Ok(())
        } else {
            Err(io::Error::from(ErrorKind::Other))
        }
    }
}

#[test]
fn writers_of_std_are_sinks(rt: HostRuntime) {
    let mut sink = StdSink::new(Slow {
        piece: 2,
        room: 3,
        flushes: true,
    });
    assert!(rt; sink.write(b"123") == Ok(2));
    assert!(rt; sink.write(b"3") == Ok(1));
    assert!(rt; sink.write(b"4") == Err(Failed));
    assert!(rt; sink.into_inner().room == 0);
}

#[test]
fn a_last_flush_may_fail(rt: HostRuntime) -> Result<(), Fail> {
    for (room, flushes) in [(3, true), (2, true), (3, false)] {
        let slow = Slow {
            piece: 2,
            room,
            flushes,
        };
        let mut sink = StdSink::new(BufWriter::with_capacity(rt.alloc(), 8, slow)?);
        assert!(rt; sink.write(b"123") == Ok(3));
        let (slow, flushed) = sink.finish();
        assert!(rt; slow.room == 0);
        assert!(rt; flushed.is_ok() == (room == 3 && flushes));
    }
    Ok(())
}

#[test]
fn a_number_goes_through_a_buffer(rt: HostRuntime) -> Result<(), Fail> {
    let mut buffer = TextBuffer::new(rt.alloc())?;
    let mut sink = MemSink::new(rt.alloc(), 100, &[], 100)?;
    assert!(rt; buffer.append_number(40, &mut sink).is_ok());
    assert!(rt; sink.written().is_empty() && buffer.write_out(&mut sink).is_ok());
    assert!(rt; sink.written() == b"40".as_slice());
    Ok(())
}

#[test]
fn a_copy_comes_out_of_its_box(rt: HostRuntime) -> Result<(), Fail> {
    let copied = Boxed::new(rt.alloc(), 40_u32)?.copy(rt.alloc())?;
    assert!(rt; copied.into_inner() == 40);
    Ok(())
}
