//! Texts that can't be read.

use printed_graphs::{ReadFault, read_printed};
use std::alloc::Global;
use std::test::Fail;

/// The line that is told of a text, or 0 where all of it is read, and the text, with `;` where a line ends. Of flow graphs a region is
/// missing, a number has a needless zero, a kind is none, pieces are out of order; of graphs a number is too great, a zero is negative, two
/// blanks stand side by side, the last line has no end; of traces a trap is none, and something stands after the end.
const CASES: &str = "0 
0 PIECES 1 EDGES 1 CLASSES 1 REGIONS 1;P 0 START 0;E 0 0 0 0;R 1 0 0 0;
0 LINES 2 NODES 1;L 0 *OUT;L 1 *DO4;N 0 OP 1 0 ADD 1;V 0 =-1 =2;W 0;W 1 0 2;H 0 1 2;
0 0 OP 1 0;5 SWITCH 3 0;TRAP DIVIDE LINE 3;
0 LIMIT 0;
3 PIECES 1 EDGES 0 CLASSES 0 REGIONS 1;P 0 START 0;
2 PIECES 1 EDGES 0 CLASSES 0 REGIONS 0;P 00 START 0;
2 PIECES 1 EDGES 0 CLASSES 0 REGIONS 0;P 0 STARTS 0;
3 PIECES 2 EDGES 0 CLASSES 0 REGIONS 0;P 0 START 0;P 2 ACT 1;
1 LINES 1 NODES 4294967296;
3 LINES 0 NODES 1;N 0 OP 1 0 ADD;V 0 =-0;
2 LINES 0 NODES 1;N 0 OP 1 0  ADD;
3 LINES 1 NODES 0;L 0 *OUT;W 0 1
2 0 OP 1 0;TRAP ZERO LINE 3;
3 0 OP 1 0;LIMIT 1;1 OP 1 1;";

/// The line of a text that can't be read, or 0 where all of it is read.
fn refused(alloc: Global, text: &str) -> Result<u64, Fail> {
    let mut lines = Vec::new(alloc);
    for c in text.as_bytes() {
        lines.push(if *c == b';' { b'\n' } else { *c })?;
    }
    match read_printed(alloc, &lines) {
        Ok(_) => Ok(0),
        Err(ReadFault::Line(line)) => Ok(line),
        Err(ReadFault::NoMemory) => Err(Fail::from("no memory")),
    }
}

#[test]
fn texts_are_refused_at_their_lines(rt: HostRuntime) -> Result<(), Fail> {
    for case in CASES.lines() {
        let (line, text) = case.split_once(' ').ok_or("no line")?;
        let want: u64 = line.parse()?;
        assert!(&rt; refused(rt.alloc(), text)? == want, "of {text}");
    }
    Ok(())
}
