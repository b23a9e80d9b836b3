//! A small net, played by picks and in its own order.
use df_io::{MemSink, NoMemory};
use firing::{PlayEnd, Show, follow, play};
use op_table::Trap;
use sample_nets::Counters;
use std::alloc::Global;
use std::test::Fail;

// A run with two for the feeder: the picks, or none for the own order; how many lines the net may write; what is shown. Then how it
// ends, and what was written.
type Case = (&'static [u32], u32, Show, PlayEnd, &'static str);

const CASES: [Case; 5] = [
    // Picks choose among the ready nodes.
    (
        &[0],
        5,
        Show::Nodes,
        PlayEnd::Rest(6),
        "0 ACT 5\n0 ACT 5\n1 OP 5 1\n1 OP 5 1\n2 MERGE 6 2\n2 MERGE 6 2\n",
    ),
    (
        &[5, 4],
        5,
        Show::Nodes,
        PlayEnd::Rest(6),
        "0 ACT 5\n1 OP 5 1\n2 MERGE 6 2\n0 ACT 5\n2 MERGE 6 2\n1 OP 5 1\n",
    ),
    // The own order is followed.
    (
        &[],
        5,
        Show::Nodes,
        PlayEnd::Rest(6),
        "0 ACT 5\n2 MERGE 6 2\n1 OP 5 1\n0 ACT 5\n2 MERGE 6 2\n1 OP 5 1\n",
    ),
    // Lines are shown up to a trap.
    (&[0], 5, Show::Output, PlayEnd::Rest(6), "A\nB\n"),
    (
        &[2],
        1,
        Show::Output,
        PlayEnd::Trapped(Trap::Overflow, 12),
        "A\n",
    ),
];

fn run(alloc: Global, case: &Case) -> Result<(PlayEnd, MemSink), NoMemory> {
    let mut counters = Counters::new(alloc, 2, case.1)?;
    let mut sink = MemSink::new(alloc, 100, &[], 100)?;
    let end = if case.0.is_empty() {
        follow(&mut counters, 99, case.2, &mut sink)
    } else {
        play(&mut counters, case.0, 99, case.2, &mut sink)
    };
    Ok((end, sink))
}

#[test]
fn runs_end_and_write_as_due(rt: HostRuntime) -> Result<(), Fail> {
    for case in CASES {
        let (end, sink) = run(rt.alloc(), &case)?;
        assert!(rt; end == case.3 && sink.written() == case.4.as_bytes());
    }
    Ok(())
}
