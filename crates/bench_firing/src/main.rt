//! Measures runs of a large net: the nodes of each pair pass a token to and fro.
#![tactic(auto)]

mod swings;

use df_io::{MemSink, NoMemory};
use firing::{PlayEnd, Show, play};
use std::alloc::Global;
use std::io;
use std::io::ErrorKind;
use std::time::Instant;
use swings::Swings;

// How many pairs there are, and how many firings a run makes.
const PAIRS: u32 = 5_000;

const FIRINGS: u64 = 1_000_000;

// Picks that lie anywhere.
const PICKS: [u32; 7] = [2_500, 17, 4_999, 3_333, 1_234, 777, 4_001];

// The runs write how they end to standard output, and their times to standard error.
fn main(rt: HostRuntime) -> io::Result<()> {
    report(&rt, "1 node ready", PAIRS - 1)?;
    report(&rt, "5000 nodes ready", 0)
}

// One run over the pairs from a first one on.
fn report(rt: &HostRuntime, what: &str, first: u32) -> io::Result<()> {
    let start = Instant::now(rt)?;
    let Ok(end) = run(rt.alloc(), first) else {
        return Err(io::Error::from(ErrorKind::OutOfMemory));
    };
    let time = start.elapsed(rt)?.as_micros();
    println!(rt; "{what}: {end:?}")?;
    eprintln!(rt; "{time} microseconds")
}

fn run(alloc: Global, first: u32) -> Result<PlayEnd, NoMemory> {
    let mut swings = Swings::new(alloc, PAIRS, first)?;
    let mut sink = MemSink::new(alloc, 0, &[], 1)?;
    Ok(play(&mut swings, &PICKS, FIRINGS, Show::Nothing, &mut sink))
}
