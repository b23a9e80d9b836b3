//! Tries the classes that one walk gives on small random graphs, against the comparison of each two edges by itself. With an
//! argument it finds the classes of two large graphs instead, and tells how long it took.
#![tactic(auto)]

ghost use Rattle.std.specs.Prelude.{◌≡◌, ◌<◌, ◌^◌};
ghost use Rattle.closed_walks.specs.Graph.{edge_count};
ghost use Rattle.closed_walks.specs.Walk.{IsStrong};

mod draws;

use closed_walks::{Digraph, is_strong, same_class_plain};
use cycle_equiv::edge_classes;
use df_sequence::NoMemory;
use draws::Draws;
use std::alloc::Global;
use std::io::ErrorKind;
use std::marker::Brand;
use std::sync::ledger::{Blank, Ledger};
use std::time::Instant;
use std::{env, io};
use step_count::Steps;

// How many small graphs are drawn. Those that are strongly connected are tried.
const DRAWN: u32 = 6_000;

fn main(rt: HostRuntime) -> io::Result<()> {
    if env::args(&rt)?.nth(1).is_some() {
        time_large(&rt, 30_000)?;
        return time_large(&rt, 60_000);
    }
    match try_small(rt.alloc()) {
        Ok(Some(graphs)) => println!(rt; "{graphs} graphs agree"),
        Ok(None) => println!(rt; "differ"),
        Err(error) => Err(no_memory(error)),
    }
}

// Draws small graphs, and tries those that are strongly connected. Answers how many, or none where the classes differ.
fn try_small(alloc: Global) -> Result<Option<u32>, NoMemory> {
    let mut draws = Draws::new(1);
    let mut tried = 0;
    for _ in 0..DRAWN {
        let nodes = 1 + draws.below(7);
        let edges = nodes + draws.below(10);
        let g = draws.graph(alloc, nodes, edges, 0)?;
        if is_strong(alloc, &g)? {
            let classes = classes_of::<Brand>(alloc, &g, Blank::new(1))?;
            if !are_classes(alloc, &g, &classes)? {
                return Ok(None);
            }
            tried += 1;
        }
    }
    Ok(Some(tried))
}

// The classes of the graph's edges, counted on a ledger of their own.
fn classes_of<L: Ledger>(alloc: Global, g: &Digraph, blank: Blank) -> Result<Vec<u32>, NoMemory>
    requires strong { IsStrong g.now }
    requires edge { 0 < edge_count g.now }
    requires name { blank.name ≡ L.name }
    requires parts { blank.parts ≡ L.parts }
    requires some { 0 < blank.parts }
{
    let mut steps: Steps<L> = Steps::new(blank);
    edge_classes(alloc, g, &mut steps)
}

// Whether two edges are cycle equivalent exactly where they have one class.
fn are_classes(alloc: Global, g: &Digraph, classes: &[u32]) -> Result<bool, NoMemory> {
    for a in 0..g.edges() {
        for b in 0..g.edges() {
            let same = classes.get(a as usize) == classes.get(b as usize);
            if same_class_plain(alloc, g, a, b)? != same {
                return Ok(false);
            }
        }
    }
    Ok(true)
}

// Finds the classes of a large graph, and tells how long it took. A ring makes it strongly connected, and stands after the
// other edges, so that the walk doesn't just follow it.
fn time_large(rt: &HostRuntime, nodes: u32) -> io::Result<()>
    requires some { 0 < nodes }
    requires few { nodes < 2 ^ 20 }
{
    let drawn = nodes / 3;
    let g = Draws::new(1)
        .graph(rt.alloc(), nodes, drawn, nodes)
        .map_err(no_memory)?;
    if !is_strong(rt.alloc(), &g).map_err(no_memory)? || g.edges() == 0 {
        return println!(rt; "not strongly connected");
    }
    let start = Instant::now(rt)?;
    let classes = classes_of::<Brand>(rt.alloc(), &g, Blank::new(1)).map_err(no_memory)?;
    let time = start.elapsed(rt)?.as_micros();
    let greatest = classes.iter().copied().max().unwrap_or(0);
    println!(rt;
        "{nodes} nodes, {} edges, greatest class {greatest}",
        g.edges()
    )?;
    eprintln!(rt; "{time} microseconds")
}

fn no_memory(_: NoMemory) -> io::Error {
    io::Error::from(ErrorKind::OutOfMemory)
}
