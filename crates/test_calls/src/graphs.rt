//! Small graphs, with the classes of their edges found by hand.

ghost use Rattle.std.specs.Prelude.{◌≡◌, ◌<◌};
ghost use Rattle.closed_walks.specs.Graph.{edge_count};
ghost use Rattle.closed_walks.specs.Walk.{IsStrong};

use closed_walks::{Digraph, is_strong, same_class_plain};
use cycle_equiv::edge_classes;
use df_sequence::NoMemory;
use std::alloc::Global;
use std::marker::Brand;
use std::process::Abort;
use std::sync::ledger::{Blank, Ledger};
use std::test::Fail;
use step_count::Steps;

/// The number of nodes, the edges, and the class of each edge. First fifteen strongly connected graphs: loops, parallel edges, the flow
/// graphs of three programs, and graphs on which a walk with one fault gives other classes (no capping bracket; one that ends at
/// the highest reach, or never; one at the bottom of its list; the list of a later child on top of an earlier one's; a node's own
/// brackets under those of its children; a bracket that doesn't end; names without the length of the list). Then three in which some
/// edge lies on no closed walk, or on none with some other edge.
const GRAPHS: &str = "1 0-0 = 0
1 0-0 0-0 = 0 1
2 0-1 0-1 1-0 = 0 1 2
3 0-1 1-2 1-2 2-0 = 0 1 2 0
3 0-1 1-2 2-0 1-0 = 0 1 1 2
7 6-0 0-1 1-2 2-3 2-4 3-4 4-5 5-6 = 0 0 0 1 2 1 0 0
7 5-0 0-1 1-2 2-6 3-4 4-2 6-3 6-5 = 0 0 0 1 2 2 2 0
13 12-0 0-1 1-2 2-3 3-4 3-10 3-7 4-5 5-6 5-7 6-1 7-8 8-9 9-12 10-11 11-1 = 0 0 1 1 2 3 4 2 5 6 5 0 0 0 3 3
4 2-1 0-1 3-2 1-3 1-0 2-0 = 0 1 2 2 3 4
5 3-2 1-4 4-3 1-2 2-0 0-1 = 0 0 0 1 2 2
4 0-1 3-1 1-3 1-3 2-1 0-2 3-0 = 0 1 2 3 4 4 5
3 0-1 1-0 1-2 1-2 2-0 = 0 1 2 3 4
3 2-0 1-2 1-0 0-1 0-2 = 0 1 2 3 4
3 0-1 1-2 2-0 2-1 = 0 1 0 2
2 1-0 0-1 1-0 = 0 1 2
1 =
3 0-1 1-2 0-2 = 0 0 0
3 0-1 1-2 2-1 2-2 = 0 1 1 2";

/// Adds the edge of a word.
fn add(alloc: Global, g: &mut Digraph, word: &str) -> Result<(), Fail> {
    let (from, to) = word.split_once('-').ok_or("no edge")?;
    let (from, to) = (from.parse()?, to.parse()?);
    if from >= g.nodes() || to >= g.nodes() || g.edges() >= 1000 {
        return Err(Fail::from("no node"));
    }
    g.add_edge(alloc, from, to)?;
    Ok(())
}

/// The graph of so many nodes and these edges.
fn graph_of(alloc: Global, nodes: &str, edges: &str) -> Result<Digraph, Fail> {
    let mut g = Digraph::new(alloc, nodes.parse()?)?;
    for word in edges.split_whitespace() {
        add(alloc, &mut g, word)?;
    }
    Ok(g)
}

/// The numbers of some words.
fn numbers(alloc: Global, words: &str) -> Result<Vec<u32>, Fail> {
    let mut found = Vec::new(alloc);
    for word in words.split_whitespace() {
        found.push(word.parse()?)?;
    }
    Ok(found)
}

/// The classes of the graph's edges, counted on a ledger of their own.
fn classes_of<L: Ledger>(alloc: Global, g: &Digraph, blank: Blank) -> Result<Vec<u32>, NoMemory>
    requires strong { IsStrong g.now }
    requires edge { 0 < edge_count g.now }
    requires name { blank.name ≡ L.name }
    requires parts { blank.parts ≡ L.parts }
    requires some { 0 < blank.parts }
{
    let mut steps: Steps<L> = Steps::new(blank);
    edge_classes(alloc, g, &mut steps)
}

/// Whether two edges are cycle equivalent exactly where they have one class.
fn are_classes(alloc: Global, g: &Digraph, classes: &[u32]) -> Result<bool, NoMemory> {
    for a in 0..g.edges() {
        for b in 0..g.edges() {
            let same = classes.get(a as usize) == classes.get(b as usize);
            if same_class_plain(alloc, g, a, b)? != same {
                return Ok(false);
            }
        }
    }
    Ok(true)
}

/// Whether a graph that has edges is strongly connected; its classes are compared.
fn check(rt: &impl Abort, alloc: Global, case: &str) -> Result<bool, Fail> {
    let (graph, classes) = case.split_once('=').ok_or("no classes")?;
    let (nodes, edges) = graph.split_once(' ').ok_or("no edges")?;
    let g = graph_of(alloc, nodes, edges)?;
    let want = numbers(alloc, classes)?;
    assert!(rt; are_classes(alloc, &g, &want)?);
    let strong = is_strong(alloc, &g)? && g.edges() > 0;
    if strong {
        assert!(rt; classes_of::<Brand>(alloc, &g, Blank::new(1))? == want);
    }
    Ok(strong)
}

#[test]
fn edges_have_their_classes(rt: HostRuntime) -> Result<(), Fail> {
    let mut strong = 0u32;
    for case in GRAPHS.lines() {
        if check(&rt, rt.alloc(), case)? {
            strong = strong.saturating_add(1);
        }
    }
    assert!(rt; strong == 15);
    Ok(())
}
