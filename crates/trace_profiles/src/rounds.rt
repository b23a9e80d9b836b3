//! The earliest round in which each node of a trace could have fired.
//!
//! A firing comes a round after the latest of those on which it depends: the latest firings that moved the lines which it
//! takes, those that gave its operands, the one that emptied the place of its value, and, for a decision, those of
//! the switches that took what the last decision of the piece left. Loads that fire in any order don't depend on one
//! another.

ghost use Rattle.std.specs.Prelude.{◌≡◌, ◌<◌, ◌^◌, ℕ, None, IfOk, List, [], ◌∷◌, length, map, not, slice_get, slice_index, if◌then◌else◌, ◌&&◌, ◌==◌};
ghost use Rattle.trace_profiles.specs.Rounds.{Round, greatest, is_decide, is_free as spec_is_free, is_value_of, next_round, operands_in, round_of, run_after, runs_from, waits_by};
ghost use Rattle.trace_profiles.specs.Tables.{IsMarked, IsRaised, Tells, given_in, operands_by, is_giver, is_line, rounds_at};

use crate::loads::Loads;
use crate::tables::{at, greater, place_at, put, put_place, raise};
use printed_graphs::{Node, Operand, PrintedGraph, Value, Work};
use std::alloc::{AllocError, Global};

/// The rounds of the last firings, by what they did. A round is counted from 1, and 0 stands for none.
#[derive(Drop)]
pub struct Rounds<'a> {
    graph: &'a PrintedGraph,
    loads: Loads,
    // For each node the place of its operands in the list of values, counted from 1, or 0 where it has none.
    operands: Vec<usize>,
    // For each node the number of its run of nodes of one piece.
    runs: Vec<usize>,
    // For each line the latest firing that moved it.
    moved: Vec<u32>,
    // For each line the latest of them that isn't a load which fires in any order.
    settled: Vec<u32>,
    // For each operation its last firing.
    fired: Vec<u32>,
    // For each node the last firing that took its value.
    emptied: Vec<u32>,
    // For each run its last decision.
    decided: Vec<u32>,
    // For each run the latest firing of one of its switches.
    switched: Vec<u32>,
}

impl<'a> Rounds<'a> {
    /// Nothing has fired yet.
    pub fn new(
        alloc: Global,
        graph: &'a PrintedGraph,
        loads: Loads,
    ) -> Result<Rounds<'a>, AllocError>
        ensures graph { IfOk result (λ r. r.graph.now ≡ graph.now) }
        ensures loads { IfOk result (λ r. r.loads ≡ loads) }
        ensures none { IfOk result (λ r. Tells r []) }
    {
        let nodes = graph.nodes.as_slice();
        Ok(Rounds {
            graph,
            loads,
            operands: places_of_operands(alloc, nodes.len(), graph.values.as_slice())?,
            runs: runs_of_nodes(alloc, nodes)?,
            moved: vec![in alloc; 0u32; graph.lines.len()]?,
            settled: vec![in alloc; 0u32; graph.lines.len()]?,
            fired: vec![in alloc; 0u32; nodes.len()]?,
            emptied: vec![in alloc; 0u32; nodes.len()]?,
            decided: vec![in alloc; 0u32; nodes.len()]?,
            switched: vec![in alloc; 0u32; nodes.len()]?,
        })
    }

    /// The round of one more firing, of this node.
    pub fn next(&mut self, node: u32) -> u32
        requires { node < length self.old.graph.now.nodes.items }
        ensures graph { self.new.graph ≡ self.old.graph }
        ensures loads { self.new.loads ≡ self.old.loads }
        ensures round { (rs : List Round) → Tells self.old rs → result ≡ next_round self.old.graph.now self.old.loads rs node }
        ensures tells { (rs : List Round) → Tells self.old rs → Tells self.new (round_of node result ∷ rs) }
    {
        let round = self.waits(node).saturating_add(1);
        self.mark(node, round);
        round
    }

    // The latest of the firings for which one of this node waits.
    fn waits(&self, node: u32) -> u32
        requires { node < length self.now.graph.now.nodes.items }
        ensures { (rs : List Round) → Tells self.now rs → result ≡ waits_by self.now.graph.now self.now.loads rs node (slice_get self.now.graph.now.nodes.items node) }
    {
        let k = node as usize;
        match &self.graph.nodes[k] {
            Node::Operation { work, lines, .. } => {
                let moved = newest_at(self.moved_for(*work), lines);
                let given = newest_given(&self.fired, self.operands_of(k));
                let emptied = at(&self.emptied, k);
                greater(
                    greater(greater(emptied, moved), given),
                    self.switched_for(*work, k),
                )
            }
            Node::Switch { line, .. } => {
                let moved = at(&self.moved, *line as usize);
                greater(moved, at(&self.decided, place_at(&self.runs, k)))
            }
            Node::Merge { line, .. } => at(&self.moved, *line as usize),
        }
    }

    // The latest firings on lines, as an operation waits for them.
    fn moved_for(&self, work: Work) -> &[u32]
        ensures { result.now ≡ (if spec_is_free self.now.loads work then self.now.settled.items else self.now.moved.items) }
    {
        if is_free(self.loads, work) {
            self.settled.as_slice()
        } else {
            self.moved.as_slice()
        }
    }

    // The latest firing of a switch for which a decision waits.
    fn switched_for(&self, work: Work, k: usize) -> u32
        ensures { result ≡ (if is_decide work then slice_index self.now.switched.items (slice_index self.now.runs.items k) else 0) }
    {
        if work == Work::Decide {
            at(&self.switched, place_at(&self.runs, k))
        } else {
            0
        }
    }

    // The operands of a node.
    fn operands_of(&self, k: usize) -> &'a [Operand]
        ensures { result.now ≡ operands_by (slice_index self.now.operands.items k) self.now.graph.now.values.items }
    {
        match place_at(&self.operands, k).checked_sub(1) {
            Some(p) => match self.graph.values.get(p) {
                Some(value) => value.operands.as_slice(),
                None => &[],
            },
            None => &[],
        }
    }

    // Keeps the round of a firing.
    fn mark(&mut self, node: u32, round: u32)
        requires { node < length self.old.graph.now.nodes.items }
        ensures graph { self.new.graph ≡ self.old.graph }
        ensures loads { self.new.loads ≡ self.old.loads }
        ensures tells { (rs : List Round) → Tells self.old rs → Tells self.new (round_of node round ∷ rs) }
    {
        let k = node as usize;
        match &self.graph.nodes[k] {
            Node::Operation { work, lines, .. } => {
                let operands = self.operands_of(k);
                let free = is_free(self.loads, *work);
                raise_at(&mut self.moved, lines, round);
                settle(&mut self.settled, free, lines, round);
                put(&mut self.fired, k, round);
                put_given(&mut self.emptied, operands, round);
                let run = place_at(&self.runs, k);
                decide(&mut self.decided, *work, run, round);
            }
            Node::Switch { line, .. } => {
                raise(&mut self.moved, *line as usize, round);
                raise(&mut self.settled, *line as usize, round);
                let run = place_at(&self.runs, k);
                raise(&mut self.switched, run, round);
            }
            Node::Merge { line, .. } => {
                raise(&mut self.moved, *line as usize, round);
                raise(&mut self.settled, *line as usize, round);
            }
        }
    }
}

// Whether an operation is a load that fires in any order.
fn is_free(loads: Loads, work: Work) -> bool
    ensures { result ≡ spec_is_free loads work }
{
    matches!((loads, work), (Loads::InAnyOrder, Work::Load))
}

// Puts a number to a run where its decision fires.
fn decide(decided: &mut Vec<u32>, work: Work, run: usize, round: u32)
    ensures marked { IsMarked decided.old.items decided.new.items (λ i. is_decide work && (run == i)) round }
    ensures count { length decided.new.items ≡ length decided.old.items }
{
    if work == Work::Decide {
        put(decided, run, round);
    }
}

// The greatest number that stands at these places.
fn newest_at(numbers: &[u32], places: &[u32]) -> u32
    ensures { result ≡ greatest (rounds_at numbers.now places.now) }
{
    let mut newest = 0;
    for place in places {
        newest = greater(newest, at(numbers, *place as usize));
    }
    newest
}

// The greatest number that stands at the givers of operands.
fn newest_given(numbers: &[u32], operands: &[Operand]) -> u32
    ensures { result ≡ greatest (map (given_in numbers.now) operands.now) }
{
    let mut newest = 0;
    for operand in operands {
        newest = greater(newest, given_at(numbers, *operand));
    }
    newest
}

// The number that stands at the giver of an operand.
fn given_at(numbers: &[u32], operand: Operand) -> u32
    ensures { result ≡ given_in numbers.now operand }
{
    match operand {
        Operand::From(giver) => at(numbers, giver as usize),
        Operand::Known(_) => 0,
    }
}

// Raises the numbers of lines, unless a load that fires in any order moved them.
fn settle(settled: &mut Vec<u32>, free: bool, lines: &[u32], round: u32)
    ensures raised { IsRaised settled.old.items settled.new.items (λ i. not free && is_line lines.now i) round }
    ensures count { length settled.new.items ≡ length settled.old.items }
{
    if !free {
        raise_at(settled, lines, round);
    }
}

// Raises the numbers at these places.
fn raise_at(numbers: &mut Vec<u32>, places: &[u32], n: u32)
    ensures raised { IsRaised numbers.old.items numbers.new.items (is_line places.now) n }
    ensures count { length numbers.new.items ≡ length numbers.old.items }
{
    for place in places {
        raise(numbers, *place as usize, n);
    }
}

// Puts a number to the givers of operands.
fn put_given(numbers: &mut Vec<u32>, operands: &[Operand], n: u32)
    ensures marked { IsMarked numbers.old.items numbers.new.items (is_giver operands.now) n }
    ensures count { length numbers.new.items ≡ length numbers.old.items }
{
    for operand in operands {
        put_giver(numbers, *operand, n);
    }
}

// Puts a number to the giver of an operand, if it has one.
fn put_giver(numbers: &mut Vec<u32>, operand: Operand, n: u32)
    ensures marked { IsMarked numbers.old.items numbers.new.items (λ i. is_value_of i operand) n }
    ensures count { length numbers.new.items ≡ length numbers.old.items }
{
    match operand {
        Operand::From(giver) => put(numbers, giver as usize, n),
        Operand::Known(_) => {}
    }
}

// For each node the place of its operands in the list of values, counted from 1, or 0.
fn places_of_operands(
    alloc: Global,
    nodes: usize,
    values: &[Value],
) -> Result<Vec<usize>, AllocError>
    ensures { IfOk result (λ places. (k : ℕ) → k < nodes → operands_by (slice_index places.items k) values.now ≡ operands_in values.now k []) }
{
    let mut places = vec![in alloc; 0usize; nodes]?;
    let mut place = 0usize;
    for value in values {
        place += 1;
        put_place(&mut places, value.node as usize, place);
    }
    Ok(places)
}

// For each node the number of its run.
fn runs_of_nodes(alloc: Global, nodes: &[Node]) -> Result<Vec<usize>, AllocError>
    ensures { IfOk result (λ runs. runs.items ≡ runs_from None 0 nodes.now) }
{
    let mut runs = Vec::with_capacity(alloc, nodes.len())?;
    let mut last = None;
    let mut number = 0usize;
    for node in nodes {
        let piece = node.piece();
        number = next_run(last, number, piece);
        last = Some(piece);
        runs.push(number)?;
    }
    Ok(runs)
}

// The number of the run of a node of this piece.
fn next_run(last: Option<u32>, number: usize, piece: u32) -> usize
    requires { number < 2 ^ 63 }
    ensures { result ≡ run_after last number piece }
{
    match last {
        Some(other) if other != piece => number + 1,
        _ => number,
    }
}
