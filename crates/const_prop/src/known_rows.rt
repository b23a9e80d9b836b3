//! What is known of each line on each edge.

ghost use Rattle.std.specs.Prelude.{◌≡◌, ◌≤◌, ◌<◌, ◌+◌, ◌*◌, ◌==◌, ◌&&◌, ℕ, true, false, if◌then◌else◌, None, IfOk};
ghost use Rattle.class_set.specs.ClassSet.{holds};
ghost use Rattle.class_set.specs.Members.{IsWidth};
ghost use Rattle.const_prop.specs.KnownRows.{is_any, edges_of, value_in};
ghost use Rattle.const_prop.specs.Known.{AtMost};
ghost use Rattle.const_prop.specs.Rise.{IsRise, room};
ghost use Rattle.const_prop.specs.Values.{places, word_of};

use crate::known::{Known, risen};
use crate::sparse_sets::SparseSets;
use crate::values::Values;
use class_set::ClassSet;
use df_sequence::NoMemory;
use std::alloc::Global;
use std::marker::Model;

/// What is known of each line on each edge. Of most lines on most edges any value may come, which one step tells of many lines at once, since
/// these lines are sets.
#[derive(Drop)]
pub(crate) struct KnownRows<const W: usize> {
    lines: u32,
    /// For each edge the lines on which any value may come.
    any: SparseSets<W>,
    /// For each line a row of all edges, with the one value that came first on each edge where one did. Where a line has a value, it mostly
    /// has one on edges that follow each other, and so in few blocks.
    values: Values,
}

impl<const W: usize> Model for KnownRows<W> {
    ghost use Rattle.const_prop.specs.KnownRows.{Rows, rows_of, IsKept};

    ghost Value = { Rows W };

    ghost view = { rows_of };

    ghost invariant = { IsKept };
}

impl<const W: usize> KnownRows<W> {
    /// Nothing comes anywhere.
    pub(crate) fn new(alloc: Global, lines: u32, edges: u32) -> Result<Self, NoMemory>
        requires width { IsWidth W }
        requires lines { lines ≤ 64 * W }
        ensures lines { IfOk result (λ r. r.lines ≡ lines) }
        ensures edges { IfOk result (λ r. edges_of r ≡ edges) }
        ensures nothing { IfOk result (λ r. (line e : ℕ) → value_in r line e ≡ Known.Nothing) }
    {
        Ok(KnownRows {
            lines,
            any: SparseSets::new(alloc, edges)?,
            values: no_values(alloc, lines, edges)?,
        })
    }

    /// What is known of the line on the edge.
    pub(crate) fn get(&self, line: u32, edge: u32) -> Known
        requires line { line < self.now.lines }
        requires edge { edge < edges_of self.now }
        ensures { result ≡ value_in self.now line edge }
    {
        if self.any.at(edge).holds(line) {
            return Known::Any;
        }
        match self.values.get(self.place(line, edge)) {
            Some(v) => Known::One(v),
            None => Known::Nothing,
        }
    }

    // Where the value of the line on the edge stands.
    #[tactic(auto, using(crate::proofs::KnownRowsLemmas::place_within))]
    fn place(&self, line: u32, edge: u32) -> usize
        requires line { line < self.now.lines }
        requires edge { edge < edges_of self.now }
        ensures is { result ≡ line * edges_of self.now + edge }
        ensures within { result < places self.now.values }
    {
        line as usize * self.any.keys() as usize + edge as usize
    }

    /// The lines on which any value may come by the edge.
    pub(crate) fn any_at(&self, edge: u32) -> &ClassSet<W>
        requires { edge < edges_of self.now }
        ensures { (k : ℕ) → holds result.now k ≡ is_any (value_in self.now k edge) }
    {
        self.any.at(edge)
    }

    /// Joins what comes to what is known of the line on the edge. The answer is whether that rises.
    pub(crate) fn raise(&mut self, line: u32, edge: u32, comes: Known) -> bool
        requires line { line < self.old.lines }
        requires edge { edge < edges_of self.old }
        ensures lines { self.new.lines ≡ self.old.lines }
        ensures edges { edges_of self.new ≡ edges_of self.old }
        ensures rises { result ≡ true → IsRise (value_in self.old line edge) comes (value_in self.new line edge) }
        ensures others { (l e : ℕ) → e < edges_of self.old → ((l ≡ line) × (e ≡ edge) → ⊥) → value_in self.new l e ≡ value_in self.old l e }
        ensures reached { result ≡ false → AtMost comes (value_in self.old line edge) }
        ensures same { result ≡ false → self.new ≡ self.old }
    {
        match risen(self.get(line, edge), comes) {
            None => false,
            Some(known) => {
                self.put(line, edge, known);
                true
            }
        }
    }

    /// Puts down what is known now of the line on the edge, where something came and that is more than before.
    #[tactic(auto, using(crate::proofs::KnownRowsLemmas::value_in_here))]
    fn put(&mut self, line: u32, edge: u32, known: Known)
        requires line { line < self.old.lines }
        requires edge { edge < edges_of self.old }
        requires more { room known < room (value_in self.old line edge) }
        ensures lines { self.new.lines ≡ self.old.lines }
        ensures edges { edges_of self.new ≡ edges_of self.old }
        ensures here { value_in self.new line edge ≡ known }
        ensures others { (l e : ℕ) → e < edges_of self.old → ((l ≡ line) × (e ≡ edge) → ⊥) → value_in self.new l e ≡ value_in self.old l e }
    {
        match known {
            Known::Nothing => {}
            Known::One(v) => {
                let place = self.place(line, edge);
                self.values.set(place, v);
            }
            Known::Any => self.any.insert(edge, line),
        }
    }

    /// Any value may come on these lines by the edge.
    pub(crate) fn set_any(&mut self, edge: u32, lines: &ClassSet<W>)
        requires edge { edge < edges_of self.old }
        ensures lines { self.new.lines ≡ self.old.lines }
        ensures edges { edges_of self.new ≡ edges_of self.old }
        ensures values { (l e : ℕ) → value_in self.new l e ≡ (if (e == edge && holds lines.now l) then Known.Any else value_in self.old l e) }
    {
        self.any.add(edge, lines);
    }
}

/// No word for any of so many lines on any of so many edges.
#[tactic(auto, using(crate::proofs::KnownRowsLemmas::few_places))]
fn no_values(alloc: Global, lines: u32, edges: u32) -> Result<Values, NoMemory>
    requires { lines ≤ 1024 }
    ensures places { IfOk result (λ values. lines * edges ≤ places values) }
    ensures none { IfOk result (λ values. (k : ℕ) → word_of values k ≡ None) }
{
    Values::new(alloc, lines as usize * edges as usize)
}
