//! The table of available expressions.

ghost use Rattle.std.specs.Prelude.{◌≡◌, ◌<◌, ◌≤◌, ◌*◌, ◌↔◌, ℕ, List, [], true, All, Some, length, slice_get, slice_index_or, IfOk, take, drop};
ghost use Rattle.class_set.specs.declared.ClassSet.{ClassSet};
ghost use Rattle.class_set.specs.ClassSet.{holds};
ghost use Rattle.class_set.specs.Members.{IsWidth};
ghost use Rattle.f77_tree.specs.declared.expressions.Expr.{Expr};
ghost use Rattle.f77_tree.specs.declared.programs.NameInfo.{NameInfo};
ghost use Rattle.f77_tree.specs.Value.{IsExpression};
ghost use Rattle.f77_tree.specs.WellFormed.{IsWellFormed};
ghost use Rattle.alias_classes.specs.Classes.{IsClasses};
ghost use Rattle.alias_classes.specs.Needs.{ExprNeeds};
ghost use Rattle.cfg_build.specs.Flow.{flow};
ghost use Rattle.redundancy.specs.Available.{IsAvailability};
ghost use Rattle.redundancy.specs.Computed.{AreCandidates};

use crate::listed::Listed;
use crate::noting::{Noted, candidates_of};
use crate::pieces::writes_of;
use crate::rows::kill_row;
use crate::solve::missing_row;
use crate::table::Table;
use alias_classes::Classes;
use cfg_build::{Flow, flow_graph_is_strong};
use class_set::ClassSet;
use df_sequence::NoMemory;
use f77_tree::{Expr, Program};
use std::alloc::Global;
use std::marker::Model;

/// Which candidates are available at which pieces. A candidate is an operator that can't trap, each operand of which is a name
/// without subscripts or has a known value, and at least one is such a name.
#[derive(Drop)]
pub struct Avail {
    table: Table,
    pieces: u32,
    missing: Vec<Listed<u64>>,
}

impl Model for Avail {
    ghost use Rattle.redundancy.specs.Available.{Availability};
    ghost use Rattle.redundancy.specs.Kept.{availability_of, IsKept};
    ghost use Rattle.std.specs.Coded.{codes};
    ghost use Rattle.f77_tree.specs.contracts.expressions.Expr as e;

    ghost Value = { Availability };

    ghost coded = { Prim.hlevel (codes, e.the_row.coded) };

    ghost view = { availability_of };

    ghost invariant = { IsKept };
}

impl Avail {
    ghost use Rattle.redundancy.specs.Available.{available_at};

    /// How many candidates there are.
    pub fn count(&self) -> usize
        ensures { result ≡ length self.now.candidates }
    {
        self.table.exprs.len()
    }

    /// The candidate with this number. They are numbered from 0 in the order in which they are first computed, piece by piece and
    /// from left to right.
    pub fn candidate(&self, k: usize) -> &Expr
        requires { k < length self.now.candidates }
        ensures { slice_get self.now.candidates k ≡ Some result.now }
    {
        &self.table.exprs[k]
    }

    /// The number of the candidate that is this expression, if one is. It takes a step for each part of the expression, and a
    /// comparison for each candidate in its bucket: there is a bucket for each operator of the program, up to 262,144.
    pub fn number(&self, e: &Expr) -> Option<usize>
        ensures { (k : ℕ) → (result ≡ Some k) ↔ (slice_get self.now.candidates k ≡ Some e.now) }
    {
        self.table.find(e)
    }

    /// Whether the candidate with this number is available where the piece begins.
    pub fn at(&self, k: usize, piece: u32) -> bool
        requires candidate { k < length self.now.candidates }
        requires piece { piece < self.now.pieces }
        ensures { result ≡ available_at self.now k piece }
    {
        !self.missing[k / 64].has_bit(piece as usize, (k % 64) as u32)
    }
}

/// The candidates that the pieces of the flow graph of a program compute, and where they are available: a candidate is available at a
/// piece where on every walk from the start to it some earlier piece computes the candidate, and neither that piece nor a later
/// one before it writes what the candidate reads. It takes a bit for each candidate and piece, and for each 64 candidates a few
/// steps for each edge whenever something turns out not to be available at the piece where it begins.
pub fn available<const W: usize>(
    alloc: Global,
    p: &Program,
    f: &Flow,
    c: &Classes<W>,
) -> Result<Avail, NoMemory>
    requires width { IsWidth W }
    requires program { IsWellFormed p.now }
    requires flow { f.now ≡ flow p.now.execs }
    requires classes { IsClasses p.now c.now }
    ensures { IfOk result (λ a. IsAvailability p.now f.now c.now a) }
{
    flow_graph_is_strong();
    let pieces = f.pieces();
    let Noted { table, mut rows } = candidates_of(alloc, p, f)?;
    candidates_fit(p, f, &table.exprs);
    let writes = writes_of(alloc, p, f, c)?;
    for k in 0..rows.len() {
        let needs = needs_of(alloc, c, part(c, &table.exprs, k))?;
        let kills = kill_row(alloc, writes.as_slice(), &needs)?;
        let row = missing_row(alloc, f.graph(), rows[k].as_slice(), kills.as_slice())?;
        rows[k] = Listed::of(row);
    }
    Ok(Avail {
        table,
        pieces,
        missing: rows,
    })
}

// Candidates fit the table of names.
fn candidates_fit(p: &Program, f: &Flow, candidates: &Vec<Expr>)
    requires program { IsWellFormed p.now }
    requires candidates { AreCandidates p.now f.now candidates.now.items }
    ensures { (names : List NameInfo) → names ≡ p.now.names → All (IsExpression names) candidates.now.items }
{}

// The 64 candidates with this number, or fewer at the end.
fn part<'a, const W: usize>(c: &Classes<W>, exprs: &'a Vec<Expr>, k: usize) -> &'a [Expr]
    requires inside { 64 * k < length exprs.now.items }
    requires fit { All (IsExpression c.now.names) exprs.now.items }
    ensures few { length result.now ≤ 64 }
    ensures part { result.now ≡ take 64 (drop (64 * k) exprs.now.items) }
    ensures fit { All (IsExpression c.now.names) result.now }
{
    let _classes = c;
    let rest = &exprs[64 * k..];
    &rest[..rest.len().min(64)]
}

// The classes that each expression needs.
fn needs_of<const W: usize>(
    alloc: Global,
    c: &Classes<W>,
    exprs: &[Expr],
) -> Result<Vec<ClassSet<W>>, NoMemory>
    requires { All (IsExpression c.now.names) exprs.now }
    ensures count { IfOk result (λ needs. length needs.items ≡ length exprs.now) }
    ensures needs { IfOk result (λ needs. (k n : ℕ) (e : Expr) (d : ClassSet W) → slice_get exprs.now k ≡ Some e → (holds (slice_index_or needs.items k d) n ≡ true) ↔ ExprNeeds c.now e n) }
{
    let mut needs = Vec::new(alloc);
    for e in exprs {
        needs.push(c.expr_need(e))?;
    }
    Ok(needs)
}
