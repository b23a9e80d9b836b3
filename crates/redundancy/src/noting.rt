//! Which candidates pieces compute.

ghost use Rattle.std.specs.Prelude.{◌≡◌, ◌<◌, ◌++◌, ◌↔◌, ℕ, List, true, Some, length, map, slice_get, IfOk, OnOk};
ghost use Rattle.f77_tree.specs.declared.expressions.Expr.{Expr};
ghost use Rattle.f77_tree.specs.WellFormed.{IsWellFormed};
ghost use Rattle.redundancy.specs.Available.{has_mark};
ghost use Rattle.redundancy.specs.Computed.{AreCandidates, Computes};
ghost use Rattle.redundancy.specs.Noted.{AreRows, IsNoted, at_node};
ghost use Rattle.redundancy.specs.Numbers.{IsTable};

use crate::listed::Listed;
use crate::operators::operator_count;
use crate::pieces::collect_piece;
use crate::rows::mark;
use crate::table::Table;
use cfg_build::Flow;
use df_sequence::NoMemory;
use f77_tree::{Expr, Program};
use std::alloc::Global;

// A table has no more buckets, which take 24 bytes each.
const MOST_BUCKETS: u32 = 262_144;

/// The candidates of a program with their numbers, and a row for each 64 of them with a word for each piece, where a bit is set where
/// the piece computes the candidate.
#[derive(Drop)]
pub(crate) struct Noted {
    pub(crate) table: Table,
    pub(crate) rows: Vec<Listed<u64>>,
}

/// The candidates, and which pieces compute them.
pub(crate) fn candidates_of(alloc: Global, p: &Program, f: &Flow) -> Result<Noted, NoMemory>
    requires program { IsWellFormed p.now }
    requires some { 0 < length f.now.pieces }
    ensures table { IfOk result (λ n. IsTable n.table.exprs.items n.table.buckets.items) }
    ensures candidates { IfOk result (λ n. AreCandidates p.now f.now n.table.exprs.items) }
    ensures rows { IfOk result (λ n. AreRows (length f.now.pieces) (length n.table.exprs.items) n.rows.items) }
    ensures computed { IfOk result (λ n. (k node : ℕ) (e : Expr) → slice_get n.table.exprs.items k ≡ Some e → node < length f.now.pieces → (has_mark n.rows.items k node ≡ true) ↔ Computes p.now f.now e node) }
{
    let mut table = Table::new(alloc, bucket_count(p))?;
    let mut rows = Vec::new(alloc);
    for node in 0..f.pieces() {
        let mut found = Vec::new(alloc);
        collect_piece(alloc, p, f.piece(node), &mut found)?;
        note(alloc, &mut table, &mut rows, &found, f.pieces(), node)?;
    }
    Ok(Noted { table, rows })
}

// How many buckets the table of candidates gets: one for each operator, up to that number.
fn bucket_count(p: &Program) -> u32
    ensures { 0 < result }
{
    operator_count(p).clamp(1, MOST_BUCKETS)
}

// Notes that a piece computes these candidates.
fn note(
    alloc: Global,
    table: &mut Table,
    rows: &mut Vec<Listed<u64>>,
    found: &[Expr],
    nodes: u32,
    node: u32,
) -> Result<(), NoMemory>
    requires node { node < nodes }
    requires table { IsTable table.old.exprs.items table.old.buckets.items }
    requires rows { AreRows nodes (length table.old.exprs.items) rows.old.items }
    ensures table { OnOk result (IsTable table.new.exprs.items table.new.buckets.items) }
    ensures rows { OnOk result (AreRows nodes (length table.new.exprs.items) rows.new.items) }
    ensures noted { OnOk result ((computed : List (ℕ × Expr)) → IsNoted nodes computed table.old.exprs.items rows.old.items → IsNoted nodes (computed ++ map (at_node node) found.now) table.new.exprs.items rows.new.items) }
{
    for e in found {
        let k = table.number(alloc, e)?;
        mark(alloc, rows, nodes, k, node)?;
    }
    Ok(())
}
