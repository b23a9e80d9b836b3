//! The rows of the edges: of which lines each is a wire, and to which edges lines are led from it.

ghost use Rattle.std.specs.Prelude.{◌≡◌, ◌<◌, ◌≤◌, ◌*◌, ◌&&◌, ℕ, length, replicate, slice_index, nat_lt, if◌then◌else◌, IfOk, IfSome, OnOk};
ghost use Rattle.class_set.specs.ClassSet.{holds};
ghost use Rattle.class_set.specs.Members.{IsWidth};
ghost use Rattle.closed_walks.specs.Graph.{edge_count, to};
ghost use Rattle.closed_walks.specs.Region.{IsFlowGraph};
ghost use Rattle.region_tree.specs.Tree.{IsRegionTree, IsNumber, entry_of, exit_of, innermost_of};
ghost use Rattle.dep_routing.specs.LineTable.{AreEdgeRows, AreEdgeSets};
ghost use Rattle.dep_routing.specs.Noise.{marks_of};
ghost use Rattle.dep_routing.specs.Order.{IsOrder};
ghost use Rattle.dep_routing.specs.Rows.{IsOneMore, LeadOn, TellWires, begun_row, is_noisy};
ghost use Rattle.dep_routing.specs.Touch.{touches_in};
ghost use Rattle.shared_rows.specs.Table.{numbered_rows, with_row};

use crate::edge_rows::EdgeRows;
use crate::edge_sets::EdgeSets;
use crate::facts::tree_facts;
use crate::touched::least_above;
use class_set::ClassSet;
use closed_walks::Digraph;
use df_sequence::NoMemory;
use region_tree::RegionTree;
use shared_rows::SharedRows;
use std::alloc::Global;

/// For the entry of each region the edges to which the lines are led from it, and for any other edge no number. The exit of a region
/// has its answer before the entry gets it from there.
pub(crate) fn next_rows<const W: usize>(
    alloc: Global,
    edges: u32,
    t: &RegionTree,
    order: &[u32],
    noisy: &Vec<ClassSet<W>>,
    lines: u32,
) -> Result<EdgeRows, NoMemory>
    requires width { IsWidth W }
    requires order { IsOrder t.now order.now }
    requires exist { (r : ℕ) → IsNumber t.now r → (entry_of t.now r < edges) × (exit_of t.now r < edges) }
    requires size { length noisy.now.items ≡ length t.now.entries }
    ensures rows { IfOk result (λ rows. AreEdgeRows edges lines rows) }
    ensures next { IfOk result (λ rows. LeadOn t.now noisy.now.items edges lines (numbered_rows rows.table rows.row_of.items)) }
{
    let room = blocks_of(order, noisy, lines);
    let mut table = SharedRows::with_room(alloc, lines, t.count(), room)?;
    let mut row_of = no_rows(alloc, edges)?;
    for r in order {
        let (entry, exit) = (t.entry(*r), t.exit(*r));
        let row = table.len();
        push_row(
            &mut table,
            row_of[exit as usize],
            exit,
            &noisy[*r as usize],
            entry,
        )?;
        row_of[entry as usize] = Some(row);
    }
    Ok(EdgeRows { table, row_of })
}

/// How many blocks of 16 lines the rows of the regions take at most: those in which a node touches a line, and one more where a row is
/// no copy of another.
fn blocks_of<const W: usize>(order: &[u32], noisy: &Vec<ClassSet<W>>, lines: u32) -> usize
    requires width { IsWidth W }
    requires regions { (k : ℕ) → k < length order.now → slice_index order.now k < length noisy.now.items }
{
    let mut count = order.len();
    for r in order {
        count = count.saturating_add(blocks_met(&noisy[*r as usize], lines) as usize);
    }
    count
}

/// How many of the blocks of 16 lines have a line in the set.
fn blocks_met<const W: usize>(set: &ClassSet<W>, lines: u32) -> u32
    requires { IsWidth W }
{
    let mut count: u32 = 0;
    let mut next = least_above(set, None, lines);
    while next < lines {
        count = count.saturating_add(1);
        next = least_above(set, Some(next.saturating_add(15 - next % 16)), lines);
    }
    count
}

/// So many edges without a row.
fn no_rows(alloc: Global, edges: u32) -> Result<Vec<Option<usize>>, NoMemory>
    ensures { IfOk result (λ row_of. row_of.items ≡ replicate edges None) }
{
    let mut row_of = Vec::with_capacity(alloc, edges as usize)?;
    row_of.resize(edges as usize, None)?;
    Ok(row_of)
}

/// Puts a row after the others: this number for the lines in the set, and for each other one what the other row has, or if there is none
/// the other number.
fn push_row<const W: usize>(
    table: &mut SharedRows,
    other: Option<usize>,
    rest: u32,
    set: &ClassSet<W>,
    number: u32,
) -> Result<(), NoMemory>
    requires width { IsWidth W }
    requires other { IfSome other (λ k. k < length table.old.rows) }
    ensures { OnOk result (IsOneMore table.old table.new (λ line. if holds set.now line then number else slice_index (begun_row table.old other rest) line)) }
{
    let row = table.len();
    let lines = table.width();
    begin_row(table, other, rest)?;
    let mut line = least_above(set, None, lines);
    while line < lines {
        table.set(row, line, number)?;
        line = least_above(set, Some(line), lines);
    }
    Ok(())
}

/// Puts a copy of the row after the others, or one that has this number for each line.
fn begin_row(table: &mut SharedRows, other: Option<usize>, rest: u32) -> Result<(), NoMemory>
    requires { IfSome other (λ k. k < length table.old.rows) }
    ensures { OnOk result (table.new ≡ with_row table.old (begun_row table.old other rest)) }
{
    match other {
        Some(row) => table.push_copy(row),
        None => table.push_filled(rest),
    }
}

/// For each edge the lines of which it is a wire: those that a node touches in the smallest region that holds its end, or all lines
/// where no region holds it.
pub(crate) fn wire_sets<const W: usize>(
    alloc: Global,
    g: &Digraph,
    t: &RegionTree,
    noisy: Vec<ClassSet<W>>,
    lines: u32,
) -> Result<EdgeSets<W>, NoMemory>
    requires width { IsWidth W }
    requires flow { IsFlowGraph g.now }
    requires tree { IsRegionTree g.now t.now }
    requires size { length noisy.items ≡ length t.now.entries }
    requires few { lines ≤ 64 * W }
    ensures sets { IfOk result (λ wires. AreEdgeSets (edge_count g.now) lines wires) }
    ensures wires { IfOk result (λ wires. TellWires g.now t.now noisy.entry.items lines wires.sets.items wires.set_of.items) }
{
    tree_facts();
    let set_of = regions_at_ends(alloc, g, t)?;
    let mut sets = noisy;
    keep_lines(&mut sets, &lines_below(lines));
    Ok(EdgeSets { sets, set_of })
}

/// For each edge the smallest region that holds the node at which it ends, or 0.
fn regions_at_ends(alloc: Global, g: &Digraph, t: &RegionTree) -> Result<Vec<u32>, NoMemory>
    requires flow { IsFlowGraph g.now }
    requires tree { IsRegionTree g.now t.now }
    ensures count { IfOk result (λ regions. length regions.items ≡ edge_count g.now) }
    ensures each { IfOk result (λ regions. (e : ℕ) → e < edge_count g.now → slice_index regions.items e ≡ innermost_of t.now (to g.now e)) }
{
    tree_facts();
    let mut regions = Vec::with_capacity(alloc, g.edges() as usize)?;
    for e in 0..g.edges() {
        regions.push(t.innermost(g.to(e)))?;
    }
    Ok(regions)
}

/// Keeps of each set those of the lines that are in it, and puts all lines in the place of the set number 0.
fn keep_lines<const W: usize>(sets: &mut Vec<ClassSet<W>>, lines: &ClassSet<W>)
    requires width { IsWidth W }
    ensures size { length sets.new.items ≡ length sets.old.items }
    ensures each { (r line : ℕ) → r < length sets.old.items → touches_in sets.new.items r line ≡ (holds lines.now line && is_noisy (marks_of sets.old.items line) r) }
{
    for r in 0..sets.len() {
        sets[r] = lines_at(r, sets, lines);
    }
}

/// Those of the lines that a node in the region touches, or all where the number is 0.
fn lines_at<const W: usize>(r: usize, noisy: &Vec<ClassSet<W>>, lines: &ClassSet<W>) -> ClassSet<W>
    requires width { IsWidth W }
    requires region { r < length noisy.now.items }
    ensures { (line : ℕ) → holds result line ≡ (holds lines.now line && is_noisy (marks_of noisy.now.items line) r) }
{
    if r == 0 {
        *lines
    } else {
        noisy[r].intersection(lines)
    }
}

/// The set of so many lines from 0 on.
fn lines_below<const W: usize>(lines: u32) -> ClassSet<W>
    requires width { IsWidth W }
    requires few { lines ≤ 64 * W }
    ensures { (line : ℕ) → holds result line ≡ nat_lt line lines }
{
    let mut set = ClassSet::empty();
    for line in 0..lines {
        set.insert(line);
    }
    set
}
