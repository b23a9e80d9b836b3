//! Which node of a piece each line goes through.

ghost use Rattle.std.specs.Prelude.{◌≡◌, ◌+◌, ◌<◌, ◌^◌, suc, length, map, slice_index, if◌then◌else◌, IfOk, OnOk};
ghost use Rattle.std.specs.List.{range_with_len};
ghost use Rattle.class_set.specs.ClassSet.{holds};
ghost use Rattle.class_set.specs.Members.{IsWidth};
ghost use Rattle.net_board.specs.Nodes.{graph_in, first_node};
ghost use Rattle.net_board.specs.WokenNodes.{merge_number, no_node, passing_below, switch_number};
ghost use Rattle.net_tables.specs.NetTables.{ArePlaceRows, kept_places};
ghost use Rattle.net_tables.specs.PlaceRowSteps.{IsBlank, IsPushed, IsRewritten, places_by, numbered_from};
ghost use Rattle.net_tables.specs.PartsView.{net_in};
ghost use Rattle.shared_rows.specs.Table.{row_at};

use crate::program_parts::Plan;
use crate::tables::{free_lines, passing_lines};
use cfg_build::PieceKind;
use class_set::ClassSet;
use dep_routing::least_above;
use df_sequence::NoMemory;
use shared_rows::SharedRows;
use std::alloc::Global;

/// For some of the pieces, the node of the piece that each line goes through.
#[derive(Drop)]
pub(crate) struct PlaceRows {
    pub(crate) table: SharedRows,
    /// For each piece the number of its row, if it has one.
    pub(crate) row_of: Vec<Option<usize>>,
}

/// For each piece that can have switches or merges, for each line the node of the piece that the line goes through, or this number
/// where there is none. Any other piece has no row.
pub(crate) fn all_places<const W: usize>(
    alloc: Global,
    plan: &Plan<W>,
    firsts: &Vec<u32>,
    none: u32,
) -> Result<PlaceRows, NoMemory>
    requires firsts { firsts.now.items ≡ map (first_node (net_in plan.now)) (range_with_len 0 (suc (graph_in (net_in plan.now)).nodes)) }
    requires none { none ≡ no_node (net_in plan.now) }
    ensures { IfOk result (λ all. ArePlaceRows (net_in plan.now) all) }
{
    let mut table = SharedRows::new(alloc, plan.routes.lines());
    table.push_filled(none)?;
    let mut row_of = Vec::with_capacity(alloc, plan.flow.pieces() as usize)?;
    for piece in 0..plan.flow.pieces() {
        row_of.push(push_places(&mut table, plan, piece, firsts[piece as usize], none)?)?;
    }
    Ok(PlaceRows { table, row_of })
}

/// Puts a row after the others where the piece can have switches or merges, with the node of the piece that each line goes through.
/// The result is the number of the row.
fn push_places<const W: usize>(
    table: &mut SharedRows,
    plan: &Plan<W>,
    piece: u32,
    first: u32,
    none: u32,
) -> Result<Option<usize>, NoMemory>
    requires piece { piece < (graph_in (net_in plan.now)).nodes }
    requires first { first ≡ first_node (net_in plan.now) piece }
    requires none { none ≡ no_node (net_in plan.now) }
    requires blank { IsBlank (net_in plan.now) table.old }
    ensures { IfOk result (λ row. IsPushed table.old table.new row (kept_places (net_in plan.now) piece)) }
{
    match plan.flow.piece(piece).kind {
        PieceKind::Branch | PieceKind::Hold => push_switch_places(table, plan, piece, first, none),
        PieceKind::Join | PieceKind::End => push_merge_places(table, plan, piece, first, none),
        PieceKind::Act | PieceKind::Start | PieceKind::Pass => Ok(None),
    }
}

/// The places at a piece that has a node of its own, and after it a switch for each line that passes it untouched.
fn push_switch_places<const W: usize>(
    table: &mut SharedRows,
    plan: &Plan<W>,
    piece: u32,
    first: u32,
    none: u32,
) -> Result<Option<usize>, NoMemory>
    requires piece { piece < (graph_in (net_in plan.now)).nodes }
    requires first { first ≡ first_node (net_in plan.now) piece }
    requires none { none ≡ no_node (net_in plan.now) }
    requires blank { IsBlank (net_in plan.now) table.old }
    requires room { switch_number (net_in plan.now) piece (net_in plan.now).routing.lines < 2 ^ 32 }
    ensures { IfOk result (λ row. IsPushed table.old table.new row (places_by (net_in plan.now) piece PieceKind.Branch)) }
{
    let row = table.len();
    table.push_copy(0)?;
    number_lines(table, row, &passing_lines(plan, piece), first + 1)?;
    write_at_lines(table, row, plan.touch.at(piece), first)?;
    Ok(Some(row))
}

/// The places at a piece that has a merge for each line that is led to it.
fn push_merge_places<const W: usize>(
    table: &mut SharedRows,
    plan: &Plan<W>,
    piece: u32,
    first: u32,
    none: u32,
) -> Result<Option<usize>, NoMemory>
    requires piece { piece < (graph_in (net_in plan.now)).nodes }
    requires first { first ≡ first_node (net_in plan.now) piece }
    requires none { none ≡ no_node (net_in plan.now) }
    requires blank { IsBlank (net_in plan.now) table.old }
    requires room { merge_number (net_in plan.now) piece (net_in plan.now).routing.lines < 2 ^ 32 }
    ensures { IfOk result (λ row. IsPushed table.old table.new row (places_by (net_in plan.now) piece PieceKind.Join)) }
{
    let row = table.len();
    table.push_copy(0)?;
    number_lines(table, row, &free_lines(plan, piece), first)?;
    Ok(Some(row))
}

/// Writes numbers into the cells of the lines in the set: this one first, and for each further line the next one.
fn number_lines<const W: usize>(
    table: &mut SharedRows,
    row: usize,
    set: &ClassSet<W>,
    first: u32,
) -> Result<(), NoMemory>
    requires width { IsWidth W }
    requires row { row < length table.old.rows }
    requires room { first + passing_below (holds set.now) table.old.width < 2 ^ 32 }
    ensures { OnOk result (IsRewritten table.old row table.new (numbered_from table.old row set.now first)) }
{
    let lines = table.width();
    // What the table says of itself: its rows are full.
    let _rows = table.len();
    let mut next = first;
    let mut line = least_above(set, None, lines);
    while line < lines {
        table.set(row, line, next)?;
        next += 1;
        line = least_above(set, Some(line), lines);
    }
    Ok(())
}

/// Writes the number into the cells of the lines in the set.
fn write_at_lines<const W: usize>(
    table: &mut SharedRows,
    row: usize,
    set: &ClassSet<W>,
    number: u32,
) -> Result<(), NoMemory>
    requires width { IsWidth W }
    requires row { row < length table.old.rows }
    ensures { OnOk result (IsRewritten table.old row table.new (λ line. if holds set.now line then number else slice_index (row_at table.old row) line)) }
{
    let lines = table.width();
    // What the table says of itself: its rows are full.
    let _rows = table.len();
    let mut line = least_above(set, None, lines);
    while line < lines {
        table.set(row, line, number)?;
        line = least_above(set, Some(line), lines);
    }
    Ok(())
}
