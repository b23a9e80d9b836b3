// For each line of tokens its wires and the edges from which it bypasses a region, as tables: they are found edge by edge, and told line by
// line.

ghost use Rattle.std.specs.Prelude.{◌≡◌, ◌<◌, MatchOption, IfOk};
ghost use Rattle.closed_walks.specs.Graph.{edge_count};
ghost use Rattle.set_columns.specs.Marks.{marked};
ghost use Rattle.graph_texts.specs.Below.{IsLastBelow, IsNextBelow};
ghost use Rattle.graph_texts.specs.EdgeTables.{AreBypasses, AreTablesOf, AreWires};

use alias_classes::CLASS_WORDS;
use closed_walks::Digraph;
use dep_routing::{Lines, bypass_lines};
use df_io::NoMemory;
use set_columns::Columns;
use std::alloc::Global;

/// What is told of the edges, line by line.
#[derive(Drop)]
pub struct EdgeTables {
    /// For each line of tokens the edges that are wires of it.
    pub wires: Columns,
    /// For each line of tokens the edges from which it bypasses a region.
    pub bypasses: Columns,
}

/// Both tables of a graph and its lines. They take a bit for each edge and line.
pub fn tables_of_edges(
    alloc: Global,
    g: &Digraph,
    l: &Lines<CLASS_WORDS>,
) -> Result<EdgeTables, NoMemory>
    requires { l.now.edges ≡ edge_count g.now }
    ensures { IfOk result (AreTablesOf g.now l.now) }
{
    Ok(EdgeTables {
        wires: wire_table(alloc, g, l)?,
        bypasses: bypass_table(alloc, g, l)?,
    })
}

// The wires of each line.
fn wire_table(alloc: Global, g: &Digraph, l: &Lines<CLASS_WORDS>) -> Result<Columns, NoMemory>
    requires { l.now.edges ≡ edge_count g.now }
    ensures { IfOk result (AreWires g.now l.now) }
{
    let mut table = Columns::new(alloc, l.lines(), g.edges())?;
    for edge in 0..g.edges() {
        table.mark_row(edge, l.wires(edge));
    }
    Ok(table)
}

// The edges from which each line bypasses a region.
fn bypass_table(alloc: Global, g: &Digraph, l: &Lines<CLASS_WORDS>) -> Result<Columns, NoMemory>
    requires { l.now.edges ≡ edge_count g.now }
    ensures { IfOk result (AreBypasses g.now l.now) }
{
    let mut table = Columns::new(alloc, l.lines(), g.edges())?;
    for edge in 0..g.edges() {
        table.mark_row(edge, &bypass_lines(g, l, edge));
    }
    Ok(table)
}

/// The least edge above the number that is marked for the line, or the least of all where there is no number, if it is below the end.
pub fn next_edge(table: &Columns, line: u32, before: Option<u32>, end: u32) -> Option<u32>
    requires { line < table.now.columns }
    ensures { MatchOption result (IsLastBelow (marked table.now line) before end) (IsNextBelow (marked table.now line) before end) }
{
    match table.next_after(line, before) {
        Some(edge) => { if edge < end { Some(edge) } else { None } }
        None => None,
    }
}
