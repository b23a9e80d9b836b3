//! The rows of edges: to which edge each line is led from an edge.

ghost use Rattle.std.specs.Prelude.{◌≡◌, ◌<◌, length};
ghost use Rattle.dep_routing.specs.LineTable.{led as led_in};
ghost use Rattle.shared_rows.specs.Table.{AreThere, numbered_rows};

use shared_rows::SharedRows;

/// A row for some of the edges, with a number for each line.
#[derive(Drop)]
pub(crate) struct EdgeRows {
    pub(crate) table: SharedRows,
    /// For each edge the number of its row, if it has one.
    pub(crate) row_of: Vec<Option<usize>>,
}

impl EdgeRows {
    /// The edge to which the line is led from the edge: what the row of the edge tells, or else the edge itself.
    #[inline]
    pub(crate) fn led(&self, line: u32, edge: u32) -> u32
        requires there { AreThere self.now.table self.now.row_of.items }
        requires line { line < self.now.table.width }
        requires edge { edge < length self.now.row_of.items }
        ensures { result ≡ led_in (numbered_rows self.now.table self.now.row_of.items) line edge }
    {
        match self.row_of[edge as usize] {
            Some(row) => self.table.get(row, line),
            None => edge,
        }
    }
}
