ghost use Rattle.std.specs.Prelude.{◌≡◌, ◌*◌, ◌≤◌, length};
ghost use Rattle.class_set.specs.Members.{first_above};

use class_set::ClassSet;
use df_sequence::NoMemory;
use std::alloc::Global;

/// How many rows a block has.
const ROWS: u32 = 64;

/// A table of marks in rows and columns. A row is marked at once in all columns of a set, and of a column the marked rows are read, rising.
/// Each column takes eight bytes for each 64 rows.
#[derive(Drop)]
pub struct Columns {
    columns: u32,
    rows: u32,
    /// How many blocks a column has.
    blocks: usize,
    /// The blocks of each column in turn, and in each those of its rows that are marked.
    marks: Vec<ClassSet<1>>,
    ghost some: { rows ≤ 64 * blocks },
    ghost few: { blocks ≤ 67108864 },
    ghost each: { length marks.items ≡ columns * blocks },
}

impl Columns {
    ghost use Rattle.std.specs.Prelude.{◌<◌, ◌==◌, ◌&&◌, ◌||◌, ℕ, false, true, IfOk, MatchOption};
    ghost use Rattle.class_set.specs.ClassSet.{holds};
    ghost use Rattle.class_set.specs.Members.{IsLast, IsLeast, IsNext, IsPast, IsWidth};
    ghost use Rattle.set_columns.specs.Marks.{marked};

    /// A table with so many columns and rows, and without a mark.
    pub fn new(alloc: Global, columns: u32, rows: u32) -> Result<Columns, NoMemory>
        ensures columns { IfOk result (λ table. table.columns ≡ columns) }
        ensures rows { IfOk result (λ table. table.rows ≡ rows) }
        ensures marks { IfOk result (λ table. (column row : ℕ) → marked table column row ≡ false) }
    {
        let blocks = (rows / ROWS) as usize + 1;
        Ok(Columns {
            columns,
            rows,
            blocks,
            marks: vec![in alloc; ClassSet::empty(); columns as usize * blocks]?,
        })
    }

    /// Marks a row in each column that the set has as a member.
    pub fn mark_row<const W: usize>(&mut self, row: u32, set: &ClassSet<W>)
        requires width { IsWidth W }
        requires row { row < self.old.rows }
        requires within { (column : ℕ) → holds set.now column ≡ true → column < self.old.columns }
        ensures columns { self.new.columns ≡ self.old.columns }
        ensures rows { self.new.rows ≡ self.old.rows }
        ensures marks { (column k : ℕ) → marked self.new column k ≡ ((k == row && holds set.now column) || marked self.old column k) }
    {
        let mut before = None;
        while let Some(column) = set.next_after(before) {
            self.mark(column, row);
            before = Some(column);
        }
    }

    /// The least row above the number that is marked in the column, or the least of all where there is no number.
    pub fn next_after(&self, column: u32, n: Option<u32>) -> Option<u32>
        requires { column < self.now.columns }
        ensures { MatchOption result (IsLast (marked self.now column) n) (IsNext (marked self.now column) n) }
    {
        self.least_from(column, first_above(n))
    }

    // Marks a row in a column.
    fn mark(&mut self, column: u32, row: u32)
        requires column { column < self.old.columns }
        requires row { row < self.old.rows }
        ensures columns { self.new.columns ≡ self.old.columns }
        ensures rows { self.new.rows ≡ self.old.rows }
        ensures marks { (c k : ℕ) → marked self.new c k ≡ ((k == row && c == column) || marked self.old c k) }
    {
        let block = (row / ROWS) as usize;
        self.marks[column as usize * self.blocks + block].insert(row % ROWS);
    }

    // The least row from a number on that is marked in the column.
    fn least_from(&self, column: u32, first: usize) -> Option<u32>
        requires { column < self.now.columns }
        ensures { MatchOption result (IsPast (marked self.now column) first) (IsLeast (marked self.now column) first) }
    {
        let start = column as usize * self.blocks;
        let mut before = number_before((first % ROWS as usize) as u32);
        for block in first / ROWS as usize..self.blocks {
            if let Some(row) = self.marks[start + block].next_after(before) {
                return Some(ROWS * block as u32 + row);
            }
            before = None;
        }
        None
    }
}

// The least number above the number.
fn first_above(n: Option<u32>) -> usize
    ensures { result ≡ first_above n }
{
    match n {
        None => 0,
        Some(n) => n as usize + 1,
    }
}

// The number above which a number is the least, if there is one.
fn number_before(n: u32) -> Option<u32>
    ensures { first_above result ≡ n }
{
    if n == 0 { None } else { Some(n - 1) }
}
