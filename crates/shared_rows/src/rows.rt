ghost use Rattle.std.specs.Prelude.{◌≡◌, ◌<◌, ◌≤◌, ◌^◌, [], ◌∷◌, ◌++◌, length, replicate, slice_index, IfOk, OnOk, OnErr};
ghost use Rattle.shared_rows.specs.Blocks.{AreKept, AreSame, place as place_of};
ghost use Rattle.shared_rows.specs.Table.{IsFull, row_at, with_number, with_row};

use df_sequence::NoMemory;
use std::alloc::Global;
use std::marker::Model;

/// How many columns a block has.
const COLUMNS: u32 = 16;

/// Rows of numbers, all of one width. A row that is a copy of another takes eight bytes for each 16 columns, and 64 bytes for each 16
/// columns in which a number of either is written after that. Contracts see a `Table`.
#[derive(Drop)]
pub struct SharedRows {
    width: u32,
    /// How many blocks a row has.
    blocks: u32,
    /// How many rows there are.
    count: usize,
    /// Numbers that stand next to one another in rows. The last block of a row has more than the row.
    pool: Vec<[u32; 16]>,
    /// For each row in turn, the numbers of its blocks.
    numbers: Vec<usize>,
    /// From this number on, each block stands in one place at most.
    own: usize,
}

impl Model for SharedRows {
    ghost use Rattle.shared_rows.specs.Table.{Table};
    ghost use Rattle.shared_rows.specs.Blocks.{table_of, IsKept};

    ghost Value = { Table };

    ghost view = { table_of };

    ghost invariant = { IsKept };
}

impl SharedRows {
    /// A table of this width without a row. It takes no memory.
    pub fn new(alloc: Global, width: u32) -> Self
        ensures width { result.width ≡ width }
        ensures rows { result.rows ≡ [] }
    {
        SharedRows {
            width,
            blocks: width / COLUMNS + 1,
            count: 0,
            pool: Vec::new(alloc),
            numbers: Vec::new(alloc),
            own: 0,
        }
    }

    /// A table of this width without a row, with room for so many rows, and for so many blocks of 16 columns that differ. Room is no
    /// limit: where the rows take more, the table grows.
    pub fn with_room(alloc: Global, width: u32, rows: u32, blocks: usize) -> Result<Self, NoMemory>
        ensures width { IfOk result (λ table. table.width ≡ width) }
        ensures rows { IfOk result (λ table. table.rows ≡ []) }
    {
        let row_blocks = width / COLUMNS + 1;
        Ok(SharedRows {
            width,
            blocks: row_blocks,
            count: 0,
            pool: Vec::with_capacity(alloc, blocks)?,
            numbers: Vec::with_capacity(alloc, rows as usize * row_blocks as usize)?,
            own: 0,
        })
    }

    /// How many rows there are.
    pub fn len(&self) -> usize
        ensures count { result ≡ length self.now.rows }
        ensures full { IsFull self.now }
    {
        self.count
    }

    /// How many numbers a row has.
    pub fn width(&self) -> u32
        ensures { result ≡ self.now.width }
    {
        self.width
    }

    /// The number in a column of a row.
    #[inline]
    pub fn get(&self, row: usize, column: u32) -> u32
        requires row { row < length self.now.rows }
        requires column { column < self.now.width }
        ensures number { result ≡ slice_index (row_at self.now row) column }
        ensures within { column < length (row_at self.now row) }
    {
        let block = self.numbers[place(self.blocks, row, column)];
        self.pool[block][(column % COLUMNS) as usize]
    }

    /// Puts a row after the others that has this number in each column. Where there is no memory for it, the table is as before.
    pub fn push_filled(&mut self, number: u32) -> Result<(), NoMemory>
        ensures ok { OnOk result (self.new ≡ with_row self.old (replicate self.old.width number)) }
        ensures err { OnErr result (self.new ≡ self.old) }
    {
        self.numbers.reserve(self.blocks as usize)?;
        let block = push_block(&mut self.pool, [number; 16])?;
        self.numbers
            .resize(self.numbers.len() + self.blocks as usize, block)?;
        self.count += 1;
        self.own = self.pool.len();
        Ok(())
    }

    /// Puts a copy of a row after the others. Where there is no memory for it, the table is as before.
    pub fn push_copy(&mut self, row: usize) -> Result<(), NoMemory>
        requires { row < length self.old.rows }
        ensures ok { OnOk result (self.new ≡ with_row self.old (row_at self.old row)) }
        ensures err { OnErr result (self.new ≡ self.old) }
    {
        let first = place(self.blocks, row, 0);
        self.numbers
            .extend_from_within(first..first + self.blocks as usize)?;
        self.count += 1;
        self.own = self.pool.len();
        Ok(())
    }

    /// Writes the number in a column of a row. Where there is no memory for it, the table is as before.
    pub fn set(&mut self, row: usize, column: u32, number: u32) -> Result<(), NoMemory>
        requires row { row < length self.old.rows }
        requires column { column < self.old.width }
        ensures ok { OnOk result (self.new ≡ with_number self.old row column number) }
        ensures err { OnErr result (self.new ≡ self.old) }
    {
        let i = place(self.blocks, row, column);
        let block = own_block(&mut self.pool, &mut self.numbers, i, self.own)?;
        self.pool[block][(column % COLUMNS) as usize] = number;
        Ok(())
    }
}

/// Where the block of a row that has the column stands in the list of block numbers, when a row has so many blocks.
#[inline]
fn place(blocks: u32, row: usize, column: u32) -> usize
    requires { place_of blocks row column < 2 ^ 64 }
    ensures { result ≡ place_of blocks row column }
{
    row * blocks as usize + (column / COLUMNS) as usize
}

/// Puts a block after the others. The result is its number.
fn push_block(pool: &mut Vec<[u32; 16]>, block: [u32; 16]) -> Result<usize, NoMemory>
    ensures ok { IfOk result (λ b. (b ≡ length pool.old.items) × (pool.new.items ≡ pool.old.items ++ block ∷ [])) }
    ensures err { OnErr result (pool.new.items ≡ pool.old.items) }
{
    let number = pool.len();
    pool.push(block)?;
    Ok(number)
}

/// The number of the block at the place, after a copy is put there where it may stand in other places too.
fn own_block(
    pool: &mut Vec<[u32; 16]>,
    numbers: &mut Vec<usize>,
    i: usize,
    own: usize,
) -> Result<usize, NoMemory>
    requires kept { AreKept pool.old.items numbers.old.items own }
    requires place { i < length numbers.old.items }
    ensures kept { AreKept pool.new.items numbers.new.items own }
    ensures same { AreSame pool.old.items numbers.old.items pool.new.items numbers.new.items }
    ensures own { IfOk result (λ b. (b ≡ slice_index numbers.new.items i) × (own ≤ b)) }
{
    let block = numbers[i];
    if block >= own {
        return Ok(block);
    }
    let copied = pool[block];
    let copy = push_block(pool, copied)?;
    numbers[i] = copy;
    Ok(copy)
}
