//! What the copies of a unit have in common.
ghost use Rattle.std.specs.Prelude.{◌≡◌, ◌<◌, ◌^◌, length};

use crate::counted_units::LabelCounts;
use declared_names::NameDeclarations;
use f77_tree::Name;
use indexmap::IndexMap;
use program_units::NewName;

/// What stands for the statement with a label: the numbers of its first and its last label, less those before the copy.
#[derive(Clone, Copy)]
pub struct NewLabel {
    pub first: u32,
    pub last: u32,
    ghost few_first: { first < 2 ^ 30 },
    ghost few_last: { last < 2 ^ 30 },
}

/// What the copies of a unit have in common.
#[derive(Drop)]
pub struct UnitTable {
    /// Whether it is a subroutine, in whose copies calls of intrinsic functions become operators.
    pub copied: bool,
    pub names: IndexMap<Name, NewName>,
    /// What the unit declares, which tells its arrays.
    pub declared: NameDeclarations,
    pub labels: IndexMap<u32, NewLabel>,
    /// The number of the label behind a copy, less those before it.
    pub behind: u32,
    ghost few: { behind < 2 ^ 30 },
}

/// A copy of a unit.
#[derive(Clone, Copy)]
pub struct CopyOf<'a> {
    pub table: &'a UnitTable,
    /// What the dummies become.
    pub arguments: &'a [Name],
    /// How many labels stand before the copy.
    pub base: u32,
    ghost few: { base < 2 ^ 30 },
}

/// All units, with what their copies have in common.
#[derive(Clone, Copy)]
pub struct CopyTables<'a> {
    pub units: LabelCounts<'a>,
    pub tables: &'a [UnitTable],
    ghost as_many: { length tables.now ≡ length units.us.now },
}
