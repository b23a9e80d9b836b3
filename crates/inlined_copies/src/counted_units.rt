//! How many labels the copy of each unit has.
ghost use Rattle.std.specs.Prelude.{◌^◌, ℕ, List, bytes_eq, ◌≡◌};
ghost use Rattle.indexmap.specs.IndexMap.{get};
ghost use Rattle.program_units.specs.CallTable.{unit_named};
ghost use Rattle.inlined_copies.specs.LabelCounts.{AreCounted};

use f77_tree::Name;
use indexmap::IndexMap;
use program_units::Units;

/// All units, with how many labels the copy of each has.
#[derive(Clone, Copy)]
pub struct LabelCounts<'a> {
    pub us: &'a Units<'a>,
    /// For the name of a subroutine its unit.
    pub index: &'a IndexMap<Name, usize>,
    /// How many labels the copy of each unit has, or 2^20 where it has more.
    pub counts: &'a [u32],
    ghost named: { (name : List ℕ) → get bytes_eq index.now name ≡ unit_named us.now name },
    ghost counted: { AreCounted us.now (2 ^ 20) counts.now },
}
