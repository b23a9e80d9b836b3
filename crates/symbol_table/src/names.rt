ghost use Rattle.std.specs.Prelude.{◌≡◌, ◌<◌, ◌++◌, [], ◌∷◌, length, false, true, slice_get, IfOk, IfSome, OnOk, bytes_eq};
ghost use Rattle.std.specs.List.{list_any};
ghost use Rattle.f77_tree.specs.Declarations.{index_of};
ghost use Rattle.f77_tree.specs.Name.{is_name};
ghost use Rattle.f77_tree.specs.Value.{kind_of, dims_of};
ghost use Rattle.symbol_table.specs.NameTable.{info_of};

use df_sequence::{Copied, NoMemory};
use f77_tree::{Dim, DimList, Kind, Name, NameInfo};
use indexmap::IndexMap;
use std::alloc::Global;
use std::marker::Model;

/// What the declarations say of a name.
#[derive(Drop)]
pub struct Symbol {
    pub kind: Kind,
    pub dims: DimList,
}

/// The names of a program with their kinds and dimensions, in the order in which they first appear. Contracts see the table
/// of names with all places 0.
#[derive(Drop)]
pub struct Names {
    table: IndexMap<Name, Symbol>,
}

impl Model for Names {
    ghost use Rattle.std.specs.Prelude.{◌≡◌, ◌<◌, ◌^◌, List, bytes_eq, map, true};
    ghost use Rattle.std.specs.List.{list_all};
    ghost use Rattle.indexmap.specs.IndexMap.{IsUnique, index_map_len, keys};
    ghost use Rattle.f77_tree.specs.Name.{is_name};
    ghost use Rattle.f77_tree.specs.declared.programs.NameInfo.{NameInfo};
    ghost use Rattle.symbol_table.specs.NameTable.{info_of};

    ghost Value = { List NameInfo };

    ghost view = { λ n. map info_of n.table.entries };

    ghost invariant = { λ n. IsUnique bytes_eq n.table × (list_all is_name (keys n.table) ≡ true) × (index_map_len n.table < 2 ^ 32) };
}

impl Names {
    /// The table of no names. It takes no memory.
    pub fn new(alloc: Global) -> Names
        ensures { result ≡ [] }
    {
        Names {
            table: IndexMap::new(alloc),
        }
    }

    /// How many names there are.
    pub fn len(&self) -> u32
        ensures { result ≡ length self.now }
    {
        self.table.len() as u32
    }

    /// The index of a name, or the length of the table where the name isn't in it.
    pub fn index(&self, name: &Name) -> u32
        ensures { result ≡ index_of self.now name.now }
    {
        match self.table.get_index_of(name) {
            Some(k) => k as u32,
            None => self.len(),
        }
    }

    /// The kind of the name at an index. It is Integer past the end.
    pub fn kind(&self, k: u32) -> Kind
        ensures { result ≡ kind_of self.now k }
    {
        match self.table.get_index(k as usize) {
            Some((_, symbol)) => symbol.kind,
            None => Kind::Integer,
        }
    }

    /// The dimensions of the name at an index. A scalar has none, and there are none past the end.
    pub fn dims(&self, k: u32) -> &[Dim]
        ensures { result.now ≡ dims_of self.now k }
    {
        match self.table.get_index(k as usize) {
            Some((_, symbol)) => symbol.dims.as_slice(),
            None => &[],
        }
    }

    /// The name at an index.
    pub fn name(&self, k: u32) -> &Name
        requires { k < length self.now }
        ensures { IfSome (slice_get self.now k) (λ info. info.name ≡ result.now) }
    {
        match self.table.get_index(k as usize) {
            Some((name, _)) => name,
            None => unreachable!(),
        }
    }

    /// The line of the table at an index, with a place.
    pub fn placed(&self, alloc: Global, k: u32, place: u32) -> Result<NameInfo, NoMemory>
        requires { k < length self.now }
        ensures { IfOk result (λ placed. IfSome (slice_get self.now k) (λ info. placed ≡ record info { place = place })) }
    {
        match self.table.get_index(k as usize) {
            Some((name, symbol)) => line(alloc, name, symbol, place),
            None => unreachable!(),
        }
    }

    /// Whether the name is in the table.
    pub fn has(&self, name: &Name) -> bool
        ensures { result ≡ list_any (λ info. bytes_eq name.now info.name) self.now }
    {
        self.table.contains_key(name)
    }

    /// Adds a name that isn't in the table at its end.
    pub fn add(&mut self, name: Name, symbol: Symbol) -> Result<(), NoMemory>
        requires { list_any (λ info. bytes_eq name info.name) self.old ≡ false }
        ensures { OnOk result (self.new ≡ self.old ++ info_of (name, symbol) ∷ []) }
    {
        is_symbolic(&name);
        self.table.insert(name, symbol)?;
        Ok(())
    }
}

// What the type of a name says of it.
fn is_symbolic(name: &Name)
    ensures { is_name name.now ≡ true }
{
    name.len();
}

// A name's line in the table.
fn line(alloc: Global, name: &Name, symbol: &Symbol, place: u32) -> Result<NameInfo, NoMemory>
    ensures { IfOk result (λ info. info ≡ record { name = name.now; kind = symbol.now.kind; dims = symbol.now.dims; place = place }) }
{
    Ok(NameInfo {
        name: name.copy(alloc)?,
        kind: symbol.kind,
        dims: symbol.dims.copy(alloc)?,
        place,
    })
}
