ghost use Rattle.std.specs.Prelude.{◌≡◌, ◌&&◌, flat_map, if◌then◌else◌, bytes_eq, nat_eq, slice_index, Some, None, OnOk, IfOk};
ghost use Rattle.std.specs.List.{list_any};
ghost use Rattle.layout_rules.specs.Faults.{first_answer};
ghost use Rattle.layout_rules.specs.Declarations.{dims_told, kind_of_range, kind_by_default};
ghost use Rattle.declared_names.specs.KeptDeclarations.{Keeps, Tells, TellsMore, dims_by, is_array_by, kind_by};

use df_sequence::{Copied, NoMemory};
use f77_tree::{CommonPart, Decl, Dim, DimList, Kind, Labelled, LetterRange, Name, Stmt};
use indexmap::IndexMap;
use std::alloc::Global;
use std::hash::Hash;

// Keeps a value for a key that has none. The first one holds.
fn keep_first<K: Eq + Hash + Drop, V: Drop>(
    map: &mut IndexMap<K, V>,
    key: K,
    value: V,
) -> Result<(), NoMemory>
    ensures { OnOk result (Keeps K.eq map.old map.new (λ q. if K.eq key q then Some value else None)) }
{
    if !map.contains_key(&key) {
        map.insert(key, value)?;
    }
    Ok(())
}

// Keeps the dimensions of a declarator that has some.
fn keep_dims_of(
    alloc: Global,
    dims: &mut IndexMap<Name, DimList>,
    decl: &Decl,
) -> Result<(), NoMemory>
    ensures { OnOk result (Keeps bytes_eq dims.old dims.new (λ name. dims_told name decl.now)) }
{
    if decl.dims.is_empty() {
        return Ok(());
    }
    keep_first(dims, decl.name.copy(alloc)?, decl.dims.copy(alloc)?)
}

// Keeps the dimensions of declarators.
fn keep_dims(
    alloc: Global,
    dims: &mut IndexMap<Name, DimList>,
    decls: &[Decl],
) -> Result<(), NoMemory>
    ensures { OnOk result (Keeps bytes_eq dims.old dims.new (λ name. first_answer (dims_told name) decls.now)) }
{
    for decl in decls {
        keep_dims_of(alloc, dims, decl)?;
    }
    Ok(())
}

// Keeps the dimensions of the declarators of COMMON.
fn keep_dims_in_common(
    alloc: Global,
    dims: &mut IndexMap<Name, DimList>,
    parts: &[CommonPart],
) -> Result<(), NoMemory>
    ensures { OnOk result (Keeps bytes_eq dims.old dims.new (λ name. first_answer (dims_told name) (flat_map (λ part. part.decls) parts.now))) }
{
    for part in parts {
        keep_dims(alloc, dims, part.decls.as_slice())?;
    }
    Ok(())
}

// Keeps the kind of each declarator of a type statement.
fn keep_kinds(
    alloc: Global,
    kinds: &mut IndexMap<Name, Kind>,
    kind: Kind,
    decls: &[Decl],
) -> Result<(), NoMemory>
    ensures { OnOk result (Keeps bytes_eq kinds.old kinds.new
        (λ name. if list_any (λ decl. bytes_eq decl.name name) decls.now then Some kind else None)) }
{
    for decl in decls {
        keep_first(kinds, decl.name.copy(alloc)?, kind)?;
    }
    Ok(())
}

// Keeps the kind of each letter of a range.
fn keep_range(letters: &mut IndexMap<u8, Kind>, range: &LetterRange) -> Result<(), NoMemory>
    ensures { OnOk result (Keeps nat_eq letters.old letters.new (λ letter. kind_of_range letter range.now)) }
{
    for letter in range.from..=range.to {
        keep_first(letters, letter, range.kind)?;
    }
    Ok(())
}

// Keeps the kinds of the letters of IMPLICIT.
fn keep_ranges(letters: &mut IndexMap<u8, Kind>, ranges: &[LetterRange]) -> Result<(), NoMemory>
    ensures { OnOk result (Keeps nat_eq letters.old letters.new (λ letter. first_answer (kind_of_range letter) ranges.now)) }
{
    for range in ranges {
        keep_range(letters, range)?;
    }
    Ok(())
}

/// What the declarations of a program say of names. Of several declarations the first holds.
#[derive(Drop)]
pub(crate) struct Declarations {
    // The dimensions of arrays.
    dims: IndexMap<Name, DimList>,
    // The kinds that type statements give.
    kinds: IndexMap<Name, Kind>,
    // The kinds that IMPLICIT gives to letters.
    letters: IndexMap<u8, Kind>,
    // Whether IMPLICIT NONE stands in the program.
    implicit_none: bool,
}

impl Declarations {
    /// The declarations of all the statements.
    pub(crate) fn of(alloc: Global, stmts: &[Labelled]) -> Result<Declarations, NoMemory>
        ensures { IfOk result (λ declared. Tells declared stmts.now) }
    {
        let mut declared = Declarations {
            dims: IndexMap::new(alloc),
            kinds: IndexMap::new(alloc),
            letters: IndexMap::new(alloc),
            implicit_none: false,
        };
        for s in stmts {
            declared.read(alloc, &s.stmt)?;
        }
        Ok(declared)
    }

    // Keeps what one more statement declares.
    fn read(&mut self, alloc: Global, stmt: &Stmt) -> Result<(), NoMemory>
        ensures { OnOk result (TellsMore self.old self.new stmt.now) }
    {
        match stmt {
            Stmt::TypeOf(kind, decls) => {
                keep_dims(alloc, &mut self.dims, decls.as_slice())?;
                keep_kinds(alloc, &mut self.kinds, *kind, decls.as_slice())
            }
            Stmt::Dimension(decls) => keep_dims(alloc, &mut self.dims, decls.as_slice()),
            Stmt::Common(parts) => keep_dims_in_common(alloc, &mut self.dims, parts.as_slice()),
            Stmt::Implicit(ranges) => keep_ranges(&mut self.letters, ranges.as_slice()),
            Stmt::ImplicitNone => {
                self.implicit_none = true;
                Ok(())
            }
            _ => Ok(()),
        }
    }

    /// A list of the dimensions of a name.
    pub(crate) fn dims_of(&self, alloc: Global, name: &Name) -> Result<DimList, NoMemory>
        ensures { IfOk result (λ dims. dims ≡ dims_by self.now name.now) }
    {
        match self.dims.get(name) {
            Some(dims) => dims.copy(alloc),
            None => Ok(DimList::new(alloc)),
        }
    }

    /// The dimensions of a name.
    pub(crate) fn dims(&self, name: &Name) -> &[Dim]
        ensures { result.now ≡ dims_by self.now name.now }
    {
        match self.dims.get(name) {
            Some(dims) => dims.as_slice(),
            None => &[],
        }
    }

    /// Whether the name has dimensions.
    pub(crate) fn is_array(&self, name: &Name) -> bool
        ensures { result ≡ is_array_by self.now name.now }
    {
        match self.dims.get(name) {
            Some(dims) => !dims.is_empty(),
            None => false,
        }
    }

    /// The kind of a name: that of a type statement, else that of its first letter. A real name has none.
    pub(crate) fn kind(&self, name: &Name) -> Option<Kind>
        ensures { result ≡ kind_by self.now name.now }
    {
        if let Some(kind) = self.kinds.get(name) {
            return Some(*kind);
        }
        let letter = first_letter(name);
        if let Some(kind) = self.letters.get(&letter) {
            return Some(*kind);
        }
        default_kind(self.implicit_none, letter)
    }
}

fn first_letter(name: &Name) -> u8
    ensures { result ≡ slice_index name.now 0 }
{
    name.as_bytes().first().copied().unwrap_or(0)
}

// The kind of a letter that no IMPLICIT names.
fn default_kind(implicit_none: bool, letter: u8) -> Option<Kind>
    ensures { result ≡ kind_by_default implicit_none letter }
{
    if !implicit_none && 73 <= letter && letter <= 78 {
        Some(Kind::Integer)
    } else {
        None
    }
}
