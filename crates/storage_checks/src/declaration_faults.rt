//! Declarations of storage that contradict themselves or one another (ANSI X3.9-1978, sections 5.1, 8.2, 8.3 and 9).

ghost use Rattle.std.specs.Prelude.{◌≡◌, ◌++◌, [], ◌∷◌, false, List, map, flat_map, IfOk, bytes_eq};
ghost use Rattle.std.specs.List.{list_any};
ghost use Rattle.f77_tree.specs.declared.statements.Labelled.{Labelled};
ghost use Rattle.layout_rules.specs.Faults.{first_line, has_repeat};
ghost use Rattle.layout_rules.specs.Declarations.{declarators};
ghost use Rattle.layout_rules.specs.StorageFaults.{dimensioned, array_names, are_wrong_dims, common_names, HasDeclared};
ghost use Rattle.layout_rules.specs.StorageLines.{declares_wrongly};

use crate::dimensions::element_count;
use crate::members;
use crate::name_set::NameSet;
use df_sequence::NoMemory;
use f77_tree::{CommonPart, Decl, Labelled, Stmt};
use std::alloc::Global;
use symbol_table::Names;

/// The line of the first statement that gives dimensions to a name once more, whose dimensions are wrong, that puts a name
/// into COMMON once more, or of which a member of EQUIVALENCE is wrong.
pub(crate) fn first_wrong_declaration(
    alloc: Global,
    stmts: &[Labelled],
    names: &Names,
) -> Result<Option<u32>, NoMemory>
    ensures { IfOk result (λ line. line ≡ first_line (declares_wrongly names.now) stmts.now) }
{
    let mut declared = Declared::new(alloc);
    for s in stmts {
        if declared.is_wrong(alloc, names, s)? {
            return Ok(Some(s.line));
        }
    }
    Ok(None)
}

/// The names that statements gave dimensions to, and those that they put into COMMON.
#[derive(Drop)]
pub(crate) struct Declared {
    arrays: NameSet,
    commons: NameSet,
}

impl Declared {
    /// No names.
    pub(crate) fn new(alloc: Global) -> Declared
        ensures { HasDeclared result.arrays result.commons [] }
    {
        Declared {
            arrays: NameSet::new(alloc),
            commons: NameSet::new(alloc),
        }
    }

    /// Whether a statement below those declares a name once more, or its dimensions or members of EQUIVALENCE are wrong. It adds what the
    /// statement declares, if not.
    pub(crate) fn is_wrong(
        &mut self,
        alloc: Global,
        names: &Names,
        s: &Labelled,
    ) -> Result<bool, NoMemory>
        ensures wrong { IfOk result (λ wrong. (above : List Labelled) → HasDeclared self.old.arrays self.old.commons above
            → wrong ≡ declares_wrongly names.now above s.now) }
        ensures declared { IfOk result (λ wrong. (above : List Labelled) → HasDeclared self.old.arrays self.old.commons above → wrong ≡ false
            → HasDeclared self.new.arrays self.new.commons (above ++ s.now ∷ [])) }
    {
        Ok(
            repeats_array(alloc, &mut self.arrays, &s.stmt)?
                || has_wrong_dims(&s.stmt)
                || repeats_common(alloc, &mut self.commons, &s.stmt)?
                || members::has_wrong_grouped(names, s),
        )
    }
}

// ---- dimensions

// Adds the arrays that the statement declares, unless one of them was declared before.
fn repeats_array(alloc: Global, seen: &mut NameSet, stmt: &Stmt) -> Result<bool, NoMemory>
    ensures repeats { IfOk result (λ repeats. repeats ≡ has_repeat bytes_eq seen.old (dimensioned stmt.now)) }
    ensures added { IfOk result (λ repeats. repeats ≡ false → seen.new ≡ seen.old ++ dimensioned stmt.now) }
{
    match stmt {
        Stmt::TypeOf(_, decls) | Stmt::Dimension(decls) => {
            repeats_array_in(alloc, seen, decls.as_slice())
        }
        Stmt::Common(parts) => repeats_array_in_parts(alloc, seen, parts.as_slice()),
        _ => Ok(false),
    }
}

fn repeats_array_in_parts(
    alloc: Global,
    seen: &mut NameSet,
    parts: &[CommonPart],
) -> Result<bool, NoMemory>
    ensures repeats { IfOk result (λ repeats. repeats ≡ has_repeat bytes_eq seen.old (flat_map (λ part. array_names part.decls) parts.now)) }
    ensures added { IfOk result (λ repeats. repeats ≡ false → seen.new ≡ seen.old ++ flat_map (λ part. array_names part.decls) parts.now) }
{
    for part in parts {
        if repeats_array_in(alloc, seen, part.decls.as_slice())? {
            return Ok(true);
        }
    }
    Ok(false)
}

fn repeats_array_in(alloc: Global, seen: &mut NameSet, decls: &[Decl]) -> Result<bool, NoMemory>
    ensures repeats { IfOk result (λ repeats. repeats ≡ has_repeat bytes_eq seen.old (array_names decls.now)) }
    ensures added { IfOk result (λ repeats. repeats ≡ false → seen.new ≡ seen.old ++ array_names decls.now) }
{
    for decl in decls {
        if repeats_if_array(alloc, seen, decl)? {
            return Ok(true);
        }
    }
    Ok(false)
}

fn repeats_if_array(alloc: Global, seen: &mut NameSet, decl: &Decl) -> Result<bool, NoMemory>
    ensures repeats { IfOk result (λ repeats. repeats ≡ has_repeat bytes_eq seen.old (array_names (decl.now ∷ []))) }
    ensures added { IfOk result (λ repeats. repeats ≡ false → seen.new ≡ seen.old ++ array_names (decl.now ∷ [])) }
{
    if decl.dims.is_empty() {
        return Ok(false);
    }
    Ok(!seen.add(alloc, &decl.name)?)
}

// Whether the dimensions of a declarator are wrong.
fn has_wrong_dims(stmt: &Stmt) -> bool
    ensures { result ≡ list_any (λ decl. are_wrong_dims decl.dims) (declarators stmt.now) }
{
    match stmt {
        Stmt::TypeOf(_, decls) | Stmt::Dimension(decls) => has_wrong_dims_in(decls.as_slice()),
        Stmt::Common(parts) => has_wrong_dims_in_parts(parts.as_slice()),
        _ => false,
    }
}

fn has_wrong_dims_in_parts(parts: &[CommonPart]) -> bool
    ensures { result ≡ list_any (λ part. list_any (λ decl. are_wrong_dims decl.dims) part.decls) parts.now }
{
    parts
        .iter()
        .any(|part| has_wrong_dims_in(part.decls.as_slice()))
}

fn has_wrong_dims_in(decls: &[Decl]) -> bool
    ensures { result ≡ list_any (λ decl. are_wrong_dims decl.dims) decls.now }
{
    decls
        .iter()
        .any(|decl| element_count(decl.dims.as_slice()).is_none())
}

// ---- COMMON

// Adds the names that the statement puts into COMMON, unless one of them stands there before.
fn repeats_common(alloc: Global, seen: &mut NameSet, stmt: &Stmt) -> Result<bool, NoMemory>
    ensures repeats { IfOk result (λ repeats. repeats ≡ has_repeat bytes_eq seen.old (common_names stmt.now)) }
    ensures added { IfOk result (λ repeats. repeats ≡ false → seen.new ≡ seen.old ++ common_names stmt.now) }
{
    match stmt {
        Stmt::Common(parts) => repeats_name_in_parts(alloc, seen, parts.as_slice()),
        _ => Ok(false),
    }
}

fn repeats_name_in_parts(
    alloc: Global,
    seen: &mut NameSet,
    parts: &[CommonPart],
) -> Result<bool, NoMemory>
    ensures repeats { IfOk result (λ repeats. repeats
        ≡ has_repeat bytes_eq seen.old (flat_map (λ part. map (λ decl. decl.name) part.decls) parts.now)) }
    ensures added { IfOk result (λ repeats. repeats ≡ false → seen.new
        ≡ seen.old ++ flat_map (λ part. map (λ decl. decl.name) part.decls) parts.now) }
{
    for part in parts {
        if repeats_name_in(alloc, seen, part.decls.as_slice())? {
            return Ok(true);
        }
    }
    Ok(false)
}

fn repeats_name_in(alloc: Global, seen: &mut NameSet, decls: &[Decl]) -> Result<bool, NoMemory>
    ensures repeats { IfOk result (λ repeats. repeats ≡ has_repeat bytes_eq seen.old (map (λ decl. decl.name) decls.now)) }
    ensures added { IfOk result (λ repeats. repeats ≡ false → seen.new ≡ seen.old ++ map (λ decl. decl.name) decls.now) }
{
    for decl in decls {
        if !seen.add(alloc, &decl.name)? {
            return Ok(true);
        }
    }
    Ok(false)
}
