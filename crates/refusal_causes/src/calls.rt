//! What is wrong with CALLs, dummies and blocks of COMMON, between two units.

ghost use Rattle.std.specs.Prelude.{ℕ, IfOk, IfSome};
ghost use Rattle.declared_names.specs.Described.{described};
ghost use Rattle.declared_names.specs.KeptDeclarations.{said_by};
ghost use Rattle.refusal_causes.specs.Declarations.{IsOfBlock, IsOfCall, IsOfName, IsOther};

use crate::call_cause::{BlockCause, CallCause, NameCause};
use declared_names::{AppearingNames, NameDeclarations};
use df_sequence::NoMemory;
use f77_tree::{Labelled, Name, Stmt};
use std::alloc::Global;
use unit_statements::{dummies, first_line, inner, spelt, statement_at, unit_named, unit_with};

/// Why the CALL at a line, or the SUBROUTINE at a line, doesn't fit: the first argument that differs from its dummy in the
/// order number, kind, bounds, or the first dummy that stands twice or in COMMON, EQUIVALENCE or DATA. None where the line has
/// neither, or it fits.
///
/// # Errors
///
/// `NoMemory` where memory runs out.
pub fn cause_of_call(
    alloc: Global,
    stmts: &[Labelled],
    line: u32,
) -> Result<Option<CallCause<'_>>, NoMemory>
    ensures { IfOk result (λ found. IfSome found IsOfCall) }
{
    let Some(s) = statement_at(stmts, line) else {
        return Ok(None);
    };
    match inner(&s.stmt) {
        Stmt::CallTo(name, arguments) => {
            let unit = unit_with(stmts, line);
            let callee = unit_named(stmts, name);
            cause_of_arguments(alloc, name, unit, arguments.as_slice(), callee)
        }
        Stmt::Sub(_, names) => cause_of_dummies(alloc, unit_with(stmts, line), names.as_slice()),
        _ => Ok(None),
    }
}

// Why the arguments that a unit gives don't fit the dummies of another.
fn cause_of_arguments<'a>(
    alloc: Global,
    name: &'a Name,
    unit: &'a [Labelled],
    arguments: &'a [Name],
    callee: &'a [Labelled],
) -> Result<Option<CallCause<'a>>, NoMemory>
    ensures so { IfOk result (λ found. IfSome found (IsOther (described unit.now) (described callee.now))) }
    ensures call { IfOk result (λ found. IfSome found IsOfCall) }
{
    let dummies = dummies(callee);
    if arguments.len() != dummies.len() {
        return Ok(Some(CallCause::ArgumentCount {
            name: spelt(name),
            arguments: arguments.len(),
            dummies: dummies.len(),
        }));
    }
    let here = NameDeclarations::of(alloc, unit)?;
    let there = NameDeclarations::of(alloc, callee)?;
    for (argument, dummy) in arguments.iter().zip(dummies) {
        if let Some(cause) = cause_of_argument(&here, argument, &there, dummy) {
            return Ok(Some(cause));
        }
    }
    Ok(None)
}

// Why an argument doesn't fit its dummy.
fn cause_of_argument<'a>(
    here: &NameDeclarations,
    name: &'a Name,
    there: &NameDeclarations,
    dummy: &'a Name,
) -> Option<CallCause<'a>>
    ensures so { IfSome result (IsOther (said_by here.now) (said_by there.now)) }
    ensures call { IfSome result IsOfCall }
{
    let argument = spelt(name);
    let Some(kind) = here.kind(name) else {
        return Some(CallCause::RealArgument { argument });
    };
    if there.kind(dummy) != Some(kind) {
        return Some(CallCause::ArgumentKind {
            argument,
            dummy: spelt(dummy),
        });
    }
    if here.dims(name) != there.dims(dummy) {
        return Some(CallCause::ArgumentBounds {
            argument,
            dummy: spelt(dummy),
        });
    }
    None
}

// Why dummies of a unit are wrong by themselves.
fn cause_of_dummies<'a>(
    alloc: Global,
    unit: &'a [Labelled],
    names: &'a [Name],
) -> Result<Option<CallCause<'a>>, NoMemory>
    ensures { IfOk result (λ found. IfSome found IsOfCall) }
{
    for (k, name) in names.iter().enumerate() {
        if names[..k]
            .iter()
            .any(|above| above.as_bytes() == name.as_bytes())
        {
            return Ok(Some(CallCause::DummyTwice { dummy: spelt(name) }));
        }
    }
    let declared = NameDeclarations::of(alloc, unit)?;
    for s in unit {
        if let Stmt::Common(_) | Stmt::Equivalence(_) | Stmt::Init(_) = &s.stmt {
            let mut stored = AppearingNames::new(alloc);
            stored.note_stmt(alloc, &declared, &s.stmt)?;
            if let Some(name) = names.iter().find(|name| stored.has(name)) {
                return Ok(Some(CallCause::DummyStored {
                    dummy: spelt(name),
                    line: s.line,
                }));
            }
        }
    }
    Ok(None)
}

/// Why a block of the unit that begins at a line differs from the same block of the first unit that has it: in its number of
/// names, or by the first name that has another kind or other bounds.
///
/// # Errors
///
/// `NoMemory` where memory runs out.
pub fn cause_of_block(
    alloc: Global,
    stmts: &[Labelled],
    line: u32,
) -> Result<Option<BlockCause<'_>>, NoMemory>
    ensures { IfOk result (λ found. IfSome found IsOfBlock) }
{
    let unit = unit_with(stmts, line);
    for s in unit {
        if let Stmt::Common(parts) = &s.stmt {
            for part in parts.as_slice() {
                let first = unit_with(stmts, line_of_block(stmts, &part.block));
                if let Some(cause) = cause_between(alloc, &part.block, unit, first)? {
                    return Ok(Some(cause));
                }
            }
        }
    }
    Ok(None)
}

// The line of the first statement that has the block.
fn line_of_block(stmts: &[Labelled], block: &Option<Name>) -> u32 {
    for s in stmts {
        if let Stmt::Common(parts) = &s.stmt
            && parts
                .as_slice()
                .iter()
                .any(|part| is_block(&part.block, block))
        {
            return s.line;
        }
    }
    0
}

// Whether two names of blocks are the same. Blank COMMON has none.
fn is_block(a: &Option<Name>, b: &Option<Name>) -> bool {
    match (a, b) {
        (None, None) => true,
        (Some(a), Some(b)) => a.as_bytes() == b.as_bytes(),
        _ => false,
    }
}

// Why the block differs between two units.
fn cause_between<'a>(
    alloc: Global,
    block: &'a Option<Name>,
    unit: &'a [Labelled],
    first: &'a [Labelled],
) -> Result<Option<BlockCause<'a>>, NoMemory>
    ensures { IfOk result (λ found. IfSome found IsOfBlock) }
{
    let names = names_of_block(alloc, unit, block)?;
    let others = names_of_block(alloc, first, block)?;
    let block = block_name(block);
    let line = first_line(first);
    if names.len() != others.len() {
        return Ok(Some(BlockCause::BlockLength {
            block,
            line,
            here: names.len(),
            there: others.len(),
        }));
    }
    let here = NameDeclarations::of(alloc, unit)?;
    let there = NameDeclarations::of(alloc, first)?;
    for (name, other) in names.iter().zip(others.iter()) {
        if !is_alike(&here, name, &there, other) {
            return Ok(Some(BlockCause::BlockMember {
                block,
                line,
                here: spelt(name),
                there: spelt(other),
            }));
        }
    }
    Ok(None)
}

// Whether a name has the kind and the bounds of a name of another unit.
fn is_alike(here: &NameDeclarations, name: &Name, there: &NameDeclarations, other: &Name) -> bool {
    here.kind(name) == there.kind(other) && here.dims(name) == there.dims(other)
}

// The name of a block; blank COMMON has none.
fn block_name(block: &Option<Name>) -> &str {
    match block {
        Some(name) => spelt(name),
        None => "",
    }
}

// The names of a block in a unit, in their order.
fn names_of_block<'a>(
    alloc: Global,
    unit: &'a [Labelled],
    block: &Option<Name>,
) -> Result<Vec<&'a Name>, NoMemory> {
    let mut names = Vec::new(alloc);
    for s in unit {
        if let Stmt::Common(parts) = &s.stmt {
            for part in parts.as_slice() {
                if is_block(&part.block, block) {
                    for decl in part.decls.as_slice() {
                        names.push(&decl.name)?;
                    }
                }
            }
        }
    }
    Ok(names)
}

/// What is wrong with the name of the subroutine that the statement at a line declares or calls: a SUBROUTINE above has it, none
/// of the text has it, or the subroutine calls itself. None where the statement is neither SUBROUTINE nor such a CALL.
pub fn cause_of_name(stmts: &[Labelled], line: u32) -> Option<NameCause<'_>>
    ensures { IfSome result (IsOfName stmts.now line) }
{
    match inner(&statement_at(stmts, line)?.stmt) {
        Stmt::CallTo(name, _) => cause_of_lack(stmts, name),
        Stmt::Sub(name, _) => {
            if first_line(unit_named(stmts, name)) == line {
                Some(NameCause::Recursion { name: spelt(name) })
            } else {
                Some(NameCause::SubroutineTwice { name: spelt(name) })
            }
        }
        _ => None,
    }
}

// What is told of a name that no SUBROUTINE has.
fn cause_of_lack<'a>(stmts: &[Labelled], name: &'a Name) -> Option<NameCause<'a>>
    ensures { IfSome result (λ cause. (line : ℕ) → IsOfName stmts.now line cause) }
{
    if unit_named(stmts, name).is_empty() {
        Some(NameCause::NoSubroutine { name: spelt(name) })
    } else {
        None
    }
}
