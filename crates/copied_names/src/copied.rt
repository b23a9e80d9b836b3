//! What the names of subroutines become in the expansion of a text.
ghost use Rattle.std.specs.Prelude.{◌≡◌, ◌+◌, ◌<◌, ◌^◌, ◌++◌, Err, IfErr, IfOk, OnOk, Some, false, length, option_copied};
ghost use Rattle.f77_source.specs.declared.source_end.Refusal.{Refusal};
ghost use Rattle.f77_source.specs.declared.source_end.SourceEnd.TheVariants.{Refused};
ghost use Rattle.f77_source.specs.Reading.{reading};
ghost use Rattle.program_units.specs.NamedEntities.{AreAllNamed};
ghost use Rattle.program_units.specs.Refusals.{has_great_name};
ghost use Rattle.program_units.specs.Units.{dummies_of, sub_name as sub_name_of, unit_at, units};
ghost use Rattle.copied_names.specs.CopiedNames.{AreNamesOf, becomes_as, copied_names as copied_names_of, first_dummies, HasNextPlace, HaveDummiesFirst, names_by, names_in_copies, subroutine as subroutine_of};

use df_sequence::{Copied, NoMemory};
use entity_names::{NewNames, TextEntities};
use f77_source::{SourceEnd, read_program, read_statements};
use f77_tree::{Labelled, Name, Stmt};
use program_units::{NewName, Units};
use std::alloc::Global;

/// What a name of a subroutine becomes in its copies.
#[derive(Drop)]
pub enum Becomes {
    /// What the CALL has at this place of its list, counted from 1.
    Argument(usize),
    /// A name, the same in each copy.
    Named(Name),
}

/// A name of a subroutine, and what it becomes in the expansion.
#[derive(Drop)]
pub struct CopiedName {
    /// The name of the subroutine.
    pub unit: Name,
    /// The name in its text.
    pub name: Name,
    /// What stands for it in the expansion.
    pub becomes: Becomes,
}

/// What the names of a text's subroutines become in its expansion, subroutine by subroutine, and in each in the order in
/// which they first appear. There are none where the text has no subroutine. Names of the main program stay as they are.
///
/// There are fewer than 2^32 - 1 bytes.
///
/// # Errors
///
/// Refused, as `read_program` refuses the text. NoMemory may come in place of any answer.
pub fn copied_names(
    alloc: Global,
    bytes: &[u8],
    checked: bool,
) -> Result<Vec<CopiedName>, SourceEnd>
    requires { length bytes.now + 1 < 2 ^ 32 }
    ensures names { IfOk result (λ names. AreNamesOf bytes.now names.items) }
    ensures refused { IfErr result (λ end. (refusal : Refusal) → end ≡ Refused refusal → reading bytes.now checked ≡ Err refusal) }
{
    let _ = read_program(alloc, bytes, checked)?;
    let stmts = read_statements(alloc, bytes)?;
    let names = names_of_text(alloc, stmts.as_slice())?;
    Ok(names)
}

// What the names of the subroutines of these statements become.
fn names_of_text(alloc: Global, stmts: &[Labelled]) -> Result<Vec<CopiedName>, NoMemory>
    requires named { AreAllNamed (units stmts.now) }
    requires small { has_great_name (units stmts.now) ≡ false }
    requires first { HaveDummiesFirst (units stmts.now) }
    ensures { IfOk result (λ names. names.items ≡ copied_names_of (units stmts.now)) }
{
    let units = Units::of(alloc, stmts)?;
    let text = TextEntities::of(alloc, &units)?;
    let new = NewNames::of(alloc, &text)?;
    let mut names = Vec::new(alloc);
    for k in 1..units.len() {
        add_unit(alloc, &mut names, &new, k)?;
    }
    Ok(names)
}

// Adds what the names of the unit k become.
fn add_unit(
    alloc: Global,
    names: &mut Vec<CopiedName>,
    new: &NewNames,
    k: usize,
) -> Result<(), NoMemory>
    requires sub { 0 < k }
    requires unit { k < length new.now.text.now.us.now }
    requires first { HaveDummiesFirst new.now.text.now.us.now }
    ensures { OnOk result (names.new.items ≡ names.old.items ++ names_in_copies new.now.text.now.us.now k) }
{
    let unit = new.text.us.at(k);
    few_dummies(unit);
    match subroutine(unit) {
        Some(subroutine) => add_names_of(alloc, names, new, k, subroutine),
        None => Ok(()),
    }
}

// The name of a subroutine, whose first statement is SUBROUTINE.
fn subroutine(unit: &[Labelled]) -> Option<&Name>
    ensures { option_copied result ≡ subroutine_of unit.now }
{
    match unit.first() {
        Some(s) => sub_name(&s.stmt),
        None => None,
    }
}

// The dummies of one statement are a list, which has fewer than 2^32 items.
fn few_dummies(unit: &[Labelled])
    ensures { length (first_dummies unit.now) < 2 ^ 32 }
{
    if let Some(s) = unit.first() {
        if let Stmt::Sub(_, dummies) = &s.stmt {
            dummies.len();
        }
    }
}

// The name in a SUBROUTINE statement.
fn sub_name(stmt: &Stmt) -> Option<&Name>
    ensures { option_copied result ≡ sub_name_of stmt.now }
{
    match stmt {
        Stmt::Sub(name, _) => Some(name),
        _ => None,
    }
}

// Adds what the names of the unit k become, which is the subroutine of this name.
fn add_names_of(
    alloc: Global,
    names: &mut Vec<CopiedName>,
    new: &NewNames,
    k: usize,
    subroutine: &Name,
) -> Result<(), NoMemory>
    requires sub { 0 < k }
    requires unit { k < length new.now.text.now.us.now }
    requires few { length (dummies_of (unit_at new.now.text.now.us.now k)) < 2 ^ 32 }
    ensures { OnOk result (names.new.items ≡ names.old.items ++ names_by new.now.text.now.us.now k (Some subroutine.now)) }
{
    let all = new.names(k);
    for i in 0..all.len() {
        let name = all.name(i);
        names.push(CopiedName {
            unit: subroutine.copy(alloc)?,
            name: name.copy(alloc)?,
            becomes: told(new.new_name(alloc, k, name)?),
        })?;
    }
    Ok(())
}

// The same, with places that are counted from 1.
fn told(new: NewName) -> Becomes
    requires { HasNextPlace new }
    ensures { result ≡ becomes_as new }
{
    match new {
        NewName::Argument(place) => Becomes::Argument(place + 1),
        NewName::Fixed(name) => Becomes::Named(name),
    }
}
