//! Faults of kinds: a kind given twice, and expressions of the wrong kind.

ghost use Rattle.std.specs.Prelude.{◌≡◌, ◌==◌, ◌++◌, [], false, map, flat_map, IfOk, bytes_eq};
ghost use Rattle.layout_rules.specs.Faults.{first_line, has_repeat};
ghost use Rattle.layout_rules.specs.TypeFaults.{letters_of_range, has_wrong_type};
ghost use Rattle.declared_names.specs.KindsGiven.{gives_again, GivesMore};

use crate::statement_kinds::is_well_kinded;
use df_sequence::{Copied, NoMemory};
use f77_tree::{Decl, Labelled, LetterRange, Name, Stmt};
use indexmap::IndexSet;
use std::alloc::Global;
use symbol_table::Names;

/// The line of the first statement that gives a kind to a name or a letter that has one, stands with another IMPLICIT
/// beside IMPLICIT NONE, or has an expression of the wrong kind (ANSI X3.9-1978, sections 8.4, 8.5 and 10 to 12).
pub fn first_wrong_type(
    alloc: Global,
    stmts: &[Labelled],
    names: &Names,
) -> Result<Option<u32>, NoMemory>
    ensures { IfOk result (λ line. line ≡ first_line (has_wrong_type names.now) stmts.now) }
{
    let mut given = Given::new(alloc);
    for s in stmts {
        if given.add(alloc, &s.stmt)? || !is_well_kinded(names, &s.stmt) {
            return Ok(Some(s.line));
        }
    }
    Ok(None)
}

// The kinds that statements give, one after another, as long as none is given twice.
#[derive(Drop)]
struct Given {
    // the names of type statements
    typed: IndexSet<Name>,
    // the letters of IMPLICIT
    implied: IndexSet<u32>,
    // an IMPLICIT or IMPLICIT NONE stands there
    has_implicit: bool,
    // IMPLICIT NONE stands there
    has_none: bool,
}

impl Given {
    fn new(alloc: Global) -> Given
        ensures typed { result.typed.keys ≡ [] }
        ensures implied { result.implied.keys ≡ [] }
        ensures implicit { result.has_implicit ≡ false }
        ensures none { result.has_none ≡ false }
    {
        Given {
            typed: IndexSet::new(alloc),
            implied: IndexSet::new(alloc),
            has_implicit: false,
            has_none: false,
        }
    }

    // Adds what a statement gives, and says whether something of it is given already.
    fn add(&mut self, alloc: Global, stmt: &Stmt) -> Result<bool, NoMemory>
        ensures again { IfOk result (λ again. again ≡ gives_again self.old stmt.now) }
        ensures more { IfOk result (λ again. again ≡ false → GivesMore self.old stmt.now self.new) }
    {
        match stmt {
            Stmt::TypeOf(_, decls) => add_names(alloc, &mut self.typed, decls.as_slice()),
            Stmt::Implicit(ranges) => {
                if self.has_none {
                    return Ok(true);
                }
                self.has_implicit = true;
                add_ranges(&mut self.implied, ranges.as_slice())
            }
            Stmt::ImplicitNone => {
                let again = self.has_implicit || self.has_none;
                self.has_implicit = true;
                self.has_none = true;
                Ok(again)
            }
            _ => Ok(false),
        }
    }
}

// Adds the names of declarators, and says whether one of them is there already.
fn add_names(alloc: Global, typed: &mut IndexSet<Name>, decls: &[Decl]) -> Result<bool, NoMemory>
    ensures again { IfOk result (λ again. again ≡ has_repeat bytes_eq typed.old.keys (map (λ decl. decl.name) decls.now)) }
    ensures more { IfOk result (λ again. again ≡ false → typed.new.keys ≡ typed.old.keys ++ map (λ decl. decl.name) decls.now) }
{
    for decl in decls {
        let name = decl.name.copy(alloc)?;
        if !typed.insert(name)? {
            return Ok(true);
        }
    }
    Ok(false)
}

// Adds the letters of ranges, and says whether one of them is there already.
fn add_ranges(implied: &mut IndexSet<u32>, ranges: &[LetterRange]) -> Result<bool, NoMemory>
    ensures again { IfOk result (λ again. again ≡ has_repeat (λ a b. a == b) implied.old.keys (flat_map letters_of_range ranges.now)) }
    ensures more { IfOk result (λ again. again ≡ false → implied.new.keys ≡ implied.old.keys ++ flat_map letters_of_range ranges.now) }
{
    for range in ranges {
        if add_letters(implied, range)? {
            return Ok(true);
        }
    }
    Ok(false)
}

// Adds the letters of a range, and says whether one of them is there already.
fn add_letters(implied: &mut IndexSet<u32>, range: &LetterRange) -> Result<bool, NoMemory>
    ensures again { IfOk result (λ again. again ≡ has_repeat (λ a b. a == b) implied.old.keys (letters_of_range range.now)) }
    ensures more { IfOk result (λ again. again ≡ false → implied.new.keys ≡ implied.old.keys ++ letters_of_range range.now) }
{
    let end = u32::from(range.to) + 1;
    for letter in u32::from(range.from)..end {
        if !implied.insert(letter)? {
            return Ok(true);
        }
    }
    Ok(false)
}
