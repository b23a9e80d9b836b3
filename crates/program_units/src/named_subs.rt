//! The names of subroutines.
ghost use Rattle.std.specs.Prelude.{◌≡◌, ◌++◌, [], ◌∷◌, not, true, false, IfOk, bytes_eq, option_to_list};
ghost use Rattle.std.specs.List.{list_any};
ghost use Rattle.std.specs.Result.{result_err};
ghost use Rattle.layout_rules.specs.Faults.{first_line};
ghost use Rattle.program_units.specs.Units.{call_by, inner, sub_name};
ghost use Rattle.program_units.specs.Refusals.{AreSubNames, is_sub_again, is_told, lacks_sub, lacks_told};

use df_sequence::{Copied, NoMemory};
use f77_tree::{Labelled, Name, Stmt};
use indexmap::IndexSet;
use std::alloc::Global;
use std::marker::Model;

/// The names of all subroutines, or the line of the first SUBROUTINE whose name another one above has.
///
/// # Errors
///
/// Where there is no memory.
pub fn sub_names(alloc: Global, stmts: &[Labelled]) -> Result<Result<SubNames, u32>, NoMemory>
    ensures line { IfOk result (λ found. result_err found ≡ first_line is_sub_again stmts.now) }
    ensures names { IfOk result (λ found. IfOk found (λ names. AreSubNames stmts.now names)) }
{
    let mut names = SubNames::new(alloc);
    for s in stmts {
        let again = names.tell(alloc, &s.stmt)?;
        if again {
            return Ok(Err(s.line));
        }
    }
    Ok(Ok(names))
}

/// The line of the first CALL of a name that no SUBROUTINE has, where these are the names of all.
pub fn first_lacking_sub(stmts: &[Labelled], names: &SubNames) -> Option<u32>
    requires { AreSubNames stmts.now names.now }
    ensures { result ≡ first_line (lacks_sub stmts.now) stmts.now }
{
    for s in stmts {
        if is_lacking(names, inner_of(&s.stmt)) {
            return Some(s.line);
        }
    }
    None
}

// Whether a statement is a CALL of another name than these.
fn is_lacking(names: &SubNames, stmt: &Stmt) -> bool
    ensures { result ≡ lacks_told names.now (call_by stmt.now) }
{
    match stmt {
        Stmt::CallTo(name, _) => !names.has(name),
        _ => false,
    }
}

/// The statement after the condition of a logical IF, or the statement itself.
pub fn inner_of(stmt: &Stmt) -> &Stmt
    ensures { result.now ≡ inner stmt.now }
{
    match stmt {
        Stmt::ThenIf(_, inner) => inner.get(),
        _ => stmt,
    }
}

/// Names, each once. Contracts see them as a list, in the order in which they were added.
#[derive(Drop)]
pub struct SubNames {
    names: IndexSet<Name>,
}

impl Model for SubNames {
    ghost use Rattle.std.specs.Prelude.{ℕ, List};

    ghost Value = { List (List ℕ) };

    ghost view = { λ s. s.names.keys };
}

impl SubNames {
    /// No names.
    pub fn new(alloc: Global) -> SubNames
        ensures { result ≡ [] }
    {
        SubNames {
            names: IndexSet::new(alloc),
        }
    }

    /// Adds a name, and tells whether it is new.
    ///
    /// # Errors
    ///
    /// Where there is no memory.
    pub fn add(&mut self, alloc: Global, name: &Name) -> Result<bool, NoMemory>
        ensures new { IfOk result (λ is_new. is_new ≡ not (list_any (bytes_eq name.now) self.old)) }
        ensures names { IfOk result (λ is_new. is_new ≡ true → self.new ≡ self.old ++ name.now ∷ []) }
    {
        Ok(self.names.insert(name.copy(alloc)?)?)
    }

    // Whether a name is here.
    fn has(&self, name: &Name) -> bool
        ensures { result ≡ list_any (bytes_eq name.now) self.now }
    {
        self.names.contains(name)
    }

    // Whether a statement is a SUBROUTINE of a name that is here; if it isn't, its name is here from now on.
    fn tell(&mut self, alloc: Global, stmt: &Stmt) -> Result<bool, NoMemory>
        ensures told { IfOk result (λ again. again ≡ is_told self.old (sub_name stmt.now)) }
        ensures names { IfOk result (λ again. again ≡ false → self.new ≡ self.old ++ option_to_list (sub_name stmt.now)) }
    {
        match stmt {
            Stmt::Sub(name, _) => {
                let is_new = self.add(alloc, name)?;
                Ok(!is_new)
            }
            _ => Ok(false),
        }
    }
}
