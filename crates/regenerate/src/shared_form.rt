//! Repeated expressions done once.

ghost use Rattle.std.specs.Prelude.{◌≡◌, IfOk, IsErrOf};
ghost use Rattle.cfg_build.specs.Flow.{flow};
ghost use Rattle.f77_tree.specs.WellFormed.{IsWellFormed};
ghost use Rattle.flat_programs.specs.FlatForm.{AreStatementsOf};
ghost use Rattle.redundancy.specs.Available.{IsAvailability};
ghost use Rattle.shared_forms.specs.Shared.{IsRefused, IsShared, IsSharedText};
ghost use Rattle.regenerate.specs.SharedParts.{HasParts};

use crate::longer_table::{shared_numbers, with_temporaries};
use crate::names::temporary_names;
use crate::replacing::Temporaries;
use crate::shared_lines::statements_with_temporaries;
use crate::sharing::shared_candidates;
use crate::temporaries::free_names;
use alias_classes::Classes;
use cfg_build::Flow;
use f77_tree::{Program, scalars_can_be_added};
use flat_programs::{
    FlatList, executables_tell_statements, has_long_text, print_unless_long, program_of,
};
use redundancy::Avail;
use shared_forms::RewriteEnd;
use simplified_forms::{MOST_STATEMENTS, has_many_statements};
use std::alloc::Global;

// No program has more words.
const MOST_WORDS: u32 = 262_144;

/// The shared form of a flat program, which has these statements, by its available expressions: a candidate that is available somewhere
/// where it is computed again has a temporary, which is assigned its value in front of each statement that computes the candidate where it
/// isn't available, and stands for the candidate everywhere. It takes a few steps for each part of an expression and each executable. The
/// limits are tried in the order of `RewriteEnd`. The available expressions are given back before the form is made, since they may take as
/// much memory.
pub fn share<const W: usize>(
    alloc: Global,
    q: &Program,
    flat: FlatList,
    f: &Flow,
    c: &Classes<W>,
    a: Avail,
) -> Result<Program, RewriteEnd>
    requires program { IsWellFormed q.now }
    requires statements { AreStatementsOf q.now flat }
    requires flow { f.now ≡ flow q.now.execs }
    requires available { IsAvailability q.now f.now c.now a }
    ensures shared { IfOk result (λ r. IsShared q.now a r) }
    ensures names { IsErrOf result RewriteEnd.TooManyNames → IsRefused q.now a RewriteEnd.TooManyNames }
    ensures statements { IsErrOf result RewriteEnd.TooManyStatements → IsRefused q.now a RewriteEnd.TooManyStatements }
    ensures long { IsErrOf result RewriteEnd.LongText → IsRefused q.now a RewriteEnd.LongText }
{
    scalars_can_be_added();
    executables_tell_statements();
    let parts = shared_parts(alloc, q, flat, f, c, a)?;
    if has_many_statements(&parts.declared, &parts.statements) {
        return Err(RewriteEnd::TooManyStatements);
    }
    if has_long_text(alloc, &parts.declared, &parts.statements)? {
        return Err(RewriteEnd::LongText);
    }
    Ok(program_of(alloc, &parts.declared, &parts.statements)?)
}

/// The text of the shared form of a flat program, which has these statements, as `share` makes it and `print_program` prints it, without
/// the form itself. The limits are the same.
pub fn share_text<const W: usize>(
    alloc: Global,
    q: &Program,
    flat: FlatList,
    f: &Flow,
    c: &Classes<W>,
    a: Avail,
) -> Result<Vec<u8>, RewriteEnd>
    requires program { IsWellFormed q.now }
    requires statements { AreStatementsOf q.now flat }
    requires flow { f.now ≡ flow q.now.execs }
    requires available { IsAvailability q.now f.now c.now a }
    ensures text { IfOk result (λ text. IsSharedText q.now a text.items) }
    ensures names { IsErrOf result RewriteEnd.TooManyNames → IsRefused q.now a RewriteEnd.TooManyNames }
    ensures statements { IsErrOf result RewriteEnd.TooManyStatements → IsRefused q.now a RewriteEnd.TooManyStatements }
    ensures long { IsErrOf result RewriteEnd.LongText → IsRefused q.now a RewriteEnd.LongText }
{
    scalars_can_be_added();
    executables_tell_statements();
    let parts = shared_parts(alloc, q, flat, f, c, a)?;
    let is_many = has_many_statements(&parts.declared, &parts.statements);
    if is_many {
        return Err(RewriteEnd::TooManyStatements);
    }
    match print_unless_long(alloc, &parts.declared, &parts.statements)? {
        None => Err(RewriteEnd::LongText),
        Some(text) => Ok(text),
    }
}

/// The parts of a shared form.
#[derive(Drop)]
pub(crate) struct SharedParts {
    /// A program that has the declarations, and no executables.
    pub(crate) declared: Program,
    pub(crate) statements: FlatList,
}

/// The parts of the shared form of a flat program, where there are names and words for its temporaries.
fn shared_parts<const W: usize>(
    alloc: Global,
    q: &Program,
    flat: FlatList,
    f: &Flow,
    c: &Classes<W>,
    a: Avail,
) -> Result<SharedParts, RewriteEnd>
    requires program { IsWellFormed q.now }
    requires statements { AreStatementsOf q.now flat }
    requires flow { f.now ≡ flow q.now.execs }
    requires available { IsAvailability q.now f.now c.now a }
    ensures parts { IfOk result (λ parts. HasParts q.now a flat parts) }
    ensures names { IsErrOf result RewriteEnd.TooManyNames → IsRefused q.now a RewriteEnd.TooManyNames }
    ensures statements { IsErrOf result RewriteEnd.TooManyStatements → IsRefused q.now a RewriteEnd.TooManyStatements }
    ensures long { IsErrOf result RewriteEnd.LongText → IsRefused q.now a RewriteEnd.LongText }
{
    let _classes = c;
    let is_shared = shared_candidates(alloc, q, f, &a)?;
    let shared = shared_numbers(alloc, q, &a, &is_shared)?;
    if shared.len() > (MOST_WORDS - q.words) as usize {
        return Err(RewriteEnd::TooManyNames);
    }
    let Some(free) = free_names(alloc, &q.names, shared.len() as u32)? else {
        return Err(RewriteEnd::TooManyNames);
    };
    if MOST_STATEMENTS < u64::from(q.names.len()) {
        return Err(RewriteEnd::TooManyStatements);
    }
    let names = temporary_names(alloc, q, &a, &is_shared)?;
    let declared = with_temporaries(alloc, q, &a, &shared, &free)?;
    let temporaries = Temporaries {
        q,
        a: &a,
        names: &names,
    };
    let Some(statements) = statements_with_temporaries(alloc, &temporaries, f, &shared, flat)?
    else {
        return Err(RewriteEnd::TooManyStatements);
    };
    Ok(SharedParts {
        declared,
        statements,
    })
}
