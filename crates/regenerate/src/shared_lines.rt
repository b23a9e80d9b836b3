//! Statements in which temporaries stand for shared candidates, and the assignments to these.

ghost use Rattle.std.specs.Prelude.{◌≡◌, ◌+◌, ◌<◌, ◌^◌, ◌++◌, [], ◌∷◌, All, map, length, reverse, IfOk, OnOk, MatchOption};
ghost use Rattle.cfg_build.specs.Flow.{flow};
ghost use Rattle.flat_programs.specs.Executables.{executables};
ghost use Rattle.shared_forms.specs.Numbered.{AreTemporaries, IsSharedNumber, number_of};
ghost use Rattle.shared_forms.specs.Shared.{kept_value as value_kept, replaced_in, shared as shared_of, shared_flat, temporary};
ghost use Rattle.simplified_forms.specs.Simplified.{most_statements};

use crate::due::due;
use crate::replacing::{Temporaries, name_of, replace_in, scalar};
use cfg_build::Flow;
use df_sequence::{Copied, NoMemory, Sequence};
use flat_programs::{Flat, FlatLine, FlatList, first_executables};
use simplified_forms::{MOST_STATEMENTS, own_pieces};
use std::alloc::Global;

/// The statements of a flat program with temporaries, and before each the assignments that are due there; none where these are more
/// than 4,000. Where no candidate is shared, the program's own statements are those, however many there are.
pub(crate) fn statements_with_temporaries(
    alloc: Global,
    t: &Temporaries,
    f: &Flow,
    shared: &[usize],
    flat: FlatList,
) -> Result<Option<FlatList>, NoMemory>
    requires names { AreTemporaries t.now.q.now t.now.a.now t.now.names.now }
    requires flow { f.now ≡ flow t.now.q.now.execs }
    requires pieces { t.now.a.now.pieces ≡ f.now.graph.nodes }
    requires shared { shared.now ≡ shared_of t.now.q.now t.now.a.now (number_of t.now.a.now) }
    requires execs { executables flat ≡ t.now.q.now.execs }
    requires short { length flat < 2 ^ 31 }
    ensures { IfOk result (λ found. MatchOption found (most_statements < length (shared_flat t.now.q.now t.now.a.now (number_of t.now.a.now) flat)) (λ all. all ≡ shared_flat t.now.q.now t.now.a.now (number_of t.now.a.now) flat)) }
{
    if shared.is_empty() {
        return Ok(Some(flat));
    }
    shared_statements(alloc, t, f, flat)
}

/// The statements of a flat program with temporaries, and before each the assignments that are due there; none where these are more
/// than 4,000. A statement is given back as soon as the one with temporaries is made, so that there are not two of all.
fn shared_statements(
    alloc: Global,
    t: &Temporaries,
    f: &Flow,
    flat: FlatList,
) -> Result<Option<FlatList>, NoMemory>
    requires names { AreTemporaries t.now.q.now t.now.a.now t.now.names.now }
    requires flow { f.now ≡ flow t.now.q.now.execs }
    requires pieces { t.now.a.now.pieces ≡ f.now.graph.nodes }
    requires execs { executables flat ≡ t.now.q.now.execs }
    requires short { length flat < 2 ^ 31 }
    ensures { IfOk result (λ found. MatchOption found (most_statements < length (shared_flat t.now.q.now t.now.a.now (number_of t.now.a.now) flat)) (λ all. all ≡ shared_flat t.now.q.now t.now.a.now (number_of t.now.a.now) flat)) }
{
    let own = own_pieces(alloc, t.q, f)?;
    let first = first_executables(alloc, &flat)?;
    let mut waiting = reversed(alloc, flat)?;
    let mut all = Sequence::new(alloc);
    let mut place: u32 = 0;
    while let Some(l) = waiting.pop() {
        let k = first[place as usize];
        let node = own[k as usize];
        let due = due(alloc, t, f, k, node)?;
        if MOST_STATEMENTS - u64::from(all.len()) <= due.len() as u64 {
            return Ok(None);
        }
        append_statement(alloc, t, &l, &due, &mut all)?;
        give_back(l);
        place += 1;
    }
    Ok(Some(all))
}

/// Gives back the memory of a statement.
fn give_back(l: FlatLine) {
    let _given = l;
}

/// Statements from the last to the first.
fn reversed(alloc: Global, flat: FlatList) -> Result<FlatList, NoMemory>
    requires { length flat < 2 ^ 31 }
    ensures { IfOk result (λ turned. reverse turned ≡ flat) }
{
    let mut rest = flat;
    let mut turned = Sequence::with_capacity(alloc, rest.len() as usize)?;
    while let Some(l) = rest.pop() {
        turned.push(l)?;
    }
    Ok(turned)
}

/// Appends a statement with temporaries, after the assignments that are due there.
fn append_statement(
    alloc: Global,
    t: &Temporaries,
    l: &FlatLine,
    due: &[usize],
    all: &mut FlatList,
) -> Result<(), NoMemory>
    requires names { AreTemporaries t.now.q.now t.now.a.now t.now.names.now }
    requires due { All (IsSharedNumber t.now.q.now t.now.a.now) due.now }
    requires few { length all.old + length due.now < 4000 }
    ensures { OnOk result (all.new ≡ all.old ++ (map (value_kept t.now.q.now t.now.a.now (number_of t.now.a.now) l.now.line) due.now ++ record { line = l.now.line; stmt = replaced_in t.now.q.now t.now.a.now (number_of t.now.a.now) l.now.stmt } ∷ [])) }
{
    for n in due {
        all.push(kept_value(alloc, t, l.line, *n)?)?;
    }
    let stmt = replace_in(alloc, t, &l.stmt)?;
    all.push(FlatLine { line: l.line, stmt })?;
    Ok(())
}

/// The assignment of a shared candidate to its temporary.
fn kept_value(alloc: Global, t: &Temporaries, line: u32, n: usize) -> Result<FlatLine, NoMemory>
    requires names { AreTemporaries t.now.q.now t.now.a.now t.now.names.now }
    requires n { IsSharedNumber t.now.q.now t.now.a.now n }
    ensures { IfOk result (λ l. l ≡ value_kept t.now.q.now t.now.a.now (number_of t.now.a.now) line n) }
{
    let value = t.a.candidate(n).copy(alloc)?;
    let target = scalar(alloc, shared_name(t, n));
    Ok(FlatLine {
        line,
        stmt: Flat::Assignment { target, value },
    })
}

/// The name of the temporary of a shared candidate.
fn shared_name(t: &Temporaries, n: usize) -> u32
    requires names { AreTemporaries t.now.q.now t.now.a.now t.now.names.now }
    requires n { IsSharedNumber t.now.q.now t.now.a.now n }
    ensures { result ≡ temporary t.now.q.now t.now.a.now (number_of t.now.a.now) n }
{
    match name_of(t, n) {
        None => 0,
        Some(name) => name,
    }
}
