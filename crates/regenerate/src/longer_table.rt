//! The table of names with the temporaries of shared candidates after it.

ghost use Rattle.std.specs.Prelude.{◌≡◌, ◌+◌, ◌<◌, ◌≤◌, ◌^◌, ◌++◌, [], pos, if◌then◌else◌, ◌∷◌, All, length, replicate, take, IfOk, OnOk};
ghost use Rattle.f77_tree.specs.Line.{kind_of_expression};
ghost use Rattle.f77_tree.specs.Value.{IsExpression};
ghost use Rattle.shared_forms.specs.Numbered.{number_of};
ghost use Rattle.shared_forms.specs.Shared.{candidate, is_shared, shared as all_shared, temporaries, with_temporaries as with_all};
ghost use Rattle.regenerate.specs.SharedParts.{declared_alone};
ghost use Rattle.simplified_forms.specs.Tables.{AreAnswers};
ghost use Rattle.shared_forms.specs.Temporaries.{free_names};

use df_sequence::{Copied, NoMemory, Sequence, WordList};
use f77_meaning::kind_of_value;
use f77_tree::{Name, NameInfo, NameInfoList, Program};
use redundancy::Avail;
use std::alloc::Global;

/// The numbers of the shared candidates, in order.
pub(crate) fn shared_numbers(
    alloc: Global,
    q: &Program,
    a: &Avail,
    shared: &[bool],
) -> Result<Vec<usize>, NoMemory>
    requires { AreAnswers (is_shared q.now a.now (number_of a.now)) (length a.now.candidates) shared.now }
    ensures { IfOk result (λ ns. ns.items ≡ all_shared q.now a.now (number_of a.now)) }
{
    let _program = q;
    let mut numbers = Vec::new(alloc);
    for n in 0..a.count() {
        append_one(n, shared[n], &mut numbers)?;
    }
    Ok(numbers)
}

/// Appends a number where it is told to be one of them.
fn append_one(n: usize, is_one: bool, numbers: &mut Vec<usize>) -> Result<(), NoMemory>
    ensures { OnOk result (numbers.new.items ≡ numbers.old.items ++ (if is_one then (n ∷ []) else [])) }
{
    if !is_one {
        return Ok(());
    }
    numbers.push(n)?;
    Ok(())
}

/// The declarations of a program with the temporaries of its shared candidates, which have these names, and no executables.
pub(crate) fn with_temporaries(
    alloc: Global,
    q: &Program,
    a: &Avail,
    shared: &[usize],
    free: &[Name],
) -> Result<Program, NoMemory>
    requires shared { shared.now ≡ all_shared q.now a.now (number_of a.now) }
    requires free { free.now ≡ take (length shared.now) (free_names q.now.names) }
    requires as_many { length free.now ≡ length shared.now }
    requires words { q.now.words + length shared.now ≤ 262144 }
    requires names { length q.now.names ≤ 4000 }
    requires expressions { All (IsExpression q.now.names) a.now.candidates }
    requires initial { length q.now.initial ≡ q.now.words }
    ensures { IfOk result (λ r. r ≡ declared_alone (with_all q.now a.now (number_of a.now))) }
{
    let count = shared.len() as u32;
    Ok(Program {
        names: longer_names(alloc, q, a, shared, free)?,
        words: q.words + count,
        initial: longer_words(alloc, &q.initial, count)?,
        commons: q.commons.copy(alloc)?,
        groups: q.groups.copy(alloc)?,
        inits: q.inits.copy(alloc)?,
        execs: Sequence::new(alloc),
        loops: q.loops,
    })
}

/// The names of a program with the temporaries of its shared candidates.
fn longer_names(
    alloc: Global,
    q: &Program,
    a: &Avail,
    shared: &[usize],
    free: &[Name],
) -> Result<NameInfoList, NoMemory>
    requires shared { shared.now ≡ all_shared q.now a.now (number_of a.now) }
    requires free { free.now ≡ take (length shared.now) (free_names q.now.names) }
    requires as_many { length free.now ≡ length shared.now }
    requires words { q.now.words + length shared.now ≤ 262144 }
    requires names { length q.now.names ≤ 4000 }
    requires expressions { All (IsExpression q.now.names) a.now.candidates }
    ensures { IfOk result (λ names. names ≡ q.now.names ++ temporaries q.now a.now (number_of a.now)) }
{
    let mut names = q.names.copy(alloc)?;
    for j in 0..shared.len() as u32 {
        let n = shared[j as usize];
        let name = free[j as usize].copy(alloc)?;
        let info = temporary_info(alloc, q, a, name, n, j);
        names.push(info)?;
    }
    Ok(names)
}

/// What the table has of a temporary: the word j after those of the program is its place.
fn temporary_info(alloc: Global, q: &Program, a: &Avail, name: Name, n: usize, j: u32) -> NameInfo
    requires n { n < length a.now.candidates }
    requires expressions { All (IsExpression q.now.names) a.now.candidates }
    requires place { q.now.words + j < 2 ^ 32 }
    ensures { result ≡ record { name = name; kind = kind_of_expression q.now.names (candidate q.now a.now (number_of a.now) n); dims = []; place = q.now.words + j } }
{
    let e = a.candidate(n);
    let kind = kind_of_value(e, &q.names);
    NameInfo {
        name,
        kind,
        dims: Sequence::new(alloc),
        place: q.words + j,
    }
}

/// Words with so many more after them, which are 0.
fn longer_words(alloc: Global, words: &WordList, count: u32) -> Result<WordList, NoMemory>
    requires { length words.now + count < 2 ^ 32 }
    ensures { IfOk result (λ all. all ≡ words.now ++ replicate count (pos 0)) }
{
    let mut all = words.copy(alloc)?;
    for k in 0..count {
        let _added = k;
        all.push(0)?;
    }
    Ok(all)
}
