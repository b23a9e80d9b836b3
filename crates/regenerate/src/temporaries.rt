//! Names of temporaries.

ghost use Rattle.std.specs.Prelude.{◌≡◌, ◌+◌, ◌<◌, ◌≤◌, ◌||◌, ◌++◌, [], ◌∷◌, if◌then◌else◌, ℕ, bytes_eq, length, take, IfOk, OnOk, IsTrue, MatchOption};
ghost use Rattle.f77_tree.specs.Name.{is_name};
ghost use Rattle.simplified_forms.specs.Plans.{answer};
ghost use Rattle.simplified_forms.specs.Tables.{AreAnswers};
ghost use Rattle.shared_forms.specs.Temporaries.{digit_at, free_names as all_free, is_in_use, last_number, temporary_name as name_of_temporary};

use df_sequence::NoMemory;
use f77_tree::{Name, NameInfoList};
use std::alloc::Global;

// The numbers of temporaries have five figures at most.
const LAST_NUMBER: u32 = 99_999;

/// The first so many names that temporaries can have, or none where there are fewer.
pub(crate) fn free_names(
    alloc: Global,
    names: &NameInfoList,
    count: u32,
) -> Result<Option<Vec<Name>>, NoMemory>
    ensures { IfOk result (λ found. MatchOption found (length (all_free names.now) < count) (λ free. (length free.items ≡ count) × (free.items ≡ take count (all_free names.now)))) }
{
    let free = first_free_names(alloc, names, LAST_NUMBER, count as usize)?;
    if free.len() < count as usize {
        return Ok(None);
    }
    Ok(Some(free))
}

/// The first so many names that temporaries can have, or all where there are fewer. The greatest number of one is told.
fn first_free_names(
    alloc: Global,
    names: &NameInfoList,
    last: u32,
    count: usize,
) -> Result<Vec<Name>, NoMemory>
    requires { last ≡ last_number }
    ensures { IfOk result (λ free. free.items ≡ take count (all_free names.now)) }
{
    let used = used_numbers(alloc, names, last)?;
    let mut free = Vec::new(alloc);
    for k in 0..last {
        if free.len() == count {
            return Ok(free);
        }
        let is_used = used[k as usize + 1];
        append_free(k + 1, is_used, &mut free)?;
    }
    Ok(free)
}

/// Appends the name with a number, unless it is in use.
fn append_free(n: u32, is_used: bool, free: &mut Vec<Name>) -> Result<(), NoMemory>
    ensures { OnOk result (free.new.items ≡ free.old.items ++ (if is_used then [] else (name_of_temporary n ∷ []))) }
{
    if is_used {
        return Ok(());
    }
    match name(n) {
        None => Ok(()),
        Some(name) => {
            free.push(name)?;
            Ok(())
        }
    }
}

/// The name of a temporary with this number.
fn name(n: u32) -> Option<Name>
    ensures { MatchOption result ⊥ (λ name. name ≡ name_of_temporary n) }
{
    Name::new(&temporary_name(n))
}

fn temporary_name(n: u32) -> [u8; 6]
    ensures name { result ≡ name_of_temporary n }
    ensures is { IsTrue (is_name result) }
{
    [
        b'Z',
        digit(n, 10_000),
        digit(n, 1_000),
        digit(n, 100),
        digit(n, 10),
        digit(n, 1),
    ]
}

fn digit(n: u32, power: u32) -> u8
    requires { 0 < power }
    ensures digit { result ≡ digit_at power n }
    ensures least { 48 ≤ result }
    ensures most { result ≤ 57 }
{
    48 + (n / power % 10) as u8
}

/// For each number up to the last one whether the table has its name.
fn used_numbers(alloc: Global, names: &NameInfoList, last: u32) -> Result<Vec<bool>, NoMemory>
    requires { last < 100000 }
    ensures { IfOk result (λ used. AreAnswers (λ n. is_in_use names.now (name_of_temporary n)) (last + 1) used.items) }
{
    let mut used = vec![in alloc; false; last as usize + 1]?;
    for info in names.as_slice() {
        note_name(info.name.as_bytes(), &mut used);
    }
    Ok(used)
}

/// Notes the number of a name, if it can be one of a temporary.
fn note_name(name: &[u8], used: &mut Vec<bool>)
    requires { length used.old.items ≤ 100000 }
    ensures size { length used.new.items ≡ length used.old.items }
    ensures noted { (n : ℕ) → n < length used.old.items → answer used.new.items n ≡ (answer used.old.items n || bytes_eq name.now (name_of_temporary n)) }
{
    let n = digits(name);
    if used.len() <= n as usize {
        return;
    }
    if is_name_of(name, n) {
        used[n as usize] = true;
    }
}

/// Whether the temporary with this number has the name.
fn is_name_of(name: &[u8], n: u32) -> bool
    ensures { result ≡ bytes_eq name.now (name_of_temporary n) }
{
    let own = temporary_name(n);
    name == &own[..]
}

/// The number that the figures of a name make, if they are those of a temporary.
fn digits(name: &[u8]) -> u32
    ensures { (n : ℕ) → n < 100000 → name.now ≡ name_of_temporary n → result ≡ n }
{
    if name.len() != 6 {
        return 0;
    }
    figure(name[1]) * 10_000
        + figure(name[2]) * 1_000
        + figure(name[3]) * 100
        + figure(name[4]) * 10
        + figure(name[5])
}

/// What a figure counts.
fn figure(c: u8) -> u32
    ensures few { result < 10 }
    ensures counts { (k : ℕ) → k < 10 → c ≡ 48 + k → result ≡ k }
{
    if c < 48 || 57 < c {
        return 0;
    }
    u32::from(c - 48)
}
