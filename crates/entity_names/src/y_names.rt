//! Names that a text doesn't have: Y and five digits.
ghost use Rattle.std.specs.Prelude.{◌≡◌, ◌<◌, ◌≤◌, ◌++◌, if◌then◌else◌, [], ◌∷◌, filter, length, IfOk, OnOk};
ghost use Rattle.std.specs.List.{range_with_len};
ghost use Rattle.program_units.specs.Names.{y_text, zeros as zeros_of};
ghost use Rattle.program_units.specs.NewNames.{AreFree, is_free_of};

use declared_names::AppearingNames;
use df_sequence::NoMemory;
use f77_tree::Name;
use itoa::Buffer;
use std::alloc::Global;

// Numbers from this one on have more than five digits.
const TOO_GREAT: u32 = 100_000;

/// The names of so many free numbers, from 1 on. So many are free.
pub(crate) fn free_names(
    alloc: Global,
    used: &AppearingNames,
    count: usize,
) -> Result<Vec<Name>, NoMemory>
    requires { count ≤ length (filter (is_free_of used.now) (range_with_len 1 99999)) }
    ensures { IfOk result (λ names. AreFree used.now count names.items) }
{
    let mut names = Vec::new(alloc);
    for n in 1..TOO_GREAT {
        if names.len() == count {
            return Ok(names);
        }
        push_free(alloc, &mut names, used, n)?;
    }
    Ok(names)
}

// Adds the name of a number, if it is free.
fn push_free(
    alloc: Global,
    names: &mut Vec<Name>,
    used: &AppearingNames,
    n: u32,
) -> Result<(), NoMemory>
    requires { n < 100000 }
    ensures { OnOk result (names.new.items ≡ names.old.items ++ (if is_free_of used.now n then y_text n ∷ [] else [])) }
{
    let name = y_name(alloc, n)?;
    if !used.has(&name) {
        names.push(name)?;
    }
    Ok(())
}

/// The name of a number, which has at most five digits.
///
/// # Errors
///
/// Where there is no memory.
pub fn y_name(alloc: Global, n: u32) -> Result<Name, NoMemory>
    requires { n < 100000 }
    ensures { IfOk result (λ name. name ≡ y_text n) }
{
    let mut text = Vec::new(alloc);
    text.extend_from_slice(b"Y")?;
    text.extend_from_slice(zeros(n))?;
    let mut buffer = Buffer::new();
    text.extend_from_slice(buffer.format(n).as_bytes())?;
    match Name::new(&text) {
        Some(name) => Ok(name),
        None => unreachable!(),
    }
}

// The zeros before a number, which has five digits with them.
fn zeros(n: u32) -> &'static [u8]
    ensures { result.now ≡ zeros_of n }
{
    if n < 10 {
        b"0000"
    } else if n < 100 {
        b"000"
    } else if n < 1000 {
        b"00"
    } else if n < 10000 {
        b"0"
    } else {
        b""
    }
}
