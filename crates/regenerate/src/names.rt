//! The names of temporaries, as numbers in the table of names.

ghost use Rattle.std.specs.Prelude.{◌≡◌, ◌+◌, ◌<◌, ◌^◌, if◌then◌else◌, Some, None, length, count_by, IfOk};
ghost use Rattle.std.specs.List.{range_with_len};
ghost use Rattle.shared_forms.specs.Numbered.{AreTemporaries, number_of};
ghost use Rattle.simplified_forms.specs.Plans.{answer};
ghost use Rattle.shared_forms.specs.Shared.{is_shared};
ghost use Rattle.simplified_forms.specs.Tables.{AreAnswers};

use df_sequence::NoMemory;
use f77_tree::Program;
use redundancy::Avail;
use std::alloc::Global;

/// For each candidate the name of its temporary, where it is shared.
pub(crate) fn temporary_names(
    alloc: Global,
    q: &Program,
    a: &Avail,
    shared: &[bool],
) -> Result<Vec<Option<u32>>, NoMemory>
    requires shared { AreAnswers (is_shared q.now a.now (number_of a.now)) (length a.now.candidates) shared.now }
    requires few { length q.now.names + count_by (answer shared.now) (range_with_len 0 (length shared.now)) < 2 ^ 32 }
    ensures { IfOk result (λ names. AreTemporaries q.now a.now names.items) }
{
    let _candidates = a;
    let mut names = Vec::new(alloc);
    let mut next = q.names.len();
    for is_one in shared {
        names.push(told(*is_one, next))?;
        next += u32::from(*is_one);
    }
    Ok(names)
}

/// A number, where it is told.
fn told(is_told: bool, n: u32) -> Option<u32>
    ensures { result ≡ (if is_told then Some n else None) }
{
    if is_told { Some(n) } else { None }
}
