//! How many tests are passed.

ghost use Rattle.std.specs.Prelude.{◌+◌, ◌≤◌, length, count_by, IfOk};
ghost use Rattle.std.specs.List.{range_with_len};
ghost use Rattle.simplified_forms.specs.Plans.{answer};
ghost use Rattle.simplified_forms.specs.Tables.{IsTable};

use df_sequence::NoMemory;
use std::alloc::Global;

/// For each number how many lower ones have the answer yes, and after them how many have it at all.
pub(crate) fn counts(alloc: Global, answers: &[bool]) -> Result<Vec<u32>, NoMemory>
    requires { length answers.now ≤ 20000 }
    ensures { IfOk result (λ counts. IsTable (λ k. count_by (answer answers.now) (range_with_len 0 k)) (length answers.now + 1) counts.items) }
{
    let mut counts = Vec::new(alloc);
    let mut count = 0;
    for is_one in answers {
        counts.push(count)?;
        count += u32::from(*is_one);
    }
    counts.push(count)?;
    Ok(counts)
}
