//! Whether a text needs a name of a great number.
ghost use Rattle.std.specs.Prelude.{◌≡◌, ◌+◌, ◌<◌, ℕ, List, true, filter, length, nat_lt, IfOk};
ghost use Rattle.std.specs.List.{list_any, range_with_len};
ghost use Rattle.layout_rules.specs.Appearances.{each_once};
ghost use Rattle.program_units.specs.NamedEntities.{are_short};
ghost use Rattle.program_units.specs.NewNames.{first_free, is_free_of};

use crate::merged_counts::one_if;
use declared_names::AppearingNames;
use df_sequence::NoMemory;
use entity_names::y_name;
use std::alloc::Global;

/// Whether one of the first so many free numbers is above this, where these are the names in use, each once. It tries no
/// more numbers than there are names in use and numbers asked for.
pub(crate) fn has_number_above(
    alloc: Global,
    used: &AppearingNames,
    count: usize,
    most: u32,
) -> Result<bool, NoMemory>
    requires { most < 100000 }
    ensures { IfOk result (λ above. (all : List (List ℕ)) → used.now ≡ each_once all → are_short all ≡ true → above ≡ list_any (nat_lt most) (first_free all count)) }
{
    if !is_over(count, used.len(), most) {
        return Ok(false);
    }
    let free = count_free(alloc, used, most)?;
    Ok(is_less(free, count))
}

// Whether the sum is more than this.
fn is_over(count: usize, used: u32, most: u32) -> bool
    ensures { result ≡ nat_lt most (count + used) }
{
    count.saturating_add(used as usize) > most as usize
}

fn is_less(free: u32, count: usize) -> bool
    ensures { result ≡ nat_lt free count }
{
    (free as usize) < count
}

// How many numbers from 1 on are free, of so many.
fn count_free(alloc: Global, used: &AppearingNames, most: u32) -> Result<u32, NoMemory>
    requires { most < 100000 }
    ensures { IfOk result (λ count. count ≡ length (filter (is_free_of used.now) (range_with_len 1 most))) }
{
    let mut count = 0;
    for i in 0..most {
        let free = is_free(alloc, used, i + 1)?;
        count += one_if(free);
    }
    Ok(count)
}

// Whether the name of a number isn't in use.
fn is_free(alloc: Global, used: &AppearingNames, n: u32) -> Result<bool, NoMemory>
    requires { n < 100000 }
    ensures { IfOk result (λ free. free ≡ is_free_of used.now n) }
{
    let name = y_name(alloc, n)?;
    Ok(!used.has(&name))
}
