//! The classes of each name, from runs of words of one class.

ghost use Rattle.std.specs.Prelude.{◌≡◌, ◌≤◌, ◌<◌, ◌-◌, ◌*◌, ◌==◌, ◌&&◌, if◌then◌else◌, ℕ, length, slice_index, IfOk};
ghost use Rattle.class_set.specs.Members.{IsWidth};
ghost use Rattle.alias_classes.specs.Runs.{AreStarts, IsSetOf, is_after_its_like};

use class_set::ClassSet;
use df_sequence::NoMemory;
use std::alloc::Global;

/// For each word the first one of the words of its class that lie together with it.
pub(crate) fn starts(alloc: Global, numbers: &Vec<usize>) -> Result<Vec<u32>, NoMemory>
    requires { length numbers.now.items ≤ 262144 }
    ensures { IfOk result (λ starts. AreStarts numbers.now.items starts.items) }
{
    let mut starts = Vec::new(alloc);
    for word in 0..numbers.len() {
        starts.push(start(numbers, &starts, word))?;
    }
    Ok(starts)
}

// The first word of the run of a word, where those of the words before it are known.
fn start(numbers: &Vec<usize>, starts: &Vec<u32>, word: usize) -> u32
    requires known { length starts.now.items ≡ word }
    requires inside { word < length numbers.now.items }
    requires few { length numbers.now.items ≤ 262144 }
    ensures { result ≡ (if is_after_its_like numbers.now.items word then slice_index starts.now.items (word - 1) else word) }
{
    if 0 < word && numbers[word - 1] == numbers[word] {
        starts[word - 1]
    } else {
        word as u32
    }
}

/// The classes of the words from `begin` up to, but not with, `end`.
pub(crate) fn classes_between<const W: usize>(
    numbers: &Vec<usize>,
    starts: &Vec<u32>,
    begin: u32,
    end: u32,
) -> ClassSet<W>
    requires width { IsWidth W }
    requires starts { AreStarts numbers.now.items starts.now.items }
    requires inside { end ≤ length numbers.now.items }
    requires few { (v : ℕ) → slice_index numbers.now.items v < 64 * W }
    ensures { IsSetOf numbers.now.items begin end result }
{
    let mut set = ClassSet::empty();
    let mut word = end;
    while begin < word {
        let last = word as usize - 1;
        let class = numbers[last] as u32;
        if !set.holds(class) {
            set = set.with(class);
        }
        word = starts[last];
    }
    set
}
