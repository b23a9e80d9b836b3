ghost use Rattle.std.specs.Prelude.{◌≡◌, ◌<◌, ◌+ℤ◌, ◌-◌, [], Ok, slice_index, length, nat_lt, if◌then◌else◌, IfOk, OnErr};
ghost use Rattle.op_table.specs.Words.{wrapped};
ghost use Rattle.f77_tree.specs.Execution.{do_begun, do_incremented, Goes};
ghost use Rattle.f77_tree.specs.Run.{first_memory};
ghost use Rattle.f77_tree.specs.Value.{word_at};
ghost use Rattle.f77_meaning.specs.Storage.{memory_of, outcome_of, HasSizes};

use df_sequence::NoMemory;
use f77_tree::Program;
use op_table::{Trap, do_count};
use std::alloc::Global;

/// What executables read and change.
#[derive(Drop)]
pub struct Storage {
    /// The words of the program.
    pub store: Vec<i32>,
    /// For each DO, how often its range is still to be executed.
    pub counts: Vec<u64>,
    /// For each DO, the step that it began with.
    pub steps: Vec<i32>,
    /// How many words of the data were taken.
    pub taken: usize,
}

/// The storage before the first step: the initial words, counts and steps 0, and no data taken.
pub fn initial_storage(alloc: Global, p: &Program) -> Result<Storage, NoMemory>
    ensures { IfOk result (λ s. memory_of s ≡ first_memory p.now) }
{
    Ok(Storage {
        store: Vec::from_slice(alloc, p.initial.as_slice())?,
        counts: vec![in alloc; 0; p.loops as usize]?,
        steps: vec![in alloc; 0; p.loops as usize]?,
        taken: 0,
    })
}

/// Begins a DO whose variable has this word, with the values of its parameters, and answers what follows. A step of 0 traps,
/// and nothing changes then (ANSI X3.9-1978, section 11.10.3). It takes no memory.
pub fn begin(
    s: &mut Storage,
    loop_no: u32,
    word: u32,
    body: u32,
    exit: u32,
    first: i32,
    last: i32,
    step: i32,
) -> Result<u32, Trap>
    requires word { word < length s.old.store.items }
    requires count { loop_no < length s.old.counts.items }
    requires step { loop_no < length s.old.steps.items }
    ensures outcome { do_begun (memory_of s.old) loop_no word body exit (Ok first) (Ok last) (Ok step) ≡ outcome_of result (memory_of s.new) }
    ensures trap { OnErr result (s.new ≡ s.old) }
    ensures sizes { HasSizes s.old s.new }
    ensures data { s.new.taken ≡ s.old.taken }
{
    if step == 0 {
        return Err(Trap::Step);
    }
    let count = do_count(first, last, step);
    s.store[word as usize] = first;
    s.counts[loop_no as usize] = count;
    s.steps[loop_no as usize] = step;
    Ok(following(count, body, exit))
}

/// Increments a DO whose variable has this word, and answers what follows (ANSI X3.9-1978, section 11.10.7). It takes no
/// memory.
pub fn increment(s: &mut Storage, loop_no: u32, word: u32, body: u32, exit: u32) -> u32
    requires word { word < length s.old.store.items }
    requires count { loop_no < length s.old.counts.items }
    requires step { loop_no < length s.old.steps.items }
    ensures outcome { do_incremented (memory_of s.old) loop_no word body exit ≡ Goes result (memory_of s.new) [] }
    ensures sizes { HasSizes s.old s.new }
    ensures data { s.new.taken ≡ s.old.taken }
{
    let variable = sum(word_in(&s.store, word), word_in(&s.steps, loop_no));
    let count = lowered(&s.counts, loop_no);
    s.store[word as usize] = variable;
    s.counts[loop_no as usize] = count;
    following(count, body, exit)
}

/// A word of a list.
#[tactic(auto, using(crate::proofs::Words::word_at_is))]
pub fn word_in(words: &Vec<i32>, k: u32) -> i32
    requires { k < length words.now.items }
    ensures { result ≡ word_at words.now.items k }
{
    words[k as usize]
}

// A count, with 1 taken from it where it isn't 0.
fn lowered(counts: &Vec<u64>, k: u32) -> u64
    requires { k < length counts.now.items }
    ensures { result ≡ slice_index counts.now.items k - 1 }
{
    counts[k as usize].saturating_sub(1)
}

/// What follows the test of a DO with this count: its body where the count isn't 0.
pub fn following(count: u64, body: u32, exit: u32) -> u32
    ensures { result ≡ (if nat_lt 0 count then body else exit) }
{
    if count == 0 { exit } else { body }
}

// The wrapped sum.
#[tactic(auto, using(op_table::proofs::Rows::sum_is))]
fn sum(a: i32, b: i32) -> i32
    ensures { result ≡ wrapped (a +ℤ b) }
{
    a.wrapping_add(b)
}
