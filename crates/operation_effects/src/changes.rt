//! What operations change.

ghost use Rattle.std.specs.Prelude.{◌≡◌, ◌<◌, ◌≤◌, ◌+◌, length};
ghost use Rattle.f77_tree.specs.Value.{word_at};
ghost use Rattle.f77_meaning.specs.Storage.{memory_of, HasSizes};
ghost use Rattle.op_board.specs.Effects.{stored_at};
ghost use Rattle.operation_effects.specs.Tasks.{loop_advanced, loop_begun, stored_in};

use crate::reading::{lies_in, value_at};
use f77_meaning::{Storage, begin, increment};

/// Writes a word.
pub(crate) fn store_word(s: &mut Storage, word: u32, z: i32)
    requires { word < length s.old.store.items }
    ensures memory { memory_of s.new ≡ stored_at (memory_of s.old) word z }
    ensures sizes { HasSizes s.old s.new }
    ensures data { s.new.taken ≡ s.old.taken }
{
    s.store[word as usize] = z;
}

/// Writes the word at a place of an array, if it has one.
pub(crate) fn store_at(s: &mut Storage, word: u32, size: u32, place: i32, z: i32)
    requires { word + size ≤ length s.old.store.items }
    ensures memory { memory_of s.new ≡ stored_in (memory_of s.old) word size place z }
    ensures sizes { HasSizes s.old s.new }
    ensures data { s.new.taken ≡ s.old.taken }
{
    if lies_in(size, place) {
        s.store[word as usize + place as usize] = z;
    }
}

// Begins a DO. With a step of 0 its range isn't executed; no run comes to that.
fn begin_loop(s: &mut Storage, loop_no: u32, word: u32, first: i32, last: i32, step: i32)
    requires word { word < length s.old.store.items }
    requires count { loop_no < length s.old.counts.items }
    requires step { loop_no < length s.old.steps.items }
    ensures memory { memory_of s.new ≡ loop_begun (memory_of s.old) loop_no word first last step }
    ensures sizes { HasSizes s.old s.new }
    ensures data { s.new.taken ≡ s.old.taken }
{
    if begin(s, loop_no, word, 0, 0, first, last, step).is_err() {
        s.store[word as usize] = first;
        s.counts[loop_no as usize] = 0;
        s.steps[loop_no as usize] = step;
    }
}

/// Begins a DO at the values of its operands.
pub(crate) fn begin_with(s: &mut Storage, loop_no: u32, word: u32, args: &[i32])
    requires operands { length args.now ≡ 3 }
    requires word { word < length s.old.store.items }
    requires count { loop_no < length s.old.counts.items }
    requires step { loop_no < length s.old.steps.items }
    ensures memory { memory_of s.new ≡ loop_begun (memory_of s.old) loop_no word (word_at args.now 0) (word_at args.now 1) (word_at args.now 2) }
    ensures sizes { HasSizes s.old s.new }
    ensures data { s.new.taken ≡ s.old.taken }
{
    begin_loop(
        s,
        loop_no,
        word,
        value_at(args, 0),
        value_at(args, 1),
        value_at(args, 2),
    );
}

/// Increments a DO.
pub(crate) fn advance(s: &mut Storage, loop_no: u32, word: u32)
    requires word { word < length s.old.store.items }
    requires count { loop_no < length s.old.counts.items }
    requires step { loop_no < length s.old.steps.items }
    ensures memory { memory_of s.new ≡ loop_advanced (memory_of s.old) loop_no word }
    ensures sizes { HasSizes s.old s.new }
    ensures data { s.new.taken ≡ s.old.taken }
{
    let _next = increment(s, loop_no, word, 0, 0);
}
