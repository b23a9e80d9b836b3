//! What operations read.

ghost use Rattle.std.specs.Prelude.{◌≡◌, ◌<◌, ◌≤◌, ◌+◌, pos, length, slice_index, nat_lt, if◌then◌else◌};
ghost use Rattle.op_table.specs.Operators.{picked, which_of_three};
ghost use Rattle.op_table.specs.Trips.{at_least_zero};
ghost use Rattle.op_table.specs.Words.{is_true};
ghost use Rattle.f77_tree.specs.Value.{read_as, word_at};
ghost use Rattle.operation_effects.specs.Tasks.{lies_in, loaded_at};

use f77_tree::Kind;

/// A word of a list.
#[tactic(auto, using(crate::proofs::ValueReading::word_at_is))]
pub(crate) fn value_at(args: &[i32], k: usize) -> i32
    requires { k < length args.now }
    ensures { result ≡ word_at args.now k }
{
    args[k]
}

/// A word as a name of this kind is read.
pub(crate) fn read(kind: Kind, z: i32) -> i32
    ensures { result ≡ read_as kind z }
{
    match kind {
        Kind::Integer => z,
        Kind::Logical => { if z != 0 { 1 } else { 0 } }
    }
}

/// A place lies in an array of so many words.
pub(crate) fn lies_in(size: u32, place: i32) -> bool
    ensures { result ≡ lies_in size place }
{
    place >= 0 && (place as u32) < size
}

/// The word at a place of an array, or 0 where it has none.
pub(crate) fn load_at(store: &Vec<i32>, word: u32, size: u32, kind: Kind, place: i32) -> i32
    requires { word + size ≤ length store.now.items }
    ensures { result ≡ loaded_at store.now.items word size kind place }
{
    if lies_in(size, place) {
        read(kind, value_at(store, word as usize + place as usize))
    } else {
        0
    }
}

/// The first edge for a truth, the second where it isn't one.
pub(crate) fn which_truth(z: i32) -> u32
    ensures { result ≡ (if is_true z then 0 else 1) }
{
    if z != 0 { 0 } else { 1 }
}

/// The first edge for a number below 0, the second for 0, the third for another.
pub(crate) fn which_sign(z: i32) -> u32
    ensures { result ≡ at_least_zero (which_of_three z) }
{
    if z < 0 {
        0
    } else if z == 0 {
        1
    } else {
        2
    }
}

/// The edge with this number, counted from 1, or the last one where it is none of so many.
pub(crate) fn which_target(v: i32, targets: u32) -> u32
    ensures { result ≡ at_least_zero (picked v (pos targets)) }
{
    if v < 1 || targets < v as u32 {
        targets
    } else {
        v as u32 - 1
    }
}

/// The first edge where the range of a DO is executed once more, the second where it isn't.
pub(crate) fn which_trip(counts: &Vec<u64>, loop_no: u32) -> u32
    requires { loop_no < length counts.now.items }
    ensures { result ≡ (if nat_lt 0 (slice_index counts.now.items loop_no) then 0 else 1) }
{
    if counts[loop_no as usize] == 0 { 1 } else { 0 }
}
