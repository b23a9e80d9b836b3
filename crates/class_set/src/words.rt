//! Sets of numbers as words of 64 bits, a word at a time.

ghost use Rattle.std.specs.Prelude.{◌≡◌, ◌*◌, ◌<◌, ◌≤◌, ◌↔◌, ◌||◌, ◌&&◌, ℕ, false, true, not, IsTrue, MatchOption, IfSome, length};
ghost use Rattle.class_set.specs.Members.{bit_of, IsLowest, IsClear, IsLeast, IsPast};

/// Adds the members of the others, which have as many words.
pub(crate) fn unite(words: &mut [u64], others: &[u64])
    requires { length words.old ≡ length others.now }
    ensures { (k : ℕ) → bit_of words.new k ≡ (bit_of words.old k || bit_of others.now k) }
{
    for (i, other) in others.iter().enumerate() {
        words[i] |= *other;
    }
}

/// Keeps the members that are members of the others, which have as many words.
pub(crate) fn intersect(words: &mut [u64], others: &[u64])
    requires { length words.old ≡ length others.now }
    ensures { (k : ℕ) → bit_of words.new k ≡ (bit_of words.old k && bit_of others.now k) }
{
    for (i, other) in others.iter().enumerate() {
        words[i] &= *other;
    }
}

/// Takes away the members of the others, which have as many words.
pub(crate) fn subtract(words: &mut [u64], others: &[u64])
    requires { length words.old ≡ length others.now }
    ensures { (k : ℕ) → bit_of words.new k ≡ (bit_of words.old k && not (bit_of others.now k)) }
{
    for (i, other) in others.iter().enumerate() {
        words[i] &= !*other;
    }
}

/// Whether the two, which have as many words, have a member in common.
pub(crate) fn meet(words: &[u64], others: &[u64]) -> bool
    requires { length words.now ≡ length others.now }
    ensures { IsTrue result ↔ ((k : ℕ) × (bit_of words.now k ≡ true) × (bit_of others.now k ≡ true)) }
{
    for (i, other) in others.iter().enumerate() {
        if words[i] & *other != 0 {
            return true;
        }
    }
    false
}

/// The place of the lowest bit of the word from a place on.
fn lowest_from(word: u64, from: u32) -> Option<u32>
    requires { from < 64 }
    ensures { MatchOption result (IsClear word from) (IsLowest word from) }
{
    let rest = word >> from;
    if rest == 0 {
        None
    } else {
        Some(from + rest.trailing_zeros())
    }
}

/// The least member from a number on.
pub(crate) fn least_from(words: &[u64], first: usize) -> Option<u32>
    requires { length words.now ≤ 16 }
    ensures least { MatchOption result (IsPast (bit_of words.now) first) (IsLeast (bit_of words.now) first) }
    ensures within { IfSome result (λ m. m < 64 * length words.now) }
{
    let mut low = (first % 64) as u32;
    for at in first / 64..words.len() {
        if let Some(bit) = lowest_from(words[at], low) {
            return Some(64 * at as u32 + bit);
        }
        low = 0;
    }
    None
}
