//! Tables of numbers that are looked up by places. A place past the end of a table has nothing there.

ghost use Rattle.std.specs.Prelude.{◌≡◌, ◌==◌, length, max, slice_index};
ghost use Rattle.trace_profiles.specs.Tables.{IsMarked, IsRaised};

/// The number at a place, or 0 past the end.
pub fn at(numbers: &[u32], k: usize) -> u32
    ensures { result ≡ slice_index numbers.now k }
{
    numbers.get(k).copied().unwrap_or(0)
}

/// The same, of numbers that are places themselves.
pub fn place_at(places: &[usize], k: usize) -> usize
    ensures { result ≡ slice_index places.now k }
{
    places.get(k).copied().unwrap_or(0)
}

/// Puts a number to a place, unless it is past the end.
pub fn put(numbers: &mut Vec<u32>, k: usize, n: u32)
    ensures marked { IsMarked numbers.old.items numbers.new.items (λ i. k == i) n }
    ensures count { length numbers.new.items ≡ length numbers.old.items }
{
    if k < numbers.len() {
        numbers[k] = n;
    }
}

/// Raises the number at a place, unless it is past the end or greater.
pub fn raise(numbers: &mut Vec<u32>, k: usize, n: u32)
    ensures raised { IsRaised numbers.old.items numbers.new.items (λ i. k == i) n }
    ensures count { length numbers.new.items ≡ length numbers.old.items }
{
    if k < numbers.len() {
        numbers[k] = numbers[k].max(n);
    }
}

/// The greater of two numbers.
pub fn greater(a: u32, b: u32) -> u32
    ensures { result ≡ max a b }
{
    if a < b { b } else { a }
}

/// Puts a place to a place, unless it is past the end.
pub fn put_place(places: &mut Vec<usize>, k: usize, n: usize)
    ensures marked { IsMarked places.old.items places.new.items (λ i. k == i) n }
    ensures count { length places.new.items ≡ length places.old.items }
{
    if k < places.len() {
        places[k] = n;
    }
}
