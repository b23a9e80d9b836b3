ghost use Rattle.std.specs.Prelude.{◌≡◌, ◌==◌};
ghost use Rattle.std.specs.List.{list_any};
ghost use Rattle.view_output.specs.ShownLines.{is_shown};

/// Which lines of tokens are shown.
#[derive(Drop)]
pub enum Lines {
    /// All of them.
    All,
    /// Only these.
    Only(Vec<u32>),
}

impl Lines {
    /// Whether this line is shown.
    pub fn shows(&self, line: usize) -> bool
        ensures { result ≡ is_shown self.now line }
    {
        match self {
            Lines::All => true,
            Lines::Only(lines) => holds(lines.as_slice(), line),
        }
    }
}

/// Whether a number is among these.
pub fn holds(numbers: &[u32], number: usize) -> bool
    ensures { result ≡ list_any (λ n. n == number) numbers.now }
{
    for found in numbers {
        if *found as usize == number {
            return true;
        }
    }
    false
}
