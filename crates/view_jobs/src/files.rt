ghost use Rattle.std.specs.Prelude.{ℕ, List, Option, IfOk, IfSome, ◌≤◌, length};
ghost use Rattle.view_jobs.specs.Files.{ReadsFile};

use std::alloc::Global;
use view_output::Fault;

/// The most bytes of a program's text.
pub const LONGEST: u32 = 4_194_304;

/// Files by their names.
pub trait Files {
    /// What stands in the file of this name, where that is known.
    ghost known: { Self → (name : List ℕ) → Option (List ℕ) };

    /// Reads a file of at most 4,194,304 bytes.
    ///
    /// # Errors
    ///
    /// `TooLong` where it has more, `File` where it can't be read, and `NoMemory`.
    fn read(&self, alloc: Global, name: &str) -> Result<Vec<u8>, Fault>
        ensures text { IfSome (known self.now name.now) (λ text. ReadsFile text result) }
        ensures within { IfOk result (λ text. length text.items ≤ 4194304) };
}
