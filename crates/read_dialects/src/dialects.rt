//! The dialect of programs that are read.

ghost use Rattle.std.specs.Prelude.{◌≡◌, ℕ, Bool, List, Ok};
ghost use Rattle.f77_tree.specs.declared.programs.Program.{Program};
ghost use Rattle.f77_tree.specs.Dialects.{IsOfDialect};
ghost use Rattle.f77_source.specs.Reading.{Reads, reading};

use f77_parse::one_answer;

/// A text that is accepted is read as the program that it is accepted as.
pub fn accepted_texts_are_read()
    ensures { (bytes : List ℕ) (checked : Bool) (p : Program) → reading bytes checked ≡ Ok p → Reads bytes checked p }
{}

/// The program that a text is read as is of the dialect in which it is read: the grammar writes no operator of the checked dialect
/// (ANSI X3.9-1978, section 6), copies of subroutines bring none in, and where a program is read in that dialect, each operator that may
/// overflow is taken for the one that traps.
pub fn programs_are_read_in_their_dialect()
    ensures read { (bytes : List ℕ) (checked : Bool) (p : Program) → Reads bytes checked p → IsOfDialect checked p }
    ensures accepted { (bytes : List ℕ) (checked : Bool) (p : Program) → reading bytes checked ≡ Ok p → IsOfDialect checked p }
{
    accepted_texts_are_read();
    one_answer();
}
