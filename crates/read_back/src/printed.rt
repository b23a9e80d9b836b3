//! The text of a printed program is read back.

ghost use Rattle.std.specs.Prelude.{ℕ, Bool, List};
ghost use Rattle.f77_tree.specs.declared.programs.Program.{Program};
ghost use Rattle.f77_tree.specs.Dialects.{IsOfDialect};
ghost use Rattle.f77_source.specs.Reading.{Reads, reading};
ghost use Rattle.flat_programs.specs.declared.statements.FlatLine.{FlatLine};
ghost use Rattle.flat_programs.specs.Text.{text};
ghost use Rattle.read_back.specs.ReadAgain.{HasText, IsReadBack, IsUnlessTooGreat};

use crate::programs::{printed_programs_can_be_read, printed_programs_have_their_statements};
use flat_programs::executables_stand_in_order;

/// The printed text of a program of flat statements is read back as the program, but for lines and the listing of COMMON. It is one unit
/// without subroutines. The operators of the program are of the dialect in which it is read.
pub fn printed_text_is_read_back()
    ensures { (p : Program) (flat : List FlatLine) (checked : Bool) → HasText p flat → IsOfDialect checked p → IsReadBack (text p flat) checked p }
{
    executables_stand_in_order();
    printed_programs_can_be_read();
    printed_programs_have_their_statements();
}

/// A text that is read as a program is that program, or it is refused for how many operations a statement has or how many alias classes
/// the program has.
pub fn texts_are_refused_for_size_alone()
    ensures { (bytes : List ℕ) (checked : Bool) (p : Program) → Reads bytes checked p → IsUnlessTooGreat p (reading bytes checked) }
{}
