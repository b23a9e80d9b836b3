//! Runs of what printed texts are read as.

ghost use Rattle.std.specs.Prelude.{ℤ, List};
ghost use Rattle.f77_tree.specs.declared.programs.Program.{Program};
ghost use Rattle.f77_tree.specs.Run.{PrintAlike, source};
ghost use Rattle.read_back.specs.ReadAgain.{IsReadAgain};
ghost use Rattle.rewritten_texts.specs.ReadRuns.{RewrittenTextsPrintAlike};

use crate::texts::rewritten_texts_are_read_back;
use rewriting::rewritten_programs_print_alike;

/// A program that is read again prints what the program prints: its run writes the same, ends where the other ends, and traps where the
/// other traps, though on other lines.
pub fn programs_read_again_print_alike()
    ensures { (p q : Program) (input : List ℤ) → IsReadAgain p q → PrintAlike (source p input) (source q input) }
{}

/// What the text of the rewritten form of a program is read as prints what the program prints, where no array of the program bears a name
/// with which an intrinsic function is printed.
pub fn rewritten_texts_print_alike()
    ensures { RewrittenTextsPrintAlike }
{
    rewritten_programs_print_alike();
    rewritten_texts_are_read_back();
}
