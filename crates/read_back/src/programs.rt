//! The statements of printed programs.

ghost use Rattle.std.specs.Prelude.{◌≡◌, true, false, All, List};
ghost use Rattle.f77_tree.specs.declared.programs.Program.{Program};
ghost use Rattle.f77_tree.specs.StatementGrammar.{is_of_subroutines};
ghost use Rattle.f77_source.specs.Listed.{is_one_unit};
ghost use Rattle.flat_programs.specs.declared.statements.FlatLine.{FlatLine};
ghost use Rattle.flat_programs.specs.FlatForm.{IsFlat};
ghost use Rattle.flat_programs.specs.Text.{text};
ghost use Rattle.read_back.specs.PrintedStatements.{AreReadAs, CanBeText, labelled_from, written_statements};
ghost use Rattle.read_back.specs.ReadAgain.{HasText};
ghost use Rattle.read_back.specs.SourceStatements.{CanBeRead, HasStatements, statements_read};

use f77_parse::one_answer;
use flat_programs::executables_tell_statements;

/// The printed text of a flat program is read, statement by statement, as what its declarations and its flat statements are written
/// as: no line, no statement and no constant of it is refused. The program has at most 4,000 statements, declarations among them, and
/// none of them is longer or deeper than a source may have it.
pub fn printed_programs_are_read_by_statements()
    ensures { (q : Program) (flat : List FlatLine) → CanBeText q flat → AreReadAs (text q flat) (labelled_from 1 (written_statements q flat)) }
{
    one_answer();
}

/// The statements of the printed text of such a program are what its declarations and its flat statements are written as.
pub fn printed_programs_have_their_statements()
    ensures { (q : Program) (flat : List FlatLine) → CanBeText q flat → HasStatements (text q flat) (statements_read q flat) }
{
    printed_programs_are_read_by_statements();
}

/// The statements that a printed program is read as are one unit without subroutines, so they are laid out as they stand: no statement
/// before the last one is END, and none is SUBROUTINE, CALL or RETURN, alone or after a condition (ANSI X3.9-1978, sections 2.4 and 15.6).
pub fn printed_programs_are_one_unit()
    ensures unit { (q : Program) (flat : List FlatLine) → IsFlat flat → is_one_unit (statements_read q flat) ≡ true }
    ensures plain { (q : Program) (flat : List FlatLine) → IsFlat flat → All (λ s. is_of_subroutines s.stmt ≡ false) (statements_read q flat) }
{}

/// A program of flat statements that are few and short enough for a source can have a text and be read, where no array bears a name with
/// which an intrinsic function is printed.
pub fn printed_programs_can_be_read()
    ensures { (p : Program) (flat : List FlatLine) → HasText p flat → CanBeRead p flat }
{
    executables_tell_statements();
}
