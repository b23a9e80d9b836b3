//! The storage of printed programs.

ghost use Rattle.std.specs.Prelude.{◌≡◌, Bool, List};
ghost use Rattle.f77_tree.specs.declared.programs.Program.{Program};
ghost use Rattle.layout_rules.specs.Layout.{HasForm, names_of, placed_names, word_count};
ghost use Rattle.layout_rules.specs.StorageFaults.{has_wrong_data, has_wrong_places};
ghost use Rattle.flat_programs.specs.declared.statements.FlatLine.{FlatLine};
ghost use Rattle.read_back.specs.ReadAgain.{HasText, program_read};
ghost use Rattle.read_back.specs.SourceStatements.{NoneHas, statements_read};

use crate::programs::printed_programs_can_be_read;

/// The names of a program get their places again when its printed text is read, and its words their values: no EQUIVALENCE and no DATA is
/// wrong (ANSI X3.9-1978, sections 8.2, 8.3 and 9).
pub fn printed_programs_have_their_storage()
    ensures places { (p : Program) (flat : List FlatLine) → HasText p flat → NoneHas (λ whole. has_wrong_places (names_of whole) whole) p flat }
    ensures table { (p : Program) (flat : List FlatLine) → HasText p flat → placed_names (statements_read p flat) ≡ p.names }
    ensures words { (p : Program) (flat : List FlatLine) → HasText p flat → word_count (statements_read p flat) ≡ p.words }
    ensures data { (p : Program) (flat : List FlatLine) → HasText p flat → NoneHas (λ whole. has_wrong_data (placed_names whole)) p flat }
    ensures initial { (p : Program) (flat : List FlatLine) (checked : Bool) → HasText p flat → (program_read p flat checked).initial ≡ p.initial }
{
    printed_programs_can_be_read();
}

/// The statements that a printed program is read as have no fault, whatever each of them asks.
pub fn printed_programs_have_form()
    ensures { (p : Program) (flat : List FlatLine) → HasText p flat → HasForm (statements_read p flat) }
{
    printed_programs_can_be_read();
}
