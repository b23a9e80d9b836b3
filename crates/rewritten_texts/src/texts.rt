//! The texts of rewritten forms.

ghost use Rattle.rewritten_texts.specs.Texts.{RewrittenProgramsHaveText, RewrittenTextsAreOneUnit, RewrittenTextsAreReadBack};

use crate::dialects::rewritten_programs_keep_their_dialect;
use flat_programs::executables_tell_statements;
use read_back::{
    printed_programs_are_one_unit, printed_programs_have_their_statements,
    printed_text_is_read_back,
};
use shared_laws::{shared_programs_are_flat, shared_statements_are_flat};

/// The rewritten form of a program is a well-formed program whose statements are few and short enough for a source text. The temporaries
/// are scalars, so no array bears a name with which an intrinsic function is printed, where none of the program does.
pub fn rewritten_programs_have_text()
    ensures { RewrittenProgramsHaveText }
{
    executables_tell_statements();
    shared_programs_are_flat();
    shared_statements_are_flat();
}

/// The text of the rewritten form of a program is one unit without subroutines, also where the program is the expansion of several: each
/// of its lines and its statements is read, and none is SUBROUTINE, CALL or RETURN, alone or after a condition.
pub fn rewritten_texts_are_one_unit()
    ensures { RewrittenTextsAreOneUnit }
{
    executables_tell_statements();
    shared_programs_are_flat();
    shared_statements_are_flat();
    printed_programs_have_their_statements();
    printed_programs_are_one_unit();
}

/// The text of the rewritten form of a program is read back as that form, but for lines and the listing of COMMON. The operators of the
/// program are of the dialect in which it is rewritten and read.
pub fn rewritten_texts_are_read_back()
    ensures { RewrittenTextsAreReadBack }
{
    printed_text_is_read_back();
    rewritten_programs_have_text();
    rewritten_programs_keep_their_dialect();
}
