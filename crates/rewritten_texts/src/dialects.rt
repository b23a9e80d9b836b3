//! The dialect of rewritten forms.

ghost use Rattle.std.specs.Prelude.{Bool};
ghost use Rattle.f77_tree.specs.declared.programs.Program.{Program};
ghost use Rattle.f77_tree.specs.Dialects.{IsOfDialect};
ghost use Rattle.rewriting.specs.Rewritten.{IsRewritten};

use flat_programs::executables_stand_in_order;

/// The rewritten form of a program, in the dialect of the program, is of that dialect: the literals of what is known have its operators.
pub fn rewritten_programs_keep_their_dialect()
    ensures { (p : Program) (checked : Bool) (s : Program) → IsOfDialect checked p → IsRewritten p checked s → IsOfDialect checked s }
{
    executables_stand_in_order();
}
