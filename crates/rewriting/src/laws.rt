//! Laws on rewritten forms, as contracts of functions that do nothing.

ghost use Rattle.rewriting.specs.OneForm.{OneLimit, OneRewrittenForm, OneSimplifiedForm, RewrittenPassesNoLimit};
ghost use Rattle.rewriting.specs.Running.{RewrittenProgramsLeaveTheSameWords, RewrittenProgramsPrintAlike, RewrittenProgramsTakeFewSteps};

use alias_classes::one_numbering;
use cfg_build::{flow_graph_has_shape, flow_graph_is_strong};
use constant_laws::{one_table_of_constants, own_touches_route};
use dep_routing::one_touching;
use flat_programs::executables_tell_statements;
use redundancy::one_table_of_availability;
use shared_laws::{rewritten_programs_take_few_steps, shared_programs_print_alike};
use simplified_laws::simplified_programs_print_alike;

/// A program has at most one simplified form in a dialect and at most one rewritten form, whatever tables they are made by. One that has
/// a rewritten form passes no limit, and two limits that a program passes are the same.
pub fn rewritten_forms_are_one()
    ensures simplified { OneSimplifiedForm }
    ensures rewritten { OneRewrittenForm }
    ensures none { RewrittenPassesNoLimit }
    ensures limit { OneLimit }
{
    one_numbering();
    one_touching();
    one_table_of_constants();
    one_table_of_availability();
    executables_tell_statements();
    flow_graph_has_shape();
    flow_graph_is_strong();
}

/// The rewritten form of a program prints what the program prints, over all data of words: one ends where the other ends, with the same
/// words of the program, and one traps where the other traps, in the same way. For each step of the program it takes at most three, and
/// one for each operation of the statement that asks for most.
pub fn rewritten_programs_print_alike()
    ensures alike { RewrittenProgramsPrintAlike }
    ensures words { RewrittenProgramsLeaveTheSameWords }
    ensures steps { RewrittenProgramsTakeFewSteps }
{
    own_touches_route();
    simplified_programs_print_alike();
    shared_programs_print_alike();
    rewritten_programs_take_few_steps();
}
