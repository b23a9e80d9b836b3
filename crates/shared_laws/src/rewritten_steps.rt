//! How many steps programs that are written anew take, as the contract of a function that does nothing.

ghost use Rattle.shared_laws.specs.RewrittenSteps.{RewrittenProgramsFollow};

use crate::shared_runs::{shared_programs_follow, shared_steps_are_few};
use simplified_laws::{runs_take_few_operations, simplified_programs_print_alike};

/// Over data of words the shared form of the simplified form of a program follows the program: for each step it takes at most three
/// steps, and one for each operation of the statement that asks for most.
pub fn rewritten_programs_take_few_steps()
    ensures { RewrittenProgramsFollow }
{
    runs_take_few_operations();
    shared_programs_follow();
    shared_steps_are_few();
    simplified_programs_print_alike();
}
