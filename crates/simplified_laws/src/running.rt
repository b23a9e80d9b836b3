//! Laws on what programs that are written anew do, as contracts of functions that do nothing.

ghost use Rattle.simplified_laws.specs.FoldedValues.{FoldedAccessesHaveTheirPlaces, FoldedExpressionsHaveTheirKinds, FoldedExpressionsHaveTheirValues, FoldedItemsHaveTheirLines, FoldedValuesAreAssignedAlike, LiteralsHaveTheirValues};
ghost use Rattle.simplified_laws.specs.InStep.{RunsTakeFewOperations, SimplifiedProgramsKeepStep, SimplifiedProgramsLeaveTheSameWords, SimplifiedProgramsPrintAlike};

use crate::laws::items_lead_to_items;
use crate::run_laws::known_words_are_right_in_runs;
use f77_tree::statements_bound_operations;
use flat_programs::executables_stand_in_order;

/// A folded expression has the kind of the expression, and over each store of words in which what is told of words is right it has its
/// value, or traps as it does. So it is with accesses, with what is assigned or printed, and with literals.
pub fn folded_expressions_keep_their_values()
    ensures literals { LiteralsHaveTheirValues }
    ensures kinds { FoldedExpressionsHaveTheirKinds }
    ensures values { FoldedExpressionsHaveTheirValues }
    ensures places { FoldedAccessesHaveTheirPlaces }
    ensures lines { FoldedItemsHaveTheirLines }
    ensures assigned { FoldedValuesAreAssignedAlike }
{}

/// The simplified form of a program by its constants prints what the program prints, over data of words, and ends or traps alike, with
/// the same words at the end. After each number of steps of the program it is in step after at most three times as many, which take at
/// most twice the operations: it has the same words, has written and taken the same, and goes on where the next executable begins.
pub fn simplified_programs_print_alike()
    ensures alike { SimplifiedProgramsPrintAlike }
    ensures words { SimplifiedProgramsLeaveTheSameWords }
    ensures steps { SimplifiedProgramsKeepStep }
{
    executables_stand_in_order();
    items_lead_to_items();
    known_words_are_right_in_runs();
}

/// A run takes at most the greatest number of operations of its program at each step.
pub fn runs_take_few_operations()
    ensures { RunsTakeFewOperations }
{
    statements_bound_operations();
}
