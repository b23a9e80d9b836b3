//! Laws on runs of a flat program and of its shared form, as contracts of functions that do nothing.

ghost use Rattle.std.specs.Prelude.{◌≡◌, ◌<◌, ◌≤◌, ◌+◌, ◌*◌, ℕ, ℤ, List, All, Option, Some, length, slice_get};
ghost use Rattle.op_table.specs.Words.{IsWord};
ghost use Rattle.alias_classes.specs.Classes.{ClassTable};
ghost use Rattle.f77_tree.specs.declared.expressions.Expr.{Expr};
ghost use Rattle.f77_tree.specs.declared.programs.Exec.{Exec};
ghost use Rattle.f77_tree.specs.declared.programs.Program.{Program};
ghost use Rattle.f77_tree.specs.Operations.{exec_operations, most_operations};
ghost use Rattle.f77_tree.specs.Run.{source, Ended, PrintAlike};
ghost use Rattle.f77_tree.specs.Value.{value, word_at, IsExpression};
ghost use Rattle.redundancy.specs.Available.{Availability};
ghost use Rattle.redundancy.specs.Candidates.{subexpressions};
ghost use Rattle.simplified_laws.specs.InStep.{operations_of_run};
ghost use Rattle.shared_forms.specs.Shared.{due, replaced, with_temporaries, AreNumbers};
ghost use Rattle.shared_laws.specs.SharedRuns.{shared_steps, AgreeUpTo, HoldValues, IsSharedBy};

use cfg_build::{
    executables_have_own_pieces, flow_graph_is_strong, passes_are_a_walk, passes_lie_within_steps,
    pieces_run_executables,
};
use closed_walks::reaching_is_told;
use f77_tree::{
    accesses_stay_in_their_names, executables_keep_the_rest, executables_lead_to_successors,
    logical_values_are_truths, longer_tables_agree, reads_decide, runs_hold_words,
    runs_stay_inside, scalars_can_be_added, stopped_runs_stay, well_formed_programs_can_run,
    what_cannot_trap_has_a_value,
};
use flat_programs::executables_tell_statements;
use redundancy::available_expressions_keep_their_values;
use simplified_laws::runs_take_few_operations;

/// An expression in which temporaries stand for its shared candidates has the value that it had before, over each store in which the
/// temporaries have the values of the candidates.
pub fn replaced_expressions_have_their_values()
    ensures { (q : Program) (a : Availability) (number : Expr → Option ℕ) (store : List ℤ) (next : Option ℤ) (e : Expr) → AreNumbers a number → IsExpression q.names e → HoldValues q a number store next (subexpressions e) → value (with_temporaries q a number).names store next (replaced q a number e) ≡ value q.names store next e }
{
    logical_values_are_truths();
}

/// Over data of words the shared form of a program follows it step by step: after as many steps as `shared_steps` tells it has the same
/// mark, has written the same text and has the same words.
pub fn shared_programs_follow()
    ensures steps { (q r : Program) (c : ClassTable) (a : Availability) (input : List ℤ) (n : ℕ) → (is : IsSharedBy q c a r) → All IsWord input → AgreeUpTo q.words (source q input n) (source r input (shared_steps q a is.shared.number input n)) }
    ensures later { (q : Program) (a : Availability) (number : Expr → Option ℕ) (input : List ℤ) (n : ℕ) → n ≤ shared_steps q a number input n }
{
    accesses_stay_in_their_names();
    available_expressions_keep_their_values();
    executables_have_own_pieces();
    executables_keep_the_rest();
    executables_lead_to_successors();
    executables_tell_statements();
    flow_graph_is_strong();
    logical_values_are_truths();
    longer_tables_agree();
    passes_are_a_walk();
    passes_lie_within_steps();
    pieces_run_executables();
    reaching_is_told();
    reads_decide();
    runs_hold_words();
    runs_stay_inside();
    scalars_can_be_added();
    well_formed_programs_can_run();
    what_cannot_trap_has_a_value();
}

/// The shared form of a program prints what the program prints, over all data of words: one ends where the other ends, with the same
/// words, and one traps where the other traps, in the same way.
pub fn shared_programs_print_alike()
    ensures alike { (q r : Program) (c : ClassTable) (a : Availability) (input : List ℤ) → IsSharedBy q c a r → All IsWord input → PrintAlike (source q input) (source r input) }
    ensures words { (q r : Program) (c : ClassTable) (a : Availability) (input : List ℤ) (m n word : ℕ) → IsSharedBy q c a r → All IsWord input → (source q input m).mark ≡ Ended → (source r input n).mark ≡ Ended → word < q.words → word_at (source q input m).memory.store word ≡ word_at (source r input n).memory.store word }
{
    shared_programs_follow();
    stopped_runs_stay();
}

/// Before an executable at most half as many assignments are due as it takes operations: each candidate has an operator and a name. So
/// the shared form takes one step for each step of the program, and at most half as many more as that takes operations; these are at
/// most the program's greatest number of operations for each step.
pub fn shared_steps_are_few()
    ensures due { (q r : Program) (c : ClassTable) (a : Availability) (k : ℕ) (exec : Exec) → (is : IsSharedBy q c a r) → slice_get q.execs k ≡ Some exec → 2 * length (due q a is.shared.number k) ≤ exec_operations exec.kind }
    ensures operations { (q r : Program) (c : ClassTable) (a : Availability) (input : List ℤ) (n : ℕ) → (is : IsSharedBy q c a r) → 2 * shared_steps q a is.shared.number input n ≤ operations_of_run q input n + 2 * n }
    ensures steps { (q r : Program) (c : ClassTable) (a : Availability) (input : List ℤ) (n : ℕ) → (is : IsSharedBy q c a r) → 2 * shared_steps q a is.shared.number input n ≤ (most_operations q + 2) * n }
{
    runs_stay_inside();
    runs_take_few_operations();
    well_formed_programs_can_run();
}
