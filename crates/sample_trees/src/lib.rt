//! Small trees that are well formed, and trees with one fault each that are not: what the definitions of `f77_tree` say of
//! them is proved.
#![tactic(auto)]

ghost use Rattle.std.specs.Prelude.{◌≡◌, ℕ, [], ◌∷◌};
ghost use Rattle.f77_tree.specs.Control.{EndsWithEnd};
ghost use Rattle.f77_tree.specs.InitialWords.{GivenOnce};
ghost use Rattle.f77_tree.specs.Kinds.{IsProper};
ghost use Rattle.f77_tree.specs.Loops.{AreLoops, IsLoop, IsEnteredAtStart};
ghost use Rattle.f77_tree.specs.Operations.{exec_operations};
ghost use Rattle.f77_tree.specs.Places.{ArePlaces};
ghost use Rattle.f77_tree.specs.WellFormed.{IsWellFormed, IsProperItem, IsExecutable};
ghost use Rattle.sample_trees.specs.Faults.{names, too_great, truth_added, printed_data, nowhere, two_ends, falling, two_variables, jumping, sharing, gift};
ghost use Rattle.sample_trees.specs.Looping.{looping};
ghost use Rattle.sample_trees.specs.Whole.{add, whole};

/// A program with READ, an array, COMMON, EQUIVALENCE, DATA and PRINT, and one with a DO, are well formed.
pub fn examples_are_well_formed()
    ensures whole { IsWellFormed whole }
    ensures looping { IsWellFormed looping }
{}

/// `A(J) = A(J) + 1` takes nine operations.
pub fn operations_are_counted()
    ensures { exec_operations add ≡ 9 }
{}

/// Each of these trees has a fault.
pub fn faults_are_found()
    ensures constant { IsProper names too_great → ⊥ }
    ensures operand { IsProper names truth_added → ⊥ }
    ensures data { IsProperItem names printed_data → ⊥ }
    ensures target { IsExecutable names nowhere → ⊥ }
    ensures end { EndsWithEnd two_ends → ⊥ }
    ensures numbers { AreLoops falling 2 → ⊥ }
    ensures variable { IsLoop two_variables 0 → ⊥ }
    ensures jump { IsEnteredAtStart jumping 0 → ⊥ }
    ensures words { (words : ℕ) → ArePlaces sharing [] [] words → ⊥ }
    ensures gift { GivenOnce names (gift ∷ gift ∷ []) → ⊥ }
{}
