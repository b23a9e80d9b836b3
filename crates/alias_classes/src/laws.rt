//! Laws on classes, and the frame of the source, as contracts of functions that do nothing.

ghost use Rattle.std.specs.Prelude.{◌≡◌, ◌≢◌, ◌≤◌, ◌<◌, ℕ};
ghost use Rattle.f77_tree.specs.declared.programs.ExecKind.{ExecKind};
ghost use Rattle.f77_tree.specs.declared.programs.Program.{Program};
ghost use Rattle.f77_tree.specs.Touched.{SetsCount, SetsStep, ReadsCount};
ghost use Rattle.alias_classes.specs.Classes.{ClassTable, IsClasses, class_of_word, class_of_loop, class_count};
ghost use Rattle.alias_classes.specs.Covering.{WordsHaveClasses, NeedsAreNumbered, HitsWhatMayBeNamed, NeedsWhatMayBeRead, NeedsWhatMayChange, NeedsWhatChanges, NeedsDecide, KeepsTheRest};
ghost use Rattle.alias_classes.specs.Needs.{ExecNeeds};
ghost use Rattle.alias_classes.specs.Number.{number_of_classes};

use f77_tree::{accesses_stay_in_their_names, executables_keep_the_rest, reads_decide};

/// A program has one table of classes.
pub fn one_numbering()
    ensures { (p : Program) (t other : ClassTable) → IsClasses p t → IsClasses p other → t ≡ other }
{}

/// A program has as many classes as words that are the first of their class, and DOs.
pub fn classes_are_counted()
    ensures { (p : Program) (t : ClassTable) → IsClasses p t → class_count t ≡ number_of_classes p }
{}

/// Each word of a name has a class from 1 to the number of classes of words. Different DOs have different classes, which
/// no word has.
pub fn classes_are_numbered()
    ensures words { WordsHaveClasses }
    ensures loops { (p : Program) (t : ClassTable) (n : ℕ) → IsClasses p t → n < p.loops → (1 ≤ class_of_loop t n) × (class_of_loop t n ≤ class_count t) }
    ensures differ { (t : ClassTable) (m n : ℕ) → class_of_loop t m ≡ class_of_loop t n → m ≡ n }
    ensures apart { (p : Program) (t : ClassTable) (word n : ℕ) → IsClasses p t → class_of_word t word ≢ class_of_loop t n }
{}

/// The classes that an executable of a program needs are numbered from 1 to the number of classes.
pub fn needs_are_numbered()
    ensures { NeedsAreNumbered }
{
    accesses_stay_in_their_names();
}

/// The class of a word that an access may name is one that the access hits, the class of a word that an executable may read
/// or change is one that it needs, and so is the class of a DO whose count or step it reads or sets.
pub fn needs_cover_accesses()
    ensures hits { HitsWhatMayBeNamed }
    ensures reads { NeedsWhatMayBeRead }
    ensures changes { NeedsWhatMayChange }
    ensures changed { NeedsWhatChanges }
    ensures sets_count { (t : ClassTable) (kind : ExecKind) (n : ℕ) → SetsCount kind n → ExecNeeds t kind (class_of_loop t n) }
    ensures sets_step { (t : ClassTable) (kind : ExecKind) (n : ℕ) → SetsStep kind n → ExecNeeds t kind (class_of_loop t n) }
    ensures reads_count { (t : ClassTable) (kind : ExecKind) (n : ℕ) → ReadsCount kind n → ExecNeeds t kind (class_of_loop t n) }
{
    accesses_stay_in_their_names();
    executables_keep_the_rest();
}

/// The frame of the source: over memories that agree on the classes that an executable needs, and on the data taken where
/// it reads data, its outcomes are alike; and it leaves the other classes as they are.
pub fn needs_are_a_frame()
    ensures decide { NeedsDecide }
    ensures keep { KeepsTheRest }
{
    needs_cover_accesses();
    executables_keep_the_rest();
    reads_decide();
}
