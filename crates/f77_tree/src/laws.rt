//! Laws on runs, and on what executables read and change, as contracts of functions that do nothing.

ghost use Rattle.std.specs.Prelude.{◌≡◌, ◌≢◌, ◌≤◌, ◌<◌, ◌↔◌, Bool, true, false, ℕ, ◌+◌, ℤ, List, ◌++◌, All, Any, flat_map, length, Option, Some, Ok, slice_get, slice_index};
ghost use Rattle.op_table.specs.declared.Trap.{Trap};
ghost use Rattle.op_table.specs.Words.{IsWord};
ghost use Rattle.f77_tree.specs.declared.declarations.Dim.{Dim};
ghost use Rattle.f77_tree.specs.declared.expressions.Access.{Access};
ghost use Rattle.f77_tree.specs.declared.expressions.Expr.{Expr};
ghost use Rattle.f77_tree.specs.declared.programs.Exec.{Exec};
ghost use Rattle.f77_tree.specs.declared.programs.ExecKind.{ExecKind};
ghost use Rattle.f77_tree.specs.declared.programs.Item.{Item};
ghost use Rattle.f77_tree.specs.declared.programs.NameInfo.{NameInfo};
ghost use Rattle.f77_tree.specs.declared.programs.Program.{Program};
ghost use Rattle.f77_tree.specs.CanRun.{CanRun, CanExecute, IsNext};
ghost use Rattle.f77_tree.specs.Execution.{Memory, outcome};
ghost use Rattle.f77_tree.specs.Kinds.{IsProper};
ghost use Rattle.f77_tree.specs.Known.{known, IsInBounds, ExecMayTrap, ExecMayTrapBut};
ghost use Rattle.f77_tree.specs.KnownWith.{known_word, known_with, AreRight};
ghost use Rattle.f77_tree.specs.Line.{line_of};
ghost use Rattle.f77_tree.specs.Loops.{InRange, AreLoops, do_start};
ghost use Rattle.f77_tree.specs.Operations.{statements_of, is_increment, exec_operations, statement_operations, most_operations};
ghost use Rattle.f77_tree.specs.Places.{IsWordOf};
ghost use Rattle.f77_tree.specs.Prefixes.{IsPrefix};
ghost use Rattle.f77_tree.specs.Run.{Mark, Running, Ended, Trapped, out, source};
ghost use Rattle.f77_tree.specs.Steps.{IfGoes, DoesNotTrap, IsMemoryOf, HoldsWords, KeepsRest, HasRoomFor, AgreeFor, AreAlike, Changes, StopsWithin, ExecutablesLeadToSuccessors};
ghost use Rattle.f77_tree.specs.Touched.{ExecMayChange, ExecMayRead, ExecReadsData, MayName, MayRead, ItemMayRead, ReadsData};
ghost use Rattle.f77_tree.specs.Value.{value, place, word_at, dims_of, IsExpression, IsAccess, ArePlaced};
ghost use Rattle.f77_tree.specs.WellFormed.{IsWellFormed};

/// A well-formed program can run.
pub fn well_formed_programs_can_run()
    ensures { (p : Program) → IsWellFormed p → CanRun p }
{}

/// In each state of a run of a program that can run, the position is that of an executable, and there are as many words,
/// counts and steps as the program has.
pub fn runs_stay_inside()
    ensures position { (p : Program) (input : List ℤ) (n : ℕ) → CanRun p → IsNext p (source p input n).position }
    ensures memory { (p : Program) (input : List ℤ) (n : ℕ) → CanRun p → IsMemoryOf p input (source p input n).memory }
{}

/// A run that has ended or trapped after n steps did so first at one of them.
pub fn runs_stop_first()
    ensures { (p : Program) (input : List ℤ) (n : ℕ) (mark : Mark) → mark ≢ Running → (source p input n).mark ≡ mark → StopsWithin p input n mark }
{}

/// A run that has ended or trapped stays as it is, and what was written is a prefix of what is written later.
pub fn stopped_runs_stay()
    ensures ended { (p : Program) (input : List ℤ) (n k : ℕ) → (source p input n).mark ≡ Ended → source p input (k + n) ≡ source p input n }
    ensures trapped { (p : Program) (input : List ℤ) (n k : ℕ) (trap : Trap) (line : ℕ) → (source p input n).mark ≡ Trapped trap line → source p input (k + n) ≡ source p input n }
    ensures text { (p : Program) (input : List ℤ) (n k : ℕ) → IsPrefix (out p input n) (out p input (k + n)) }
{}

/// An executable that goes on goes to one of its successors.
pub fn executables_lead_to_successors()
    ensures { ExecutablesLeadToSuccessors }
{}

/// An executable that goes on changes its target's word or its DO's variable, count and step, takes data where it reads
/// some, and leaves the rest as it is.
pub fn executables_keep_the_rest()
    ensures rest { (names : List NameInfo) (input : List ℤ) (m : Memory) (kind : ExecKind) → IfGoes (outcome names input m kind) (λ next new text. KeepsRest names input kind m new) }

    // The word that it changes is one that its text may name.
    ensures changes { (names : List NameInfo) (input : List ℤ) (m : Memory) (kind : ExecKind) (word : ℕ) → Changes names input m kind word → ExecMayChange names kind word }
{}

/// Over stores that agree on each word that may be read, of whatever lengths, values, words and lines are equal. An
/// executable does the same: it goes to the same one after the same text, traps alike or ends, and each word that it
/// changes, or on which the stores agreed before, is then the same in both.
pub fn reads_decide()
    ensures values { (names : List NameInfo) (a b : List ℤ) (next next' : Option ℤ) (e : Expr) → ((word : ℕ) → MayRead names e word → word_at a word ≡ word_at b word) → (ReadsData e → next ≡ next') → value names a next e ≡ value names b next' e }
    ensures places { (names : List NameInfo) (a b : List ℤ) (next next' : Option ℤ) (access : Access) → ((word : ℕ) → Any (λ sub. MayRead names sub word) access.subs → word_at a word ≡ word_at b word) → (Any ReadsData access.subs → next ≡ next') → place names a next access ≡ place names b next' access }
    ensures lines { (names : List NameInfo) (a b : List ℤ) (items : List Item) → ((word : ℕ) → Any (λ item. ItemMayRead names item word) items → word_at a word ≡ word_at b word) → line_of names a items ≡ line_of names b items }
    ensures outcomes { (p : Program) (input : List ℤ) (m n : Memory) (kind : ExecKind) → ArePlaced p.names p.words → HasRoomFor p m → HasRoomFor p n → CanExecute p kind → AgreeFor p.names kind m n → AreAlike p.names input kind m n (outcome p.names input m kind) (outcome p.names input n kind) }
    ensures changes { (names : List NameInfo) (input : List ℤ) (m n : Memory) (kind : ExecKind) (word : ℕ) → AgreeFor names kind m n → Changes names input m kind word ↔ Changes names input n kind word }
{}

/// While control is in the range of a DO, its count is at least 1; control comes into the range by the DoStart alone, with
/// a count that isn't 0.
pub fn ranges_have_counts()
    ensures counts { (p : Program) (input : List ℤ) (steps n : ℕ) → CanRun p → AreLoops p.execs p.loops → n < p.loops → InRange p.execs n (source p input steps).position → 1 ≤ slice_index (source p input steps).memory.counts n }
    ensures entered { (p : Program) (input : List ℤ) (n k : ℕ) (exec : Exec) (m : Memory) → AreLoops p.execs p.loops → n < p.loops → slice_get p.execs k ≡ Some exec → IsMemoryOf p input m → (InRange p.execs n k → ⊥) → IfGoes (outcome p.names input m exec.kind) (λ next new text. InRange p.execs n next → (k ≡ do_start p.execs n) × (1 ≤ slice_index new.counts n)) }
{}

/// Names after those of a table leave the values, the words and the outcomes of what the table fits.
pub fn longer_tables_agree()
    ensures values { (names more : List NameInfo) (store : List ℤ) (next : Option ℤ) (e : Expr) → IsExpression names e → value (names ++ more) store next e ≡ value names store next e }
    ensures places { (names more : List NameInfo) (store : List ℤ) (next : Option ℤ) (access : Access) → IsAccess names access → place (names ++ more) store next access ≡ place names store next access }
    ensures outcomes { (p : Program) (more : List NameInfo) (input : List ℤ) (m : Memory) (kind : ExecKind) → CanExecute p kind → outcome (p.names ++ more) input m kind ≡ outcome p.names input m kind }
{}

/// A word that an access may name is one of its name, and the only one where all its subscripts are known; what an
/// executable may read or change is a word of the program.
pub fn accesses_stay_in_their_names()
    ensures own { (names : List NameInfo) (words name : ℕ) (known : List (Option ℤ)) (word : ℕ) → ArePlaced names words → name < length names → length known ≡ length (dims_of names name) → MayName names name known word → IsWordOf names name word }
    ensures alone { (names : List NameInfo) (name : ℕ) (known : List (Option ℤ)) (word other : ℕ) → known_word names name known ≡ Some word → MayName names name known other → other ≡ word }
    ensures reads { (p : Program) (kind : ExecKind) (word : ℕ) → ArePlaced p.names p.words → CanExecute p kind → ExecMayRead p.names kind word → word < p.words }
    ensures changes { (p : Program) (kind : ExecKind) (word : ℕ) → ArePlaced p.names p.words → CanExecute p kind → ExecMayChange p.names kind word → word < p.words }
{}

/// What is known of an expression where some words are known is its value, over each store in which those words are right.
pub fn known_values_are_right()
    ensures value { (names : List NameInfo) (words : ℕ → Option ℤ) (store : List ℤ) (next : Option ℤ) (e : Expr) (z : ℤ) → AreRight words store → known_with names words e ≡ Some z → value names store next e ≡ Ok z }

    // What is known without those words stays known.
    ensures more { (names : List NameInfo) (words : ℕ → Option ℤ) (e : Expr) (z : ℤ) → known e ≡ Some z → known_with names words e ≡ Some z }
{}

/// The store and the steps of a run of a well-formed program over data of words hold words, since each executable leaves words
/// where it finds words; and the value of an expression of a program over a store of words is a word.
pub fn runs_hold_words()
    ensures states { (p : Program) (input : List ℤ) (n : ℕ) → IsWellFormed p → All IsWord input → HoldsWords (source p input n).memory }
    ensures steps { (p : Program) (input : List ℤ) (m : Memory) (k : ℕ) (exec : Exec) → IsWellFormed p → All IsWord input → slice_get p.execs k ≡ Some exec → HoldsWords m → IfGoes (outcome p.names input m exec.kind) (λ next new text. HoldsWords new) }
    ensures values { (names : List NameInfo) (store : List ℤ) (next : Option ℤ) (e : Expr) (z : ℤ) → All IsWord store → IsProper names e → value names store next e ≡ Ok z → IsWord z }
{}

/// Over a store of words, an executable that can't trap but in excepted subscripts, which have values within their bounds,
/// doesn't trap.
pub fn what_cannot_trap_does_not()
    ensures executables { (excepted : Expr → Dim → Bool) (names : List NameInfo) (input : List ℤ) (m : Memory) (kind : ExecKind) → All IsWord m.store → ((next : Option ℤ) (sub : Expr) (dim : Dim) → excepted sub dim ≡ true → IsInBounds dim (value names m.store next sub)) → (ExecMayTrapBut (λ sub dim. excepted sub dim ≡ true) names kind → ⊥) → DoesNotTrap (outcome names input m kind) }

    // One that can't trap doesn't.
    ensures words { (names : List NameInfo) (input : List ℤ) (m : Memory) (kind : ExecKind) → All IsWord m.store → (ExecMayTrap names kind → ⊥) → DoesNotTrap (outcome names input m kind) }

    // So it is at each step of a well-formed program over data of words.
    ensures runs { (p : Program) (input : List ℤ) (n : ℕ) (exec : Exec) → IsWellFormed p → All IsWord input → slice_get p.execs (source p input n).position ≡ Some exec → (ExecMayTrap p.names exec.kind → ⊥) → DoesNotTrap (outcome p.names input (source p input n).memory exec.kind) }
{}

/// What takes data can trap, at the end of the data.
pub fn what_takes_data_can_trap()
    ensures { (names : List NameInfo) (kind : ExecKind) → ExecReadsData kind → ExecMayTrap names kind }
{}

/// Statements are the executables of a program, in order. An executable that is no increment takes at most the operations
/// of its statement, and each takes at most the greatest number of the program.
pub fn statements_bound_operations()
    ensures parts { (execs : List Exec) → flat_map (λ statement. statement) (statements_of execs) ≡ execs }
    ensures statement { (statement : List Exec) (k : ℕ) (exec : Exec) → slice_get statement k ≡ Some exec → is_increment exec.kind ≡ false → exec_operations exec.kind ≤ statement_operations statement }
    ensures most { (p : Program) (k : ℕ) (exec : Exec) → slice_get p.execs k ≡ Some exec → exec_operations exec.kind ≤ most_operations p }
{}
