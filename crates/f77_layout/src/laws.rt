//! Laws on the executables that statements make, as contracts of functions that do nothing.

ghost use Rattle.std.specs.Prelude.{◌≡◌, ◌≤◌, ◌||◌, Bool, true, false, ℕ, List, Ok, Some, None, slice_get};
ghost use Rattle.f77_tree.specs.declared.programs.NameInfo.{NameInfo};
ghost use Rattle.f77_tree.specs.declared.programs.Program.{Program};
ghost use Rattle.f77_tree.specs.declared.statements.Labelled.{Labelled};
ghost use Rattle.f77_tree.specs.declared.statements.Stmt.{Stmt};
ghost use Rattle.f77_tree.specs.declared.statements.Stmt.TheVariants.{End};
ghost use Rattle.f77_tree.specs.Operations.{HasFewOperations};
ghost use Rattle.f77_tree.specs.StatementGrammar.{IsGiven, is_of_subroutines};
ghost use Rattle.f77_tree.specs.WellFormed.{IsWellFormed};
ghost use Rattle.layout_rules.specs.Counts.{asks_too_much, is_too_great};
ghost use Rattle.f77_layout.specs.Depths.{blocks_open};
ghost use Rattle.layout_rules.specs.Faults.{first_line};
ghost use Rattle.layout_rules.specs.Jumps.{is_end_if};
ghost use Rattle.layout_rules.specs.Labels.{is_arm};
ghost use Rattle.layout_rules.specs.Layout.{layout};
ghost use Rattle.f77_layout.specs.Laid.{IncrementsStand, IsLaid, LabelsLead, OwnStand, SharesWhereLinked};
ghost use Rattle.layout_rules.specs.LowestLines.{lowest_line, LinesRise};
ghost use Rattle.layout_rules.specs.Order.{is_out_of_order};
ghost use Rattle.layout_rules.specs.Source.{IsSource};
ghost use Rattle.layout_rules.specs.StatementTrees.{IsTree};
ghost use Rattle.layout_rules.specs.StorageFaults.{has_wrong_storage};
ghost use Rattle.layout_rules.specs.StorageLines.{storage_line};

/// The executables of a program are those of its statements, in the order of the text and each with its statement's line:
/// first the statement's own, then the increments of the DO loops that end at it.
pub fn executables_stand_in_order()
    ensures own { (stmts : List Labelled) (checked : Bool) (p : Program) → IsLaid stmts checked p → OwnStand stmts checked p.execs }
    ensures increments { (stmts : List Labelled) (checked : Bool) (p : Program) → IsLaid stmts checked p → IncrementsStand stmts p.execs }
{}

/// A label that a statement of a program uses leads to the first executable of the statement that bears it, and one
/// statement alone has the label.
pub fn labels_lead_to_their_statements()
    ensures { (stmts : List Labelled) (checked : Bool) (p : Program) → IsLaid stmts checked p → LabelsLead stmts p.execs }
{}

/// Statements that have no refusal make a well-formed program, no executable of which takes more than 500 operations.
pub fn programs_are_well_formed()
    ensures well_formed { (stmts : List Labelled) (checked : Bool) (p : Program) → IsSource stmts → layout stmts checked ≡ Ok p → IsWellFormed p }
    ensures modest { (stmts : List Labelled) (checked : Bool) (p : Program) → IsSource stmts → layout stmts checked ≡ Ok p → HasFewOperations p }
{}

/// A block of IF is open at each ELSE IF, ELSE and END IF, and none is open at END.
pub fn blocks_are_nested()
    ensures within { (stmts : List Labelled) (checked : Bool) (p : Program) → layout stmts checked ≡ Ok p → (i : ℕ) (s : Labelled)
        → slice_get stmts i ≡ Some s → (is_arm s.stmt || is_end_if s.stmt) ≡ true → 1 ≤ blocks_open stmts i }
    ensures closed { (stmts : List Labelled) (checked : Bool) (p : Program) → layout stmts checked ≡ Ok p → (i : ℕ) (s : Labelled)
        → slice_get stmts i ≡ Some s → s.stmt ≡ End → blocks_open stmts i ≡ 0 }
{}

/// Two names of a program have a word in common only where equations of COMMON and EQUIVALENCE link them.
pub fn names_that_share_words_are_linked()
    ensures { (stmts : List Labelled) (checked : Bool) (p : Program) → IsLaid stmts checked p → SharesWhereLinked p }
{}

/// A statement that is read from a text is a tree that can be laid out, where it is none of subroutines.
pub fn given_statements_are_trees()
    ensures { (stmt : Stmt) → IsGiven stmt → is_of_subroutines stmt ≡ false → IsTree stmt }
{}

/// Where lines rise and statements stand in order, the line that is told of a fault of storage is that of the first statement
/// with one. Where lines rise, so is that of a statement that asks too much.
pub fn told_lines_are_first()
    ensures storage { (names placed : List NameInfo) (stmts : List Labelled) → LinesRise stmts → first_line is_out_of_order stmts ≡ None
        → storage_line names placed stmts ≡ first_line (has_wrong_storage names placed stmts) stmts }
    ensures counts { (names : List NameInfo) (checked : Bool) (stmts : List Labelled) → LinesRise stmts
        → lowest_line (is_too_great names checked stmts) stmts ≡ first_line (asks_too_much names checked stmts) stmts }
{}

/// Where lines rise, the first statement with a fault has the lowest line of those that have it.
pub fn first_faults_are_lowest()
    ensures { (fault : List Labelled → Labelled → Bool) (stmts : List Labelled) → LinesRise stmts → lowest_line fault stmts ≡ first_line fault stmts }
{}
