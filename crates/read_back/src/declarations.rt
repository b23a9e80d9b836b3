//! The declarations and the loops of printed programs.

ghost use Rattle.std.specs.Prelude.{◌≡◌, List, filter, length};
ghost use Rattle.f77_tree.specs.declared.programs.Program.{Program};
ghost use Rattle.layout_rules.specs.Declarations.{all_groups, all_inits};
ghost use Rattle.layout_rules.specs.Executables.{is_do};
ghost use Rattle.flat_programs.specs.declared.statements.FlatLine.{FlatLine};
ghost use Rattle.flat_programs.specs.Marks.{loop_count};
ghost use Rattle.read_back.specs.PrintedStatements.{CanBeText};
ghost use Rattle.read_back.specs.SourceStatements.{statements_read};

/// EQUIVALENCE and DATA of the statements that a printed program is read as are those of the program, in its order (ANSI X3.9-1978,
/// sections 8.2 and 9).
pub fn printed_groups_and_data_are_read_again()
    ensures groups { (q : Program) (flat : List FlatLine) → CanBeText q flat → all_groups (statements_read q flat) ≡ q.groups }
    ensures inits { (q : Program) (flat : List FlatLine) → CanBeText q flat → all_inits (statements_read q flat) ≡ q.inits }
{}

/// The statements that a printed program is read as have as many DOs as its flat statements (ANSI X3.9-1978, section 11.10).
pub fn printed_loops_are_read_again()
    ensures { (q : Program) (flat : List FlatLine) → length (filter (λ s. is_do s.stmt) (statements_read q flat)) ≡ loop_count flat }
{}
