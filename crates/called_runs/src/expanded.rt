//! The law on texts whose expansion is laid out, as the contract of a function that does nothing.

ghost use Rattle.std.specs.Prelude.{◌≡◌, Bool, List, Ok};
ghost use Rattle.f77_tree.specs.declared.programs.Program.{Program};
ghost use Rattle.f77_tree.specs.declared.statements.Labelled.{Labelled};
ghost use Rattle.layout_rules.specs.Layout.{layout};
ghost use Rattle.layout_rules.specs.Source.{IsSource};
ghost use Rattle.program_units.specs.Refusals.{expansion};
ghost use Rattle.program_units.specs.Texts.{IsText};
ghost use Rattle.called_runs.specs.Expanded.{IsExpanded};

/// A text that expands to a list which can be laid out, and is then this program, is expanded to the program: nothing refuses its
/// units, and the list is the one that is defined.
pub fn laid_expansions_are_expanded()
    ensures { (stmts list : List Labelled) (checked : Bool) (p : Program) → IsText stmts
        → expansion stmts checked ≡ Ok list
        → IsSource list
        → layout list checked ≡ Ok p
        → IsExpanded stmts checked p }
{}
