//! A law on the names of copies, as the contract of a function that does nothing.
ghost use Rattle.std.specs.Prelude.{List};
ghost use Rattle.f77_tree.specs.declared.statements.Labelled.{Labelled};
ghost use Rattle.copied_names.specs.CopiesNamed.{CopiesAreAsTold};

/// In each copy of a subroutine that is passed at most as many arguments as it has dummies, as a text that is accepted has it, a
/// name is changed to the name that is told here, and a dummy to the name of what the CALL passes at its place.
pub fn copies_have_these_names()
    ensures { (us : List (List Labelled)) → CopiesAreAsTold us }
{}
