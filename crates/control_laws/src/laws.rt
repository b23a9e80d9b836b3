//! The law on executables, as the contract of a function that does nothing.

ghost use Rattle.control_laws.specs.Structured.{ControlLeadsWithinPrograms};

/// Where labels, loops and blocks have no fault, control leads from each executable to others of the program, and the DOs are
/// the loops of the executables.
pub fn control_leads_within_programs()
    ensures { ControlLeadsWithinPrograms }
{}
