//! Programs as they are read.

ghost use Rattle.printed_laws.specs.ShortProgram.{IsShortProgram};

use crate::numbers::stays_short;
use f77_tree::Program;

/// Each program that is read has names that are counted in 32 bits, and so are the lines of its executables.
pub fn programs_are_short(program: &Program)
    ensures { IsShortProgram program.now }
{
    let _names = program.names.len();
    for k in 0..program.execs.len() {
        stays_short(program.execs.at(k).line);
    }
}
