ghost use Rattle.std.specs.Prelude.{◌≡◌, ◌++◌, OnOk, OnErr};
ghost use Rattle.f77_tree.specs.declared.expressions.Expr.TheVariants.{Read};
ghost use Rattle.f77_tree.specs.Kinds.{IsProperAccess};
ghost use Rattle.f77_expr.specs.Appending.{BeginsWith};
ghost use Rattle.f77_expr.specs.Printing.{printed_text};

use crate::print::print_element;
use df_sequence::NoMemory;
use f77_tree::{Access, Program};
use std::alloc::Global;

/// Appends the text of a scalar or of an array element, as it is printed where it is read: the target of an assignment, or a
/// variable that takes data (ANSI X3.9-1978, sections 10 and 12.8). Where there was no memory, a part of the text may have been
/// appended.
pub fn print_access(
    _alloc: Global,
    p: &Program,
    access: &Access,
    out: &mut Vec<u8>,
) -> Result<(), NoMemory>
    requires { IsProperAccess p.now.names access.now }
    ensures text { OnOk result (out.new.items ≡ out.old.items ++ printed_text p.now.names (Read access.now)) }
    ensures kept { OnErr result (BeginsWith out.new.items out.old.items) }
{
    print_element(access, &p.names, out)
}
