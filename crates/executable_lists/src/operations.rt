//! How many operations the expressions of a statement take, counted without making them.

ghost use Rattle.std.specs.Prelude.{◌≡◌, ◌+◌, ◌-◌, ◌*◌, Bool, map, max, sum_by};
ghost use Rattle.f77_tree.specs.Operations.{operations, access_operations};
ghost use Rattle.control_structure.specs.Counted.{counted};
ghost use Rattle.layout_rules.specs.Resolved.{resolved, resolved_call, access_of};

use declared_names::{Function, is_array};
use f77_tree::{Name, RawExpr, RawList};
use symbol_table::Names;

/// The operations that an expression takes, over the table of names: as many in either dialect. A count that fits no `u32`
/// is the greatest `u32`.
#[cycle(counting)]
pub(crate) fn operations_of(names: &Names, e: &RawExpr) -> u32
    ensures { (checked : Bool) → result ≡ counted (operations (resolved names.now checked e.now)) }
{
    match e {
        RawExpr::Int(_) | RawExpr::Truth(_) => 0,
        RawExpr::Named(_) => 1,
        RawExpr::Call(name, args) => count_in_call(names, name, args),
        RawExpr::Apply(_, args) => count_in_row(names, args).saturating_add(1),
    }
}

// The operations of expressions, one after another.
#[cycle(counting)]
fn count_in_row(names: &Names, args: &RawList) -> u32
    ensures { (checked : Bool) → result ≡ counted (sum_by operations (map (resolved names.now checked) args.now)) }
{
    let mut count = 0_u32;
    for arg in args.as_slice() {
        count = count.saturating_add(operations_of(names, arg));
    }
    count
}

// The operations of an element of an array, or of an intrinsic function at its arguments.
#[cycle(counting)]
fn count_in_call(names: &Names, name: &Name, args: &RawList) -> u32
    ensures { (checked : Bool)
        → result ≡ counted (operations (resolved_call names.now checked name.now (map (resolved names.now checked) args.now))) }
{
    if is_array(names, name) {
        return count_in_row(names, args).saturating_add(access_steps(args.len()));
    }
    if Function::named(name.as_bytes()).is_none() {
        return 0;
    }
    count_in_row(names, args).saturating_add(applications(args.len()))
}

/// The operations of an access, of a variable or of an element of an array, counted likewise.
pub(crate) fn access_operations_of(names: &Names, e: &RawExpr) -> u32
    ensures { (checked : Bool) → result ≡ counted (access_operations (access_of names.now checked e.now)) }
{
    match e {
        RawExpr::Call(_, args) => count_in_row(names, args).saturating_add(access_steps(
            args.len(),
        )),
        _ => 1,
    }
}

// The operations of an access with so many subscripts besides those that they take.
fn access_steps(subscripts: u32) -> u32
    ensures { result ≡ counted (1 + 2 * subscripts) }
{
    subscripts.saturating_add(subscripts).saturating_add(1)
}

// How often the operator of an intrinsic function is applied to so many arguments, which are taken pair by pair.
fn applications(arguments: u32) -> u32
    ensures { result ≡ max 1 (arguments - 1) }
{
    if arguments < 2 { 1 } else { arguments - 1 }
}
