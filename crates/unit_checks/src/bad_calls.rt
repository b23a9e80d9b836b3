//! CALLs whose arguments aren't as the dummies of the subroutine are, and dummies that stand where they can't.
ghost use Rattle.std.specs.Prelude.{◌≡◌, ◌+◌, ◌<◌, ◌≤◌, ◌||◌, ℕ, List, true, length, bytes_eq, if◌then◌else◌, IfOk};
ghost use Rattle.indexmap.specs.IndexMap.{get};
ghost use Rattle.layout_rules.specs.Faults.{first_line};
ghost use Rattle.program_units.specs.Units.{call_by, call_in, is_end as is_end_of, unit_at, units};
ghost use Rattle.program_units.specs.CallTable.{unit_named};
ghost use Rattle.program_units.specs.Refusals.{calls_wrongly, has_bad_call, has_wrong_dummy as has_wrong_dummy_of};
ghost use Rattle.unit_checks.specs.Interfaces.{AreInterfaces, IsInterfaceOf};

use crate::dummies::has_wrong_dummy;
use crate::unit_interface::UnitInterface;
use df_sequence::NoMemory;
use f77_tree::{Labelled, Name, Stmt};
use indexmap::IndexMap;
use program_units::{Units, inner_of, is_end, unit_of};
use std::alloc::Global;

/// The line of the first statement whose CALL has arguments that aren't as the dummies of the subroutine are, or that has
/// a dummy twice, or one that its unit has in COMMON, EQUIVALENCE or DATA. It takes a time linear in the statements.
///
/// # Errors
///
/// Where there is no memory.
pub fn first_bad_call(
    alloc: Global,
    stmts: &[Labelled],
    us: &Units,
    index: &IndexMap<Name, usize>,
) -> Result<Option<u32>, NoMemory>
    requires units { us.now ≡ units stmts.now }
    requires index { (name : List ℕ) → get bytes_eq index.now name ≡ unit_named us.now name }
    ensures { IfOk result (λ line. line ≡ first_line (has_bad_call us.now) stmts.now) }
{
    let interfaces = unit_interfaces(alloc, us)?;
    let mut k = 0;
    for s in stmts {
        let bad = is_bad(alloc, us, index, &interfaces, k, &s.stmt)?;
        if bad {
            return Ok(Some(s.line));
        }
        k = unit_after(k, us.len(), &s.stmt);
    }
    Ok(None)
}

// What is asked of each unit, and, last, of one without statements.
fn unit_interfaces(alloc: Global, us: &Units) -> Result<Vec<UnitInterface>, NoMemory>
    ensures { IfOk result (λ interfaces. AreInterfaces us.now interfaces.items) }
{
    let mut interfaces = Vec::new(alloc);
    for k in 0..us.len() {
        interfaces.push(UnitInterface::of(alloc, us.at(k))?)?;
    }
    interfaces.push(UnitInterface::of(alloc, &[])?)?;
    Ok(interfaces)
}

// The unit of the statement behind this one, which stands in the unit k of so many.
fn unit_after(k: usize, count: usize, stmt: &Stmt) -> usize
    requires { is_end_of stmt.now ≡ true → k < count }
    ensures { result ≡ (if is_end_of stmt.now then k + 1 else k) }
{
    if is_end(stmt) { k + 1 } else { k }
}

// Whether a statement of the unit k has a wrong CALL or a wrong dummy.
fn is_bad(
    alloc: Global,
    us: &Units,
    index: &IndexMap<Name, usize>,
    interfaces: &[UnitInterface],
    k: usize,
    stmt: &Stmt,
) -> Result<bool, NoMemory>
    requires index { (name : List ℕ) → get bytes_eq index.now name ≡ unit_named us.now name }
    requires interfaces { AreInterfaces us.now interfaces.now }
    requires unit { k ≤ length us.now }
    ensures { IfOk result (λ bad. bad ≡ (calls_wrongly us.now k (call_in stmt.now) || has_wrong_dummy_of (unit_at us.now k) stmt.now)) }
{
    let wrong = is_wrong_call(us, index, interfaces, k, inner_of(stmt));
    if wrong {
        return Ok(true);
    }
    has_wrong_dummy(alloc, &interface_at(us, interfaces, k).storage, stmt)
}

// Whether a statement of the unit k is a CALL with wrong arguments.
fn is_wrong_call(
    us: &Units,
    index: &IndexMap<Name, usize>,
    interfaces: &[UnitInterface],
    k: usize,
    stmt: &Stmt,
) -> bool
    requires index { (name : List ℕ) → get bytes_eq index.now name ≡ unit_named us.now name }
    requires interfaces { AreInterfaces us.now interfaces.now }
    requires unit { k ≤ length us.now }
    ensures { result ≡ calls_wrongly us.now k (call_by stmt.now) }
{
    match stmt {
        Stmt::CallTo(name, arguments) => {
            let callee = interface_at(us, interfaces, unit_of(us, index, name));
            interface_at(us, interfaces, k).calls_wrongly(callee, arguments.as_slice())
        }
        _ => false,
    }
}

fn interface_at<'a>(us: &Units, interfaces: &'a [UnitInterface], k: usize) -> &'a UnitInterface
    requires interfaces { AreInterfaces us.now interfaces.now }
    requires unit { k ≤ length us.now }
    ensures { IsInterfaceOf (unit_at us.now k) result.now }
{
    &interfaces[k]
}
