//! Units that are refused by themselves.
ghost use Rattle.std.specs.Prelude.{◌≡◌, ◌≢◌, ℕ, List, Some, slice_get, IfOk};
ghost use Rattle.f77_tree.specs.declared.statements.Labelled.{Labelled};
ghost use Rattle.layout_rules.specs.Faults.{first_answer};
ghost use Rattle.layout_rules.specs.Layout.{refusal};
ghost use Rattle.layout_rules.specs.Source.{IsSource};
ghost use Rattle.program_units.specs.Units.{standing_in as standing_in_of};
ghost use Rattle.program_units.specs.Refusals.{layout_end, layout_end_of};

use df_sequence::NoMemory;
use f77_layout::{LayoutEnd, assemble};
use f77_tree::Labelled;
use program_units::{Units, standing_in};
use std::alloc::Global;

/// Why the first unit that isn't a program by itself is none, with SUBROUTINE as PROGRAM, CALL as CONTINUE and RETURN as STOP.
///
/// # Errors
///
/// Where there is no memory.
pub fn first_refused(
    alloc: Global,
    us: &Units,
    checked: bool,
) -> Result<Option<LayoutEnd>, NoMemory>
    requires { (k : ℕ) (u : List Labelled) → slice_get us.now k ≡ Some u → IsSource (standing_in_of u) }
    ensures { IfOk result (λ end. layout_end_of end ≡ first_answer (λ u. layout_end u checked) us.now) }
{
    for k in 0..us.len() {
        if let Some(end) = refused(alloc, us.at(k), checked)? {
            return Ok(Some(end));
        }
    }
    Ok(None)
}

// Why a unit is no program by itself, if it is none.
fn refused(alloc: Global, unit: &[Labelled], checked: bool) -> Result<Option<LayoutEnd>, NoMemory>
    requires { IsSource (standing_in_of unit.now) }
    ensures { IfOk result (λ end. end ≡ refusal (standing_in_of unit.now) checked) }
{
    let list = standing_in(alloc, unit)?;
    match assemble(alloc, &list, checked) {
        Ok(_) => Ok(None),
        Err(end) => {
            let refusal = told(end)?;
            Ok(Some(refusal))
        }
    }
}

// The refusal, unless memory ended.
fn told(end: LayoutEnd) -> Result<LayoutEnd, NoMemory>
    ensures same { IfOk result (λ found. found ≡ end) }
    ensures other { IfOk result (λ found. end ≢ LayoutEnd.NoMemory) }
{
    match end {
        LayoutEnd::NoMemory => Err(NoMemory),
        _ => Ok(end),
    }
}
