//! Refusals of units but for those that speak of the size of the expansion.
ghost use Rattle.std.specs.Prelude.{◌≡◌, ◌≤◌, length, IfOk};
ghost use Rattle.layout_rules.specs.Faults.{first_answer};
ghost use Rattle.program_units.specs.Units.{units};
ghost use Rattle.program_units.specs.Refusals.{AreSubNames, call_refusals, form_refusals};
ghost use Rattle.program_units.specs.Texts.{IsText};

use df_sequence::NoMemory;
use f77_tree::Labelled;
use program_units::{
    SubEnd, SubNames, Units, first_lacking_sub, first_out_of_unit, sub_index, sub_names,
};
use std::alloc::Global;
use unit_checks::{first_bad_block, first_bad_call, first_recursion, first_refused};

/// The first refusal of these units, but for those that speak of the size of the expansion. Beside the units' layouts, it
/// takes a time linear in the statements.
pub fn form_refusal(
    alloc: Global,
    stmts: &[Labelled],
    us: &Units,
    checked: bool,
) -> Result<Option<SubEnd>, NoMemory>
    requires text { IsText stmts.now }
    requires units { us.now ≡ units stmts.now }
    ensures { IfOk result (λ end. end ≡ first_answer (λ r. r) (form_refusals stmts.now us.now checked)) }
{
    if let Some(line) = first_out_of_unit(stmts) {
        return Ok(Some(SubEnd::UnitOrder(line)));
    }
    if let Some(end) = first_refused(alloc, us, checked)? {
        return Ok(Some(SubEnd::Layout(end)));
    }
    match sub_names(alloc, stmts)? {
        Err(line) => Ok(Some(SubEnd::SubTwice(line))),
        Ok(names) => call_refusal(alloc, stmts, us, &names),
    }
}

// The first refusal that speaks of CALLs or blocks.
fn call_refusal(
    alloc: Global,
    stmts: &[Labelled],
    us: &Units,
    names: &SubNames,
) -> Result<Option<SubEnd>, NoMemory>
    requires few { length stmts.now ≤ 4000 }
    requires units { us.now ≡ units stmts.now }
    requires names { AreSubNames stmts.now names.now }
    ensures { IfOk result (λ end. end ≡ first_answer (λ r. r) (call_refusals stmts.now us.now)) }
{
    if let Some(line) = first_lacking_sub(stmts, names) {
        return Ok(Some(SubEnd::NoSub(line)));
    }
    let index = sub_index(alloc, us)?;
    if let Some(line) = first_bad_call(alloc, stmts, us, &index)? {
        return Ok(Some(SubEnd::BadCall(line)));
    }
    if let Some(line) = first_bad_block(alloc, us)? {
        return Ok(Some(SubEnd::BadBlock(line)));
    }
    match first_recursion(alloc, us, &index)? {
        Some(line) => Ok(Some(SubEnd::Recursion(line))),
        None => Ok(None),
    }
}
