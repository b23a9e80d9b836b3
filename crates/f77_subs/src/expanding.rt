//! The one program that the units of a text come to.
ghost use Rattle.std.specs.Prelude.{◌≡◌, ◌<◌, ◌≤◌, ◌≢◌, ◌^◌, ℕ, List, Ok, Err, false, length, slice_index_or, bytes_eq, IfOk, IfErr};
ghost use Rattle.closed_walks.specs.Graph.{edge_count};
ghost use Rattle.indexmap.specs.IndexMap.{get};
ghost use Rattle.layout_rules.specs.Faults.{first_answer};
ghost use Rattle.unit_checks.specs.CallGraph.{call_graph};
ghost use Rattle.program_units.specs.CallTable.{unit_named};
ghost use Rattle.program_units.specs.Expansion.{total_width, whole_list as whole_list_of};
ghost use Rattle.program_units.specs.Heights.{NoneCallsItself};
ghost use Rattle.program_units.specs.NamedEntities.{AreAllNamed};
ghost use Rattle.program_units.specs.Units.{AreFit, runs as runs_of};
ghost use Rattle.program_units.specs.Refusals.{expansion, has_great_name, list_unless, size_refusals};
ghost use Rattle.program_units.specs.Texts.{IsText};

use crate::form_refusals::form_refusal;
use crate::merging::Merging;
use crate::size_refusals::size_refusal;
use crate::whole_list::whole_list;
use df_sequence::NoMemory;
use entity_names::{NewNames, TextEntities};
use f77_tree::{Labelled, LabelledList, Name};
use indexmap::IndexMap;
use program_units::{SubEnd, Units, sub_index};
use std::alloc::Global;
use unit_checks::running;

/// The statements of one program in place of those of a text with subroutines: the main program with copies of the
/// subroutines in place of its CALLs, and behind its declarations those of the subroutines that run. Copied statements keep
/// their lines. It takes a time linear in the text and in the list.
///
/// # Errors
///
/// The first refusal in the order of `SubEnd`, with the lowest line that has it. NoMemory may come in place of any answer.
pub fn expand(alloc: Global, stmts: &LabelledList, checked: bool) -> Result<LabelledList, SubEnd>
    requires { IsText stmts.now }
    ensures accepted { IfOk result (λ list. expansion stmts.now checked ≡ Ok list) }
    ensures refused { IfErr result (λ end. end ≢ SubEnd.NoMemory → expansion stmts.now checked ≡ Err end) }
{
    let found = expanded(alloc, stmts.as_slice(), checked)?;
    found
}

// The list, or the first refusal.
fn expanded(
    alloc: Global,
    stmts: &[Labelled],
    checked: bool,
) -> Result<Result<LabelledList, SubEnd>, NoMemory>
    requires { IsText stmts.now }
    ensures { IfOk result (λ found. found ≡ expansion stmts.now checked) }
{
    let us = Units::of(alloc, stmts)?;
    let form = form_refusal(alloc, stmts, &us, checked)?;
    match form {
        Some(end) => Ok(Err(end)),
        None => {
            let text = TextEntities::of(alloc, &us)?;
            let found = of_units(alloc, &text)?;
            Ok(found)
        }
    }
}

// The list of units that nothing but their size refuses, or that refusal.
fn of_units(alloc: Global, text: &TextEntities) -> Result<Result<LabelledList, SubEnd>, NoMemory>
    requires units { length text.now.us.now < 2 ^ 31 }
    requires room { edge_count (call_graph text.now.us.now) < 2 ^ 31 }
    requires none { NoneCallsItself text.now.us.now }
    requires fit { AreFit text.now.us.now }
    requires named { AreAllNamed text.now.us.now }
    ensures { IfOk result (λ found. found ≡ list_unless (first_answer (λ r. r) (size_refusals text.now.us.now)) (whole_list_of text.now.us.now)) }
{
    let index = sub_index(alloc, text.us)?;
    let runs = running(alloc, text.us, &index)?;
    let size = size_refusal(alloc, text, &index, &runs)?;
    match size {
        Some(end) => Ok(Err(end)),
        None => {
            let list = list_of(alloc, text, &index, &runs)?;
            Ok(Ok(list))
        }
    }
}

// The list of units that nothing refuses. Those that run are marked.
fn list_of(
    alloc: Global,
    text: &TextEntities,
    index: &IndexMap<Name, usize>,
    runs: &[bool],
) -> Result<LabelledList, NoMemory>
    requires index { (name : List ℕ) → get bytes_eq index.now name ≡ unit_named text.now.us.now name }
    requires enough { length text.now.us.now < length runs.now }
    requires told { (k : ℕ) → k < length text.now.us.now → slice_index_or runs.now k false ≡ runs_of text.now.us.now k }
    requires none { NoneCallsItself text.now.us.now }
    requires fit { AreFit text.now.us.now }
    requires named { AreAllNamed text.now.us.now }
    requires small { has_great_name text.now.us.now ≡ false }
    requires few { total_width text.now.us.now ≤ 4000 }
    ensures { IfOk result (λ list. list ≡ whole_list_of text.now.us.now) }
{
    let new = NewNames::of(alloc, text)?;
    let put = Merging::of(alloc, &new, runs)?;
    let list = whole_list(alloc, text.us, index, &put)?;
    Ok(list)
}
