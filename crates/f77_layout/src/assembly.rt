ghost use Rattle.std.specs.Prelude.{◌≡◌, ◌≢◌, ◌≤◌, None, IfOk, IfErr, Ok, Err};
ghost use Rattle.std.specs.Result.{result_err};
ghost use Rattle.f77_tree.specs.Operations.{HasFewOperations};
ghost use Rattle.f77_tree.specs.WellFormed.{IsWellFormed};
ghost use Rattle.f77_layout.specs.Answers.{IsLaidAs};
ghost use Rattle.layout_rules.specs.Counts.{is_too_great};
ghost use Rattle.layout_rules.specs.Layout.{layout, program as program_of, names_of, placed_names as placed_names_of};
ghost use Rattle.layout_rules.specs.LowestLines.{lowest_line};
ghost use Rattle.layout_rules.specs.Source.{IsSource};
ghost use Rattle.f77_layout.specs.Stages.{AreStored, HasNames, HasWords, HasLabels, HasBlocks};
ghost use Rattle.layout_rules.specs.StorageLines.{storage_line};

use crate::collecting::{commons_of, count_loops, groups_of, inits_of, placed_names};
use crate::order::first_out_of_order;
use control_structure::{
    Blocks, Labels, Nesting, first_jump_into, first_labelled_twice, first_lacking_label, nesting_of,
};
use declared_names::{declared_names, first_wrong_type};
use df_sequence::NoMemory;
use executable_lists::{executables_of, lowest_too_great};
use f77_tree::{Labelled, LabelledList, Program};
use layout_rules::LayoutEnd;
use std::alloc::Global;
use storage_association::{Placing, WordNumbers, place_names};
use storage_checks::{initial_words, wrong_places_line, wrong_storage_line};
use symbol_table::Names;

/// More words of storage are refused.
const MOST_WORDS: u64 = 262_144;

/// The program that statements make, or the first refusal: its names with their places in storage, its words with what they
/// begin as, and its executables with where control goes from each. In the checked dialect arithmetic traps where a result
/// is no word.
///
/// # Errors
///
/// The refusals stand in the order of `LayoutEnd`, which says whose line each tells. NoMemory may come in place of any
/// answer.
pub fn assemble(alloc: Global, stmts: &LabelledList, checked: bool) -> Result<Program, LayoutEnd>
    requires source { IsSource stmts.now }
    ensures accepted { IfOk result (λ program. layout stmts.now checked ≡ Ok program) }
    ensures well_formed { IfOk result (λ program. IsWellFormed program) }
    ensures modest { IfOk result (λ program. HasFewOperations program) }
    ensures refused { IfErr result (λ end. end ≢ LayoutEnd.NoMemory → layout stmts.now checked ≡ Err end) }
{
    let stmts = stmts.as_slice();
    if let Some(line) = first_out_of_order(stmts) {
        return Err(LayoutEnd::OutOfOrder(line));
    }
    match declared_names(alloc, stmts)? {
        Err(line) => Err(LayoutEnd::RealName(line)),
        Ok(names) => with_names(alloc, stmts, &names, checked),
    }
}

// The program of statements whose names are these.
fn with_names(
    alloc: Global,
    stmts: &[Labelled],
    names: &Names,
    checked: bool,
) -> Result<Program, LayoutEnd>
    requires { HasNames stmts.now names.now }
    ensures { IsLaidAs (layout stmts.now checked) result }
{
    if let Some(line) = first_wrong_type(alloc, stmts, names)? {
        return Err(LayoutEnd::TypeWrong(line));
    }
    match numbers_of(alloc, stmts, names)? {
        Err(line) => Err(LayoutEnd::LayoutWrong(line)),
        Ok(numbers) => with_words(alloc, stmts, names, &numbers, checked),
    }
}

// The numbers of words, or the line of the first fault of storage.
fn numbers_of(
    alloc: Global,
    stmts: &[Labelled],
    names: &Names,
) -> Result<Result<WordNumbers, u32>, NoMemory>
    requires { HasNames stmts.now names.now }
    ensures faulty { IfOk result (λ found. result_err found ≡ storage_line (names_of stmts.now) (placed_names_of stmts.now) stmts.now) }
    ensures numbers { IfOk result (λ found. IfOk found (λ w. AreStored stmts.now w)) }
{
    match place_names(alloc, names, stmts)? {
        Placing::Wrong(line) => Ok(Err(wrong_places_line(alloc, stmts, names, line)?)),
        Placing::Right(storages) => {
            let numbers = storage_association::numbers_of(alloc, names, &storages)?;
            match wrong_storage_line(alloc, stmts, names, &numbers.places)? {
                Some(line) => Ok(Err(line)),
                None => Ok(Ok(numbers)),
            }
        }
    }
}

// The program of statements whose words are so numbered.
fn with_words(
    alloc: Global,
    stmts: &[Labelled],
    names: &Names,
    numbers: &WordNumbers,
    checked: bool,
) -> Result<Program, LayoutEnd>
    requires { HasWords stmts.now names.now numbers.now }
    ensures { IsLaidAs (layout stmts.now checked) result }
{
    let labels = Labels::of(alloc, stmts)?;
    if let Some(line) = first_labelled_twice(stmts, &labels) {
        return Err(LayoutEnd::LabelTwice(line));
    }
    if let Some(line) = first_lacking_label(stmts, &labels) {
        return Err(LayoutEnd::LabelMissing(line));
    }
    with_labels(alloc, stmts, names, numbers, labels, checked)
}

// The program of statements whose labels have these places.
fn with_labels(
    alloc: Global,
    stmts: &[Labelled],
    names: &Names,
    numbers: &WordNumbers,
    labels: Labels,
    checked: bool,
) -> Result<Program, LayoutEnd>
    requires { HasLabels stmts.now names.now numbers.now labels }
    ensures { IsLaidAs (layout stmts.now checked) result }
{
    let heads = match nesting_of(alloc, stmts)? {
        Nesting::Nested(heads) => heads,
        Nesting::Unnested(line) => return Err(LayoutEnd::BadNesting(line)),
    };
    let blocks = Blocks::of(alloc, stmts)?;
    if let Some(line) = first_jump_into(stmts, &labels, &blocks, &heads) {
        return Err(LayoutEnd::JumpInto(line));
    }
    with_blocks(alloc, stmts, names, numbers, labels, blocks, checked)
}

// The program of statements whose loops and blocks are nested.
fn with_blocks(
    alloc: Global,
    stmts: &[Labelled],
    names: &Names,
    numbers: &WordNumbers,
    labels: Labels,
    blocks: Blocks,
    checked: bool,
) -> Result<Program, LayoutEnd>
    requires { HasBlocks stmts.now names.now numbers.now labels blocks }
    ensures { IsLaidAs (layout stmts.now checked) result }
{
    if numbers.words > MOST_WORDS {
        return Err(LayoutEnd::TooManyWords(stmts[stmts.len() - 1].line));
    }
    if let Some(line) = lowest_too_great(names, stmts) {
        return Err(LayoutEnd::TooManyOps(line));
    }
    let program = made(alloc, stmts, names, numbers, labels, blocks, checked)?;
    Ok(program)
}

// The program of statements that have no refusal.
fn made(
    alloc: Global,
    stmts: &[Labelled],
    names: &Names,
    numbers: &WordNumbers,
    labels: Labels,
    blocks: Blocks,
    checked: bool,
) -> Result<Program, NoMemory>
    requires blocks { HasBlocks stmts.now names.now numbers.now labels blocks }
    requires few { numbers.now.words ≤ 262144 }
    requires modest { lowest_line (is_too_great (names_of stmts.now) checked stmts.now) stmts.now ≡ None }
    ensures { IfOk result (λ program. program ≡ program_of stmts.now checked) }
{
    let inits = inits_of(alloc, stmts)?;
    let words = numbers.words as u32;
    Ok(Program {
        names: placed_names(alloc, names, &numbers.places)?,
        words,
        initial: initial_words(alloc, names, &numbers.places, inits.as_slice(), words)?,
        commons: commons_of(alloc, stmts)?,
        groups: groups_of(alloc, stmts)?,
        inits,
        execs: executables_of(alloc, names, checked, stmts, labels, blocks)?,
        loops: count_loops(stmts),
    })
}
