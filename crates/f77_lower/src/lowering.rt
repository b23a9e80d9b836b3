//! From the text of a program to the text of the same program in the language of `dfc`.

ghost use Rattle.std.specs.Prelude.{◌≡◌, ◌<◌, ◌≤◌, length, IfOk, IfErr, OnOk};
ghost use Rattle.f77_lower.specs.Lowering.{IsAsItWas, IsProgram, IsLineMap, line_feeds as line_feeds_in, number_of_lines as lines_in};
ghost use Rattle.fortran_tree.specs.declared.error.LowerError.TheVariants.{NoMemory};

use crate::language::{MOST_BYTES, refuse_no_program};
use crate::shorten::short_names;
use call_rules::{Program, with_bounds};
use f77_source::{SourceEnd, read_program};
use fortran_tree::{
    LowerError, Name, Names, Place, Printer, Reason, Rule, Statement, read_statements,
};
use function_rules::{signatures_of, without_block_data};
use indexmap::IndexMap;
use std::alloc::Global;
use unit_rules::{
    in_order, refuse_late_declarations, with_constants, with_data, with_labelled_loops,
};
use unit_tables::{Growth, MOST_STATEMENTS, Symbols, Unit, main_first, units_of};

/// A lowered program.
#[derive(Drop)]
pub struct Lowered {
    /// The program, as a text in fixed form that `f77_source` reads.
    pub text: Vec<u8>,
    /// For each line of the text the line of the source that it comes from, counted from 1, and one more for the end of the text.
    pub lines: Vec<u32>,
    /// The names of the source that had to be shortened, each with its short name.
    pub renamed: Vec<(String, String)>,
}

/// A unit, lowered by the rules that look at one unit alone.
fn lowered_alone(
    alloc: Global,
    names: &Names,
    growth: &mut Growth,
    unit: Unit,
) -> Result<Unit, LowerError> {
    let place = unit.place();
    let Unit { statements } = unit;
    refuse_late_declarations(&statements)?;
    let count = statements.len();
    let statements = with_labelled_loops(alloc, statements)?;
    growth.add(Rule::Loops, statements.len().saturating_sub(count), place)?;
    let statements = with_constants(alloc, names, statements)?;
    let symbols = Symbols::of(alloc, names, &statements)?;
    let mut written = Vec::new(alloc);
    for statement in statements {
        written.push(with_data(alloc, &symbols, statement)?)?;
    }
    Ok(Unit {
        statements: written,
    })
}

/// The names that are spelled otherwise than in the source.
fn renamed(
    alloc: Global,
    names: &Names,
    shorts: IndexMap<Name, String>,
) -> Result<Vec<(String, String)>, LowerError> {
    let mut pairs = Vec::new(alloc);
    for (name, short) in shorts {
        pairs.push((String::from_str(alloc, names.spelling(name))?, short))?;
    }
    Ok(pairs)
}

/// The units of a text, lowered by the rules that look at one unit alone, the main program first.
fn units_alone(
    alloc: Global,
    names: &mut Names,
    text: &[u8],
) -> Result<(Growth, Vec<Unit>), LowerError> {
    let statements = read_statements(alloc, names, text)?;
    let mut growth = Growth::of(statements.len());
    let mut units = Vec::new(alloc);
    for unit in main_first(alloc, units_of(alloc, statements)?)? {
        units.push(lowered_alone(alloc, names, &mut growth, unit)?)?;
    }
    Ok((growth, units))
}

/// How many statements units have.
fn number_of_statements(units: &[Unit]) -> usize {
    let mut count = 0usize;
    for unit in units {
        count = count.saturating_add(unit.statements.len());
    }
    count
}

/// The units without BLOCK DATA, whose values the main program has now.
fn without_blocks(
    alloc: Global,
    names: &mut Names,
    next_name: &mut u32,
    growth: &mut Growth,
    units: Vec<Unit>,
) -> Result<Vec<Unit>, LowerError> {
    let count = number_of_statements(&units);
    let units = without_block_data(alloc, names, next_name, units)?;
    let more = number_of_statements(&units).saturating_sub(count);
    let place = units
        .first()
        .map_or(Place { line: 1, column: 1 }, |unit| unit.place());
    growth.add(Rule::BlockData, more, place)?;
    Ok(units)
}

/// The statements of units, those of each in the order of the standard.
fn statements_of(alloc: Global, units: Vec<Unit>) -> Result<Vec<Statement>, LowerError> {
    let mut all: Vec<Statement> = Vec::new(alloc);
    for unit in units {
        let Unit { statements } = unit;
        all.append(&mut in_order(alloc, statements)?)?;
    }
    Ok(all)
}

/// The program, and its units, where each function is a subroutine and each argument a name.
fn called(program: Program, units: Vec<Unit>) -> Result<(Program, Vec<Unit>), LowerError> {
    let mut program = program;
    let mut called = Vec::new(program.alloc);
    for unit in units {
        let (next, lowered) = program.with_subroutines(unit)?;
        program = next;
        called.push(lowered)?;
    }
    Ok((program, called))
}

/// Refuses a program of more than 4,000 statements, where the first one beyond stands.
fn refuse_many(growth: Growth, statements: &[Statement]) -> Result<(), LowerError>
    ensures few { OnOk result (length statements.now ≤ MOST_STATEMENTS) }
    ensures many { IfErr result (λ _. MOST_STATEMENTS < length statements.now) }
{
    if statements.len() > MOST_STATEMENTS {
        return Err(statements[MOST_STATEMENTS].place.refused(growth.reason()));
    }
    Ok(())
}

/// The statements of the lowered program, in which units may be copied.
fn lowered_statements(program: &mut Program, units: Vec<Unit>) -> Result<Vec<Statement>, LowerError>
    ensures { IfOk result (λ lowered. length lowered.items ≤ MOST_STATEMENTS) }
{
    let lowered = statements_of(program.alloc, with_bounds(program, units)?)?;
    refuse_many(program.growth, &lowered)?;
    Ok(lowered)
}

/// How many line feeds a text has.
fn line_feeds(text: &[u8]) -> usize
    ensures { result ≡ line_feeds_in text.now }
{
    text.iter().filter(|byte| **byte == b'\n').count()
}

/// How many lines a text has: those that line feeds end, and what follows the last line feed.
#[tactic(auto, using(crate::proofs::Lines::few_lines))]
fn number_of_lines(text: &[u8]) -> usize
    ensures { result ≡ lines_in text.now }
{
    line_feeds(text) + 1
}

/// A program as it is.
#[tactic(auto, using(crate::proofs::Lines::few_lines, crate::proofs::Readings::same_program))]
fn as_it_is(alloc: Global, source: &[u8]) -> Result<Lowered, LowerError>
    requires few { length source.now ≤ MOST_BYTES }
    requires program { IsProgram source.now }
    ensures program { IfOk result (λ lowered. IsProgram lowered.text.items) }
    ensures same { IfOk result (IsAsItWas source.now) }
    ensures lines { IfOk result (λ lowered. IsLineMap source.now lowered.text.items lowered.lines.items) }
    ensures refused { IfErr result (λ e. e ≡ NoMemory) }
{
    let mut lines = Vec::new(alloc);
    for number in 0..number_of_lines(source) {
        lines.push(number as u32 + 1)?;
    }
    Ok(Lowered {
        text: Vec::from_slice(alloc, source)?,
        lines,
        renamed: Vec::new(alloc),
    })
}

/// The line of a source of so many lines, at least one, at which a place stands; the last one for no place.
fn line_within(place: Option<&Place>, most: u32) -> u32
    requires { 1 ≤ most }
    ensures low { 1 ≤ result }
    ensures high { result ≤ most }
{
    match place {
        Some(place) => place.line.max(1).min(most),
        None => most,
    }
}

/// For each line of a text, of which the statements have these places, its line in the source.
#[tactic(auto, using(crate::proofs::Lines::few_lines))]
fn line_map(
    alloc: Global,
    source: &[u8],
    text: &[u8],
    places: &[Place],
) -> Result<Vec<u32>, LowerError>
    requires { length source.now ≤ MOST_BYTES }
    ensures { IfOk result (λ lines. IsLineMap source.now text.now lines.items) }
{
    let most = number_of_lines(source) as u32;
    let mut lines = Vec::new(alloc);
    for number in 0..number_of_lines(text) {
        lines.push(line_within(places.get(number), most))?;
    }
    Ok(lines)
}

/// The text of statements, and the place of the statement of each of its lines.
fn printed(
    alloc: Global,
    names: &Names,
    shorts: &IndexMap<Name, String>,
    statements: &[Statement],
) -> Result<(Vec<u8>, Vec<Place>), LowerError> {
    let mut printer = Printer::new(alloc);
    for statement in statements {
        printer.print(alloc, names, shorts, statement)?;
    }
    let (text, places) = printer.finish();
    Ok((text.into_bytes(), places))
}

/// The program of lowered statements.
fn written(
    alloc: Global,
    source: &[u8],
    names: &Names,
    statements: &[Statement],
) -> Result<Lowered, LowerError>
    requires { length source.now ≤ MOST_BYTES }
    ensures program { IfOk result (λ lowered. IsProgram lowered.text.items) }
    ensures lines { IfOk result (λ lowered. IsLineMap source.now lowered.text.items lowered.lines.items) }
{
    let shorts = short_names(alloc, names, statements)?;
    let (text, places) = printed(alloc, names, &shorts, statements)?;
    refuse_no_program(alloc, &text, &places)?;
    let lines = line_map(alloc, source, &text, &places)?;
    let renamed = renamed(alloc, names, shorts)?;
    Ok(Lowered {
        text,
        lines,
        renamed,
    })
}

/// A program whose units are lowered by the rules that look at one unit alone, and by that of BLOCK DATA.
fn begun(alloc: Global, source: &[u8]) -> Result<(Program, Vec<Unit>), LowerError> {
    let mut names = Names::new(alloc);
    let mut next_name = 1;
    let (mut growth, units) = units_alone(alloc, &mut names, source)?;
    let units = without_blocks(alloc, &mut names, &mut next_name, &mut growth, units)?;
    let signatures = signatures_of(alloc, &names, &units)?;
    let program = Program {
        alloc,
        names,
        next_name,
        signatures,
        growth,
        constants: IndexMap::new(alloc),
    };
    Ok((program, units))
}

/// A text that is no program yet, lowered by the rules.
fn by_rules(alloc: Global, source: &[u8]) -> Result<Lowered, LowerError>
    requires { length source.now ≤ MOST_BYTES }
    ensures program { IfOk result (λ lowered. IsProgram lowered.text.items) }
    ensures lines { IfOk result (λ lowered. IsLineMap source.now lowered.text.items lowered.lines.items) }
{
    let (program, units) = begun(alloc, source)?;
    let (mut program, units) = called(program, units)?;
    let statements = lowered_statements(&mut program, units)?;
    written(alloc, source, &program.names, &statements)
}

/// The program of a text of everyday integer Fortran 77, in the language of `dfc`. What comes out is a program of that language, and a text
/// that is one already comes out as it is, each line from itself. `source` may have any bytes, at most 4,194,304 of them.
///
/// # Errors
///
/// Refused where a statement of the text can't be lowered, or where what it became is no program of the language, with the place in the
/// source and a reason; NoMemory where there was no memory.
#[tactic(auto, using(crate::proofs::Readings::program_of, crate::proofs::Readings::no_program))]
pub fn lower(alloc: Global, source: &[u8]) -> Result<Lowered, LowerError>
    ensures program { IfOk result (λ lowered. IsProgram lowered.text.items) }
    ensures same { IsProgram source.now → IfOk result (IsAsItWas source.now) }
    ensures refused { IsProgram source.now → length source.now ≤ MOST_BYTES → IfErr result (λ e. e ≡ NoMemory) }
    ensures lines { IfOk result (λ lowered. IsLineMap source.now lowered.text.items lowered.lines.items) }
{
    if source.len() > MOST_BYTES {
        let reason = Reason::Language("a text of more than 4,194,304 bytes");
        return Err(Place { line: 1, column: 1 }.refused(reason));
    }
    match read_program(alloc, source, false) {
        Ok(_) => as_it_is(alloc, source),
        Err(SourceEnd::NoMemory) => Err(LowerError::NoMemory),
        Err(SourceEnd::Refused(_)) => by_rules(alloc, source),
    }
}
