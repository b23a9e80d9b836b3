ghost use Rattle.std.specs.Prelude.{◌≡◌, ◌<◌, ◌+◌, ◌^◌, nat_lt, length, IfOk, Ok, Err};
ghost use Rattle.fixed_form.specs.Limits.{AreWithinForm};
ghost use Rattle.f77_tree.specs.Operations.{HasFewOperations};
ghost use Rattle.f77_tree.specs.WellFormed.{IsWellFormed};
ghost use Rattle.alias_classes.specs.Number.{HasFewClasses, number_of_classes};
ghost use Rattle.layout_rules.specs.Layout.{layout, last_line};
ghost use Rattle.layout_rules.specs.Source.{IsSource};
ghost use Rattle.program_units.specs.Texts.{IsText};
ghost use Rattle.f77_source.specs.Accepted.{IsAccepted};
ghost use Rattle.f77_source.specs.Answers.{IsReadAs, told_form, told_stmt, told_sub, told_layout};
ghost use Rattle.f77_source.specs.Reading.{IsProgramFrom, IsProgramOf, reading, statements_of, statements_read, most_classes, program_of as program_of_statements, program_from as program_from_list};

use crate::listed::listed;
use crate::{Code, Refusal, SourceEnd};
use alias_classes::{CLASS_WORDS, ClassEnd, classes_are_counted, classes_of};
use df_sequence::{NoMemory, Sequence};
use f77_layout::{LayoutEnd, assemble};
use f77_parse::{StmtEnd, one_statement, parse_stmt};
use f77_tree::{LabelledList, Program};
use fixed_form::{FormEnd, RawStmtList, statements};
use program_units::SubEnd;
use std::alloc::Global;

/// The program that a source text is: of one unit, or of several by their expansion. In the checked dialect arithmetic traps
/// where a result is no word.
///
/// There are fewer than 2^32 - 1 bytes.
///
/// # Errors
///
/// Refused, with the first refusal in the order of `Code` and its line. NoMemory may come in place of any answer.
pub fn read_program(alloc: Global, bytes: &[u8], checked: bool) -> Result<Program, SourceEnd>
    requires { length bytes.now + 1 < 2 ^ 32 }
    ensures read { IsReadAs (reading bytes.now checked) result }
    ensures statements { IfOk result (IsProgramOf bytes.now checked) }
    ensures well_formed { IfOk result (λ program. IsWellFormed program) }
    ensures modest { IfOk result (λ program. HasFewOperations program) }
    ensures few { IfOk result (λ program. HasFewClasses program) }
{
    match statements(alloc, bytes) {
        Err(end) => Err(form_refused(end)),
        Ok(raws) => program_of(alloc, &raws, checked),
    }
}

/// The statements of a source text, of all its units.
///
/// There are fewer than 2^32 - 1 bytes.
///
/// # Errors
///
/// Refused, with the first refusal of a line or a statement, which refuses the text. NoMemory may come in place of any answer.
pub fn read_statements(alloc: Global, bytes: &[u8]) -> Result<LabelledList, SourceEnd>
    requires { length bytes.now + 1 < 2 ^ 32 }
    ensures { IsReadAs (statements_read bytes.now) result }
{
    match statements(alloc, bytes) {
        Err(end) => Err(form_refused(end)),
        Ok(raws) => parsed(alloc, &raws),
    }
}

// The program that the statements of a text make, or their first refusal.
fn program_of(alloc: Global, raws: &RawStmtList, checked: bool) -> Result<Program, SourceEnd>
    requires within { AreWithinForm raws.now }
    requires accepted { IsAccepted raws.now }
    ensures read { IsReadAs (program_of_statements checked (statements_of raws.now)) result }
    ensures statements { IfOk result (IsProgramFrom raws.now checked) }
    ensures well_formed { IfOk result (λ program. IsWellFormed program) }
    ensures modest { IfOk result (λ program. HasFewOperations program) }
    ensures few { IfOk result (λ program. HasFewClasses program) }
{
    let stmts = parsed(alloc, raws)?;
    match listed(alloc, stmts, checked) {
        Err(end) => Err(sub_refused(end)),
        Ok(list) => program_from(alloc, &list, checked),
    }
}

// The program that listed statements make, or their first refusal.
fn program_from(alloc: Global, list: &LabelledList, checked: bool) -> Result<Program, SourceEnd>
    requires { IsSource list.now }
    ensures read { IsReadAs (program_from_list checked (Ok list.now)) result }
    ensures laid { IfOk result (λ program. layout list.now checked ≡ Ok program) }
    ensures well_formed { IfOk result (λ program. IsWellFormed program) }
    ensures modest { IfOk result (λ program. HasFewOperations program) }
    ensures few { IfOk result (λ program. HasFewClasses program) }
{
    match assemble(alloc, list, checked) {
        Err(end) => Err(layout_refused(end)),
        Ok(program) => {
            if has_many_classes(alloc, &program)? {
                Err(refused(Code::TooManyClasses, end_line(list)))
            } else {
                Ok(program)
            }
        }
    }
}

// Whether a program has more alias classes than a set of them holds.
fn has_many_classes(alloc: Global, program: &Program) -> Result<bool, NoMemory>
    requires { IsWellFormed program.now }
    ensures { IfOk result (λ many. many ≡ nat_lt most_classes (number_of_classes program.now)) }
{
    classes_are_counted();
    match classes_of::<CLASS_WORDS>(alloc, program) {
        Ok(_) => Ok(false),
        Err(ClassEnd::TooManyClasses) => Ok(true),
        Err(ClassEnd::NoMemory) => Err(NoMemory),
    }
}

// The line of END.
fn end_line(stmts: &LabelledList) -> u32
    requires { IsSource stmts.now }
    ensures { result ≡ last_line stmts.now }
{
    stmts.at(stmts.len() - 1).line
}

// The statements of texts, or the refusal of the first text that is none.
fn parsed(alloc: Global, raws: &RawStmtList) -> Result<LabelledList, SourceEnd>
    requires within { AreWithinForm raws.now }
    requires accepted { IsAccepted raws.now }
    ensures read { IsReadAs (statements_of raws.now) result }
    ensures text { IfOk result (λ stmts. IsText stmts) }
{
    let mut stmts = Sequence::with_capacity(alloc, raws.len() as usize)?;
    for raw in raws.as_slice() {
        match parse_stmt(alloc, raw) {
            Err(end) => return Err(stmt_refused(end)),
            Ok(stmt) => stmts.push(stmt)?,
        }
    }
    one_statement();
    Ok(stmts)
}

// ---- refusals

fn refused(code: Code, line: u32) -> SourceEnd
    ensures { result ≡ SourceEnd.Refused (record { line = line; code = code }) }
{
    SourceEnd::Refused(Refusal { line, code })
}

fn form_refused(end: FormEnd) -> SourceEnd
    ensures { result ≡ told_form end }
{
    match end {
        FormEnd::BadByte(line) => refused(Code::BadByte, line),
        FormEnd::BadLabelField(line) => refused(Code::BadLabelField, line),
        FormEnd::StrayContinuation(line) => refused(Code::StrayContinuation, line),
        FormEnd::TooManyContinuations(line) => refused(Code::TooManyContinuations, line),
        FormEnd::NoEnd(line) => refused(Code::NoEnd, line),
        FormEnd::TooManyStatements(line) => refused(Code::TooManyStatements, line),
        FormEnd::NoMemory => SourceEnd::NoMemory,
    }
}

fn stmt_refused(end: StmtEnd) -> SourceEnd
    ensures { result ≡ told_stmt end }
{
    match end {
        StmtEnd::NoForm(line) => refused(Code::NoForm, line),
        StmtEnd::BadConstant(line) => refused(Code::BadConstant, line),
        StmtEnd::TooDeep(line) => refused(Code::TooDeep, line),
        StmtEnd::NoMemory => SourceEnd::NoMemory,
    }
}

fn sub_refused(end: SubEnd) -> SourceEnd
    ensures { result ≡ told_sub end }
{
    match end {
        SubEnd::UnitOrder(line) => refused(Code::OutOfOrder, line),
        SubEnd::Layout(unit) => layout_refused(unit),
        SubEnd::SubTwice(line) => refused(Code::SubTwice, line),
        SubEnd::NoSub(line) => refused(Code::NoSub, line),
        SubEnd::BadCall(line) => refused(Code::BadCall, line),
        SubEnd::BadBlock(line) => refused(Code::BadBlock, line),
        SubEnd::Recursion(line) => refused(Code::Recursion, line),
        SubEnd::TooManyStatements(line) => refused(Code::TooManyStatements, line),
        SubEnd::TooManyNames(line) => refused(Code::TooManyNames, line),
        SubEnd::NoMemory => SourceEnd::NoMemory,
    }
}

fn layout_refused(end: LayoutEnd) -> SourceEnd
    ensures { result ≡ told_layout end }
{
    match end {
        LayoutEnd::OutOfOrder(line) => refused(Code::OutOfOrder, line),
        LayoutEnd::RealName(line) => refused(Code::RealName, line),
        LayoutEnd::TypeWrong(line) => refused(Code::TypeWrong, line),
        LayoutEnd::LayoutWrong(line) => refused(Code::LayoutWrong, line),
        LayoutEnd::LabelTwice(line) => refused(Code::LabelTwice, line),
        LayoutEnd::LabelMissing(line) => refused(Code::LabelMissing, line),
        LayoutEnd::BadNesting(line) => refused(Code::BadNesting, line),
        LayoutEnd::JumpInto(line) => refused(Code::JumpInto, line),
        LayoutEnd::TooManyWords(line) => refused(Code::TooManyWords, line),
        LayoutEnd::TooManyOps(line) => refused(Code::TooManyOps, line),
        LayoutEnd::NoMemory => SourceEnd::NoMemory,
    }
}
