//! Why a text is refused, with the names of the text where its statements show them.

ghost use Rattle.std.specs.Prelude.{◌≡◌, ◌==◌, IfOk, IfSome, option_map};
ghost use Rattle.std.specs.List.{find};
ghost use Rattle.refusal_reports.specs.Refusals.{IsByCode, IsCauseOf, IsFound};

use crate::advices::advice_on;
use df_sequence::NoMemory;
use f77_source::{Code, Refusal};
use f77_tree::Labelled;
use fixed_form::RawStmt;
use form_advice::{Advice, TABLES, advice_on_form};
use kind_causes::cause_of_kind;
use refusal_causes::{
    Cause, cause_of_block, cause_of_call, cause_of_label, cause_of_name, label_above,
};
use std::alloc::Global;

/// What is told of a refusal: of the line that it names, its statement as it stands there, and the statements of the text.
///
/// # Errors
///
/// `NoMemory` where memory runs out.
pub(crate) fn cause_of<'a>(
    alloc: Global,
    line: &[u8],
    raws: &[RawStmt],
    stmts: &'a [Labelled],
    refusal: Refusal,
) -> Result<Cause<'a>, NoMemory>
    ensures { IfOk result (λ cause. IsCauseOf line.now stmts.now refusal cause) }
{
    match cause_with_names(alloc, stmts, refusal)? {
        Some(cause) => Ok(cause),
        None => Ok(Cause::Rule(rule_of(alloc, line, raws, stmts, refusal)?)),
    }
}

// What is told of a refusal with the names of the text.
fn cause_with_names<'a>(
    alloc: Global,
    stmts: &'a [Labelled],
    refusal: Refusal,
) -> Result<Option<Cause<'a>>, NoMemory>
    ensures { IfOk result (λ found. IfSome found (IsFound stmts.now refusal.line refusal.code)) }
{
    match refusal.code {
        Code::BadCall => match cause_of_call(alloc, stmts, refusal.line)? {
            Some(cause) => Ok(Some(Cause::Call(cause))),
            None => Ok(None),
        },
        Code::BadBlock => match cause_of_block(alloc, stmts, refusal.line)? {
            Some(cause) => Ok(Some(Cause::Block(cause))),
            None => Ok(None),
        },
        Code::RealName | Code::TypeWrong => match cause_of_kind(alloc, stmts, refusal.line)? {
            Some(cause) => Ok(Some(Cause::Kind(cause))),
            None => Ok(None),
        },
        Code::SubTwice | Code::NoSub | Code::Recursion => match cause_of_name(stmts, refusal.line) {
            Some(cause) => Ok(Some(Cause::Name(cause))),
            None => Ok(None),
        },
        Code::LabelTwice => match label_above(stmts, refusal.line) {
            Some(cause) => Ok(Some(Cause::Label(cause))),
            None => Ok(None),
        },
        Code::LabelMissing => match cause_of_label(stmts, refusal.line) {
            Some(cause) => Ok(Some(Cause::Label(cause))),
            None => Ok(None),
        },
        _ => Ok(None),
    }
}

// What is told of a refusal without names: by the tables of statements and signs where its statement has no form, and else by
// its code.
fn rule_of(
    alloc: Global,
    line: &[u8],
    raws: &[RawStmt],
    stmts: &[Labelled],
    refusal: Refusal,
) -> Result<Advice, NoMemory>
    ensures { IfOk result (λ advice. IsByCode line.now stmts.now refusal.line advice.wrong.now refusal.code) }
{
    let by_code = advice_on(line, stmts, refusal);
    match refusal.code {
        Code::NoForm => match raw_at(raws, refusal.line) {
            Some(raw) => advice_on_form(alloc, &TABLES, raw.text.as_bytes()),
            None => Ok(by_code),
        },
        _ => Ok(by_code),
    }
}

// The statement that begins at a line, as it stands there.
fn raw_at(raws: &[RawStmt], line: u32) -> Option<&RawStmt>
    ensures { option_map (λ raw. raw.now) result ≡ find (λ raw. raw.line == line) raws.now }
{
    raws.iter().find(|raw| raw.line == line)
}
