//! What is wrong with a text.

ghost use Rattle.std.specs.Prelude.{◌≡◌, ◌≤◌, IfOk, false, flat_map, length, map, option_map};
ghost use Rattle.std.specs.String.{string_bytes};
ghost use Rattle.job_terms.specs.Codes.{name_of};
ghost use Rattle.job_terms.specs.declared.reading.Code.TheVariants as code_kind;
ghost use Rattle.f77_source.specs.Reading.{reading};
ghost use Rattle.f77_tree.specs.WellFormed.{IsWellFormed};
ghost use Rattle.refusal_reports.specs.Refusals.{IsReportOf};
ghost use Rattle.source_maps.specs.Places.{map_of};
ghost use Rattle.view_commands.specs.Words.{program_meant};
ghost use Rattle.view_jobs.specs.Files.{OfKnown};
ghost use Rattle.view_jobs.specs.Given.{IsWithin, given_meant};
ghost use Rattle.view_jobs.specs.Programs.{RefusesProgram};
ghost use Rattle.view_jobs.specs.Refused.{ChecksFiles, ReportsFile, ReportsFiles, TellsFile, TellsProgram, TellsReading, TellsText, placed as spec_placed, placed_report, traps_text, unless_empty as spec_unless_empty};
ghost use Rattle.view_output.specs.Told.{Adds, told};

use crate::files::Files;
use crate::given::{FileText, Given, given_of};
use crate::{DONE, FAULTY, REFUSED};
use df_io::Sink;
use f77_source::{Refusal, SourceEnd, read_program};
use f77_tree::Program as SourceProgram;
use job_terms::Code;
use refusal_reports::{refusal_report, too_long_report};
use source_maps::SourceMap;
use std::alloc::Global;
use sure_traps::{SureTrap, sure_traps};
use trap_reports::trap_report;
use view_commands::{Program, is_checked};
use view_output::{Fault, Output};

/// Tells of each file what is wrong with it, and answers the status to end with: 1 where anything is.
pub fn check_files<F: Files, K: Sink + Drop>(
    alloc: Global,
    files: &F,
    is_wide: bool,
    names: &[String],
    output: &mut Output<K>,
) -> Result<u8, Fault>
    ensures { IfOk result (ChecksFiles is_wide (F.known files.now) (map string_bytes names.now) (told K.got output.old) (told K.got output.new)) }
{
    if report_files(alloc, files, is_wide, names, output)? {
        Ok(FAULTY)
    } else {
        Ok(DONE)
    }
}

// Tells of each file what is wrong with it, and answers whether anything is.
fn report_files<F: Files, K: Sink + Drop>(
    alloc: Global,
    files: &F,
    is_wide: bool,
    names: &[String],
    output: &mut Output<K>,
) -> Result<bool, Fault>
    ensures { IfOk result (ReportsFiles is_wide (F.known files.now) (map string_bytes names.now) (told K.got output.old) (told K.got output.new)) }
{
    let mut found = false;
    for name in names {
        let is_faulty = report_file(alloc, files, is_wide, name.as_str(), output)?;
        found |= is_faulty;
    }
    Ok(found)
}

// Tells what is wrong with a file, and answers whether anything is.
fn report_file<F: Files, K: Sink + Drop>(
    alloc: Global,
    files: &F,
    is_wide: bool,
    name: &str,
    output: &mut Output<K>,
) -> Result<bool, Fault>
    ensures { IfOk result (ReportsFile is_wide (F.known files.now name.now) name.now (told K.got output.old) (told K.got output.new)) }
{
    match report_of_file(alloc, files, is_wide, name)? {
        Some(report) => {
            output.text(report.as_str())?;
            Ok(true)
        }
        None => Ok(false),
    }
}

// What is wrong with a file, if anything is.
fn report_of_file<F: Files>(
    alloc: Global,
    files: &F,
    is_wide: bool,
    name: &str,
) -> Result<Option<String>, Fault>
    ensures { IfOk result (λ report. OfKnown (F.known files.now name.now) (λ text. TellsFile is_wide name.now text (option_map string_bytes report))) }
{
    match files.read(alloc, name) {
        Ok(text) => report_of_text(alloc, is_wide, name, text),
        Err(Fault::TooLong) => Ok(Some(too_long_report(alloc, name)?)),
        Err(fault) => Err(fault),
    }
}

// What is wrong with the text of a file, if anything is.
fn report_of_text(
    alloc: Global,
    is_wide: bool,
    name: &str,
    text: Vec<u8>,
) -> Result<Option<String>, Fault>
    requires { length text.items ≤ 4194304 }
    ensures { IfOk result (λ report. TellsText is_wide name.now text.items (option_map string_bytes report)) }
{
    let program = Program {
        is_wide,
        name,
        words: &[],
    };
    match given_of(alloc, program, text)? {
        FileText::Program(given) => report_of_program(alloc, name, &given),
        FileText::Refused(report) => Ok(Some(report)),
    }
}

// What is wrong with a program, if anything is: why `dfc` refuses it, or which statements trap whenever they are executed.
fn report_of_program(alloc: Global, name: &str, given: &Given) -> Result<Option<String>, Fault>
    requires { IsWithin (given_meant given.now) }
    ensures { IfOk result (λ report. TellsProgram name.now (given_meant given.now) (reading (given_meant given.now).text false) (option_map string_bytes report)) }
{
    match read_program(alloc, given.text(), false) {
        Ok(p) => Ok(unless_empty(reports_of_traps(alloc, name, given, &p)?)),
        Err(SourceEnd::Refused(refusal)) => Ok(Some(report(alloc, name, given, refusal)?)),
        Err(SourceEnd::NoMemory) => Err(Fault::NoMemory),
    }
}

// A text, if it has characters.
fn unless_empty(text: String) -> Option<String>
    ensures { option_map string_bytes result ≡ spec_unless_empty (string_bytes text) }
{
    if text.is_empty() { None } else { Some(text) }
}

// The reports of the traps that are sure, one after another.
fn reports_of_traps(
    alloc: Global,
    name: &str,
    given: &Given,
    p: &SourceProgram,
) -> Result<String, Fault>
    requires { IsWellFormed p.now }
    ensures { IfOk result (λ reports. string_bytes reports ≡ traps_text name.now (given_meant given.now) p.now) }
{
    let traps = sure_traps(alloc, p)?;
    one_after_another(alloc, name, given, traps.as_slice())
}

// The reports of traps.
fn one_after_another(
    alloc: Global,
    name: &str,
    given: &Given,
    traps: &[SureTrap],
) -> Result<String, Fault>
    ensures { IfOk result (λ reports. string_bytes reports ≡ flat_map (placed_report name.now (given_meant given.now)) traps.now) }
{
    let mut reports = String::new(alloc);
    for trap in traps {
        let report = trap_of(alloc, name, given, *trap)?;
        reports.push_str(report.as_str())?;
    }
    Ok(reports)
}

// The report of a trap.
fn trap_of(alloc: Global, name: &str, given: &Given, trap: SureTrap) -> Result<String, Fault>
    ensures { IfOk result (λ report. string_bytes report ≡ placed_report name.now (given_meant given.now) trap) }
{
    let at_source = SureTrap {
        line: given.map().line(trap.line),
        cause: trap.cause,
    };
    Ok(trap_report(alloc, name, given.source(), at_source)?)
}

/// What is wrong with a program, if `dfc` refuses it, in the checked dialect or the plain one.
pub fn report_of(
    alloc: Global,
    name: &str,
    given: &Given,
    is_checked: bool,
) -> Result<Option<String>, Fault>
    requires { IsWithin (given_meant given.now) }
    ensures { IfOk result (λ report. TellsReading name.now (given_meant given.now) (reading (given_meant given.now).text is_checked) (option_map string_bytes report)) }
{
    match read_program(alloc, given.text(), is_checked) {
        Ok(_) => Ok(None),
        Err(SourceEnd::Refused(refusal)) => Ok(Some(report(alloc, name, given, refusal)?)),
        Err(SourceEnd::NoMemory) => Err(Fault::NoMemory),
    }
}

// The report of a refusal.
fn report(alloc: Global, name: &str, given: &Given, refusal: Refusal) -> Result<String, Fault>
    requires { IsWithin (given_meant given.now) }
    ensures { IfOk result (λ told. IsReportOf name.now (given_meant given.now).source (spec_placed (given_meant given.now).map refusal) (name_of (code_kind.Text refusal.code)) (string_bytes told)) }
{
    let code = Code::Text(refusal.code).name();
    let at_source = placed(given.map(), refusal);
    Ok(refusal_report(alloc, name, given.source(), at_source, code)?)
}

// A refusal at the line of the source.
fn placed(source: SourceMap<'_>, refusal: Refusal) -> Refusal
    ensures { result ≡ spec_placed (map_of source.entry) refusal }
{
    Refusal {
        line: source.line(refusal.line),
        code: refusal.code,
    }
}

/// Tells a report of what is refused, and answers the status to end with.
pub fn tell_refused<E: Sink + Drop>(report: &str, errors: &mut Output<E>) -> Result<u8, Fault>
    ensures { IfOk result (λ status. Adds (told E.got errors.old) (told E.got errors.new) report.now × (status ≡ 2)) }
{
    errors.text(report)?;
    Ok(REFUSED)
}

/// Tells why a program is refused, where that is the fault, and answers the status to end with.
pub fn refused<E: Sink + Drop>(
    alloc: Global,
    program: Program<'_>,
    given: &Given,
    fault: Fault,
    errors: &mut Output<E>,
) -> Result<u8, Fault>
    requires { IsWithin (given_meant given.now) }
    ensures { IfOk result (RefusesProgram (program_meant program.entry) (given_meant given.now) (told E.got errors.old) (told E.got errors.new)) }
{
    if fault != Fault::Refused {
        return Err(fault);
    }
    match report_of(alloc, program.name, given, is_checked(program.words))? {
        Some(report) => tell_refused(report.as_str(), errors),
        None => Err(Fault::Refused),
    }
}
