//! The program in a file, as it was given and in the language of `dfc`.

ghost use Rattle.std.specs.Prelude.{◌≡◌, ◌≤◌, IfOk, None, Some, length, string_bytes};
ghost use Rattle.shown_lines.specs.Places.{place_text, shown_text};
ghost use Rattle.source_maps.specs.Places.{map_of};
ghost use Rattle.view_commands.specs.Words.{program_meant};
ghost use Rattle.view_jobs.specs.Files.{OfKnown};
ghost use Rattle.view_jobs.specs.Given.{given_as, given_meant};
ghost use Rattle.view_jobs.specs.Lowered.{IsFileText, IsLowering, IsWithinFile, IsWithinLowering, TellsPlace, lowering_text, place_report};

use crate::files::{Files, LONGEST};
use f77_lower::{Lowered, lower};
use fortran_tree::{LowerError, Reason};
use shown_lines::{Place, Shown, caret, line_of, shown};
use source_maps::SourceMap;
use std::alloc::Global;
use std::fmt;
use view_commands::Program;
use view_output::Fault;

/// A program as it was given, and what it was lowered to, where it is everyday Fortran. Neither text has more than 4,194,304 bytes.
#[derive(Drop)]
pub struct Given {
    source: Vec<u8>,
    lowered: Option<Lowered>,
}

/// What a file has.
#[derive(Drop)]
pub enum FileText {
    /// A program.
    Program(Given),
    /// Everyday Fortran that can't be lowered, and why.
    Refused(String),
}

/// What everyday Fortran comes to.
#[derive(Drop)]
pub enum Lowering {
    /// A program in the language of `dfc`.
    Done(Lowered),
    /// None, and why.
    Refused(String),
}

impl Given {
    /// The text that was given.
    pub fn source(&self) -> &[u8]
        ensures { result.now ≡ (given_meant self.now).source }
    {
        self.source.as_slice()
    }

    /// The text in the language of `dfc`.
    pub fn text(&self) -> &[u8]
        ensures { result.now ≡ (given_meant self.now).text }
    {
        match &self.lowered {
            Some(lowered) => lowered.text.as_slice(),
            None => self.source.as_slice(),
        }
    }

    /// What in the text that was given became lines and names of the other.
    pub fn map(&self) -> SourceMap<'_>
        ensures { map_of result ≡ (given_meant self.now).map }
    {
        match &self.lowered {
            Some(lowered) => SourceMap {
                lines: lowered.lines.as_slice(),
                names: lowered.renamed.as_slice(),
            },
            None => SourceMap {
                lines: &[],
                names: &[],
            },
        }
    }
}

/// Reads the program in a file, and lowers it where it is everyday Fortran.
pub fn read_given<F: Files>(
    alloc: Global,
    files: &F,
    program: Program<'_>,
) -> Result<FileText, Fault>
    ensures known { IfOk result (λ read. OfKnown (F.known files.now program.entry.name.now) (λ source. IsFileText (program_meant program.entry) source read)) }
    ensures within { IfOk result IsWithinFile }
{
    let source = files.read(alloc, program.name)?;
    given_of(alloc, program, source)
}

/// What a source is as a program.
pub fn given_of(alloc: Global, program: Program<'_>, source: Vec<u8>) -> Result<FileText, Fault>
    requires { length source.items ≤ 4194304 }
    ensures text { IfOk result (IsFileText (program_meant program.entry) source.items) }
    ensures within { IfOk result IsWithinFile }
{
    if !program.is_wide {
        return Ok(FileText::Program(as_it_is(source)));
    }
    match lower_text(alloc, program.name, source.as_slice())? {
        Lowering::Done(lowered) => Ok(FileText::Program(Given {
            source,
            lowered: Some(lowered),
        })),
        Lowering::Refused(report) => Ok(FileText::Refused(report)),
    }
}

/// A program in the language of `dfc`, as it is.
pub fn as_it_is(source: Vec<u8>) -> Given
    ensures meant { given_meant result ≡ given_as source.items None }
    ensures source { result.source.items ≡ source.items }
    ensures lowered { result.lowered ≡ None }
{
    Given {
        source,
        lowered: None,
    }
}

/// Lowers everyday Fortran from a file of this name.
pub fn lower_text(alloc: Global, name: &str, source: &[u8]) -> Result<Lowering, Fault>
    requires { length source.now ≤ 4194304 }
    ensures lowers { IfOk result (IsLowering name.now source.now) }
    ensures within { IfOk result IsWithinLowering }
{
    match lower(alloc, source) {
        Ok(lowered) => {
            if lowered.text.len() > LONGEST as usize {
                return Err(Fault::TooLong);
            }
            Ok(Lowering::Done(lowered))
        }
        Err(
            LowerError::Refused {
                line,
                column,
                reason,
            },
        ) => {
            let place = Place {
                file: name,
                line,
                column: Some(column),
            };
            let report = lowering_report(alloc, place, source, reason)?;
            Ok(Lowering::Refused(report))
        }
        Err(LowerError::NoMemory) => Err(Fault::NoMemory),
    }
}

// Why what stands at a place of a source can't be lowered, with the line.
fn lowering_report(
    alloc: Global,
    place: Place<'_>,
    source: &[u8],
    reason: Reason,
) -> Result<String, Fault>
    ensures { IfOk result (λ report. TellsPlace place.entry source.now (string_bytes report)) }
{
    let why = format!(in alloc; "{reason}")?;
    let line = line_of(source, place.line);
    written(alloc, place, line, why.as_str())
}

// The text of a report.
fn written<'p, 'w>(
    alloc: Global,
    place: Place<'p>,
    line: &[u8],
    why: &'w str,
) -> Result<String, Fault>
    ensures { IfOk result (λ report. string_bytes report ≡ place_report place.entry line.now why.now) }
{
    let caret = caret(alloc, line, place.column)?;
    let line = shown(alloc, line)?;
    let report = LoweringReport {
        place,
        why,
        shown: Shown {
            line: line.as_str(),
            caret: caret.as_str(),
        },
    };
    Ok(format!(in alloc; "{report}")?)
}

// What is told of a text that can't be lowered.
#[derive(Clone, Copy)]
struct LoweringReport<'p, 'w, 's> {
    place: Place<'p>,
    why: &'w str,
    shown: Shown<'s>,
}

impl fmt::Display for LoweringReport<'_, '_, '_> {
    ghost output = { λ report. Some (lowering_text (place_text report.place) report.why.now (shown_text report.shown)) };

    fn fmt<W: fmt::Write>(&self, f: &mut fmt::Formatter<W>) -> fmt::Result {
        let LoweringReport { place, why, shown } = *self;
        write!(f, "{place}: error: {why}\n{shown}")
    }
}
