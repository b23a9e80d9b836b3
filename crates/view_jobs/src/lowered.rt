//! Everyday Fortran in the language of `dfc`.

ghost use Rattle.std.specs.Prelude.{◌≡◌, IfOk, OnOk, flat_map};
ghost use Rattle.source_maps.specs.Places.{map_of};
ghost use Rattle.view_commands.specs.Words.{program_meant};
ghost use Rattle.view_jobs.specs.Files.{OfKnown};
ghost use Rattle.view_jobs.specs.Given.{given_meant};
ghost use Rattle.view_jobs.specs.Lowered.{LowersFile, form_text, line_text, lines_text, map_text, short_line, short_name_text};
ghost use Rattle.view_output.specs.Told.{Adds, told};

use crate::DONE;
use crate::files::Files;
use crate::given::{FileText, Given, read_given};
use crate::refusals::tell_refused;
use df_io::Sink;
use source_maps::SourceMap;
use std::alloc::Global;
use view_commands::{LoweredForm, Program};
use view_output::{Fault, Output};

/// Writes the program in a file in the language of `dfc`, or the map of its lines and names, and answers the status to end with.
/// Where it can't be lowered, `errors` gets why.
pub fn lower_file<F: Files, K: Sink + Drop, E: Sink + Drop>(
    alloc: Global,
    files: &F,
    form: LoweredForm,
    program: Program<'_>,
    output: &mut Output<K>,
    errors: &mut Output<E>,
) -> Result<u8, Fault>
    ensures { IfOk result (λ status. OfKnown (F.known files.now program.entry.name.now) (λ source. LowersFile form (program_meant program.entry) source (told K.got output.old) (told K.got output.new) (told E.got errors.old) (told E.got errors.new) status)) }
{
    match read_given(alloc, files, program)? {
        FileText::Program(given) => write_form(form, &given, output),
        FileText::Refused(report) => tell_refused(report.as_str(), errors),
    }
}

// Writes a program in the language of `dfc`, or the map, and answers the status to end with.
fn write_form<K: Sink + Drop>(
    form: LoweredForm,
    given: &Given,
    output: &mut Output<K>,
) -> Result<u8, Fault>
    ensures { IfOk result (λ status. Adds (told K.got output.old) (told K.got output.new) (form_text form (given_meant given.now)) × (status ≡ 0)) }
{
    match form {
        LoweredForm::Text => output.bytes(given.text())?,
        LoweredForm::Map => write_map(given.map(), output)?,
    }
    Ok(DONE)
}

// Writes the line of the source for each line of the program, and the names that were made shorter.
fn write_map<K: Sink + Drop>(source: SourceMap<'_>, output: &mut Output<K>) -> Result<(), Fault>
    ensures { OnOk result (Adds (told K.got output.old) (told K.got output.new) (map_text (map_of source.entry))) }
{
    write_lines(source.lines, output)?;
    write_short_names(source.names, output)
}

// Writes the line of the source for each line of the program.
fn write_lines<K: Sink + Drop>(lines: &[u32], output: &mut Output<K>) -> Result<(), Fault>
    ensures { OnOk result (Adds (told K.got output.old) (told K.got output.new) (lines_text 1 lines.now)) }
{
    for k in 0..lines.len() {
        write_line(k as u64 + 1, lines[k], output)?;
    }
    Ok(())
}

// Writes a line of a text, and the line of the source that it comes from.
fn write_line<K: Sink + Drop>(line: u64, source: u32, output: &mut Output<K>) -> Result<(), Fault>
    ensures { OnOk result (Adds (told K.got output.old) (told K.got output.new) (line_text line source)) }
{
    output.number(line)?;
    output.item(" ", source)?;
    output.text("\n")
}

// Writes the names that were made shorter.
fn write_short_names<K: Sink + Drop>(
    names: &[(String, String)],
    output: &mut Output<K>,
) -> Result<(), Fault>
    ensures { OnOk result (Adds (told K.got output.old) (told K.got output.new) (flat_map short_name_text names.now)) }
{
    for (long, short) in names {
        write_short_name(long.as_str(), short.as_str(), output)?;
    }
    Ok(())
}

// Writes a name that was made shorter.
fn write_short_name<K: Sink + Drop>(
    long: &str,
    short: &str,
    output: &mut Output<K>,
) -> Result<(), Fault>
    ensures { OnOk result (Adds (told K.got output.old) (told K.got output.new) (short_line long.now short.now)) }
{
    output.text("NAME ")?;
    output.text(long)?;
    output.text(" ")?;
    output.text(short)?;
    output.text("\n")
}
