ghost use Rattle.std.specs.Prelude.{◌++◌, OnOk, codes};
ghost use Rattle.std.specs.Fmt.{decimal};
ghost use Rattle.view_jobs.specs.Faults.{fault_text};
ghost use Rattle.view_output.specs.Told.{Adds, told};

use df_io::Sink;
use view_output::{Fault, Output};

/// Tells in a line why something isn't done.
pub fn tell_fault<E: Sink + Drop>(fault: Fault, errors: &mut Output<E>) -> Result<(), Fault>
    ensures { OnOk result (Adds (told E.got errors.old) (told E.got errors.new) (fault_text fault)) }
{
    match fault {
        Fault::Usage => errors.text("dfc_view: no such command or option; try dfc_view --help\n"),
        Fault::Line(line) => tell_line(
            line,
            " can't be read; regions, graph and trace come in this order\n",
            errors,
        ),
        Fault::Firing(line) => tell_line(line, " fires no node of the graph\n", errors),
        Fault::Refused => errors.text("dfc_view: dfc refused the program\n"),
        Fault::NoStatement(line) => tell_none("dfc_view: no operation is of line ", line, errors),
        Fault::NoLine(line) => tell_none("dfc_view: the graph has no token line ", line, errors),
        Fault::File => errors.text("dfc_view: the file can't be read\n"),
        Fault::NoText => errors.text("dfc_view: what is asked for is not in the text\n"),
        Fault::TooLong => errors.text("dfc_view: the text is too long\n"),
        Fault::Read => errors.text("dfc_view: standard input failed\n"),
        Fault::Write => errors.text("dfc_view: standard output failed\n"),
        Fault::NoMemory => errors.text("dfc_view: memory ran out\n"),
        Fault::NoWords => errors.text("dfc_view: the arguments could not be read\n"),
    }
}

// Tells what is wrong with a line of the text.
fn tell_line<E: Sink + Drop>(line: u64, wrong: &str, errors: &mut Output<E>) -> Result<(), Fault>
    ensures { OnOk result (Adds (told E.got errors.old) (told E.got errors.new) (codes "dfc_view: line " ++ decimal line ++ wrong.now)) }
{
    errors.text("dfc_view: line ")?;
    errors.number(line)?;
    errors.text(wrong)
}

// Tells that there is no such line.
fn tell_none<E: Sink + Drop>(words: &str, line: u32, errors: &mut Output<E>) -> Result<(), Fault>
    ensures { OnOk result (Adds (told E.got errors.old) (told E.got errors.new) (words.now ++ decimal line ++ codes "\n")) }
{
    errors.item(words, line)?;
    errors.text("\n")
}
