//! What the names of subroutines become, as a text: a line a name.
ghost use Rattle.std.specs.Prelude.{◌++◌, codes, OnOk};
ghost use Rattle.view_output.specs.Told.{Adds, told};
ghost use Rattle.copied_names.specs.WrittenNames.{name_text, names_text, new_text};

use crate::copied::{Becomes, CopiedName};
use df_io::Sink;
use f77_tree::Name;
use view_output::{Fault, Output};

/// Writes a line for each name: the subroutine, the name, and what it becomes.
pub fn write_names<K: Sink + Drop>(
    names: &[CopiedName],
    output: &mut Output<K>,
) -> Result<(), Fault>
    ensures { OnOk result (Adds (told K.got output.old) (told K.got output.new) (names_text names.now)) }
{
    for name in names {
        write_name(name, output)?;
    }
    Ok(())
}

// Writes the line of a name.
fn write_name<K: Sink + Drop>(name: &CopiedName, output: &mut Output<K>) -> Result<(), Fault>
    ensures { OnOk result (Adds (told K.got output.old) (told K.got output.new) (name_text name.now)) }
{
    write_word(&name.unit, output)?;
    write_word(&name.name, output)?;
    write_new(&name.becomes, output)
}

// Writes a name and a blank.
fn write_word<K: Sink + Drop>(name: &Name, output: &mut Output<K>) -> Result<(), Fault>
    ensures { OnOk result (Adds (told K.got output.old) (told K.got output.new) (name.now ++ codes " ")) }
{
    output.bytes(name.as_bytes())?;
    output.text(" ")
}

// Writes what a name becomes, and the end of the line.
fn write_new<K: Sink + Drop>(becomes: &Becomes, output: &mut Output<K>) -> Result<(), Fault>
    ensures { OnOk result (Adds (told K.got output.old) (told K.got output.new) (new_text becomes.now)) }
{
    match becomes {
        Becomes::Argument(place) => {
            output.text("argument ")?;
            output.number(*place as u64)?;
        }
        Becomes::Named(name) => output.bytes(name.as_bytes())?,
    }
    output.text("\n")
}
